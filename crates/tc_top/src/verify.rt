// What `verify` answers by the texts of its operands.
ghost use Rattle.std.specs.Prelude.{◌≤◌, IfOk, length};
ghost use Rattle.tc_answer.specs.Answers as a;
ghost use Rattle.tc_answer.specs.AnswersSeen.{Says};
ghost use Rattle.tc_base.specs.Reading.{longest_text};
ghost use Rattle.tc_top.specs.Certifying.{Verifies};

use crate::schema_texts::schema_text;
use crate::verdicts::{answer_failure, answer_verification};
use bumpalo::Bump;
use std::alloc::Global;
use tc_answer::{Answer, Operand, Operands};
use tc_base::NoMemory;

/// Decides by the texts of the operands whether the text of another one is a certificate's.
pub(crate) fn verify_texts(
    alloc: Global,
    operands: &Operands<'_>,
    certificate: &Operand<'_>,
) -> Result<Answer, NoMemory>
    requires input { length operands.now.input.text.items ≤ longest_text }
    requires output { length operands.now.output.text.items ≤ longest_text }
    requires sheet { length operands.now.sheet.text.items ≤ longest_text }
    requires certificate { length certificate.now.text.items ≤ longest_text }
    ensures { IfOk result (λ said. (answer : a.Answer) × Says said answer
        × Verifies operands.now.input.name.now operands.now.output.name.now
        operands.now.sheet.name.now
        operands.now.input.text.items operands.now.output.text.items operands.now.sheet.text.items
        certificate.now.text.items answer) }
{
    let arena = Bump::new(alloc);
    let input = schema_text(&operands.input);
    let output = schema_text(&operands.output);
    match tc_decide::verify(
        &arena,
        alloc,
        input,
        output,
        &operands.sheet.text,
        &certificate.text,
    ) {
        Ok(verification) => answer_verification(alloc, verification),
        Err(failure) => answer_failure(alloc, operands, failure),
    }
}
