// What `prove` answers by the texts of its operands.
ghost use Rattle.std.specs.Prelude.{◌≤◌, IfOk, length};
ghost use Rattle.tc_answer.specs.Answers as a;
ghost use Rattle.tc_answer.specs.AnswersSeen.{Says};
ghost use Rattle.tc_base.specs.Reading.{longest_text};
ghost use Rattle.tc_base.specs.declared.limits.TheConstants.{GREATEST_LIMIT};
ghost use Rattle.tc_top.specs.Certifying.{Proves};

use crate::schema_texts::schema_text;
use crate::verdicts::{answer_failure, answer_proof};
use bumpalo::Bump;
use std::alloc::Global;
use tc_answer::{Answer, Operands};
use tc_base::NoMemory;

/// Decides by the texts of the operands whether the stylesheet is safe, with a certificate where it is.
pub(crate) fn prove_texts(
    alloc: Global,
    most: u32,
    operands: &Operands<'_>,
) -> Result<Answer, NoMemory>
    requires few { most ≤ GREATEST_LIMIT }
    requires input { length operands.now.input.text.items ≤ longest_text }
    requires output { length operands.now.output.text.items ≤ longest_text }
    requires sheet { length operands.now.sheet.text.items ≤ longest_text }
    ensures { IfOk result (λ said. (answer : a.Answer) × Says said answer
        × Proves most operands.now.input.name.now operands.now.output.name.now
        operands.now.sheet.name.now
        operands.now.input.text.items operands.now.output.text.items operands.now.sheet.text.items
        answer) }
{
    let arena = Bump::new(alloc);
    let input = schema_text(&operands.input);
    let output = schema_text(&operands.output);
    match tc_decide::prove(&arena, alloc, most, input, output, &operands.sheet.text) {
        Ok(proof) => answer_proof(alloc, proof),
        Err(failure) => answer_failure(alloc, operands, failure),
    }
}
