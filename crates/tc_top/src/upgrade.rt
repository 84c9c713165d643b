// What `upgrade` answers by the text of its operand.
ghost use Rattle.std.specs.Prelude.{◌≤◌, IfOk, length};
ghost use Rattle.tc_answer.specs.Answers as a;
ghost use Rattle.tc_answer.specs.AnswersSeen.{Says};
ghost use Rattle.tc_base.specs.Reading.{longest_text};
ghost use Rattle.tc_top.specs.Certifying.{Upgrades};

use crate::verdicts::{answer_pair_failure, answer_upgrade};
use std::alloc::Global;
use tc_answer::{Answer, Operand};
use tc_base::NoMemory;

/// The text in version 2 of the operand, where that is a certificate's text.
pub fn upgrade_text(alloc: Global, certificate: &Operand<'_>) -> Result<Answer, NoMemory>
    requires { length certificate.now.text.items ≤ longest_text }
    ensures { IfOk result (λ said. (answer : a.Answer) × Says said answer
        × Upgrades certificate.now.text.items answer) }
{
    match tc_decide::upgrade(alloc, &certificate.text) {
        Ok(upgrade) => answer_upgrade(alloc, upgrade),
        Err(failure) => answer_pair_failure(alloc, certificate.name, certificate.name, failure),
    }
}
