// What `dead` answers.
ghost use Rattle.std.specs.Prelude.{◌≡◌, ◌≤◌, ℕ, List, IfOk, length};
ghost use Rattle.tc_answer.specs.Answers as a;
ghost use Rattle.tc_answer.specs.AnswersSeen.{Says};
ghost use Rattle.tc_answer.specs.Words as w;
ghost use Rattle.tc_answer.specs.Words.{Words};
ghost use Rattle.tc_base.specs.Reading.{longest_text};
ghost use Rattle.tc_io.specs.Reads.{Happened};
ghost use Rattle.tc_top.specs.AnswersSeen.{IsRightFor};
ghost use Rattle.tc_top.specs.DeadSpots.{TellsDead};
ghost use Rattle.tc_top.specs.DeadSeen.{SaysUntold};

use crate::schema_texts::schema_text;
use crate::unread::answer_unread;
use crate::verdicts::answer_limit;
use bumpalo::Bump;
use std::alloc::Global;
use tc_answer::{Answer, Operand, Source, read_pair};
use tc_base::NoMemory;
use tc_decide::{Failure, Which};
use tc_io::Store;

/// Reads a schema and a stylesheet, and tells which rules, named bodies and branches of the stylesheet no valid document
/// instantiates.
pub fn dead<S: Store>(
    alloc: Global,
    input: &str,
    sheet: &str,
    store: &mut S,
) -> Result<Answer, NoMemory>
    ensures same { S.holds store.new ≡ S.holds store.old }
    ensures count { S.faults store.old ≤ S.faults store.new }
    ensures ok { IfOk result
        (λ said. (words : List (List ℕ)) → Words words (w.dead input.now sheet.now)
        → IsRightFor words (Happened S.read_gives S.holds S.faults store.old store.new) said) }
{
    match read_pair(alloc, Source::schema(input), Source::plain(sheet), store) {
        Ok((input, sheet)) => dead_texts(alloc, &input, &sheet),
        Err(unread) => answer_unread(alloc, unread),
    }
}

/// Tells by the texts of the operands which spots are dead.
fn dead_texts(alloc: Global, input: &Operand<'_>, sheet: &Operand<'_>) -> Result<Answer, NoMemory>
    requires input { length input.now.text.items ≤ longest_text }
    requires sheet { length sheet.now.text.items ≤ longest_text }
    ensures { IfOk result (λ said. (answer : a.Answer) × Says said answer
        × TellsDead
        input.now.name.now sheet.now.name.now input.now.text.items sheet.now.text.items answer) }
{
    let arena = Bump::new(alloc);
    let schema = schema_text(input);
    match tc_decide::dead(&arena, alloc, schema, &sheet.text) {
        Ok(told) => Answer::spots(alloc, told),
        Err(failure) => answer_untold(alloc, input.name, sheet.name, failure),
    }
}

/// The answer that a failure is, but for want of memory.
fn answer_untold(
    alloc: Global,
    input: &str,
    sheet: &str,
    failure: Failure,
) -> Result<Answer, NoMemory>
    ensures { IfOk result (SaysUntold input.now sheet.now failure) }
{
    match failure {
        Failure::Refused(Which::Sheet, reason, place) => {
            Answer::refused(alloc, sheet, reason, place)
        }
        Failure::Refused(_, reason, place) => Answer::refused(alloc, input, reason, place),
        Failure::Passes(kind, number) => answer_limit(alloc, kind, number),
        Failure::NoMemory => Err(NoMemory),
    }
}
