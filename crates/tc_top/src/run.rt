// What `run` answers.
ghost use Rattle.std.specs.Prelude.{◌≡◌, ◌≤◌, ℕ, List, IfOk, length};
ghost use Rattle.tc_answer.specs.Answers as a;
ghost use Rattle.tc_answer.specs.AnswersSeen.{Says};
ghost use Rattle.tc_answer.specs.Words as w;
ghost use Rattle.tc_answer.specs.Words.{Words};
ghost use Rattle.tc_base.specs.Reading.{longest_text};
ghost use Rattle.tc_io.specs.Reads.{Happened};
ghost use Rattle.tc_top.specs.AnswersSeen.{IsRightFor};
ghost use Rattle.tc_top.specs.Causes.{RunsTexts};

use crate::unread::answer_unread;
use crate::verdicts::answer_pair_failure;
use std::alloc::Global;
use tc_answer::{Answer, Operand, Source, read_pair};
use tc_base::NoMemory;
use tc_io::Store;

/// Reads the operands, and puts out the result of the document.
pub fn run<S: Store>(
    alloc: Global,
    sheet: &str,
    document: &str,
    store: &mut S,
) -> Result<Answer, NoMemory>
    ensures same { S.holds store.new ≡ S.holds store.old }
    ensures count { S.faults store.old ≤ S.faults store.new }
    ensures ok { IfOk result
        (λ said. (words : List (List ℕ)) → Words words (w.run sheet.now document.now)
        → IsRightFor words (Happened S.read_gives S.holds S.faults store.old store.new) said) }
{
    match read_pair(alloc, Source::plain(sheet), Source::plain(document), store) {
        Ok((sheet, document)) => run_texts(alloc, &sheet, &document),
        Err(unread) => answer_unread(alloc, unread),
    }
}

/// Puts out the result by the texts of the operands.
fn run_texts(alloc: Global, sheet: &Operand<'_>, document: &Operand<'_>) -> Result<Answer, NoMemory>
    requires sheet { length sheet.now.text.items ≤ longest_text }
    requires document { length document.now.text.items ≤ longest_text }
    ensures { IfOk result (λ said. (answer : a.Answer) × Says said answer
        × RunsTexts sheet.now.name.now document.now.name.now sheet.now.text.items
        document.now.text.items answer) }
{
    match tc_decide::run(alloc, &sheet.text, &document.text) {
        Ok(text) => Answer::written(text),
        Err(failure) => answer_pair_failure(alloc, sheet.name, document.name, failure),
    }
}
