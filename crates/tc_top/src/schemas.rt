// Reads the operands of `include` and `same`, and gives what both answer.
ghost use Rattle.std.specs.Prelude.{◌≡◌, ◌≤◌, ℕ, List, IfOk};
ghost use Rattle.tc_answer.specs.Words.{Words};
ghost use Rattle.tc_io.specs.Reads.{Happened};
ghost use Rattle.tc_top.specs.AnswersSeen.{IsRightFor};
ghost use Rattle.tc_top.specs.ComparedFiles.{asks};
ghost use Rattle.tc_top.specs.Pairs.{question as asked};

use crate::compare::{Question, compare_texts};
use crate::unread::answer_unread;
use std::alloc::Global;
use tc_answer::{Answer, Source, read_pair};
use tc_base::NoMemory;
use tc_io::Store;

/// Reads two schemas, and tells what is asked of them.
pub fn compare<S: Store>(
    alloc: Global,
    question: Question,
    first: &str,
    second: &str,
    store: &mut S,
) -> Result<Answer, NoMemory>
    ensures same { S.holds store.new ≡ S.holds store.old }
    ensures count { S.faults store.old ≤ S.faults store.new }
    ensures ok { IfOk result
        (λ said. (words : List (List ℕ)) → Words words (asks (asked question) first.now second.now)
        → IsRightFor words (Happened S.read_gives S.holds S.faults store.old store.new) said) }
{
    match read_pair(alloc, Source::schema(first), Source::schema(second), store) {
        Ok((first, second)) => compare_texts(alloc, question, &first, &second),
        Err(unread) => answer_unread(alloc, unread),
    }
}
