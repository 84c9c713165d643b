// What is answered where an operand was not read.
ghost use Rattle.std.specs.Prelude.{ℕ, List, IfOk};
ghost use Rattle.tc_answer.specs.AnswersSeen.{IsFirstUnread};
ghost use Rattle.tc_answer.specs.Words as w;
ghost use Rattle.tc_answer.specs.Words.{Words, operands_of};
ghost use Rattle.tc_io.specs.Store.{Read};
ghost use Rattle.tc_top.specs.AnswersSeen.{IsRight};

use std::alloc::Global;
use tc_answer::{Answer, Unread};
use tc_base::NoMemory;

/// What is answered where an operand was not read.
pub fn answer_unread(alloc: Global, unread: Unread<'_>) -> Result<Answer, NoMemory>
    ensures { IfOk result
        (λ said. (words : List (List ℕ)) (command : w.Command) (reads : List Read)
        → Words words command
        → IsFirstUnread (operands_of command) reads unread.entry → IsRight words reads said) }
{
    match unread {
        Unread::Unreadable(name) => Answer::cannot_read(alloc, name),
        Unread::TooLong => Answer::file_limit(alloc),
        Unread::NoMemory => Err(NoMemory),
    }
}
