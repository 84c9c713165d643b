// What `check` answers.
ghost use Rattle.std.specs.Prelude.{◌≡◌, ◌≤◌, ℕ, List, IfOk, length};
ghost use Rattle.tc_answer.specs.Answers as a;
ghost use Rattle.tc_answer.specs.AnswersSeen.{Says};
ghost use Rattle.tc_answer.specs.Words as w;
ghost use Rattle.tc_answer.specs.Words.{Words};
ghost use Rattle.tc_base.specs.Reading.{longest_text};
ghost use Rattle.tc_base.specs.declared.limits.TheConstants.{GREATEST_LIMIT};
ghost use Rattle.tc_io.specs.Reads.{Happened};
ghost use Rattle.tc_top.specs.AnswersSeen.{IsRightFor};
ghost use Rattle.tc_top.specs.Causes.{Checks};
ghost use Rattle.tc_top.specs.Checking.{most_rows};

use crate::schema_texts::schema_text;
use crate::unread::answer_unread;
use crate::verdicts::{answer_failure, answer_verdict};
use bumpalo::Bump;
use std::alloc::Global;
use tc_answer::{Answer, Operands, Triple, read_triple};
use tc_base::NoMemory;
use tc_decide::limits::MOST_ROWS;
use tc_io::Store;

/// Reads the operands, and decides whether the stylesheet is safe, with so many rows of trees and of lists of trees at
/// most where that is said.
pub fn check<S: Store>(
    alloc: Global,
    limit: Option<u32>,
    triple: Triple<'_>,
    store: &mut S,
) -> Result<Answer, NoMemory>
    requires few { most_rows limit ≤ GREATEST_LIMIT }
    ensures same { S.holds store.new ≡ S.holds store.old }
    ensures count { S.faults store.old ≤ S.faults store.new }
    ensures ok { IfOk result (λ said. (words : List (List ℕ))
        → Words words
        (w.check limit triple.entry.input.now triple.entry.output.now triple.entry.sheet.now)
        → IsRightFor words (Happened S.read_gives S.holds S.faults store.old store.new) said) }
{
    match read_triple(alloc, triple, store) {
        Ok(operands) => check_texts(alloc, row_limit(limit), &operands),
        Err(unread) => answer_unread(alloc, unread),
    }
}

/// How many rows of trees, and of lists of trees, there may be.
pub(crate) fn row_limit(limit: Option<u32>) -> u32
    ensures { result ≡ most_rows limit }
{
    match limit {
        Some(most) => most,
        None => MOST_ROWS,
    }
}

/// Decides by the texts of the operands whether the stylesheet is safe.
pub(crate) fn check_texts(
    alloc: Global,
    most: u32,
    operands: &Operands<'_>,
) -> Result<Answer, NoMemory>
    requires few { most ≤ GREATEST_LIMIT }
    requires input { length operands.now.input.text.items ≤ longest_text }
    requires output { length operands.now.output.text.items ≤ longest_text }
    requires sheet { length operands.now.sheet.text.items ≤ longest_text }
    ensures { IfOk result (λ said. (answer : a.Answer) × Says said answer
        × Checks most operands.now.input.name.now operands.now.output.name.now
        operands.now.sheet.name.now
        operands.now.input.text.items operands.now.output.text.items operands.now.sheet.text.items
        answer) }
{
    let arena = Bump::new(alloc);
    let input = schema_text(&operands.input);
    let output = schema_text(&operands.output);
    match tc_decide::check(&arena, alloc, most, input, output, &operands.sheet.text) {
        Ok(verdict) => answer_verdict(alloc, &verdict),
        Err(failure) => answer_failure(alloc, operands, failure),
    }
}
