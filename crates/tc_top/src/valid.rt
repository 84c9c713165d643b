// What `valid` answers.
ghost use Rattle.std.specs.Prelude.{◌≡◌, ◌≤◌, ℕ, List, IfOk, length};
ghost use Rattle.tc_answer.specs.Answers as a;
ghost use Rattle.tc_answer.specs.AnswersSeen.{Says};
ghost use Rattle.tc_answer.specs.Words as w;
ghost use Rattle.tc_answer.specs.Words.{Words};
ghost use Rattle.tc_base.specs.Reading.{longest_text};
ghost use Rattle.tc_io.specs.Reads.{Happened};
ghost use Rattle.tc_top.specs.AnswersSeen.{IsRightFor};
ghost use Rattle.tc_top.specs.Causes.{Validates};

use crate::schema_texts::schema_text;
use crate::unread::answer_unread;
use crate::verdicts::{answer_pair_failure, answer_validity};
use std::alloc::Global;
use tc_answer::{Answer, Operand, Source, read_pair};
use tc_base::NoMemory;
use tc_io::Store;

/// Reads the operands, and tells whether the document is valid.
pub fn valid<S: Store>(
    alloc: Global,
    schema: &str,
    document: &str,
    store: &mut S,
) -> Result<Answer, NoMemory>
    ensures same { S.holds store.new ≡ S.holds store.old }
    ensures count { S.faults store.old ≤ S.faults store.new }
    ensures ok { IfOk result
        (λ said. (words : List (List ℕ)) → Words words (w.valid schema.now document.now)
        → IsRightFor words (Happened S.read_gives S.holds S.faults store.old store.new) said) }
{
    match read_pair(
        alloc,
        Source::schema(schema),
        Source::plain(document),
        store,
    ) {
        Ok((schema, document)) => valid_texts(alloc, &schema, &document),
        Err(unread) => answer_unread(alloc, unread),
    }
}

/// Tells by the texts of the operands whether the document is valid.
fn valid_texts(
    alloc: Global,
    schema: &Operand<'_>,
    document: &Operand<'_>,
) -> Result<Answer, NoMemory>
    requires schema { length schema.now.text.items ≤ longest_text }
    requires document { length document.now.text.items ≤ longest_text }
    ensures { IfOk result (λ said. (answer : a.Answer) × Says said answer
        × Validates schema.now.name.now document.now.name.now schema.now.text.items
        document.now.text.items answer) }
{
    match tc_decide::valid(alloc, schema_text(schema), &document.text) {
        Ok(is_valid) => Ok(answer_validity(is_valid)),
        Err(failure) => answer_pair_failure(alloc, schema.name, document.name, failure),
    }
}
