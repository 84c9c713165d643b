// What `include` and `same` answer by the texts of two schemas.
ghost use Rattle.std.specs.Prelude.{◌≤◌, IfOk, length};
ghost use Rattle.tc_answer.specs.Answers as a;
ghost use Rattle.tc_answer.specs.AnswersSeen.{Says};
ghost use Rattle.tc_base.specs.Reading.{longest_text};
ghost use Rattle.tc_decide.specs.Comparing as c;
ghost use Rattle.tc_top.specs.Comparing.{Compares};
ghost use Rattle.tc_top.specs.Pairs.{question as asked};

use crate::schema_texts::schema_text;
use crate::verdicts::{answer_equality, answer_inclusion, answer_pair_failure};
use bumpalo::Bump;
use std::alloc::Global;
use tc_answer::{Answer, Operand};
use tc_base::NoMemory;

/// What is asked of two schemas.
#[derive(Clone, Copy)]
pub enum Question {
    /// Whether each document that is valid for the first is valid for the second.
    Inclusion,
    /// Whether both have the same valid documents.
    Equality,
}

/// Decides by the texts of two schemas what is asked of them.
pub fn compare_texts(
    alloc: Global,
    question: Question,
    first: &Operand<'_>,
    second: &Operand<'_>,
) -> Result<Answer, NoMemory>
    requires first { length first.now.text.items ≤ longest_text }
    requires second { length second.now.text.items ≤ longest_text }
    ensures { IfOk result (λ said. (answer : a.Answer) × Says said answer
        × Compares
        (asked question) first.now.name.now second.now.name.now first.now.text.items
        second.now.text.items answer) }
{
    match question {
        Question::Inclusion => include_texts(alloc, first, second),
        Question::Equality => same_texts(alloc, first, second),
    }
}

/// Decides by the texts of two schemas whether the first is included in the second.
fn include_texts(
    alloc: Global,
    first: &Operand<'_>,
    second: &Operand<'_>,
) -> Result<Answer, NoMemory>
    requires first { length first.now.text.items ≤ longest_text }
    requires second { length second.now.text.items ≤ longest_text }
    ensures { IfOk result (λ said. (answer : a.Answer) × Says said answer
        × Compares
        c.inclusion first.now.name.now second.now.name.now first.now.text.items
        second.now.text.items answer) }
{
    let arena = Bump::new(alloc);
    let one = schema_text(first);
    let other = schema_text(second);
    match tc_decide::include(&arena, alloc, one, other) {
        Ok(inclusion) => answer_inclusion(alloc, inclusion),
        Err(failure) => answer_pair_failure(alloc, first.name, second.name, failure),
    }
}

/// Decides by the texts of two schemas whether they have the same valid documents.
fn same_texts(alloc: Global, first: &Operand<'_>, second: &Operand<'_>) -> Result<Answer, NoMemory>
    requires first { length first.now.text.items ≤ longest_text }
    requires second { length second.now.text.items ≤ longest_text }
    ensures { IfOk result (λ said. (answer : a.Answer) × Says said answer
        × Compares
        c.equality first.now.name.now second.now.name.now first.now.text.items
        second.now.text.items answer) }
{
    let arena = Bump::new(alloc);
    let one = schema_text(first);
    let other = schema_text(second);
    match tc_decide::same(&arena, alloc, one, other) {
        Ok(equality) => answer_equality(alloc, equality),
        Err(failure) => answer_pair_failure(alloc, first.name, second.name, failure),
    }
}
