// What is answered by a verdict, and by why there is none.
ghost use Rattle.std.specs.Prelude.{◌≡◌, IfOk};
ghost use Rattle.tc_answer.specs.AnswersSeen.{Says};
ghost use Rattle.tc_model.specs.Trees.{none};
ghost use Rattle.tc_model.specs.Views as see;
ghost use Rattle.tc_top.specs.VerdictsSeen.{SaysFailure, SaysFailureBy, equality_answer, inclusion_answer, limit_answer, measure_answer, name_by, name_of_two, proof_answer, unsafe_answer, upgrade_answer, validity_answer, verdict_answer, verification_answer};

use std::alloc::Global;
use tc_answer::{Answer, Operands};
use tc_base::NoMemory;
use tc_decide::{
    Equality, Failure, Inclusion, Kind, Output, PieceMeasure, Proof, Rejection, Upgrade, Verdict,
    Verification, Which,
};
use tc_model::Node;

/// The answer that a verdict is.
pub fn answer_verdict(alloc: Global, verdict: &Verdict<'_>) -> Result<Answer, NoMemory>
    ensures { IfOk result (λ said. Says said (verdict_answer verdict.now)) }
{
    match verdict {
        Verdict::Safe(rows) => Answer::safe(alloc, rows.trees, rows.hedges, rows.outputs),
        Verdict::Unsafe(document, output) => answer_unsafe(alloc, document, output),
    }
}

/// The answer that a proof is.
pub fn answer_proof(alloc: Global, proof: Proof<'_>) -> Result<Answer, NoMemory>
    ensures { IfOk result (λ said. Says said (proof_answer proof.entry)) }
{
    match proof {
        Proof::Certified(text) => Ok(Answer::certificate(text)),
        Proof::Unsafe(document, output) => answer_unsafe(alloc, &document, &output),
    }
}

/// The answer that a verification is.
pub fn answer_verification(
    alloc: Global,
    verification: Verification<'_>,
) -> Result<Answer, NoMemory>
    ensures { IfOk result (λ said. Says said (verification_answer verification.entry)) }
{
    match verification {
        Verification::Accepted => Ok(Answer::accepted()),
        Verification::Rejected(why) => Answer::rejected(alloc, why),
    }
}

/// The answer that an upgrade is.
pub fn answer_upgrade(alloc: Global, upgrade: Upgrade) -> Result<Answer, NoMemory>
    ensures { IfOk result (λ said. Says said (upgrade_answer upgrade)) }
{
    match upgrade {
        Upgrade::Text(text) => Ok(Answer::certificate(text)),
        Upgrade::Malformed(line) => Answer::rejected(alloc, Rejection::Form(line)),
    }
}

/// The answer that an inclusion is.
pub fn answer_inclusion(alloc: Global, inclusion: Inclusion<'_>) -> Result<Answer, NoMemory>
    ensures { IfOk result (λ said. Says said (inclusion_answer inclusion.entry)) }
{
    match inclusion {
        Inclusion::Included(trees, hedges) => Answer::included(alloc, trees, hedges),
        Inclusion::Not(document) => Answer::not_included(alloc, &[document]),
    }
}

/// The answer that an equality is.
pub fn answer_equality(alloc: Global, equality: Equality<'_>) -> Result<Answer, NoMemory>
    ensures { IfOk result (λ said. Says said (equality_answer equality.entry)) }
{
    match equality {
        Equality::Same => Ok(Answer::equal()),
        Equality::FirstOnly(document) => Answer::first_only(alloc, &[document]),
        Equality::SecondOnly(document) => Answer::second_only(alloc, &[document]),
    }
}

/// The answer that a document is valid, or isn't.
pub fn answer_validity(is_valid: bool) -> Answer
    ensures { Says result (validity_answer is_valid) }
{
    if is_valid {
        Answer::valid()
    } else {
        Answer::invalid()
    }
}

/// The answer that a document is a counterexample, with its result, unless its run passes a limit.
pub fn answer_unsafe(
    alloc: Global,
    document: &Node<'_>,
    output: &Output<'_>,
) -> Result<Answer, NoMemory>
    ensures { IfOk result (λ said. Says said
        (unsafe_answer (see.before document.now none) output.now)) }
{
    match output {
        Output::Shown(nodes) => Answer::not_safe(alloc, &[*document], nodes),
        Output::TooLarge => Answer::not_safe_large(alloc, &[*document]),
    }
}

/// The answer that a failure is, but for want of memory.
pub fn answer_failure(
    alloc: Global,
    operands: &Operands<'_>,
    failure: Failure,
) -> Result<Answer, NoMemory>
    ensures { IfOk result
        (SaysFailure operands.now.input.name.now operands.now.output.name.now
        operands.now.sheet.name.now failure) }
{
    match failure {
        Failure::Refused(which, reason, place) => {
            Answer::refused(alloc, name_of(operands, which), reason, place)
        }
        Failure::Passes(kind, number) => answer_limit(alloc, kind, number),
        Failure::NoMemory => Err(NoMemory),
    }
}

/// The answer that a failure of two texts with these names is, but for want of memory.
pub fn answer_pair_failure(
    alloc: Global,
    first: &str,
    second: &str,
    failure: Failure,
) -> Result<Answer, NoMemory>
    ensures { IfOk result (SaysFailureBy (name_of_two first.now second.now) failure) }
{
    match failure {
        Failure::Refused(which, reason, place) => {
            Answer::refused(alloc, name_of_pair(first, second, which), reason, place)
        }
        Failure::Passes(kind, number) => answer_limit(alloc, kind, number),
        Failure::NoMemory => Err(NoMemory),
    }
}

/// The name of one of two texts.
fn name_of_pair<'n>(first: &'n str, second: &'n str, which: Which) -> &'n str
    ensures { result.now ≡ name_of_two first.now second.now which }
{
    match which {
        Which::Input | Which::Sheet => first,
        Which::Output | Which::Document => second,
    }
}

/// The answer that a limit is passed.
pub fn answer_limit(alloc: Global, kind: Kind, number: u32) -> Result<Answer, NoMemory>
    ensures { IfOk result (λ said. Says said (limit_answer kind number)) }
{
    match kind {
        Kind::Texts(limit) => Answer::limit(alloc, limit, number),
        Kind::Rows(count) => Answer::rows_limit(alloc, count, number),
        Kind::Nodes => Answer::counterexample_limit(alloc),
        Kind::Certificate => Answer::certificate_limit(alloc),
        Kind::Work => Answer::work_limit(alloc),
        Kind::Open => Answer::open_limit(alloc),
        Kind::Pieces(measure) => answer_measure(alloc, measure),
    }
}

/// The answer that a measure of a document in pieces passes its limit.
fn answer_measure(alloc: Global, measure: PieceMeasure) -> Result<Answer, NoMemory>
    ensures { IfOk result (λ said. Says said (measure_answer measure)) }
{
    match measure {
        PieceMeasure::Tag => Answer::tag_limit(alloc),
        PieceMeasure::Names => Answer::names_limit(alloc),
    }
}

/// The name of an operand; no document is among them.
fn name_of<'n>(operands: &Operands<'n>, which: Which) -> &'n str
    ensures { result.now
        ≡ name_by operands.now.input.name.now operands.now.output.name.now
        operands.now.sheet.name.now which }
{
    match which {
        Which::Input => operands.input.name,
        Which::Output => operands.output.name,
        Which::Sheet | Which::Document => operands.sheet.name,
    }
}
