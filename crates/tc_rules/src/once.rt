// Predicates, looks and moves, each once.
ghost use Rattle.std.specs.Prelude.{◌≡◌, ◌≤◌, ◌++◌, ◌∷◌, [], ℕ, length, IfOk, OnOk, IfErr};
ghost use Rattle.tc_model.specs.Numbered.{each_once, number_of};
ghost use Rattle.tc_model.specs.Numberings.{same_move};
ghost use Rattle.tc_model.specs.SameTests as same;
ghost use Rattle.tc_model.specs.Views as see;
ghost use Rattle.tc_rules.specs.Faults.{IsPredicatesCause};
ghost use Rattle.tc_rules.specs.Once.{put_once};
ghost use Rattle.tc_rules.specs.Views.{predicates, looks, moves, move as see_move, mode_of};

use crate::rules::RulesFault;
use crate::same::{same_path, same_test};
use crate::walk::{Job, Move};
use std::alloc::Global;
use tc_base::NoMemory;
use tc_base::limits::MOST_PREDICATES;
use tc_model::{Path, Test};

/// The different predicates, in their order, of which there are at most 6: the seventh ends the search.
pub(crate) fn predicates_once<'b>(
    alloc: Global,
    found: &[&'b Test<'b>],
) -> Result<Vec<&'b Test<'b>>, RulesFault>
    ensures kept { IfOk result (λ v. predicates v.items
        ≡ each_once same.same_test (predicates found.now)) }
    ensures few { IfOk result (λ v. length v.items ≤ MOST_PREDICATES) }
    ensures cause { IfErr result (λ e. IsPredicatesCause
        (each_once same.same_test (predicates found.now)) e) }
{
    let mut kept = Vec::new(alloc);
    for test in found {
        keep_predicate(&mut kept, *test)?;
    }
    Ok(kept)
}

/// One more predicate, unless one of those kept is the same.
fn keep_predicate<'b>(kept: &mut Vec<&'b Test<'b>>, test: &'b Test<'b>) -> Result<(), RulesFault>
    requires few { length kept.old.items ≤ MOST_PREDICATES }
    ensures kept { OnOk result (predicates kept.new.items
        ≡ put_once same.same_test (predicates kept.old.items) (see.test test.now)) }
    ensures few { OnOk result (length kept.new.items ≤ MOST_PREDICATES) }
    ensures cause { IfErr result (λ e. IsPredicatesCause
        (put_once same.same_test (predicates kept.old.items) (see.test test.now)) e) }
{
    let count = kept.len();
    if number_of_test(kept, test) < count {
        return Ok(());
    }
    if count == MOST_PREDICATES as usize {
        return Err(RulesFault::TooManyPredicates);
    }
    put_predicate(kept, test)?;
    Ok(())
}

fn put_predicate<'b>(kept: &mut Vec<&'b Test<'b>>, test: &'b Test<'b>) -> Result<(), NoMemory>
    ensures { OnOk result (kept.new.items ≡ kept.old.items ++ test.entry ∷ []) }
{
    kept.push(test)?;
    Ok(())
}

/// How many predicates stand before the first that is the same.
pub(crate) fn number_of_test(numbered: &[&Test<'_>], test: &Test<'_>) -> usize
    ensures number { result ≡ number_of same.same_test (see.test test.now)
        (predicates numbered.now) }
    ensures bound { result ≤ length numbered.now }
{
    for (i, other) in numbered.iter().enumerate() {
        if same_test(test, other) {
            return i;
        }
    }
    numbered.len()
}

/// How many looks stand before the first that is the same.
pub(crate) fn number_of_path(numbered: &[&Path<'_>], path: &Path<'_>) -> usize
    ensures number { result ≡ number_of same.same_path (see.path path.now) (looks numbered.now) }
    ensures bound { result ≤ length numbered.now }
{
    for (i, other) in numbered.iter().enumerate() {
        if same_path(path, other) {
            return i;
        }
    }
    numbered.len()
}

/// The mode of a job as a number: a for-each has one of its own, counted on from the modes.
pub(crate) fn mode_number(modes: u32, job: Job) -> u64
    ensures { result ≡ mode_of modes job }
{
    match job {
        Job::Mode(mode) => u64::from(mode),
        Job::Each(each) => u64::from(modes) + u64::from(each),
    }
}

/// Whether two moves are the same, where there are so many modes.
pub(crate) fn same_job(modes: u32, a: &Move<'_>, b: &Move<'_>) -> bool
    ensures { result ≡ same_move (see_move modes a.now) (see_move modes b.now) }
{
    let mode = mode_number(modes, a.job);
    let other = mode_number(modes, b.job);
    mode == other && same_path(a.path, b.path)
}

/// How many moves stand before the first that is the same.
pub(crate) fn number_of_move(modes: u32, numbered: &[Move<'_>], sought: &Move<'_>) -> usize
    ensures number { result ≡ number_of same_move (see_move modes sought.now)
        (moves modes numbered.now) }
    ensures bound { result ≤ length numbered.now }
{
    for (i, other) in numbered.iter().enumerate() {
        if same_job(modes, sought, other) {
            return i;
        }
    }
    numbered.len()
}
