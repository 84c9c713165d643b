// What predicates ask for. Where one asks for what a path selects, the first state of its look is found once.
ghost use Rattle.std.specs.Prelude.{◌≡◌, IfOk};
ghost use Rattle.tc_model.specs.Machine as machine;
ghost use Rattle.tc_model.specs.Sheets as s;
ghost use Rattle.tc_model.specs.Views as see;
ghost use Rattle.tc_rules.specs.Parts.{IsPartTest};
ghost use Rattle.tc_run.specs.Lettered as l;
ghost use Rattle.tc_run.specs.Predicates.{IsAskedBy, AreAllAsked};
ghost use Rattle.tc_run.specs.Running.{IsRunner, looking, sheet_by};
ghost use Rattle.tc_run.specs.Sights.{AreLookedAt, AreSeenBy};
ghost use Rattle.tc_run.specs.Views.{trees};

use crate::letters::Lettered;
use crate::looks::{finds, holds};
use crate::runner::Runner;
use crate::sights::KnownSights;
use bumpalo::Bump;
use bumpalo::collections::into_bump_slice;
use tc_base::NoMemory;
use tc_model::Test;

/// What a predicate asks for: whether a look selects something, by its first state, or whether a test holds.
#[derive(Clone, Copy)]
pub(crate) enum Asked<'b> {
    Look(u32),
    Test(&'b Test<'b>),
}

/// What a predicate asks for.
fn asked_by<'b>(runner: &Runner<'_, 'b>, predicate: &'b Test<'b>) -> Asked<'b>
    requires runner { IsRunner runner.now }
    requires predicate { IsPartTest (sheet_by runner.now) (see.test predicate.now) }
    ensures { IsAskedBy runner.now (see.test predicate.now) result }
{
    let Test::Has(path) = predicate else {
        return Asked::Test(predicate);
    };
    match runner.rules.look_first(path) {
        None => Asked::Test(predicate),
        Some(look) => Asked::Look(look),
    }
}

/// What all predicates ask for, by their numbers.
#[tactic(auto, using(crate::proofs::Asking::none_asked))]
pub(crate) fn all_asked<'b>(
    arena: &'b Bump,
    runner: &Runner<'_, 'b>,
) -> Result<&'b [Asked<'b>], NoMemory>
    requires { IsRunner runner.now }
    ensures { IfOk result (λ asked. AreAllAsked runner.now asked.now) }
{
    let mut asked = Vec::new(arena);
    for number in 0..runner.rules.predicates() {
        asked.push(asked_by(runner, runner.rules.predicate(number)))?;
    }
    Ok(into_bump_slice(asked))
}

/// Whether what a predicate asks for is so on a node of these children.
pub(crate) fn is_met(
    runner: &Runner<'_, '_>,
    asked: Asked<'_>,
    kids: &[Lettered<'_>],
    known: &mut KnownSights<'_>,
) -> bool
    requires kids { AreLookedAt runner.now (trees kids.now) known.old }
    requires asked { (t : s.Test) × IsAskedBy runner.now t asked }
    ensures known { AreSeenBy runner.now known.new }
    ensures met { (t : s.Test) → IsAskedBy runner.now t asked.entry → result
        ≡ machine.holds_in (looking runner.now) t (l.bare (trees kids.now)) }
{
    match asked {
        Asked::Look(look) => finds(runner, kids, look, known),
        Asked::Test(test) => holds(runner, test, kids, known),
    }
}
