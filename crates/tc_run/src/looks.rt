// What paths in values and tests select first, and which tests hold.
ghost use Rattle.std.specs.Prelude.{◌≡◌, None, Some, is_some, MatchOption};
ghost use Rattle.tc_model.specs.Chains.{Node, string_value};
ghost use Rattle.tc_model.specs.Machine as machine;
ghost use Rattle.tc_model.specs.Views as see;
ghost use Rattle.tc_rules.specs.States.{Looking};
ghost use Rattle.tc_run.specs.Lettered as l;
ghost use Rattle.tc_rules.specs.Parts.{IsPartTest, ArePartTests};
ghost use Rattle.tc_run.specs.Running.{looking, sheet_by, told_by};
ghost use Rattle.tc_run.specs.Findings.{IsNumberOf};
ghost use Rattle.tc_run.specs.Hits.{string_of};
ghost use Rattle.tc_run.specs.Sights.{AreLookedAt, AreSeenBy};
ghost use Rattle.tc_run.specs.Views.{trees, before};
ghost use Rattle.tc_rules.specs.Tasks.{IsLookAt, IsSomeLook};

use crate::letters::Lettered;
use crate::runner::Runner;
use crate::sights::KnownSights;
use tc_model::Test;
use tc_rules::Kind;

/// A node that a look selects: a text, or an element of these children.
#[derive(Clone, Copy)]
pub(crate) enum Hit<'b> {
    Text(&'b str),
    Elem(&'b [Lettered<'b>]),
}

/// Whether a look selects a node in trees or below, by its state above them.
#[cycle(finds)]
pub(crate) fn finds(
    runner: &Runner<'_, '_>,
    nodes: &[Lettered<'_>],
    look: u32,
    known: &mut KnownSights<'_>,
) -> bool
    requires nodes { AreLookedAt runner.now (trees nodes.now) known.old }
    requires state { IsSomeLook (told_by runner.now) look }
    ensures known { AreSeenBy runner.now known.new }
    ensures answer { (s : Looking) → IsLookAt (told_by runner.now) look s → result
        ≡ is_some (machine.first_hit (looking runner.now) (l.bare (trees nodes.now)) s) }
{
    for node in nodes {
        if finds_in(runner, node, look, known) {
            return true;
        }
    }
    false
}

/// The same in one tree.
#[cycle(finds)]
fn finds_in(
    runner: &Runner<'_, '_>,
    node: &Lettered<'_>,
    look: u32,
    known: &mut KnownSights<'_>,
) -> bool
    requires node { AreLookedAt runner.now (before node.now l.none) known.old }
    requires state { IsSomeLook (told_by runner.now) look }
    ensures known { AreSeenBy runner.now known.new }
    ensures answer { (s : Looking) → IsLookAt (told_by runner.now) look s → result
        ≡ is_some (machine.first_hit (looking runner.now) (l.bare (before node.now l.none)) s) }
{
    match node {
        Lettered::Text(_, marks) => {
            let seen = known.sight(runner, look, Kind::Text, *marks);
            seen.hit
        }
        Lettered::Elem(_, letter, kids) => {
            let kind = Kind::Elem(letter.sym);
            let sight = known.sight(runner, look, kind, letter.marks);
            if sight.hit {
                return true;
            }
            match sight.below {
                None => false,
                Some(below) => finds_below(runner, letter.number, kids, below, known),
            }
        }
    }
}

/// The same among the children of an element, of which it may be remembered.
#[cycle(finds)]
fn finds_below(
    runner: &Runner<'_, '_>,
    number: Option<u32>,
    kids: &[Lettered<'_>],
    look: u32,
    known: &mut KnownSights<'_>,
) -> bool
    requires kids { AreLookedAt runner.now (trees kids.now) known.old }
    requires number { IsNumberOf runner.now number (l.bare (trees kids.now)) }
    requires state { IsSomeLook (told_by runner.now) look }
    ensures known { AreSeenBy runner.now known.new }
    ensures answer { (s : Looking) → IsLookAt (told_by runner.now) look s → result
        ≡ is_some (machine.first_hit (looking runner.now) (l.bare (trees kids.now)) s) }
{
    let Some(number) = number else {
        return finds(runner, kids, look, known);
    };
    if let Some(found) = known.findings.remembered(runner, number, look) {
        return found;
    }
    let found = finds(runner, kids, look, known);
    known.findings.remember(runner, number, look, found);
    found
}

/// The first node in trees and below that a look selects, by its state above them.
#[cycle(looks)]
pub(crate) fn first_hit<'b>(
    runner: &Runner<'_, '_>,
    nodes: &'b [Lettered<'b>],
    look: u32,
    known: &mut KnownSights<'_>,
) -> Option<Hit<'b>>
    requires nodes { AreLookedAt runner.now (trees nodes.now) known.old }
    requires state { IsSomeLook (told_by runner.now) look }
    ensures known { AreSeenBy runner.now known.new }
    ensures answer { (s : Looking) → IsLookAt (told_by runner.now) look s → MatchOption result
        (machine.first_hit (looking runner.now) (l.bare (trees nodes.now)) s ≡ None)
        (λ x. (n : Node)
        × (machine.first_hit (looking runner.now) (l.bare (trees nodes.now)) s ≡ Some n)
        × (string_of x ≡ string_value n)) }
{
    for node in nodes {
        let found = first_in(runner, node, look, known);
        if found.is_some() {
            return found;
        }
    }
    None
}

/// The same in one tree.
#[cycle(looks)]
fn first_in<'b>(
    runner: &Runner<'_, '_>,
    node: &'b Lettered<'b>,
    look: u32,
    known: &mut KnownSights<'_>,
) -> Option<Hit<'b>>
    requires node { AreLookedAt runner.now (before node.now l.none) known.old }
    requires state { IsSomeLook (told_by runner.now) look }
    ensures known { AreSeenBy runner.now known.new }
    ensures answer { (s : Looking) → IsLookAt (told_by runner.now) look s → MatchOption result
        (machine.first_hit (looking runner.now) (l.bare (before node.now l.none)) s ≡ None)
        (λ x. (n : Node)
        × (machine.first_hit (looking runner.now) (l.bare (before node.now l.none)) s ≡ Some n)
        × (string_of x ≡ string_value n)) }
{
    match node {
        Lettered::Text(text, marks) => {
            let seen = known.sight(runner, look, Kind::Text, *marks);
            if seen.hit {
                return Some(Hit::Text(*text));
            }
            None
        }
        Lettered::Elem(_, letter, kids) => {
            let kind = Kind::Elem(letter.sym);
            let sight = known.sight(runner, look, kind, letter.marks);
            if sight.hit {
                return Some(Hit::Elem(*kids));
            }
            match sight.below {
                None => None,
                Some(below) => first_below(runner, letter.number, kids, below, known),
            }
        }
    }
}

/// The same among the children of an element, of which it may be remembered that there is none.
#[cycle(looks)]
fn first_below<'b>(
    runner: &Runner<'_, '_>,
    number: Option<u32>,
    kids: &'b [Lettered<'b>],
    look: u32,
    known: &mut KnownSights<'_>,
) -> Option<Hit<'b>>
    requires kids { AreLookedAt runner.now (trees kids.now) known.old }
    requires number { IsNumberOf runner.now number (l.bare (trees kids.now)) }
    requires state { IsSomeLook (told_by runner.now) look }
    ensures known { AreSeenBy runner.now known.new }
    ensures answer { (s : Looking) → IsLookAt (told_by runner.now) look s → MatchOption result
        (machine.first_hit (looking runner.now) (l.bare (trees kids.now)) s ≡ None)
        (λ x. (n : Node)
        × (machine.first_hit (looking runner.now) (l.bare (trees kids.now)) s ≡ Some n)
        × (string_of x ≡ string_value n)) }
{
    let Some(number) = number else {
        return first_hit(runner, kids, look, known);
    };
    if let Some(found) = known.findings.remembered(runner, number, look) {
        if !found {
            return None;
        }
    }
    let found = first_hit(runner, kids, look, known);
    known
        .findings
        .remember(runner, number, look, found.is_some());
    found
}

/// Whether a test holds on a node of these children (XPath 1.0, 3.4).
#[cycle(tests)]
pub(crate) fn holds(
    runner: &Runner<'_, '_>,
    test: &Test<'_>,
    kids: &[Lettered<'_>],
    known: &mut KnownSights<'_>,
) -> bool
    requires kids { AreLookedAt runner.now (trees kids.now) known.old }
    requires test { IsPartTest (sheet_by runner.now) (see.test test.now) }
    ensures known { AreSeenBy runner.now known.new }
    ensures holds { result
        ≡ machine.holds_in (looking runner.now) (see.test test.now) (l.bare (trees kids.now)) }
{
    match test {
        Test::True => true,
        Test::False => false,
        Test::Has(path) => match runner.rules.look_first(path) {
            None => false,
            Some(look) => finds(runner, kids, look, known),
        },
        Test::Not(inner) => !holds(runner, inner, kids, known),
        Test::And(tests) => all_hold(runner, tests, kids, known),
        Test::Or(tests) => some_holds(runner, tests, kids, known),
    }
}

/// Whether all of some tests hold.
#[cycle(tests)]
fn all_hold(
    runner: &Runner<'_, '_>,
    tests: &[Test<'_>],
    kids: &[Lettered<'_>],
    known: &mut KnownSights<'_>,
) -> bool
    requires kids { AreLookedAt runner.now (trees kids.now) known.old }
    requires tests { ArePartTests (sheet_by runner.now) (see.tests tests.now) }
    ensures known { AreSeenBy runner.now known.new }
    ensures holds { result
        ≡ machine.all_hold_in (looking runner.now) (see.tests tests.now) (l.bare (trees kids.now)) }
{
    for test in tests {
        if !holds(runner, test, kids, known) {
            return false;
        }
    }
    true
}

/// Whether one of some tests holds.
#[cycle(tests)]
fn some_holds(
    runner: &Runner<'_, '_>,
    tests: &[Test<'_>],
    kids: &[Lettered<'_>],
    known: &mut KnownSights<'_>,
) -> bool
    requires kids { AreLookedAt runner.now (trees kids.now) known.old }
    requires tests { ArePartTests (sheet_by runner.now) (see.tests tests.now) }
    ensures known { AreSeenBy runner.now known.new }
    ensures holds { result ≡ machine.some_holds_in (looking runner.now) (see.tests tests.now)
        (l.bare (trees kids.now)) }
{
    for test in tests {
        if holds(runner, test, kids, known) {
            return true;
        }
    }
    false
}
