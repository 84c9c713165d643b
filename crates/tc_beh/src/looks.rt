// What looks tell: what paths of values and tests find, which tests hold, and the letter of a node.
ghost use Rattle.std.specs.Prelude.{◌≡◌, ◌<◌, ◌≤◌, ℕ, List, length, map, get_or, Contains};
ghost use Rattle.tc_model.specs.Letters.{marks_of};
ghost use Rattle.tc_model.specs.Numberings.{looks_of};
ghost use Rattle.tc_model.specs.PathStates.{first_state};
ghost use Rattle.tc_model.specs.Views as see;
ghost use Rattle.tc_rules.specs.Kept.{told};
ghost use Rattle.tc_rules.specs.Parts.{IsPartTest, ArePartTests};
ghost use Rattle.tc_rows.specs.Triples.{Triple, predicates as predicates_of, looking};
ghost use Rattle.tc_rows.specs.Bodies.{holds_by, all_hold_by, some_holds_by};
ghost use Rattle.tc_rows.specs.Arithmetic.{look_from};
ghost use Rattle.tc_beh.specs.Stands.{IsRulesIn, AreRules};

use tc_model::{Path, Test};
use tc_rules::{Marks, Rules};

/// What a path finds: 0 for nothing, 1 for a node that bears no text, 2 for one that does.
pub(crate) fn look(rules: &Rules<'_>, looks: &[u32], path: &Path<'_>) -> u32
    requires rules { AreRules rules.now }
    requires path { Contains (looks_of (told rules.now).sheet) (see.path path.now) }
    ensures { (x : Triple) → IsRulesIn x rules.now → result
        ≡ look_from x looks.now (looking (see.path path.now) (first_state (see.path path.now))) }
{
    match rules.look_first(path) {
        None => 0,
        Some(state) => number_at(looks, state.saturating_sub(rules.moves())),
    }
}

/// The number at a place; 0, as the value of a look that finds nothing, where there is none.
pub(crate) fn number_at(numbers: &[u32], place: u32) -> u32
    ensures { result ≡ get_or numbers.now place 0 }
{
    match numbers.get(place as usize) {
        None => 0,
        Some(number) => *number,
    }
}

/// Whether a test holds on a node of these looks (XPath 1.0, 3.4).
#[cycle(tests)]
pub(crate) fn holds(rules: &Rules<'_>, looks: &[u32], test: &Test<'_>) -> bool
    requires rules { AreRules rules.now }
    requires test { IsPartTest (told rules.now).sheet (see.test test.now) }
    ensures { (x : Triple) → IsRulesIn x rules.now → result
        ≡ holds_by (see.test test.now) (λ p. look_from x looks.now (looking p (first_state p))) }
{
    match test {
        Test::True => true,
        Test::False => false,
        Test::Has(path) => look(rules, looks, path) != 0,
        Test::Not(inner) => !holds(rules, looks, inner),
        Test::And(tests) => all_hold(rules, looks, tests),
        Test::Or(tests) => some_holds(rules, looks, tests),
    }
}

/// Whether all of some tests hold.
#[cycle(tests)]
fn all_hold(rules: &Rules<'_>, looks: &[u32], tests: &[Test<'_>]) -> bool
    requires rules { AreRules rules.now }
    requires tests { ArePartTests (told rules.now).sheet (see.tests tests.now) }
    ensures { (x : Triple) → IsRulesIn x rules.now → result
        ≡ all_hold_by (see.tests tests.now)
        (λ p. look_from x looks.now (looking p (first_state p))) }
{
    for test in tests {
        if !holds(rules, looks, test) {
            return false;
        }
    }
    true
}

/// Whether one of some tests holds.
#[cycle(tests)]
fn some_holds(rules: &Rules<'_>, looks: &[u32], tests: &[Test<'_>]) -> bool
    requires rules { AreRules rules.now }
    requires tests { ArePartTests (told rules.now).sheet (see.tests tests.now) }
    ensures { (x : Triple) → IsRulesIn x rules.now → result
        ≡ some_holds_by (see.tests tests.now)
        (λ p. look_from x looks.now (looking p (first_state p))) }
{
    for test in tests {
        if holds(rules, looks, test) {
            return true;
        }
    }
    false
}

/// Which predicates hold on a node of these looks.
pub(crate) fn marks(rules: &Rules<'_>, looks: &[u32]) -> Marks
    requires { AreRules rules.now }
    ensures { (x : Triple) → IsRulesIn x rules.now → result.0
        ≡ marks_of
        (map (λ p. holds_by p (λ p. look_from x looks.now (looking p (first_state p))))
        (predicates_of x)) }
{
    let mut marks = 0;
    let mut number = rules.predicates();
    while number > 0 {
        number -= 1;
        let predicate = rules.predicate(number);
        marks = 2 * marks + u32::from(holds(rules, looks, predicate));
    }
    Marks(marks)
}
