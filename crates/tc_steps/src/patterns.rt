// Which element patterns take an element.
ghost use Rattle.std.specs.Prelude.{◌≡◌, ◌≤◌, ◌↔◌, ◌+◌, ℕ, IsTrue};
ghost use Rattle.tc_auto.specs.Stands as a;
ghost use Rattle.tc_model.specs.Grammars as g;
ghost use Rattle.tc_model.specs.Names.{ExpandedName};
ghost use Rattle.tc_model.specs.States as s;
ghost use Rattle.tc_model.specs.Trees as t;
ghost use Rattle.tc_model.specs.Views as see;
ghost use Rattle.tc_sets.specs.Numbers.{HasNone};
ghost use Rattle.tc_steps.specs.Led.{AreAllowed, AreLed, IsReached, IsStarted, IsTaken};

use tc_auto::Auto;
use tc_model::Name;
use tc_sets::Set;

/// Adds the element patterns whose classes hold a name.
pub(crate) fn add_allowed(automaton: &Auto<'_>, name: &Name<'_>, numbers: &mut Set)
    requires size { numbers.old.size ≡ a.patterns automaton.now + 1 }
    requires none { HasNone numbers.old }
    ensures size { numbers.new.size ≡ numbers.old.size }
    ensures allowed { (x : g.Grammar) → a.Stands s.input x automaton.now
        → AreAllowed x (see.name name.now) numbers.new }
{
    for before in 0..automaton.patterns() {
        if automaton.allows(before + 1, name) {
            numbers.add(before + 1);
        }
    }
}

/// Whether one of the states is one in which the content of an element pattern accepts.
fn is_reached(automaton: &Auto<'_>, states: &Set, number: u32) -> bool
    requires from_one { 1 ≤ number }
    requires within { number ≤ a.patterns automaton.now }
    requires size { states.now.size ≡ a.states automaton.now }
    ensures { (x : g.Grammar) → a.Stands s.input x automaton.now → IsTrue result
        ↔ IsReached x states.now number }
{
    let first = automaton.first(number);
    let end = automaton.end(number);
    for state in first..end {
        if states.has(state) && automaton.accepts(state) {
            return true;
        }
    }
    false
}

/// Whether an element pattern is one of these, and its content accepts in one of the states.
pub(crate) fn is_taken(automaton: &Auto<'_>, numbers: &Set, states: &Set, number: u32) -> bool
    requires within { (1 ≤ number) × (number ≤ a.patterns automaton.now) }
    requires numbers { numbers.now.size ≡ a.patterns automaton.now + 1 }
    requires size { states.now.size ≡ a.states automaton.now }
    ensures { (x : g.Grammar) → a.Stands s.input x automaton.now → IsTrue result
        ↔ IsTaken x numbers.now states.now number }
{
    numbers.has(number) && is_reached(automaton, states, number)
}

/// Whether an element matches an alternative of the start: one of a name that these element patterns allow, whose
/// children lead to these states.
pub(crate) fn is_started(automaton: &Auto<'_>, numbers: &Set, states: &Set) -> bool
    requires numbers { numbers.now.size ≡ a.patterns automaton.now + 1 }
    requires size { states.now.size ≡ a.states automaton.now }
    ensures { (x : g.Grammar) (n : ExpandedName) (kids : t.Trees)
        → a.Stands s.input x automaton.now → AreAllowed x n numbers.now
        → AreLed x n kids states.now → IsTrue result ↔ IsStarted x n kids }
{
    for before in 0..automaton.patterns() {
        let number = before + 1;
        if automaton.starts(number) && is_taken(automaton, numbers, states, number) {
            return true;
        }
    }
    false
}
