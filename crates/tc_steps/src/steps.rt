// Steps over children.
ghost use Rattle.std.specs.Prelude.{◌≡◌, ◌↔◌, ◌+◌, ℕ, List, false, length};
ghost use Rattle.tc_auto.specs.Stands as a;
ghost use Rattle.tc_model.specs.Grammars as g;
ghost use Rattle.tc_model.specs.Names.{ExpandedName};
ghost use Rattle.tc_model.specs.States as s;
ghost use Rattle.tc_model.specs.Trees as t;
ghost use Rattle.tc_sets.specs.Numbers.{Has, HasNone};
ghost use Rattle.tc_steps.specs.Led.{AreAllowed, AreLed, IsAfterElement, IsTaken};
ghost use Rattle.tc_steps.specs.Sets.{AreForElement, AreForText};

use crate::arrows::add_ends;
use crate::patterns::is_taken;
use std::mem;
use tc_auto::Auto;
use tc_sets::Set;

/// Leaves the first states of the contents of element patterns: those of an element without children.
pub(crate) fn enter(automaton: &Auto<'_>, numbers: &Set, states: &mut Set)
    requires numbers { numbers.now.size ≡ a.patterns automaton.now + 1 }
    requires size { states.old.size ≡ a.states automaton.now }
    ensures size { states.new.size ≡ states.old.size }
    ensures led { (x : g.Grammar) (n : ExpandedName) → a.Stands s.input x automaton.now
        → AreAllowed x n numbers.now → AreLed x n t.none states.new }
{
    states.clear();
    for before in 0..automaton.patterns() {
        if numbers.has(before + 1) {
            states.add(automaton.first(before + 1));
        }
    }
}

/// Goes over a text that isn't white space alone; the states in `next` are lost.
pub(crate) fn pass_text(automaton: &Auto<'_>, states: &mut Set, next: &mut Set)
    requires { AreForText automaton.now states.old next.old }
    ensures size { states.new.size ≡ states.old.size }
    ensures next { next.new.size ≡ next.old.size }
    ensures led { (x : g.Grammar) (n : ExpandedName) (kids : t.Trees) (text : List ℕ)
        → a.Stands s.input x automaton.now → t.is_white_space_only text ≡ false
        → AreLed x n kids states.old → AreLed x n (t.beside kids (t.text text t.none)) states.new }
{
    next.clear();
    add_ends(automaton.text_arrows(), states, next);
    mem::swap(states, next);
}

/// Adds the states to which an element leads some states: one that these element patterns allow, whose children lead
/// to these ends.
fn add_after(automaton: &Auto<'_>, numbers: &Set, ends: &Set, states: &Set, next: &mut Set)
    requires sets { AreForElement automaton.now numbers.now ends.now states.now next.old }
    requires none { HasNone next.old }
    ensures size { next.new.size ≡ next.old.size }
    ensures numbers { (x : g.Grammar) → a.Stands s.input x automaton.now → (j : ℕ) → Has next.new j
        ↔ IsAfterElement x states.now (IsTaken x numbers.now ends.now) (length x.elements) j }
{
    for before in 0..automaton.patterns() {
        let number = before + 1;
        if is_taken(automaton, numbers, ends, number) {
            add_ends(automaton.arrows(number), states, next);
        }
    }
}

/// Goes over an element that these element patterns allow, whose children lead to these ends; the states in `next` are
/// lost.
pub(crate) fn pass_element(
    automaton: &Auto<'_>,
    numbers: &Set,
    ends: &Set,
    states: &mut Set,
    next: &mut Set,
)
    requires { AreForElement automaton.now numbers.now ends.now states.old next.old }
    ensures size { states.new.size ≡ states.old.size }
    ensures next { next.new.size ≡ next.old.size }
    ensures led { (x : g.Grammar) (n m : ExpandedName) (kids inside : t.Trees)
        → a.Stands s.input x automaton.now → AreAllowed x m numbers.now → AreLed x m inside ends.now
        → AreLed x n kids states.old
        → AreLed x n (t.beside kids (t.element m inside t.none)) states.new }
{
    next.clear();
    add_after(automaton, numbers, ends, states, next);
    mem::swap(states, next);
}
