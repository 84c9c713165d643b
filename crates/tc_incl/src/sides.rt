// One of two schemas: where trees lead its states, and which element patterns they match.
ghost use Rattle.std.specs.Prelude.{◌≡◌, ◌<◌, ◌≤◌, ◌↔◌, ◌⊎◌, ◌+◌, ℕ, IfOk, IsTrue, length};
ghost use Rattle.std.specs.List.{Contains};
ghost use Rattle.tc_auto.specs.Arrows.{AreWithin};
ghost use Rattle.tc_auto.specs.Stands as a;
ghost use Rattle.tc_incl.specs.Sides.{AreAllowed, AreOfSize, IsAllowed, IsAtSome};
ghost use Rattle.tc_incl.specs.Steps.{IsLed};
ghost use Rattle.tc_model.specs.Grammars as g;
ghost use Rattle.tc_model.specs.States as s;
ghost use Rattle.tc_model.specs.Symbols.{symbol_count};
ghost use Rattle.tc_model.specs.Views as see;
ghost use Rattle.tc_sets.specs.Numbers.{Has};

use crate::steps::Steps;
use bumpalo::Bump;
use std::alloc::Global;
use tc_alpha::{Alphabet, Sym};
use tc_auto::{Arrow, Auto};
use tc_base::NoMemory;
use tc_model::Name;
use tc_sets::Set;

/// A schema by its automaton, and for each symbol the element patterns whose classes hold it.
#[derive(Drop)]
pub struct Side<'c, 'b> {
    alloc: Global,
    auto: &'c Auto<'b>,
    /// One past the number of the last element pattern.
    end: u32,
    allowed: Vec<Set>,
    ghost ended: { end ≡ length auto.now.elements.now + 1 },
    ghost sized: { AreOfSize end allowed.items },
}

/// One past the number of the last element pattern. No memory holds sets of more numbers than `u32` has.
fn end_of(automaton: &Auto<'_>) -> Result<u32, NoMemory>
    ensures { IfOk result (λ end. end ≡ a.patterns automaton.now + 1) }
{
    automaton.patterns().checked_add(1).ok_or(NoMemory)
}

/// The element patterns whose classes hold a name.
fn allowed_for(
    alloc: Global,
    automaton: &Auto<'_>,
    end: u32,
    name: &Name<'_>,
) -> Result<Set, NoMemory>
    requires { end ≡ a.patterns automaton.now + 1 }
    ensures size { IfOk result (λ r. r.size ≡ end) }
    ensures numbers { IfOk result (λ r. (x : g.Grammar) → a.Stands s.input x automaton.now
        → (k : ℕ) → Has r k ↔ IsAllowed x (see.name name.now) k) }
{
    let mut allowed = Set::empty(alloc, end)?;
    for before in 0..automaton.patterns() {
        if automaton.allows(before + 1, name) {
            allowed.add(before + 1);
        }
    }
    Ok(allowed)
}

/// For each symbol, the element patterns whose classes hold it.
fn allowed_of(
    alloc: Global,
    automaton: &Auto<'_>,
    end: u32,
    alphabet: &Alphabet,
) -> Result<Vec<Set>, NoMemory>
    requires { end ≡ a.patterns automaton.now + 1 }
    ensures count { IfOk result (λ r. length r.items ≡ symbol_count alphabet.now) }
    ensures sizes { IfOk result (λ r. AreOfSize end r.items) }
    ensures allowed { IfOk result (λ r. (x : g.Grammar) → a.Stands s.input x automaton.now
        → AreAllowed x alphabet.now r.items) }
{
    let arena = Bump::new(alloc);
    let mut allowed = Vec::new(alloc);
    for symbol in 0..alphabet.count() {
        let name = alphabet.fresh(&arena, Sym(symbol))?;
        let numbers = allowed_for(alloc, automaton, end, &name)?;
        allowed.push(numbers)?;
    }
    Ok(allowed)
}

/// Puts the states to which arrows lead from states.
fn put_ends(arrows: &[Arrow], states: &Set, ends: &mut Set)
    requires within { AreWithin states.now.size arrows.now }
    requires size { ends.old.size ≡ states.now.size }
    ensures size { ends.new.size ≡ ends.old.size }
    ensures numbers { (j : ℕ) → Has ends.new j
        ↔ (Has ends.old j
        ⊎ ((i : ℕ) × Has states.now i × Contains arrows.now (record { from = i; to = j }))) }
{
    for arrow in arrows {
        if states.has(arrow.from) {
            ends.add(arrow.to);
        }
    }
}

/// Puts the states to which an element leads by element patterns, of which the first is 1.
fn put_after(ends: &[Set], patterns: &Set, next: &mut Set)
    requires count { patterns.now.size ≡ length ends.now + 1 }
    requires sizes { AreOfSize next.old.size ends.now }
    ensures size { next.new.size ≡ next.old.size }
    ensures numbers { (j : ℕ) → Has next.new j
        ↔ (Has next.old j ⊎ IsAtSome ends.now patterns.now (length ends.now) j) }
{
    for before in 0..patterns.size() - 1 {
        if patterns.has(before + 1) {
            next.add_all(&ends[before as usize]);
        }
    }
}

/// Puts the states to which a tree leads: a text, or an element that matches element patterns.
fn put_steps(steps: &Steps, is_text: bool, patterns: &Set, next: &mut Set)
    requires count { patterns.now.size ≡ length steps.now.elements.items + 1 }
    requires sizes { AreOfSize next.old.size steps.now.elements.items }
    requires text { steps.now.text.size ≡ next.old.size }
    ensures size { next.new.size ≡ next.old.size }
    ensures numbers { (j : ℕ) → Has next.new j
        ↔ (Has next.old j ⊎ IsLed steps.now is_text patterns.now j) }
{
    if is_text {
        next.add_all(&steps.text);
    } else {
        put_after(steps.elements.as_slice(), patterns, next);
    }
}

impl<'c, 'b> Side<'c, 'b> {
    ghost use Rattle.std.specs.Prelude.{◌≡◌, ◌<◌, ◌≤◌, ◌↔◌, ◌+◌, ℕ, List, IfOk, IsTrue, length};
    ghost use Rattle.tc_auto.specs.Stands as a;
    ghost use Rattle.tc_incl.specs.Alike.{IsCopyAt};
    ghost use Rattle.tc_incl.specs.Arithmetic.{is_start};
    ghost use Rattle.tc_incl.specs.Sets.{members};
    ghost use Rattle.tc_incl.specs.Sides.{AreAfterPatterns, AreAllowed, AreOfSize, IsAfter, IsAfterPattern, IsAfterText, IsAllowed, IsBegun, IsTaken};
    ghost use Rattle.tc_incl.specs.Steps.{AreSteps};
    ghost use Rattle.tc_model.specs.Grammars as g;
    ghost use Rattle.tc_model.specs.States as s;
    ghost use Rattle.tc_model.specs.Symbols.{Mention, fresh_name, symbol_count};
    ghost use Rattle.tc_sets.specs.Numbers.{Has, HasNone, IsSet, Numbers};

    /// A schema by the symbols of an alphabet.
    pub(crate) fn of(
        alloc: Global,
        auto: &'c Auto<'b>,
        alphabet: &Alphabet,
    ) -> Result<Side<'c, 'b>, NoMemory>
        ensures auto { IfOk result (λ r. r.auto.now ≡ auto.now) }
        ensures count { IfOk result (λ r. length r.allowed.items ≡ symbol_count alphabet.now) }
        ensures allowed { IfOk result (λ r. (x : g.Grammar) → a.Stands s.input x auto.now
            → AreAllowed x alphabet.now r.allowed.items) }
    {
        let end = end_of(auto)?;
        let allowed = allowed_of(alloc, auto, end, alphabet)?;
        Ok(Side {
            alloc,
            auto,
            end,
            allowed,
        })
    }

    /// The first states of the contents.
    pub(crate) fn begun(&self) -> Result<Set, NoMemory>
        ensures set { IfOk result (λ r. IsSet r) }
        ensures size { IfOk result (λ r. r.size ≡ a.states self.now.auto.now) }
        ensures numbers { IfOk result (λ r. (x : g.Grammar) → a.Stands s.input x self.now.auto.now
            → (j : ℕ) → Has r j ↔ IsBegun x (length x.elements) j) }
    {
        let mut states = Set::empty(self.alloc, self.auto.states())?;
        for before in 0..self.auto.patterns() {
            states.add(self.auto.first(before + 1));
        }
        let _size = states.size();
        Ok(states)
    }

    /// Whether `text` is written in some content.
    pub(crate) fn has_text(&self) -> bool
        ensures { (x : g.Grammar) → a.Stands s.input x self.now.auto.now → result
            ≡ g.some_content_has_text x.elements }
    {
        self.auto.has_text()
    }

    /// No element pattern.
    pub(crate) fn no_patterns(&self) -> Result<Set, NoMemory>
        ensures size { IfOk result (λ r. r.size ≡ self.now.end) }
        ensures set { IfOk result (λ r. IsSet r) }
        ensures numbers { IfOk result (λ r. HasNone r) }
    {
        let none = Set::empty(self.alloc, self.end)?;
        Ok(none)
    }

    /// The states to which a text leads states.
    fn after_text(&self, states: &Set) -> Result<Set, NoMemory>
        requires { states.now.size ≡ a.states self.now.auto.now }
        ensures set { IfOk result (λ r. IsSet r) }
        ensures size { IfOk result (λ r. r.size ≡ a.states self.now.auto.now) }
        ensures numbers { IfOk result (λ r. (x : g.Grammar) → a.Stands s.input x self.now.auto.now
            → (j : ℕ) → Has r j ↔ IsAfterText x states.now j) }
    {
        let mut next = Set::empty(self.alloc, self.auto.states())?;
        put_ends(self.auto.text_arrows(), states, &mut next);
        let _size = next.size();
        Ok(next)
    }

    /// The states to which an element leads states by an element pattern.
    fn after_pattern(&self, states: &Set, number: u32) -> Result<Set, NoMemory>
        requires from_one { 1 ≤ number }
        requires within { number ≤ a.patterns self.now.auto.now }
        requires size { states.now.size ≡ a.states self.now.auto.now }
        ensures size { IfOk result (λ r. r.size ≡ a.states self.now.auto.now) }
        ensures numbers { IfOk result (λ r. (x : g.Grammar) → a.Stands s.input x self.now.auto.now
            → (j : ℕ) → Has r j ↔ IsAfterPattern x states.now number j) }
    {
        let mut next = Set::empty(self.alloc, self.auto.states())?;
        put_ends(self.auto.arrows(number), states, &mut next);
        Ok(next)
    }

    /// The same by each element pattern, in order.
    fn after_patterns(&self, states: &Set) -> Result<Vec<Set>, NoMemory>
        requires { states.now.size ≡ a.states self.now.auto.now }
        ensures count { IfOk result (λ r. length r.items ≡ a.patterns self.now.auto.now) }
        ensures sizes { IfOk result (λ r. AreOfSize (a.states self.now.auto.now) r.items) }
        ensures numbers { IfOk result (λ r. (x : g.Grammar) → a.Stands s.input x self.now.auto.now
            → AreAfterPatterns x states.now r.items) }
    {
        let mut next = Vec::new(self.alloc);
        for before in 0..self.auto.patterns() {
            let ends = self.after_pattern(states, before + 1)?;
            next.push(ends)?;
        }
        Ok(next)
    }

    /// The element patterns of which the content accepts in one of the states.
    fn accepting_patterns(&self, states: &Set) -> Result<Set, NoMemory>
        requires { states.now.size ≡ a.states self.now.auto.now }
        ensures size { IfOk result (λ r. r.size ≡ self.now.end) }
        ensures from_one { IfOk result (λ r. ¬ Has r 0) }
        ensures numbers { IfOk result (λ r. (x : g.Grammar) → a.Stands s.input x self.now.auto.now
            → (k : ℕ) → Has r k ↔ IsTaken x states.now k) }
    {
        let mut taken = Set::empty(self.alloc, self.end)?;
        for before in 0..self.auto.patterns() {
            if self.is_taken(states, before + 1) {
                taken.add(before + 1);
            }
        }
        Ok(taken)
    }

    /// Where trees lead states, and what is matched around them: edges are gone over here alone.
    pub(crate) fn steps(&self, states: &Set) -> Result<Steps, NoMemory>
        requires { states.now.size ≡ a.states self.now.auto.now }
        ensures { IfOk result (λ r. AreSteps self.now.auto.now states.now r) }
    {
        let text = self.after_text(states)?;
        let elements = self.after_patterns(states)?;
        let taken = self.accepting_patterns(states)?;
        Ok(Steps {
            text,
            elements,
            taken,
        })
    }

    /// The states to which a tree leads states, by where they lead: a text, or an element that matches element patterns.
    pub(crate) fn after(
        &self,
        steps: &Steps,
        is_text: bool,
        patterns: &Set,
    ) -> Result<Set, NoMemory>
        requires steps { (states : Numbers) × AreSteps self.now.auto.now states steps.now }
        requires patterns { patterns.now.size ≡ self.now.end }
        ensures set { IfOk result (λ r. IsSet r) }
        ensures size { IfOk result (λ r. r.size ≡ a.states self.now.auto.now) }
        ensures numbers { IfOk result (λ r. (x : g.Grammar) (states : Numbers)
            → a.Stands s.input x self.now.auto.now → AreSteps self.now.auto.now states steps.now
            → (j : ℕ) → Has r j ↔ IsAfter x states is_text patterns.now j) }
    {
        let mut next = Set::empty(self.alloc, self.auto.states())?;
        put_steps(steps, is_text, patterns, &mut next);
        let _size = next.size();
        Ok(next)
    }

    /// Whether one of the states is one in which the content of an element pattern accepts.
    fn is_taken(&self, states: &Set, number: u32) -> bool
        requires from_one { 1 ≤ number }
        requires within { number ≤ a.patterns self.now.auto.now }
        requires size { states.now.size ≡ a.states self.now.auto.now }
        ensures { (x : g.Grammar) → a.Stands s.input x self.now.auto.now → IsTrue result
            ↔ IsTaken x states.now number }
    {
        let first = self.auto.first(number);
        let end = self.auto.end(number);
        for state in first..end {
            if states.has(state) && self.auto.accepts(state) {
                return true;
            }
        }
        false
    }

    /// The element patterns whose classes hold a symbol.
    pub(crate) fn allowing(&self, symbol: u32) -> Result<Set, NoMemory>
        requires { symbol < length self.now.allowed.items }
        ensures size { IfOk result (λ r. r.size ≡ self.now.end) }
        ensures numbers { IfOk result (λ r. IsCopyAt self.now.allowed.items symbol r) }
    {
        let mut allowing = Set::empty(self.alloc, self.end)?;
        allowing.add_all(&self.allowed[symbol as usize]);
        Ok(allowing)
    }

    /// The element patterns that an element of a symbol matches around trees, by where their states lead.
    pub(crate) fn matching_patterns(&self, symbol: u32, steps: &Steps) -> Result<Set, NoMemory>
        requires symbol { symbol < length self.now.allowed.items }
        requires steps { (states : Numbers) × AreSteps self.now.auto.now states steps.now }
        ensures set { IfOk result (λ r. IsSet r) }
        ensures size { IfOk result (λ r. r.size ≡ self.now.end) }
        ensures from_one { IfOk result (λ r. ¬ Has r 0) }
        ensures numbers { IfOk result
            (λ r. (x : g.Grammar) (states : Numbers) (symbols : List Mention)
            → a.Stands s.input x self.now.auto.now → AreSteps self.now.auto.now states steps.now
            → AreAllowed x symbols self.now.allowed.items → (k : ℕ) → Has r k
            ↔ (IsAllowed x (fresh_name symbols symbol) k × IsTaken x states k)) }
    {
        let mut around = self.allowing(symbol)?;
        around.keep_all(&steps.taken);
        let _size = around.size();
        Ok(around)
    }

    /// Whether one of the element patterns is an alternative of the start.
    pub(crate) fn starts(&self, patterns: &Set) -> bool
        requires { patterns.now.size ≡ self.now.end }
        ensures { (x : g.Grammar) → a.Stands s.input x self.now.auto.now → result
            ≡ is_start x (members patterns.now) }
    {
        for number in 0..patterns.size() {
            if patterns.has(number) && self.auto.starts(number) {
                return true;
            }
        }
        false
    }
}
