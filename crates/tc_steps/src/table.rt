// Steps by symbols.
ghost use Rattle.std.proofs.Props.{props};
ghost use Rattle.std.specs.Prelude.{◌≡◌, ◌<◌, ◌↔◌, ◌+◌, ℕ, List, false, length, IfOk, IfSome, IsTrue};
ghost use Rattle.tc_auto.specs.Stands as a;
ghost use Rattle.tc_model.specs.Grammars as g;
ghost use Rattle.tc_model.specs.Names.{ExpandedName};
ghost use Rattle.tc_model.specs.States as s;
ghost use Rattle.tc_model.specs.Symbols.{symbol_count, symbol_of, symbols_of};
ghost use Rattle.tc_model.specs.Sheets.{Sheet};
ghost use Rattle.tc_model.specs.Trees as t;
ghost use Rattle.tc_model.specs.Views as see;
ghost use Rattle.tc_steps.specs.Classes.{AreSized, IsFor, IsKnown};
ghost use Rattle.tc_steps.specs.Led.{AreLed, IsStarted};
ghost use Rattle.tc_steps.specs.Remembered.{AreRemembered};

use crate::arrows::replace;
use crate::classes::Class;
use crate::known_symbols::KnownSymbols;
use crate::patterns::is_started;
use crate::steps::{pass_element, pass_text};
use std::alloc::Global;
use tc_alpha::{Alphabet, Sym};
use tc_auto::Auto;
use tc_base::NoMemory;
use tc_model::Name;
use tc_sets::Set;

/// The steps over children from sets of states of a schema's contents to others, what is worked out of each symbol, and
/// the symbols of some names.
#[derive(Drop)]
pub struct Steps<'h> {
    auto: &'h Auto<'h>,
    alphabet: &'h Alphabet,
    classes: Vec<Class>,
    symbols: KnownSymbols,
    next: Set,
    ghost sized: { AreSized auto.now classes.items },
    ghost counted: { length classes.items ≡ symbol_count alphabet.now },
    ghost next_sized: { next.size ≡ a.states auto.now },
    ghost remembered: { AreRemembered alphabet.now symbols } by { Prim.hlevel props },
}

/// One past the number of the last element pattern. No memory holds sets of more numbers than `u32` has.
fn end_of(automaton: &Auto<'_>) -> Result<u32, NoMemory>
    ensures { IfOk result (λ end. end ≡ a.patterns automaton.now + 1) }
{
    automaton.patterns().checked_add(1).ok_or(NoMemory)
}

/// For each symbol that nothing is known of it.
fn all_unknown(
    alloc: Global,
    automaton: &Auto<'_>,
    alphabet: &Alphabet,
) -> Result<Vec<Class>, NoMemory>
    ensures count { IfOk result (λ r. length r.items ≡ symbol_count alphabet.now) }
    ensures sized { IfOk result (λ r. AreSized automaton.now r.items) }
    ensures unknown { IfOk result (λ r. (k : ℕ) → IsKnown r.items k → ⊥) }
{
    let end = end_of(automaton)?;
    let mut classes = Vec::new(alloc);
    for _symbol in 0..alphabet.count() {
        let class = Class::new(alloc, automaton, end)?;
        classes.push(class)?;
    }
    Ok(classes)
}

impl<'h> Steps<'h> {
    /// Nothing is worked out yet.
    ///
    /// # Errors
    ///
    /// There is no memory for the sets of the symbols.
    pub fn new(
        alloc: Global,
        auto: &'h Auto<'h>,
        alphabet: &'h Alphabet,
    ) -> Result<Steps<'h>, NoMemory>
        ensures auto { IfOk result (λ r. r.auto.now ≡ auto.now) }
        ensures alphabet { IfOk result (λ r. r.alphabet.now ≡ alphabet.now) }
        ensures right { IfOk result
            (λ r. (x other : g.Grammar) (sheet : Sheet) → a.Stands s.input x auto.now
            → alphabet.now ≡ symbols_of x other sheet
            → IsFor x r.auto.now r.alphabet.now r.classes.items) }
    {
        let classes = all_unknown(alloc, auto, alphabet)?;
        let symbols = KnownSymbols::new(alloc)?;
        let next = Set::empty(alloc, auto.states())?;
        Ok(Steps {
            auto,
            alphabet,
            classes,
            symbols,
            next,
        })
    }

    /// The symbol of a name, if it is remembered and known.
    fn remembered(&self, name: &Name<'_>) -> Option<Sym>
        ensures symbol { IfSome result
            (λ s. s.0 ≡ symbol_of self.now.alphabet.now (see.name name.now)) }
        ensures below { IfSome result (λ s. s.0 < symbol_count self.now.alphabet.now) }
        ensures known { IfSome result (λ s. IsKnown self.now.classes.items s.0) }
    {
        let symbol = self.symbols.remembered(name)?;
        let class = self.classes.get(symbol.0 as usize)?;
        if class.known { Some(symbol) } else { None }
    }

    /// Looks for the symbol of a name, and works out what it is, unless a name of the symbol was met.
    fn learn(&mut self, name: &Name<'_>) -> Sym
        ensures auto { self.new.auto.now ≡ self.old.auto.now }
        ensures alphabet { self.new.alphabet.now ≡ self.old.alphabet.now }
        ensures symbol { result.0 ≡ symbol_of self.old.alphabet.now (see.name name.now) }
        ensures below { result.0 < symbol_count self.old.alphabet.now }
        ensures known { IsKnown self.new.classes.items result.0 }
        ensures stays { (k : ℕ) → IsKnown self.old.classes.items k
            → IsKnown self.new.classes.items k }
        ensures right { (x : g.Grammar)
            → IsFor x self.old.auto.now self.old.alphabet.now self.old.classes.items
            → IsFor x self.new.auto.now self.new.alphabet.now self.new.classes.items }
    {
        let symbol = self.alphabet.sym_of(name);
        self.classes[symbol.0 as usize].meet(self.auto, name);
        self.symbols.remember(name, symbol);
        symbol
    }

    /// The symbol of a name, which is known from now on.
    pub fn symbol(&mut self, name: &Name<'_>) -> Sym
        ensures auto { self.new.auto.now ≡ self.old.auto.now }
        ensures alphabet { self.new.alphabet.now ≡ self.old.alphabet.now }
        ensures symbol { result.0 ≡ symbol_of self.old.alphabet.now (see.name name.now) }
        ensures below { result.0 < symbol_count self.old.alphabet.now }
        ensures known { IsKnown self.new.classes.items result.0 }
        ensures stays { (k : ℕ) → IsKnown self.old.classes.items k
            → IsKnown self.new.classes.items k }
        ensures right { (x : g.Grammar)
            → IsFor x self.old.auto.now self.old.alphabet.now self.old.classes.items
            → IsFor x self.new.auto.now self.new.alphabet.now self.new.classes.items }
    {
        match self.remembered(name) {
            Some(symbol) => symbol,
            None => self.learn(name),
        }
    }

    /// The number below which states are.
    pub(crate) fn size(&self) -> u32
        ensures { result ≡ a.states self.now.auto.now }
    {
        self.auto.states()
    }

    /// Whether a symbol is one of the alphabet.
    pub(crate) fn has(&self, symbol: Sym) -> bool
        ensures { IsTrue result → symbol.0 < symbol_count self.now.alphabet.now }
    {
        symbol.0 < self.alphabet.count()
    }

    /// Leaves the first states of the contents that the names of a symbol allow.
    pub fn enter(&self, symbol: Sym, states: &mut Set)
        requires symbol { symbol.0 < symbol_count self.now.alphabet.now }
        requires size { states.old.size ≡ a.states self.now.auto.now }
        ensures size { states.new.size ≡ states.old.size }
        ensures led { (x : g.Grammar) (n : ExpandedName)
            → IsFor x self.now.auto.now self.now.alphabet.now self.now.classes.items
            → IsKnown self.now.classes.items symbol.0 → symbol.0
            ≡ symbol_of self.now.alphabet.now n → AreLed x n t.none states.new }
    {
        replace(states, &self.classes[symbol.0 as usize].firsts);
    }

    /// Goes over a text that isn't white space alone.
    pub fn pass_text(&mut self, states: &mut Set)
        requires { states.old.size ≡ a.states self.old.auto.now }
        ensures size { states.new.size ≡ states.old.size }
        ensures auto { self.new.auto.now ≡ self.old.auto.now }
        ensures alphabet { self.new.alphabet.now ≡ self.old.alphabet.now }
        ensures classes { self.new.classes.items ≡ self.old.classes.items }
        ensures led { (x : g.Grammar) (n : ExpandedName) (kids : t.Trees) (text : List ℕ)
            → IsFor x self.old.auto.now self.old.alphabet.now self.old.classes.items
            → t.is_white_space_only text ≡ false
            → AreLed x n kids states.old
            → AreLed x n (t.beside kids (t.text text t.none)) states.new }
    {
        pass_text(self.auto, states, &mut self.next);
    }

    /// Goes over an element of a symbol, whose children lead to some states.
    pub fn pass_element(&mut self, symbol: Sym, ends: &Set, states: &mut Set)
        requires symbol { symbol.0 < symbol_count self.old.alphabet.now }
        requires ends { ends.now.size ≡ a.states self.old.auto.now }
        requires size { states.old.size ≡ a.states self.old.auto.now }
        ensures size { states.new.size ≡ states.old.size }
        ensures auto { self.new.auto.now ≡ self.old.auto.now }
        ensures alphabet { self.new.alphabet.now ≡ self.old.alphabet.now }
        ensures classes { self.new.classes.items ≡ self.old.classes.items }
        ensures led { (x : g.Grammar) (n m : ExpandedName) (kids inside : t.Trees)
            → IsFor x self.old.auto.now self.old.alphabet.now self.old.classes.items
            → IsKnown self.old.classes.items symbol.0 → symbol.0 ≡ symbol_of self.old.alphabet.now m
            → AreLed x m inside ends.now → AreLed x n kids states.old
            → AreLed x n (t.beside kids (t.element m inside t.none)) states.new }
    {
        let numbers = &self.classes[symbol.0 as usize].numbers;
        pass_element(self.auto, numbers, ends, states, &mut self.next);
    }

    /// Whether an element of a symbol, whose children lead to some states, matches an alternative of the start.
    pub fn is_started(&self, symbol: Sym, ends: &Set) -> bool
        requires symbol { symbol.0 < symbol_count self.now.alphabet.now }
        requires ends { ends.now.size ≡ a.states self.now.auto.now }
        ensures { (x : g.Grammar) (m : ExpandedName) (inside : t.Trees)
            → IsFor x self.now.auto.now self.now.alphabet.now self.now.classes.items
            → IsKnown self.now.classes.items symbol.0 → symbol.0 ≡ symbol_of self.now.alphabet.now m
            → AreLed x m inside ends.now → IsTrue result ↔ IsStarted x m inside }
    {
        is_started(self.auto, &self.classes[symbol.0 as usize].numbers, ends)
    }
}
