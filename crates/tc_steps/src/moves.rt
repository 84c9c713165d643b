// What elements and texts make of states, each step worked out once where it is remembered.
ghost use Rattle.std.specs.Prelude.{◌≡◌, ◌↔◌, ℕ, IfOk, IfSome, IsTrue};
ghost use Rattle.tc_auto.specs.Stands as a;
ghost use Rattle.tc_model.specs.Grammars as g;
ghost use Rattle.tc_model.specs.Names.{ExpandedName};
ghost use Rattle.tc_model.specs.Sheets.{Sheet};
ghost use Rattle.tc_model.specs.States as s;
ghost use Rattle.tc_model.specs.Symbols.{symbols_of};
ghost use Rattle.tc_model.specs.Trees as t;
ghost use Rattle.tc_model.specs.Views as see;
ghost use Rattle.tc_steps.specs.Led.{IsStarted};
ghost use Rattle.tc_steps.specs.Numbered.{IsStep};
ghost use Rattle.tc_steps.specs.Moving.{AreRight, IsAfterElement, IsAfterText, IsCopyOf, IsElement, IsMet, Keeps};

use crate::known_names::{Entry, KnownNames};
use crate::known_sets::{KnownSets, States, copy_of};
use crate::known_steps::{Child, KnownSteps};
use crate::table::Steps;
use std::alloc::Global;
use tc_alpha::{Alphabet, Sym};
use tc_auto::Auto;
use tc_base::NoMemory;
use tc_model::Name;
use tc_sets::Set;

/// An element that is open: its symbol, and the states to which its children lead.
#[derive(Drop)]
pub(crate) struct Opened {
    pub(crate) symbol: Sym,
    pub(crate) states: States,
}

/// The steps of a schema, with the sets, steps and names that are known.
#[derive(Drop)]
pub(crate) struct Moves<'h, 't> {
    alloc: Global,
    steps: Steps<'h>,
    sets: KnownSets,
    known: KnownSteps,
    names: KnownNames<'t>,
}

impl<'h, 't> Moves<'h, 't> {
    /// Nothing is known yet.
    ///
    /// # Errors
    ///
    /// There is no memory for what will be remembered.
    pub(crate) fn new(
        alloc: Global,
        auto: &'h Auto<'h>,
        alphabet: &'h Alphabet,
    ) -> Result<Moves<'h, 't>, NoMemory>
        ensures { IfOk result (λ m. (x other : g.Grammar) (sheet : Sheet)
            → a.Stands s.input x auto.now → alphabet.now ≡ symbols_of x other sheet
            → AreRight x m) }
    {
        let steps = Steps::new(alloc, auto, alphabet)?;
        let known = KnownSteps::new(alloc)?;
        let names = KnownNames::new(alloc)?;
        Ok(Moves {
            alloc,
            steps,
            sets: KnownSets::new(alloc),
            known,
            names,
        })
    }

    /// A copy of the set of states.
    fn copied(&self, states: &States) -> Option<Set>
        ensures size { IfSome result (λ s. s.size ≡ a.states self.now.steps.auto.now) }
        ensures numbers { IfSome result (λ s. IsCopyOf self.now states.now s) }
    {
        let set = self.sets.set_of(states)?;
        if set.size() != self.steps.size() {
            return None;
        }
        copy_of(self.alloc, set)
    }

    /// Remembers where a step leads, if that has a number.
    fn remember(&mut self, from: usize, child: Child, to: &States)
        ensures steps { self.new.steps ≡ self.old.steps }
        ensures sets { self.new.sets ≡ self.old.sets }
        ensures right { (x : g.Grammar) → AreRight x self.old
            → ((number : ℕ) → to.now ≡ States.Numbered number
            → IsStep x self.old.steps.alphabet.now self.old.sets.sets.keys from child number)
            → AreRight x self.new }
    {
        if let States::Numbered(number) = to {
            self.known.remember(from, child, *number);
        }
    }

    /// Works out the states behind a text that isn't white space alone.
    fn learn_text(&mut self, from: &States) -> Option<States>
        ensures keeps { IfSome result (λ _. (x : g.Grammar) → AreRight x self.old
            → Keeps x self.old self.new) }
        ensures after { IfSome result (λ to. (x : g.Grammar) → AreRight x self.old
            → IsAfterText x self.new from.now to) }
    {
        let mut states = self.copied(from)?;
        self.steps.pass_text(&mut states);
        self.sets.keep(states)
    }

    /// The number of the states behind a text that isn't white space alone, if the step is remembered.
    pub(crate) fn known_text(&self, from: &States) -> Option<usize>
        ensures { (x : g.Grammar) → AreRight x self.now
            → IfSome result (λ to. IsAfterText x self.now from.now (States.Numbered to)) }
    {
        let States::Numbered(number) = from else {
            return None;
        };
        self.known.remembered(*number, Child::Text)
    }

    /// The states behind a text that isn't white space alone, which are worked out.
    #[inline(never)]
    pub(crate) fn after_text(&mut self, from: &States) -> Option<States>
        ensures keeps { IfSome result (λ _. (x : g.Grammar) → AreRight x self.old
            → Keeps x self.old self.new) }
        ensures after { IfSome result (λ to. (x : g.Grammar) → AreRight x self.old
            → IsAfterText x self.new from.now to) }
    {
        let to = self.learn_text(from)?;
        let States::Numbered(number) = from else {
            return Some(to);
        };
        self.remember(*number, Child::Text, &to);
        Some(to)
    }

    /// Works out the states behind an element.
    fn learn_element(&mut self, inner: &Opened, from: &States) -> Option<States>
        ensures keeps { IfSome result (λ _. (x : g.Grammar) → AreRight x self.old
            → IsMet self.old inner.now → Keeps x self.old self.new) }
        ensures after { IfSome result (λ to. (x : g.Grammar) → AreRight x self.old
            → IsMet self.old inner.now → IsAfterElement x self.new inner.now from.now to) }
    {
        if !self.steps.has(inner.symbol) {
            return None;
        }
        let ends = self.copied(&inner.states)?;
        let mut states = self.copied(from)?;
        self.steps.pass_element(inner.symbol, &ends, &mut states);
        self.sets.keep(states)
    }

    /// The number of the states behind an element, if the step is remembered.
    pub(crate) fn known_element(&self, inner: &Opened, from: &States) -> Option<usize>
        ensures { (x : g.Grammar) → AreRight x self.now → IfSome result
            (λ to. IsAfterElement x self.now inner.now from.now (States.Numbered to)) }
    {
        let (States::Numbered(number), States::Numbered(ends)) = (from, &inner.states) else {
            return None;
        };
        let child = Child::Element(inner.symbol, *ends);
        self.known.remembered(*number, child)
    }

    /// The states behind an element, which are worked out.
    #[inline(never)]
    pub(crate) fn after_element(&mut self, inner: &Opened, from: &States) -> Option<States>
        ensures keeps { IfSome result (λ _. (x : g.Grammar) → AreRight x self.old
            → IsMet self.old inner.now → Keeps x self.old self.new) }
        ensures after { IfSome result (λ to. (x : g.Grammar) → AreRight x self.old
            → IsMet self.old inner.now → IsAfterElement x self.new inner.now from.now to) }
    {
        let to = self.learn_element(inner, from)?;
        let (States::Numbered(number), States::Numbered(ends)) = (from, &inner.states) else {
            return Some(to);
        };
        self.remember(*number, Child::Element(inner.symbol, *ends), &to);
        Some(to)
    }

    /// Remembers what is known of the elements of a name, if their first states have a number.
    fn remember_name(&mut self, name: Name<'t>, opened: &Opened)
        ensures steps { self.new.steps ≡ self.old.steps }
        ensures sets { self.new.sets ≡ self.old.sets }
        ensures right { (x : g.Grammar) → AreRight x self.old
            → IsElement x self.old (see.name name.entry) t.none opened.now → AreRight x self.new }
    {
        if let States::Numbered(first) = &opened.states {
            let entry = Entry {
                symbol: opened.symbol,
                first: *first,
            };
            self.names.remember(name, entry);
        }
    }

    /// Works out an element of a name where it starts.
    #[inline(never)]
    fn learn_start(&mut self, name: Name<'t>) -> Option<Opened>
        ensures keeps { IfSome result (λ _. (x : g.Grammar) → AreRight x self.old
            → Keeps x self.old self.new) }
        ensures element { IfSome result (λ o. (x : g.Grammar) → AreRight x self.old
            → IsElement x self.new (see.name name.entry) t.none o) }
    {
        let symbol = self.steps.symbol(&name);
        let Ok(mut first) = Set::empty(self.alloc, self.steps.size()) else {
            return None;
        };
        self.steps.enter(symbol, &mut first);
        let states = self.sets.keep(first)?;
        let opened = Opened { symbol, states };
        self.remember_name(name, &opened);
        Some(opened)
    }

    /// An element of a name where it starts.
    pub(crate) fn start(&mut self, name: Name<'t>) -> Option<Opened>
        ensures keeps { IfSome result (λ _. (x : g.Grammar) → AreRight x self.old
            → Keeps x self.old self.new) }
        ensures element { IfSome result (λ o. (x : g.Grammar) → AreRight x self.old
            → IsElement x self.new (see.name name.entry) t.none o) }
    {
        match self.names.remembered(&name) {
            Some(entry) => Some(Opened {
                symbol: entry.symbol,
                states: States::Numbered(entry.first),
            }),
            None => self.learn_start(name),
        }
    }

    /// Whether an element matches an alternative of the start.
    pub(crate) fn is_started(&self, inner: &Opened) -> Option<bool>
        ensures { IfSome result (λ b. (x : g.Grammar) (n : ExpandedName) (kids : t.Trees)
            → AreRight x self.now → IsElement x self.now n kids inner.now
            → IsTrue b ↔ IsStarted x n kids) }
    {
        if !self.steps.has(inner.symbol) {
            return None;
        }
        let ends = self.copied(&inner.states)?;
        Some(self.steps.is_started(inner.symbol, &ends))
    }
}
