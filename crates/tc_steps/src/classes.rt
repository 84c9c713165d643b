// What is worked out of the names of a symbol.
ghost use Rattle.std.specs.Prelude.{◌≡◌, ◌+◌, IfOk, false, true};
ghost use Rattle.tc_auto.specs.Stands as a;
ghost use Rattle.tc_model.specs.Grammars as g;
ghost use Rattle.tc_model.specs.States as s;
ghost use Rattle.tc_model.specs.Views as see;
ghost use Rattle.tc_steps.specs.Classes.{IsClassOf, IsSized, Learns};

use crate::patterns::add_allowed;
use crate::steps::enter;
use std::alloc::Global;
use tc_auto::Auto;
use tc_base::NoMemory;
use tc_model::Name;
use tc_sets::Set;

/// The element patterns in whose classes the names of a symbol are, and the first states of their contents, once a name
/// of the symbol was met.
#[derive(Drop)]
pub(crate) struct Class {
    pub(crate) known: bool,
    pub(crate) numbers: Set,
    pub(crate) firsts: Set,
}

impl Class {
    /// Nothing is known.
    pub(crate) fn new(alloc: Global, automaton: &Auto<'_>, end: u32) -> Result<Class, NoMemory>
        requires { end ≡ a.patterns automaton.now + 1 }
        ensures unknown { IfOk result (λ c. c.known ≡ false) }
        ensures numbers { IfOk result (λ c. c.numbers.size ≡ a.patterns automaton.now + 1) }
        ensures firsts { IfOk result (λ c. c.firsts.size ≡ a.states automaton.now) }
    {
        let numbers = Set::empty(alloc, end)?;
        let firsts = Set::empty(alloc, automaton.states())?;
        Ok(Class {
            known: false,
            numbers,
            firsts,
        })
    }

    /// Works out what a name is.
    fn learn(&mut self, automaton: &Auto<'_>, name: &Name<'_>)
        requires { IsSized automaton.now self.old }
        ensures known { self.new.known ≡ true }
        ensures sized { IsSized automaton.now self.new }
        ensures right { (x : g.Grammar) → a.Stands s.input x automaton.now
            → IsClassOf x (see.name name.now) self.new }
    {
        self.numbers.clear();
        add_allowed(automaton, name, &mut self.numbers);
        enter(automaton, &self.numbers, &mut self.firsts);
        self.known = true;
    }

    /// Works out what a name is, unless a name of the symbol was met.
    pub(crate) fn meet(&mut self, automaton: &Auto<'_>, name: &Name<'_>)
        requires { IsSized automaton.now self.old }
        ensures learns { Learns self.old self.new }
        ensures sized { IsSized automaton.now self.new }
        ensures right { self.old.known ≡ false → (x : g.Grammar) → a.Stands s.input x automaton.now
            → IsClassOf x (see.name name.now) self.new }
    {
        if self.known {
            return;
        }
        self.learn(automaton, name);
    }
}
