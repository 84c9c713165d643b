// Sets of states that are known by numbers.
ghost use Rattle.std.specs.Prelude.{◌≡◌, ◌↔◌, ℕ, [], IfSome};
ghost use Rattle.tc_sets.specs.Numbers.{Has};
ghost use Rattle.tc_steps.specs.Numbered.{AreStates, Grown};

use crate::arrows::replace;
use indexmap::IndexSet;
use std::alloc::Global;
use tc_sets::Set;

/// How many sets are known at most.
const MOST_SETS: usize = 1024;

/// States: a set that is known, by its number, or one of their own.
#[derive(Drop)]
pub(crate) enum States {
    Numbered(usize),
    Own(Set),
}

impl States {
    /// Makes these the states of a number.
    pub(crate) fn lead_to(&mut self, number: usize)
        ensures { self.new ≡ States.Numbered number }
    {
        if let States::Numbered(before) = self {
            *before = number;
            return;
        }
        *self = States::Numbered(number);
    }
}

/// Sets that are known, each by its number, which it keeps.
#[derive(Drop)]
pub(crate) struct KnownSets {
    sets: IndexSet<Set>,
}

/// The same set once more.
pub(crate) fn copy_of(alloc: Global, set: &Set) -> Option<Set>
    ensures size { IfSome result (λ s. s.size ≡ set.now.size) }
    ensures numbers { IfSome result (λ s. (j : ℕ) → Has s j ↔ Has set.now j) }
{
    let Ok(mut copy) = Set::empty(alloc, set.size()) else {
        return None;
    };
    replace(&mut copy, set);
    Some(copy)
}

impl KnownSets {
    /// None is known.
    pub(crate) fn new(alloc: Global) -> KnownSets
        ensures { result.sets.keys ≡ [] }
    {
        KnownSets {
            sets: IndexSet::new(alloc),
        }
    }

    /// The set of states, where there is one.
    pub(crate) fn set_of<'s>(&'s self, states: &'s States) -> Option<&'s Set>
        ensures { IfSome result (λ s. AreStates self.now.sets.keys states.now s.now) }
    {
        match states {
            States::Numbered(number) => self.sets.get_index(*number),
            States::Own(set) => Some(set),
        }
    }

    /// The states of a set, which is known from now on, where there is room for it.
    pub(crate) fn keep(&mut self, set: Set) -> Option<States>
        ensures states { IfSome result (λ states. AreStates self.new.sets.keys states set) }
        ensures grown { IfSome result (λ _. Grown self.old.sets.keys self.new.sets.keys) }
    {
        if self.sets.len() >= MOST_SETS && !self.sets.contains(&set) {
            return Some(States::Own(set));
        }
        match self.sets.insert_full(set) {
            Ok((number, _)) => Some(States::Numbered(number)),
            Err(_) => None,
        }
    }
}
