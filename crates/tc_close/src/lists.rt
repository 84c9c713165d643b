// Lists of numbers, each held once.
ghost use Rattle.std.specs.Prelude.{◌≡◌, ◌<◌, ◌++◌, ◌∷◌, ◌⊎◌, [], Some, slice_get, length, IfOk, OnErr, MatchOption};
ghost use Rattle.std.specs.List.{Contains};
ghost use Rattle.tc_rows.specs.Counts.{AreDifferent};

use crate::number_hasher::NumberHasher;
use indexmap::IndexSet;
use std::alloc::Global;
use std::hash::BuildHasherDefault;
use std::marker::Model;
use tc_base::NoMemory;

/// How many lists may be held.
const MOST: usize = u32::MAX as usize;

/// Lists of numbers, each held once and known by its place, in the order in which they were first held.
#[derive(Drop)]
pub(crate) struct Lists {
    alloc: Global,
    keys: IndexSet<Vec<u32>, BuildHasherDefault<NumberHasher>>,
}

impl Model for Lists {
    ghost use Rattle.std.specs.Prelude.{ℕ, List, ◌<◌, map, length};

    ghost Value = { List (List ℕ) };

    ghost view = { λ p. map (λ v. v.items) p.keys.keys };

    ghost invariant = { λ p. length p.keys.keys < 4294967296 };
}

impl Lists {
    /// No list.
    pub(crate) fn new(alloc: Global) -> Lists
        ensures { result ≡ [] }
    {
        Lists {
            alloc,
            keys: IndexSet::with_hasher(alloc, BuildHasherDefault::new()),
        }
    }

    /// How many lists are held.
    pub(crate) fn count(&self) -> u32
        ensures count { result ≡ length self.now }
        ensures different { AreDifferent self.now }
    {
        self.keys.len() as u32
    }

    /// The list of a place.
    pub(crate) fn get(&self, place: u32) -> &[u32]
        requires { place < length self.now }
        ensures { slice_get self.now place ≡ Some result.now }
    {
        self.keys.as_slice()[place as usize].as_slice()
    }

    /// The place of a list, if it is held.
    fn find(&self, numbers: &[u32]) -> Option<u32>
        ensures { MatchOption result (¬ Contains self.now numbers.now)
            (λ k. slice_get self.now k ≡ Some numbers.now) }
    {
        match self.keys.get_index_of(numbers) {
            Some(place) => Some(place as u32),
            None => None,
        }
    }

    /// The place of a list. One that isn't held comes last.
    ///
    /// # Errors
    ///
    /// There is no memory, or no number for one more. What is held stays as it was.
    pub(crate) fn keep(&mut self, numbers: &[u32]) -> Result<u32, NoMemory>
        ensures place { IfOk result (λ k. slice_get self.new k ≡ Some numbers.now) }
        ensures grows { IfOk result (λ k. (self.new ≡ self.old)
            ⊎ ((k ≡ length self.old) × (self.new ≡ self.old ++ numbers.now ∷ []))) }
        ensures err { OnErr result (self.new ≡ self.old) }
    {
        if let Some(place) = self.find(numbers) {
            return Ok(place);
        }
        let place = self.keys.len();
        if place >= MOST {
            return Err(NoMemory);
        }
        let copy = Vec::from_slice(self.alloc, numbers)?;
        self.keys.insert(copy)?;
        Ok(place as u32)
    }
}
