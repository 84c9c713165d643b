// Lists of numbers that are looked up.
ghost use Rattle.std.specs.Prelude.{◌≡◌, ◌↔◌, ◌⊎◌, [], OnOk, IsTrue};
ghost use Rattle.std.specs.List.{Contains};
ghost use Rattle.tc_verify.specs.Listings.{HasMore};

use indexmap::IndexSet;
use std::alloc::Global;
use std::marker::Model;
use tc_base::NoMemory;

/// Lists of numbers, each held once.
#[derive(Drop)]
pub(crate) struct Lists {
    alloc: Global,
    keys: IndexSet<Vec<u32>>,
}

impl Model for Lists {
    ghost use Rattle.std.specs.Prelude.{ℕ, List, map};

    ghost Value = { List (List ℕ) };

    ghost view = { λ p. map (λ v. v.items) p.keys.keys };
}

impl Lists {
    /// No list.
    pub(crate) fn new(alloc: Global) -> Lists
        ensures { result ≡ [] }
    {
        Lists {
            alloc,
            keys: IndexSet::new(alloc),
        }
    }

    /// Whether a list is held.
    pub(crate) fn has(&self, numbers: &[u32]) -> bool
        ensures { IsTrue result ↔ Contains self.now numbers.now }
    {
        self.keys.contains(numbers)
    }

    /// Holds a list, if it isn't held.
    ///
    /// # Errors
    ///
    /// There is no memory for it.
    pub(crate) fn keep(&mut self, numbers: &[u32]) -> Result<(), NoMemory>
        ensures { OnOk result (HasMore self.old self.new numbers.now) }
    {
        if self.has(numbers) {
            return Ok(());
        }
        let copy = Vec::from_slice(self.alloc, numbers)?;
        self.keys.insert(copy)?;
        Ok(())
    }
}
