// The calls of a store or a sink in memory: how many there were, and which are to fail.
ghost use Rattle.std.specs.Prelude.{◌≡◌, [], ◌∷◌, ◌++◌, IsTrue, OnOk, OnErr, ◌↔◌, Contains};
ghost use Rattle.tc_io.specs.Faults.{raised};

use std::alloc::Global;
use tc_base::NoMemory;

/// Counts calls from 1 on, and knows the numbers of those that are to fail.
#[derive(Drop)]
pub struct Calls {
    pub so_far: u64,
    pub failing: Vec<u64>,
}

impl Calls {
    pub fn new(alloc: Global) -> Calls
        ensures so_far { result.so_far ≡ 0 }
        ensures failing { result.failing.items ≡ [] }
    {
        Calls {
            so_far: 0,
            failing: Vec::new(alloc),
        }
    }

    /// Lets the call of this number fail.
    pub fn fail_at(&mut self, call: u64) -> Result<(), NoMemory>
        ensures so_far { self.new.so_far ≡ self.old.so_far }
        ensures ok { OnOk result (self.new.failing.items ≡ self.old.failing.items ++ call ∷ []) }
        ensures err { OnErr result (self.new.failing.items ≡ self.old.failing.items) }
    {
        self.failing.push(call)?;
        Ok(())
    }

    /// Counts the next call, and tells whether it is to fail.
    pub fn next_fails(&mut self) -> bool
        ensures so_far { self.new.so_far ≡ raised self.old.so_far }
        ensures failing { self.new.failing.items ≡ self.old.failing.items }
        ensures fails { IsTrue result ↔ Contains self.old.failing.items (raised self.old.so_far) }
    {
        self.so_far = self.so_far.saturating_add(1);
        self.failing.as_slice().contains(&self.so_far)
    }
}
