//! What the program reads from and writes to: a store of files and a sink for bytes, in memory and over the system.
//!
//! A store or a sink may tell what it holds, and then each promise names the bytes. Whether it tells or not, it counts
//! its faults, so that a caller may answer with a fault only where one came.
#![tactic(auto)]

mod calls;
mod memory;
mod real;
#[cfg(test)]
mod tests;

ghost use Rattle.std.specs.Prelude.{◌≡◌, ◌≤◌, ◌⊎◌, ℕ, List, Option, length, IfOk, OnOk, OnErr, IsErrOf};
ghost use Rattle.tc_io.specs.Faults.{Rose};
ghost use Rattle.tc_io.specs.Store.{Files, Came, came, Answers, IsTooLong, longest_file};
ghost use Rattle.tc_io.specs.Sink.{Appended, WroteFront, Wrote};

pub use memory::{MemSink, MemStore};
pub use real::{RealSink, RealStore};
use std::alloc::Global;
pub use tc_base::limits::LONGEST_FILE;

/// Why a file could not be read.
#[derive(Clone, Copy, Debug, PartialEq, Eq)]
pub enum StoreFault {
    /// No file has this name.
    Missing,
    /// The file could not be read.
    Failed,
    /// The file has more than [`LONGEST_FILE`] bytes.
    TooLong,
    /// There was no memory for its bytes.
    NoMemory,
}

/// A piece could not be written whole.
#[derive(Clone, Copy, Debug, PartialEq, Eq)]
pub struct WriteFault;

/// Files that can be read by their names.
pub trait Store {
    /// The files held, where they are told.
    ghost holds: { Self → Option Files };

    /// How often a read failed.
    ghost faults: { Self → ℕ };

    /// What a read does: the store before, the name, what came of it, and the store after. Who reads by a store that is
    /// any store learns it of no reads but those that were made.
    ghost read_gives: { Self → List ℕ → Came → Self → Type 0 };

    /// Reads the whole file of this name.
    fn read(&mut self, alloc: Global, name: &str) -> Result<Vec<u8>, StoreFault>
        ensures gives { read_gives self.old name.now (came result) self.new }

        // No read changes what is held, and the count of faults never falls.
        ensures same { holds self.new ≡ holds self.old }
        ensures count { faults self.old ≤ faults self.new }

        ensures bound { IfOk result (λ bytes. length bytes.items ≤ longest_file) }

        // Where the files are told: what each answer says of the file, and the two answers that its absence and its
        // length have alone.
        ensures told { (files : Files) → holds self.old ≡ Some files
            → Answers (files name.now) (came result) }
        ensures missing { (files : Files) → holds self.old ≡ Some files
            → files name.now ≡ None → IsErrOf result StoreFault.Missing }
        ensures too_long { (files : Files) → holds self.old ≡ Some files
            → IsTooLong (files name.now) → IsErrOf result StoreFault.TooLong }

        // The count of faults rose wherever the files do not show the cause.
        ensures failed { IsErrOf result StoreFault.Failed
            → Rose (faults self.old) (faults self.new) }
        ensures untold { holds self.old ≡ None
            → IsErrOf result StoreFault.Missing ⊎ IsErrOf result StoreFault.TooLong
            → Rose (faults self.old) (faults self.new) };
}

/// Where bytes are written, piece after piece.
pub trait Sink {
    /// The bytes written so far, where they are told.
    ghost written: { Self → Option (List ℕ) };

    /// How often a write failed.
    ghost faults: { Self → ℕ };

    /// What a write does: the sink before, the piece, what came of it, and the sink after. Who writes to a sink that is any sink
    /// learns it of no writes but those that were made.
    ghost write_gives: { Self → List ℕ → Wrote → Self → Type 0 };

    /// Appends the piece. It takes no memory.
    fn write(&mut self, piece: &[u8]) -> Result<(), WriteFault>
        ensures gives { write_gives self.old piece.now result self.new }
        ensures count { faults self.old ≤ faults self.new }
        ensures ok { OnOk result (Appended (written self.old) (written self.new) piece.now) }
        ensures fault { OnErr result (WroteFront (written self.old) (written self.new) piece.now) }
        ensures rose { OnErr result (Rose (faults self.old) (faults self.new)) };
}
