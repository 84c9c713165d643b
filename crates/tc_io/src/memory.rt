// A store and a sink in memory, whose reads and writes fail where they are told to.
ghost use Rattle.std.specs.Prelude.{◌≡◌, ◌≤◌, ◌⊎◌, ◌+◌, ◌++◌, ◌∷◌, [], Some, None, length, IfOk, IfSome, IfNone, OnOk, OnErr, IsErrOf, vec_len, vec_capacity};
ghost use Rattle.std.specs.Option.{option_map};
ghost use Rattle.tc_io.specs.Faults.{Rose};
ghost use Rattle.tc_io.specs.Store.{Files, came, Answers, IsTooLong, IsReadable, longest_file};
ghost use Rattle.tc_io.specs.Sink.{Appended, WroteFront};
ghost use Rattle.tc_io.specs.MemStore.{StoreState, Puts, NextFails, Reads, file_of};
ghost use Rattle.tc_io.specs.HeldFile.{entries, IsPlace};
ghost use Rattle.tc_io.specs.MemSink.{SinkState, Writes};

use crate::calls::Calls;
use crate::{LONGEST_FILE, Sink, Store, StoreFault, WriteFault};
use std::alloc::Global;
use std::marker::Model;
use tc_base::NoMemory;

/// A file of a store in memory.
#[derive(Drop)]
struct HeldFile {
    name: String,
    bytes: Vec<u8>,
}

/// Files in memory.
#[derive(Drop)]
pub struct MemStore {
    files: Vec<HeldFile>,
    calls: Calls,
    faults: u64,
    alloc: Global,
}

impl Model for MemStore {
    ghost use Rattle.tc_io.specs.HeldFile.{entries};
    ghost use Rattle.tc_io.specs.MemStore.{StoreState};

    ghost Value = { StoreState };

    ghost view = { λ store. record { files = entries store.files.items; calls = store.calls.so_far; failing = store.calls.failing.items; faults = store.faults } };
}

impl MemStore {
    /// A store that holds nothing.
    pub fn new(alloc: Global) -> MemStore
        ensures { result ≡ record { files = []; calls = 0; failing = []; faults = 0 } }
    {
        MemStore {
            files: Vec::new(alloc),
            calls: Calls::new(alloc),
            faults: 0,
            alloc,
        }
    }

    /// Holds these bytes under the name, in place of what it held there.
    pub fn put(&mut self, name: &str, bytes: &[u8]) -> Result<(), NoMemory>
        ensures ok { OnOk result (Puts self.old self.new name.now bytes.now) }
        ensures err { OnErr result (self.new ≡ self.old) }
    {
        let copy = Vec::from_slice(self.alloc, bytes)?;
        match place_of(self.files.as_slice(), name) {
            Some(place) => self.files[place].bytes = copy,
            None => {
                let name = String::from_str(self.alloc, name)?;
                self.files.push(HeldFile { name, bytes: copy })?;
            }
        }
        Ok(())
    }

    /// Lets the read of this number fail, the first read being number 1.
    pub fn fail_at(&mut self, call: u64) -> Result<(), NoMemory>
        ensures ok { OnOk result
            (self.new ≡ record self.old { failing = self.old.failing ++ call ∷ [] }) }
        ensures err { OnErr result (self.new ≡ self.old) }
    {
        self.calls.fail_at(call)
    }
}

impl Store for MemStore {
    ghost holds = { λ store. Some (file_of store.files) };

    ghost faults = { λ store. store.faults };

    ghost read_gives = { Reads };

    /// Fails at the reads given to `fail_at`, and at no other. A read of a name that isn't held, or of a file that is
    /// too long, is answered by that cause, whatever its number.
    fn read(&mut self, alloc: Global, name: &str) -> Result<Vec<u8>, StoreFault>
        ensures gives { Reads self.old name.now (came result) self.new }
        ensures same { Some (file_of self.new.files) ≡ Some (file_of self.old.files) }
        ensures count { self.old.faults ≤ self.new.faults }
        ensures bound { IfOk result (λ bytes. length bytes.items ≤ longest_file) }
        ensures told { (files : Files) → Some (file_of self.old.files) ≡ Some files
            → Answers (files name.now) (came result) }
        ensures missing { (files : Files) → Some (file_of self.old.files) ≡ Some files
            → files name.now ≡ None → IsErrOf result StoreFault.Missing }
        ensures too_long { (files : Files) → Some (file_of self.old.files) ≡ Some files
            → IsTooLong (files name.now) → IsErrOf result StoreFault.TooLong }
        ensures failed { IsErrOf result StoreFault.Failed → Rose self.old.faults self.new.faults }
        ensures untold { Some (file_of self.old.files) ≡ None
            → IsErrOf result StoreFault.Missing ⊎ IsErrOf result StoreFault.TooLong
            → Rose self.old.faults self.new.faults }

        // More than a store promises: the reads that fail are those given to `fail_at`.
        ensures fails { IsReadable (file_of self.old.files name.now) → NextFails self.old
            → IsErrOf result StoreFault.Failed }
    {
        let fails = self.calls.next_fails();
        let Some(bytes) = bytes_of(self.files.as_slice(), name) else {
            return Err(StoreFault::Missing);
        };
        if LONGEST_FILE < bytes.len() {
            return Err(StoreFault::TooLong);
        }
        if fails {
            self.faults = self.faults.saturating_add(1);
            return Err(StoreFault::Failed);
        }
        match Vec::from_slice(alloc, bytes) {
            Ok(copy) => Ok(copy),
            Err(_) => Err(StoreFault::NoMemory),
        }
    }
}

/// The place of the file of this name.
fn place_of(files: &[HeldFile], name: &str) -> Option<usize>
    ensures place { IfSome result (IsPlace files.now name.now) }
    ensures none { IfNone result (file_of (entries files.now) name.now ≡ None) }
{
    for (place, file) in files.iter().enumerate() {
        if name == file.name.as_str() {
            return Some(place);
        }
    }
    None
}

/// What the file of this name holds.
fn bytes_of<'a>(files: &'a [HeldFile], name: &str) -> Option<&'a [u8]>
    ensures { option_map (λ bytes. bytes.now) result ≡ file_of (entries files.now) name.now }
{
    match place_of(files, name) {
        Some(place) => Some(files[place].bytes.as_slice()),
        None => None,
    }
}

/// Bytes in memory, with room for so many.
#[derive(Drop)]
pub struct MemSink {
    bytes: Vec<u8>,
    room: usize,
    calls: Calls,
    faults: u64,
}

impl Model for MemSink {
    ghost Value = { SinkState };

    ghost view = { λ sink. record { bytes = sink.bytes.items; room = sink.room; calls = sink.calls.so_far; failing = sink.calls.failing.items; faults = sink.faults } };

    ghost invariant = { λ sink. (vec_len sink.bytes ≤ sink.room) × (sink.room ≤ vec_capacity sink.bytes) };
}

impl MemSink {
    /// An empty sink with room for so many bytes, which are taken at once.
    pub fn new(alloc: Global, room: usize) -> Result<MemSink, NoMemory>
        ensures { IfOk result (λ sink. sink
            ≡ record { bytes = []; room = room; calls = 0; failing = []; faults = 0 }) }
    {
        let bytes = Vec::with_capacity(alloc, room)?;
        Ok(MemSink {
            bytes,
            room,
            calls: Calls::new(alloc),
            faults: 0,
        })
    }

    /// Lets the write of this number fail, the first write being number 1.
    pub fn fail_at(&mut self, call: u64) -> Result<(), NoMemory>
        ensures ok { OnOk result
            (self.new ≡ record self.old { failing = self.old.failing ++ call ∷ [] }) }
        ensures err { OnErr result (self.new ≡ self.old) }
    {
        self.calls.fail_at(call)
    }

    /// The bytes written so far.
    pub fn bytes(&self) -> &[u8]
        ensures { result.now ≡ self.now.bytes }
    {
        self.bytes.as_slice()
    }
}

impl Sink for MemSink {
    ghost written = { λ sink. Some sink.bytes };

    ghost faults = { λ sink. sink.faults };

    ghost write_gives = { Writes };

    /// Fails at the writes given to `fail_at`, of which nothing is written, and where the piece doesn't fit into the
    /// room that is left, of which as much is written as fits.
    fn write(&mut self, piece: &[u8]) -> Result<(), WriteFault>
        ensures gives { Writes self.old piece.now result self.new }
        ensures count { self.old.faults ≤ self.new.faults }
        ensures ok { OnOk result (Appended (Some self.old.bytes) (Some self.new.bytes) piece.now) }
        ensures fault { OnErr result
            (WroteFront (Some self.old.bytes) (Some self.new.bytes) piece.now) }
        ensures rose { OnErr result (Rose self.old.faults self.new.faults) }
    {
        if self.calls.next_fails() {
            self.faults = self.faults.saturating_add(1);
            return Err(WriteFault);
        }
        // `new` took the room, so appending takes no memory and succeeds.
        let fits = piece.len().min(self.room - self.bytes.len());
        let appended = self.bytes.extend_from_slice(&piece[..fits]);
        if fits < piece.len() || appended.is_err() {
            self.faults = self.faults.saturating_add(1);
            return Err(WriteFault);
        }
        Ok(())
    }
}
