// The files of the system and a writer, of which no content is told: the edge that is trusted.
ghost use Rattle.std.specs.Prelude.{◌≡◌, ◌≤◌, ◌<◌, ◌⊎◌, ℕ, Some, None, length, IfOk, IfSome, OnOk, OnErr, IsErrOf};
ghost use Rattle.std.specs.Io.KnownBytes.{Appends};
ghost use Rattle.tc_io.specs.Faults.{Rose};
ghost use Rattle.tc_io.specs.Store.{Files, came, Answers, IsTooLong, longest_file};
ghost use Rattle.tc_io.specs.RealStore.{Counts};
ghost use Rattle.tc_io.specs.RealSink.{WriterState, AppendsFront, Reaches};

use crate::{LONGEST_FILE, Sink, Store, StoreFault, WriteFault};
use std::alloc::Global;
use std::fs::File;
use std::io::{ErrorKind, Read, Write};
use std::marker::Model;
use std::rt::Files;

/// How many bytes are asked for at once.
const CHUNK: usize = 8192;

/// The files of the system, by their paths.
#[derive(Drop)]
pub struct RealStore<'r, R: Files> {
    rt: &'r R,
    faults: u64,
}

impl<'r, R: Files> Model for RealStore<'r, R> {
    ghost Value = { ℕ };

    ghost view = { λ store. store.faults };
}

impl<'r, R: Files> RealStore<'r, R> {
    /// The files that this runtime reaches.
    pub fn new(rt: &'r R) -> RealStore<'r, R>
        ensures { result ≡ 0 }
    {
        RealStore { rt, faults: 0 }
    }
}

impl<'r, R: Files> Store for RealStore<'r, R> {
    ghost holds = { λ _. None };

    ghost faults = { λ faults. faults };

    ghost read_gives = { Counts };

    /// Every answer but `Ok` raises the count of faults by one.
    fn read(&mut self, alloc: Global, name: &str) -> Result<Vec<u8>, StoreFault>
        ensures gives { Counts self.old name.now (came result) self.new }
        ensures count { self.old ≤ self.new }
        ensures bound { IfOk result (λ bytes. length bytes.items ≤ longest_file) }
        ensures told { (files : Files) → None ≡ Some files
            → Answers (files name.now) (came result) }
        ensures missing { (files : Files) → None ≡ Some files
            → files name.now ≡ None → IsErrOf result StoreFault.Missing }
        ensures too_long { (files : Files) → None ≡ Some files
            → IsTooLong (files name.now) → IsErrOf result StoreFault.TooLong }
        ensures failed { IsErrOf result StoreFault.Failed → Rose self.old self.new }
        ensures untold { IsErrOf result StoreFault.Missing ⊎ IsErrOf result StoreFault.TooLong
            → Rose self.old self.new }
    {
        let read = read_file(self.rt, alloc, name);
        if read.is_err() {
            self.faults = self.faults.saturating_add(1);
        }
        read
    }
}

/// Reads the whole file at this path.
fn read_file<R: Files>(rt: &R, alloc: Global, path: &str) -> Result<Vec<u8>, StoreFault>
    ensures { IfOk result (λ bytes. length bytes.items ≤ longest_file) }
{
    match File::open(rt, path) {
        Ok(mut file) => read_to_end(&mut file, alloc),
        Err(error) if error.kind() == ErrorKind::NotFound => Err(StoreFault::Missing),
        Err(_) => Err(StoreFault::Failed),
    }
}

/// Reads what is left. A read that was interrupted goes on.
pub(crate) fn read_to_end<F: Read>(file: &mut F, alloc: Global) -> Result<Vec<u8>, StoreFault>
    ensures bound { IfOk result (λ bytes. length bytes.items ≤ longest_file) }
    ensures whole { IfOk result
        (λ bytes. IfSome (F.remaining file.old) (λ left. bytes.items ≡ left)) }
    ensures too_long { IsErrOf result StoreFault.TooLong
        → IfSome (F.remaining file.old) (λ left. longest_file < length left) }
    ensures not_missing { IsErrOf result StoreFault.Missing → ⊥ }
{
    let mut bytes = Vec::new(alloc);
    let mut chunk = [0u8; CHUNK];
    for _ in 0..u64::MAX {
        match file.read(&mut chunk) {
            Ok(0) => return Ok(bytes),
            Ok(count) if LONGEST_FILE - bytes.len() < count => return Err(StoreFault::TooLong),
            Ok(count) => {
                if bytes.extend_from_slice(&chunk[..count]).is_err() {
                    return Err(StoreFault::NoMemory);
                }
            }
            Err(error) if error.kind() == ErrorKind::Interrupted => {}
            Err(_) => return Err(StoreFault::Failed),
        }
    }
    Err(StoreFault::Failed)
}

/// A writer, as the standard output.
#[derive(Drop)]
pub struct RealSink<W: Write> {
    out: W,
    faults: u64,
}

impl<W: Write> Model for RealSink<W> {
    ghost Value = { WriterState W };

    ghost view = { λ sink. record { out = sink.out; faults = sink.faults } };
}

impl<W: Write> RealSink<W> {
    /// Writes to this writer, which may not keep bytes back.
    pub fn new(out: W) -> RealSink<W>
        ensures { result ≡ record { out = out; faults = 0 } }
    {
        RealSink { out, faults: 0 }
    }
}

impl<W: Write> Sink for RealSink<W> {
    ghost written = { λ _. None };

    ghost faults = { λ sink. sink.faults };

    ghost write_gives = { Reaches W.contents };

    /// Every fault raises the count by one.
    fn write(&mut self, piece: &[u8]) -> Result<(), WriteFault>
        ensures gives { Reaches W.contents self.old piece.now result self.new }
        ensures count { self.old.faults ≤ self.new.faults }
        ensures rose { OnErr result (Rose self.old.faults self.new.faults) }
    {
        let written = write_all(&mut self.out, piece);
        if written.is_err() {
            self.faults = self.faults.saturating_add(1);
        }
        written
    }
}

/// Writes the whole piece. A write that takes nothing of it is a fault, and one that was interrupted goes on.
fn write_all<W: Write>(out: &mut W, piece: &[u8]) -> Result<(), WriteFault>
    ensures reaches { OnOk result (Appends (W.contents out.old) (W.contents out.new) piece.now) }
    ensures front { OnErr result
        (AppendsFront (W.contents out.old) (W.contents out.new) piece.now) }
{
    let mut rest = piece;
    for _ in 0..u64::MAX {
        if rest.is_empty() {
            return Ok(());
        }
        match out.write(rest) {
            Ok(0) => return Err(WriteFault),
            Ok(count) => rest = &rest[count..],
            Err(error) if error.kind() == ErrorKind::Interrupted => {}
            Err(_) => return Err(WriteFault),
        }
    }
    Err(WriteFault)
}
