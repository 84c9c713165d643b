//! Stores and sinks, by hand.

use std::alloc::Global;
use std::io::{Error, ErrorKind, Write};
use std::process::Abort;
use std::test::Fail;
use std::{env, fs, io, process};
use tc_io::{MemSink, MemStore, RealSink, RealStore, Sink, Store, StoreFault};

/// Files that are put into a store one after another, the reads that fail, and what each read of a name gives.
type Stored = (
    &'static [(&'static str, &'static [u8])],
    &'static [u64],
    &'static [(&'static str, Result<&'static [u8], StoreFault>)],
);

static STORES: [Stored; 2] = [
    // A store holds what was put, where a name was put twice what was put last.
    (
        &[("one", b"1"), ("two", b"2"), ("one", b"first")],
        &[],
        &[
            ("one", Ok(b"first")),
            ("two", Ok(b"2")),
            ("on", Err(StoreFault::Missing)),
        ],
    ),
    // It fails where it is told to.
    (
        &[("held", b"bytes")],
        &[2, 3],
        &[
            ("held", Ok(b"bytes")),
            ("held", Err(StoreFault::Failed)),
            ("other", Err(StoreFault::Missing)),
            ("held", Ok(b"bytes")),
        ],
    ),
];

/// A store of such files, of which such reads fail.
fn store_of(alloc: Global, files: &[(&str, &[u8])], failing: &[u64]) -> Result<MemStore, Fail> {
    let mut store = MemStore::new(alloc);
    for (name, bytes) in files {
        store.put(name, bytes)?;
    }
    for read in failing {
        store.fail_at(*read)?;
    }
    Ok(store)
}

/// Asserts what a store gives for a name.
fn assert_given(
    rt: &impl Abort,
    alloc: Global,
    store: &mut MemStore,
    name: &str,
    expected: Result<&[u8], StoreFault>,
) {
    match store.read(alloc, name) {
        Ok(found) => assert!(rt; Ok(found.as_slice()) == expected, "{name}"),
        Err(fault) => assert!(rt; Err(fault) == expected, "{name}"),
    }
}

#[test]
fn a_store_holds_what_was_put_and_fails_where_it_is_told_to(rt: HostRuntime) -> Result<(), Fail> {
    for (files, failing, reads) in &STORES {
        let mut store = store_of(rt.alloc(), files, failing)?;
        for (name, expected) in *reads {
            assert_given(&rt, rt.alloc(), &mut store, name, *expected);
        }
    }
    Ok(())
}

/// A sink of so much room, whose write of a number fails if one is given.
pub(crate) fn sink_of(alloc: Global, room: usize, failing: Option<u64>) -> Result<MemSink, Fail> {
    let mut sink = MemSink::new(alloc, room)?;
    if let Some(number) = failing {
        sink.fail_at(number)?;
    }
    Ok(sink)
}

/// What is written into a sink for seven bytes whose second write fails, whether it is taken, and what the sink has then.
static WRITES: [(&[u8], bool, &[u8]); 4] = [
    (b"abc", true, b"abc"),
    (b"d", false, b"abc"),
    (b"defgh", false, b"abcdefg"),
    (b"", true, b"abcdefg"),
];

/// Whether bytes are taken by a sink or not, which has these then.
fn is_written(sink: &mut MemSink, bytes: &[u8], is_taken: bool, taken: &[u8]) -> bool {
    sink.write(bytes).is_ok() == is_taken && sink.bytes() == taken
}

#[test]
fn a_sink_takes_what_fits(rt: HostRuntime) -> Result<(), Fail> {
    let mut sink = sink_of(rt.alloc(), 7, Some(2))?;
    for (bytes, is_taken, taken) in &WRITES {
        assert!(rt; is_written(&mut sink, bytes, *is_taken, taken), "{bytes:?}");
    }
    Ok(())
}

/// The path of a file that isn't there yet.
fn new_path(rt: &HostRuntime) -> Result<String, Fail> {
    let folder = env::temp_dir(rt)?;
    let number = process::id(rt.process());
    let path = format!(in rt.alloc(); "{}/typecheck-{number}", folder.display())?;
    Ok(path)
}

/// The bytes of a file that is put at a path, as they are read.
fn read_back(rt: &HostRuntime, path: &str) -> Result<Vec<u8>, Fail> {
    fs::write(rt, path, "<a/>\n")?;
    let read = RealStore::new(rt).read(rt.alloc(), path);
    fs::remove_file(rt, path)?;
    Ok(read?)
}

#[test]
fn a_file_is_read(rt: HostRuntime) -> Result<(), Fail> {
    let path = new_path(&rt)?;
    let mut store = RealStore::new(&rt);
    let before = store.read(rt.alloc(), path.as_str()).err();
    assert!(rt; before == Some(StoreFault::Missing));
    let bytes = read_back(&rt, path.as_str())?;
    assert!(rt; bytes.as_slice() == b"<a/>\n".as_slice());
    assert!(rt; store.read(rt.alloc(), "/").err() == Some(StoreFault::Failed));
    Ok(())
}

/// Writes one byte at a time, after one interruption, and fails at the end.
#[derive(Drop)]
struct Slow {
    calls: usize,
    end: usize,
    taken: [u8; 4],
}

impl Slow {
    fn new(end: usize) -> Slow {
        Slow {
            calls: 0,
            end,
            taken: [0; 4],
        }
    }

    /// The number of the byte that is next.
    fn next(&mut self) -> io::Result<usize> {
        self.calls = self.calls.saturating_add(1);
        if self.calls == 1 {
            return Err(Error::from(ErrorKind::Interrupted));
        }
        if self.calls - 2 < self.end {
            Ok(self.calls - 2)
        } else {
            Err(Error::from(ErrorKind::BrokenPipe))
        }
    }
}

impl Write for Slow {
    fn write(&mut self, buf: &[u8]) -> io::Result<usize> {
        let at = self.next()?;
        if at < 4 && !buf.is_empty() {
            self.taken[at] = buf[0];
            Ok(1)
        } else {
            Ok(0)
        }
    }

    fn flush(&mut self) -> io::Result<()> {
        Ok(())
    }
}

/// Asserts that a list takes pieces that are written to it.
fn assert_listed(rt: &impl Abort, alloc: Global) {
    let mut bytes = Vec::new(alloc);
    let mut sink = RealSink::new(&mut bytes);
    assert!(rt; sink.write(b"safe").is_ok());
    assert!(rt; sink.write(b"\n").is_ok());
    assert!(rt; bytes.as_slice() == b"safe\n".as_slice());
}

/// What the end, the piece and the outcome are, and which bytes are taken.
static PIECES: [(usize, &str, bool, &[u8]); 3] = [
    (9, "abc", true, b"abc\0"),
    (9, "abcde", false, b"abcd"),
    (2, "abc", false, b"ab\0\0"),
];

#[test]
fn a_piece_is_written_whole(rt: HostRuntime) {
    assert_listed(&rt, rt.alloc());
    for (end, piece, whole, taken) in &PIECES {
        let mut slow = Slow::new(*end);
        let mut sink = RealSink::new(&mut slow);
        assert!(rt; sink.write(piece.as_bytes()).is_ok() == *whole, "{piece}");
        assert!(rt; slow.taken.as_slice() == *taken, "{piece}");
    }
}
