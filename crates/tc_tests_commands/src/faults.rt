// Tests of operands that are no texts or too long, and of reads and writes that fail.
use crate::certificates::CHANGES;
use crate::commands::{status_into, status_of, store_of};
use std::alloc::Global;
use std::process::Abort;
use std::test::Fail;
use tc_base::NoMemory;
use tc_io::{MemSink, MemStore};
use tc_top::{Status, WordList, typecheck};

/// Commands with X in the place of a schema, a stylesheet or a document.
static TEXTS: [&str; 24] = [
    "check X O S",
    "check I X S",
    "check I O X",
    "check --limit 9 X O S",
    "check --limit 9 I X S",
    "check --limit 9 I O X",
    "prove X O S",
    "prove I X S",
    "prove I O X",
    "verify X O S C",
    "verify I X S C",
    "verify I O X C",
    "run X D",
    "run S X",
    "valid X D",
    "valid I X",
    "valid --stream 7 X D",
    "valid --stream 7 I X",
    "include X O",
    "include I X",
    "same X O",
    "same I X",
    "dead X S",
    "dead I X",
];

/// Commands with X in the place of declarations of elements.
static DECLARATIONS: [&str; 13] = [
    "check dtd:a:X O S",
    "check I dtd:a:X S",
    "prove dtd:a:X O S",
    "prove I dtd:a:X S",
    "verify dtd:a:X O S C",
    "verify I dtd:a:X S C",
    "valid dtd:a:X D",
    "valid --stream 7 dtd:a:X D",
    "include dtd:a:X O",
    "include I dtd:a:X",
    "same dtd:a:X O",
    "same I dtd:a:X",
    "dead dtd:a:X S",
];

/// Commands with X in the place of a certificate.
static CERTIFICATES: [&str; 2] = ["verify I O S X", "upgrade X"];

/// The words of a line.
fn words_in(alloc: Global, line: &str) -> Result<WordList, NoMemory> {
    let mut words = WordList::new(alloc);
    for word in line.split_whitespace() {
        words.push(word)?;
    }
    Ok(words)
}

/// Whether the words of a line write this text of a store, with its status.
fn writes(alloc: Global, line: &str, store: &mut MemStore, text: &str) -> Result<bool, NoMemory> {
    let words = words_in(alloc, line)?;
    let mut sink = MemSink::new(alloc, 200)?;
    let status = typecheck(alloc, &words, store, &mut sink);
    Ok(status == status_of(text) && sink.bytes() == text.as_bytes())
}

/// Asserts that each of these lines writes this text of a store.
fn assert_writes(rt: &impl Abort, alloc: Global, lines: &[&str], store: &mut MemStore, text: &str) {
    for line in lines {
        assert!(rt; writes(alloc, line, store, text).unwrap_or(false), "{line}");
    }
}

const EMPTY: &[u8] = b"element a{empty}";

const RESULT: &[u8] = b"element r{empty}";

/// A stylesheet that puts an `x` in an `r` out.
const SHEET: &[u8] =
    b"<xsl:stylesheet version=\"1.0\" xmlns:xsl=\"http://www.w3.org/1999/XSL/Transform\">\
    <xsl:template match=\"/\"><r><x/></r></xsl:template></xsl:stylesheet>";

/// Files of which `check` says no.
const UNSAFE: &[(&str, &[u8])] = &[("I", EMPTY), ("O", RESULT), ("S", SHEET), ("D", b"<a/>")];

#[test]
fn a_byte_that_is_no_text_is_told_in_each_place(rt: HostRuntime) -> Result<(), Fail> {
    let alloc = rt.alloc();
    let mut store = store_of(alloc, UNSAFE)?;
    store.put("C", b"of no form")?;
    store.put("X", b"\xFF")?;
    assert_writes(&rt, alloc, &TEXTS, &mut store, "refused X malformed at 0\n");
    assert_writes(
        &rt,
        alloc,
        &DECLARATIONS,
        &mut store,
        "refused dtd:a:X malformed at 0\n",
    );
    assert_writes(&rt, alloc, &CERTIFICATES, &mut store, "rejected 1 form\n");
    Ok(())
}

/// Files of no form.
const OTHERS: &[(&str, &[u8])] = &[
    ("I", b"of no form"),
    ("O", b"of no form"),
    ("S", b"of no form"),
    ("D", b"of no form"),
    ("C", b"of no form"),
];

/// A store with these files, in which X has one byte too many.
fn store_with_long(alloc: Global) -> Result<MemStore, NoMemory> {
    let mut store = store_of(alloc, OTHERS)?;
    let long = vec![in alloc; b' '; 67_108_865]?;
    store.put("X", &long)?;
    Ok(store)
}

const TOO_LONG: &str = "limit file 67108864\n";

#[test]
fn a_file_that_is_too_long_is_told_in_each_place(rt: HostRuntime) -> Result<(), Fail> {
    let mut store = store_with_long(rt.alloc())?;
    assert_writes(&rt, rt.alloc(), &TEXTS, &mut store, TOO_LONG);
    assert_writes(&rt, rt.alloc(), &DECLARATIONS, &mut store, TOO_LONG);
    assert_writes(&rt, rt.alloc(), &CERTIFICATES, &mut store, TOO_LONG);
    Ok(())
}

/// A stylesheet that puts an `x` for each `b` below an `a` into an `r`.
const PARTS: &[u8] =
    b"<xsl:stylesheet version=\"1.0\" xmlns:xsl=\"http://www.w3.org/1999/XSL/Transform\">\
    <xsl:template match=\"/\"><r><xsl:apply-templates select=\"a/b\"/></r></xsl:template>\
    <xsl:template match=\"b\"><x/></xsl:template></xsl:stylesheet>";

/// Files of which `check` says yes.
const SAFE: &[(&str, &[u8])] = &[
    ("I", b"element a{element b{empty}*}"),
    ("O", b"element r{element x{empty}*}"),
    ("S", PARTS),
];

/// Files of which all but one are missing.
const ALONE: &[(&str, &[u8])] = &[("I", b"of no form")];

/// Words, files, the number of the read from which on all fail, and what is written: operands are read before any text is
/// looked at, and the first that can't be read is told.
static UNREAD: [(&str, &[(&str, &[u8])], u64, &str); 12] = [
    ("check I O S", ALONE, 9, "cannot read O\n"),
    ("check I O S", OTHERS, 2, "cannot read O\n"),
    ("check I O S", UNSAFE, 1, "cannot read I\n"),
    ("check I O S", UNSAFE, 2, "cannot read O\n"),
    ("check I O S", UNSAFE, 3, "cannot read S\n"),
    ("prove I O S", SAFE, 1, "cannot read I\n"),
    ("prove I O S", SAFE, 2, "cannot read O\n"),
    ("prove I O S", SAFE, 3, "cannot read S\n"),
    ("run S D", UNSAFE, 1, "cannot read S\n"),
    ("run S D", UNSAFE, 2, "cannot read D\n"),
    ("valid I D", UNSAFE, 1, "cannot read I\n"),
    ("valid I D", UNSAFE, 2, "cannot read D\n"),
];

/// A store with these files whose reads fail from this number on.
fn failing_store(alloc: Global, files: &[(&str, &[u8])], first: u64) -> Result<MemStore, NoMemory> {
    let mut store = store_of(alloc, files)?;
    for number in first..9 {
        store.fail_at(number)?;
    }
    Ok(store)
}

/// Whether the words of a line write this text of these files, whose reads fail from this number on.
fn tells_unread(
    alloc: Global,
    line: &str,
    files: &[(&str, &[u8])],
    first: u64,
    text: &str,
) -> Result<bool, NoMemory> {
    let mut store = failing_store(alloc, files, first)?;
    writes(alloc, line, &mut store, text)
}

#[test]
fn stops_at_the_first_operand_that_cannot_be_read(rt: HostRuntime) {
    for (line, files, first, text) in &UNREAD {
        assert!(rt;
            tells_unread(rt.alloc(), line, files, *first, text).unwrap_or(false),
            "{line} {text}"
        );
    }
}

/// Whether these words break off at their write of this number, which fails, and wrote this before.
fn breaks_off(
    alloc: Global,
    words: &[&str],
    store: &mut MemStore,
    number: u64,
    front: &str,
) -> Result<bool, NoMemory> {
    let mut sink = MemSink::new(alloc, 500)?;
    sink.fail_at(number)?;
    let status = status_into(alloc, words, store, &mut sink)?;
    Ok(status == Status::WriteFault && sink.bytes() == front.as_bytes())
}

/// Whether they do so at the write of each line of what they write.
fn breaks_off_at_each_line(
    alloc: Global,
    words: &[&str],
    store: &mut MemStore,
    text: &str,
) -> Result<bool, NoMemory> {
    let mut front = String::new(alloc);
    let mut number = 0u64;
    for line in text.lines() {
        number = number.saturating_add(1);
        if !breaks_off(alloc, words, store, number, front.as_str())? {
            return Ok(false);
        }
        front.push_str(line)?;
        front.push_str("\n")?;
    }
    Ok(true)
}

/// Whether `check`, of an unsafe stylesheet, does so.
fn breaks_off_unsafe(alloc: Global) -> Result<bool, NoMemory> {
    let mut store = store_of(alloc, UNSAFE)?;
    let text = "unsafe\ndocument <a/>\noutput <r><x/></r>\n";
    breaks_off_at_each_line(alloc, &["check", "I", "O", "S"], &mut store, text)
}

/// Whether `prove`, of a safe one, does so.
fn breaks_off_safe(alloc: Global) -> Result<bool, NoMemory> {
    let mut store = store_of(alloc, SAFE)?;
    breaks_off_at_each_line(alloc, &["prove", "I", "O", "S"], &mut store, CHANGES)
}

#[test]
fn breaks_off_where_a_write_fails(rt: HostRuntime) {
    assert!(rt; breaks_off_unsafe(rt.alloc()).unwrap_or(false));
    assert!(rt; breaks_off_safe(rt.alloc()).unwrap_or(false));
}
