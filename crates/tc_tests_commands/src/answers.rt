// How commands end: their statuses, lines and faults.
use crate::commands::{assert_usage, status_into, store_answers, store_of};
use std::alloc::Global;
use std::test::Fail;
use tc_base::NoMemory;
use tc_io::{MemStore, Sink, WriteFault};
use tc_top::Status;

const CHECK: &[&str] = &["check", "I", "O", "S"];

const EMPTY: &[u8] = b"element a{empty}";

const RESULT: &[u8] = b"element r{empty}";

/// A stylesheet that puts an `r` out.
const SHEET: &[u8] =
    b"<xsl:stylesheet version=\"1.0\" xmlns:xsl=\"http://www.w3.org/1999/XSL/Transform\">\
    <xsl:template match=\"/\"><r/></xsl:template></xsl:stylesheet>";

const LATIN: &[u8] = b"<?xml version=\"1.0\" encoding=\"ISO-8859-1\"?><a>caf\xE9 \xE0 la carte</a>";

const JAPANESE: &[u8] = b"<?xml version=\"1.0\" encoding=\"ISO-2022-JP\"?><a>\x1B$B$\"$$\x1B(B</a>";

const ENCODING: &str = "refused D unsupported encoding at 20\n";

const ENTITY: &str = "refused D unsupported entity at 3\n";

/// Words, documents with bytes that are no text behind the place where they are refused, and what is written: an encoding is
/// refused where its word stands, and nothing behind a refusal is looked at.
static BROKEN: [(&[&str], &[u8], &str); 8] = [
    (&["run", "S", "D"], LATIN, ENCODING),
    (&["valid", "I", "D"], LATIN, ENCODING),
    (&["run", "S", "D"], JAPANESE, ENCODING),
    (&["valid", "I", "D"], JAPANESE, ENCODING),
    (&["run", "S", "D"], b"<a>&nbsp;</a>\xFF", ENTITY),
    (&["valid", "I", "D"], b"<a>&nbsp;</a>\xFF", ENTITY),
    (&["run", "S", "D"], b"<a>&nbsp;\xFF</a>", ENTITY),
    (&["valid", "I", "D"], b"<a>&nbsp;\xFF</a>", ENTITY),
];

/// Whether these words refuse a document by this line.
fn refuses(alloc: Global, words: &[&str], document: &[u8], line: &str) -> Result<bool, NoMemory> {
    let mut store = store_of(alloc, &[("I", b"element a{text}"), ("S", SHEET)])?;
    store.put("D", document)?;
    store_answers(alloc, words, &mut store, Status::Refused, line)
}

#[test]
fn what_stands_behind_a_refusal_is_not_looked_at(rt: HostRuntime) {
    for (words, document, line) in &BROKEN {
        assert!(rt;
            refuses(rt.alloc(), words, document, line).unwrap_or(false),
            "{words:?} {line}"
        );
    }
}

/// Words that are no command.
static WRONG: [&[&str]; 18] = [
    &[],
    &["check", "I", "O"],
    &["check", "I", "O", "S", "C"],
    &["check", "I", "-O", "S"],
    &["check", "I", "", "S"],
    &["check", "--limit", "0", "I", "O", "S"],
    &["check", "--limit", "4001", "I", "O", "S"],
    &["check", "--limit", "07", "I", "O", "S"],
    &["check", "I", "O", "S", "--limit", "7"],
    &["verify", "--limit", "7", "I", "O", "S", "C"],
    &["valid", "--stream", "I", "D"],
    &["valid", "--stream", "0", "I", "D"],
    &["valid", "--stream", "01", "I", "D"],
    &["valid", "--stream", "65537", "I", "D"],
    &["valid", "I", "D", "--stream", "7"],
    &["demo", "41"],
    &["--help"],
    &["upgrade", "I", "O", "S", "T"],
];

#[test]
fn tells_the_usage(rt: HostRuntime) -> Result<(), Fail> {
    assert_usage(&rt, rt.alloc(), &[], &WRONG)
}

/// Counts the pieces that it is given, and those that reach past a line feed.
#[derive(Drop)]
struct Pieces {
    count: u64,
    past: u64,
}

impl Sink for Pieces {
    ghost use Rattle.std.specs.Prelude.{None};

    ghost written = { λ _. None };

    ghost faults = { λ _. 0 };

    ghost write_gives = { λ _ _ _ _. Unit {0} };

    fn write(&mut self, piece: &[u8]) -> Result<(), WriteFault> {
        self.count = self.count.saturating_add(1);
        if let [front @ .., _] = piece
            && front.contains(&b'\n')
        {
            self.past = self.past.saturating_add(1);
        }
        Ok(())
    }
}

/// A stylesheet that puts two `r` out.
const TWO: &[u8] =
    b"<xsl:stylesheet version=\"1.0\" xmlns:xsl=\"http://www.w3.org/1999/XSL/Transform\">\
    <xsl:template match=\"/\"><r/><r/></xsl:template></xsl:stylesheet>";

/// Words, their status on a store with that stylesheet, and how many lines they write, where that is asked.
static LINES: [(&[&str], Status, Option<u64>); 2] = [
    (CHECK, Status::No, Some(3)),
    (&["check", "no\nfile", "O", "S"], Status::ReadFault, None),
];

/// Whether these words have this status on a store, and write so many lines, each by itself.
fn writes_lines(
    alloc: Global,
    words: &[&str],
    store: &mut MemStore,
    status: Status,
    lines: Option<u64>,
) -> Result<bool, NoMemory> {
    let mut sink = Pieces { count: 0, past: 0 };
    let answered = status_into(alloc, words, store, &mut sink)?;
    let as_many = lines.unwrap_or(sink.count) == sink.count;
    Ok(answered == status && as_many && sink.past == 0)
}

/// Whether they do so on a store with that stylesheet.
fn writes_lines_of_two(
    alloc: Global,
    words: &[&str],
    status: Status,
    lines: Option<u64>,
) -> Result<bool, NoMemory> {
    let mut store = store_of(alloc, &[("I", EMPTY), ("O", RESULT), ("S", TWO)])?;
    writes_lines(alloc, words, &mut store, status, lines)
}

#[test]
fn writes_each_line_by_itself(rt: HostRuntime) {
    for (words, status, lines) in &LINES {
        assert!(rt;
            writes_lines_of_two(rt.alloc(), words, *status, *lines).unwrap_or(false),
            "{words:?}"
        );
    }
}

/// Statuses by their numbers.
static NUMBERS: [(u8, Status); 8] = [
    (0, Status::Yes),
    (1, Status::No),
    (2, Status::Usage),
    (3, Status::Refused),
    (4, Status::Limit),
    (5, Status::ReadFault),
    (6, Status::WriteFault),
    (7, Status::NoMemory),
];

#[test]
fn numbers_each_status(rt: HostRuntime) {
    for (number, status) in &NUMBERS {
        assert!(rt; status.number() == *number, "{number}");
    }
}
