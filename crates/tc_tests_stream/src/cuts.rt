// Documents that are cut anywhere.

use crate::answers::{Answer, assert_answer, in_pieces, nested, whole};
use crate::schemas::{ANYTHING, BOTH, NESTED};
use crate::texts::texts;
use std::alloc::Global;
use std::process::Abort;
use std::test::Fail;
use tc_base::{Place, Why};
use tc_stream::StreamFault;

/// The sizes of pieces.
static SIZES: [usize; 6] = [1, 2, 3, 5, 7, 4096];

/// Asserts that a text has the answer of the whole one in pieces of each of these sizes, for a schema of `a` with anything
/// in it.
fn assert_whole(rt: &impl Abort, alloc: Global, text: &[u8], sizes: &[usize]) -> Result<(), Fail> {
    let answer = whole(alloc, text)?;
    assert_answer(rt, alloc, &ANYTHING, text, sizes, answer)
}

#[test]
fn answers_are_those_of_whole_texts(rt: HostRuntime) -> Result<(), Fail> {
    for text in texts() {
        assert_whole(&rt, rt.alloc(), text.as_bytes(), &SIZES)?;
    }
    Ok(())
}

/// Bytes that are no characters, or that begin one.
static BROKEN: [&[u8]; 7] = [
    b"\xFF",
    b"\xE9</a>",
    b"\xEF\xBF\xBE",
    b"\xF4\x90",
    b"\xC3",
    b"\xF0\x9F\x98",
    b"\x01",
];

/// Texts with such bytes within them.
static MIXED: [&[u8]; 4] = [
    b"<a>\xFF&nbsp;</a>",
    b"<a>\x01&nbsp;</a>",
    b"<a>\xEF\xBF\xBE<b xml:space=''/></a>",
    b"<?xml version='1.0' encoding='x\xFF'?><a/>",
];

/// Asserts it of a text with each of these behind it.
fn assert_broken(rt: &impl Abort, alloc: Global, front: &str) -> Result<(), Fail> {
    let mut text = Vec::new(alloc);
    for bytes in &BROKEN {
        text.clear();
        text.extend_from_slice(front.as_bytes())?;
        text.extend_from_slice(bytes)?;
        assert_whole(rt, alloc, &text, &[1, 3, 4096])?;
    }
    Ok(())
}

#[test]
fn bytes_that_are_no_characters(rt: HostRuntime) -> Result<(), Fail> {
    for front in texts() {
        assert_broken(&rt, rt.alloc(), front)?;
    }
    for text in &MIXED {
        assert_whole(&rt, rt.alloc(), text, &[1, 3, 4096])?;
    }
    Ok(())
}

/// Whether two answers are one, but for the place of a malformed text: of a tag that doesn't end the whole text tells what
/// is wrong with its names, and one in pieces with its form alone.
fn are_alike(found: Answer, answer: Answer) -> bool {
    match (found, answer) {
        (Answer::Fault(StreamFault::Malformed(_)), Answer::Fault(StreamFault::Malformed(_))) => {
            true
        }
        _ => found == answer,
    }
}

/// Asserts of each front of a text that it has one answer, however it is cut, and that of the whole front but for a place.
fn assert_fronts(rt: &impl Abort, alloc: Global, text: &[u8]) -> Result<(), Fail> {
    for end in 0..text.len() {
        let front = &text[..end];
        let found = in_pieces(alloc, &ANYTHING, front, 4096)?;
        assert!(rt; are_alike(found, whole(alloc, front)?), "{front:?}");
        assert_answer(rt, alloc, &ANYTHING, front, &[1], found)?;
    }
    Ok(())
}

#[test]
fn fronts_of_texts(rt: HostRuntime) -> Result<(), Fail> {
    for text in texts() {
        assert_fronts(&rt, rt.alloc(), text.as_bytes())?;
    }
    Ok(())
}

/// A document, and whether it is valid for `element a { element b { empty } & element c { empty } }`, and for
/// `start = e` with `e = element a { e? }`.
type Row<'t> = (&'t str, Answer, Answer);

static ROWS: [Row<'static>; 13] = [
    ("<a><a><a/></a></a>", Answer::Invalid, Answer::Valid),
    ("<a><b/><c><b/></c></a>", Answer::Invalid, Answer::Invalid),
    ("<a><b/></a>", Answer::Invalid, Answer::Invalid),
    ("<a><b/><c/></a>", Answer::Valid, Answer::Invalid),
    ("<a><c/><b/></a>", Answer::Valid, Answer::Invalid),
    (
        "<p:a xmlns:p=\"u\" k=\"1\">x &lt; y<b/></p:a>",
        Answer::Invalid,
        Answer::Invalid,
    ),
    ("<a><b/><c/><b/></a>", Answer::Invalid, Answer::Invalid),
    ("<a><b/>x<c/></a>", Answer::Invalid, Answer::Invalid),
    ("<b/>", Answer::Invalid, Answer::Invalid),
    (
        "<a> <b/>&#32;<c></c><![CDATA[ ]]></a>",
        Answer::Valid,
        Answer::Invalid,
    ),
    (
        "<a><b><!--x--></b><c> </c></a>",
        Answer::Valid,
        Answer::Invalid,
    ),
    ("<a> <a k='1'>\n</a></a>", Answer::Invalid, Answer::Valid),
    (
        "<a>&nbsp;</a>",
        Answer::Fault(StreamFault::Unsupported(Place(3), Why::EntityReference)),
        Answer::Fault(StreamFault::Unsupported(Place(3), Why::EntityReference)),
    ),
];

/// Asserts what a document is for both schemas.
fn assert_row(
    rt: &impl Abort,
    alloc: Global,
    text: &[u8],
    both: Answer,
    one: Answer,
) -> Result<(), Fail> {
    assert_answer(rt, alloc, &BOTH, text, &SIZES, both)?;
    assert_answer(rt, alloc, &NESTED, text, &SIZES, one)
}

#[test]
fn documents_of_the_table(rt: HostRuntime) -> Result<(), Fail> {
    for (text, both, one) in &ROWS {
        assert_row(&rt, rt.alloc(), text.as_bytes(), *both, *one)?;
    }
    Ok(())
}

/// How deep elements are nested, and whether that is valid for `start = e` with `e = element a { e? }`.
static DEPTHS: [(u32, Answer, Answer); 2] = [
    (2_000, Answer::Invalid, Answer::Valid),
    (
        2_001,
        Answer::Fault(StreamFault::TooDeep(Place(6000))),
        Answer::Fault(StreamFault::TooDeep(Place(6000))),
    ),
];

#[test]
fn elements_nest_two_thousand_deep(rt: HostRuntime) -> Result<(), Fail> {
    for (depth, both, one) in &DEPTHS {
        let text = nested(rt.alloc(), "<a>", "", "</a>", *depth)?;
        assert_row(&rt, rt.alloc(), text.as_bytes(), *both, *one)?;
    }
    Ok(())
}
