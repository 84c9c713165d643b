// Documents at the limits.

use crate::answers::{Answer, assert_answer, nested, repeated};
use crate::schemas::{EMPTY, NAMED};
use std::alloc::Global;
use std::process::Abort;
use std::test::Fail;
use tc_base::{Place, Why};
use tc_stream::StreamFault;

const LONG: Answer = Answer::Fault(StreamFault::TagTooLong);

const MANY: Answer = Answer::Fault(StreamFault::NamesTooLong);

/// What a document begins with, what it repeats, how often, and what it ends with, and what it is for
/// `element a { empty }`.
type Row<'t> = (&'t str, &'t str, u32, &'t str, Answer);

/// Asserts what documents are in pieces of each of these sizes.
fn assert_rows(
    rt: &impl Abort,
    alloc: Global,
    rows: &[Row<'_>],
    sizes: &[usize],
) -> Result<(), Fail> {
    for (front, middle, times, back, answer) in rows {
        let text = repeated(alloc, front, middle, *times, back)?;
        assert_answer(rt, alloc, &EMPTY, text.as_bytes(), sizes, *answer)?;
    }
    Ok(())
}

static TAGS: [Row<'static>; 24] = [
    ("<a", " ", 65_532, "/>", Answer::Valid),
    ("<a", " ", 65_533, "/>", LONG),
    ("<a", " ", 65_535, "/>", LONG),
    ("<a></a", " ", 65_532, ">", Answer::Valid),
    ("<a></a", " ", 65_533, ">", LONG),
    ("<a", " ", 65_533, "></a>", Answer::Valid),
    ("<a", " ", 65_534, "></a>", LONG),
    ("<a b='", " ", 70_000, "'/>", LONG),
    ("<a b='>", " ", 70_000, "'/>", LONG),
    ("<a b", " ", 70_000, "=''/>", LONG),
    ("<a b=", " ", 70_000, "''/>", LONG),
    ("<a b='' b='' xmlns:p='' ", " ", 70_000, "/>", LONG),
    ("<a b=\"", "x", 70_000, "\">", LONG),
    ("<a b=\"", "\u{1F600}", 70_000, "\">", LONG),
    ("<", "a", 70_000, "/>", LONG),
    ("<a:", "a", 70_000, "/>", LONG),
    ("<a b='&", "a", 70_000, ";'/>", LONG),
    ("<a b='&#", "0", 70_000, ";'/>", LONG),
    // whatever else is wrong in it
    ("<a b=<", " ", 70_000, "", LONG),
    ("<a xml:space=''", " ", 70_000, "/>", LONG),
    ("<a b='&x;' c='", " ", 70_000, "'/>", LONG),
    ("<a></b", " ", 70_000, ">", LONG),
    ("<a></", "a", 70_000, ">", LONG),
    ("<a b='&#1", "1", 70_000, ";'/>", LONG),
];

#[test]
fn tags_have_a_longest(rt: HostRuntime) -> Result<(), Fail> {
    assert_rows(&rt, rt.alloc(), &TAGS, &[3, 4096, 1_000_000])
}

/// Tags that end where they may, and what begins none.
static SHORT_TAGS: [Row<'static>; 9] = [
    (
        "<a b=<",
        " ",
        65_529,
        ">",
        Answer::Fault(StreamFault::Malformed(Place(5))),
    ),
    ("<a b=<", " ", 65_530, ">", LONG),
    (
        "<a xml:space=''",
        " ",
        65_519,
        "/>",
        Answer::Fault(StreamFault::Unsupported(Place(3), Why::XmlSpace)),
    ),
    ("<a xml:space=''", " ", 65_520, "/>", LONG),
    (
        "<a></b",
        " ",
        65_532,
        ">",
        Answer::Fault(StreamFault::Malformed(Place(3))),
    ),
    ("<a></b", " ", 65_533, ">", LONG),
    // no quotes stand in an end tag
    (
        "<a></a'>",
        " ",
        70_000,
        "",
        Answer::Fault(StreamFault::Malformed(Place(3))),
    ),
    (
        "<1",
        "a",
        70_000,
        "/>",
        Answer::Fault(StreamFault::Malformed(Place(1))),
    ),
    (
        "</",
        "a",
        70_000,
        ">",
        Answer::Fault(StreamFault::Malformed(Place(1))),
    ),
];

#[test]
fn tags_that_end_are_read(rt: HostRuntime) -> Result<(), Fail> {
    assert_rows(&rt, rt.alloc(), &SHORT_TAGS, &[3, 4096, 1_000_000])
}

const DEEP: Answer = Answer::Fault(StreamFault::TooDeep(Place(6000)));

/// What stands inside 2,000 elements, and what the document is: a name decides where they stand too deep, however long
/// it is.
static DEEP_TAGS: [Row<'static>; 10] = [
    ("<", "n", 70_000, "", DEEP),
    ("<", "n", 70_000, "/>", DEEP),
    ("<n:", "n", 70_000, "/>", DEEP),
    ("<n:n:n b=<", " ", 70_000, "/>", DEEP),
    (
        "<",
        "n",
        70_000,
        ":/>",
        Answer::Fault(StreamFault::Malformed(Place(6000))),
    ),
    (
        "<",
        "n",
        70_000,
        ":",
        Answer::Fault(StreamFault::Malformed(Place(6000))),
    ),
    (
        "<",
        "n",
        70_000,
        ":1/>",
        Answer::Fault(StreamFault::Malformed(Place(6000))),
    ),
    (
        "<1",
        "n",
        70_000,
        "/>",
        Answer::Fault(StreamFault::Malformed(Place(6000))),
    ),
    ("</a", " ", 70_000, ">", LONG),
    (
        "<!--",
        "x",
        70_000,
        "--><n/>",
        Answer::Fault(StreamFault::TooDeep(Place(76_007))),
    ),
];

#[test]
fn a_name_tells_what_stands_too_deep(rt: HostRuntime) -> Result<(), Fail> {
    let outer = repeated(rt.alloc(), "", "<a>", 2_000, "")?;
    for (front, middle, times, back, answer) in &DEEP_TAGS {
        let begun = repeated(rt.alloc(), outer.as_str(), front, 1, "")?;
        let text = repeated(rt.alloc(), begun.as_str(), middle, *times, back)?;
        assert_answer(
            &rt,
            rt.alloc(),
            &EMPTY,
            text.as_bytes(),
            &[3, 4096, 1_000_000],
            *answer,
        )?;
    }
    Ok(())
}

static NO_TAGS: [Row<'static>; 15] = [
    ("<a>", " ", 70_000, "</a>", Answer::Valid),
    ("<a>", "x", 70_000, "</a>", Answer::Invalid),
    ("<a><!--", "x- ", 70_000, "--></a>", Answer::Valid),
    ("<a><?p ", "?", 70_000, "></a>", Answer::Valid),
    ("<a><?", "p", 70_000, "?></a>", Answer::Valid),
    ("<a><![CDATA[", " ", 70_000, "]]></a>", Answer::Valid),
    ("<a><![CDATA[", "]", 70_000, "]]></a>", Answer::Invalid),
    ("<a>&#", "0", 70_000, "32;</a>", Answer::Valid),
    (
        "<a>&",
        "a",
        70_000,
        ";</a>",
        Answer::Fault(StreamFault::Unsupported(Place(3), Why::EntityReference)),
    ),
    ("<!DOCTYPE ", "a", 70_000, "><a/>", Answer::Valid),
    (
        "<!DOCTYPE a SYSTEM '",
        "\u{1F600}",
        70_000,
        "'><a/>",
        Answer::Valid,
    ),
    ("<?xml ", " ", 70_000, "version='1.0'?><a/>", Answer::Valid),
    (
        "<?xml version='",
        "1",
        70_000,
        "'?><a/>",
        Answer::Fault(StreamFault::Unsupported(Place(6), Why::XmlVersion)),
    ),
    ("<a/>", " ", 70_000, "", Answer::Valid),
    ("<a/><?p ", " ", 70_000, "?>", Answer::Valid),
];

#[test]
fn what_is_no_tag_has_no_longest(rt: HostRuntime) -> Result<(), Fail> {
    assert_rows(&rt, rt.alloc(), &NO_TAGS, &[1, 3, 4096, 1_000_000])
}

/// Asserts what so many nested elements with names of 700 letters are around a text, in pieces of 4,096 bytes.
fn assert_around(
    rt: &impl Abort,
    alloc: Global,
    depth: u32,
    inside: &str,
    answer: Answer,
) -> Result<(), Fail> {
    let text = around(alloc, depth, inside)?;
    assert_answer(rt, alloc, &NAMED, text.as_bytes(), &[4096], answer)
}

/// A text inside so many nested elements with names of 700 letters.
fn around(alloc: Global, depth: u32, inside: &str) -> Result<String, Fail> {
    let begin = repeated(alloc, "<", "n", 700, ">")?;
    let end = repeated(alloc, "</", "n", 700, ">")?;
    nested(alloc, begin.as_str(), inside, end.as_str(), depth)
}

/// How deep they are nested, and what that is.
static NESTED_NAMES: [(u32, Answer); 2] = [(93, Answer::Valid), (94, MANY)];

#[test]
fn names_have_a_most(rt: HostRuntime) -> Result<(), Fail> {
    for (depth, answer) in &NESTED_NAMES {
        assert_around(&rt, rt.alloc(), *depth, "", *answer)?;
    }
    Ok(())
}

/// What stands inside 93 elements with names of 700 letters, which leaves 436 bytes, and how often its last letter stands.
static DECLARED: [(&str, u32, &str, Answer); 5] = [
    ("<b xmlns='", 0, "'/>", Answer::Valid),
    ("<p:b xmlns:p='&amp;", 0, "'/>", Answer::Valid),
    // the name of `b` has a byte, and the prefix of the declaration one
    ("<b xmlns:p='&#x0041;", 433, "'/>", Answer::Valid),
    ("<b xmlns:p='&#x0041;", 434, "'/>", MANY),
    // what is no declaration counts nothing
    ("<b c='", 500, "'/>", Answer::Valid),
];

#[test]
fn declarations_count_among_names(rt: HostRuntime) -> Result<(), Fail> {
    for (front, times, back, answer) in &DECLARED {
        let inside = repeated(rt.alloc(), front, "u", *times, back)?;
        assert_around(&rt, rt.alloc(), 93, inside.as_str(), *answer)?;
    }
    Ok(())
}

#[test]
fn what_was_closed_counts_no_more(rt: HostRuntime) -> Result<(), Fail> {
    let text = repeated(
        rt.alloc(),
        "<r>",
        "<a xmlns:p='uuuuuuuuuuuuuuuuuuuu' b='uuuu'/>",
        9000,
        "</r>",
    )?;
    assert_answer(
        &rt,
        rt.alloc(),
        &NAMED,
        text.as_bytes(),
        &[4096],
        Answer::Invalid,
    )
}
