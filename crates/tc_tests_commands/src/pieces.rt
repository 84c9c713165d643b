// Tests of `valid --stream`.
use crate::commands::Part::{Once, Times};
use crate::commands::{Text, command_answers, status_of, text_of};
use std::alloc::Global;
use std::process::Abort;
use std::test::Fail;
use tc_base::NoMemory;

const BOTH: &str = "element a{element b{empty}&element c{empty}}";

const EMPTY: &str = "element a{empty}";

const NESTED: &str = "start = e e = element a{e?}";

const NAMED: &str = "start = e e = element *{e?}";

/// Whether these words, of a schema as `O` and of a document as `D`, write this line, with its status.
fn writes(
    alloc: Global,
    words: &[&str],
    schema: &str,
    document: &[u8],
    line: &str,
) -> Result<bool, NoMemory> {
    let files = [("O", schema.as_bytes()), ("D", document)];
    command_answers(alloc, words, &files, status_of(line), line)
}

/// Whether `valid --stream N O D` writes this line, or of no size `valid O D`.
fn answers(
    alloc: Global,
    size: &str,
    schema: &str,
    document: &[u8],
    line: &str,
) -> Result<bool, NoMemory> {
    if size.is_empty() {
        return writes(alloc, &["valid", "O", "D"], schema, document, line);
    }
    let words = ["valid", "--stream", size, "O", "D"];
    writes(alloc, &words, schema, document, line)
}

/// Whether the document is answered so in pieces of each of these sizes.
fn all_answer(
    alloc: Global,
    sizes: &[&str],
    schema: &str,
    document: &[u8],
    line: &str,
) -> Result<bool, NoMemory> {
    for size in sizes {
        if !answers(alloc, size, schema, document, line)? {
            return Ok(false);
        }
    }
    Ok(true)
}

/// The document as a whole.
pub(crate) const WHOLE: &[&str] = &[""];

/// In pieces of several sizes, and as a whole.
pub(crate) const ALL_SIZES: &[&str] = &["1", "2", "3", "5", "4096", ""];

/// Sizes of pieces, a schema, a document, and the line.
pub(crate) type Row<'t> = (&'t [&'t str], &'t str, &'t str, &'t str);

/// Asserts that each document is answered so.
pub(crate) fn assert_documents(
    rt: &impl Abort,
    alloc: Global,
    rows: &[Row<'_>],
) -> Result<(), Fail> {
    for (sizes, schema, document, line) in rows {
        assert!(rt;
            all_answer(alloc, sizes, schema, document.as_bytes(), line)?,
            "{schema} {document}"
        );
    }
    Ok(())
}

/// The schema is read before anything is said of the document.
static DOCUMENTS: [Row<'static>; 26] = [
    (&["1"], BOTH, "<a><c/><b/></a>", "valid\n"),
    (&["7"], BOTH, "<a><c/><b/></a>", "valid\n"),
    (&["1"], BOTH, "<a><b/></a>", "invalid\n"),
    (&["7"], BOTH, "<a><b/></a>", "invalid\n"),
    (
        &["1"],
        EMPTY,
        "<a>&nbsp;</a>",
        "refused D unsupported entity at 3\n",
    ),
    (
        &["65536"],
        EMPTY,
        "<a>&nbsp;</a>",
        "refused D unsupported entity at 3\n",
    ),
    (&["7"], EMPTY, "<a", "refused D malformed at 2\n"),
    (
        &["7"],
        "element a { b , c | d }",
        "<a",
        "refused O malformed at 18\n",
    ),
    (&["1"], "start = notAllowed", "<a/>", "invalid\n"),
    // documents in pieces are answered as whole ones
    (ALL_SIZES, NESTED, "<a><a><a/></a></a>", "valid\n"),
    (ALL_SIZES, BOTH, "<a><a><a/></a></a>", "invalid\n"),
    (ALL_SIZES, NESTED, "<a><b/><c><b/></c></a>", "invalid\n"),
    (ALL_SIZES, BOTH, "<a><b/><c><b/></c></a>", "invalid\n"),
    (ALL_SIZES, NESTED, "<a><b/></a>", "invalid\n"),
    (ALL_SIZES, BOTH, "<a><b/></a>", "invalid\n"),
    (ALL_SIZES, NESTED, "<a><b/><c/></a>", "invalid\n"),
    (ALL_SIZES, BOTH, "<a><b/><c/></a>", "valid\n"),
    (ALL_SIZES, NESTED, "<a><c/><b/></a>", "invalid\n"),
    (ALL_SIZES, BOTH, "<a><c/><b/></a>", "valid\n"),
    (
        ALL_SIZES,
        NESTED,
        "<p:a xmlns:p=\"u\" k=\"1\">x &lt; y<b/></p:a>",
        "invalid\n",
    ),
    (
        ALL_SIZES,
        BOTH,
        "<p:a xmlns:p=\"u\" k=\"1\">x &lt; y<b/></p:a>",
        "invalid\n",
    ),
    (
        ALL_SIZES,
        NESTED,
        "<a><b><c/></b><b><b/></b></a>",
        "invalid\n",
    ),
    (ALL_SIZES, BOTH, "<a>s<b><c>t</c></b><b/>u</a>", "invalid\n"),
    (
        ALL_SIZES,
        EMPTY,
        "<a>&nbsp;</a>",
        "refused D unsupported entity at 3\n",
    ),
    (ALL_SIZES, EMPTY, "<a><b></a>", "refused D malformed at 6\n"),
    (ALL_SIZES, "start = b", "<a", "refused O undefined at 8\n"),
];

#[test]
fn documents_in_pieces_are_answered_as_whole_ones(rt: HostRuntime) -> Result<(), Fail> {
    assert_documents(&rt, rt.alloc(), &DOCUMENTS)
}

/// Sizes of pieces, the parts of a schema and of a document, and the line.
pub(crate) type Made<'t> = (&'t [&'t str], Text<'t>, Text<'t>, &'t str);

/// Whether a document of parts is answered so.
fn made_answers(alloc: Global, made: &Made<'_>) -> Result<bool, Fail> {
    let (sizes, schema, document, line) = made;
    let schema = text_of(alloc, schema)?;
    let document = text_of(alloc, document)?;
    let all = all_answer(alloc, sizes, schema.as_str(), document.as_bytes(), line)?;
    Ok(all)
}

/// Asserts that each document of parts is answered so.
pub(crate) fn assert_made(rt: &impl Abort, alloc: Global, all: &[Made<'_>]) -> Result<(), Fail> {
    let mut number = 0u32;
    for made in all {
        let line = made.3;
        assert!(rt; made_answers(alloc, made)?, "{number} {line}");
        number = number.saturating_add(1);
    }
    Ok(())
}

/// Short pieces and long ones.
const NINE_AND_MORE: &[&str] = &["9", "65536"];

const OF_EMPTY: Text<'static> = &[Once(EMPTY)];

/// The limit on tags, by its number.
static TAGS: [Made<'static>; 9] = [
    (
        NINE_AND_MORE,
        OF_EMPTY,
        &[Once("<a"), Times(" ", 65_532), Once("/>")],
        "valid\n",
    ),
    (
        NINE_AND_MORE,
        OF_EMPTY,
        &[Once("<a"), Times(" ", 65_533), Once("/>")],
        "limit tag 65536\n",
    ),
    (
        NINE_AND_MORE,
        OF_EMPTY,
        &[Once("<a"), Times(" ", 65_535), Once("/>")],
        "limit tag 65536\n",
    ),
    (
        NINE_AND_MORE,
        OF_EMPTY,
        &[Once("<a></a"), Times(" ", 65_532), Once(">")],
        "valid\n",
    ),
    (
        NINE_AND_MORE,
        OF_EMPTY,
        &[Once("<a></a"), Times(" ", 65_533), Once(">")],
        "limit tag 65536\n",
    ),
    (
        NINE_AND_MORE,
        OF_EMPTY,
        &[Once("<a b=\""), Times("x", 70_000), Once("\">")],
        "limit tag 65536\n",
    ),
    (
        NINE_AND_MORE,
        OF_EMPTY,
        &[Once("<a b=<"), Times(" ", 70_000)],
        "limit tag 65536\n",
    ),
    (
        NINE_AND_MORE,
        OF_EMPTY,
        &[Once("<a><!--"), Times(" ", 70_000), Once("--></a>")],
        "valid\n",
    ),
    (
        NINE_AND_MORE,
        OF_EMPTY,
        &[Once("<a><b/>"), Times(" ", 70_000), Once("</a>")],
        "invalid\n",
    ),
];

/// How deep elements nest, whole and in pieces.
static DEEP: [Made<'static>; 5] = [
    (
        ALL_SIZES,
        &[Once(NESTED)],
        &[Times("<a>", 2_000), Times("</a>", 2_000)],
        "valid\n",
    ),
    (
        ALL_SIZES,
        &[Once(BOTH)],
        &[Times("<a>", 2_000), Times("</a>", 2_000)],
        "invalid\n",
    ),
    (
        ALL_SIZES,
        &[Once(NESTED)],
        &[Times("<a>", 2_001), Times("</a>", 2_001)],
        "refused D too-deep at 6000\n",
    ),
    (
        ALL_SIZES,
        &[Once(BOTH)],
        &[Times("<a>", 2_001), Times("</a>", 2_001)],
        "refused D too-deep at 6000\n",
    ),
    (
        NINE_AND_MORE,
        OF_EMPTY,
        &[Times("<a>", 2_000), Once("<"), Times("n", 70_000)],
        "refused D too-deep at 6000\n",
    ),
];

#[test]
fn tags_and_depth_in_pieces_are_limited(rt: HostRuntime) -> Result<(), Fail> {
    assert_made(&rt, rt.alloc(), &TAGS)?;
    assert_made(&rt, rt.alloc(), &DEEP)
}

/// A name of 700 letters.
fn long_name(alloc: Global) -> Result<String, Fail> {
    text_of(alloc, &[Times("n", 700)])
}

/// A document of so many nested elements with this name.
fn named(alloc: Global, depth: u32, name: &str) -> Result<String, Fail> {
    let front = text_of(alloc, &[Once("<"), Once(name), Once(">")])?;
    let back = text_of(alloc, &[Once("</"), Once(name), Once(">")])?;
    text_of(
        alloc,
        &[Times(front.as_str(), depth), Times(back.as_str(), depth)],
    )
}

/// Whether such a document has this answer.
fn answers_named(alloc: Global, depth: u32, line: &str) -> Result<bool, Fail> {
    let name = long_name(alloc)?;
    let document = named(alloc, depth, name.as_str())?;
    let answered = answers(alloc, "4096", NAMED, document.as_bytes(), line)?;
    Ok(answered)
}

/// How deep elements nest, and the line.
static NAMES: [(u32, &str); 2] = [(93, "valid\n"), (94, "limit names 65536\n")];

#[test]
fn names_in_pieces_are_limited(rt: HostRuntime) -> Result<(), Fail> {
    for (depth, line) in &NAMES {
        assert!(rt; answers_named(rt.alloc(), *depth, line)?, "{depth}");
    }
    Ok(())
}

/// The shortest pieces, and the longest.
static ENDS: [&str; 2] = ["1", "65536"];

/// What is no character isn't looked at behind the place where reading stops.
#[test]
fn bytes_behind_a_refusal_are_not_looked_at(rt: HostRuntime) -> Result<(), Fail> {
    let document = b"<a>&nbsp;</a>\xFF".as_slice();
    let line = "refused D unsupported entity at 3\n";
    for size in &ENDS {
        assert!(rt; answers(rt.alloc(), size, EMPTY, document, line)?, "{size}");
    }
    Ok(())
}
