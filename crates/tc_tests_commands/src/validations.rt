// Tests of `valid`.
use crate::commands::Part::{Each, Once, Times};
use crate::commands::Text;
use crate::pieces::{ALL_SIZES, Made, Row, WHOLE, assert_documents, assert_made};
use std::test::Fail;

const GOOD: &str = "element a{empty}";

/// Schemas with documents that are valid and that aren't, and texts that are refused in order.
static DOCUMENTS: [Row<'static>; 27] = [
    (
        ALL_SIZES,
        "element a{element b{empty}&element c{empty}}",
        "<a><c/><b/></a>",
        "valid\n",
    ),
    (
        ALL_SIZES,
        "element a{element b{empty}&element c{empty}}",
        "<a><b/></a>",
        "invalid\n",
    ),
    (ALL_SIZES, "element a{text}", "<a>x<!--y-->z</a>", "valid\n"),
    (ALL_SIZES, "element a{text}", "<a><b/></a>", "invalid\n"),
    (
        ALL_SIZES,
        "element a{element b{empty}+}",
        "<a> <b/>\n<b></b> </a>",
        "valid\n",
    ),
    (
        ALL_SIZES,
        "element a{element b{empty}+}",
        "<a/>",
        "invalid\n",
    ),
    (
        ALL_SIZES,
        "element a{element b{empty}?}",
        "<a x='y'/>",
        "valid\n",
    ),
    (
        ALL_SIZES,
        "element a{element b{empty}?}",
        "<a><b/><b/></a>",
        "invalid\n",
    ),
    (
        ALL_SIZES,
        "default namespace = \"u\" element a{empty}",
        "<p:a xmlns:p='u'/>",
        "valid\n",
    ),
    (
        ALL_SIZES,
        "default namespace = \"u\" element a{empty}",
        "<a/>",
        "invalid\n",
    ),
    (
        ALL_SIZES,
        "element * - (a|b){empty}",
        "<c xmlns='u'/>",
        "valid\n",
    ),
    (ALL_SIZES, "element * - (a|b){empty}", "<b/>", "invalid\n"),
    (
        ALL_SIZES,
        "element a{mixed{element b{text}*}}",
        "<a>x<b>y</b>z</a>",
        "valid\n",
    ),
    (
        ALL_SIZES,
        "element a{mixed{element b{text}*}}",
        "<a>x<c/></a>",
        "invalid\n",
    ),
    (
        ALL_SIZES,
        "start = a|b a = element a{b} b = element b{empty}",
        "<a><b/></a>",
        "valid\n",
    ),
    (
        ALL_SIZES,
        "start = a|b a = element a{b} b = element b{empty}",
        "<c/>",
        "invalid\n",
    ),
    (ALL_SIZES, "start = notAllowed", "<a/>", "invalid\n"),
    // texts are refused in order
    (
        ALL_SIZES,
        "element a { b , c | d }",
        "<a/>",
        "refused O malformed at 18\n",
    ),
    (
        ALL_SIZES,
        "start = a\na = a | empty",
        "<a/>",
        "refused O loop at 14\n",
    ),
    (
        ALL_SIZES,
        "default namespace = \"ht",
        "<a/>",
        "refused O malformed at 23\n",
    ),
    (ALL_SIZES, "start = b", "<a", "refused O undefined at 8\n"),
    (
        ALL_SIZES,
        "start = empty",
        "<a/>",
        "refused O bad-start at 0\n",
    ),
    (
        ALL_SIZES,
        "element * - (* - a) {empty}",
        "<a/>",
        "refused O bad-except at 13\n",
    ),
    (
        ALL_SIZES,
        "start = a\na = element x{empty}\na = element y{empty}",
        "<a/>",
        "refused O twice at 31\n",
    ),
    (
        ALL_SIZES,
        "element a{list{text}}",
        "<a/>",
        "refused O unsupported list at 10\n",
    ),
    (
        ALL_SIZES,
        GOOD,
        "<a>&nbsp;</a>",
        "refused D unsupported entity at 3\n",
    ),
    (ALL_SIZES, GOOD, "<a", "refused D malformed at 2\n"),
];

#[test]
fn documents_are_valid_or_not(rt: HostRuntime) -> Result<(), Fail> {
    assert_documents(&rt, rt.alloc(), &DOCUMENTS)
}

/// An `r` with 511 `x`.
const WIDE: Text<'static> = &[
    Once("start = r x = element x{empty} r = element r{x"),
    Times(",x", 510),
    Once("}"),
];

/// Limits of documents and schemas, by their numbers.
static LIMITS: [Made<'static>; 10] = [
    // elements nest two thousand deep
    (
        WHOLE,
        &[Once("start = e e = element a{e?}")],
        &[Times("<a>", 2_000), Times("</a>", 2_000)],
        "valid\n",
    ),
    (
        WHOLE,
        &[Once("start = e e = element a{e?}")],
        &[Times("<a>", 2_001), Times("</a>", 2_001)],
        "refused D too-deep at 6000\n",
    ),
    // many states are built
    (
        WHOLE,
        &[
            Once("start = r x = element x{empty} r = element r{x"),
            Times(",x", 509),
            Once("}"),
        ],
        &[Once("<r>"), Times("<x/>", 510), Once("</r>")],
        "valid\n",
    ),
    // a limit of the schema waits until the document was read, and in pieces it is told before
    (WHOLE, WIDE, &[Once("<r/>")], "limit states 512\n"),
    (WHOLE, WIDE, &[Once("<a")], "refused D malformed at 2\n"),
    (&["7"], WIDE, &[Once("<a")], "limit states 512\n"),
    // nodes of patterns
    (
        WHOLE,
        &[Once("element a{empty"), Times("|empty", 65_533), Once("}")],
        &[Once("<a/>")],
        "valid\n",
    ),
    (
        WHOLE,
        &[Once("element a{empty"), Times("|empty", 65_534), Once("}")],
        &[Once("<a/>")],
        "limit pattern 65536\n",
    ),
    // symbols
    (
        WHOLE,
        &[Once("element (n0"), Each("|n#", 1, 1_021), Once("){empty}")],
        &[Once("<n7/>")],
        "valid\n",
    ),
    (
        WHOLE,
        &[Once("element (n0"), Each("|n#", 1, 1_022), Once("){empty}")],
        &[Once("<n7/>")],
        "limit symbols 1024\n",
    ),
];

const A: Text<'static> = &[Once("<a/>")];

/// Schemas whose braces and parentheses stand as deep as they may, and once more.
static DEEP: [Made<'static>; 8] = [
    // elements with a connector and a suffix at each
    (
        WHOLE,
        &[
            Once("start = element a{"),
            Times("empty,element a{", 1_999),
            Once("empty"),
            Times("}?", 1_999),
            Once("}"),
        ],
        A,
        "limit elements 256\n",
    ),
    // parentheses of patterns, whose depth is told before they are made
    (
        WHOLE,
        &[
            Once("start = element a{"),
            Times("(empty,", 1_999),
            Once("text"),
            Times(")", 1_999),
            Once("}"),
        ],
        A,
        "valid\n",
    ),
    (
        WHOLE,
        &[
            Once("start = element a{"),
            Times("(empty,", 2_000),
            Once("text"),
            Times(")", 2_000),
            Once("}"),
        ],
        A,
        "refused O too-deep at 14011\n",
    ),
    (
        WHOLE,
        &[
            Once("start = element a{"),
            Times("(empty,", 1_999),
            Once("text"),
            Times(")?", 1_999),
            Once("}"),
        ],
        A,
        "limit depth 2000\n",
    ),
    // choices below the start
    (
        WHOLE,
        &[
            Once("start = "),
            Times("(notAllowed|", 1_999),
            Once("element a{empty}"),
            Times(")", 1_999),
        ],
        A,
        "valid\n",
    ),
    // parentheses of a name class
    (
        WHOLE,
        &[
            Once("start = element "),
            Times("(b|", 2_000),
            Once("a"),
            Times(")", 2_000),
            Once("{empty}"),
        ],
        A,
        "valid\n",
    ),
    (
        WHOLE,
        &[
            Once("start = element "),
            Times("(b|", 2_001),
            Once("a"),
            Times(")", 2_001),
            Once("{empty}"),
        ],
        A,
        "refused O too-deep at 6016\n",
    ),
    // definitions in repetitions
    (
        WHOLE,
        &[
            Once("start = element a{a0}"),
            Each("\na# = a~+", 0, 1_998),
            Once("\na1999 = text"),
        ],
        A,
        "valid\n",
    ),
];

#[test]
fn depth_states_nodes_and_symbols_are_limited(rt: HostRuntime) -> Result<(), Fail> {
    assert_made(&rt, rt.alloc(), &LIMITS)?;
    assert_made(&rt, rt.alloc(), &DEEP)
}
