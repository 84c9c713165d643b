// Tests of `check` on whole schemas and stylesheets.
use crate::commands::Part::{Each, Once, Times};
use crate::commands::{
    BACK, Case, FRONT, OF_ELEVEN_LEVELS, OF_TEN_LEVELS, Part, Text, assert_cases, case_writes,
    sheet_of, status_of, store_answers, store_of, ten_levels, text_of,
};
use std::alloc::Global;
use std::process::Abort;
use std::test::Fail;
use tc_base::NoMemory;
use tc_top::Status;

/// `check I O S`, and with these words in front of the operands.
const PLAIN: &[&str] = &["check", "I", "O", "S"];

const WITH_TWO: &[&str] = &["check", "--limit", "2", "I", "O", "S"];

const WITH_THREE: &[&str] = &["check", "--limit", "3", "I", "O", "S"];

/// The results of all `b` below an `a`, in an `r`.
const PARTS: &str =
    "<xsl:template match=\"/\"><r><xsl:apply-templates select=\"a/b\"/></r></xsl:template>\
    <xsl:template match=\"b\"><x/></xsl:template>";

/// An `x` for each text, in an `r`.
const TEXTS: &str = "<xsl:template match=\"/\"><r><xsl:apply-templates/></r></xsl:template>\
    <xsl:template match=\"text()\"><x/></xsl:template>";

/// A copy of all elements.
const COPY: &str =
    "<xsl:template match=\"*\"><xsl:copy><xsl:apply-templates/></xsl:copy></xsl:template>";

const ANY_B: &str = "element a{element b{empty}*}";

const ANY_X: &str = "element r{element x{empty}*}";

/// Words, two schemas, the rules of a stylesheet, and what is written.
type Row<'t> = (&'t [&'t str], &'t str, &'t str, &'t str, &'t str);

/// Whether these words, of such files, write this text, with its status.
fn writes(alloc: Global, row: &Row<'_>) -> Result<bool, NoMemory> {
    let (words, input, output, rules, text) = row;
    let sheet = sheet_of(alloc, rules)?;
    let files = [("I", input.as_bytes()), ("O", output.as_bytes())];
    let mut store = store_of(alloc, &files)?;
    store.put("S", sheet.as_bytes())?;
    store_answers(alloc, words, &mut store, status_of(text), text)
}

/// Asserts of each row what is written.
fn assert_rows(rt: &impl Abort, alloc: Global, rows: &[Row<'_>]) -> Result<(), Fail> {
    for row in rows {
        let (_, input, output, rules, text) = row;
        assert!(rt; writes(alloc, row)?, "{input} {output} {rules} {text}");
    }
    Ok(())
}

const ONE_X: &str = "element r{element x{empty}?}";

const SOME_X: &str = "element r{element x{empty}+}";

const PAIRS: &str = "element r{(element x{empty},element x{empty})*}";

const EMPTY: &str = "element a{empty}";

const RESULT: &str = "element r{empty}";

const SAFE: &str = "safe trees 3 hedges 2 outputs 2\n";

const SHOWN: &str = "unsafe\ndocument <a/>\noutput <r/>\n";

const LIMIT: &str = "limit trees 2\n";

/// An `r` with an `x`.
const FIXED: &str = "<xsl:template match=\"/\"><r><x/></r></xsl:template>";

const VALUE: &str = "<xsl:template match=\"a\"><x><xsl:value-of select=\"b\"/></x></xsl:template>";

const WITH_C: &str = "element a{element b{element c{empty}?}*}";

const NONE_OR_SOME_X: &str = "element none{empty} | element r{element x{empty}+}";

const CHOICE: &str =
    "<xsl:template match=\"a\"><xsl:choose><xsl:when test=\"not(b/c)\"><none/></xsl:when>\
    <xsl:otherwise><r><xsl:apply-templates select=\"b/c\"/></r></xsl:otherwise></xsl:choose></xsl:template>\
    <xsl:template match=\"c\"><x/></xsl:template>";

const WITH: &str =
    "<xsl:template match=\"/\"><r><xsl:apply-templates select=\"a/b[c]\"/></r></xsl:template>\
    <xsl:template match=\"b\"><y/></xsl:template><xsl:template match=\"b[c]\"><x/></xsl:template>";

const WITHOUT: &str =
    "<xsl:template match=\"/\"><r><xsl:apply-templates select=\"a/b\"/></r></xsl:template>\
    <xsl:template match=\"b\"><y/></xsl:template><xsl:template match=\"b[c]\"><x/></xsl:template>";

const INTERLEAVED: &str = "element a{element b{empty}&element c{empty}}";

/// Six `b`, or four `c` within one another.
const TWO_WAYS: &str =
    "start = element a{(b,b,b,b,b,b)|c1} b = element b{empty} c1 = element c{c2} \
    c2 = element c{c3} c3 = element c{c4} c4 = element c{empty}";

const EACH_X: &str =
    "<xsl:template match=\"/\"><r><xsl:apply-templates select=\"a/b|.//c\"/></r></xsl:template>\
    <xsl:template match=\"b|c\"><x/></xsl:template>";

/// Small schemas and stylesheets, and what is written of them.
static ROWS: [Row<'static>; 27] = [
    // fixed results
    (
        PLAIN,
        "element a { empty }",
        "element r { element x { empty }* }",
        FIXED,
        "safe trees 1 hedges 1 outputs 1\n",
    ),
    (
        PLAIN,
        "element a { empty }",
        "element r { empty }",
        FIXED,
        "unsafe\ndocument <a/>\noutput <r><x/></r>\n",
    ),
    // limits of rows
    (PLAIN, ANY_B, ANY_X, PARTS, SAFE),
    (WITH_THREE, ANY_B, ANY_X, PARTS, SAFE),
    (PLAIN, ANY_B, SOME_X, PARTS, SHOWN),
    (WITH_TWO, ANY_B, ANY_X, PARTS, LIMIT),
    (WITH_TWO, ANY_B, SOME_X, PARTS, LIMIT),
    // children are counted
    (
        PLAIN,
        "element a{text}",
        ONE_X,
        TEXTS,
        "safe trees 3 hedges 2 outputs 2\n",
    ),
    (
        PLAIN,
        "element a{(text|element b{empty})*}",
        ONE_X,
        TEXTS,
        "unsafe\ndocument <a>t<b/>t</a>\noutput <r><x/><x/></r>\n",
    ),
    (
        PLAIN,
        "element a{(element b{empty},element b{empty})*}",
        PAIRS,
        PARTS,
        "safe trees 3 hedges 3 outputs 3\n",
    ),
    (
        PLAIN,
        "b = element b{empty} start = element a{(b,b,b,b,b,b,b)+}",
        PAIRS,
        PARTS,
        "unsafe\ndocument <a><b/><b/><b/><b/><b/><b/><b/></a>\n\
         output <r><x/><x/><x/><x/><x/><x/><x/></r>\n",
    ),
    // schemas without documents are safe
    (
        PLAIN,
        "start = notAllowed",
        ANY_X,
        PARTS,
        "safe trees 0 hedges 1 outputs 1\n",
    ),
    (
        PLAIN,
        "start = e e = element a{e}",
        ANY_X,
        PARTS,
        "safe trees 0 hedges 1 outputs 1\n",
    ),
    // names that nobody mentions count
    (
        PLAIN,
        "element *{empty}",
        "namespace q = \"\" element (a|(* - q:*)){empty}",
        COPY,
        "unsafe\ndocument <n/>\noutput <n/>\n",
    ),
    // values are those of the first node
    (
        PLAIN,
        "element a{element b{empty},element b{text}}",
        "element x{empty}",
        VALUE,
        "safe trees 5 hedges 5 outputs 3\n",
    ),
    (
        PLAIN,
        "element a{element b{text},element b{empty}}",
        "element x{empty}",
        VALUE,
        "unsafe\ndocument <a><b>t</b><b/></a>\noutput <x>t</x>\n",
    ),
    // predicates and tests are followed
    (
        PLAIN,
        WITH_C,
        NONE_OR_SOME_X,
        CHOICE,
        "safe trees 5 hedges 4 outputs 4\n",
    ),
    (
        PLAIN,
        WITH_C,
        ANY_X,
        WITH,
        "safe trees 7 hedges 5 outputs 3\n",
    ),
    (
        PLAIN,
        WITH_C,
        ANY_X,
        WITHOUT,
        "unsafe\ndocument <a><b/></a>\noutput <r><y/></r>\n",
    ),
    // roots, texts and namespaces are printed
    (
        PLAIN,
        EMPTY,
        RESULT,
        "<xsl:template match=\"/\"><r/><r/></xsl:template>",
        "unsafe\ndocument <a/>\noutput <r/><r/>\n",
    ),
    (
        PLAIN,
        EMPTY,
        RESULT,
        "<xsl:template match=\"/\"><xsl:text> </xsl:text><r/></xsl:template>",
        "safe trees 1 hedges 1 outputs 1\n",
    ),
    (
        PLAIN,
        EMPTY,
        RESULT,
        "<xsl:template match=\"/\"><xsl:text> </xsl:text></xsl:template>",
        "unsafe\ndocument <a/>\noutput \n",
    ),
    (
        PLAIN,
        EMPTY,
        RESULT,
        "<xsl:template match=\"/\"><r>x &amp; y</r></xsl:template>",
        "unsafe\ndocument <a/>\noutput <r>x &amp; y</r>\n",
    ),
    (
        PLAIN,
        EMPTY,
        RESULT,
        "<xsl:template match=\"/\"><q:r xmlns:q=\"u\"/></xsl:template>",
        "unsafe\ndocument <a/>\noutput <r xmlns=\"u\"/>\n",
    ),
    // interleaved children come in any order
    (
        PLAIN,
        INTERLEAVED,
        "element a{(element b{empty},element c{empty})|(element c{empty},element b{empty})}",
        COPY,
        "safe trees 3 hedges 5 outputs 6\n",
    ),
    (
        PLAIN,
        INTERLEAVED,
        "element a{element b{empty},element c{empty}}",
        COPY,
        "unsafe\ndocument <a><c/><b/></a>\noutput <a><c/><b/></a>\n",
    ),
    // least documents are shown
    (
        PLAIN,
        TWO_WAYS,
        RESULT,
        EACH_X,
        "unsafe\ndocument <a><c><c><c><c/></c></c></c></a>\noutput <r><x/><x/><x/><x/></r>\n",
    ),
];

#[test]
fn schemas_and_stylesheets_are_decided(rt: HostRuntime) -> Result<(), Fail> {
    assert_rows(&rt, rt.alloc(), &ROWS)
}

const A: Text<'static> = &[Once(EMPTY)];

const R: Text<'static> = &[Once(RESULT)];

const PUTS_X: Text<'static> = &[
    FRONT,
    Once("<xsl:template match=\"/\"><x/></xsl:template>"),
    BACK,
];

const PUTS_NO: Text<'static> = &[
    FRONT,
    Once("<xsl:template match=\"/\"><no/></xsl:template>"),
    BACK,
];

const CALL: Part<'static> = Once(
    "<xsl:template match=\"/\"><xsl:call-template name=\"n1\"/></xsl:template>",
);

/// Nine elements one after the other, each an `x` or a `y` of its place.
const OF_NINE: Text<'static> = &[
    Once("start = d d = element d{(x1|y1)"),
    Each(",(x#|y#)", 2, 9),
    Once("}"),
    Each(" x# = element x#{empty} y# = element y#{empty}", 1, 9),
];

/// The root has nothing in it, or elements none of which has one of 39 names: so a list's set of pairs tells which of these names
/// stand in it, and whether it is empty.
const WITHOUT_ONE: Text<'static> = &[
    Once("start = r r = element r{empty"),
    Each("|nx#*|ny#*", 1, 9),
    Each("|nu#*", 1, 16),
    Each("|nv#*", 1, 2),
    Each("|nw#*", 1, 3),
    Once("}"),
    Each(" nx# = element *-x#{empty} ny# = element *-y#{empty}", 1, 9),
    Each(" nu# = element *-u#{empty}", 1, 16),
    Each(" nv# = element *-v#{empty}", 1, 2),
    Each(" nw# = element *-w#{empty}", 1, 3),
];

/// Copies of all elements, with marks, in a mode for each of 16 numbers.
const FIRST_MODES: Part<'static> = Each(
    "<xsl:template match='*' mode='a#'><xsl:copy/><u#/></xsl:template>",
    1,
    16,
);

const SECOND_MODES: Part<'static> = Each(
    "<xsl:template match='*' mode='b#'><xsl:copy/><u#/><v1/></xsl:template>",
    1,
    16,
);

const THIRD_MODES: Part<'static> = Each(
    "<xsl:template match='*' mode='c#'><xsl:copy/><u#/><v2/></xsl:template>",
    1,
    16,
);

/// Of 15 numbers.
const LAST_MODES: Part<'static> = Each(
    "<xsl:template match='*' mode='d#'><xsl:copy/><u#/><v1/><v2/></xsl:template>",
    1,
    15,
);

/// Copies of the elements of the first five places alone, and of the first two.
const FEWER: Part<'static> = Once(
    "<xsl:template match='/'><r/></xsl:template><xsl:template match='*' mode='w1'/>\
    <xsl:template match='x1|y1|x2|y2|x3|y3|x4|y4|x5|y5' mode='w1'><xsl:copy/><w1/></xsl:template>\
    <xsl:template match='*' mode='w2'/>\
    <xsl:template match='x1|y1|x2|y2' mode='w2'><xsl:copy/><w2/></xsl:template>",
);

/// Copies of `x1` alone.
const ONE_COPY: Part<'static> = Once(
    "<xsl:template match='*' mode='w3'/>\
    <xsl:template match='x1' mode='w3'><xsl:copy/><w3/></xsl:template>",
);

/// As many sets of pairs as may be, and one more. Rows are those of 18 trees and of `d`, and of 1 + 2 + .. + 512 lists of the first
/// places. In each of 63 modes a list that isn't empty has a set of its own, each tree too unless it stands at the first place, and
/// `d`: 63 * (1,022 + 16 + 1) = 65,457. In mode `w1` there are 2 + 4 + .. + 32 and 8, in `w2` 2 + 4 and 2, and one is that of
/// nothing: 65,536. Mode `w3` adds that of `x1`.
static SETS: [Case<'static>; 2] = [
    Case {
        what: "65,536 sets of pairs",
        words: PLAIN,
        files: &[
            ("I", OF_NINE),
            ("O", WITHOUT_ONE),
            (
                "S",
                &[
                    FRONT,
                    FEWER,
                    FIRST_MODES,
                    SECOND_MODES,
                    THIRD_MODES,
                    LAST_MODES,
                    BACK,
                ],
            ),
        ],
        status: Status::Yes,
        text: &[Once("safe trees 19 hedges 1023 outputs 65536\n")],
    },
    Case {
        what: "one more",
        words: PLAIN,
        files: &[
            ("I", OF_NINE),
            ("O", WITHOUT_ONE),
            (
                "S",
                &[
                    FRONT,
                    FEWER,
                    FIRST_MODES,
                    SECOND_MODES,
                    THIRD_MODES,
                    LAST_MODES,
                    ONE_COPY,
                    BACK,
                ],
            ),
        ],
        status: Status::Limit,
        text: &[Once("limit outputs 65536\n")],
    },
];

/// Limits that are told.
static LIMITS: [Case<'static>; 5] = [
    Case {
        what: "predicates",
        words: PLAIN,
        files: &[
            ("I", A),
            ("O", R),
            (
                "S",
                &[
                    FRONT,
                    Each("<xsl:template match='a[p#]'><x/></xsl:template>", 1, 7),
                    BACK,
                ],
            ),
        ],
        status: Status::Limit,
        text: &[Once("limit predicates 6\n")],
    },
    Case {
        what: "named bodies, of which each of 8,000 calls the next one",
        words: PLAIN,
        files: &[
            ("I", A),
            ("O", R),
            (
                "S",
                &[
                    FRONT,
                    CALL,
                    Each(
                        "<xsl:template name=\"n#\"><xsl:call-template name=\"n~\"/></xsl:template>",
                        1,
                        8_000,
                    ),
                    Once("<xsl:template name=\"n8001\"><r/></xsl:template>"),
                    BACK,
                ],
            ),
        ],
        status: Status::Limit,
        text: &[Once("limit calls 8000\n")],
    },
    Case {
        what: "output schemas have fewer states",
        words: PLAIN,
        files: &[
            ("I", &[Once(ANY_B)]),
            (
                "O",
                &[
                    Once("start = r x = element x{empty} r = element r{x"),
                    Times(",x", 259),
                    Once("}"),
                ],
            ),
            ("S", &[FRONT, Once(PARTS), BACK]),
        ],
        status: Status::Limit,
        text: &[Once("limit states 256\n")],
    },
    Case {
        what: "counterexamples",
        words: PLAIN,
        files: &[("I", OF_ELEVEN_LEVELS), ("O", R), ("S", PUTS_X)],
        status: Status::Limit,
        text: &[Once("limit counterexample 2000\n")],
    },
    Case {
        what: "more than two thousand nodes",
        words: PLAIN,
        files: &[
            (
                "I",
                &[
                    Once("start = r r = element r{"),
                    Times("g,", 19),
                    Once("x"),
                    Times(",x", 99),
                    Once("} g = element g{x"),
                    Times(",x", 98),
                    Once("} x = element x{empty}"),
                ],
            ),
            ("O", R),
            ("S", PUTS_NO),
        ],
        status: Status::Limit,
        text: &[Once("limit counterexample 2000\n")],
    },
];

/// Results that are told to be too large, after the document that has them.
static TOO_LARGE: [Case<'static>; 2] = [
    Case {
        what: "sixty named bodies, of which each calls the next one twice",
        words: PLAIN,
        files: &[
            ("I", A),
            ("O", R),
            (
                "S",
                &[
                    FRONT,
                    CALL,
                    Each(
                        "<xsl:template name=\"n#\"><xsl:call-template name=\"n~\"/>\
                        <xsl:call-template name=\"n~\"/></xsl:template>",
                        1,
                        60,
                    ),
                    Once("<xsl:template name=\"n61\"/>"),
                    BACK,
                ],
            ),
        ],
        status: Status::No,
        text: &[Once("unsafe\ndocument <a/>\noutput-too-large\n")],
    },
    Case {
        what: "25 elements within one another, whose children are gone through twice",
        words: PLAIN,
        files: &[
            (
                "I",
                &[
                    Once("start = e1"),
                    Each("\ne# = element a{e~}", 1, 24),
                    Once("\ne25 = element a{empty}"),
                ],
            ),
            ("O", R),
            (
                "S",
                &[
                    FRONT,
                    Once("<xsl:template match=\"/\"><r><xsl:apply-templates/></r></xsl:template>"),
                    Once(
                        "<xsl:template match=\"a\"><x/><xsl:apply-templates/><xsl:apply-templates/></xsl:template>",
                    ),
                    BACK,
                ],
            ),
        ],
        status: Status::No,
        text: &[
            Once("unsafe\ndocument "),
            Times("<a>", 24),
            Once("<a/>"),
            Times("</a>", 24),
            Once("\noutput-too-large\n"),
        ],
    },
];

#[test]
fn limits_are_told_and_large_results_are_not_shown(rt: HostRuntime) -> Result<(), Fail> {
    assert_cases(&rt, rt.alloc(), &LIMITS)?;
    assert_cases(&rt, rt.alloc(), &SETS)?;
    assert_cases(&rt, rt.alloc(), &TOO_LARGE)
}

/// The document of ten levels, and a result that is not valid.
static LEVELS: Case<'static> = Case {
    what: "ten levels",
    words: PLAIN,
    files: &[("I", OF_TEN_LEVELS), ("O", R), ("S", PUTS_X)],
    status: Status::No,
    text: &[],
};

/// What is written of the document of ten levels.
fn shown_levels(alloc: Global) -> Result<String, Fail> {
    let tree = ten_levels(alloc)?;
    text_of(
        alloc,
        &[
            Once("unsafe\ndocument "),
            Once(tree.as_str()),
            Once("\noutput <x/>\n"),
        ],
    )
}

/// Copies around a test in 2,000 parentheses, as deep as elements of a stylesheet may stand.
static DEEP: [Case<'static>; 1] = [Case {
    what: "1,996 copies around a test in 2,000 parentheses",
    words: PLAIN,
    files: &[
        ("I", &[Once("element a{element d{empty}}")]),
        ("O", R),
        (
            "S",
            &[
                FRONT,
                Once("<xsl:template match=\"a\">"),
                Times("<xsl:copy>", 1_996),
                Once("<xsl:if test=\""),
                Times("c or d and not(", 2_000),
                Once("d"),
                Times(")", 2_000),
                Once("\"><x/></xsl:if>"),
                Times("</xsl:copy>", 1_996),
                Once("</xsl:template>"),
                BACK,
            ],
        ),
    ],
    status: Status::No,
    text: &[
        Once("unsafe\ndocument <a><d/></a>\noutput "),
        Times("<a>", 1_996),
        Once("<x/>"),
        Times("</a>", 1_996),
        Once("\n"),
    ],
}];

#[test]
fn counterexamples_are_shown(rt: HostRuntime) -> Result<(), Fail> {
    assert_cases(&rt, rt.alloc(), &DEEP)?;
    let text = shown_levels(rt.alloc())?;
    assert!(rt; case_writes(rt.alloc(), &LEVELS, text.as_str())?);
    Ok(())
}

/// A schema whose only document has 19 times 100 elements and a hundred in its root.
static WIDE: Case<'static> = Case {
    what: "two thousand nodes",
    words: PLAIN,
    files: &[
        (
            "I",
            &[
                Once("start = r r = element r{"),
                Times("g,", 19),
                Once("x"),
                Times(",x", 98),
                Once("} g = element g{x"),
                Times(",x", 98),
                Once("} x = element x{empty}"),
            ],
        ),
        ("O", R),
        ("S", PUTS_NO),
    ],
    status: Status::No,
    text: &[],
};

/// The document of 2,000 elements, and its result.
fn wide_text(alloc: Global) -> Result<String, Fail> {
    let group = text_of(alloc, &[Once("<g>"), Times("<x/>", 99), Once("</g>")])?;
    text_of(
        alloc,
        &[
            Once("unsafe\ndocument <r>"),
            Times(group.as_str(), 19),
            Times("<x/>", 99),
            Once("</r>\noutput <no/>\n"),
        ],
    )
}

#[test]
fn two_thousand_nodes_are_shown(rt: HostRuntime) -> Result<(), Fail> {
    let text = wide_text(rt.alloc())?;
    assert!(rt; case_writes(rt.alloc(), &WIDE, text.as_str())?);
    Ok(())
}
