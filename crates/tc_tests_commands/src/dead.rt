// Tests of `dead`: which rules, named bodies and branches of a stylesheet no valid document instantiates.
use crate::commands::Part::{Each, Once, Times};
use crate::commands::{
    BACK, Case, FRONT, OF_ELEVEN_LEVELS, Part, Text, assert_cases, assert_usage, sheet_of,
    store_answers, store_of,
};
use std::alloc::Global;
use std::process::Abort;
use std::test::Fail;
use tc_base::NoMemory;
use tc_top::Status;

const DEAD: &[&str] = &["dead", "I", "S"];

const ANY_B: &str = "element a{element b{empty}*}";

const WITH_C: &str = "element a{element b{element c{empty}?}*}";

/// The results of all `b` below an `a`, and a rule for `c`.
const PARTS: &str =
    "<xsl:template match=\"/\"><r><xsl:apply-templates select=\"a/b\"/></r></xsl:template>\
    <xsl:template match=\"b\"><x/></xsl:template><xsl:template match=\"c\"><y/></xsl:template>";

const CHOICE: &str =
    "<xsl:template match=\"a\"><xsl:choose><xsl:when test=\"not(b/c)\"><none/></xsl:when>\
    <xsl:otherwise><r><xsl:apply-templates select=\"b/c\"/></r></xsl:otherwise></xsl:choose></xsl:template>\
    <xsl:template match=\"c\"><x/></xsl:template>";

/// A choice within a branch of another one.
const NESTED: &str =
    "<xsl:template match=\"a\"><xsl:choose><xsl:when test=\"b\"><xsl:if test=\"c\">t</xsl:if></xsl:when>\
    <xsl:otherwise>u</xsl:otherwise></xsl:choose></xsl:template>";

/// A copy of all elements, and a rule for `z`.
const COPY: &str =
    "<xsl:template match=\"*\"><xsl:copy><xsl:apply-templates/></xsl:copy></xsl:template>\
    <xsl:template match=\"z\"><y/></xsl:template>";

/// A schema, the rules of a stylesheet, the status, and what is written.
type Row<'t> = (&'t str, &'t str, Status, &'t str);

/// Small schemas and stylesheets.
static ROWS: [Row<'static>; 14] = [
    // rules that are applied, and one that isn't
    (
        ANY_B,
        PARTS,
        Status::No,
        "rule 1 used <a/>\nrule 2 used <a><b/></a>\nrule 3 dead\nplaces 3 dead 1\n",
    ),
    // branches, of which one is taken where the schema allows it
    (
        WITH_C,
        CHOICE,
        Status::Yes,
        "rule 1 used <a/>\nrule 2 used <a><b><c/></b></a>\n\
         branch 1 used <a/>\nbranch 2 used <a><b><c/></b></a>\nplaces 4 dead 0\n",
    ),
    (
        ANY_B,
        CHOICE,
        Status::No,
        "rule 1 used <a/>\nrule 2 dead\nbranch 1 used <a/>\nbranch 2 dead\nplaces 4 dead 2\n",
    ),
    // an outer branch has its number before those inside it
    (
        ANY_B,
        NESTED,
        Status::No,
        "rule 1 used <a/>\nbranch 1 used <a><b/></a>\nbranch 2 dead\nbranch 3 used <a/>\nplaces 4 dead 1\n",
    ),
    // rules of one body have branches of their own
    (
        ANY_B,
        "<xsl:template match=\"a|b\"><xsl:if test=\"b\">t</xsl:if></xsl:template>",
        Status::No,
        "rule 1 used <a/>\nrule 2 dead\nbranch 1 used <a><b/></a>\nbranch 2 dead\nplaces 4 dead 2\n",
    ),
    // and for-each instructions
    (
        WITH_C,
        "<xsl:template match=\"a|b\"><xsl:apply-templates/><xsl:for-each select=\"*\">\
        <xsl:if test=\"true()\">t</xsl:if></xsl:for-each></xsl:template>",
        Status::Yes,
        "rule 1 used <a/>\nrule 2 used <a><b/></a>\n\
         branch 1 used <a><b/></a>\nbranch 2 used <a><b><c/></b></a>\nplaces 4 dead 0\n",
    ),
    // named bodies
    (
        ANY_B,
        "<xsl:template match=\"a\"><xsl:call-template name=\"n\"/></xsl:template>\
        <xsl:template name=\"n\"/><xsl:template name=\"o\"/>",
        Status::No,
        "rule 1 used <a/>\nnamed 1 used <a/>\nnamed 2 dead\nplaces 3 dead 1\n",
    ),
    // a template that is both a rule and a named body
    (
        ANY_B,
        "<xsl:template match=\"a\" name=\"n\"><xsl:if test=\"b\">t</xsl:if></xsl:template>",
        Status::No,
        "rule 1 used <a/>\nnamed 1 dead\nbranch 1 used <a><b/></a>\nbranch 2 dead\nplaces 4 dead 2\n",
    ),
    // a branch without instructions is one, and an `otherwise` without them none
    (
        ANY_B,
        "<xsl:template match=\"a\"><xsl:choose><xsl:when test=\"b\"/><xsl:otherwise/></xsl:choose></xsl:template>",
        Status::Yes,
        "rule 1 used <a/>\nbranch 1 used <a><b/></a>\nplaces 2 dead 0\n",
    ),
    // a copy on the root
    (
        ANY_B,
        "<xsl:template match=\"/\"><xsl:copy><xsl:choose><xsl:when test=\"a/b\"/>\
        <xsl:otherwise>t</xsl:otherwise></xsl:choose></xsl:copy></xsl:template>",
        Status::Yes,
        "rule 1 used <a/>\nbranch 1 used <a><b/></a>\nbranch 2 used <a/>\nplaces 3 dead 0\n",
    ),
    // the names of marks are names like others
    (
        "namespace d = \"urn:typecheck:dead\" element d:m{element d:w{empty}*}",
        COPY,
        Status::No,
        "rule 1 used <m xmlns=\"urn:typecheck:dead\"/>\nrule 2 dead\nplaces 2 dead 1\n",
    ),
    // a mode that is applied, and one that isn't
    (
        ANY_B,
        "<xsl:template match=\"/\"><xsl:apply-templates mode=\"m\"/></xsl:template>\
        <xsl:template match=\"b\" mode=\"m\"/><xsl:template match=\"b\"/>",
        Status::No,
        "rule 1 used <a/>\nrule 2 used <a><b/></a>\nrule 3 dead\nplaces 3 dead 1\n",
    ),
    // texts
    (
        "element a{text}",
        "<xsl:template match=\"text()\"><x/></xsl:template>",
        Status::Yes,
        "rule 1 used <a>t</a>\nplaces 1 dead 0\n",
    ),
    // a schema without documents
    (
        "start = notAllowed",
        PARTS,
        Status::No,
        "rule 1 dead\nrule 2 dead\nrule 3 dead\nplaces 3 dead 3\n",
    ),
];

/// Whether `dead` writes this of such files.
fn writes(alloc: Global, row: &Row<'_>) -> Result<bool, NoMemory> {
    let (input, rules, status, text) = row;
    let sheet = sheet_of(alloc, rules)?;
    let mut store = store_of(alloc, &[("I", input.as_bytes())])?;
    store.put("S", sheet.as_bytes())?;
    store_answers(alloc, DEAD, &mut store, *status, text)
}

#[test]
fn spots_are_told(rt: HostRuntime) {
    for row in &ROWS {
        let (input, rules, _, text) = row;
        assert!(rt;
            writes(rt.alloc(), row).unwrap_or(false),
            "{input} {rules} {text}"
        );
    }
}

const A: Text<'static> = &[Once("element a{empty}")];

/// A schema with 257 elements.
const CHAIN: Text<'static> = &[
    Once("start = e1\n"),
    Each("e# = element e#{e~?}\n", 1, 256),
    Once("e257 = element e257{empty}\n"),
];

/// A schema of whose children the thirteenth from the last is a `b`.
const SUBSETS: Text<'static> = &[
    Once("start = element a{(b|c)*,b"),
    Times(",(b|c)", 12),
    Once("} b = element b{empty} c = element c{empty}"),
];

const R: Part<'static> = Once("<xsl:template match=\"/\"><r/></xsl:template>");

/// Copies within one another, and in them a call of the named body.
const CALLS: Part<'static> = Once(
    "<xsl:template match=\"/\"><xsl:call-template name=\"n\"/></xsl:template><xsl:template name=\"n\">",
);

const COPIES: Part<'static> = Times("<xsl:copy>", 1_500);

const CALLS_O: Part<'static> = Once("<xsl:call-template name=\"o\"/>");

const IN_O: Part<'static> = Once("</xsl:template><xsl:template name=\"o\">");

const CALLS_Q: Part<'static> = Once("<xsl:call-template name=\"q\"/>");

const IN_Q: Part<'static> = Once("</xsl:template><xsl:template name=\"q\">");

const COPIED: Part<'static> = Times("</xsl:copy>", 1_500);

const LAST_COPIES: Part<'static> = Times("<xsl:copy>", 997);

const LAST_COPIED: Part<'static> = Times("</xsl:copy>", 997);

const CALLS_P: Part<'static> = Once("<xsl:call-template name=\"p\"/>");

const IN_P: Part<'static> = Once("</xsl:template><xsl:template name=\"p\"/>");

/// Copies count twice and calls once: a mark in the last named body, which counts twice too, is 8,000 deep.
const DEEP: Text<'static> = &[
    FRONT,
    CALLS,
    COPIES,
    CALLS_O,
    COPIED,
    IN_O,
    COPIES,
    CALLS_Q,
    COPIED,
    IN_Q,
    LAST_COPIES,
    CALLS_P,
    LAST_COPIED,
    IN_P,
    BACK,
];

/// It is one deeper.
const DEEPER: Text<'static> = &[
    FRONT,
    CALLS,
    COPIES,
    CALLS_O,
    COPIED,
    IN_O,
    COPIES,
    CALLS_Q,
    COPIED,
    IN_Q,
    LAST_COPIES,
    Once("<xsl:for-each select=\"a\">"),
    CALLS_P,
    Once("</xsl:for-each>"),
    LAST_COPIED,
    IN_P,
    BACK,
];

const LOOP: Text<'static> = &[Once("start = a\na = a | empty")];

const VARIABLE: Text<'static> = &[
    FRONT,
    Once("<xsl:template match=\"/\"><xsl:variable name=\"v\"/><r/></xsl:template>"),
    BACK,
];

/// Large files, and files that are refused.
static CASES: [Case<'static>; 13] = [
    Case {
        what: "the one document is too large to be shown",
        words: DEAD,
        files: &[("I", OF_ELEVEN_LEVELS), ("S", &[FRONT, Once(COPY), BACK])],
        status: Status::No,
        text: &[Once("rule 1 used document-too-large\nrule 2 dead\nplaces 2 dead 1\n")],
    },
    Case {
        what: "without spots no limit is tried",
        words: DEAD,
        files: &[("I", CHAIN), ("S", &[FRONT, BACK])],
        status: Status::Yes,
        text: &[Once("places 0 dead 0\n")],
    },
    Case {
        what: "a template that is dropped is no spot",
        words: DEAD,
        files: &[
            ("I", CHAIN),
            (
                "S",
                &[
                    FRONT,
                    Once("<xsl:template match=\"@k\"><r/></xsl:template>"),
                    BACK,
                ],
            ),
        ],
        status: Status::Yes,
        text: &[Once("places 0 dead 0\n")],
    },
    Case {
        what: "with one, limits of the schema are tried",
        words: DEAD,
        files: &[("I", CHAIN), ("S", &[FRONT, R, BACK])],
        status: Status::Limit,
        text: &[Once("limit elements 256\n")],
    },
    Case {
        what: "marks that are not too deep",
        words: DEAD,
        files: &[("I", A), ("S", DEEP)],
        status: Status::Yes,
        text: &[Once(
            "rule 1 used <a/>\nnamed 1 used <a/>\nnamed 2 used <a/>\nnamed 3 used <a/>\n\
             named 4 used <a/>\nplaces 5 dead 0\n",
        )],
    },
    Case {
        what: "one mark that is too deep",
        words: DEAD,
        files: &[("I", A), ("S", DEEPER)],
        status: Status::Limit,
        text: &[Once("limit calls 8000\n")],
    },
    Case {
        what: "more rows than there may be",
        words: DEAD,
        files: &[("I", SUBSETS), ("S", &[FRONT, R, BACK])],
        status: Status::Limit,
        text: &[Once("limit hedges 2000\n")],
    },
    Case {
        what: "calls are tried before rows",
        words: DEAD,
        files: &[("I", SUBSETS), ("S", DEEPER)],
        status: Status::Limit,
        text: &[Once("limit calls 8000\n")],
    },
    Case {
        what: "declarations of elements",
        words: &["dead", "dtd:a:G", "S"],
        files: &[
            ("G", &[Once("<!ELEMENT a (b*)><!ELEMENT b EMPTY>")]),
            ("S", &[FRONT, Once(PARTS), BACK]),
        ],
        status: Status::No,
        text: &[Once("rule 1 used <a/>\nrule 2 used <a><b/></a>\nrule 3 dead\nplaces 3 dead 1\n")],
    },
    Case {
        what: "in a stylesheet's place the name of a file",
        words: &["dead", "I", "dtd:a:G"],
        files: &[("I", A), ("dtd:a:G", &[FRONT, R, BACK])],
        status: Status::Yes,
        text: &[Once("rule 1 used <a/>\nplaces 1 dead 0\n")],
    },
    Case {
        what: "both are read before one is looked at",
        words: DEAD,
        files: &[("I", LOOP)],
        status: Status::ReadFault,
        text: &[Once("cannot read S\n")],
    },
    Case {
        what: "the schema is refused first",
        words: DEAD,
        files: &[("I", LOOP), ("S", VARIABLE)],
        status: Status::Refused,
        text: &[Once("refused I loop at 14\n")],
    },
    Case {
        what: "the stylesheet is refused before limits are tried",
        words: DEAD,
        files: &[("I", CHAIN), ("S", VARIABLE)],
        status: Status::Refused,
        text: &[Once("refused S unsupported variable at 103\n")],
    },
];

#[test]
fn large_files_are_decided(rt: HostRuntime) -> Result<(), Fail> {
    assert_cases(&rt, rt.alloc(), &CASES)
}

/// Words that are no command.
static WRONG: [&[&str]; 9] = [
    &["dead"],
    &["dead", "I"],
    &["dead", "I", "S", "D"],
    &["dead", "-I", "S"],
    &["dead", "I", ""],
    &["dead", "--limit", "3", "I", "S"],
    &["dead", "dtd:a", "S"],
    &["dead", "dtd::G", "S"],
    &["dead", "dtd:a:", "S"],
];

#[test]
fn two_operands_are_wanted(rt: HostRuntime) -> Result<(), Fail> {
    let files: &[(&str, &[u8])] = &[("I", b"element a{empty}"), ("S", b""), ("G", b"")];
    assert_usage(&rt, rt.alloc(), files, &WRONG)
}
