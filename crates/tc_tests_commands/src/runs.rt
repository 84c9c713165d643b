// Tests of `run`.
use crate::commands::Part::{Each, Once, Times};
use crate::commands::{BACK, Case, FRONT, Text, assert_cases, sheet_of, store_answers, store_of};
use std::alloc::Global;
use std::test::Fail;
use tc_base::NoMemory;
use tc_top::Status;

const RUN: &[&str] = &["run", "S", "D"];

/// Rules, a document, the status, and what is written.
type Row<'t> = (&'t str, &'t str, Status, &'t str);

/// Whether `run S D`, of these rules and of this document, has this status and writes this line.
fn answers(alloc: Global, row: &Row<'_>) -> Result<bool, NoMemory> {
    let (rules, document, status, line) = row;
    let sheet = sheet_of(alloc, rules)?;
    let mut store = store_of(alloc, &[("D", document.as_bytes())])?;
    store.put("S", sheet.as_bytes())?;
    store_answers(alloc, RUN, &mut store, *status, line)
}

const DOUBLING: &str = "<xsl:template match='/'><r><xsl:apply-templates/></r></xsl:template>\
    <xsl:template match='a'><x/><xsl:apply-templates/><xsl:apply-templates/></xsl:template>";

const DOCUMENT: &str = "<a>s<b><c>t</c></b><b/>u</a>";

const GOOD: &str = "<xsl:template match='a'><x/></xsl:template>";

/// Rules, documents, the status, and what is written.
static ROWS: [Row<'static>; 29] = [
    // rules are chosen
    (
        DOUBLING,
        "<a><a><a/></a></a>",
        Status::Yes,
        "<r><x/><x/><x/><x/><x/><x/><x/></r>\n",
    ),
    (
        "<xsl:template match='a/b'><p/></xsl:template><xsl:template match='b'><q/></xsl:template>\
         <xsl:template match='b'><s/></xsl:template>",
        "<a><b/><c><b/></c></a>",
        Status::Yes,
        "<p/><s/>\n",
    ),
    (
        "<xsl:template match='/'><xsl:apply-templates mode='m'/></xsl:template>\
         <xsl:template match='b' mode='m'><x/></xsl:template><xsl:template match='b'><y/></xsl:template>",
        "<a><b/></a>",
        Status::Yes,
        "<x/>\n",
    ),
    (
        "<xsl:template match='a'><xsl:apply-templates select='c|b|.//c'/></xsl:template>\
         <xsl:template match='b'><x/></xsl:template><xsl:template match='c'><y/></xsl:template>",
        "<a><b/><c/></a>",
        Status::Yes,
        "<x/><y/>\n",
    ),
    (
        "<xsl:template match='a'><xsl:apply-templates select='.//b[not(c)]'/></xsl:template>\
         <xsl:template match='b'><x/></xsl:template>",
        "<a><b><c/></b><b><b/></b></a>",
        Status::Yes,
        "<x/><x/>\n",
    ),
    (
        "<xsl:template match='@*|node()'><xsl:copy><xsl:apply-templates select='@*|node()'/></xsl:copy></xsl:template>",
        "<p:a xmlns:p=\"u\" k=\"1\">x &lt; y<b/></p:a>",
        Status::Yes,
        "<a xmlns=\"u\">x &lt; y<b xmlns=\"\"/></a>\n",
    ),
    // each instruction runs, and first the built-in rules
    ("", DOCUMENT, Status::Yes, "stu\n"),
    (
        "<xsl:template match='text()'/>",
        DOCUMENT,
        Status::Yes,
        "\n",
    ),
    ("<xsl:template match='/'/>", DOCUMENT, Status::Yes, "\n"),
    (
        "<xsl:template match='/'>x<xsl:text> </xsl:text><y>z</y><xsl:text/></xsl:template>",
        DOCUMENT,
        Status::Yes,
        "x <y>z</y>\n",
    ),
    (
        "<xsl:template match='/'><xsl:text> </xsl:text>x<y/></xsl:template>",
        DOCUMENT,
        Status::Yes,
        " x<y/>\n",
    ),
    (
        "<xsl:template match='/'><xsl:text> </xsl:text><y/><xsl:text> </xsl:text></xsl:template>",
        DOCUMENT,
        Status::Yes,
        "<y/>\n",
    ),
    (
        "<xsl:template match='/'><a xmlns='u'><b xmlns=''>x</b><c/></a><d/></xsl:template>",
        DOCUMENT,
        Status::Yes,
        "<a xmlns=\"u\"><b xmlns=\"\">x</b><c/></a><d/>\n",
    ),
    (
        "<xsl:template match='a'><xsl:element name='e'><xsl:apply-templates select='b'/></xsl:element></xsl:template>",
        DOCUMENT,
        Status::Yes,
        "<e>t</e>\n",
    ),
    (
        "<xsl:template match='/'><xsl:copy><r><xsl:apply-templates/></r></xsl:copy></xsl:template>\
         <xsl:template match='a|b|text()'><xsl:copy><xsl:apply-templates/></xsl:copy></xsl:template>",
        DOCUMENT,
        Status::Yes,
        "<r><a>s<b>t</b><b/>u</a></r>\n",
    ),
    (
        "<xsl:template match='a'><xsl:for-each select='b'><x><xsl:value-of select='c'/></x></xsl:for-each></xsl:template>",
        DOCUMENT,
        Status::Yes,
        "<x>t</x><x/>\n",
    ),
    (
        "<xsl:template match='a'><xsl:call-template name='n'/></xsl:template>\
         <xsl:template name='n'><x><xsl:value-of select='.'/></x></xsl:template>",
        DOCUMENT,
        Status::Yes,
        "<x>stu</x>\n",
    ),
    (
        "<xsl:template match='/'><x><xsl:value-of select='.'/></x><y><xsl:value-of select='.//b'/></y>\
         <z><xsl:value-of select='a/d'/></z></xsl:template>",
        DOCUMENT,
        Status::Yes,
        "<x>stu</x><y>t</y><z/>\n",
    ),
    (
        "<xsl:template match='text()'><xsl:value-of select='.'/><xsl:value-of select='a'/>-</xsl:template>",
        DOCUMENT,
        Status::Yes,
        "s-t-u-\n",
    ),
    (
        "<xsl:template match='b'><xsl:if test='c'><x/></xsl:if><xsl:if test='not(c)'><y/></xsl:if></xsl:template>",
        DOCUMENT,
        Status::Yes,
        "s<x/><y/>u\n",
    ),
    (
        "<xsl:template match='b|c'><xsl:choose><xsl:when test='c'><x/></xsl:when><xsl:when test='true()'><y/></xsl:when>\
         <xsl:otherwise><z/></xsl:otherwise></xsl:choose></xsl:template>",
        DOCUMENT,
        Status::Yes,
        "s<x/><y/>u\n",
    ),
    (
        "<xsl:template match='/'><xsl:choose><xsl:when test='b and a'><x/></xsl:when>\
         <xsl:otherwise><z/></xsl:otherwise></xsl:choose></xsl:template>",
        DOCUMENT,
        Status::Yes,
        "<z/>\n",
    ),
    // texts are refused
    (
        "<xsl:template match='a[1]'><x/></xsl:template>",
        "<a/>",
        Status::Refused,
        "refused S unsupported arithmetic at 93\n",
    ),
    (
        "<xsl:template match='/'><xsl:variable name='v'/><r/></xsl:template>",
        "<a/>",
        Status::Refused,
        "refused S unsupported variable at 103\n",
    ),
    (
        GOOD,
        "<a>&nbsp;</a>",
        Status::Refused,
        "refused D unsupported entity at 3\n",
    ),
    (
        "<xsl:template match='a'><xsl:call-template name='n'/></xsl:template>",
        "<a",
        Status::Refused,
        "refused S undefined at 103\n",
    ),
    (
        "<xsl:template name='n'><xsl:call-template name='n'/></xsl:template>",
        "<a/>",
        Status::Refused,
        "refused S call-loop at 102\n",
    ),
    (
        "<r/>",
        "<a/>",
        Status::Refused,
        "refused S malformed at 79\n",
    ),
    (GOOD, "<a", Status::Refused, "refused D malformed at 2\n"),
];

#[test]
fn rules_are_chosen_and_instructions_run(rt: HostRuntime) -> Result<(), Fail> {
    for row in &ROWS {
        let (rules, document) = (row.0, row.1);
        assert!(rt; answers(rt.alloc(), row)?, "{rules} {document}");
    }
    Ok(())
}

const A: Text<'static> = &[Once("<a/>")];

/// Limits of stylesheets.
static LIMITS: [Case<'static>; 8] = [
    Case {
        what: "tests nest 1,999 deep",
        words: RUN,
        files: &[
            (
                "S",
                &[
                    FRONT,
                    Once("<xsl:template match='/'><xsl:if test='"),
                    Times("(", 1_999),
                    Once("true()"),
                    Times(")", 1_999),
                    Once("'><r/></xsl:if></xsl:template>"),
                    BACK,
                ],
            ),
            ("D", A),
        ],
        status: Status::Yes,
        text: &[Once("<r/>\n")],
    },
    Case {
        what: "tests nest 2,001 deep",
        words: RUN,
        files: &[
            (
                "S",
                &[
                    FRONT,
                    Once("<xsl:template match='/'><xsl:if test='"),
                    Times("(", 2_001),
                    Once("true()"),
                    Times(")", 2_001),
                    Once("'><r/></xsl:if></xsl:template>"),
                    BACK,
                ],
            ),
            ("D", A),
        ],
        status: Status::Refused,
        text: &[Once("refused S too-deep at 111\n")],
    },
    Case {
        what: "seven predicates",
        words: RUN,
        files: &[
            (
                "S",
                &[
                    FRONT,
                    Each("<xsl:template match='a[p#]'><x/></xsl:template>", 0, 6),
                    BACK,
                ],
            ),
            ("D", A),
        ],
        status: Status::Limit,
        text: &[Once("limit predicates 6\n")],
    },
    Case {
        what: "a limit waits until the document was read",
        words: RUN,
        files: &[
            (
                "S",
                &[
                    FRONT,
                    Each("<xsl:template match='a[p#]'><x/></xsl:template>", 0, 6),
                    BACK,
                ],
            ),
            ("D", &[Once("<a")]),
        ],
        status: Status::Refused,
        text: &[Once("refused D malformed at 2\n")],
    },
    Case {
        what: "64 steps of a pattern",
        words: RUN,
        files: &[
            (
                "S",
                &[
                    FRONT,
                    Once("<xsl:template match='a"),
                    Times("/a", 63),
                    Once("'><x/></xsl:template>"),
                    BACK,
                ],
            ),
            ("D", A),
        ],
        status: Status::Yes,
        text: &[Once("\n")],
    },
    Case {
        what: "65 steps of a pattern",
        words: RUN,
        files: &[
            (
                "S",
                &[
                    FRONT,
                    Once("<xsl:template match='a"),
                    Times("/a", 64),
                    Once("'><x/></xsl:template>"),
                    BACK,
                ],
            ),
            ("D", A),
        ],
        status: Status::Limit,
        text: &[Once("limit ancestors 64\n")],
    },
    Case {
        what: "1,022 names",
        words: RUN,
        files: &[
            (
                "S",
                &[
                    FRONT,
                    Once("<xsl:template match='/'>"),
                    Each("<n#/>", 0, 1_021),
                    Once("</xsl:template>"),
                    BACK,
                ],
            ),
            ("D", A),
        ],
        status: Status::Yes,
        text: &[Each("<n#/>", 0, 1_021), Once("\n")],
    },
    Case {
        what: "1,023 names",
        words: RUN,
        files: &[
            (
                "S",
                &[
                    FRONT,
                    Once("<xsl:template match='/'>"),
                    Each("<n#/>", 0, 1_022),
                    Once("</xsl:template>"),
                    BACK,
                ],
            ),
            ("D", A),
        ],
        status: Status::Limit,
        text: &[Once("limit symbols 1024\n")],
    },
];

#[test]
fn depth_predicates_ancestors_and_symbols_are_limited(rt: HostRuntime) -> Result<(), Fail> {
    assert_cases(&rt, rt.alloc(), &LIMITS)
}

/// The doubling of elements within one another.
static WORK: [Case<'static>; 2] = [
    Case {
        what: "a million elements of a result",
        words: RUN,
        files: &[
            ("S", &[FRONT, Once(DOUBLING), BACK]),
            ("D", &[Times("<a>", 20), Times("</a>", 20)]),
        ],
        status: Status::Yes,
        text: &[Once("<r>"), Times("<x/>", 1_048_575), Once("</r>\n")],
    },
    Case {
        what: "two million elements of a result",
        words: RUN,
        files: &[
            ("S", &[FRONT, Once(DOUBLING), BACK]),
            ("D", &[Times("<a>", 21), Times("</a>", 21)]),
        ],
        status: Status::Limit,
        text: &[Once("limit work 4000000\n")],
    },
];

const OPENING: &str =
    "<xsl:template match='a'><x><x><x><xsl:apply-templates/></x></x></x></xsl:template>";

/// Rules for the root that go on within three elements and within four. With the first, 1,599 elements of the document have open the
/// body and the four instructions of the root's rule, and five of each of theirs: 8,000.
const WITHIN_THREE: &str =
    "<xsl:template match='/'><r><r><r><xsl:apply-templates/></r></r></r></xsl:template>";

const WITHIN_FOUR: &str =
    "<xsl:template match='/'><r><r><r><r><xsl:apply-templates/></r></r></r></r></xsl:template>";

/// A rule that goes on within three elements, and one that goes on within 1,990.
static OPEN: [Case<'static>; 7] = [
    Case {
        what: "many bodies are open",
        words: RUN,
        files: &[
            ("S", &[FRONT, Once(OPENING), BACK]),
            ("D", &[Times("<a>", 1_599), Times("</a>", 1_599)]),
        ],
        status: Status::Yes,
        text: &[
            Times("<x>", 4_796),
            Once("<x/>"),
            Times("</x>", 4_796),
            Once("\n"),
        ],
    },
    Case {
        what: "as many bodies and instructions are open as may be",
        words: RUN,
        files: &[
            ("S", &[FRONT, Once(OPENING), Once(WITHIN_THREE), BACK]),
            ("D", &[Times("<a>", 1_599), Times("</a>", 1_599)]),
        ],
        status: Status::Yes,
        text: &[
            Once("<r><r><r>"),
            Times("<x>", 4_796),
            Once("<x/>"),
            Times("</x>", 4_796),
            Once("</r></r></r>\n"),
        ],
    },
    Case {
        what: "one instruction more is open, which selects nothing",
        words: RUN,
        files: &[
            ("S", &[FRONT, Once(OPENING), Once(WITHIN_FOUR), BACK]),
            ("D", &[Times("<a>", 1_599), Times("</a>", 1_599)]),
        ],
        status: Status::Limit,
        text: &[Once("limit open 8000\n")],
    },
    Case {
        what: "too many bodies are open",
        words: RUN,
        files: &[
            ("S", &[FRONT, Once(OPENING), BACK]),
            ("D", &[Times("<a>", 1_600), Times("</a>", 1_600)]),
        ],
        status: Status::Limit,
        text: &[Once("limit open 8000\n")],
    },
    Case {
        what: "many more bodies are open",
        words: RUN,
        files: &[
            ("S", &[FRONT, Once(OPENING), BACK]),
            ("D", &[Times("<a>", 2_000), Times("</a>", 2_000)]),
        ],
        status: Status::Limit,
        text: &[Once("limit open 8000\n")],
    },
    Case {
        what: "many elements of a result are open",
        words: RUN,
        files: &[
            (
                "S",
                &[
                    FRONT,
                    Once("<xsl:template match='a'>"),
                    Times("<x>", 1_990),
                    Once("<xsl:apply-templates/>"),
                    Times("</x>", 1_990),
                    Once("</xsl:template>"),
                    BACK,
                ],
            ),
            ("D", &[Times("<a>", 4), Times("</a>", 4)]),
        ],
        status: Status::Yes,
        text: &[
            Times("<x>", 7_959),
            Once("<x/>"),
            Times("</x>", 7_959),
            Once("\n"),
        ],
    },
    Case {
        what: "too many elements of a result are open",
        words: RUN,
        files: &[
            (
                "S",
                &[
                    FRONT,
                    Once("<xsl:template match='a'>"),
                    Times("<x>", 1_990),
                    Once("<xsl:apply-templates/>"),
                    Times("</x>", 1_990),
                    Once("</xsl:template>"),
                    BACK,
                ],
            ),
            ("D", &[Times("<a>", 5), Times("</a>", 5)]),
        ],
        status: Status::Limit,
        text: &[Once("limit open 8000\n")],
    },
];

const D_IN_A: Text<'static> = &[Once("<a><d/></a>")];

/// Tests, predicates and instructions as deep as they may stand, which are asked and run, and a result whose every level has
/// texts that are joined.
static DEEP: [Case<'static>; 4] = [
    Case {
        what: "a test in 2,000 parentheses holds",
        words: RUN,
        files: &[
            (
                "S",
                &[
                    FRONT,
                    Once("<xsl:template match='a'><xsl:if test='"),
                    Times("c or d and not(", 2_000),
                    Once("d"),
                    Times(")", 2_000),
                    Once("'><x/></xsl:if></xsl:template>"),
                    BACK,
                ],
            ),
            ("D", D_IN_A),
        ],
        status: Status::Yes,
        text: &[Once("<x/>\n")],
    },
    Case {
        what: "a predicate in 1,999 parentheses holds",
        words: RUN,
        files: &[
            (
                "S",
                &[
                    FRONT,
                    Once("<xsl:template match='a["),
                    Times("c or d and not(", 1_999),
                    Once("c"),
                    Times(")", 1_999),
                    Once("]'><x/></xsl:template>"),
                    BACK,
                ],
            ),
            ("D", D_IN_A),
        ],
        status: Status::Yes,
        text: &[Once("<x/>\n")],
    },
    Case {
        what: "1,996 copies around such a test",
        words: RUN,
        files: &[
            (
                "S",
                &[
                    FRONT,
                    Once("<xsl:template match='a'>"),
                    Times("<xsl:copy>", 1_996),
                    Once("<xsl:if test='"),
                    Times("c or d and not(", 2_000),
                    Once("d"),
                    Times(")", 2_000),
                    Once("'><x/></xsl:if>"),
                    Times("</xsl:copy>", 1_996),
                    Once("</xsl:template>"),
                    BACK,
                ],
            ),
            ("D", D_IN_A),
        ],
        status: Status::Yes,
        text: &[
            Times("<a>", 1_996),
            Once("<x/>"),
            Times("</a>", 1_996),
            Once("\n"),
        ],
    },
    Case {
        what: "many elements of a result are open, each with texts that are joined",
        words: RUN,
        files: &[
            (
                "S",
                &[
                    FRONT,
                    Once("<xsl:template match='a'>"),
                    Times("<x>s<xsl:text>t</xsl:text>", 1_990),
                    Once("<xsl:apply-templates/>"),
                    Times("</x>", 1_990),
                    Once("</xsl:template>"),
                    BACK,
                ],
            ),
            ("D", &[Times("<a>", 4), Times("</a>", 4)]),
        ],
        status: Status::Yes,
        text: &[Times("<x>st", 7_960), Times("</x>", 7_960), Once("\n")],
    },
];

#[test]
fn work_and_open_bodies_and_elements_are_limited(rt: HostRuntime) -> Result<(), Fail> {
    assert_cases(&rt, rt.alloc(), &WORK)?;
    assert_cases(&rt, rt.alloc(), &OPEN)?;
    assert_cases(&rt, rt.alloc(), &DEEP)
}
