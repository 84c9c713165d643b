// Tests of declarations of elements in a schema's place.
use crate::commands::Part::{Each, Once, Times};
use crate::commands::{Case, Text, assert_cases, assert_usage, command_answers, status_of};
use std::alloc::Global;
use std::test::Fail;
use tc_base::NoMemory;
use tc_top::Status;

/// An `a` with any number of `b`.
const ANY_B: &str = "<!ELEMENT a (b*)><!ELEMENT b EMPTY>";

const ANY_X: &str = "element r{element x{empty}*}";

/// The results of all `b` below an `a`, in an `r`.
const PARTS: &str =
    "<xsl:stylesheet version=\"1.0\" xmlns:xsl=\"http://www.w3.org/1999/XSL/Transform\">\
    <xsl:template match=\"/\"><r><xsl:apply-templates select=\"a/b\"/></r></xsl:template>\
    <xsl:template match=\"b\"><x/></xsl:template></xsl:stylesheet>";

/// Whether `valid`, of this word for declarations in the file `G` and of this document, writes this text, with its status.
fn validates(
    alloc: Global,
    word: &str,
    declarations: &str,
    document: &str,
    text: &str,
) -> Result<bool, NoMemory> {
    let files = [("G", declarations.as_bytes()), ("D", document.as_bytes())];
    command_answers(alloc, &["valid", word, "D"], &files, status_of(text), text)
}

/// Words, declarations, documents, and what is written.
static DOCUMENTS: [(&str, &str, &str, &str); 20] = [
    ("dtd:a:G", ANY_B, "<a><b/></a>", "valid\n"),
    ("dtd:b:G", ANY_B, "<a><b/></a>", "invalid\n"),
    ("dtd:b:G", ANY_B, "<b/>", "valid\n"),
    ("dtd:z:G", ANY_B, "<z/>", "invalid\n"),
    (
        "dtd:a:G",
        "<!ELEMENT a (#PCDATA|b)*><!ATTLIST a k CDATA \">\"><!ELEMENT b ANY>",
        "<a k=\"1\">t<b><a/>t</b></a>",
        "valid\n",
    ),
    (
        "dtd:a:G",
        "<!ELEMENT a EMPTY>",
        "<x:a xmlns:x=\"u\"/>",
        "invalid\n",
    ),
    ("dtd:a:G", "<!ELEMENT a EMPTY>", "<a> </a>", "valid\n"),
    ("dtd:a:G", "<!ELEMENT a EMPTY>", "<a>t</a>", "invalid\n"),
    ("dtd:a:G", "<!ELEMENT a (z)>", "<a><z/></a>", "invalid\n"),
    (
        "dtd:a:G",
        "<!ELEMENT a (b+)><!ELEMENT b EMPTY>",
        "<a/>",
        "invalid\n",
    ),
    (
        "dtd:a:G",
        "<!ELEMENT a (b?,c)><!ELEMENT b EMPTY><!ELEMENT c (#PCDATA)>",
        "<a><c>t</c></a>",
        "valid\n",
    ),
    (
        "dtd:a:G",
        "<!ELEMENT a (b,c)><!ELEMENT b EMPTY><!ELEMENT c EMPTY>",
        "<a><c/><b/></a>",
        "invalid\n",
    ),
    (
        "dtd:a:G",
        "<!ELEMENT a (#PCDATA|b|c|b)*><!ELEMENT b EMPTY><!ELEMENT c EMPTY>",
        "<a><c/>t<b/></a>",
        "valid\n",
    ),
    (
        "dtd:a:G",
        "<!ELEMENT a ((b,b)|(b,c))><!ELEMENT b EMPTY><!ELEMENT c EMPTY>",
        "<a><b/><c/></a>",
        "valid\n",
    ),
    // declarations are refused by the whole word, before the document
    (
        "dtd:a:G",
        "<!ELEMENT a (b,c|d)>",
        "<a/>",
        "refused dtd:a:G malformed at 16\n",
    ),
    (
        "dtd:a:G",
        "<!ELEMENT a EMPTY><!ELEMENT a EMPTY>",
        "<a/>",
        "refused dtd:a:G twice at 18\n",
    ),
    (
        "dtd:a:G",
        "<!ENTITY % x \"b\">",
        "<a/>",
        "refused dtd:a:G unsupported parameter-entity at 9\n",
    ),
    (
        "dtd:a:G",
        "<![INCLUDE[]]>",
        "<a/>",
        "refused dtd:a:G unsupported conditional-section at 0\n",
    ),
    (
        "dtd:a:G",
        "<!ELEMENT a:b EMPTY>",
        "<a/>",
        "refused dtd:a:G unsupported qualified-name at 11\n",
    ),
    ("dtd:a:G", "", "<a", "refused D malformed at 2\n"),
];

#[test]
fn documents_are_valid_for_declarations(rt: HostRuntime) -> Result<(), Fail> {
    for (word, declarations, document, text) in &DOCUMENTS {
        assert!(rt;
            validates(rt.alloc(), word, declarations, document, text)?,
            "{word} {declarations} {document}"
        );
    }
    Ok(())
}

/// Words that are none for declarations, in the place of the schema and of the second one.
static WRONG: [&[&str]; 12] = [
    &["valid", "dtd:", "D"],
    &["include", "G", "dtd:"],
    &["valid", "dtd:a", "D"],
    &["include", "G", "dtd:a"],
    &["valid", "dtd:a:", "D"],
    &["include", "G", "dtd:a:"],
    &["valid", "dtd:1:G", "D"],
    &["include", "G", "dtd:1:G"],
    &["valid", "dtd::G", "D"],
    &["include", "G", "dtd::G"],
    &["valid", "dtd:a b:G", "D"],
    &["include", "G", "dtd:a b:G"],
];

#[test]
fn words_name_an_element_and_a_file(rt: HostRuntime) -> Result<(), Fail> {
    let files: [(&str, &[u8]); 2] = [("G", b"<!ELEMENT a EMPTY>"), ("D", b"<a/>")];
    assert_usage(&rt, rt.alloc(), &files, &WRONG)
}

const SAFE: &str = "safe trees 3 hedges 2 outputs 2\n";

/// The schema that [`ANY_B`] is for an `a`.
const SCHEMA: &str = "element a{element b{empty}*}";

/// Declarations in the place of each schema, and names with colons.
static DECLARED: [Case<'static>; 7] = [
    Case {
        what: "a declared input",
        words: &["check", "dtd:a:G", "O", "S"],
        files: &[
            ("G", &[Once(ANY_B)]),
            ("O", &[Once(ANY_X)]),
            ("S", &[Once(PARTS)]),
        ],
        status: Status::Yes,
        text: &[Once(SAFE)],
    },
    Case {
        what: "a declared output",
        words: &["check", "I", "dtd:r:H", "S"],
        files: &[
            ("I", &[Once(SCHEMA)]),
            ("H", &[Once("<!ELEMENT r (x)*><!ELEMENT x EMPTY>")]),
            ("S", &[Once(PARTS)]),
        ],
        status: Status::Yes,
        text: &[Once(SAFE)],
    },
    Case {
        what: "the same as a schema",
        words: &["same", "dtd:a:G", "J"],
        files: &[("G", &[Once(ANY_B)]), ("J", &[Once(SCHEMA)])],
        status: Status::Yes,
        text: &[Once("same\n")],
    },
    Case {
        what: "another element than a schema's",
        words: &["same", "dtd:b:G", "J"],
        files: &[("G", &[Once(ANY_B)]), ("J", &[Once(SCHEMA)])],
        status: Status::No,
        text: &[Once("different\nfirst-only <b/>\n")],
    },
    Case {
        what: "a name of a file with a colon, which is missing",
        words: &["valid", "dtd:a:b:c", "D"],
        files: &[("G", &[Once("<!ELEMENT a EMPTY>")]), ("D", &[Once("<a/>")])],
        status: Status::ReadFault,
        text: &[Once("cannot read dtd:a:b:c\n")],
    },
    Case {
        what: "a name of a file with a colon",
        words: &["valid", "dtd:a:b:c", "D"],
        files: &[
            ("b:c", &[Once("<!ELEMENT a EMPTY>")]),
            ("D", &[Once("<a/>")]),
        ],
        status: Status::Yes,
        text: &[Once("valid\n")],
    },
    Case {
        what: "elsewhere such a word is the name of a file",
        words: &["run", "dtd:a:S", "D"],
        files: &[("dtd:a:S", &[Once(PARTS)]), ("D", &[Once("<a><b/></a>")])],
        status: Status::Yes,
        text: &[Once("<r><x/></r>\n")],
    },
];

/// 257 elements, each in the one before.
const CHAIN: Text<'static> = &[
    Each("<!ELEMENT e# (e~)?>", 1, 256),
    Once("<!ELEMENT e257 EMPTY>"),
];

/// A limit of the schema waits until the document was read.
static LIMITS: [Case<'static>; 7] = [
    Case {
        what: "parentheses nest 2,000 deep",
        words: &["valid", "dtd:a:G", "D"],
        files: &[
            (
                "G",
                &[
                    Once("<!ELEMENT a "),
                    Times("(", 2_000),
                    Once("b"),
                    Times(")", 2_000),
                    Once(">"),
                ],
            ),
            ("D", &[Once("<a/>")]),
        ],
        status: Status::Limit,
        text: &[Once("limit depth 2000\n")],
    },
    Case {
        what: "parentheses nest 2,001 deep",
        words: &["valid", "dtd:a:G", "D"],
        files: &[
            (
                "G",
                &[
                    Once("<!ELEMENT a "),
                    Times("(", 2_001),
                    Once("b"),
                    Times(")", 2_001),
                    Once(">"),
                ],
            ),
            ("D", &[Once("<a/>")]),
        ],
        status: Status::Refused,
        text: &[Once("refused dtd:a:G too-deep at 2012\n")],
    },
    Case {
        what: "parentheses nest 2,000 deep, and the document is refused",
        words: &["valid", "dtd:a:G", "D"],
        files: &[
            (
                "G",
                &[
                    Once("<!ELEMENT a "),
                    Times("(", 2_000),
                    Once("b"),
                    Times(")", 2_000),
                    Once(">"),
                ],
            ),
            ("D", &[Once("<a")]),
        ],
        status: Status::Refused,
        text: &[Once("refused D malformed at 2\n")],
    },
    Case {
        what: "256 elements",
        words: &["valid", "dtd:e1:G", "D"],
        files: &[
            (
                "G",
                &[
                    Each("<!ELEMENT e# (e~)?>", 1, 255),
                    Once("<!ELEMENT e256 EMPTY>"),
                ],
            ),
            ("D", &[Once("<e1/>")]),
        ],
        status: Status::Yes,
        text: &[Once("valid\n")],
    },
    Case {
        what: "257 elements",
        words: &["valid", "dtd:e1:G", "D"],
        files: &[("G", CHAIN), ("D", &[Once("<e1/>")])],
        status: Status::Limit,
        text: &[Once("limit elements 256\n")],
    },
    Case {
        what: "the last 256 of 257 elements",
        words: &["valid", "dtd:e2:G", "D"],
        files: &[("G", CHAIN), ("D", &[Once("<e2/>")])],
        status: Status::Yes,
        text: &[Once("valid\n")],
    },
    Case {
        what: "elements in each of which any may stand",
        words: &["valid", "dtd:e0:G", "D"],
        files: &[
            ("G", &[Each("<!ELEMENT e# ANY>", 0, 9_999)]),
            ("D", &[Once("<e0/>")]),
        ],
        status: Status::Limit,
        text: &[Once("limit pattern 65536\n")],
    },
];

#[test]
fn every_schema_may_be_declared_within_limits(rt: HostRuntime) -> Result<(), Fail> {
    assert_cases(&rt, rt.alloc(), &DECLARED)?;
    assert_cases(&rt, rt.alloc(), &LIMITS)
}
