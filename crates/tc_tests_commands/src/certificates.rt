// Tests of `prove`, `verify` and `upgrade`.
use crate::commands::Part::{Each, Once, Times};
use crate::commands::{
    BACK, Case, FRONT, Text, assert_cases, command_answers, status_of, store_answers, store_of,
    text_of, written,
};
use std::alloc::Global;
use std::test::Fail;
use tc_base::NoMemory;
use tc_io::MemStore;
use tc_top::Status;

const PROVE: &[&str] = &["prove", "I", "O", "S"];

const VERIFY: &[&str] = &["verify", "I", "O", "S", "C"];

const UPGRADE: &[&str] = &["upgrade", "C"];

/// The results of all `b` below an `a`, in an `r`.
const PARTS: &str =
    "<xsl:template match=\"/\"><r><xsl:apply-templates select=\"a/b\"/></r></xsl:template>\
    <xsl:template match=\"b\"><x/></xsl:template>";

const ANY_B: &str = "element a{element b{empty}*}";

const ANY_X: &str = "element r{element x{empty}*}";

const SOME_X: &str = "element r{element x{empty}+}";

/// The certificate of [`PARTS`] between [`ANY_B`] and [`ANY_X`], each row written whole.
const WHOLE: &str = "xslt-typecheck certificate 1\n\
    outputs 2\n\
    m 0>0 1>1 2>2 3>3 4>4\n\
    m 2>3 3>3\n\
    trees 3\n\
    t 0 0 1 0,0,0 -\n\
    t 0 0 1 1,1,0 -\n\
    t 0 0 2 1,0,1 -\n\
    hedges 2\n\
    h 0 0 0,2 0,0,0 -\n\
    h 0 0 1 1,0,1 -\n\
    end\n";

/// The same certificate, rows written as changes of those before.
pub(crate) const CHANGES: &str = "xslt-typecheck certificate 2\n\
    outputs 2\n\
    m 0>0 1>1 2>2 3>3 4>4\n\
    m 2>3 3>3\n\
    trees 3\n\
    t 0 0 1 0,0,0 -\n\
    T 0 0 1 0:1,1:1 -\n\
    T 0 0 2 1:0,2:1 -\n\
    hedges 2\n\
    h 0 0 0,2 0,0,0 -\n\
    H 0 0 1 0:1,2:1 -\n\
    end\n";

/// The stylesheet of [`PARTS`].
const SHEET: &[u8] =
    b"<xsl:stylesheet version=\"1.0\" xmlns:xsl=\"http://www.w3.org/1999/XSL/Transform\">\
    <xsl:template match=\"/\"><r><xsl:apply-templates select=\"a/b\"/></r></xsl:template>\
    <xsl:template match=\"b\"><x/></xsl:template></xsl:stylesheet>";

/// Whether each of these commands writes this text of a certificate of [`PARTS`] between [`ANY_B`] and [`ANY_X`].
fn all_write(
    alloc: Global,
    commands: &[&[&str]],
    certificate: &[u8],
    text: &str,
) -> Result<bool, NoMemory> {
    let files = [
        ("I", ANY_B.as_bytes()),
        ("O", ANY_X.as_bytes()),
        ("S", SHEET),
        ("C", certificate),
    ];
    for words in commands {
        if !command_answers(alloc, words, &files, status_of(text), text)? {
            return Ok(false);
        }
    }
    Ok(true)
}

/// The number of a line, from 1, and what stands in its place, with its own line feed where it has any.
type Line<'t> = (usize, &'t str);

/// What stands in the place of the line of this number.
fn in_place<'t>(lines: &[Line<'t>], number: usize) -> Option<&'t str> {
    for (place, other) in lines {
        if *place == number {
            return Some(*other);
        }
    }
    None
}

/// A text some of whose lines are replaced.
fn with_lines(alloc: Global, text: &str, lines: &[Line<'_>]) -> Result<String, NoMemory> {
    let mut changed = String::new(alloc);
    let mut number = 0usize;
    for line in text.lines() {
        number = number.saturating_add(1);
        if let Some(other) = in_place(lines, number) {
            changed.push_str(other)?;
        } else {
            changed.push_str(line)?;
            changed.push_str("\n")?;
        }
    }
    Ok(changed)
}

/// Commands, a certificate, the lines of it that are replaced, and what is written.
type Row<'t> = (&'t [&'t [&'t str]], &'t str, &'t [Line<'t>], &'t str);

const BOTH: &[&[&str]] = &[VERIFY, UPGRADE];

/// Certificates of [`PARTS`], some with lines replaced, and what is written.
static ROWS: [Row<'static>; 29] = [
    // a certificate is proved, verified and written anew
    (&[PROVE], "", &[], CHANGES),
    (&[VERIFY], WHOLE, &[], "accepted\n"),
    (&[UPGRADE], WHOLE, &[], CHANGES),
    (&[VERIFY], CHANGES, &[], "accepted\n"),
    (&[UPGRADE], CHANGES, &[], CHANGES),
    // rows that lack are told
    (
        &[VERIFY],
        WHOLE,
        &[(5, "trees 2\n"), (8, "")],
        "rejected 9 wrap b\n",
    ),
    (
        &[VERIFY],
        WHOLE,
        &[(9, "hedges 1\n"), (10, "")],
        "rejected 0 empty\n",
    ),
    (
        &[VERIFY],
        WHOLE,
        &[(9, "hedges 1\n"), (11, "")],
        "rejected 10 append 8\n",
    ),
    (
        &[VERIFY],
        WHOLE,
        &[(5, "trees 4\n"), (6, "t 0 0 1 0,0,0 -\nt 0 0 1 1,0,1 -\n")],
        "accepted\n",
    ),
    // the first line that is wrong is told
    (&[VERIFY], WHOLE, &[(4, "m 2>5 3>3\n")], "rejected 4 fit\n"),
    (&[VERIFY], WHOLE, &[(12, "")], "rejected 12 form\n"),
    (&[VERIFY], WHOLE, &[(12, "end")], "rejected 12 form\n"),
    (&[VERIFY], WHOLE, &[(12, "end\ne")], "rejected 13 form\n"),
    (
        &[VERIFY],
        WHOLE,
        &[(1, "xslt-typecheck certificate 1\r\n")],
        "rejected 1 form\n",
    ),
    (
        &[VERIFY],
        WHOLE,
        &[(2, "outputs 02\n")],
        "rejected 2 form\n",
    ),
    (
        &[VERIFY],
        WHOLE,
        &[(2, "outputs 65537\n")],
        "rejected 2 form\n",
    ),
    (&[VERIFY], WHOLE, &[(2, "outputs 1\n")], "rejected 4 form\n"),
    (&[VERIFY], WHOLE, &[(2, "outputs 3\n")], "rejected 5 form\n"),
    (
        &[VERIFY],
        WHOLE,
        &[(6, "t 0 0 1 0,0,4294967295 -\n")],
        "rejected 6 fit\n",
    ),
    (
        &[VERIFY],
        WHOLE,
        &[(6, "t 0 0 1 0,0,4294967296 -\n")],
        "rejected 6 form\n",
    ),
    (
        &[VERIFY],
        WHOLE,
        &[(6, "t 0 0 1 0,0 -\n")],
        "rejected 6 fit\n",
    ),
    (
        &[VERIFY],
        WHOLE,
        &[(6, "t 0 0 0 0,0,0 -\n")],
        "rejected 6 fit\n",
    ),
    (
        &[VERIFY],
        WHOLE,
        &[(6, "t 0 0 2,1 0,0,0 -\n")],
        "rejected 6 form\n",
    ),
    (
        &[VERIFY],
        WHOLE,
        &[(6, "t 0 0 - 0,0,0 -\n")],
        "rejected 10 wrap a\n",
    ),
    // lines of outputs come in order
    (
        &[VERIFY],
        WHOLE,
        &[(3, "m 2>3 3>3\n"), (4, "m 0>0 1>1 2>2 3>3 4>4\n")],
        "rejected 4 form\n",
    ),
    // nothing is no certificate
    (BOTH, "", &[], "rejected 1 form\n"),
    // changes are those of the row before
    (
        BOTH,
        CHANGES,
        &[(7, "T 0 0 1 0:0,1:1 -\n")],
        "rejected 7 form\n",
    ),
    (
        BOTH,
        CHANGES,
        &[(7, "t 0 0 1 1,1,0 -\n")],
        "rejected 7 form\n",
    ),
    (BOTH, CHANGES, &[(6, "T 0 0 1 - -\n")], "rejected 6 form\n"),
];

/// Whether a certificate with some lines replaced is answered so.
fn row_writes(alloc: Global, row: &Row<'_>) -> Result<bool, NoMemory> {
    let (commands, certificate, lines, text) = row;
    let changed = with_lines(alloc, certificate, lines)?;
    all_write(alloc, commands, changed.as_bytes(), text)
}

#[test]
fn certificates_are_proved_verified_and_written_anew(rt: HostRuntime) -> Result<(), Fail> {
    for row in &ROWS {
        let (lines, text) = (row.2, row.3);
        assert!(rt; row_writes(rt.alloc(), row)?, "{lines:?} {text}");
    }
    Ok(())
}

/// Whether of nothing, of the first byte, and so on up to all but the last line feed of a certificate, `verify` tells the line
/// that isn't whole.
fn fronts_lack_their_next_line(alloc: Global, certificate: &str) -> Result<bool, Fail> {
    let bytes = certificate.as_bytes();
    let mut line = 1u32;
    for end in 0..bytes.len() {
        let text = format!(in alloc; "rejected {line} form\n")?;
        if !all_write(alloc, &[VERIFY], &bytes[..end], text.as_str())? {
            return Ok(false);
        }
        if bytes[end] == b'\n' {
            line = line.saturating_add(1);
        }
    }
    Ok(true)
}

/// The same certificate in both versions.
static VERSIONS: [&str; 2] = [WHOLE, CHANGES];

#[test]
fn fronts_of_both_versions_lack_their_next_line(rt: HostRuntime) -> Result<(), Fail> {
    for certificate in &VERSIONS {
        assert!(rt;
            fronts_lack_their_next_line(rt.alloc(), certificate)?,
            "{certificate}"
        );
    }
    Ok(())
}

const B: Text<'static> = &[Once(ANY_B)];

const X: Text<'static> = &[Once(ANY_X)];

const S: Text<'static> = &[FRONT, Once(PARTS), BACK];

const BROKEN: Text<'static> = &[Once("element a{")];

/// What is asked of other files.
static FILES: [Case<'static>; 9] = [
    Case {
        what: "what is unsafe is not verified",
        words: VERIFY,
        files: &[
            ("I", B),
            ("O", &[Once(SOME_X)]),
            ("S", S),
            ("C", &[Once(WHOLE)]),
        ],
        status: Status::No,
        text: &[Once("rejected 6 root\n")],
    },
    Case {
        what: "what is unsafe is not proved",
        words: PROVE,
        files: &[("I", B), ("O", &[Once(SOME_X)]), ("S", S)],
        status: Status::No,
        text: &[Once("unsafe\ndocument <a/>\noutput <r/>\n")],
    },
    Case {
        what: "a schema is refused before the certificate",
        words: VERIFY,
        files: &[("I", BROKEN), ("O", X), ("S", S), ("C", &[])],
        status: Status::Refused,
        text: &[Once("refused I malformed at 10\n")],
    },
    Case {
        what: "all is read before anything is told by verify",
        words: VERIFY,
        files: &[("I", BROKEN), ("O", X), ("S", S)],
        status: Status::ReadFault,
        text: &[Once("cannot read C\n")],
    },
    Case {
        what: "all is read before anything is told by upgrade",
        words: UPGRADE,
        files: &[("I", BROKEN), ("O", X), ("S", S)],
        status: Status::ReadFault,
        text: &[Once("cannot read C\n")],
    },
    Case {
        what: "a text that may stand is asked for",
        words: VERIFY,
        files: &[
            ("I", &[Once("element a{text}")]),
            ("O", &[Once("element r{element x{empty}?}")]),
            (
                "S",
                &[
                    FRONT,
                    Once("<xsl:template match=\"/\"><r><xsl:apply-templates/></r></xsl:template>"),
                    Once("<xsl:template match=\"text()\"><x/></xsl:template>"),
                    BACK,
                ],
            ),
            (
                "C",
                &[
                    Once("xslt-typecheck certificate 1\n"),
                    Once("outputs 2\nm 0>0 1>1 2>2 3>3 4>4\nm 2>3\n"),
                    Once("trees 2\nt 0 0 1 0 -\nt 0 1 1 1 -\n"),
                    Once("hedges 2\nh 0 0 0 0 -\nh 1 1 1 1 -\nend\n"),
                ],
            ),
        ],
        status: Status::No,
        text: &[Once("rejected 0 text\n")],
    },
    Case {
        what: "names that nothing mentions are asked for",
        words: VERIFY,
        files: &[
            ("I", &[Once("element *{empty}")]),
            ("O", &[Once("element *{empty}")]),
            (
                "S",
                &[
                    FRONT,
                    Once(
                        "<xsl:template match=\"*\"><xsl:copy><xsl:apply-templates/></xsl:copy></xsl:template>",
                    ),
                    BACK,
                ],
            ),
            (
                "C",
                &[
                    Once("xslt-typecheck certificate 1\n"),
                    Once("outputs 2\nm 0>0 1>1 2>2\nm 0>1\n"),
                    Once("trees 0\nhedges 1\nh 0 0 0 0 -\nend\n"),
                ],
            ),
        ],
        status: Status::No,
        text: &[Once("rejected 7 wrap {urn:n}n\n")],
    },
    // an `r` with so many `x` has a state before and behind each of them, one of what stands in an `x`, two of the root
    Case {
        what: "an output has states enough",
        words: VERIFY,
        files: &[
            ("I", B),
            (
                "O",
                &[
                    Once("x = element x{empty} start = element r{x"),
                    Times(",x", 251),
                    Once("}"),
                ],
            ),
            ("S", S),
            ("C", &[]),
        ],
        status: Status::No,
        text: &[Once("rejected 1 form\n")],
    },
    Case {
        what: "limits of schemas come before the certificate",
        words: VERIFY,
        files: &[
            ("I", B),
            (
                "O",
                &[
                    Once("x = element x{empty} start = element r{x"),
                    Times(",x", 259),
                    Once("}"),
                ],
            ),
            ("S", S),
            ("C", &[]),
        ],
        status: Status::Limit,
        text: &[Once("limit states 256\n")],
    },
];

/// Two megabytes whose rows, written whole, would take eight gigabytes: a row of a million zeros, and rows of trees of version 2,
/// each but for one number like the one before.
const UNFOLDING: Text<'static> = &[
    Once("xslt-typecheck certificate 2\noutputs 0\ntrees 4000\nt 0 0 10000 0"),
    Times(",0", 999_999),
    Once(" -\n"),
    Each("T 0 0 # - -\n", 10_001, 13_999),
    Once("hedges 0\nend\n"),
];

/// Two rows of trees with 5,684,991 numbers each, of which none is that of the other row.
const ZEROS_AND_ONES: Text<'static> = &[
    Once("xslt-typecheck certificate 1\noutputs 0\ntrees 2\nt 0 0 10 0"),
    Times(",0", 5_684_990),
    Once(" -\nt 0 0 10 1"),
    Times(",1", 5_684_990),
    Once(" -\nhedges 0\nend\n"),
];

/// The same in version 2, which tells the place of each number of the second row: 67,108,864 bytes. The zeros of the first row and
/// their commas have 11,369,980, `,#:1` without its place 17,054,970, the places from 1 have 9 + 2 * 90 + .. + 6 * 900,000 +
/// 7 * 4,684,991 = 38,683,826, and what is left 88.
const LONGEST: Text<'static> = &[
    Once("xslt-typecheck certificate 2\noutputs 0\ntrees 2\nt 0 0 10 0"),
    Times(",0", 5_684_990),
    Once(" -\nT 0 0 10 0:1"),
    Each(",#:1", 1, 5_684_990),
    Once(" -\nhedges 0\nend\n"),
];

/// The rows again, with one byte more in either version: the element pattern 100 in place of 10.
const TOO_LONG: Text<'static> = &[
    Once("xslt-typecheck certificate 1\noutputs 0\ntrees 2\nt 0 0 10 0"),
    Times(",0", 5_684_990),
    Once(" -\nt 0 0 100 1"),
    Times(",1", 5_684_990),
    Once(" -\nhedges 0\nend\n"),
];

/// Any number of times 51 `b`.
const MANY_B: Text<'static> = &[
    Once("b = element b{empty} start = element a{(b"),
    Times(",b", 50),
    Once(")*}"),
];

/// Any number of times 47 `x`, or any number of `x`.
const MANY_X: Text<'static> = &[
    Once("x = element x{empty} start = element r{(x"),
    Times(",x", 46),
    Once(")*|x*}"),
];

/// Large certificates and triples of many rows.
static LARGE: [Case<'static>; 5] = [
    Case {
        what: "rows are not unfolded before they fit",
        words: VERIFY,
        files: &[("I", B), ("O", X), ("S", S), ("C", UNFOLDING)],
        status: Status::No,
        text: &[Once("rejected 4 fit\n")],
    },
    Case {
        what: "rows are not unfolded to be written anew",
        words: UPGRADE,
        files: &[("I", B), ("O", X), ("S", S), ("C", UNFOLDING)],
        status: Status::Yes,
        text: UNFOLDING,
    },
    Case {
        what: "a text of the greatest length is written anew",
        words: UPGRADE,
        files: &[("C", ZEROS_AND_ONES)],
        status: Status::Yes,
        text: LONGEST,
    },
    Case {
        what: "a longer one is not",
        words: UPGRADE,
        files: &[("C", TOO_LONG)],
        status: Status::Limit,
        text: &[Once("limit certificate 67108864\n")],
    },
    Case {
        what: "many rows pass the limit",
        words: PROVE,
        files: &[("I", MANY_B), ("O", MANY_X), ("S", S)],
        status: Status::Limit,
        text: &[Once("limit hedges 2000\n")],
    },
];

#[test]
fn files_are_asked_and_rows_are_limited_and_not_unfolded(rt: HostRuntime) -> Result<(), Fail> {
    assert_cases(&rt, rt.alloc(), &FILES)?;
    assert_cases(&rt, rt.alloc(), &LARGE)
}

/// A store with a triple of many rows.
fn store_of_many(alloc: Global) -> Result<MemStore, Fail> {
    let input = text_of(alloc, MANY_B)?;
    let output = text_of(alloc, MANY_X)?;
    let files = [
        ("I", input.as_bytes()),
        ("O", output.as_bytes()),
        ("S", SHEET),
    ];
    let store = store_of(alloc, &files)?;
    Ok(store)
}

/// Whether `verify` accepts a certificate of a store's triple.
fn is_accepted(alloc: Global, store: &mut MemStore, certificate: &[u8]) -> Result<bool, NoMemory> {
    store.put("C", certificate)?;
    store_answers(alloc, VERIFY, store, Status::Yes, "accepted\n")
}

/// The status of `prove` on a store where its limit is the highest, how long its certificate is, and whether `verify` accepts it.
fn proved(alloc: Global, store: &mut MemStore) -> Result<(Status, usize, bool), NoMemory> {
    let most = &["prove", "--limit", "4000", "I", "O", "S"];
    let (status, sink) = written(alloc, most, store, 100_000)?;
    let accepted = is_accepted(alloc, store, sink.bytes())?;
    Ok((status, sink.bytes().len(), accepted))
}

/// The same of the triple of many rows.
fn proved_of_many(alloc: Global) -> Result<(Status, usize, bool), Fail> {
    let mut store = store_of_many(alloc)?;
    let proof = proved(alloc, &mut store)?;
    Ok(proof)
}

#[test]
fn no_limit_on_rows_is_tried_of_a_certificate(rt: HostRuntime) -> Result<(), Fail> {
    let (status, length, accepted) = proved_of_many(rt.alloc())?;
    assert_eq!(rt; status, Status::Yes);
    assert_eq!(rt; length, 63_908);
    assert!(rt; accepted);
    Ok(())
}
