// Tests of `include` and `same`.
use crate::commands::Part::{Each, Once, Times};
use crate::commands::{
    Case, OF_ELEVEN_LEVELS, OF_TEN_LEVELS, Text, assert_cases, command_answers, joined, status_of,
    store_of, ten_levels, text_of, written,
};
use std::alloc::Global;
use std::process::Abort;
use std::test::Fail;
use tc_base::NoMemory;
use tc_top::Status;

const INCLUDE: &[&str] = &["include", "A", "B"];

const SAME: &[&str] = &["same", "A", "B"];

const VALID: &[&str] = &["valid", "A", "B"];

/// Whether these words, of two texts as `A` and `B`, write this text, with its status.
fn writes(
    alloc: Global,
    words: &[&str],
    first: &str,
    second: &str,
    text: &str,
) -> Result<bool, NoMemory> {
    let files = [("A", first.as_bytes()), ("B", second.as_bytes())];
    command_answers(alloc, words, &files, status_of(text), text)
}

/// Whether these words write this document behind such a word.
fn shows(
    alloc: Global,
    words: &[&str],
    schemas: (&str, &str),
    word: &str,
    document: &str,
) -> Result<bool, NoMemory> {
    let text = joined(alloc, &[word, document, "\n"])?;
    writes(alloc, words, schemas.0, schemas.1, text.as_str())
}

/// Whether `include A B` says that the first is included in the second, whatever it counts.
fn is_included(alloc: Global, first: &str, second: &str) -> Result<bool, NoMemory> {
    let files = [("A", first.as_bytes()), ("B", second.as_bytes())];
    let mut store = store_of(alloc, &files)?;
    let (status, sink) = written(alloc, INCLUDE, &mut store, 200)?;
    Ok(status == Status::Yes && sink.bytes().starts_with(b"included trees "))
}

/// Whether `valid` finds a document valid for the first schema and not for the second, and `include` shows it.
fn tells_apart(alloc: Global, first: &str, second: &str, document: &str) -> Result<bool, NoMemory> {
    Ok(
        writes(alloc, VALID, first, document, "valid\n")?
            && writes(alloc, VALID, second, document, "invalid\n")?
            && shows(
                alloc,
                INCLUDE,
                (first, second),
                "not-included\ndocument ",
                document,
            )?,
    )
}

/// Whether `same` shows a document as one of the first schema alone, also where the schemas are exchanged.
fn same_shows(alloc: Global, first: &str, second: &str, document: &str) -> Result<bool, NoMemory> {
    Ok(
        shows(
            alloc,
            SAME,
            (first, second),
            "different\nfirst-only ",
            document,
        )? && shows(
            alloc,
            SAME,
            (second, first),
            "different\nsecond-only ",
            document,
        )?,
    )
}

/// Pairs of schemas, of which the first is included in the second and not the other way round, and the only least document
/// that shows it: one pair for each kind of pattern and of name class.
static STRICTLY_INCLUDED: [(&str, &str, &str); 19] = [
    ("element a{empty}", "element a{text}", "<a>t</a>"),
    ("start = notAllowed", "element a{empty}", "<a/>"),
    (
        "element a{notAllowed|empty}",
        "element a{element b{empty}?}",
        "<a><b/></a>",
    ),
    (
        "element a{element b{empty},element c{empty}}",
        "element a{element b{empty}?,element c{empty}}",
        "<a><c/></a>",
    ),
    (
        "element a{element b{empty},element c{empty}}",
        "element a{element b{empty}&element c{empty}}",
        "<a><c/><b/></a>",
    ),
    (
        "element a{element b{empty}}",
        "element a{element b{empty}|element c{empty}}",
        "<a><c/></a>",
    ),
    (
        "element a{element b{empty}}",
        "element a{element b{empty}+}",
        "<a><b/><b/></a>",
    ),
    (
        "element a{element b{empty}}",
        "element a{element b{empty}*}",
        "<a/>",
    ),
    (
        "element a{element b{empty}+}",
        "element a{element b{empty}*}",
        "<a/>",
    ),
    (
        "element a{element b{empty}*,element c{empty}*}",
        "element a{(element b{empty}|element c{empty})*}",
        "<a><c/><b/></a>",
    ),
    (
        "element a{element b{empty}*}",
        "element a{mixed{element b{empty}*}}",
        "<a>t</a>",
    ),
    (
        "element a{element b{text}}",
        "element a{(element b{text}|text)}",
        "<a/>",
    ),
    (
        "start = a a = element a{a?}",
        "start = a a = element a{a*}",
        "<a><a/><a/></a>",
    ),
    (
        "element a{element a{empty}?}",
        "start = a a = element a{a?}",
        "<a><a><a/></a></a>",
    ),
    (
        "element a{element b{element c{empty}},element b{empty}}",
        "element a{element b{element c{empty}?},element b{element c{empty}?}}",
        "<a><b/><b/></a>",
    ),
    ("element * - a{empty}", "element *{empty}", "<a/>"),
    ("element a{empty}", "element (a|b){empty}", "<b/>"),
    (
        "namespace q = \"u\" element q:b{empty}",
        "namespace q = \"u\" element q:*{empty}",
        "<n xmlns=\"u\"/>",
    ),
    (
        "namespace q = \"u\" element q:* - q:b{empty}",
        "namespace q = \"u\" element q:*{empty}",
        "<b xmlns=\"u\"/>",
    ),
];

/// Whether the first schema is included in the second, and the document shows in all ways that it isn't the other way round.
fn is_strictly_included(
    alloc: Global,
    smaller: &str,
    larger: &str,
    document: &str,
) -> Result<bool, NoMemory> {
    Ok(
        is_included(alloc, smaller, larger)?
            && tells_apart(alloc, larger, smaller, document)?
            && same_shows(alloc, larger, smaller, document)?,
    )
}

#[test]
fn of_two_schemas_one_is_included(rt: HostRuntime) -> Result<(), Fail> {
    for (smaller, larger, document) in &STRICTLY_INCLUDED {
        assert!(rt;
            is_strictly_included(rt.alloc(), smaller, larger, document)?,
            "{smaller} {larger} {document}"
        );
    }
    Ok(())
}

const ANY: &str = "element *{empty}";

const A_OR_ELSEWHERE: &str = "namespace q = \"\" element (a|(* - q:*)){empty}";

const A_WITH_B: &str = "element a{element b{empty}}";

const A: &str = "element a{empty}";

const B: &str = "element b{empty}";

const SMALL: &str = "element z{empty}";

/// Words, two texts, and what is written.
static WRITTEN: [(&[&str], &str, &str, &str); 19] = [
    // how many rows there are
    (
        INCLUDE,
        "element a{element b{empty}}",
        "element a{element b{empty}*}",
        "included trees 2 hedges 2\n",
    ),
    (
        INCLUDE,
        "start = notAllowed",
        "start = notAllowed",
        "included trees 0 hedges 1\n",
    ),
    (
        INCLUDE,
        "start = notAllowed",
        "element a{text}",
        "included trees 0 hedges 1\n",
    ),
    // <a/> alone; no tree
    (
        INCLUDE,
        "element a{empty}",
        "element a{text}",
        "included trees 1 hedges 1\n",
    ),
    // a text and <a/>; no tree and a text
    (
        INCLUDE,
        "element a{text}",
        "element a{text}",
        "included trees 2 hedges 2\n",
    ),
    // <a/>, <b/>; no tree, <b/>, <b/><b/> and more, which the second tells from one alone
    (
        INCLUDE,
        "element a{element b{empty}*}",
        "element a{(element b{empty},element b{empty}+)?|element b{empty}}",
        "included trees 2 hedges 3\n",
    ),
    // neither is included in the other
    (
        INCLUDE,
        ANY,
        A_OR_ELSEWHERE,
        "not-included\ndocument <n/>\n",
    ),
    (VALID, ANY, "<n/>", "valid\n"),
    (VALID, A_OR_ELSEWHERE, "<n/>", "invalid\n"),
    (INCLUDE, A_WITH_B, A, "not-included\ndocument <a><b/></a>\n"),
    (INCLUDE, A, A_WITH_B, "not-included\ndocument <a/>\n"),
    // of documents with as many nodes one of the first schema is told
    (SAME, A_WITH_B, A, "different\nsecond-only <a/>\n"),
    (SAME, A, A_WITH_B, "different\nfirst-only <a/>\n"),
    (SAME, B, A, "different\nfirst-only <b/>\n"),
    (SAME, A, B, "different\nfirst-only <a/>\n"),
    // texts are refused in order
    (
        INCLUDE,
        "start = b",
        "element a{",
        "refused A undefined at 8\n",
    ),
    (
        SAME,
        "start = b",
        "element a{",
        "refused A undefined at 8\n",
    ),
    (INCLUDE, SMALL, "start = b", "refused B undefined at 8\n"),
    (SAME, SMALL, "start = b", "refused B undefined at 8\n"),
];

#[test]
fn inclusion_and_equality_are_told(rt: HostRuntime) -> Result<(), Fail> {
    for (words, first, second, text) in &WRITTEN {
        assert!(rt;
            writes(rt.alloc(), words, first, second, text)?,
            "{words:?} {first} {second}"
        );
    }
    Ok(())
}

/// Schemas that are the same.
static ALIKE: [(&str, &str); 10] = [
    (
        "element a{element b{empty}&element c{empty}}",
        "element a{(element b{empty},element c{empty})|(element c{empty},element b{empty})}",
    ),
    ("element a{text}", "element a{text*}"),
    ("element a{notAllowed|text}", "element a{text,text}"),
    (
        "element a{mixed{element b{empty}}}",
        "element a{text,element b{empty},text}",
    ),
    (
        "element a{element b{element c{empty}?}}",
        "element a{element b{empty}}|element a{element b{element c{empty}}}",
    ),
    (
        "element a{(element b{empty},element c{empty}?)|element b{empty}}",
        "element a{element b{empty},element c{empty}?}",
    ),
    (
        "start = a a = element a{a*}",
        "start = a|b a = element a{b*} b = element a{a*}",
    ),
    ("start = notAllowed", "start = a a = element a{a}"),
    (
        "element *{empty}",
        "namespace q = \"\" element (q:*|(* - q:*)){empty}",
    ),
    ("element (a|b){empty}", "element a{empty}|element b{empty}"),
];

/// Whether `same` says so of two schemas, also where they are exchanged.
fn are_same(alloc: Global, first: &str, second: &str) -> Result<bool, NoMemory> {
    Ok(
        writes(alloc, SAME, first, second, "same\n")?
            && writes(alloc, SAME, second, first, "same\n")?,
    )
}

#[test]
fn schemas_are_the_same_however_they_are_written(rt: HostRuntime) -> Result<(), Fail> {
    for (first, second) in &ALIKE {
        assert!(rt; are_same(rt.alloc(), first, second)?, "{first} {second}");
    }
    Ok(())
}

/// Commands of which the second operand is missing.
static MISSING: [&[&str]; 2] = [&["include", "A", "C"], &["same", "A", "C"]];

#[test]
fn operands_are_read_before_texts(rt: HostRuntime) -> Result<(), Fail> {
    for words in &MISSING {
        assert!(rt;
            writes(rt.alloc(), words, "start = b", SMALL, "cannot read C\n")?,
            "{words:?}"
        );
    }
    Ok(())
}

/// Commands, the parts of two schemas, and what each of the commands writes.
type Large<'t> = (&'t [&'t [&'t str]], Text<'t>, Text<'t>, &'t str);

const BOTH: &[&[&str]] = &[INCLUDE, SAME];

const NOTHING: Text<'static> = &[Once("start = notAllowed")];

const Z: Text<'static> = &[Once(SMALL)];

/// As many element patterns that trees match by their names as such that they match by what stands in them: each pair of one of
/// both is a row.
const PAIRS_OF_45: Text<'static> = &[
    Once("start = notAllowed"),
    Each("|n#|p#", 0, 44),
    Once("\nk = element *{empty}\n"),
    Each(
        "n# = element n#{k}\np# = element *{element k#{empty}}\n",
        0,
        44,
    ),
];

const PAIRS_OF_40: Text<'static> = &[
    Once("start = notAllowed"),
    Each("|n#|p#", 0, 39),
    Once("\nk = element *{empty}\n"),
    Each(
        "n# = element n#{k}\np# = element *{element k#{empty}}\n",
        0,
        39,
    ),
];

/// Rows tell which of the last eleven children are an `x`.
const HEDGES: Text<'static> = &[
    Once("start = element a{(x|y)*,x"),
    Times(",(x|y)", 10),
    Once("} x = element x{empty} y = element y{empty}"),
];

/// An `a` with 510 `b`: it has a state before and behind each `b`, and one of what stands in a `b`.
const STATES: Text<'static> = &[
    Once("start = element a{b"),
    Times(",b", 509),
    Once("} b = element b{empty}"),
];

/// One `b` more.
const MORE_STATES: Text<'static> = &[
    Once("start = element a{b"),
    Times(",b", 510),
    Once("} b = element b{empty}"),
];

/// An `a` or one of 256 `b`, each an element of its own.
const ELEMENTS: Text<'static> = &[
    Once("start = element a{empty}"),
    Times("|element b{empty}", 256),
];

/// An element of 601 names.
const P_NAMES: Text<'static> = &[Once("element (x"), Each("|p#", 0, 599), Once("){empty}")];

const Q_NAMES: Text<'static> = &[Once("element (x"), Each("|q#", 0, 599), Once("){empty}")];

/// How many nodes a document has at most, and that one of fewer nodes is shown.
static NODES: [Large<'static>; 6] = [
    // a document has two thousand nodes at most
    (
        BOTH,
        OF_ELEVEN_LEVELS,
        NOTHING,
        "limit counterexample 2000\n",
    ),
    (
        &[SAME],
        NOTHING,
        OF_ELEVEN_LEVELS,
        "limit counterexample 2000\n",
    ),
    // a document of fewer nodes is shown
    (&[SAME], Z, OF_ELEVEN_LEVELS, "different\nfirst-only <z/>\n"),
    (
        &[SAME],
        OF_ELEVEN_LEVELS,
        Z,
        "different\nsecond-only <z/>\n",
    ),
    (&[SAME], Z, OF_TEN_LEVELS, "different\nfirst-only <z/>\n"),
    (&[SAME], OF_TEN_LEVELS, Z, "different\nsecond-only <z/>\n"),
];

/// How many rows there are at most.
static ROWS: [Large<'static>; 6] = [
    // of trees
    (BOTH, PAIRS_OF_45, Z, "limit trees 2000\n"),
    (&[SAME], Z, PAIRS_OF_45, "limit trees 2000\n"),
    (
        &[INCLUDE],
        PAIRS_OF_40,
        PAIRS_OF_40,
        "included trees 1721 hedges 42\n",
    ),
    // of hedges; live trees are those of the first schema alone
    (BOTH, HEDGES, Z, "limit hedges 2000\n"),
    (&[SAME], Z, HEDGES, "limit hedges 2000\n"),
    (
        &[INCLUDE],
        &[Once(B)],
        HEDGES,
        "not-included\ndocument <b/>\n",
    ),
];

/// How many states, elements and symbols schemas have at most.
static SCHEMAS: [Large<'static>; 9] = [
    // states of each schema
    (&[SAME], STATES, STATES, "same\n"),
    (BOTH, MORE_STATES, Z, "limit states 512\n"),
    (BOTH, Z, MORE_STATES, "limit states 512\n"),
    // limits are tried in order
    (BOTH, ELEMENTS, MORE_STATES, "limit elements 256\n"),
    (BOTH, MORE_STATES, ELEMENTS, "limit states 512\n"),
    // symbols of both schemas; states are counted before
    (&[SAME], P_NAMES, P_NAMES, "same\n"),
    (BOTH, P_NAMES, Q_NAMES, "limit symbols 1024\n"),
    (&[INCLUDE], P_NAMES, MORE_STATES, "limit states 512\n"),
    // texts are refused before
    (
        BOTH,
        MORE_STATES,
        &[Once("start = empty")],
        "refused B bad-start at 0\n",
    ),
];

/// Whether each of these commands writes this text.
fn all_write(
    alloc: Global,
    commands: &[&[&str]],
    first: &str,
    second: &str,
    text: &str,
) -> Result<bool, NoMemory> {
    for words in commands {
        if !writes(alloc, words, first, second, text)? {
            return Ok(false);
        }
    }
    Ok(true)
}

/// Whether large schemas are answered so.
fn large_writes(alloc: Global, large: &Large<'_>) -> Result<bool, Fail> {
    let (commands, first, second, text) = large;
    let first = text_of(alloc, first)?;
    let second = text_of(alloc, second)?;
    let all = all_write(alloc, commands, first.as_str(), second.as_str(), text)?;
    Ok(all)
}

/// Asserts of each pair of large schemas what is written.
fn assert_large(rt: &impl Abort, alloc: Global, all: &[Large<'_>]) -> Result<(), Fail> {
    let mut number = 0u32;
    for large in all {
        let text = large.3;
        assert!(rt; large_writes(alloc, large)?, "{number} {text}");
        number = number.saturating_add(1);
    }
    Ok(())
}

#[test]
fn nodes_rows_states_elements_and_symbols_are_limited(rt: HostRuntime) -> Result<(), Fail> {
    assert_large(&rt, rt.alloc(), &NODES)?;
    assert_large(&rt, rt.alloc(), &ROWS)?;
    assert_large(&rt, rt.alloc(), &SCHEMAS)
}

/// Elements within one another, and those of them whose number isn't a multiple of 3, of 5, of 7 or of 19.
static DEEP: [Case<'static>; 1] = [Case {
    what: "a document of 1,995 elements within one another",
    words: INCLUDE,
    files: &[
        ("A", &[Once("start = e e = element a{e?}")]),
        (
            "B",
            &[
                Once("start = p1|q1|r1|s1"),
                Each("\np# = element a{p~?}", 1, 2),
                Each("\nq# = element a{q~?}", 1, 4),
                Each("\nr# = element a{r~?}", 1, 6),
                Each("\ns# = element a{s~?}", 1, 18),
                Once(
                    "\np3 = element a{p1} q5 = element a{q1} r7 = element a{r1} s19 = element a{s1}",
                ),
            ],
        ),
    ],
    status: Status::No,
    text: &[
        Once("not-included\ndocument "),
        Times("<a>", 1_994),
        Once("<a/>"),
        Times("</a>", 1_994),
        Once("\n"),
    ],
}];

#[test]
fn a_document_of_many_nodes_is_shown(rt: HostRuntime) -> Result<(), Fail> {
    assert_cases(&rt, rt.alloc(), &DEEP)?;
    let schema = text_of(rt.alloc(), OF_TEN_LEVELS)?;
    let document = ten_levels(rt.alloc())?;
    let nothing = "start = notAllowed";
    assert!(rt; tells_apart(rt.alloc(), schema.as_str(), nothing, document.as_str())?);
    Ok(())
}
