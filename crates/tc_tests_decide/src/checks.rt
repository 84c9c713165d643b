// Tests of `check`.
ghost use Rattle.std.specs.Prelude.{◌≤◌, length};
ghost use Rattle.tc_base.specs.Reading.{longest_text};
ghost use Rattle.tc_decide.specs.Texts.{IsShort};

use crate::texts::{bytes_of, compact, declared, prints, sheet_of};
use bumpalo::Bump;
use std::alloc::Global;
use tc_base::Place;
use tc_decide::{Failure, Kind, Output, RowCount, SchemaText, Verdict, Which, check};
use tc_model::Node;
use tc_read::Reason;

/// What a check tells.
#[derive(Clone, Copy)]
enum Told<'t> {
    /// Safe, with so many rows of trees, of lists of trees, and sets of pairs.
    Safe(u32, u32, u32),
    /// Not: by this document and its result.
    Unsafe(&'t str, &'t str),
    /// Nothing is decided.
    Fails(Failure),
}

/// Whether a document and its result are told.
fn shows(alloc: Global, document: &Node<'_>, output: &Output<'_>, told: &Told<'_>) -> bool {
    match told {
        Told::Unsafe(text, result) => match output {
            Output::Shown(nodes) => prints(alloc, &[*document], text)
                && prints(alloc, nodes, result),
            Output::TooLarge => false,
        },
        Told::Safe(_, _, _) | Told::Fails(_) => false,
    }
}

/// Whether a verdict is told.
fn is_told(alloc: Global, verdict: &Verdict<'_>, told: &Told<'_>) -> bool {
    match verdict {
        Verdict::Safe(counts) => match told {
            Told::Safe(trees, hedges, outputs) => {
                counts.trees == *trees && counts.hedges == *hedges && counts.outputs == *outputs
            }
            Told::Unsafe(_, _) | Told::Fails(_) => false,
        },
        Verdict::Unsafe(document, output) => shows(alloc, document, output, told),
    }
}

/// Whether a check of these texts tells that.
fn tells(
    alloc: Global,
    input: SchemaText<'_>,
    output: SchemaText<'_>,
    sheet: &[u8],
    most: u32,
    told: &Told<'_>,
) -> bool
    requires input { IsShort input }
    requires output { IsShort output }
    requires sheet { length sheet.now ≤ longest_text }
{
    if most > 4_000 {
        return false;
    }
    let arena = Bump::new(alloc);
    match check(&arena, alloc, most, input, output, sheet) {
        Ok(verdict) => is_told(alloc, &verdict, told),
        Err(failure) => match told {
            Told::Fails(other) => failure == *other,
            Told::Safe(_, _, _) | Told::Unsafe(_, _) => false,
        },
    }
}

/// Two schemas in the compact syntax, the rules of a stylesheet, the most rows, and what is told.
type Row<'t> = (&'t str, &'t str, &'t str, u32, Told<'t>);

const ANY_B: &str = "element a{element b{empty}*}";

const ANY_X: &str = "element r{element x{empty}*}";

const SOME_X: &str = "element r{element x{empty}+}";

/// The results of all `b` below an `a`, each an `x`.
const RULES: &str =
    "<xsl:template match=\"/\"><r><xsl:apply-templates select=\"a/b\"/></r></xsl:template>\
    <xsl:template match=\"b\"><x/></xsl:template>";

static ROWS: [Row<'static>; 5] = [
    // The trees are a `b`, an `a` without children and one with some.
    (ANY_B, ANY_X, RULES, 2_000, Told::Safe(3, 2, 2)),
    (ANY_B, SOME_X, RULES, 2_000, Told::Unsafe("<a/>", "<r/>")),
    (ANY_B, ANY_X, RULES, 3, Told::Safe(3, 2, 2)),
    (
        ANY_B,
        ANY_X,
        RULES,
        2,
        Told::Fails(Failure::Passes(Kind::Rows(RowCount::Trees), 2)),
    ),
    // a group and a choice without parentheses
    (
        ANY_B,
        "element a { b , c | d }",
        RULES,
        2_000,
        Told::Fails(Failure::Refused(Which::Output, Reason::Malformed, Place(18))),
    ),
];

/// Whether a row is so.
fn is_so(alloc: Global, row: &Row<'_>) -> Option<bool> {
    let (input, output, rules, most, told) = row;
    let Ok(text) = sheet_of(alloc, rules) else {
        return None;
    };
    let input = compact(input)?;
    let output = compact(output)?;
    let sheet = bytes_of(&text)?;
    Some(tells(alloc, input, output, sheet, *most, told))
}

#[test]
fn safe_and_unsafe_are_told(rt: HostRuntime) {
    for row in &ROWS {
        let (input, output, _, _, _) = row;
        assert!(rt; is_so(rt.alloc(), row) == Some(true), "{input} {output}");
    }
}

/// Whether a check of declarations with `a` as the document's element tells that.
fn declarations_tell(alloc: Global, text: &str, told: &Told<'_>) -> Option<bool> {
    let Ok(rules) = sheet_of(alloc, RULES) else {
        return None;
    };
    let input = declared("a", text)?;
    let output = compact(ANY_X)?;
    let sheet = bytes_of(&rules)?;
    Some(tells(alloc, input, output, sheet, 2_000, told))
}

#[test]
fn schemas_may_be_declarations(rt: HostRuntime) {
    let alloc = rt.alloc();
    let safe = Told::Safe(3, 2, 2);
    assert!(rt;
        declarations_tell(alloc, "<!ELEMENT a (b*)><!ELEMENT b EMPTY>", &safe) == Some(true)
    );
    let twice = Told::Fails(Failure::Refused(Which::Input, Reason::Twice, Place(18)));
    assert!(rt;
        declarations_tell(alloc, "<!ELEMENT a EMPTY><!ELEMENT a EMPTY>", &twice) == Some(true)
    );
}
