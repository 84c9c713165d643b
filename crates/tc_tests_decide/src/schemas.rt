// Tests of `valid`, `valid_in_pieces`, `include` and `same`.
use crate::texts::{bytes_of, compact, prints};
use bumpalo::Bump;
use std::alloc::Global;
use std::test::Fail;
use tc_base::Place;
use tc_decide::{
    Equality, Failure, Inclusion, Kind, PieceMeasure, Which, include, same, valid, valid_in_pieces,
};
use tc_read::Reason;

/// A schema, a document, and whether it is valid for it, or why that isn't told.
type Row<'t> = (&'t str, &'t str, Result<bool, Failure>);

const BOTH: &str = "element a{element b{empty}&element c{empty}}";

static ROWS: [Row<'static>; 4] = [
    // interleave
    (BOTH, "<a><c/><b/></a>", Ok(true)),
    (BOTH, "<a><b/></a>", Ok(false)),
    (
        "element a { b , c | d }",
        "<a/>",
        Err(Failure::Refused(Which::Input, Reason::Malformed, Place(18))),
    ),
    (
        BOTH,
        "a",
        Err(Failure::Refused(Which::Document, Reason::Malformed, Place(0))),
    ),
];

/// Whether a document, whole and in pieces, is told so.
fn is_so(alloc: Global, row: &Row<'_>) -> Option<bool> {
    let (schema, document, told) = row;
    let schema = compact(schema)?;
    let bytes = bytes_of(document)?;
    let whole = valid(alloc, schema, bytes);
    let bytewise = valid_in_pieces(alloc, 1, schema, bytes);
    let in_sevens = valid_in_pieces(alloc, 7, schema, bytes);
    Some(whole == *told && bytewise == *told && in_sevens == *told)
}

#[test]
fn documents_are_valid_or_not(rt: HostRuntime) {
    for row in &ROWS {
        let (schema, document, _) = row;
        assert!(rt; is_so(rt.alloc(), row) == Some(true), "{schema} {document}");
    }
}

/// An element with so many spaces in its tag.
fn spaced(alloc: Global, spaces: u32) -> Result<String, Fail> {
    let mut text = String::new(alloc);
    text.push_str("<a")?;
    for _ in 0..spaces {
        text.push_str(" ")?;
    }
    text.push_str("/>")?;
    Ok(text)
}

/// Whether such an element, in pieces, is told so.
fn spaces_tell(alloc: Global, spaces: u32, told: Result<bool, Failure>) -> Result<bool, Fail> {
    let text = spaced(alloc, spaces)?;
    let (Some(schema), Some(bytes)) = (compact("element a{empty}"), bytes_of(&text)) else {
        return Ok(false);
    };
    Ok(valid_in_pieces(alloc, 4_096, schema, bytes) == told)
}

/// A tag has at most 65,536 bytes.
#[test]
fn tags_have_a_limit(rt: HostRuntime) -> Result<(), Fail> {
    let long = Err(Failure::Passes(Kind::Pieces(PieceMeasure::Tag), 65_536));
    assert!(rt; spaces_tell(rt.alloc(), 65_532, Ok(true))?);
    assert!(rt; spaces_tell(rt.alloc(), 65_535, long)?);
    Ok(())
}

const ONE_B: &str = "element a{element b{empty}}";

const ANY_B: &str = "element a{element b{empty}*}";

const NOTHING: &str = "start = notAllowed";

/// Whether a schema is included in another with so many rows of trees and of lists of trees; or isn't, by this document.
fn includes(
    alloc: Global,
    first: &str,
    second: &str,
    rows: (u32, u32),
    text: &str,
) -> Option<bool> {
    let first = compact(first)?;
    let second = compact(second)?;
    let arena = Bump::new(alloc);
    match include(&arena, alloc, first, second) {
        Ok(Inclusion::Included(trees, hedges)) => {
            Some(text.is_empty() && trees == rows.0 && hedges == rows.1)
        }
        Ok(Inclusion::Not(document)) => Some(prints(alloc, &[document], text)),
        Err(_) => None,
    }
}

/// Whether two schemas have the same documents, where there is no text; or this one is of the second alone.
fn are_same(alloc: Global, first: &str, second: &str, text: &str) -> Option<bool> {
    let first = compact(first)?;
    let second = compact(second)?;
    let arena = Bump::new(alloc);
    match same(&arena, alloc, first, second) {
        Ok(Equality::Same) => Some(text.is_empty()),
        Ok(Equality::FirstOnly(_)) => Some(false),
        Ok(Equality::SecondOnly(document)) => Some(prints(alloc, &[document], text)),
        Err(_) => None,
    }
}

#[test]
fn schemas_are_compared(rt: HostRuntime) {
    let alloc = rt.alloc();
    assert!(rt; includes(alloc, ONE_B, ANY_B, (2, 2), "") == Some(true));
    assert!(rt; includes(alloc, ANY_B, ONE_B, (0, 0), "<a/>") == Some(true));
    assert!(rt; includes(alloc, NOTHING, NOTHING, (0, 1), "") == Some(true));
    assert!(rt; are_same(alloc, ONE_B, ANY_B, "<a/>") == Some(true));
    let orders =
        "element a{(element b{empty},element c{empty})|(element c{empty},element b{empty})}";
    assert!(rt; are_same(alloc, BOTH, orders, "") == Some(true));
}
