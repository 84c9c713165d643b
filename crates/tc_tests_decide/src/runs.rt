// Tests of `run`.
use crate::texts::{bytes_of, sheet_of};
use std::alloc::Global;
use tc_base::{Limit, Place};
use tc_decide::{Failure, Kind, Which, run};
use tc_read::Reason;

/// An `x` and all twice for each `a`.
const DOUBLING: &str = "<xsl:template match=\"/\"><r><xsl:apply-templates/></r></xsl:template>\
    <xsl:template match=\"a\"><x/><xsl:apply-templates/><xsl:apply-templates/></xsl:template>";

/// Whether the result of a document prints so, or fails so.
fn gives(alloc: Global, rules: &str, document: &str, told: Result<&str, Failure>) -> Option<bool> {
    let Ok(text) = sheet_of(alloc, rules) else {
        return None;
    };
    let sheet = bytes_of(&text)?;
    let bytes = bytes_of(document)?;
    match run(alloc, sheet, bytes) {
        Ok(text) => match told {
            Ok(result) => Some(text.as_slice() == result.as_bytes()),
            Err(_) => Some(false),
        },
        Err(failure) => Some(told == Err(failure)),
    }
}

/// A predicate in each of seven rules.
const SEVEN: &str =
    "<xsl:template match=\"a[p1]\"><x/></xsl:template><xsl:template match=\"a[p2]\"><x/></xsl:template>\
    <xsl:template match=\"a[p3]\"><x/></xsl:template><xsl:template match=\"a[p4]\"><x/></xsl:template>\
    <xsl:template match=\"a[p5]\"><x/></xsl:template><xsl:template match=\"a[p6]\"><x/></xsl:template>\
    <xsl:template match=\"a[p7]\"><x/></xsl:template>";

/// A document has a result, unless a text is refused or a limit is passed: here by seven predicates.
#[test]
fn results_are_given(rt: HostRuntime) {
    let alloc = rt.alloc();
    let seven = Ok("<r><x/><x/><x/><x/><x/><x/><x/></r>");
    assert!(rt; gives(alloc, DOUBLING, "<a><a><a/></a></a>", seven) == Some(true));
    let many = Err(Failure::Passes(Kind::Texts(Limit::Predicates), 6));
    assert!(rt; gives(alloc, SEVEN, "<a/>", many) == Some(true));
    let refused = Err(Failure::Refused(Which::Document, Reason::Malformed, Place(0)));
    assert!(rt; gives(alloc, DOUBLING, "a", refused) == Some(true));
}
