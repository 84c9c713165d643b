// Tests of `dead`.
use crate::texts::{bytes_of, compact, prints, sheet_of};
use bumpalo::Bump;
use std::alloc::Global;
use tc_decide::{Spot, SpotTold, Told, dead};

/// A rule, a named body or a branch, and a document that uses it; no text where it is dead.
type Line<'t> = (Spot, &'t str);

/// Whether this is told of one.
fn is_line(alloc: Global, told: &SpotTold<'_>, line: &Line<'_>) -> bool {
    let (spot, text) = line;
    let found = match told.told {
        Told::Dead => text.is_empty(),
        Told::Used(document) => prints(alloc, &[document], text),
        Told::UsedTooLarge => false,
    };
    told.spot == *spot && found
}

/// Whether this is told of all, in order.
fn are_lines(alloc: Global, told: &[SpotTold<'_>], lines: &[Line<'_>]) -> bool {
    if told.len() != lines.len() {
        return false;
    }
    for (one, line) in told.iter().zip(lines) {
        if !is_line(alloc, one, line) {
            return false;
        }
    }
    true
}

/// Whether `dead` tells this.
fn tells(alloc: Global, input: &str, rules: &str, lines: &[Line<'_>]) -> Option<bool> {
    let Ok(text) = sheet_of(alloc, rules) else {
        return None;
    };
    let input = compact(input)?;
    let sheet = bytes_of(&text)?;
    let arena = Bump::new(alloc);
    match dead(&arena, alloc, input, sheet) {
        Ok(told) => Some(are_lines(alloc, told, lines)),
        Err(_) => None,
    }
}

const ANY_B: &str = "element a{element b{empty}*}";

const WITH_C: &str = "element a{element b{element c{empty}?}*}";

/// The results of all `b` below an `a`, and a rule for `c`.
const PARTS: &str =
    "<xsl:template match=\"/\"><r><xsl:apply-templates select=\"a/b\"/></r></xsl:template>\
    <xsl:template match=\"b\"><x/></xsl:template><xsl:template match=\"c\"><y/></xsl:template>";

const CHOICE: &str =
    "<xsl:template match=\"a\"><xsl:choose><xsl:when test=\"not(b/c)\"><none/></xsl:when>\
    <xsl:otherwise><r><xsl:apply-templates select=\"b/c\"/></r></xsl:otherwise></xsl:choose></xsl:template>\
    <xsl:template match=\"c\"><x/></xsl:template>";

#[test]
fn dead_spots_are_told(rt: HostRuntime) {
    let alloc = rt.alloc();
    let parts = [
        (Spot::Rule(1), "<a/>"),
        (Spot::Rule(2), "<a><b/></a>"),
        (Spot::Rule(3), ""),
    ];
    assert!(rt; tells(alloc, ANY_B, PARTS, &parts) == Some(true));
    let choice = [
        (Spot::Rule(1), "<a/>"),
        (Spot::Rule(2), "<a><b><c/></b></a>"),
        (Spot::Branch(1), "<a/>"),
        (Spot::Branch(2), "<a><b><c/></b></a>"),
    ];
    assert!(rt; tells(alloc, WITH_C, CHOICE, &choice) == Some(true));
}
