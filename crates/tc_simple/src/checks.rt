// References without a definition, and wildcards where they may not stand.
ghost use Rattle.std.specs.Prelude.{◌≡◌, None};
ghost use Rattle.tc_model.specs.CompactSyntaxTrees as t;
ghost use Rattle.tc_model.specs.SimplifiesFaults.{bad_except_at, first_answer, first_place, misplaced as misplaced_of, misplaced_among as misplaced_among_of, misplaced_in, undefined_reference};
ghost use Rattle.tc_model.specs.SimplifiesParts.{nodes_in, nodes_in_all, nodes_of};
ghost use Rattle.tc_rnc.specs.Views as see;
ghost use Rattle.tc_simple.specs.Places.{maybe_place};
ghost use Rattle.tc_simple.specs.Tables.{IsTable};

use crate::groups::Table;
use tc_base::Place;
use tc_rnc::{SClass, SPat, Syntax};

/// The first reference in a pattern that has no definition.
#[cycle(undefined)]
#[tactic(auto, using(tc_rnc::proofs::Views::see_pattern))]
fn undefined_in<'b>(table: &Table<'b>, pattern: &SPat<'b>) -> Option<Place>
    ensures { (s : t.Syntax) → IsTable s table.now → maybe_place result
        ≡ first_answer (undefined_reference s) (nodes_in (see.pattern pattern.now)) None }
{
    match pattern {
        SPat::Empty | SPat::NotAllowed | SPat::Text | SPat::Attribute => None,
        SPat::Ref(name, place) => match table.number(name) {
            Some(_) => None,
            None => Some(*place),
        },
        SPat::Element(_, _, p)
        | SPat::Mixed(p)
        | SPat::Optional(p)
        | SPat::ZeroOrMore(p)
        | SPat::OneOrMore(p) => undefined_in(table, p),
        SPat::Group(ps) | SPat::Choice(ps) | SPat::Interleave(ps) => undefined_among(table, ps),
    }
}

#[cycle(undefined)]
fn undefined_among<'b>(table: &Table<'b>, patterns: &[SPat<'b>]) -> Option<Place>
    ensures { (s : t.Syntax) → IsTable s table.now → maybe_place result
        ≡ first_answer (undefined_reference s) (nodes_in_all (see.patterns patterns.now)) None }
{
    for pattern in patterns {
        if let Some(place) = undefined_in(table, pattern) {
            return Some(place);
        }
    }
    None
}

/// The first reference that has no definition.
pub fn undefined<'b>(table: &Table<'b>, syntax: &Syntax<'b>) -> Option<Place>
    ensures { IsTable (see.syntax syntax.now) table.now → maybe_place result
        ≡ first_answer (undefined_reference (see.syntax syntax.now))
        (nodes_of (see.syntax syntax.now)) None }
{
    for def in syntax.defs {
        if let Some(place) = undefined_in(table, &def.body) {
            return Some(place);
        }
    }
    None
}

/// The first wildcard that may not stand where it does: `any` and `namespaces` say that `*`, and that `p:*`,
/// may not.
#[cycle(misplaced)]
#[tactic(auto, using(tc_rnc::proofs::Views::see_class))]
fn misplaced(class: &SClass<'_>, any: bool, namespaces: bool) -> Option<Place>
    ensures { maybe_place result ≡ first_place (misplaced_of any namespaces (see.class class.now)) }
{
    match class {
        SClass::Name(_) => None,
        SClass::Ns(place, _, except) => {
            if namespaces {
                Some(*place)
            } else {
                misplaced_among(except, true, true)
            }
        }
        SClass::Any(place, except) => {
            if any {
                Some(*place)
            } else {
                misplaced_among(except, true, namespaces)
            }
        }
        SClass::Choice(classes) => misplaced_among(classes, any, namespaces),
    }
}

#[cycle(misplaced)]
fn misplaced_among(classes: &[SClass<'_>], any: bool, namespaces: bool) -> Option<Place>
    ensures { maybe_place result
        ≡ first_place (misplaced_among_of any namespaces (see.classes classes.now)) }
{
    for class in classes {
        if let Some(place) = misplaced(class, any, namespaces) {
            return Some(place);
        }
    }
    None
}

/// The first misplaced wildcard in the name class of an element.
#[cycle(excepts)]
#[tactic(auto, using(tc_rnc::proofs::Views::see_pattern))]
fn bad_except_in(pattern: &SPat<'_>) -> Option<Place>
    ensures { maybe_place result
        ≡ first_answer misplaced_in (nodes_in (see.pattern pattern.now)) None }
{
    match pattern {
        SPat::Empty | SPat::NotAllowed | SPat::Text | SPat::Attribute | SPat::Ref(_, _) => None,
        SPat::Element(_, class, p) => match misplaced(class, false, false) {
            Some(place) => Some(place),
            None => bad_except_in(p),
        },
        SPat::Mixed(p) | SPat::Optional(p) | SPat::ZeroOrMore(p) | SPat::OneOrMore(p) => {
            bad_except_in(p)
        }
        SPat::Group(ps) | SPat::Choice(ps) | SPat::Interleave(ps) => bad_except_among(ps),
    }
}

#[cycle(excepts)]
fn bad_except_among(patterns: &[SPat<'_>]) -> Option<Place>
    ensures { maybe_place result
        ≡ first_answer misplaced_in (nodes_in_all (see.patterns patterns.now)) None }
{
    for pattern in patterns {
        if let Some(place) = bad_except_in(pattern) {
            return Some(place);
        }
    }
    None
}

/// The first misplaced wildcard of all.
pub fn bad_except(syntax: &Syntax<'_>) -> Option<Place>
    ensures { maybe_place result ≡ bad_except_at (see.syntax syntax.now) }
{
    for def in syntax.defs {
        if let Some(place) = bad_except_in(&def.body) {
            return Some(place);
        }
    }
    None
}
