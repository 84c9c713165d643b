// References that reach themselves without passing an element, and what may stand at the start.
// Loops are found by the components of definitions under references outside elements; definitions that aren't
// reached may refer to themselves.
ghost use Rattle.std.specs.Prelude.{◌≡◌, ◌<◌, ◌++◌, false, length, map, IfOk, OnOk, MatchBool};
ghost use Rattle.std.specs.List.{filter_map, list_all};
ghost use Rattle.tc_model.specs.Views.{place as see_place};
ghost use Rattle.tc_model.specs.SimplifiesFaults.{may_start as may_start_of};
ghost use Rattle.tc_rnc.specs.Views as see;
ghost use Rattle.tc_simple.specs.Walked.{AreWalked};
ghost use Rattle.tc_simple.specs.Nodes.{loop_at, loops_below, marked_loops, nodes, nodes_of_all, HasNumbersBelow, IsFirstLoop, IsLeast, IsLesser, StartsBadly, StartsWell};
ghost use Rattle.tc_simple.specs.Places.{maybe_place};

use crate::groups::Table;
use bumpalo::Bump;
use bumpalo::collections::into_bump_slice;
use tc_base::{NoMemory, Place};
use tc_graph::Walk;
use tc_rnc::SPat;

/// Adds the places of the references in a pattern, outside its elements, that lie on cycles. The pattern
/// stands in the definition of this number.
#[cycle(loops)]
#[tactic(auto, using(tc_rnc::proofs::Views::see_pattern))]
fn add_loops<'b>(
    table: &Table<'b>,
    walk: &Walk<'b>,
    number: usize,
    pattern: &SPat<'b>,
    found: &mut Vec<Place, &'b Bump>,
) -> Result<(), NoMemory>
    requires within { number < length walk.now.states.items }
    requires numbers { HasNumbersBelow table.now (length walk.now.states.items) }
    ensures { OnOk result
        (map see_place found.new.items ≡ map see_place found.old.items
        ++ filter_map (loop_at table.now walk.now.states.items number)
        (nodes false (see.pattern pattern.now))) }
{
    match pattern {
        SPat::Empty | SPat::NotAllowed | SPat::Text | SPat::Attribute | SPat::Element(_, _, _) => {
            Ok(())
        }
        SPat::Ref(name, place) => {
            if let Some(other) = table.number(name) {
                if walk.joins(number, other) {
                    found.push(*place)?;
                }
            }
            Ok(())
        }
        SPat::Mixed(p) | SPat::Optional(p) | SPat::ZeroOrMore(p) | SPat::OneOrMore(p) => {
            add_loops(table, walk, number, p, found)
        }
        SPat::Group(ps) | SPat::Choice(ps) | SPat::Interleave(ps) => {
            add_all_loops(table, walk, number, ps, found)
        }
    }
}

#[cycle(loops)]
fn add_all_loops<'b>(
    table: &Table<'b>,
    walk: &Walk<'b>,
    number: usize,
    patterns: &[SPat<'b>],
    found: &mut Vec<Place, &'b Bump>,
) -> Result<(), NoMemory>
    requires within { number < length walk.now.states.items }
    requires numbers { HasNumbersBelow table.now (length walk.now.states.items) }
    ensures { OnOk result
        (map see_place found.new.items ≡ map see_place found.old.items
        ++ filter_map (loop_at table.now walk.now.states.items number)
        (nodes_of_all false (see.patterns patterns.now))) }
{
    for pattern in patterns {
        add_loops(table, walk, number, pattern, found)?;
    }
    Ok(())
}

/// Whether a pattern, down to its elements and references, may stand below `start`.
#[cycle(starts)]
#[tactic(auto, using(tc_rnc::proofs::Views::see_pattern))]
fn may_start(pattern: &SPat<'_>) -> bool
    ensures { result ≡ list_all may_start_of (nodes false (see.pattern pattern.now)) }
{
    match pattern {
        SPat::NotAllowed | SPat::Ref(_, _) | SPat::Element(_, _, _) => true,
        SPat::Choice(ps) => may_all_start(ps),
        _ => false,
    }
}

#[cycle(starts)]
fn may_all_start(patterns: &[SPat<'_>]) -> bool
    ensures { result ≡ list_all may_start_of (nodes_of_all false (see.patterns patterns.now)) }
{
    for pattern in patterns {
        if !may_start(pattern) {
            return false;
        }
    }
    true
}

/// The least of some places.
fn least(places: &[Place]) -> Option<Place>
    ensures { IsLeast (map see_place places.now) (maybe_place result) }
{
    let mut first = None;
    for place in places {
        first = Some(lesser(first, *place));
    }
    first
}

/// A place, or one that is less.
fn lesser(first: Option<Place>, place: Place) -> Place
    ensures { IsLesser (maybe_place first) (see_place place) (see_place result) }
{
    match first {
        Some(other) if other.0 < place.0 => other,
        _ => place,
    }
}

/// The places of all references that lie on cycles, in the definitions that are marked.
fn loops<'b>(
    arena: &'b Bump,
    table: &Table<'b>,
    walk: &Walk<'b>,
    marks: &[bool],
) -> Result<&'b [Place], NoMemory>
    requires { AreWalked table.now walk.now.states.items marks.now }
    ensures { IfOk result (λ v. map see_place v.now
        ≡ loops_below table.now walk.now.states.items marks.now (length table.now.patterns.items)) }
{
    let mut found = Vec::new(arena);
    for number in 0..table.patterns.len() {
        add_marked(table, walk, marks, number, &mut found)?;
    }
    Ok(into_bump_slice(found))
}

/// Adds those of one definition, if it is marked.
fn add_marked<'b>(
    table: &Table<'b>,
    walk: &Walk<'b>,
    marks: &[bool],
    number: usize,
    found: &mut Vec<Place, &'b Bump>,
) -> Result<(), NoMemory>
    requires within { number < length table.now.patterns.items }
    requires walked { AreWalked table.now walk.now.states.items marks.now }
    ensures { OnOk result (map see_place found.new.items ≡ map see_place found.old.items
        ++ marked_loops table.now walk.now.states.items marks.now number) }
{
    if marks[number] {
        add_loops(table, walk, number, &table.patterns[number], found)
    } else {
        Ok(())
    }
}

/// The first reference that reaches itself without passing an element, in the definitions that are marked.
pub fn first_loop<'b>(
    arena: &'b Bump,
    table: &Table<'b>,
    walk: &Walk<'b>,
    marks: &[bool],
) -> Result<Option<Place>, NoMemory>
    requires { AreWalked table.now walk.now.states.items marks.now }
    ensures { IfOk result
        (λ o. IsFirstLoop table.now walk.now.states.items marks.now (maybe_place o)) }
{
    let places = loops(arena, table, walk, marks)?;
    Ok(least(places))
}

/// Whether all that stands in the definitions that are marked, outside their elements, may stand below
/// `start`.
pub fn starts_well(table: &Table<'_>, marks: &[bool]) -> bool
    requires { length marks.now ≡ length table.now.patterns.items }
    ensures { MatchBool result (StartsWell table.now marks.now (length table.now.patterns.items))
        (StartsBadly table.now marks.now) }
{
    for number in 0..table.patterns.len() {
        if marks[number] && !may_start(&table.patterns[number]) {
            return false;
        }
    }
    true
}
