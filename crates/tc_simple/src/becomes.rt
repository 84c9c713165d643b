// What patterns become in the grammar.
ghost use Rattle.std.specs.Prelude.{◌≡◌, ◌≤◌, length, map, IfOk};
ghost use Rattle.tc_base.specs.declared.limits.TheConstants.{MOST_ELEMENT_PATTERNS};
ghost use Rattle.tc_model.specs.Grammars as g;
ghost use Rattle.tc_model.specs.Views as seen;
ghost use Rattle.tc_model.specs.Simplifies.{both, name_class as name_class_of, name_classes as name_classes_of, number_at as number_in};
ghost use Rattle.tc_rnc.specs.Views as see;
ghost use Rattle.tc_simple.specs.Becoming.{all_become, among, around, becomes, made_in};
ghost use Rattle.tc_simple.specs.Nodes.{see_element, HasNumbersBelow};

use crate::elements::Elem;
use crate::groups::Table;
use bumpalo::Bump;
use bumpalo::collections::into_bump_slice;
use tc_base::{NoMemory, Place};
use tc_model::{NameClass, Pat};
use tc_rnc::{SClass, SPat};

/// A name class without places.
#[cycle(classes)]
pub fn name_class<'b>(arena: &'b Bump, class: &SClass<'b>) -> Result<NameClass<'b>, NoMemory>
    ensures { IfOk result (λ c. seen.class c ≡ name_class_of (see.class class.now)) }
{
    match class {
        SClass::Name(name) => Ok(NameClass::Name(*name)),
        SClass::Ns(_, uri, except) => {
            let except = name_classes(arena, except)?;
            Ok(NameClass::Ns(uri, except))
        }
        SClass::Any(_, except) => {
            let except = name_classes(arena, except)?;
            Ok(NameClass::Any(except))
        }
        SClass::Choice(classes) => {
            let classes = name_classes(arena, classes)?;
            Ok(NameClass::Choice(classes))
        }
    }
}

#[cycle(classes)]
fn name_classes<'b>(
    arena: &'b Bump,
    classes: &[SClass<'b>],
) -> Result<&'b [NameClass<'b>], NoMemory>
    ensures { IfOk result (λ cs. seen.classes cs.now ≡ name_classes_of (see.classes classes.now)) }
{
    let mut out = Vec::new(arena);
    for class in classes {
        let class = name_class(arena, class)?;
        out.push(class)?;
    }
    Ok(into_bump_slice(out))
}

/// The number of the element at a place, from 1.
fn number_at(elements: &[Elem<'_>], place: Place) -> u32
    requires { length elements.now ≤ MOST_ELEMENT_PATTERNS }
    ensures { result ≡ number_in (map see_element elements.now) (seen.place place) }
{
    let mut number = 1;
    for element in elements {
        if element.place == place {
            return number;
        }
        number += 1;
    }
    number - 1
}

/// Two patterns side by side.
fn two<'b>(arena: &'b Bump, first: Pat<'b>, second: Pat<'b>) -> Result<&'b [Pat<'b>], NoMemory>
    ensures { IfOk result
        (λ ps. seen.patterns ps.now ≡ both (seen.pattern first.entry) (seen.pattern second.entry)) }
{
    let both = arena.try_alloc_slice_copy(&[first, second])?;
    Ok(both)
}

/// A pattern mixed with text.
fn mixed<'b>(arena: &'b Bump, pattern: Pat<'b>) -> Result<Pat<'b>, NoMemory>
    ensures { IfOk result
        (λ p. seen.pattern p ≡ g.interleave (both g.text (seen.pattern pattern.entry))) }
{
    let both = two(arena, Pat::Text, pattern)?;
    Ok(Pat::Interleave(both))
}

/// A pattern, or nothing.
fn optional<'b>(arena: &'b Bump, pattern: Pat<'b>) -> Result<Pat<'b>, NoMemory>
    ensures { IfOk result
        (λ p. seen.pattern p ≡ g.choice (both (seen.pattern pattern.entry) g.empty)) }
{
    let either = two(arena, pattern, Pat::Empty)?;
    Ok(Pat::Choice(either))
}

/// One or more of a pattern.
fn repeated<'b>(arena: &'b Bump, pattern: Pat<'b>) -> Result<Pat<'b>, NoMemory>
    ensures { IfOk result (λ p. seen.pattern p ≡ g.one_or_more (seen.pattern pattern.entry)) }
{
    let pattern = arena.try_alloc(pattern)?;
    Ok(Pat::OneOrMore(pattern))
}

/// What the definition of a name became, if it has one.
fn referred<'b>(table: &Table<'b>, name: &'b str, made: &[Pat<'b>]) -> Pat<'b>
    requires { HasNumbersBelow table.now (length made.now) }
    ensures { seen.pattern result ≡ made_in table.now made.now name.now }
{
    match table.number(name) {
        Some(number) => made[number],
        None => Pat::NotAllowed,
    }
}

/// What the operator of a pattern makes of what its part became.
#[tactic(auto, using(tc_rnc::proofs::Views::see_pattern))]
fn around<'b>(arena: &'b Bump, syntax: &SPat<'b>, part: Pat<'b>) -> Result<Pat<'b>, NoMemory>
    ensures { IfOk result
        (λ p. seen.pattern p ≡ around (see.pattern syntax.now) (seen.pattern part.entry)) }
{
    match syntax {
        SPat::Mixed(_) => mixed(arena, part),
        SPat::Optional(_) => optional(arena, part),
        SPat::ZeroOrMore(_) => optional(arena, repeated(arena, part)?),
        SPat::OneOrMore(_) => repeated(arena, part),
        _ => Ok(part),
    }
}

/// What the connector of a pattern makes of what its parts became.
fn among<'b>(syntax: &SPat<'b>, parts: &'b [Pat<'b>]) -> Pat<'b>
    ensures { seen.pattern result ≡ among (see.pattern syntax.now) (seen.patterns parts.now) }
{
    match syntax {
        SPat::Group(_) => Pat::Group(parts),
        SPat::Choice(_) => Pat::Choice(parts),
        _ => Pat::Interleave(parts),
    }
}

/// What a pattern becomes, where it is known what the definitions become to which it refers. A reference
/// shares that.
#[cycle(made)]
pub fn pattern<'b>(
    arena: &'b Bump,
    table: &Table<'b>,
    syntax: &SPat<'b>,
    elements: &[Elem<'b>],
    made: &[Pat<'b>],
) -> Result<Pat<'b>, NoMemory>
    requires few { length elements.now ≤ MOST_ELEMENT_PATTERNS }
    requires numbers { HasNumbersBelow table.now (length made.now) }
    ensures { IfOk result
        (λ p. seen.pattern p
        ≡ becomes (made_in table.now made.now) (map see_element elements.now)
        (see.pattern syntax.now)) }
{
    match syntax {
        SPat::Empty | SPat::Attribute => Ok(Pat::Empty),
        SPat::NotAllowed => Ok(Pat::NotAllowed),
        SPat::Text => Ok(Pat::Text),
        SPat::Ref(name, _) => Ok(referred(table, name, made)),
        SPat::Element(place, _, _) => Ok(Pat::Ref(number_at(elements, *place))),
        SPat::Mixed(p) | SPat::Optional(p) | SPat::ZeroOrMore(p) | SPat::OneOrMore(p) => {
            let part = pattern(arena, table, p, elements, made)?;
            around(arena, syntax, part)
        }
        SPat::Group(ps) | SPat::Choice(ps) | SPat::Interleave(ps) => {
            let parts = patterns(arena, table, ps, elements, made)?;
            Ok(among(syntax, parts))
        }
    }
}

#[cycle(made)]
fn patterns<'b>(
    arena: &'b Bump,
    table: &Table<'b>,
    syntax: &[SPat<'b>],
    elements: &[Elem<'b>],
    made: &[Pat<'b>],
) -> Result<&'b [Pat<'b>], NoMemory>
    requires few { length elements.now ≤ MOST_ELEMENT_PATTERNS }
    requires numbers { HasNumbersBelow table.now (length made.now) }
    ensures { IfOk result
        (λ ps. seen.patterns ps.now
        ≡ all_become (made_in table.now made.now) (map see_element elements.now)
        (see.patterns syntax.now)) }
{
    let mut out = Vec::new(arena);
    for one in syntax {
        let p = pattern(arena, table, one, elements, made)?;
        out.push(p)?;
    }
    Ok(into_bump_slice(out))
}
