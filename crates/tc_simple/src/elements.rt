// The elements of a text.
ghost use Rattle.std.specs.Prelude.{◌≡◌, ◌++◌, length, true, map, IfOk, OnOk};
ghost use Rattle.std.specs.List.{filter_map};
ghost use Rattle.tc_rnc.specs.Views as see;
ghost use Rattle.tc_simple.specs.Nodes.{element_of, elements_of, is_marked_name, marked_elements, nodes, nodes_of_all, see_element, HasNumbersBelow};

use crate::groups::Table;
use bumpalo::Bump;
use bumpalo::collections::into_bump_slice;
use tc_base::{NoMemory, Place};
use tc_rnc::{Def, SClass, SPat, Syntax};

/// An element of the text, with the place of its word.
#[derive(Clone, Copy)]
pub struct Elem<'b> {
    pub place: Place,
    pub names: SClass<'b>,
    pub content: SPat<'b>,
}

/// Adds the elements that stand in a pattern.
#[cycle(elements)]
#[tactic(auto, using(tc_rnc::proofs::Views::see_pattern))]
fn add_elements<'b>(pattern: &SPat<'b>, found: &mut Vec<Elem<'b>, &'b Bump>) -> Result<(), NoMemory>
    ensures { OnOk result (map see_element found.new.items ≡ map see_element found.old.items
        ++ filter_map element_of (nodes true (see.pattern pattern.now))) }
{
    match pattern {
        SPat::Empty | SPat::NotAllowed | SPat::Text | SPat::Attribute | SPat::Ref(_, _) => Ok(()),
        SPat::Element(place, names, p) => {
            found.push(Elem {
                place: *place,
                names: *names,
                content: **p,
            })?;
            add_elements(p, found)
        }
        SPat::Mixed(p) | SPat::Optional(p) | SPat::ZeroOrMore(p) | SPat::OneOrMore(p) => {
            add_elements(p, found)
        }
        SPat::Group(ps) | SPat::Choice(ps) | SPat::Interleave(ps) => add_all_elements(ps, found),
    }
}

#[cycle(elements)]
fn add_all_elements<'b>(
    patterns: &[SPat<'b>],
    found: &mut Vec<Elem<'b>, &'b Bump>,
) -> Result<(), NoMemory>
    ensures { OnOk result (map see_element found.new.items ≡ map see_element found.old.items
        ++ filter_map element_of (nodes_of_all true (see.patterns patterns.now))) }
{
    for pattern in patterns {
        add_elements(pattern, found)?;
    }
    Ok(())
}

/// Whether the definition of a name is marked.
fn is_marked<'b>(table: &Table<'b>, marks: &[bool], name: &'b str) -> bool
    requires { HasNumbersBelow table.now (length marks.now) }
    ensures { result ≡ is_marked_name table.now marks.now name.now }
{
    match table.number(name) {
        Some(number) => marks[number],
        None => false,
    }
}

/// Adds the elements of a definition, if it is marked.
fn add_marked<'b>(
    table: &Table<'b>,
    marks: &[bool],
    def: &Def<'b>,
    found: &mut Vec<Elem<'b>, &'b Bump>,
) -> Result<(), NoMemory>
    requires { HasNumbersBelow table.now (length marks.now) }
    ensures { OnOk result (map see_element found.new.items ≡ map see_element found.old.items
        ++ marked_elements table.now marks.now (see.definition def.now)) }
{
    if is_marked(table, marks, def.name) {
        add_elements(&def.body, found)
    } else {
        Ok(())
    }
}

/// The elements of the definitions that are marked, in the order of the text.
pub fn elements<'b>(
    arena: &'b Bump,
    table: &Table<'b>,
    marks: &[bool],
    syntax: &Syntax<'b>,
) -> Result<&'b [Elem<'b>], NoMemory>
    requires { HasNumbersBelow table.now (length marks.now) }
    ensures { IfOk result (λ v. map see_element v.now
        ≡ elements_of table.now marks.now (see.syntax syntax.now).definitions) }
{
    let mut found = Vec::new(arena);
    for def in syntax.defs {
        add_marked(table, marks, def, &mut found)?;
    }
    Ok(into_bump_slice(found))
}
