// To which definitions the definitions refer, and their elements.
ghost use Rattle.std.specs.Prelude.{◌≡◌, ◌++◌, IfOk, OnOk, map};
ghost use Rattle.std.specs.List.{filter_map};
ghost use Rattle.tc_rnc.specs.Views as see;
ghost use Rattle.tc_graph.specs.Graph.{rows_of};
ghost use Rattle.tc_simple.specs.Nodes.{nodes, nodes_of_all, target};

use crate::groups::Table;
use bumpalo::Bump;
use bumpalo::collections::into_bump_slice;
use tc_base::NoMemory;
use tc_rnc::SPat;

/// Adds the numbers of the names to which a pattern refers; within its elements too, or not.
#[cycle(links)]
#[tactic(auto, using(tc_rnc::proofs::Views::see_pattern))]
fn add_links<'b>(
    table: &Table<'b>,
    pattern: &SPat<'b>,
    within: bool,
    found: &mut Vec<usize, &'b Bump>,
) -> Result<(), NoMemory>
    ensures { OnOk result (found.new.items ≡ found.old.items
        ++ filter_map (target table.now) (nodes within (see.pattern pattern.now))) }
{
    match pattern {
        SPat::Empty | SPat::NotAllowed | SPat::Text | SPat::Attribute => Ok(()),
        SPat::Ref(name, _) => {
            if let Some(number) = table.number(name) {
                found.push(number)?;
            }
            Ok(())
        }
        SPat::Element(_, _, p) => {
            if within {
                add_links(table, p, within, found)
            } else {
                Ok(())
            }
        }
        SPat::Mixed(p) | SPat::Optional(p) | SPat::ZeroOrMore(p) | SPat::OneOrMore(p) => {
            add_links(table, p, within, found)
        }
        SPat::Group(ps) | SPat::Choice(ps) | SPat::Interleave(ps) => {
            add_all_links(table, ps, within, found)
        }
    }
}

#[cycle(links)]
fn add_all_links<'b>(
    table: &Table<'b>,
    patterns: &[SPat<'b>],
    within: bool,
    found: &mut Vec<usize, &'b Bump>,
) -> Result<(), NoMemory>
    ensures { OnOk result (found.new.items ≡ found.old.items
        ++ filter_map (target table.now) (nodes_of_all within (see.patterns patterns.now))) }
{
    for pattern in patterns {
        add_links(table, pattern, within, found)?;
    }
    Ok(())
}

/// The numbers of the names to which a pattern refers; within its elements too, or not.
fn links_of<'b>(
    arena: &'b Bump,
    table: &Table<'b>,
    pattern: &SPat<'b>,
    within: bool,
) -> Result<&'b [usize], NoMemory>
    ensures { IfOk result
        (λ ks. ks.now ≡ filter_map (target table.now) (nodes within (see.pattern pattern.now))) }
{
    let mut found = Vec::new(arena);
    add_links(table, pattern, within, &mut found)?;
    Ok(into_bump_slice(found))
}

/// Of each definition those to which it refers; within its elements too, or not.
pub fn links<'b>(
    arena: &'b Bump,
    table: &Table<'b>,
    within: bool,
) -> Result<&'b [&'b [usize]], NoMemory>
    ensures { IfOk result
        (λ v. rows_of v.now
        ≡ map
        (λ p. filter_map (target table.now)
        (nodes within (see.pattern p))) table.now.patterns.items) }
{
    let mut rows = Vec::new(arena);
    for pattern in &table.patterns {
        let row = links_of(arena, table, pattern, within)?;
        rows.push(row)?;
    }
    Ok(into_bump_slice(rows))
}
