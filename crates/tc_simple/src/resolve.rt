// The definitions of a syntax tree by their numbers, and what of them is reached.
ghost use Rattle.std.specs.Prelude.{◌≡◌, ◌<◌, ℕ, [], None, Some, IfErr, IfOk, OnOk, length, true, false};
ghost use Rattle.tc_model.specs.CompactSyntaxTrees as t;
ghost use Rattle.tc_model.specs.Views.{place as see_place};
ghost use Rattle.tc_model.specs.SimplifiesFaults.{first_definition, IsFaultless};
ghost use Rattle.tc_model.specs.SimplifiesParts.{definitions_of};
ghost use Rattle.tc_rnc.specs.Views as see;
ghost use Rattle.tc_graph.specs.Graph.{IsReached};
ghost use Rattle.tc_simple.specs.Nodes.{link_rows};
ghost use Rattle.tc_simple.specs.Refused.{Refuses};
ghost use Rattle.tc_simple.specs.Resolves.{Resolves};
ghost use Rattle.tc_simple.specs.Tables.{IsTable, number_of};
ghost use Rattle.tc_simple.specs.Walked.{HasNames};
ghost use Rattle.tc_graph.specs.Walks.{AreComponents};

use crate::checks::{bad_except, undefined};
use crate::faults::SimpleFault;
use crate::groups::Table;
use crate::links::links;
use crate::loops::{first_loop, starts_well};
use bumpalo::Bump;
use tc_base::{NoMemory, Place};
use tc_graph::{Walk, components, reached};
use tc_rnc::Syntax;

/// The number of `start`, where each name is defined once and `start` and all references are.
pub fn defined_start<'b>(table: &Table<'b>, syntax: &Syntax<'b>) -> Result<usize, SimpleFault>
    requires { IsTable (see.syntax syntax.now) table.now }
    ensures names { OnOk result (HasNames (see.syntax syntax.now)) }
    ensures start { IfOk result (λ start. number_of table.now [] ≡ Some start) }
    ensures err { IfErr result (λ e. Refuses (see.syntax syntax.now) e) }
{
    if let Some(place) = table.clash {
        return Err(SimpleFault::Twice(place));
    }
    if let Some(place) = undefined(table, syntax) {
        return Err(SimpleFault::Undefined(place));
    }
    match table.number("") {
        Some(start) => Ok(start),
        None => Err(SimpleFault::Undefined(syntax.end)),
    }
}

/// Marks the definitions that are reached from one; through elements too, or not.
pub fn mark<'b>(
    arena: &'b Bump,
    table: &Table<'b>,
    start: usize,
    within: bool,
) -> Result<Vec<bool, &'b Bump>, NoMemory>
    requires start { start < length table.now.patterns.items }
    requires table { (s : t.Syntax) × IsTable s table.now }
    ensures { IfOk result (λ v. IsReached (link_rows table.now within) start v.items) }
{
    let rows = links(arena, table, within)?;
    reached(arena, rows, start)
}

/// The components of the definitions.
pub fn walk<'b>(arena: &'b Bump, table: &Table<'b>) -> Result<Walk<'b>, NoMemory>
    requires { (s : t.Syntax) × IsTable s table.now }
    ensures { IfOk result
        (λ w. AreComponents (link_rows table.now false) w.states.items w.order.items) }
{
    let rows = links(arena, table, false)?;
    components(arena, rows)
}

/// The place of the first definition of `start`; 0 where there is none.
pub fn start_place(syntax: &Syntax<'_>) -> Place
    ensures { (first : ℕ)
        → first_definition (definitions_of (see.syntax syntax.now).definitions []) ≡ Some first
        → see_place result ≡ first }
{
    for def in syntax.defs {
        if def.name.is_empty() {
            return def.place;
        }
    }
    Place(0)
}

/// Refuses what has no grammar, where its names are resolved.
pub fn check<'b>(
    arena: &'b Bump,
    syntax: &Syntax<'b>,
    table: &Table<'b>,
    start: usize,
    marks: &[bool],
    walk: &Walk<'b>,
) -> Result<(), SimpleFault>
    requires resolves { Resolves
        (see.syntax syntax.now) table.now start marks.now walk.now.states.items
        walk.now.order.items }
    requires names { HasNames (see.syntax syntax.now) }
    ensures ok { OnOk result (IsFaultless (see.syntax syntax.now)) }
    ensures err { IfErr result (λ e. Refuses (see.syntax syntax.now) e) }
{
    if let Some(place) = first_loop(arena, table, walk, marks)? {
        return Err(SimpleFault::Loop(place));
    }
    if let Some(place) = bad_except(syntax) {
        return Err(SimpleFault::BadExcept(place));
    }
    let below = mark(arena, table, start, false)?;
    let starts = starts_well(table, &below);
    if starts {
        Ok(())
    } else {
        Err(SimpleFault::BadStart(start_place(syntax)))
    }
}
