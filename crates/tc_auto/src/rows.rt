// The rows of a schema's states, part after part.
ghost use Rattle.std.specs.Prelude.{◌≡◌, ◌<◌, ◌+◌, ◌^◌, ◌++◌, ◌∷◌, [], List, length, IfOk, IsTrue, ◌↔◌};
ghost use Rattle.std.specs.List.{Contains};
ghost use Rattle.tc_model.specs.Views.{pattern};
ghost use Rattle.tc_model.specs.States.{automaton};
ghost use Rattle.tc_auto.specs.Rows.{AreRowsFor, AreRowsOf, IsRowOf};
ghost use Rattle.tc_auto.specs.Steps.{IsWithin, edges_from};
ghost use Rattle.tc_auto.specs.declared.rows.Row.{Row};

use crate::auto::Edge;
use crate::build::part_of;
use crate::nfa::{Nfa, Transition};
use std::alloc::Global;
use tc_base::NoMemory;
use tc_model::Pat;

/// The edges of a state, and whether it accepts.
#[derive(Drop)]
pub struct Row {
    pub edges: Vec<Edge>,
    pub accepting: bool,
}

/// Adds an edge if it begins at the state.
fn push_edge(edges: &mut Vec<Edge>, step: Transition, base: u32, state: u32) -> Result<(), NoMemory>
    requires { step.to + base < 2 ^ 32 }
    ensures { IfOk result
        (λ _. edges.new.items ≡ edges.old.items ++ edges_from base state (step ∷ [])) }
{
    if step.from == state {
        edges.push(Edge {
            to: base + step.to,
            leaf: step.leaf,
        })?;
    }
    Ok(())
}

/// Whether a state is one of some.
fn has_state(states: &[u32], state: u32) -> bool
    ensures { IsTrue result ↔ Contains states.now state }
{
    states.contains(&state)
}

/// The row of a state of a part whose first state has the number `base`.
fn row_of(alloc: Global, part: &Nfa, base: u32, state: u32) -> Result<Row, NoMemory>
    requires within { IsWithin part.now }
    requires room { part.now.count + base < 2 ^ 32 }
    ensures { IfOk result (λ r. IsRowOf part.now base state r) }
{
    let mut edges = Vec::new(alloc);
    for step in &part.steps {
        push_edge(&mut edges, *step, base, state)?;
    }
    Ok(Row {
        edges,
        accepting: has_state(&part.accepting, state),
    })
}

/// Adds the rows of a part.
fn push_rows(alloc: Global, rows: &mut Vec<Row>, part: &Nfa, base: u32) -> Result<(), NoMemory>
    requires within { IsWithin part.now }
    requires room { part.now.count + base < 2 ^ 32 }
    ensures { IfOk result (λ _. (added : List Row) × (rows.new.items ≡ rows.old.items ++ added)
        × AreRowsOf part.now base part.now.count added) }
{
    for state in 0..part.count {
        rows.push(row_of(alloc, part, base, state)?)?;
    }
    Ok(())
}

/// Adds the rows of a pattern, the first of which has the number `base`.
pub fn push_part(
    alloc: Global,
    rows: &mut Vec<Row>,
    pat: &Pat<'_>,
    base: u32,
) -> Result<(), NoMemory>
    requires { (automaton (pattern pat.now)).count + base < 2 ^ 32 }
    ensures { IfOk result (λ _. (added : List Row) × (rows.new.items ≡ rows.old.items ++ added)
        × AreRowsFor (automaton (pattern pat.now)) base added) }
{
    let part = part_of(alloc, pat)?;
    push_rows(alloc, rows, &part, base)?;
    Ok(())
}
