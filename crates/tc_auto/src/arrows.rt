// The edges of a schema by what they take.
// Edges are told twice, by state and by what they take, since sets of pairs are put leaf by leaf and runs go
// state by state.
ghost use Rattle.std.specs.Prelude.{◌≡◌, ◌<◌, ◌+◌, ◌^◌, IfOk, OnOk, length};
ghost use Rattle.tc_auto.specs.Arrows.{AreArrows, AreArrowsOf, Gains, IsFrom, IsSome};
ghost use Rattle.tc_auto.specs.declared.arrows.Arrow.{Arrow};

use crate::auto::{Edge, Leaf};
use crate::rows::Row;
use std::alloc::Global;
use tc_base::NoMemory;

/// An edge from a state to a state.
#[derive(Clone, Copy)]
pub struct Arrow {
    pub from: u32,
    pub to: u32,
}

/// Adds an edge of a state if it takes what the leaf does.
fn push_arrow(arrows: &mut Vec<Arrow>, from: u32, edge: Edge, leaf: Leaf) -> Result<(), NoMemory>
    ensures { OnOk result (Gains arrows.old.items arrows.new.items (IsSome from edge leaf)) }
{
    if edge.leaf == leaf {
        arrows.push(Arrow { from, to: edge.to })?;
    }
    Ok(())
}

/// Adds those edges of a state that take what a leaf does.
fn push_arrows_from(
    arrows: &mut Vec<Arrow>,
    from: u32,
    row: &Row,
    leaf: Leaf,
) -> Result<(), NoMemory>
    ensures { OnOk result
        (Gains arrows.old.items arrows.new.items (IsFrom from row.now.edges.items leaf)) }
{
    for edge in &row.edges {
        push_arrow(arrows, from, *edge, leaf)?;
    }
    Ok(())
}

/// The edges that take what a leaf does.
fn arrows_of(alloc: Global, rows: &[Row], leaf: Leaf) -> Result<Vec<Arrow>, NoMemory>
    requires { length rows.now < 2 ^ 32 }
    ensures { IfOk result (λ v. AreArrowsOf rows.now leaf v.items) }
{
    let mut arrows = Vec::new(alloc);
    for (state, row) in rows.iter().enumerate() {
        push_arrows_from(&mut arrows, state as u32, row, leaf)?;
    }
    Ok(arrows)
}

/// The edges that take a text, and then those that take an element by each element pattern.
pub(crate) fn all_arrows(
    alloc: Global,
    rows: &[Row],
    patterns: u32,
) -> Result<Vec<Vec<Arrow>>, NoMemory>
    requires { length rows.now < 2 ^ 32 }
    ensures counted { IfOk result (λ v. length v.items ≡ patterns + 1) }
    ensures arrows { IfOk result (λ v. AreArrows rows.now v.items) }
{
    let mut all = Vec::new(alloc);
    all.push(arrows_of(alloc, rows, Leaf::Text)?)?;
    for before in 0..patterns {
        all.push(arrows_of(alloc, rows, Leaf::Ref(before + 1))?)?;
    }
    Ok(all)
}
