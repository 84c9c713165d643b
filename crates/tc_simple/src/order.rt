// The definitions one after the other, each after those to which it refers outside its elements.
ghost use Rattle.std.specs.Prelude.{◌≡◌, ◌<◌, ◌≤◌, ℕ, List, length, map, IfOk, OnOk};
ghost use Rattle.std.specs.List.{All};
ghost use Rattle.tc_base.specs.declared.limits.TheConstants.{MOST_ELEMENT_PATTERNS};
ghost use Rattle.tc_model.specs.CompactSyntaxTrees as t;
ghost use Rattle.tc_model.specs.Simplifies.{Element};
ghost use Rattle.tc_simple.specs.Nodes.{see_element};
ghost use Rattle.tc_simple.specs.Orders.{AreMade, AreSized, IsOrderly, PutsPattern, PutsSize};
ghost use Rattle.tc_simple.specs.Walked.{AreMarks, IsPlace};

use crate::becomes::pattern;
use crate::counts::{Size, measure};
use crate::elements::Elem;
use crate::groups::Table;
use bumpalo::Bump;
use tc_base::NoMemory;
use tc_graph::Walk;
use tc_model::Pat;

/// Works out the size of a definition, if it is marked.
fn put_size(table: &Table<'_>, marks: &[bool], number: usize, sizes: &mut [Size])
    requires marks { AreMarks table.now marks.now }
    requires place { IsPlace table.now number (length sizes.old) }
    ensures { PutsSize table.now marks.now number sizes.old sizes.new }
{
    if !marks[number] {
        return;
    }
    let size = measure(table, sizes, &table.patterns[number]);
    sizes[number] = size;
}

/// The sizes of the definitions that are marked.
pub fn all_sizes<'b>(
    arena: &'b Bump,
    table: &Table<'b>,
    walk: &Walk<'b>,
    marks: &[bool],
) -> Result<&'b [Size], NoMemory>
    requires marks { AreMarks table.now marks.now }
    requires order { All (λ k. k < length table.now.patterns.items) walk.now.order.items }
    ensures { IfOk result
        (λ v. (length v.now ≡ length table.now.patterns.items)
        × ((s : t.Syntax) (es : List Element)
        → IsOrderly s table.now marks.now walk.now.states.items walk.now.order.items
        → AreSized s es table.now marks.now walk.now.states.items
        (length walk.now.order.items) v.now)) }
{
    let sizes: &'b mut [Size] = arena.try_alloc_slice_fill_clone(
        table.patterns.len(),
        Size { nodes: 1, depth: 1 },
    )?;
    for number in &walk.order {
        put_size(table, marks, *number, sizes);
    }
    Ok(sizes)
}

/// Makes the pattern of a definition, if it is marked.
fn put_pattern<'b>(
    arena: &'b Bump,
    table: &Table<'b>,
    marks: &[bool],
    number: usize,
    elements: &[Elem<'b>],
    made: &mut [Pat<'b>],
) -> Result<(), NoMemory>
    requires marks { AreMarks table.now marks.now }
    requires place { IsPlace table.now number (length made.old) }
    requires few { length elements.now ≤ MOST_ELEMENT_PATTERNS }
    ensures { OnOk result
        (PutsPattern table.now marks.now (map see_element elements.now) number made.old made.new) }
{
    if !marks[number] {
        return Ok(());
    }
    let p = pattern(arena, table, &table.patterns[number], elements, made)?;
    made[number] = p;
    Ok(())
}

/// The patterns that the definitions become that are marked.
pub fn all_patterns<'b>(
    arena: &'b Bump,
    table: &Table<'b>,
    walk: &Walk<'b>,
    marks: &[bool],
    elements: &[Elem<'b>],
) -> Result<&'b [Pat<'b>], NoMemory>
    requires marks { AreMarks table.now marks.now }
    requires order { All (λ k. k < length table.now.patterns.items) walk.now.order.items }
    requires few { length elements.now ≤ MOST_ELEMENT_PATTERNS }
    ensures { IfOk result
        (λ v. (length v.now ≡ length table.now.patterns.items)
        × ((s : t.Syntax)
        → IsOrderly s table.now marks.now walk.now.states.items walk.now.order.items
        → AreMade s (map see_element elements.now) table.now marks.now walk.now.states.items
        (length walk.now.order.items) v.now)) }
{
    let made: &'b mut [Pat<'b>] = arena.try_alloc_slice_fill_clone(
        table.patterns.len(),
        Pat::NotAllowed,
    )?;
    for number in &walk.order {
        put_pattern(arena, table, marks, *number, elements, made)?;
    }
    Ok(made)
}
