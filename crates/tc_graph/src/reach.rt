// Numbers that lead to numbers: which are reached from one.
ghost use Rattle.std.specs.Prelude.{◌≡◌, ◌<◌, length, IfOk, OnOk};
ghost use Rattle.std.specs.List.{All};
ghost use Rattle.tc_graph.specs.Graph.{IsGraph, IsReached, rows_of};
ghost use Rattle.tc_graph.specs.Marks.{Marks};

use bumpalo::Bump;
use tc_base::NoMemory;

/// Marks the numbers of a row, and puts those that weren't with the ones to be looked at.
fn mark(
    row: &[usize],
    marks: &mut Vec<bool, &Bump>,
    pending: &mut Vec<usize, &Bump>,
) -> Result<(), NoMemory>
    requires { All (λ j. j < length marks.old.items) row.now }
    ensures { OnOk result
        (Marks row.now marks.old.items marks.new.items pending.old.items pending.new.items) }
{
    for to in row {
        if !marks[*to] {
            marks[*to] = true;
            pending.push(*to)?;
        }
    }
    Ok(())
}

/// Marks all numbers to which one leads, itself among them.
pub fn reached<'b>(
    arena: &'b Bump,
    rows: &[&[usize]],
    from: usize,
) -> Result<Vec<bool, &'b Bump>, NoMemory>
    requires within { from < length rows.now }
    requires graph { IsGraph (rows_of rows.now) }
    ensures { IfOk result (λ marks. IsReached (rows_of rows.now) from marks.items) }
{
    let mut marks = vec![in arena; false; rows.len()]?;
    let mut pending: Vec<usize, &'b Bump> = Vec::new(arena);
    marks[from] = true;
    pending.push(from)?;
    while let Some(number) = pending.pop() {
        mark(rows[number], &mut marks, &mut pending)?;
    }
    Ok(marks)
}
