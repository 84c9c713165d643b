// The automaton of a schema.
ghost use Rattle.std.specs.Prelude.{◌≡◌, ◌-◌, ◌<◌, ◌^◌, ◌∷◌, [], IfOk, Err, min, ℕ};
ghost use Rattle.tc_model.specs.Grammars as g;
ghost use Rattle.tc_model.specs.Views as see;
ghost use Rattle.tc_model.specs.States as states;
ghost use Rattle.tc_auto.specs.Stands.{Built, Stands, side_of};

use crate::arrows::all_arrows;
use crate::auto::{Auto, AutoFault};
use crate::count::state_count;
use crate::rows::{Row, push_part};
use std::alloc::Global;
use tc_base::NoMemory;
use tc_model::{Grammar, Pat};

/// How many states the start has, or none where it isn't counted.
fn total_of_start(grammar: &Grammar<'_>, with_start: bool) -> u64
    ensures { result
        ≡ min (states.first_state (see.grammar grammar.now) (side_of with_start) 1) (2 ^ 64 - 1) }
{
    if with_start {
        state_count(&grammar.start)
    } else {
        0
    }
}

/// How many states a side of a schema has, or the greatest `u64` where it is no less than that.
fn total(grammar: &Grammar<'_>, with_start: bool) -> u64
    ensures { result
        ≡ min (states.state_count (see.grammar grammar.now) (side_of with_start)) (2 ^ 64 - 1) }
{
    let mut total = total_of_start(grammar, with_start);
    for element in grammar.elements {
        total = total.saturating_add(state_count(&element.content));
    }
    total
}

/// The rows of the start, or none.
fn rows_of_start(
    alloc: Global,
    grammar: &Grammar<'_>,
    with_start: bool,
) -> Result<Vec<Row>, NoMemory>
    requires { states.state_count (see.grammar grammar.now) (side_of with_start) < 2 ^ 32 }
    ensures { IfOk result
        (λ r. Built (see.grammar grammar.now) (side_of with_start) 1 (0 ∷ []) r.items) }
{
    let mut rows = Vec::new(alloc);
    if with_start {
        push_part(alloc, &mut rows, &grammar.start, 0)?;
    }
    Ok(rows)
}

/// The automaton of a side of a schema that has so few states.
fn built<'b>(alloc: Global, grammar: &Grammar<'b>, with_start: bool) -> Result<Auto<'b>, NoMemory>
    requires { states.state_count (see.grammar grammar.now) (side_of with_start) < 2 ^ 32 }
    ensures { IfOk result (λ a. Stands (side_of with_start) (see.grammar grammar.now) a) }
{
    let mut rows = rows_of_start(alloc, grammar, with_start)?;
    let mut firsts = Vec::new(alloc);
    firsts.push(0)?;
    for element in grammar.elements {
        let first = rows.len() as u32;
        firsts.push(first)?;
        push_part(alloc, &mut rows, &element.content, first)?;
    }
    let arrows = all_arrows(alloc, &rows, grammar.elements.len() as u32)?;
    Ok(Auto {
        start: grammar.start,
        elements: grammar.elements,
        firsts,
        rows,
        arrows,
    })
}

/// The automaton of a side of a schema.
pub fn made<'b>(
    alloc: Global,
    grammar: &Grammar<'b>,
    with_start: bool,
    most: u32,
) -> Result<Auto<'b>, AutoFault>
    ensures stands { IfOk result (λ a. Stands (side_of with_start) (see.grammar grammar.now) a) }
    ensures too_many { result ≡ Err AutoFault.TooManyStates
        → most < states.state_count (see.grammar grammar.now) (side_of with_start) }
    ensures told { most < states.state_count (see.grammar grammar.now) (side_of with_start)
        → result ≡ Err AutoFault.TooManyStates }
{
    if total(grammar, with_start) > u64::from(most) {
        return Err(AutoFault::TooManyStates);
    }
    match built(alloc, grammar, with_start) {
        Ok(auto) => Ok(auto),
        Err(_) => Err(AutoFault::NoMemory),
    }
}
