// Repetition: the first edges of a pattern again from where it accepts, each edge once.
// Where an edge may already stand is looked up in a table of hints; nothing depends on what it says.
ghost use Rattle.std.specs.Prelude.{◌≡◌, ◌==◌, filter, IfOk, IsTrue, OnOk};
ghost use Rattle.std.specs.List.{Contains};
ghost use Rattle.tc_auto.specs.Repeats.{Gains, IsThis, LeadsFrom, LeadsFromSome};
ghost use Rattle.tc_auto.specs.Steps.{Shows, leaf};
ghost use Rattle.tc_auto.specs.declared.nfa.Transition.{Transition};
ghost use Rattle.tc_model.specs.Grammars.{Pattern};
ghost use Rattle.tc_model.specs.States.{automaton, repeat_of};

use crate::nfa::{Nfa, Transition};
use std::alloc::Global;
use tc_base::NoMemory;

/// The edges from state 0.
fn first_steps(alloc: Global, part: &Nfa) -> Result<Vec<Transition>, NoMemory>
    ensures { IfOk result
        (λ r. r.items ≡ filter (λ (x : Transition). x.from == 0) part.now.steps.items) }
{
    let firsts = part
        .steps
        .iter()
        .copied()
        .filter(|step| step.from == 0)
        .collect(alloc)?;
    Ok(firsts)
}

/// For each state below a count which first edge leads there, or the number of first edges where none does.
fn places_of(alloc: Global, count: u32, firsts: &[Transition]) -> Result<Vec<usize>, NoMemory> {
    let mut places = vec![in alloc; firsts.len(); count as usize]?;
    for (place, first) in firsts.iter().enumerate() {
        let at = first.to as usize;
        if at < places.len() {
            places[at] = place;
        }
    }
    Ok(places)
}

/// Notes where an edge stands that leads from an accepting state and to where a first edge leads.
fn note(hints: &mut [Vec<usize>], end: usize, first: usize, place: usize) {
    if end < hints.len() && first < hints[end].len() {
        hints[end][first] = place;
    }
}

/// For each state a row with no hint yet: for each first edge where the state accepts, and empty elsewhere.
fn no_hints(alloc: Global, part: &Nfa, firsts: usize) -> Result<Vec<Vec<usize>>, NoMemory> {
    let mut hints = Vec::new(alloc);
    for _state in 0..part.count {
        hints.push(Vec::new(alloc))?;
    }
    for state in &part.accepting {
        if let Some(row) = hints.get_mut(*state as usize) {
            *row = vec![in alloc; part.steps.len(); firsts]?;
        }
    }
    Ok(hints)
}

/// For each state, where it accepts, and each first edge a place at which the edge from the one to where the
/// other leads may stand: whoever takes it looks whether it does.
fn hints_of(alloc: Global, part: &Nfa, firsts: &[Transition]) -> Result<Vec<Vec<usize>>, NoMemory> {
    let places = places_of(alloc, part.count, firsts)?;
    let mut hints = no_hints(alloc, part, firsts.len())?;
    for (place, step) in part.steps.iter().enumerate() {
        if let Some(first) = places.get(step.to as usize) {
            note(&mut hints, step.from as usize, *first, place);
        }
    }
    Ok(hints)
}

/// Whether an edge stands at a place.
fn is_at(steps: &[Transition], place: usize, step: Transition) -> bool
    ensures { IsTrue result → Contains steps.now step }
{
    let Some(other) = steps.get(place) else {
        return false;
    };
    if other.from != step.from {
        return false;
    }
    if other.to != step.to {
        return false;
    }
    other.leaf == step.leaf
}

/// Adds an edge unless it stands at a place.
fn push_unless_at(
    steps: &mut Vec<Transition>,
    step: Transition,
    place: usize,
) -> Result<(), NoMemory>
    ensures { OnOk result (Gains steps.old.items steps.new.items (IsThis step)) }
{
    if !is_at(steps, place, step) {
        steps.push(step)?;
    }
    Ok(())
}

/// Adds the first edges from a state, but for those that stand where the hints say.
fn push_from(
    steps: &mut Vec<Transition>,
    from: u32,
    firsts: &[Transition],
    hints: &[usize],
) -> Result<(), NoMemory>
    ensures { OnOk result (Gains steps.old.items steps.new.items (LeadsFrom from firsts.now)) }
{
    for (place, first) in firsts.iter().enumerate() {
        let step = Transition {
            from,
            leaf: first.leaf,
            to: first.to,
        };
        let hint = hints.get(place).copied().unwrap_or(usize::MAX);
        push_unless_at(steps, step, hint)?;
    }
    Ok(())
}

/// Adds the first edges from some states, but for those that stand where the hints say.
fn push_from_all(
    steps: &mut Vec<Transition>,
    states: &[u32],
    firsts: &[Transition],
    hints: &[Vec<usize>],
) -> Result<(), NoMemory>
    ensures { OnOk result
        (Gains steps.old.items steps.new.items (LeadsFromSome states.now firsts.now)) }
{
    for state in states {
        match hints.get(*state as usize) {
            Some(row) => push_from(steps, *state, firsts, row)?,
            None => push_from(steps, *state, firsts, &[])?,
        }
    }
    Ok(())
}

/// One or more, one after the other.
pub fn repeat(alloc: Global, part: Nfa) -> Result<Nfa, NoMemory>
    ensures { (p : Pattern) → Shows part (automaton p)
        → IfOk result (λ r. Shows r (repeat_of (automaton p))) }
{
    let firsts = first_steps(alloc, &part)?;
    let hints = hints_of(alloc, &part, &firsts)?;
    let mut steps = part.steps;
    push_from_all(&mut steps, &part.accepting, &firsts, &hints)?;
    Ok(Nfa {
        count: part.count,
        steps,
        accepting: part.accepting,
    })
}
