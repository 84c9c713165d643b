// The automaton of one pattern, put together from those of its parts.
ghost use Rattle.std.specs.Prelude.{◌≡◌, ◌<◌, ◌≤◌, ◌*◌, ◌+◌, ◌^◌, ◌++◌, ◌↔◌, IfOk, IsTrue, false};
ghost use Rattle.std.specs.List.{Contains};
ghost use Rattle.tc_model.specs.Grammars.{Pattern};
ghost use Rattle.tc_model.specs.States.{automaton, choice_of, empty_automaton, group_of, interleave_of, nothing_automaton, ref_automaton, text_automaton};
ghost use Rattle.tc_auto.specs.Steps.{IsWithin, Shows, all_beside_first, all_beside_second, all_pairs, beside_first, beside_second, carried, from_each, later, moved, pairs, unless_start};

use crate::auto::Leaf;
use std::alloc::Global;
use tc_base::NoMemory;

/// An edge from a state of a pattern to another.
#[derive(Clone, Copy)]
pub struct Transition {
    pub from: u32,
    pub leaf: Leaf,
    pub to: u32,
}

/// The automaton of a pattern: its states from 0, its edges, and the states that accept, each once.
#[derive(Drop)]
pub struct Nfa {
    pub count: u32,
    pub steps: Vec<Transition>,
    pub accepting: Vec<u32>,
}

/// Adds an edge from each of some states.
fn push_from_each(
    steps: &mut Vec<Transition>,
    starts: &[u32],
    leaf: Leaf,
    to: u32,
) -> Result<(), NoMemory>
    ensures { IfOk result (λ _. steps.new.items ≡ steps.old.items ++ from_each starts.now leaf to) }
{
    for start in starts {
        steps.push(Transition {
            from: *start,
            leaf,
            to,
        })?;
    }
    Ok(())
}

/// Adds an edge of a second automaton, moved by a number; one from state 0 from each of some states.
fn push_moved(
    steps: &mut Vec<Transition>,
    step: Transition,
    by: u32,
    starts: &[u32],
) -> Result<(), NoMemory>
    requires from { step.from + by < 2 ^ 32 }
    requires to { step.to + by < 2 ^ 32 }
    ensures { IfOk result (λ _. steps.new.items ≡ steps.old.items ++ moved by starts.now step) }
{
    if step.from == 0 {
        push_from_each(steps, starts, step.leaf, by + step.to)
    } else {
        steps.push(Transition {
            from: by + step.from,
            leaf: step.leaf,
            to: by + step.to,
        })?;
        Ok(())
    }
}

/// Adds the edges of a second automaton, moved by a number: those from its states but 0, and those from
/// its state 0 from each of some states.
fn push_all_moved(
    steps: &mut Vec<Transition>,
    second: &Nfa,
    by: u32,
    starts: &[u32],
) -> Result<(), NoMemory>
    requires within { IsWithin second.now }
    requires room { second.now.count + by ≤ 2 ^ 32 }
    ensures { IfOk result
        (λ _. steps.new.items ≡ steps.old.items ++ carried by starts.now second.now.steps.items) }
{
    for step in &second.steps {
        push_moved(steps, *step, by, starts)?;
    }
    Ok(())
}

/// Adds a state, moved by a number, unless it is 0.
fn push_unless_start(ends: &mut Vec<u32>, end: u32, by: u32) -> Result<(), NoMemory>
    requires { end + by < 2 ^ 32 }
    ensures { IfOk result (λ _. ends.new.items ≡ ends.old.items ++ unless_start by end) }
{
    if end != 0 {
        ends.push(by + end)?;
    }
    Ok(())
}

/// Adds the accepting states of a second automaton, moved by a number, all but state 0.
fn push_later(ends: &mut Vec<u32>, second: &Nfa, by: u32) -> Result<(), NoMemory>
    requires within { IsWithin second.now }
    requires room { second.now.count + by ≤ 2 ^ 32 }
    ensures { IfOk result
        (λ _. ends.new.items ≡ ends.old.items ++ later by second.now.accepting.items) }
{
    for end in &second.accepting {
        push_unless_start(ends, *end, by)?;
    }
    Ok(())
}

/// Whether state 0 is one of them.
fn has_start(ends: &[u32]) -> bool
    ensures { IsTrue result ↔ Contains ends.now 0 }
{
    ends.contains(&0)
}

/// Whether state 0 is one of the second states alone.
fn start_is_added(first: &[u32], second: &[u32]) -> bool
    ensures added { IsTrue result → Contains second.now 0 }
    ensures kept { result ≡ false → Contains second.now 0 → Contains first.now 0 }
{
    has_start(second) && !has_start(first)
}

/// The automaton of `empty`.
pub fn nothing_more(alloc: Global) -> Result<Nfa, NoMemory>
    ensures { IfOk result (λ r. Shows r empty_automaton) }
{
    let mut ends = Vec::new(alloc);
    ends.push(0)?;
    Ok(Nfa {
        count: 1,
        steps: Vec::new(alloc),
        accepting: ends,
    })
}

/// The automaton of `notAllowed`.
pub fn never(alloc: Global) -> Nfa
    ensures { Shows result nothing_automaton }
{
    Nfa {
        count: 1,
        steps: Vec::new(alloc),
        accepting: Vec::new(alloc),
    }
}

/// The automaton of `text`.
pub fn texts(alloc: Global) -> Result<Nfa, NoMemory>
    ensures { IfOk result (λ r. Shows r text_automaton) }
{
    let mut steps = Vec::new(alloc);
    steps.push(Transition {
        from: 0,
        leaf: Leaf::Text,
        to: 1,
    })?;
    steps.push(Transition {
        from: 1,
        leaf: Leaf::Text,
        to: 1,
    })?;
    let mut ends = Vec::new(alloc);
    ends.push(0)?;
    ends.push(1)?;
    Ok(Nfa {
        count: 2,
        steps,
        accepting: ends,
    })
}

/// The automaton of one element.
pub fn one_element(alloc: Global, pattern: u32) -> Result<Nfa, NoMemory>
    ensures { IfOk result (λ r. Shows r (ref_automaton pattern)) }
{
    let mut steps = Vec::new(alloc);
    steps.push(Transition {
        from: 0,
        leaf: Leaf::Ref(pattern),
        to: 1,
    })?;
    let mut ends = Vec::new(alloc);
    ends.push(1)?;
    Ok(Nfa {
        count: 2,
        steps,
        accepting: ends,
    })
}

/// One after the other.
pub fn group(alloc: Global, first: Nfa, second: Nfa) -> Result<Nfa, NoMemory>
    requires within { IsWithin first × IsWithin second }
    requires room { first.count + second.count ≤ 2 ^ 32 }
    ensures { (p q : Pattern) → Shows first (automaton p) → Shows second (automaton q)
        → IfOk result (λ r. Shows r (group_of (automaton p) (automaton q))) }
{
    let by = first.count - 1;
    let mut steps = first.steps;
    push_all_moved(&mut steps, &second, by, &first.accepting)?;
    let mut ends = Vec::new(alloc);
    push_later(&mut ends, &second, by)?;
    if has_start(&second.accepting) {
        ends.extend_from_slice(&first.accepting)?;
    }
    Ok(Nfa {
        count: by + second.count,
        steps,
        accepting: ends,
    })
}

/// One of both.
pub fn choice(first: Nfa, second: Nfa) -> Result<Nfa, NoMemory>
    requires within { IsWithin first × IsWithin second }
    requires room { first.count + second.count ≤ 2 ^ 32 }
    ensures { (p q : Pattern) → Shows first (automaton p) → Shows second (automaton q)
        → IfOk result (λ r. Shows r (choice_of (automaton p) (automaton q))) }
{
    let by = first.count - 1;
    let adds_start = start_is_added(&first.accepting, &second.accepting);
    let mut steps = first.steps;
    push_all_moved(&mut steps, &second, by, &[0])?;
    let mut ends = first.accepting;
    push_later(&mut ends, &second, by)?;
    if adds_start {
        ends.push(0)?;
    }
    Ok(Nfa {
        count: by + second.count,
        steps,
        accepting: ends,
    })
}

/// The number of the pair of two states, the second of `count`.
fn pair(count: u32, x: u32, y: u32) -> u32
    requires { x * count + y < 2 ^ 32 }
    ensures { result ≡ x * count + y }
{
    x * count + y
}

/// Adds an edge of the first automaton beside each state of the second.
fn push_beside_second(
    steps: &mut Vec<Transition>,
    step: Transition,
    first_count: u32,
    count: u32,
) -> Result<(), NoMemory>
    requires within { (step.from < first_count) × (step.to < first_count) }
    requires room { first_count * count < 2 ^ 32 }
    ensures { IfOk result
        (λ _. steps.new.items ≡ steps.old.items ++ beside_second step count count) }
{
    for y in 0..count {
        steps.push(Transition {
            from: pair(count, step.from, y),
            leaf: step.leaf,
            to: pair(count, step.to, y),
        })?;
    }
    Ok(())
}

/// Adds an edge of the second automaton beside each state of the first.
fn push_beside_first(
    steps: &mut Vec<Transition>,
    step: Transition,
    first_count: u32,
    count: u32,
) -> Result<(), NoMemory>
    requires within { (step.from < count) × (step.to < count) }
    requires room { first_count * count < 2 ^ 32 }
    ensures { IfOk result
        (λ _. steps.new.items ≡ steps.old.items ++ beside_first step count first_count) }
{
    for x in 0..first_count {
        steps.push(Transition {
            from: pair(count, x, step.from),
            leaf: step.leaf,
            to: pair(count, x, step.to),
        })?;
    }
    Ok(())
}

/// Adds the edges of the first automaton beside each state of the second.
fn push_all_beside_second(
    steps: &mut Vec<Transition>,
    first: &Nfa,
    count: u32,
) -> Result<(), NoMemory>
    requires within { IsWithin first.now }
    requires room { first.now.count * count < 2 ^ 32 }
    ensures { IfOk result
        (λ _. steps.new.items ≡ steps.old.items ++ all_beside_second first.now.steps.items count) }
{
    for step in &first.steps {
        push_beside_second(steps, *step, first.count, count)?;
    }
    Ok(())
}

/// Adds the edges of the second automaton beside each state of the first.
fn push_all_beside_first(
    steps: &mut Vec<Transition>,
    second: &Nfa,
    first_count: u32,
) -> Result<(), NoMemory>
    requires within { IsWithin second.now }
    requires room { first_count * second.now.count < 2 ^ 32 }
    ensures { IfOk result (λ _. steps.new.items ≡ steps.old.items
        ++ all_beside_first second.now.steps.items second.now.count first_count) }
{
    for step in &second.steps {
        push_beside_first(steps, *step, first_count, second.count)?;
    }
    Ok(())
}

/// The edges of two automata at once.
fn all_beside(alloc: Global, first: &Nfa, second: &Nfa) -> Result<Vec<Transition>, NoMemory>
    requires within { IsWithin first.now × IsWithin second.now }
    requires room { first.now.count * second.now.count < 2 ^ 32 }
    ensures { IfOk result (λ r. r.items ≡ all_beside_second first.now.steps.items second.now.count
        ++ all_beside_first second.now.steps.items second.now.count first.now.count) }
{
    let mut steps = Vec::new(alloc);
    push_all_beside_second(&mut steps, first, second.count)?;
    push_all_beside_first(&mut steps, second, first.count)?;
    Ok(steps)
}

/// Adds the pairs of a state and each of some others.
fn push_pairs(ends: &mut Vec<u32>, x: u32, others: &Nfa, first_count: u32) -> Result<(), NoMemory>
    requires within { IsWithin others.now }
    requires inside { x < first_count }
    requires room { first_count * others.now.count < 2 ^ 32 }
    ensures { IfOk result (λ _. ends.new.items ≡ ends.old.items
        ++ pairs others.now.count x others.now.accepting.items) }
{
    for y in &others.accepting {
        ends.push(pair(others.count, x, *y))?;
    }
    Ok(())
}

/// The pairs of accepting states.
fn pairs_of_ends(alloc: Global, first: &Nfa, second: &Nfa) -> Result<Vec<u32>, NoMemory>
    requires within { IsWithin first.now × IsWithin second.now }
    requires room { first.now.count * second.now.count < 2 ^ 32 }
    ensures { IfOk result (λ r. r.items
        ≡ all_pairs second.now.count first.now.accepting.items second.now.accepting.items) }
{
    let mut ends = Vec::new(alloc);
    for x in &first.accepting {
        push_pairs(&mut ends, *x, second, first.count)?;
    }
    Ok(ends)
}

/// Both at once, each item taken by the one or the other.
pub fn interleave(alloc: Global, first: Nfa, second: Nfa) -> Result<Nfa, NoMemory>
    requires within { IsWithin first × IsWithin second }
    requires room { first.count * second.count < 2 ^ 32 }
    ensures { (p q : Pattern) → Shows first (automaton p) → Shows second (automaton q)
        → IfOk result (λ r. Shows r (interleave_of (automaton p) (automaton q))) }
{
    let ends = pairs_of_ends(alloc, &first, &second)?;
    let steps = all_beside(alloc, &first, &second)?;
    Ok(Nfa {
        count: first.count * second.count,
        steps,
        accepting: ends,
    })
}
