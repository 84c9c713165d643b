// The automaton of a pattern, by the automata of its members.
ghost use Rattle.std.specs.Prelude.{◌<◌, ◌^◌, IfOk};
ghost use Rattle.tc_model.specs.Grammars as g;
ghost use Rattle.tc_model.specs.Views.{pattern, patterns};
ghost use Rattle.tc_model.specs.States.{automaton, repeat_of};
ghost use Rattle.tc_auto.specs.Steps.{Shows};

use crate::nfa::{Nfa, choice, group, interleave, never, nothing_more, one_element, texts};
use crate::repeats::repeat;
use std::alloc::Global;
use tc_base::NoMemory;
use tc_model::Pat;

/// The automaton of one or more of a pattern from its own. One or more of one or more are one or more.
fn again(alloc: Global, pat: &Pat<'_>, part: Nfa) -> Result<Nfa, NoMemory>
    requires { Shows part (automaton (pattern pat.now)) }
    ensures { IfOk result (λ r. Shows r (repeat_of (automaton (pattern pat.now)))) }
{
    match pat {
        Pat::OneOrMore(_) => Ok(part),
        _ => repeat(alloc, part),
    }
}

/// The automaton of a pattern.
#[cycle(build)]
#[tactic(auto, using(tc_model::proofs::ViewsGrammar::see_pattern))]
pub fn part_of(alloc: Global, pat: &Pat<'_>) -> Result<Nfa, NoMemory>
    requires { (automaton (pattern pat.now)).count < 2 ^ 32 }
    ensures { IfOk result (λ r. Shows r (automaton (pattern pat.now))) }
{
    match pat {
        Pat::Empty => nothing_more(alloc),
        Pat::NotAllowed => Ok(never(alloc)),
        Pat::Text => texts(alloc),
        Pat::Ref(number) => one_element(alloc, *number),
        Pat::Group(members) => group_of(alloc, members),
        Pat::Choice(members) => choice_of(alloc, members),
        Pat::Interleave(members) => interleave_of(alloc, members),
        Pat::OneOrMore(member) => again(alloc, member, part_of(alloc, member)?),
    }
}

#[cycle(build)]
fn group_of(alloc: Global, members: &[Pat<'_>]) -> Result<Nfa, NoMemory>
    requires { (automaton (g.group (patterns members.now))).count < 2 ^ 32 }
    ensures { IfOk result (λ r. Shows r (automaton (g.group (patterns members.now)))) }
{
    let mut whole = nothing_more(alloc)?;
    for member in members {
        whole = group(alloc, whole, part_of(alloc, member)?)?;
    }
    Ok(whole)
}

#[cycle(build)]
fn choice_of(alloc: Global, members: &[Pat<'_>]) -> Result<Nfa, NoMemory>
    requires { (automaton (g.choice (patterns members.now))).count < 2 ^ 32 }
    ensures { IfOk result (λ r. Shows r (automaton (g.choice (patterns members.now)))) }
{
    let mut whole = never(alloc);
    for member in members {
        whole = choice(whole, part_of(alloc, member)?)?;
    }
    Ok(whole)
}

#[cycle(build)]
fn interleave_of(alloc: Global, members: &[Pat<'_>]) -> Result<Nfa, NoMemory>
    requires { (automaton (g.interleave (patterns members.now))).count < 2 ^ 32 }
    ensures { IfOk result (λ r. Shows r (automaton (g.interleave (patterns members.now)))) }
{
    let mut whole = nothing_more(alloc)?;
    for member in members {
        whole = interleave(alloc, whole, part_of(alloc, member)?)?;
    }
    Ok(whole)
}
