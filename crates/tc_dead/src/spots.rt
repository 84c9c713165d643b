// The spots of a stylesheet.
ghost use Rattle.std.specs.Prelude.{◌≡◌, ◌+◌, ◌++◌, map, IfOk, OnOk};
ghost use Rattle.tc_dead.specs.Spots as s;
ghost use Rattle.tc_dead.specs.Spots.{branches_of_all, up_to, rule_bodies, spots_of};
ghost use Rattle.tc_dead.specs.Views.{seen, bodies, alone, open_branches};
ghost use Rattle.tc_model.specs.Sheets as model;
ghost use Rattle.tc_model.specs.Views as see;

use bumpalo::Bump;
use bumpalo::collections::into_bump_slice;
use tc_base::NoMemory;
use tc_model::{Branch, Instr, Rule, Sheet};

/// A rule, a named body or a branch of a stylesheet, by its number among those of its kind from 1.
#[derive(Clone, Copy, Debug, PartialEq, Eq)]
pub enum Spot {
    Rule(u32),
    Named(u32),
    Branch(u32),
}

/// A number as spots hold it. One that they do not hold is told as want of memory.
fn number(count: usize) -> Result<u32, NoMemory>
    ensures { IfOk result (λ n. n ≡ count) }
{
    match u32::try_from(count) {
        Ok(number) => Ok(number),
        Err(_) => Err(NoMemory),
    }
}

/// The number after this one.
pub(crate) fn next_number(count: usize) -> Result<u32, NoMemory>
    ensures { IfOk result (λ n. n ≡ count + 1) }
{
    let number = number(count)?;
    one_more(number)
}

/// The number after this one.
pub(crate) fn one_more(number: u32) -> Result<u32, NoMemory>
    ensures { IfOk result (λ n. n ≡ number + 1) }
{
    match number.checked_add(1) {
        Some(next) => Ok(next),
        None => Err(NoMemory),
    }
}

/// How many branches stand in branches and before them, those of their bodies too.
#[cycle(branches)]
fn branches_in(before: u32, branches: &[Branch<'_>]) -> Result<u32, NoMemory>
    ensures { IfOk result (λ n. n ≡ before + s.branches_in (open_branches branches.now)) }
{
    let mut count = before;
    for branch in branches {
        let this = one_more(count)?;
        count = branches_of(this, branch.body)?;
    }
    Ok(count)
}

/// How many branches an `otherwise` is and has, and stand before it: without instructions it is none.
#[cycle(branches)]
fn branches_of_last(before: u32, last: &[Instr<'_>]) -> Result<u32, NoMemory>
    ensures { IfOk result (λ n. n ≡ before + s.branches_in (model.otherwise (see.body last.now))) }
{
    if last.is_empty() {
        return Ok(before);
    }
    let this = one_more(before)?;
    branches_of(this, last)
}

/// How many branches an instruction has, and stand before it.
#[cycle(branches)]
fn branches_of_one(before: u32, instruction: &Instr<'_>) -> Result<u32, NoMemory>
    ensures { IfOk result (λ n. n ≡ before + s.branches_of (alone instruction.now)) }
{
    match instruction {
        Instr::Elem(_, inner) | Instr::Copy(inner) | Instr::ForEach(_, _, inner) => {
            branches_of(before, inner)
        }
        Instr::Choose(branches, last) => {
            let chosen = branches_in(before, branches)?;
            branches_of_last(chosen, last)
        }
        Instr::Text(_)
        | Instr::Apply(_, _)
        | Instr::Call(_)
        | Instr::ValueOf(_)
        | Instr::ValueOfSelf => Ok(before),
    }
}

/// How many branches stand in a body, and before it.
#[cycle(branches)]
fn branches_of(before: u32, body: &[Instr<'_>]) -> Result<u32, NoMemory>
    ensures { IfOk result (λ n. n ≡ before + s.branches_of (see.body body.now)) }
{
    let mut count = before;
    for instruction in body {
        count = branches_of_one(count, instruction)?;
    }
    Ok(count)
}

/// How many branches stand in the bodies of rules.
fn branches_of_rules(rules: &[Rule<'_>]) -> Result<u32, NoMemory>
    ensures { IfOk result (λ n. n ≡ branches_of_all (map (λ r. see.body r.body.now) rules.now)) }
{
    let mut count = 0;
    for rule in rules {
        count = branches_of(count, rule.body)?;
    }
    Ok(count)
}

/// How many branches stand in named bodies, and before them.
fn branches_of_named(before: u32, named: &[&[Instr<'_>]]) -> Result<u32, NoMemory>
    ensures { IfOk result (λ n. n ≡ before + branches_of_all (bodies named.now)) }
{
    let mut count = before;
    for body in named {
        count = branches_of(count, body)?;
    }
    Ok(count)
}

/// So many rules.
fn add_rules(spots: &mut Vec<Spot, &Bump>, count: u32) -> Result<(), NoMemory>
    ensures { OnOk result (map seen spots.new.items
        ≡ map seen spots.old.items ++ map s.a_rule (up_to count)) }
{
    for before in 0..count {
        spots.push(Spot::Rule(before + 1))?;
    }
    Ok(())
}

/// So many named bodies.
fn add_named(spots: &mut Vec<Spot, &Bump>, count: u32) -> Result<(), NoMemory>
    ensures { OnOk result (map seen spots.new.items
        ≡ map seen spots.old.items ++ map s.a_named_body (up_to count)) }
{
    for before in 0..count {
        spots.push(Spot::Named(before + 1))?;
    }
    Ok(())
}

/// So many branches.
fn add_branches(spots: &mut Vec<Spot, &Bump>, count: u32) -> Result<(), NoMemory>
    ensures { OnOk result (map seen spots.new.items
        ≡ map seen spots.old.items ++ map s.a_branch (up_to count)) }
{
    for before in 0..count {
        spots.push(Spot::Branch(before + 1))?;
    }
    Ok(())
}

/// The spots of a stylesheet: its rules, then its named bodies, then its branches, each kind in the stylesheet's order.
pub fn places<'b>(arena: &'b Bump, sheet: &Sheet<'b>) -> Result<&'b [Spot], NoMemory>
    ensures { IfOk result (λ r. map seen r.now ≡ spots_of (see.sheet sheet.now)) }
{
    let rules = number(sheet.rules.len())?;
    let named = number(sheet.named.len())?;
    let in_rules = branches_of_rules(sheet.rules)?;
    let branches = branches_of_named(in_rules, sheet.named)?;
    let mut spots = Vec::new(arena);
    add_rules(&mut spots, rules)?;
    add_named(&mut spots, named)?;
    add_branches(&mut spots, branches)?;
    Ok(into_bump_slice(spots))
}
