// Which bodies of named templates call which, and how many instructions stand within one another.
ghost use Rattle.std.specs.Prelude.{◌≡◌, ◌<◌, ◌≤◌, ◌++◌, ◌∷◌, ℕ, List, [], length, map, max, IfOk, OnOk, ◌^◌};
ghost use Rattle.std.specs.Borrow.{Bor};
ghost use Rattle.tc_model.specs.declared.sheet.Instr.{Instr};
ghost use Rattle.tc_graph.specs.Graph.{rows_of};
ghost use Rattle.std.specs.List.{All};
ghost use Rattle.std.specs.Prelude.{replicate};
ghost use Rattle.tc_beh.specs.Callees.{callees_in, callees_in_branches, AreCalleesFirst};
ghost use Rattle.tc_beh.specs.Orders.{AreComponentsInOrder};
ghost use Rattle.tc_beh.specs.Heights.{one_more as one_more_of, height_in, height_in_branches, heights_in, highest as highest_of, highest_rule, depth_in, depth_in_branches, deepest, deepest_rule};
ghost use Rattle.tc_model.specs.Sheets as s;
ghost use Rattle.tc_model.specs.Views as see;

use crate::looks::number_at;
use bumpalo::Bump;
use bumpalo::collections::into_bump_slice;
use std::alloc::Global;
use tc_base::NoMemory;
use tc_base::limits::DEEPEST_CALLS;
use tc_graph::components;
use tc_model::{Branch, Instr, Rule, Sheet};

/// One more than the most instructions that may stand within one another.
pub(crate) const TOO_MANY: u32 = DEEPEST_CALLS + 1;

fn put_callee(found: &mut Vec<usize, &Bump>, number: u32) -> Result<(), NoMemory>
    ensures { OnOk result (found.new.items ≡ found.old.items ++ number ∷ []) }
{
    found.push(number as usize)?;
    Ok(())
}

/// Adds the numbers of the named bodies that a body calls.
#[cycle(callees)]
fn put_callees(found: &mut Vec<usize, &Bump>, body: &[Instr<'_>]) -> Result<(), NoMemory>
    ensures { OnOk result (found.new.items ≡ found.old.items ++ callees_in (see.body body.now)) }
{
    for instruction in body {
        put_callees_of_one(found, instruction)?;
    }
    Ok(())
}

#[cycle(callees)]
fn put_callees_of_branches(
    found: &mut Vec<usize, &Bump>,
    branches: &[Branch<'_>],
) -> Result<(), NoMemory>
    ensures { OnOk result ((rest : s.Branches) → found.new.items ++ callees_in_branches rest
        ≡ found.old.items ++ callees_in_branches (see.branches branches.now rest)) }
{
    for branch in branches {
        put_callees(found, branch.body)?;
    }
    Ok(())
}

#[cycle(callees)]
#[tactic(auto, using(tc_model::proofs::ViewsBody::see_instruction))]
fn put_callees_of_one(
    found: &mut Vec<usize, &Bump>,
    instruction: &Instr<'_>,
) -> Result<(), NoMemory>
    ensures { OnOk result ((rest : s.Body) → found.new.items ++ callees_in rest ≡ found.old.items
        ++ callees_in (see.instruction instruction.now rest)) }
{
    match instruction {
        Instr::Call(number) => put_callee(found, *number),
        Instr::Elem(_, inner) => put_callees(found, inner),
        Instr::Copy(inner) => put_callees(found, inner),
        Instr::ForEach(_, _, inner) => put_callees(found, inner),
        Instr::Choose(branches, last) => {
            put_callees_of_branches(found, branches)?;
            put_callees(found, last)
        }
        Instr::Text(_) | Instr::Apply(_, _) | Instr::ValueOf(_) | Instr::ValueOfSelf => Ok(()),
    }
}

/// The numbers of the named bodies, each after those that it calls.
pub(crate) fn callees_first(alloc: Global, named: &[&[Instr<'_>]]) -> Result<Vec<usize>, NoMemory>
    requires { All
        (λ (b : Bor (List Instr)). All (λ n. n < length named.now)
        (callees_in (see.body b.now))) named.now }
    ensures low { IfOk result (λ v. All (λ n. n < length named.now) v.items) }
    ensures order { IfOk result
        (λ v. AreComponentsInOrder (map (λ b. callees_in (see.body b.now)) named.now) v.items) }
{
    let arena = Bump::new(alloc);
    let rows = rows_of_calls(&arena, named)?;
    let walk = components(&arena, rows)?;
    let order = Vec::from_slice(alloc, &walk.order)?;
    Ok(order)
}

/// For each named body the numbers of those that it calls.
fn rows_of_calls<'a>(arena: &'a Bump, named: &[&[Instr<'_>]]) -> Result<&'a [&'a [usize]], NoMemory>
    ensures { IfOk result (λ v. rows_of v.now ≡ map (λ b. callees_in (see.body b.now)) named.now) }
{
    let mut rows = Vec::new(arena);
    for body in named {
        let row = row_of_calls(arena, body)?;
        rows.push(row)?;
    }
    Ok(into_bump_slice(rows))
}

/// The numbers of the named bodies that a body calls.
fn row_of_calls<'a>(arena: &'a Bump, body: &[Instr<'_>]) -> Result<&'a [usize], NoMemory>
    ensures { IfOk result (λ r. r.now ≡ callees_in (see.body body.now)) }
{
    let mut row = Vec::new(arena);
    put_callees(&mut row, body)?;
    Ok(into_bump_slice(row))
}

fn one_more(height: u32) -> u32
    ensures { result ≡ one_more_of height }
{
    if height < TOO_MANY - 1 {
        height + 1
    } else {
        TOO_MANY
    }
}

/// How many instructions of a body stand within one another, those of called bodies within the call; at most one more
/// than may.
#[cycle(heights)]
pub(crate) fn height(heights: &[u32], body: &[Instr<'_>]) -> u32
    ensures { result ≡ height_in heights.now (see.body body.now) }
{
    let mut most = 0;
    for instruction in body {
        most = most.max(height_of_one(heights, instruction));
    }
    most
}

#[cycle(heights)]
fn height_of_branches(heights: &[u32], branches: &[Branch<'_>]) -> u32
    ensures { (rest : s.Branches) → height_in_branches heights.now (see.branches branches.now rest)
        ≡ max result (height_in_branches heights.now rest) }
{
    let mut most = 0;
    for branch in branches {
        most = most.max(height(heights, branch.body));
    }
    most
}

#[cycle(heights)]
#[tactic(auto, using(tc_model::proofs::ViewsBody::see_instruction))]
fn height_of_one(heights: &[u32], instruction: &Instr<'_>) -> u32
    ensures { (rest : s.Body) → height_in heights.now (see.instruction instruction.now rest)
        ≡ max result (height_in heights.now rest) }
{
    match instruction {
        Instr::Call(number) => one_more(number_at(heights, *number)),
        Instr::Elem(_, inner) => one_more(height(heights, inner)),
        Instr::Copy(inner) => one_more(height(heights, inner)),
        Instr::ForEach(_, _, inner) => one_more(height(heights, inner)),
        Instr::Choose(branches, last) => {
            let most = height_of_branches(heights, branches);
            one_more(most.max(height(heights, last)))
        }
        Instr::Text(_) | Instr::Apply(_, _) | Instr::ValueOf(_) | Instr::ValueOfSelf => 1,
    }
}

/// How many instructions stand within one another in each named body.
pub(crate) fn heights_of(
    alloc: Global,
    named: &[&[Instr<'_>]],
    order: &[usize],
) -> Result<Vec<u32>, NoMemory>
    requires { All (λ n. n < length named.now) order.now }
    ensures count { IfOk result (λ v. length v.items ≡ length named.now) }
    ensures heights { IfOk result
        (λ v. v.items
        ≡ heights_in (map (λ b. see.body b.now) named.now)
        (replicate (length named.now) 0) order.now) }
{
    let mut heights = vec![in alloc; 0u32; named.len()]?;
    for number in order {
        let here = height(&heights, named[*number]);
        heights[*number] = here;
    }
    Ok(heights)
}

/// The greatest of these, and of those of the bodies of rules.
fn highest(heights: &[u32], rules: &[Rule<'_>]) -> u32
    ensures { result
        ≡ max (highest_of heights.now) (highest_rule heights.now (map see.rule rules.now)) }
{
    let mut most = 0;
    for here in heights {
        most = most.max(*here);
    }
    for rule in rules {
        most = most.max(height(heights, rule.body));
    }
    most
}

/// How many instructions of a stylesheet stand within one another, or one more than may.
pub(crate) fn calls_of(alloc: Global, sheet: &Sheet<'_>, order: &[usize]) -> Result<u32, NoMemory>
    requires { All (λ n. n < length sheet.now.named.now) order.now }
    ensures { IfOk result
        (λ n. let heights = heights_in (see.sheet sheet.now).named
        (replicate (length sheet.now.named.now) 0) order.now in n
        ≡ max (highest_of heights) (highest_rule heights (see.sheet sheet.now).rules)) }
{
    let heights = heights_of(alloc, sheet.named, order)?;
    Ok(highest(&heights, sheet.rules))
}

/// How many elements and copies stand within one another in the text of a body.
#[cycle(depths)]
fn depth(body: &[Instr<'_>]) -> u32
    ensures { result ≡ depth_in (see.body body.now) }
{
    let mut most = 0;
    for instruction in body {
        most = most.max(depth_of_one(instruction));
    }
    most
}

#[cycle(depths)]
fn depth_of_branches(branches: &[Branch<'_>]) -> u32
    ensures { (rest : s.Branches) → depth_in_branches (see.branches branches.now rest)
        ≡ max result (depth_in_branches rest) }
{
    let mut most = 0;
    for branch in branches {
        most = most.max(depth(branch.body));
    }
    most
}

#[cycle(depths)]
#[tactic(auto, using(tc_model::proofs::ViewsBody::see_instruction))]
fn depth_of_one(instruction: &Instr<'_>) -> u32
    ensures { (rest : s.Body) → depth_in (see.instruction instruction.now rest)
        ≡ max result (depth_in rest) }
{
    match instruction {
        Instr::Elem(_, inner) => one_more(depth(inner)),
        Instr::Copy(inner) => one_more(depth(inner)),
        Instr::ForEach(_, _, inner) => depth(inner),
        Instr::Choose(branches, last) => {
            let most = depth_of_branches(branches);
            most.max(depth(last))
        }
        Instr::Text(_)
        | Instr::Apply(_, _)
        | Instr::Call(_)
        | Instr::ValueOf(_)
        | Instr::ValueOfSelf => 0,
    }
}

/// How many elements stand open at most in the text of a body of a stylesheet.
pub(crate) fn depth_of_sheet(sheet: &Sheet<'_>) -> u32
    ensures { result
        ≡ max (deepest_rule (see.sheet sheet.now).rules) (deepest (see.sheet sheet.now).named) }
{
    let mut most = 0;
    for rule in sheet.rules {
        most = most.max(depth(rule.body));
    }
    for body in sheet.named {
        most = most.max(depth(body));
    }
    most
}
