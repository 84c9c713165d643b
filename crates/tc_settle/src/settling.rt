// All rows, found cost by cost.
// This is a least fixpoint with least weights. There is no queue: at cost c the elements around lists of cost
// c - 1 are tried, and then trees of cost c - i behind lists of cost i. So a row is first found at its least
// cost, its first derivation stays, and rows are numbered in order of cost. All costs past 2,000 are one
// class, gone through to the end in any order, since no tree of them is ever built; where the greatest costs
// of what is listed can't reach it, it isn't entered. The search stops where a count passes its limit: rows
// that were found by then are rows of live trees, so they show that it passes. It doesn't stop at the first
// row that fails, since `unsafe` is told only within the limits.
ghost use Rattle.std.specs.Prelude.{◌≡◌, ◌<◌, ◌≤◌, ◌∷◌, [], IfErr, IfOk, OnOk};
ghost use Rattle.tc_settle.specs.Closed.{IsCause, IsClosure};
ghost use Rattle.tc_settle.specs.Settled.{HoldsNothing, IsBegun, IsNoneKept, IsWhole};

use crate::closed::{CloseFault, Closed, MadeHedge, push_start};
use crate::levels::{FAR, all_far, level};
use crate::rows::NumberedRows;
use crate::trying::try_text;
use std::alloc::Global;
use tc_base::NoMemory;

/// Finds all rows that are derived, each at its least cost, and at most so many of each kind.
///
/// # Errors
///
/// More trees or more lists of trees than that are derived; a row can't be held; there is no memory.
pub fn close<R: NumberedRows>(alloc: Global, rows: &mut R, most: u32) -> Result<Closed, CloseFault>
    requires trees { (R.held rows.old).trees ≡ 0 }
    requires hedges { (R.held rows.old).hedges ≡ 0 }
    requires most { most < 4294967295 }
    ensures closure { IfOk result (λ c. IsClosure (R.held rows.new) c) }
    ensures few { OnOk result
        (((R.held rows.new).trees ≤ most) × ((R.held rows.new).hedges ≤ most)) }
    ensures cause { IfErr result (λ e. IsCause (R.is_full rows.new) most (R.held rows.new) e) }
{
    let closed = find(alloc, rows, most)?;
    // It tells that rows of different numbers are different, without which no cost would be known to be the least.
    let _symbols = rows.symbols();
    Ok(closed)
}

/// The list of no tree.
fn find_none<R: NumberedRows>(alloc: Global, rows: &mut R, most: u32) -> Result<Closed, CloseFault>
    requires { HoldsNothing (R.held rows.old) }
    ensures kept { IfOk result (λ c. IsNoneKept most (R.held rows.new) c) }
    ensures cause { IfErr result (λ e. IsCause (R.is_full rows.new) most (R.held rows.new) e) }
{
    let mut closed = Closed::new(alloc);
    let _number = rows.none()?;
    closed.keep_hedge(MadeHedge::None, 0)?;
    if most == 0 {
        return Err(CloseFault::TooManyHedges);
    }
    Ok(closed)
}

/// The list of no tree, and the text.
fn begin<R: NumberedRows>(alloc: Global, rows: &mut R, most: u32) -> Result<Closed, CloseFault>
    requires nothing { HoldsNothing (R.held rows.old) }
    requires most { most < 4294967295 }
    ensures begun { IfOk result (λ c. IsBegun most (R.held rows.new) c) }
    ensures cause { IfErr result (λ e. IsCause (R.is_full rows.new) most (R.held rows.new) e) }
{
    let mut closed = find_none(alloc, rows, most)?;
    try_text(rows, &mut closed, most)?;
    Ok(closed)
}

/// Where the trees of no cost and of cost 1 begin.
fn first_starts(alloc: Global) -> Result<Vec<u32>, NoMemory>
    ensures { IfOk result (λ v. v.items ≡ 0 ∷ 0 ∷ []) }
{
    let mut starts = Vec::new(alloc);
    push_start(&mut starts, 0)?;
    push_start(&mut starts, 0)?;
    Ok(starts)
}

/// Finds all that is derived from the list of no tree and the text, by one cost after another, at most so many rows of each kind.
fn settle<R: NumberedRows>(
    alloc: Global,
    rows: &mut R,
    closed: &mut Closed,
    most: u32,
) -> Result<(), CloseFault>
    requires { IsBegun most (R.held rows.old) closed.old }
    ensures whole { OnOk result (IsWhole most (R.held rows.new) closed.new) }
    ensures cause { IfErr result (λ e. IsCause (R.is_full rows.new) most (R.held rows.new) e) }
{
    let mut starts = first_starts(alloc)?;
    let mut wrapped = 0;
    for cost in 1..FAR {
        wrapped = level(rows, closed, &mut starts, wrapped, cost, most)?;
        if closed.reach() <= cost {
            return Ok(());
        }
    }
    all_far(rows, closed, starts.as_slice(), most)
}

/// Finds all rows that are derived, each at its least cost, and at most so many of each kind.
fn find<R: NumberedRows>(alloc: Global, rows: &mut R, most: u32) -> Result<Closed, CloseFault>
    requires nothing { HoldsNothing (R.held rows.old) }
    requires most { most < 4294967295 }
    ensures whole { IfOk result (λ c. IsWhole most (R.held rows.new) c) }
    ensures cause { IfErr result (λ e. IsCause (R.is_full rows.new) most (R.held rows.new) e) }
{
    let mut closed = begin(alloc, rows, most)?;
    settle(alloc, rows, &mut closed, most)?;
    Ok(closed)
}
