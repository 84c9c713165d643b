// All that is made of rows at one cost, and all that costs more than 2,000.
ghost use Rattle.std.specs.Prelude.{◌<◌, ◌≤◌, ◌+◌, ℕ, IfErr, IfOk, OnOk};
ghost use Rattle.tc_settle.specs.Closed.{IsCause};
ghost use Rattle.tc_settle.specs.Derived.{far_cost};
ghost use Rattle.tc_settle.specs.Settled.{AppendCosts, AreDoneBelow, AreRangesDone, AreWrapsDone, HedgesTried, IsAt, IsFar, IsReady, IsWhole, TreesTried};

use crate::closed::{CloseFault, Closed, push_start};
use crate::rows::NumberedRows;
use crate::runs::{append_level, append_trees, wrap_hedges, wrap_symbols};
use tc_base::limits::MOST_SHOWN_NODES;

/// Costs from here on are one.
pub(crate) const FAR: u32 = MOST_SHOWN_NODES + 1;

/// Tries all that makes up a cost: elements around the lists of trees from a number on, which cost one less, and then
/// lists of trees with a tree behind. Answers how many lists of trees were wrapped.
pub(crate) fn level<R: NumberedRows>(
    rows: &mut R,
    closed: &mut Closed,
    starts: &mut Vec<u32>,
    wrapped: u32,
    cost: u32,
    most: u32,
) -> Result<u32, CloseFault>
    requires near { cost ≤ MOST_SHOWN_NODES }
    requires ready { IsReady most cost (R.held rows.old) closed.old starts.old.items wrapped }
    ensures ready { IfOk result
        (λ w. IsReady most (cost + 1) (R.held rows.new) closed.new starts.new.items w) }
    ensures cause { IfErr result (λ e. IsCause (R.is_full rows.new) most (R.held rows.new) e) }
{
    let count = closed.hedge_count();
    wrap_hedges(rows, closed, wrapped, count, cost, most)?;
    push_start(starts, closed.tree_count())?;
    append_level(rows, closed, starts.as_slice(), count, cost, most)?;
    Ok(count)
}

/// Tries elements around a list of trees, where they cost more than 2,000.
fn wrap_far<R: NumberedRows>(
    rows: &mut R,
    closed: &mut Closed,
    hedge: u32,
    most: u32,
) -> Result<(), CloseFault>
    requires at { IsAt (R.held rows.old) closed.old most far_cost }
    requires near { (hedge < (R.held rows.old).hedges)
        × AreDoneBelow (R.held rows.old) closed.old far_cost }
    ensures tried { OnOk result
        (TreesTried most far_cost (R.held rows.old) closed.old (R.held rows.new) closed.new
        (AreWrapsDone (R.held rows.new) closed.new hedge)) }
    ensures cause { IfErr result (λ e. IsCause (R.is_full rows.new) most (R.held rows.new) e) }
{
    if closed.hedge_costs[hedge as usize] + 1 < FAR {
        return Ok(());
    }
    wrap_symbols(rows, closed, hedge, FAR, most)
}

/// Tries the first lists of trees with the trees of a range behind, which cost more than 2,000.
fn append_before<R: NumberedRows>(
    rows: &mut R,
    closed: &mut Closed,
    hedge: u32,
    from: u32,
    to: u32,
    most: u32,
) -> Result<(), CloseFault>
    requires at { IsAt (R.held rows.old) closed.old most far_cost }
    requires costs { (h t : ℕ) → h < hedge → from ≤ t → t < to
        → AppendCosts (R.held rows.old) closed.old h t far_cost }
    ensures tried { OnOk result
        (HedgesTried most far_cost (R.held rows.old) closed.old (R.held rows.new) closed.new
        (AreRangesDone (R.held rows.new) closed.new hedge from to)) }
    ensures cause { IfErr result (λ e. IsCause (R.is_full rows.new) most (R.held rows.new) e) }
{
    for earlier in 0..hedge {
        append_trees(rows, closed, earlier, from, to, FAR, most)?;
    }
    Ok(())
}

/// Tries all that is made of a list of trees and of those before it, where it costs more than 2,000.
fn far_hedge<R: NumberedRows>(
    rows: &mut R,
    closed: &mut Closed,
    starts: &[u32],
    hedge: u32,
    most: u32,
) -> Result<(), CloseFault>
    requires far { IsFar most (R.held rows.old) closed.old starts.now hedge }
    requires hedge { hedge < (R.held rows.old).hedges }
    ensures far { OnOk result (IsFar most (R.held rows.new) closed.new starts.now (hedge + 1)) }
    ensures cause { IfErr result (λ e. IsCause (R.is_full rows.new) most (R.held rows.new) e) }
{
    let known = closed.tree_count();
    wrap_far(rows, closed, hedge, most)?;
    let trees = closed.tree_count();
    append_before(rows, closed, hedge, known, trees, most)?;
    let from = starts[(FAR - closed.hedge_costs[hedge as usize]) as usize];
    append_trees(rows, closed, hedge, from, trees, FAR, most)?;
    Ok(())
}

/// Tries all that costs more than 2,000, list of trees by list of trees.
pub(crate) fn all_far<R: NumberedRows>(
    rows: &mut R,
    closed: &mut Closed,
    starts: &[u32],
    most: u32,
) -> Result<(), CloseFault>
    requires { IsFar most (R.held rows.old) closed.old starts.now 0 }
    ensures whole { OnOk result (IsWhole most (R.held rows.new) closed.new) }
    ensures cause { IfErr result (λ e. IsCause (R.is_full rows.new) most (R.held rows.new) e) }
{
    for hedge in 0..most {
        if hedge as usize >= closed.hedge_costs.len() {
            return Ok(());
        }
        far_hedge(rows, closed, starts, hedge, most)?;
    }
    Ok(())
}
