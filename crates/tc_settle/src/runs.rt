// Many things that are made of rows at one cost.
ghost use Rattle.std.specs.Prelude.{◌<◌, ◌≤◌, ℕ, IfErr, OnOk};
ghost use Rattle.tc_settle.specs.Closed.{IsCause};
ghost use Rattle.tc_settle.specs.Settled.{AppendCosts, AreSumsDone, AreWrapsDone, HedgesTried, IsAppendDone, IsAt, IsLevel, TreesTried, WrapCosts};

use crate::closed::{CloseFault, Closed};
use crate::rows::NumberedRows;
use crate::trying::{try_append, try_wrap};

/// Tries a list of trees with each tree of a range behind.
pub(crate) fn append_trees<R: NumberedRows>(
    rows: &mut R,
    closed: &mut Closed,
    hedge: u32,
    from: u32,
    to: u32,
    cost: u32,
    most: u32,
) -> Result<(), CloseFault>
    requires at { IsAt (R.held rows.old) closed.old most cost }
    requires costs { (t : ℕ) → from ≤ t → t < to
        → AppendCosts (R.held rows.old) closed.old hedge t cost }
    ensures tried { OnOk result
        (HedgesTried most cost (R.held rows.old) closed.old (R.held rows.new) closed.new
        ((t : ℕ) → from ≤ t → t < to → IsAppendDone (R.held rows.new) closed.new hedge t)) }
    ensures cause { IfErr result (λ e. IsCause (R.is_full rows.new) most (R.held rows.new) e) }
{
    for tree in from..to {
        try_append(rows, closed, hedge, tree, cost, most)?;
    }
    Ok(())
}

/// Tries an element of each symbol around a list of trees.
pub(crate) fn wrap_symbols<R: NumberedRows>(
    rows: &mut R,
    closed: &mut Closed,
    hedge: u32,
    cost: u32,
    most: u32,
) -> Result<(), CloseFault>
    requires at { IsAt (R.held rows.old) closed.old most cost }
    requires costs { WrapCosts (R.held rows.old) closed.old hedge cost }
    ensures tried { OnOk result
        (TreesTried most cost (R.held rows.old) closed.old (R.held rows.new) closed.new
        (AreWrapsDone (R.held rows.new) closed.new hedge)) }
    ensures cause { IfErr result (λ e. IsCause (R.is_full rows.new) most (R.held rows.new) e) }
{
    for symbol in 0..rows.symbols() {
        try_wrap(rows, closed, symbol, hedge, cost, most)?;
    }
    Ok(())
}

/// Tries an element of each symbol around each list of trees of a range.
pub(crate) fn wrap_hedges<R: NumberedRows>(
    rows: &mut R,
    closed: &mut Closed,
    from: u32,
    to: u32,
    cost: u32,
    most: u32,
) -> Result<(), CloseFault>
    requires at { IsAt (R.held rows.old) closed.old most cost }
    requires costs { (h : ℕ) → from ≤ h → h < to
        → WrapCosts (R.held rows.old) closed.old h cost }
    ensures tried { OnOk result
        (TreesTried most cost (R.held rows.old) closed.old (R.held rows.new) closed.new
        ((h : ℕ) → from ≤ h → h < to → AreWrapsDone (R.held rows.new) closed.new h)) }
    ensures cause { IfErr result (λ e. IsCause (R.is_full rows.new) most (R.held rows.new) e) }
{
    for hedge in from..to {
        wrap_symbols(rows, closed, hedge, cost, most)?;
    }
    Ok(())
}

/// Tries each list of trees with each tree behind that makes up a cost with it. At each cost stands where the trees of
/// this cost begin.
pub(crate) fn append_level<R: NumberedRows>(
    rows: &mut R,
    closed: &mut Closed,
    starts: &[u32],
    count: u32,
    cost: u32,
    most: u32,
) -> Result<(), CloseFault>
    requires at { IsAt (R.held rows.old) closed.old most cost }
    requires level { IsLevel cost (R.held rows.old) closed.old starts.now count }
    ensures tried { OnOk result
        (HedgesTried most cost (R.held rows.old) closed.old (R.held rows.new) closed.new
        (AreSumsDone (R.held rows.new) closed.new count cost)) }
    ensures cause { IfErr result (λ e. IsCause (R.is_full rows.new) most (R.held rows.new) e) }
{
    for hedge in 0..count {
        let left = (cost - closed.hedge_costs[hedge as usize]) as usize;
        append_trees(
            rows,
            closed,
            hedge,
            starts[left],
            starts[left + 1],
            cost,
            most,
        )?;
    }
    Ok(())
}
