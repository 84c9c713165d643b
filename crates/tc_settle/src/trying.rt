// One thing that is made of rows: it is tried, and kept where it is new.
ghost use Rattle.std.specs.Prelude.{◌<◌, IfErr, OnOk};
ghost use Rattle.tc_settle.specs.Closed.{IsCause};
ghost use Rattle.tc_settle.specs.Settled.{AppendCosts, HedgesTried, IsAppendDone, IsAt, IsTextDone, IsWrapDone, TreesTried, WrapCosts};

use crate::closed::{CloseFault, Closed, MadeHedge, MadeTree};
use crate::rows::NumberedRows;

/// Tries a text, which costs one.
pub(crate) fn try_text<R: NumberedRows>(
    rows: &mut R,
    closed: &mut Closed,
    most: u32,
) -> Result<(), CloseFault>
    requires { IsAt (R.held rows.old) closed.old most 1 }
    ensures tried { OnOk result
        (TreesTried most 1 (R.held rows.old) closed.old (R.held rows.new) closed.new
        (IsTextDone (R.held rows.new) closed.new)) }
    ensures cause { IfErr result (λ e. IsCause (R.is_full rows.new) most (R.held rows.new) e) }
{
    let Some(number) = rows.text()? else {
        return Ok(());
    };
    if number as usize == closed.tree_costs.len() {
        closed.keep_tree(MadeTree::Text, 1)?;
        if number >= most {
            return Err(CloseFault::TooManyTrees);
        }
    }
    Ok(())
}

/// Tries an element of a symbol around a list of trees.
pub(crate) fn try_wrap<R: NumberedRows>(
    rows: &mut R,
    closed: &mut Closed,
    symbol: u32,
    hedge: u32,
    cost: u32,
    most: u32,
) -> Result<(), CloseFault>
    requires at { IsAt (R.held rows.old) closed.old most cost }
    requires costs { (symbol < (R.held rows.old).symbols)
        × WrapCosts (R.held rows.old) closed.old hedge cost }
    ensures tried { OnOk result
        (TreesTried most cost (R.held rows.old) closed.old (R.held rows.new) closed.new
        (IsWrapDone (R.held rows.new) closed.new symbol hedge)) }
    ensures cause { IfErr result (λ e. IsCause (R.is_full rows.new) most (R.held rows.new) e) }
{
    let Some(number) = rows.wrap(symbol, hedge)? else {
        return Ok(());
    };
    if number as usize == closed.tree_costs.len() {
        closed.keep_tree(MadeTree::Wrap(symbol, hedge), cost)?;
        if number >= most {
            return Err(CloseFault::TooManyTrees);
        }
    }
    Ok(())
}

/// Tries a list of trees with one more tree behind.
pub(crate) fn try_append<R: NumberedRows>(
    rows: &mut R,
    closed: &mut Closed,
    hedge: u32,
    tree: u32,
    cost: u32,
    most: u32,
) -> Result<(), CloseFault>
    requires at { IsAt (R.held rows.old) closed.old most cost }
    requires costs { AppendCosts (R.held rows.old) closed.old hedge tree cost }
    ensures tried { OnOk result
        (HedgesTried most cost (R.held rows.old) closed.old (R.held rows.new) closed.new
        (IsAppendDone (R.held rows.new) closed.new hedge tree)) }
    ensures cause { IfErr result (λ e. IsCause (R.is_full rows.new) most (R.held rows.new) e) }
{
    let Some(number) = rows.append(hedge, tree)? else {
        return Ok(());
    };
    if number as usize == closed.hedge_costs.len() {
        closed.keep_hedge(MadeHedge::Append(hedge, tree), cost)?;
        if number >= most {
            return Err(CloseFault::TooManyHedges);
        }
    }
    Ok(())
}
