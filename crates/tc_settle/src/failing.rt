// The first row of trees that fails.
ghost use Rattle.std.specs.Prelude.{◌<◌, ◌≤◌, ℕ, MatchOption};
ghost use Rattle.tc_settle.specs.Closed.{IsClosure, IsFirstFailing, tree_cost};
ghost use Rattle.tc_settle.specs.Held.{SameRows};

use crate::closed::Closed;
use crate::rows::NumberedRows;

/// The first tree whose row fails, and so one of least cost; none where all pass.
pub fn first_failing<R: NumberedRows>(rows: &mut R, closed: &Closed) -> Option<u32>
    requires closure { IsClosure (R.held rows.old) closed.now }
    requires few { (R.held rows.old).trees ≤ 4294967295 }
    ensures first { MatchOption result
        ((t : ℕ) → t < (R.held rows.old).trees → (R.held rows.old).passes t)
        (λ k. IsFirstFailing (R.held rows.old) closed.now k) }
    ensures same { SameRows (R.held rows.old) (R.held rows.new) }
{
    for tree in 0..closed.tree_count() {
        if rows.is_failing(tree) {
            return Some(tree);
        }
    }
    None
}
