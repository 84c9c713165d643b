// What is kept of rows: what each is made of, and its cost.
ghost use Rattle.std.specs.Prelude.{◌≡◌, ◌<◌, ◌≤◌, ◌+◌, ℕ, OnOk, [], ◌∷◌, ◌++◌, length, slice_get, slice_index, MatchOption, Some};
ghost use Rattle.tc_settle.specs.Closed.{hedge_cost, tree_cost};
ghost use Rattle.tc_settle.specs.Derived.{far_cost};
ghost use Rattle.tc_settle.specs.Settled.{AreCosts, IsWithHedge, IsWithTree};

use crate::rows::HoldFault;
use std::alloc::Global;
use tc_base::NoMemory;

/// What a row of lists of trees is made of: no tree, or a list of trees with a tree behind.
#[derive(Clone, Copy)]
pub enum MadeHedge {
    /// No tree.
    None,
    /// The number of the list, and that of the tree.
    Append(u32, u32),
}

/// What a row of trees is made of: a text, or an element of a symbol around a list of trees.
#[derive(Clone, Copy)]
pub enum MadeTree {
    /// A text.
    Text,
    /// The symbol, and the number of the list.
    Wrap(u32, u32),
}

/// All rows that are derived: what each is made of, and its cost, which is the least number of nodes up to 2,000, and
/// 2,001 for all greater ones. Rows of each kind come in order of cost.
#[derive(Drop)]
pub struct Closed {
    /// What each list of trees is made of.
    pub hedges: Vec<MadeHedge>,
    /// The cost of each list of trees.
    pub hedge_costs: Vec<u32>,
    /// What each tree is made of.
    pub trees: Vec<MadeTree>,
    /// The cost of each tree.
    pub tree_costs: Vec<u32>,
}

/// Why not all rows were found.
#[derive(Clone, Copy, Debug, PartialEq, Eq)]
pub enum CloseFault {
    /// More trees than allowed.
    TooManyTrees,
    /// More lists of trees than allowed.
    TooManyHedges,
    /// A row can't be held.
    Full,
    /// Memory was refused.
    NoMemory,
}

impl From<NoMemory> for CloseFault {
    ghost use Rattle.tc_settle.specs.declared.closed.CloseFault.TheVariants.{NoMemory};

    ghost from_gives = { λ _ e. e ≡ NoMemory };

    fn from(_error: NoMemory) -> CloseFault {
        CloseFault::NoMemory
    }
}

impl From<HoldFault> for CloseFault {
    ghost use Rattle.tc_settle.specs.Faults.{close_fault};

    ghost from_gives = { λ f e. e ≡ close_fault f };

    fn from(fault: HoldFault) -> CloseFault {
        match fault {
            HoldFault::Full => CloseFault::Full,
            HoldFault::NoMemory => CloseFault::NoMemory,
        }
    }
}

impl Closed {
    /// No row.
    pub(crate) fn new(alloc: Global) -> Closed
        ensures hedges { result.hedges.items ≡ [] }
        ensures hedge_costs { result.hedge_costs.items ≡ [] }
        ensures trees { result.trees.items ≡ [] }
        ensures tree_costs { result.tree_costs.items ≡ [] }
    {
        Closed {
            hedges: Vec::new(alloc),
            hedge_costs: Vec::new(alloc),
            trees: Vec::new(alloc),
            tree_costs: Vec::new(alloc),
        }
    }

    /// One more list of trees.
    pub(crate) fn keep_hedge(&mut self, made: MadeHedge, cost: u32) -> Result<(), NoMemory>
        ensures { OnOk result (IsWithHedge self.old made cost self.new) }
    {
        self.hedges.push(made)?;
        self.hedge_costs.push(cost)?;
        Ok(())
    }

    /// One more tree.
    pub(crate) fn keep_tree(&mut self, made: MadeTree, cost: u32) -> Result<(), NoMemory>
        ensures { OnOk result (IsWithTree self.old made cost self.new) }
    {
        self.trees.push(made)?;
        self.tree_costs.push(cost)?;
        Ok(())
    }

    /// How many lists of trees there are.
    pub fn hedge_count(&self) -> u32
        requires { length self.now.hedge_costs.items ≤ 4294967295 }
        ensures { result ≡ length self.now.hedge_costs.items }
    {
        self.hedge_costs.len() as u32
    }

    /// How many trees there are.
    pub fn tree_count(&self) -> u32
        requires { length self.now.tree_costs.items ≤ 4294967295 }
        ensures { result ≡ length self.now.tree_costs.items }
    {
        self.tree_costs.len() as u32
    }

    /// The list of trees and the tree behind of which a list is made; none for the list of no tree.
    pub(crate) fn appended(&self, hedge: u32) -> Option<(u32, u32)>
        requires { hedge < length self.now.hedges.items }
        ensures { MatchOption result (slice_get self.now.hedges.items hedge ≡ Some MadeHedge.None)
            (λ p. slice_get self.now.hedges.items hedge ≡ Some (MadeHedge.Append p.0 p.1)) }
    {
        match self.hedges[hedge as usize] {
            MadeHedge::None => None,
            MadeHedge::Append(front, tree) => Some((front, tree)),
        }
    }

    /// A cost that nothing passes that is made of what there is.
    pub(crate) fn reach(&self) -> u32
        requires hedges { AreCosts self.now.hedge_costs.items }
        requires trees { AreCosts self.now.tree_costs.items }
        ensures wraps { (h : ℕ) → h < length self.now.hedge_costs.items
            → hedge_cost self.now h + 1 ≤ result }
        ensures appends { (h t : ℕ) → h < length self.now.hedge_costs.items
            → t < length self.now.tree_costs.items
            → hedge_cost self.now h + tree_cost self.now t ≤ result }
    {
        let hedge = greatest(&self.hedge_costs);
        let tree = greatest(&self.tree_costs);
        hedge + tree.max(1)
    }
}

/// The last of costs in order, and 0 where there is none.
fn greatest(costs: &[u32]) -> u32
    requires { AreCosts costs.now }
    ensures greatest { (u : ℕ) → u < length costs.now → slice_index costs.now u ≤ result }
    ensures few { result ≤ far_cost }
{
    match costs.last() {
        Some(cost) => *cost,
        None => 0,
    }
}

/// One more number.
pub(crate) fn push_start(starts: &mut Vec<u32>, start: u32) -> Result<(), NoMemory>
    ensures { OnOk result (starts.new.items ≡ starts.old.items ++ start ∷ []) }
{
    starts.push(start)?;
    Ok(())
}
