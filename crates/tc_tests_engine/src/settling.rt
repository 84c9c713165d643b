//! The closure of rows that are made up: lists of one and the same tree.
ghost use Rattle.std.specs.Prelude.{◌≡◌, ◌<◌, ◌≤◌, ℕ};
ghost use Rattle.tc_tests_engine.specs.Samples.{lists_up_to};

use bumpalo::Bump;
use std::alloc::Global;
use tc_alpha::Alphabet;
use tc_model::{Grammar, Name, Node, Pat, Sheet};
use tc_settle::{CloseFault, Closed, HoldFault, NumberedRows, build, close, first_failing};

/// Lists of elements around no tree, up to a longest one; all rows fail.
#[derive(Drop)]
struct Lists {
    longest: u32,
    trees: u32,
    hedges: u32,
    ghost one_tree: { trees ≤ 1 },
}

impl NumberedRows for Lists {
    ghost use Rattle.std.specs.Prelude.{◌≡◌, ◌<◌, ◌≤◌, ℕ};
    ghost use Rattle.tc_tests_engine.specs.Samples.{lists_up_to};

    ghost held = { λ l. lists_up_to l.longest l.trees l.hedges };

    ghost is_full = { λ _. ⊥ };

    fn symbols(&self) -> u32 {
        1
    }

    fn none(&mut self) -> Result<u32, HoldFault> {
        if self.hedges == 0 {
            self.hedges = 1;
        }
        Ok(0)
    }

    fn text(&mut self) -> Result<Option<u32>, HoldFault> {
        Ok(None)
    }

    fn append(&mut self, hedge: u32, _tree: u32) -> Result<Option<u32>, HoldFault> {
        if hedge >= self.longest {
            return Ok(None);
        }
        if hedge + 1 == self.hedges {
            self.hedges += 1;
        }
        Ok(Some(hedge + 1))
    }

    fn wrap(&mut self, _symbol: u32, hedge: u32) -> Result<Option<u32>, HoldFault> {
        if hedge > 0 {
            return Ok(None);
        }
        self.trees = 1;
        Ok(Some(0))
    }

    fn is_failing(&mut self, _tree: u32) -> bool {
        true
    }
}

/// No row yet.
fn no_row_yet(longest: u32) -> Lists
    ensures trees { result.trees ≡ 0 }
    ensures hedges { result.hedges ≡ 0 }
{
    Lists {
        longest,
        trees: 0,
        hedges: 0,
    }
}

/// The costs of lists of up to three trees.
static HEDGE_COSTS: [u32; 4] = [0, 1, 2, 3];

/// The cost of the tree.
static TREE_COSTS: [u32; 1] = [1];

/// Whether rows have these costs.
fn are_costs(closed: &Closed) -> bool {
    closed.hedge_costs.as_slice() == HEDGE_COSTS.as_slice()
        && closed.tree_costs.as_slice() == TREE_COSTS.as_slice()
}

#[test]
fn rows_come_in_order_of_cost(rt: HostRuntime) {
    let mut rows = no_row_yet(3);
    let are_told = match close(rt.alloc(), &mut rows, 4) {
        Ok(closed) => are_costs(&closed) && first_failing(&mut rows, &closed) == Some(0),
        Err(_) => false,
    };
    assert!(rt; are_told);
}

#[test]
fn a_limit_is_passed(rt: HostRuntime) {
    let fault = close(rt.alloc(), &mut no_row_yet(3), 3).err();
    assert!(rt; fault == Some(CloseFault::TooManyHedges));
}

/// Lists of trees, by how many trees they have, and their costs, if there are such lists.
static LONG: [(usize, Option<u32>); 4] = [
    (2_000, Some(2_000)),
    (2_001, Some(2_001)),
    (2_003, Some(2_001)),
    (2_004, None),
];

/// Whether these are the costs of such lists.
fn are_costs_of_long(costs: &[u32]) -> bool {
    for (trees, cost) in &LONG {
        if costs.get(*trees).copied() != *cost {
            return false;
        }
    }
    true
}

#[test]
fn costs_past_2000_are_one(rt: HostRuntime) {
    let are_told = match close(rt.alloc(), &mut no_row_yet(2_003), 4_000) {
        Ok(closed) => are_costs_of_long(closed.hedge_costs.as_slice()),
        Err(_) => false,
    };
    assert!(rt; are_told);
}

/// A schema that has no element.
static NOTHING: Grammar<'static> = Grammar {
    start: Pat::NotAllowed,
    elements: &[],
};

/// A stylesheet without rules.
static NO_RULES: Sheet<'static> = Sheet {
    modes: 1,
    eaches: 0,
    rules: &[],
    named: &[],
};

/// The name of an element of a symbol that nothing mentions.
static FRESH: Name<'static> = Name {
    uri: "urn:n",
    local: "n",
};

/// Whether a tree is an element of that name without children.
fn is_fresh(node: &Node<'_>) -> bool {
    match node {
        Node::Elem(name, kids) => *name == FRESH && kids.len() == 0,
        Node::Text(_) => false,
    }
}

/// Whether such a tree is built of the only row of a tree.
fn is_built(alloc: Global) -> bool {
    let mut rows = no_row_yet(0);
    let Ok(closed) = close(alloc, &mut rows, 1) else {
        return false;
    };
    let Ok(alphabet) = Alphabet::of(alloc, &NOTHING, &NOTHING, &NO_RULES) else {
        return false;
    };
    if closed.tree_count() == 0 {
        return false;
    }
    let arena = Bump::new(alloc);
    match build(&arena, &alphabet, &rows, &closed, 0) {
        Ok(node) => is_fresh(&node),
        Err(_) => false,
    }
}

#[test]
fn a_tree_is_built(rt: HostRuntime) {
    assert!(rt; is_built(rt.alloc()));
}
