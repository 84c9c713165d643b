// A tree of a row.
ghost use Rattle.std.specs.Prelude.{◌≡◌, ◌<◌, ◌≤◌, ◌∷◌, ◌++◌, [], IfOk, OnOk, IsErrOf, reverse};
ghost use Rattle.tc_model.specs.Symbols.{fresh_name, symbol_count};
ghost use Rattle.tc_model.specs.Trees.{element, none};
ghost use Rattle.tc_model.specs.Views.{before, trees};
ghost use Rattle.tc_settle.specs.Building.{IsBuildable, IsNearHedge, IsNearTree};
ghost use Rattle.tc_settle.specs.Closed.{IsClosure, hedge_cost, tree_cost};
ghost use Rattle.tc_settle.specs.Derived.{far_cost};
ghost use Rattle.tc_settle.specs.Made.{IsMadeWith, IsOneMade};

use crate::closed::{Closed, MadeTree};
use crate::rows::NumberedRows;
use bumpalo::Bump;
use bumpalo::collections::into_bump_slice;
use tc_alpha::{Alphabet, Sym};
use tc_base::NoMemory;
use tc_base::limits::MOST_SHOWN_NODES;
use tc_model::Node;

/// Why no tree of a row is built.
#[derive(Clone, Copy, Debug, PartialEq, Eq)]
pub enum BuildFault {
    /// Each tree of the row has more than 2,000 nodes.
    TooManyNodes,
    /// Memory was refused.
    NoMemory,
}

impl From<NoMemory> for BuildFault {
    ghost use Rattle.std.specs.Prelude.{◌≡◌};
    ghost use Rattle.tc_settle.specs.declared.building.BuildFault.TheVariants.{NoMemory};

    ghost from_gives = { λ _ e. e ≡ NoMemory };

    fn from(_error: NoMemory) -> BuildFault {
        BuildFault::NoMemory
    }
}

/// A tree of a row with the least number of nodes, up to 2,000. Its texts are `t`, and its names the fresh ones of
/// their symbols. The rows are those that the closure is of.
///
/// # Errors
///
/// All trees of the row have more than 2,000 nodes; there is no memory.
pub fn build<'b, R: NumberedRows>(
    arena: &'b Bump,
    alphabet: &Alphabet,
    rows: &R,
    closed: &Closed,
    tree: u32,
) -> Result<Node<'b>, BuildFault>
    requires closure { IsClosure (R.held rows.now) closed.now }
    requires symbols { (R.held rows.now).symbols ≤ symbol_count alphabet.now }
    requires tree { tree < (R.held rows.now).trees }
    ensures made { IfOk result
        (λ node. IsOneMade (R.held rows.now) alphabet.now (before node none) tree
        (tree_cost closed.now tree)) }
    ensures near { OnOk result (tree_cost closed.now tree ≤ MOST_SHOWN_NODES) }
    ensures many { IsErrOf result BuildFault.TooManyNodes → tree_cost closed.now tree ≡ far_cost }
{
    if closed.tree_costs[tree as usize] > MOST_SHOWN_NODES {
        return Err(BuildFault::TooManyNodes);
    }
    Ok(build_tree(arena, alphabet, rows, closed, tree)?)
}

/// An element of a symbol.
#[inline(never)]
fn build_element<'b>(
    arena: &'b Bump,
    alphabet: &Alphabet,
    symbol: u32,
    kids: &'b [Node<'b>],
) -> Result<Node<'b>, NoMemory>
    requires { symbol < symbol_count alphabet.now }
    ensures { IfOk result (λ node. before node none
        ≡ element (fresh_name alphabet.now symbol) (trees kids.now) none) }
{
    let name = alphabet.fresh(arena, Sym(symbol))?;
    Ok(Node::Elem(name, kids))
}

/// A text, or an element with what is in it.
#[cycle(trees)]
fn build_tree<'b, R: NumberedRows>(
    arena: &'b Bump,
    alphabet: &Alphabet,
    rows: &R,
    closed: &Closed,
    tree: u32,
) -> Result<Node<'b>, NoMemory>
    requires rows { IsBuildable (R.held rows.now) alphabet.now closed.now }
    requires near { IsNearTree (R.held rows.now) closed.now tree }
    ensures { IfOk result
        (λ node. IsOneMade (R.held rows.now) alphabet.now (before node none) tree
        (tree_cost closed.now tree)) }
{
    match closed.trees[tree as usize] {
        MadeTree::Text => Ok(Node::Text("t")),
        MadeTree::Wrap(symbol, hedge) => {
            let kids = build_kids(arena, alphabet, rows, closed, hedge)?;
            let node = build_element(arena, alphabet, symbol, kids)?;
            Ok(node)
        }
    }
}

/// The trees of a list, one after the other.
#[cycle(trees)]
fn build_kids<'b, R: NumberedRows>(
    arena: &'b Bump,
    alphabet: &Alphabet,
    rows: &R,
    closed: &Closed,
    hedge: u32,
) -> Result<&'b [Node<'b>], NoMemory>
    requires rows { IsBuildable (R.held rows.now) alphabet.now closed.now }
    requires near { IsNearHedge (R.held rows.now) closed.now hedge }
    ensures { IfOk result
        (λ kids. IsMadeWith (R.held rows.now) alphabet.now (trees kids.now) hedge
        (hedge_cost closed.now hedge)) }
{
    let mut kids = Vec::new(arena);
    push_kids(arena, alphabet, rows, closed, &mut kids, hedge)?;
    kids.reverse();
    Ok(into_bump_slice(kids))
}

/// Puts the trees of a list at the end, the last one first.
#[cycle(trees)]
fn push_kids<'b, R: NumberedRows>(
    arena: &'b Bump,
    alphabet: &Alphabet,
    rows: &R,
    closed: &Closed,
    kids: &mut Vec<Node<'b>, &'b Bump>,
    hedge: u32,
) -> Result<(), NoMemory>
    requires rows { IsBuildable (R.held rows.now) alphabet.now closed.now }
    requires near { IsNearHedge (R.held rows.now) closed.now hedge }
    requires none { kids.old.items ≡ [] }
    ensures { OnOk result
        (IsMadeWith (R.held rows.now) alphabet.now (trees (reverse kids.new.items)) hedge
        (hedge_cost closed.now hedge)) }
{
    let mut rest = hedge;
    while let Some((front, tree)) = closed.appended(rest) {
        let kid = build_tree(arena, alphabet, rows, closed, tree)?;
        push_kid(kids, kid)?;
        rest = front;
    }
    Ok(())
}

/// One more tree at the end.
#[inline(never)]
fn push_kid<'b>(kids: &mut Vec<Node<'b>, &'b Bump>, kid: Node<'b>) -> Result<(), NoMemory>
    ensures { OnOk result (kids.new.items ≡ kids.old.items ++ kid.entry ∷ []) }
{
    kids.push(kid)?;
    Ok(())
}
