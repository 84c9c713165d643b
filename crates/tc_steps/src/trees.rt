// Trees that are taken by a judge, piece by piece.
ghost use Rattle.std.specs.Prelude.{IfSome};
ghost use Rattle.tc_model.specs.Events as ev;
ghost use Rattle.tc_model.specs.Trees.{none};
ghost use Rattle.tc_model.specs.Views as see;
ghost use Rattle.tc_steps.specs.Judged.{Takes};

use crate::judge::Judge;
use tc_model::{Node, TakesTrees};

/// Takes a tree, piece by piece.
#[cycle(taking)]
pub fn take_tree<'t>(judge: &mut Judge<'_, 't>, tree: &Node<'t>) -> Option<()>
    ensures { IfSome result (λ _. ev.Takes Takes judge.old
        (ev.events (see.before tree.now none)) judge.new) }
{
    match tree {
        Node::Text(text) => judge.text(text),
        Node::Elem(name, kids) => {
            judge.start(*name)?;
            take_trees(judge, kids)?;
            judge.end()
        }
    }
}

/// Takes trees, one after another.
#[cycle(taking)]
fn take_trees<'t>(judge: &mut Judge<'_, 't>, trees: &[Node<'t>]) -> Option<()>
    ensures { IfSome result (λ _. ev.Takes Takes judge.old
        (ev.events (see.trees trees.now)) judge.new) }
{
    for tree in trees {
        take_tree(judge, tree)?;
    }
    Some(())
}
