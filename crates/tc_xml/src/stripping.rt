// The document of a raw tree.
ghost use Rattle.std.specs.Prelude.{◌≡◌, IfOk};
ghost use Rattle.tc_model.specs.RawTrees.{IsOneElement};
ghost use Rattle.tc_model.specs.Views.{before, raw_tree, raw_trees, trees};
ghost use Rattle.tc_model.specs.Stripped as stripped;
ghost use Rattle.tc_model.specs.Trees.{none};

use bumpalo::Bump;
use bumpalo::collections::into_bump_slice;
use tc_base::NoMemory;
use tc_model::{Node, Raw, normalise};

/// The trees without attributes, prefixes in scope and places.
fn bare<'b>(arena: &'b Bump, raw: &[Raw<'b>]) -> Result<&'b [Node<'b>], NoMemory>
    ensures { IfOk result (λ out. trees out.now ≡ stripped.bare (raw_trees raw.now)) }
{
    let mut out = Vec::with_capacity(arena, raw.len())?;
    for tree in raw {
        let node = match tree {
            Raw::Text(text, _) => Node::Text(text),
            Raw::Elem(element) => Node::Elem(element.name, bare(arena, element.kids)?),
        };
        out.push(node)?;
    }
    Ok(into_bump_slice(out))
}

/// The document of a raw tree that is an element: without attributes, prefixes in scope and places, and without
/// texts of white space alone.
///
/// # Errors
///
/// Where memory is refused.
pub fn strip<'b>(arena: &'b Bump, raw: &Raw<'b>) -> Result<Node<'b>, NoMemory>
    requires { IsOneElement (raw_tree raw.now) }
    ensures { IfOk result (λ n. before n none ≡ stripped.stripped (raw_tree raw.now)) }
{
    match raw {
        Raw::Text(text, _) => Ok(Node::Text(text)),
        Raw::Elem(element) => {
            let bare = bare(arena, element.kids)?;
            let kids = normalise(arena, bare)?;
            Ok(Node::Elem(element.name, kids))
        }
    }
}
