// Trees that are copied to another arena.
ghost use Rattle.std.specs.Prelude.{◌≡◌, IfOk};
ghost use Rattle.tc_model.specs.Trees.{Trees};
ghost use Rattle.tc_model.specs.Views.{before, name as named, trees};

use bumpalo::Bump;
use bumpalo::collections::into_bump_slice;
use tc_base::NoMemory;
use tc_model::{Name, Node};

/// The same tree in the arena.
#[cycle(copies)]
pub fn copied<'b>(arena: &'b Bump, node: &Node<'_>) -> Result<Node<'b>, NoMemory>
    ensures { IfOk result (λ made. (rest : Trees) → before made rest ≡ before node.now rest) }
{
    match node {
        Node::Elem(name, kids) => {
            let name = copied_name(arena, name)?;
            let kids = copied_all(arena, kids)?;
            Ok(Node::Elem(name, kids))
        }
        Node::Text(text) => Ok(Node::Text(arena.try_alloc_str(text)?)),
    }
}

/// The same trees in the arena.
#[cycle(copies)]
fn copied_all<'b>(arena: &'b Bump, nodes: &[Node<'_>]) -> Result<&'b [Node<'b>], NoMemory>
    ensures { IfOk result (λ made. trees made.now ≡ trees nodes.now) }
{
    let mut made = Vec::new(arena);
    for node in nodes {
        made.push(copied(arena, node)?)?;
    }
    Ok(into_bump_slice(made))
}

/// The same name in the arena.
fn copied_name<'b>(arena: &'b Bump, name: &Name<'_>) -> Result<Name<'b>, NoMemory>
    ensures { IfOk result (λ made. named made ≡ named name.now) }
{
    let uri = arena.try_alloc_str(name.uri)?;
    let local = arena.try_alloc_str(name.local)?;
    Ok(Name { uri, local })
}
