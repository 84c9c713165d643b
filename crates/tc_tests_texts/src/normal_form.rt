use crate::repeated::nested_tree;
use bumpalo::Bump;
use std::test::Fail;
use tc_model::{Name, Node, normalise};

/// Texts beside an element and in it.
static TEXTS: [Node<'static>; 3] = [
    Node::Text(" "),
    Node::Elem(
        Name {
            uri: "",
            local: "a",
        },
        &[Node::Text(" "), Node::Text("x"), Node::Text("\n")],
    ),
    Node::Text("\t"),
];

#[test]
fn texts_join_and_white_space_goes(rt: HostRuntime) -> Result<(), Fail> {
    let arena = Bump::new(rt.alloc());
    let normal = normalise(&arena, &TEXTS)?;
    assert!(rt; matches!(normal, [Node::Elem(_, [Node::Text(" x\n")])]));
    Ok(())
}

/// The children of the first tree.
fn children_of_first<'b>(nodes: &'b [Node<'b>]) -> &'b [Node<'b>] {
    if let Some(Node::Elem(_, kids)) = nodes.first() {
        return *kids;
    }
    &nodes[..0]
}

/// How many elements stand within one another, each the first child of the one around it, counted up to `most`.
fn depth_of<'b>(nodes: &'b [Node<'b>], most: u32) -> u32 {
    let mut level = nodes;
    let mut depth = 0;
    for above in 0..most {
        if matches!(level.first(), Some(Node::Elem(_, _))) {
            depth = above + 1;
        }
        level = children_of_first(level);
    }
    depth
}

#[test]
fn elements_nest_eight_thousand_deep(rt: HostRuntime) -> Result<(), Fail> {
    let arena = Bump::new(rt.alloc());
    let node = nested_tree(&arena, 8000)?;
    let normal = normalise(&arena, &[node])?;
    assert!(rt; depth_of(normal, 9000) == 8000);
    Ok(())
}
