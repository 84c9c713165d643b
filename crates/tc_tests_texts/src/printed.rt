//! Texts of trees, by hand, and what a fault leaves of them.

use crate::repeated::{nested, nested_tree};
use crate::stores::sink_of;
use bumpalo::Bump;
use std::alloc::Global;
use std::process::Abort;
use std::test::Fail;
use tc_model::{Name, Node};
use tc_print::print;

const XML: &str = "http://www.w3.org/XML/1998/namespace";

/// An empty element of the namespace `u`.
const C_OF_U: Node<'static> = Node::Elem(
    Name {
        uri: "u",
        local: "c",
    },
    &[],
);

const A_OF_U: Name<'static> = Name {
    uri: "u",
    local: "a",
};

const B: Name<'static> = Name {
    uri: "",
    local: "b",
};

/// Trees and their texts.
static PRINTED: [(Node<'static>, &str); 6] = [
    // A namespace is declared where it changes.
    (
        Node::Elem(A_OF_U, &[Node::Text("x < y"), Node::Elem(B, &[])]),
        "<a xmlns=\"u\">x &lt; y<b xmlns=\"\"/></a>",
    ),
    (
        Node::Elem(A_OF_U, &[Node::Elem(B, &[C_OF_U]), C_OF_U]),
        "<a xmlns=\"u\"><b xmlns=\"\"><c xmlns=\"u\"/></b><c/></a>",
    ),
    (
        Node::Elem(
            Name {
                uri: XML,
                local: "a",
            },
            &[Node::Elem(
                Name {
                    uri: "u",
                    local: "c",
                },
                &[
                    Node::Elem(
                        Name {
                            uri: XML,
                            local: "d",
                        },
                        &[],
                    ),
                    C_OF_U,
                ],
            )],
        ),
        "<xml:a><c xmlns=\"u\"><xml:d/><c/></c></xml:a>",
    ),
    // Some characters are references.
    (
        Node::Text("<>&\n\r\"\t'\u{e9}"),
        "&lt;&gt;&amp;&#10;&#13;\"\t'\u{e9}",
    ),
    (Node::Text("one & two&"), "one &amp; two&amp;"),
    (
        Node::Elem(
            Name {
                uri: "<>&\n\r\"\t'\u{e9}",
                local: "a",
            },
            &[],
        ),
        "<a xmlns=\"&lt;>&amp;&#10;&#13;&quot;&#9;'\u{e9}\"/>",
    ),
];

/// Asserts what is printed of trees into such a sink: their whole text, or the front of it that a fault leaves.
fn assert_printed(
    rt: &impl Abort,
    alloc: Global,
    nodes: &[Node<'_>],
    room: usize,
    failing: Option<u64>,
    expected: Result<&str, &str>,
) -> Result<(), Fail> {
    let mut sink = sink_of(alloc, room, failing)?;
    let is_whole = print(nodes, &mut sink).is_ok();
    let (Ok(text) | Err(text)) = expected;
    assert!(rt; is_whole == expected.is_ok(), "{text}");
    assert!(rt; sink.bytes() == text.as_bytes(), "{text}");
    Ok(())
}

#[test]
fn namespaces_are_declared_and_characters_are_references(rt: HostRuntime) -> Result<(), Fail> {
    for (node, text) in &PRINTED {
        assert_printed(&rt, rt.alloc(), &[*node], 200, None, Ok(text))?;
    }
    Ok(())
}

/// An empty element of the namespace `u`.
const LEAF: [Node<'static>; 1] = [Node::Elem(A_OF_U, &[])];

/// A plain text is one write, and a reference is one.
const TEXTS: [Node<'static>; 2] = [Node::Text("plain text"), Node::Text("a&b")];

/// Trees, the room for their text, the write that fails, and what is printed before the fault.
static FRONTS: [(&[Node<'static>], usize, Option<u64>, &str); 3] = [
    // The second write is that of the name.
    (&LEAF, 200, Some(2), "<"),
    (&TEXTS, 200, Some(3), "plain texta"),
    (&LEAF, 4, None, "<a x"),
];

#[test]
fn a_fault_leaves_a_front(rt: HostRuntime) -> Result<(), Fail> {
    for (nodes, room, failing, front) in &FRONTS {
        assert_printed(&rt, rt.alloc(), nodes, *room, *failing, Err(front))?;
    }
    Ok(())
}

#[test]
fn elements_nest_eight_thousand_deep(rt: HostRuntime) -> Result<(), Fail> {
    let arena = Bump::new(rt.alloc());
    let node = nested_tree(&arena, 8_000)?;
    let text = nested(rt.alloc(), &["", "<a>", "x", "</a>", ""], 8_000)?;
    assert_printed(&rt, rt.alloc(), &[node], 100_000, None, Ok(text.as_str()))
}
