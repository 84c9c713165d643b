//! Long texts and deep trees, of parts that are repeated.

use bumpalo::Bump;
use std::alloc::Global;
use std::fmt::Write;
use std::test::Fail;
use tc_model::{Name, Node};

/// Five parts of a text, of which the second and the fourth stand in it any number of times.
pub(crate) type Parts = [&'static str; 5];

/// The text of some parts, the second and the fourth so many times.
pub(crate) fn nested(alloc: Global, parts: &Parts, times: usize) -> Result<String, Fail> {
    let [first, opening, middle, closing, last] = *parts;
    let parts = [
        (first, 1),
        (opening, times),
        (middle, 1),
        (closing, times),
        (last, 1),
    ];
    joined(alloc, &parts)
}

/// The text of some parts, each so many times.
pub(crate) fn joined(alloc: Global, parts: &[(&str, usize)]) -> Result<String, Fail> {
    let mut text = String::new(alloc);
    for (part, times) in parts {
        for _ in 0..*times {
            text.push_str(part)?;
        }
    }
    Ok(text)
}

/// A schema of a chain of definitions: its start, how many there are, what stands behind each reference to the next one,
/// and what the last one is.
pub(crate) type Chain = (&'static str, u32, &'static str, &'static str);

/// The text of a chain.
pub(crate) fn chain(alloc: Global, parts: &Chain) -> Result<String, Fail> {
    let (start, count, behind, last) = *parts;
    let mut text = String::from_str(alloc, start)?;
    for i in 1..count {
        write!(text, "\na{i} = a{}{behind}", i + 1)?;
    }
    write!(text, "\na{count} = {last}\n")?;
    Ok(text)
}

/// A text within so many elements.
pub(crate) fn nested_tree<'b>(arena: &'b Bump, depth: u32) -> Result<Node<'b>, Fail> {
    let mut node = Node::Text("x");
    let name = Name {
        uri: "",
        local: "a",
    };
    for _ in 0..depth {
        node = Node::Elem(name, arena.try_alloc_slice_copy(&[node])?);
    }
    Ok(node)
}
