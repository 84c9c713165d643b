//! Schemas of declarations, by hand.

use bumpalo::Bump;
use std::alloc::Global;
use std::fmt::Write;
use std::test::Fail;
use tc_dtd::DtdGrammarFault::{TooManyElements, TooManyNodes};
use tc_dtd::{DtdGrammarFault, grammar, read_dtd};

/// How many element patterns the schema of a text has, or which limit it passes.
fn elements(alloc: Global, text: &[u8], root: &str) -> Result<usize, DtdGrammarFault> {
    if text.len() > 67108864 {
        return Err(DtdGrammarFault::NoMemory);
    }
    let arena = Bump::new(alloc);
    let Ok(dtd) = read_dtd(&arena, text) else {
        return Err(DtdGrammarFault::NoMemory);
    };
    let made = grammar(&arena, &dtd, root)?;
    Ok(made.elements.len())
}

/// Texts, their roots, and how many element patterns their schemas have.
static REACHED: [(&[u8], &str, usize); 8] = [
    (b"<!ELEMENT a (b*)><!ELEMENT b EMPTY>", "a", 2),
    (b"<!ELEMENT a (b*)><!ELEMENT b EMPTY>", "b", 1),
    (b"<!ELEMENT a (b*)><!ELEMENT b EMPTY>", "z", 0),
    (b"<!ELEMENT a (z)>", "a", 1),
    (
        b"<!ELEMENT b EMPTY><!ELEMENT a ANY><!ELEMENT c EMPTY>",
        "a",
        3,
    ),
    (
        b"<!ELEMENT a (b)><!ELEMENT b ANY><!ELEMENT c EMPTY>",
        "a",
        3,
    ),
    (
        b"<!ELEMENT a (#PCDATA|c)*><!ELEMENT b ANY><!ELEMENT c EMPTY>",
        "a",
        2,
    ),
    (b"<!ELEMENT a (a)>", "a", 1),
];

#[test]
fn elements_that_are_reached_are_kept(rt: HostRuntime) {
    for (text, root, count) in &REACHED {
        assert!(rt;
            elements(rt.alloc(), text, root) == Ok(*count),
            "{root} {text:?}"
        );
    }
}

/// So many elements, each in the one before.
fn chain(alloc: Global, count: u32) -> Result<String, Fail> {
    let mut text = String::new(alloc);
    for number in 1..count {
        write!(text, "<!ELEMENT e{number} (e{})>", number + 1)?;
    }
    write!(text, "<!ELEMENT e{count} EMPTY>")?;
    Ok(text)
}

/// How many elements a chain has, its root, and how many element patterns its schema has, or which limit it passes.
static CHAINS: [(u32, &str, Result<usize, DtdGrammarFault>); 3] = [
    (256, "e1", Ok(256)),
    (257, "e1", Err(TooManyElements)),
    (257, "e2", Ok(256)),
];

#[test]
fn there_are_256_elements(rt: HostRuntime) -> Result<(), Fail> {
    for (count, root, wanted) in &CHAINS {
        let text = chain(rt.alloc(), *count)?;
        assert!(rt;
            elements(rt.alloc(), text.as_bytes(), root) == *wanted,
            "{count} {root}"
        );
    }
    Ok(())
}

/// So many elements that may hold any.
fn of_any(alloc: Global, count: u32) -> Result<String, Fail> {
    let mut text = String::new(alloc);
    for number in 0..count {
        write!(text, "<!ELEMENT e{number} ANY>")?;
    }
    Ok(text)
}

#[test]
fn nodes_are_counted(rt: HostRuntime) -> Result<(), Fail> {
    let text = of_any(rt.alloc(), 10000)?;
    assert!(rt; elements(rt.alloc(), text.as_bytes(), "e0") == Err(TooManyNodes));
    Ok(())
}
