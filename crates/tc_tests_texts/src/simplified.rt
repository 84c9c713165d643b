//! Grammars of schemas, by hand.

use crate::repeated::{Chain, Parts, chain, nested};
use bumpalo::Bump;
use std::alloc::Global;
use std::test::Fail;
use tc_base::Place;
use tc_model::Grammar;
use tc_rnc::read_rnc;
use tc_simple::{SimpleFault, simplify};

/// The grammar of a text in compact syntax, or its fault.
fn grammar_of<'b>(arena: &'b Bump, text: &str) -> Result<Grammar<'b>, SimpleFault> {
    if text.len() > 67108864 {
        return Err(SimpleFault::NoMemory);
    }
    let Ok(syntax) = read_rnc(arena, text.as_bytes()) else {
        return Err(SimpleFault::NoMemory);
    };
    simplify(arena, &syntax)
}

/// The number of element patterns of a schema, or its fault.
fn elements(alloc: Global, text: &str) -> Result<usize, SimpleFault> {
    let arena = Bump::new(alloc);
    let grammar = grammar_of(&arena, text)?;
    Ok(grammar.elements.len())
}

const ARTICLE: &str = "datatypes xsd = \"http://www.w3.org/2001/XMLSchema-datatypes\"
start = article
article = element article { title, section+ }
title = element title { inline }
section = element section {
  attribute id { xsd:ID }?, title, (para | itemlist)* }
para = element para { inline }
itemlist = element itemlist { item* }
item = element item { para+ }
inline = mixed { emph* }
emph = element emph { text }
";

/// Texts, and how many element patterns they have, or why there is no grammar of them.
static GRAMMARS: [(&str, Result<usize, SimpleFault>); 15] = [
    (
        "start = a\na = a | empty",
        Err(SimpleFault::Loop(Place(14))),
    ),
    ("start = b", Err(SimpleFault::Undefined(Place(8)))),
    (
        "start = a\na = element x{empty}\na = element y{empty}",
        Err(SimpleFault::Twice(Place(31))),
    ),
    (
        "element * - (* - a) {empty}",
        Err(SimpleFault::BadExcept(Place(13))),
    ),
    ("start = empty", Err(SimpleFault::BadStart(Place(0)))),
    ("", Err(SimpleFault::Undefined(Place(0)))),
    (
        "a = element a{empty}",
        Err(SimpleFault::Undefined(Place(20))),
    ),
    ("start = e e = element a{e}", Ok(1)),
    ("start = e e = element a{e?} f = f", Ok(1)),
    (
        "start = e e = element a{f} f = e?, g g = f",
        Err(SimpleFault::Loop(Place(35))),
    ),
    (
        "start = a start |= b a = element a{b} b = element b{empty}",
        Ok(2),
    ),
    (
        "start = a a = element a{empty}?",
        Err(SimpleFault::BadStart(Place(0))),
    ),
    ("start &= notAllowed", Ok(0)),
    ("a |= text a &= text", Err(SimpleFault::Twice(Place(10)))),
    (ARTICLE, Ok(7)),
];

#[test]
fn faults_have_their_places(rt: HostRuntime) {
    for (text, wanted) in &GRAMMARS {
        assert!(rt; elements(rt.alloc(), text) == *wanted, "{text}");
    }
}

/// Texts of parts that are repeated so many times, and the same of each.
static REPEATED: [(Parts, usize, Result<usize, SimpleFault>); 7] = [
    // Nodes are counted, whatever becomes of them.
    (MANY_NODES, 65533, Ok(1)),
    (MANY_NODES, 65534, Err(SimpleFault::TooManyNodes)),
    // So are element patterns.
    (MANY_ELEMENTS, 255, Ok(256)),
    (MANY_ELEMENTS, 256, Err(SimpleFault::TooManyElements)),
    // The second of many excepts is refused, but not in the name class of an attribute.
    (EXCEPTS, 100000, Err(SimpleFault::BadExcept(Place(10)))),
    (EXCEPTS_OF_ATTRIBUTE, 100000, Ok(1)),
    // A definition that is referred to often is one element pattern.
    (
        [
            "start = element a { b",
            ", b",
            " } b = element b { empty }",
            "",
            "",
        ],
        9999,
        Ok(2),
    ),
];

const MANY_NODES: Parts = ["element a { empty", "|empty", "}", "", ""];

const EXCEPTS: Parts = ["element ", "*-", "a{empty}", "", ""];

const EXCEPTS_OF_ATTRIBUTE: Parts = ["element b{attribute ", "*-", "a{}}", "", ""];

const MANY_ELEMENTS: Parts = ["element a{empty}", "|element a{empty}", "", "", ""];

#[test]
fn nodes_and_elements_are_counted(rt: HostRuntime) -> Result<(), Fail> {
    for (parts, times, wanted) in &REPEATED {
        let text = nested(rt.alloc(), parts, *times)?;
        assert!(rt; elements(rt.alloc(), text.as_str()) == *wanted, "{times}");
    }
    Ok(())
}

/// Chains, and the same of each.
static CHAINS: [(Chain, Result<usize, SimpleFault>); 4] = [
    (("start = a1", 100000, "", "element x{empty}"), Ok(1)),
    (
        ("start = a1", 100000, "", "a1"),
        Err(SimpleFault::Loop(Place(16))),
    ),
    // A pattern nests as deep as what its definitions come to.
    (("start = element x{a1}", 2000, "+", "text"), Ok(1)),
    (
        ("start = element x{a1}", 2001, "+", "text"),
        Err(SimpleFault::TooNested),
    ),
];

#[test]
fn chains_are_followed(rt: HostRuntime) -> Result<(), Fail> {
    for (parts, wanted) in &CHAINS {
        let text = chain(rt.alloc(), parts)?;
        assert!(rt;
            elements(rt.alloc(), text.as_str()) == *wanted,
            "{}",
            parts.1
        );
    }
    Ok(())
}
