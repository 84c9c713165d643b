//! Schemas in compact syntax, by hand.

use crate::repeated::{Parts, chain, nested};
use bumpalo::Bump;
use std::alloc::Global;
use std::process::Abort;
use std::test::Fail;
use tc_base::{Place, Why};
use tc_rnc::RncFault::{Malformed, TooDeep, Unsupported};
use tc_rnc::{Def, Joins, RncFault, SClass, SPat, read_rnc};

/// How many definitions a text has, or why it is refused.
fn definitions(alloc: Global, text: &[u8]) -> Result<usize, RncFault> {
    if text.len() > 67108864 {
        return Err(RncFault::NoMemory);
    }
    let arena = Bump::new(alloc);
    let syntax = read_rnc(&arena, text)?;
    Ok(syntax.defs.len())
}

/// A text, and why it is refused, if it is.
type Text = (&'static [u8], Option<RncFault>);

/// Texts that are read.
static PHRASES: [Text; 26] = [
    (b"", None),
    (b"start = b", None),
    (b"start = empty", None),
    (b"element * - (* - a) {empty}", None),
    (b"element element { text }", None),
    (b"element \\element { notAllowed }", None),
    (b"element \\x { empty }", None),
    (b"start = \\element", None),
    (b"a |= empty", None),
    (b"a &= empty a &= text", None),
    (b"\\start = \\grammar", None),
    (b"div { start = a div { } } b = text", None),
    (b"grammar { start = a }", None),
    (b"grammar { }", None),
    (b"element a|b { (a , b)+ , (c | d)? , (e & f)* }", None),
    (
        b"namespace p = 'u' default namespace q = \"\" datatypes p = \"v\" element p:* - (p:a | q:b) { empty }",
        None,
    ),
    (
        b"namespace element = \"u\" element element:text { mixed { text } }",
        None,
    ),
    (b"element xml:a { empty }", None),
    (b"\xEF\xBB\xBFempty # and no more", None),
    (b"a#\r= text", None),
    (b"# one\n# two\rstart=a # three\r\n", None),
    (b"# \\x{41}\nempty", None),
    (b"element a { attribute b { {x} \"}\" # }\n \\x{} } }", None),
    (b"attribute * { ( [ , \"\\x{41}\" ) \\ >> }?", None),
    (b"element a { attribute b { } }", None),
    (b"element a { attribute b { \"\"\"}\n\"{\"\"\" } }", None),
];

/// Texts that are malformed, and where.
static MALFORMED: [Text; 27] = [
    (b"element a { b , c | d }", Some(Malformed(Place(18)))),
    (b"default namespace = \"ht", Some(Malformed(Place(23)))),
    (b"\xFF", Some(Malformed(Place(0)))),
    (b"a\xC0", Some(Malformed(Place(1)))),
    (b"text\0", Some(Malformed(Place(4)))),
    (b"element a {", Some(Malformed(Place(11)))),
    (b"element a { }", Some(Malformed(Place(12)))),
    (b"element a { empty } }", Some(Malformed(Place(20)))),
    (b"element a - b { empty }", Some(Malformed(Place(10)))),
    (b"element q:a { empty }", Some(Malformed(Place(8)))),
    (b"element a { \"b }", Some(Malformed(Place(16)))),
    (b"element a { \"b\n\" }", Some(Malformed(Place(14)))),
    (
        b"element a { attribute b { \"\\x{41} } }",
        Some(Malformed(Place(37))),
    ),
    (b"start = element", Some(Malformed(Place(15)))),
    (b"a | = empty", Some(Malformed(Place(4)))),
    (b"a = ", Some(Malformed(Place(4)))),
    (b"a = b }", Some(Malformed(Place(6)))),
    (b"empty empty", Some(Malformed(Place(6)))),
    (b"empty ? ?", Some(Malformed(Place(8)))),
    (b"(empty", Some(Malformed(Place(6)))),
    (b"mixed text", Some(Malformed(Place(6)))),
    (b"div { start = a", Some(Malformed(Place(15)))),
    (b"namespace xml = \"b\" empty", Some(Malformed(Place(0)))),
    (
        b"namespace a = \"b\" namespace a = \"c\" empty",
        Some(Malformed(Place(18))),
    ),
    (
        b"default namespace = \"b\" default namespace = \"c\" empty",
        Some(Malformed(Place(24))),
    ),
    (
        b"default namespace a = \"u\" namespace a = \"v\" empty",
        Some(Malformed(Place(26))),
    ),
    (
        b"namespace a = \"http://www.w3.org/2000/xmlns/\" empty",
        Some(Malformed(Place(0))),
    ),
];

/// Texts that have a construct that isn't read, where, and why it isn't.
static CONSTRUCTS: [Text; 16] = [
    (b"p:a", Some(Unsupported(Place(0), Why::DataPattern))),
    (
        b"element a { string }",
        Some(Unsupported(Place(12), Why::DataPattern)),
    ),
    (
        b"element a { token, \"b\" }",
        Some(Unsupported(Place(12), Why::DataPattern)),
    ),
    (
        b"element a { p:n \"\\x{41}\" }",
        Some(Unsupported(Place(12), Why::DataPattern)),
    ),
    (
        b"element a { \"v\" }",
        Some(Unsupported(Place(12), Why::ValuePattern)),
    ),
    (
        b"element a { list { text } }",
        Some(Unsupported(Place(12), Why::ListPattern)),
    ),
    (
        b"element a { external \"u\" }",
        Some(Unsupported(Place(12), Why::ExternalPattern)),
    ),
    (b"include \"u\"", Some(Unsupported(Place(0), Why::Include))),
    (
        b"element a { grammar { start = empty } }",
        Some(Unsupported(Place(12), Why::NestedGrammar)),
    ),
    (
        b"grammar { start = empty } | empty",
        Some(Unsupported(Place(0), Why::NestedGrammar)),
    ),
    (
        b"element a { parent b }",
        Some(Unsupported(Place(12), Why::ParentReference)),
    ),
    (
        b"namespace a = inherit empty",
        Some(Unsupported(Place(14), Why::InheritedNamespace)),
    ),
    (
        b"default namespace = inherit empty",
        Some(Unsupported(Place(20), Why::InheritedNamespace)),
    ),
    (b"[ a ] empty", Some(Unsupported(Place(0), Why::Annotation))),
    (
        b"empty >> a []",
        Some(Unsupported(Place(6), Why::Annotation)),
    ),
    (
        b"element \\x{41} { empty }",
        Some(Unsupported(Place(8), Why::Escape)),
    ),
];

/// The same of literals.
static LITERALS: [Text; 16] = [
    (
        b"namespace a = \"b\\x{41}\" empty",
        Some(Unsupported(Place(16), Why::Escape)),
    ),
    (
        b"element a { \"\\x{41}\" }",
        Some(Unsupported(Place(13), Why::Escape)),
    ),
    (
        b"element a { empty \"\\x{41}\" }",
        Some(Unsupported(Place(19), Why::Escape)),
    ),
    (
        b"element \"\\x{41}\" { empty }",
        Some(Unsupported(Place(9), Why::Escape)),
    ),
    (
        b"namespace a = \"\"\"\\x{41}\"\"\" empty",
        Some(Unsupported(Place(17), Why::Escape)),
    ),
    (
        b"default namespace = \"\\x{41}",
        Some(Unsupported(Place(21), Why::Escape)),
    ),
    (b"a = \"\\x{41}", Some(Unsupported(Place(5), Why::Escape))),
    (
        b"namespace a = \"\"\"b\"\"\" empty",
        Some(Unsupported(Place(14), Why::TripleQuote)),
    ),
    (
        b"a = '''b'''",
        Some(Unsupported(Place(4), Why::TripleQuote)),
    ),
    (
        b"a = \"\"'b'",
        Some(Unsupported(Place(4), Why::ValuePattern)),
    ),
    (
        b"a = \"\" \"b\"",
        Some(Unsupported(Place(4), Why::ValuePattern)),
    ),
    (
        b"namespace a = \"\"\"\nb\"\"\" empty",
        Some(Unsupported(Place(14), Why::TripleQuote)),
    ),
    (
        b"a = \"\"\"b",
        Some(Unsupported(Place(4), Why::TripleQuote)),
    ),
    (
        b"a = '''\nb\"\"\" \\x{41}'''",
        Some(Unsupported(Place(13), Why::Escape)),
    ),
    (
        b"a = '''b''' \\x{41}",
        Some(Unsupported(Place(4), Why::TripleQuote)),
    ),
    (
        b"namespace a = \"b\" ~ \"c\" empty",
        Some(Unsupported(Place(18), Why::Concatenation)),
    ),
];

/// Asserts of each text why it is refused, if it is.
fn assert_faults(rt: &impl Abort, alloc: Global, texts: &[Text]) {
    for (text, fault) in texts {
        assert!(rt; definitions(alloc, text).err() == *fault, "{text:?}");
    }
}

#[test]
fn texts_are_read_or_have_their_faults(rt: HostRuntime) {
    assert_faults(&rt, rt.alloc(), &PHRASES);
    assert_faults(&rt, rt.alloc(), &MALFORMED);
    assert_faults(&rt, rt.alloc(), &CONSTRUCTS);
    assert_faults(&rt, rt.alloc(), &LITERALS);
}

/// Texts of parts that are repeated so many times, and why each is refused, if it is.
static REPEATED: [(Parts, usize, Option<RncFault>); 14] = [
    // Braces and parentheses stand 2,000 deep.
    (PARENTHESES, 2000, None),
    (PARENTHESES, 2001, Some(TooDeep(Place(2000)))),
    (ELEMENTS, 2000, None),
    (ELEMENTS, 2001, Some(TooDeep(Place(22010)))),
    (MIXED, 1999, None),
    (MIXED, 2000, Some(TooDeep(Place(12000)))),
    (DIVISIONS, 2000, None),
    (DIVISIONS, 2001, Some(TooDeep(Place(10004)))),
    (AROUND_ATTRIBUTE, 1998, None),
    (AROUND_ATTRIBUTE, 1999, Some(TooDeep(Place(2025)))),
    // In the text of an attribute braces alone count.
    (IN_ATTRIBUTE, 1999, None),
    (IN_ATTRIBUTE, 2000, Some(TooDeep(Place(2013)))),
    // No limit is set to excepts.
    (EXCEPTS, 100000, None),
    // A definition may be referred to often.
    (
        ["a = text start = element b { a", " | a", "}", "", ""],
        9999,
        None,
    ),
];

const PARENTHESES: Parts = ["", "(", "a", ")", ""];

const ELEMENTS: Parts = ["", "element a {", "text", "}", ""];

const MIXED: Parts = ["", "mixed{", "(text)", "}", ""];

const DIVISIONS: Parts = ["", "div {", "", "}", ""];

const AROUND_ATTRIBUTE: Parts = ["", "(", "element (a) { attribute b { ( } }", ")", ""];

const EXCEPTS: Parts = ["element ", "*-", "a{empty}", "", ""];

const IN_ATTRIBUTE: Parts = ["attribute a { ", "{", "((((", "}", " }"];

#[test]
fn long_texts_are_read_where_they_are_not_too_deep(rt: HostRuntime) -> Result<(), Fail> {
    for (parts, times, fault) in &REPEATED {
        let text = nested(rt.alloc(), parts, *times)?;
        let found = definitions(rt.alloc(), text.as_bytes()).err();
        assert!(rt; found == *fault, "{parts:?} {times}");
    }
    Ok(())
}

const INPUT: &str = "start = article
article = element article { title, section+ }
title = element title { inline }
section = element section {
  attribute id { xsd:ID }?, title, (para | itemlist)* }
para = element para { inline }
itemlist = element itemlist { item* }
item = element item { para+ }
inline = mixed { emph* }
emph = element emph { text }
";

const OUTPUT: &str = "default namespace = \"http://www.w3.org/1999/xhtml\"
start = element html {
  element head { element title { text } }, element body { block+ } }
block = element h1 { inline } | element p { inline }
  | element ul { element li { block+ }+ } | element div { block+ }
inline = mixed { element em { text }* }
";

/// Two schemas of articles, and a chain.
#[test]
fn definitions_are_counted(rt: HostRuntime) -> Result<(), Fail> {
    let chain = chain(rt.alloc(), &("start = a1", 100000, "", "element x{empty}"))?;
    for (text, count) in [(INPUT, 9), (OUTPUT, 3), (chain.as_str(), 100001)] {
        assert!(rt; definitions(rt.alloc(), text.as_bytes()) == Ok(count));
    }
    Ok(())
}

/// The members of a choice.
fn members(pattern: SPat<'_>) -> usize {
    match pattern {
        SPat::Choice(items) => items.len(),
        _ => 0,
    }
}

/// The place of an element and that of its name class, if all names of this namespace but one are in it.
fn places_of_wildcard(pattern: SPat<'_>, namespace: &str) -> Option<(Place, Place)> {
    match pattern {
        SPat::Element(place, SClass::Ns(at, uri, except), _) => {
            if uri == namespace && except.len() == 1 {
                Some((place, at))
            } else {
                None
            }
        }
        _ => None,
    }
}

/// Whether the schema of the next test is read as it should be.
fn is_read_well(defs: &[Def<'_>]) -> bool {
    match defs {
        [first, second] => {
            first.name.is_empty()
                && members(first.body) == 2
                && second.name == "div"
                && second.joins == Joins::Interleave
                && second.place.0 == 36
                && matches!(
                    places_of_wildcard(second.body, "u"),
                    Some((Place(44), Place(52)))
                )
        }
        _ => false,
    }
}

#[test]
fn a_schema_is_read(rt: HostRuntime) {
    let arena = Bump::new(rt.alloc());
    let text = b"namespace p = \"u\"\nstart = a | p # c\n\\div &= element p:* - b { text, c* }";
    match read_rnc(&arena, text) {
        Ok(syntax) => {
            assert!(rt; syntax.end == Place(72));
            assert!(rt; is_read_well(syntax.defs));
        }
        Err(_) => panic!(rt; "a schema"),
    }
}
