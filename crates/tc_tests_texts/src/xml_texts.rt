//! Documents of texts, by hand.

use crate::repeated::{Parts, nested};
use bumpalo::Bump;
use std::alloc::Global;
use std::fmt::Write;
use std::process::Abort;
use std::test::Fail;
use tc_base::{Place, Why};
use tc_model::{Node, Raw, RawElem};
use tc_xml::XmlFault::{Malformed, TooDeep, Unsupported};
use tc_xml::{XmlFault, read_document, read_raw, strip};

/// Whether the text is read, and how it is refused otherwise.
fn outcome(alloc: Global, text: &[u8]) -> Option<XmlFault> {
    let arena = Bump::new(alloc);
    if text.len() > 1000000 {
        return None;
    }
    read_raw(&arena, text).err()
}

/// A text is malformed, wherever.
const MALFORMED: Option<XmlFault> = Some(Malformed(Place(0)));

/// The same, but for the place in a malformed text.
fn outcome_anywhere(alloc: Global, text: &[u8]) -> Option<XmlFault> {
    match outcome(alloc, text) {
        Some(Malformed(_)) => MALFORMED,
        found => found,
    }
}

/// A text, and how it is refused, if it is.
type Text = (&'static str, Option<XmlFault>);

/// Texts that are read.
static GOOD: [Text; 28] = [
    ("<a/>", None),
    ("<a></a>", None),
    ("<a ></a >", None),
    ("\u{FEFF}<a/>", None),
    ("<?xml version='1.0'?><a/>", None),
    (
        "<?xml version=\"1.0\" encoding=\"utf-8\" standalone = 'yes' ?>\n<!-- c --><?p?><a/> <?q x?>",
        None,
    ),
    ("<!DOCTYPE a><a/>", None),
    ("<!DOCTYPE p:a SYSTEM 'x'><a/>", None),
    ("<!DOCTYPE a PUBLIC 'x' \"y\" ><!----><a/>", None),
    ("<a b='1' c=\"'\"/>", None),
    ("<a xmlns='u'><b xmlns=''/></a>", None),
    ("<p:a xmlns:p='u' p:b='1' b='2'/>", None),
    ("<a xml:lang='en'/>", None),
    ("<a>&lt;&gt;&amp;&apos;&quot;&#9;&#x1F600;</a>", None),
    ("<a><![CDATA[<&]] >]]></a>", None),
    ("<a>]]&gt;</a>", None),
    ("<a>]] ></a>", None),
    ("<a><![CDATA[]]]]><![CDATA[>]]></a>", None),
    ("<a b='>&#x9;&#xD;&#x10FFFF;'/>", None),
    ("<a\r\n\tb = '1'\n/>", None),
    ("<a><?p?><?p ?><?xml-stylesheet href='x'?></a>", None),
    ("<a><!-- - -> --></a>", None),
    ("<?xml version='1.0' encoding='us-ascii'?><a/>", None),
    ("<?xml version='1.0' standalone='no'?><a/>", None),
    (
        "<a xmlns:xml='http://www.w3.org/XML/1998/namespace'/>",
        None,
    ),
    ("<xml:a/>", None),
    (
        "<a xmlns='' xmlns:p='u' xmlns:q='u' p:b='1' q:c='2'/>",
        None,
    ),
    (
        "<a xmlns='u' b='1'><p:a xmlns:p='u' p:b='1' b='2'/></a>",
        None,
    ),
];

/// Texts that are malformed.
static MALFORMED_TEXTS: [Text; 29] = [
    ("", MALFORMED),
    ("a", MALFORMED),
    ("<a>", MALFORMED),
    ("<a></b>", MALFORMED),
    ("<a/><b/>", MALFORMED),
    ("<a/>x", MALFORMED),
    (" <?xml version='1.0'?><a/>", MALFORMED),
    ("<a b='1' b='2'/>", MALFORMED),
    ("<p:a xmlns:p='u' xmlns:q='u' p:b='1' q:b='2'/>", MALFORMED),
    ("<p:a/>", MALFORMED),
    ("<a p:b=''/>", MALFORMED),
    ("<xmlns:a/>", MALFORMED),
    ("<a xmlns:p=''/>", MALFORMED),
    ("<a xmlns:xml='u'/>", MALFORMED),
    (
        "<a xmlns:p='http://www.w3.org/XML/1998/namespace'/>",
        MALFORMED,
    ),
    ("<a xmlns='http://www.w3.org/2000/xmlns/'/>", MALFORMED),
    ("<a b='<'/>", MALFORMED),
    ("<a b='1'c='2'/>", MALFORMED),
    ("<a b/>", MALFORMED),
    ("<a>]]></a>", MALFORMED),
    ("<a>&#0;</a>", MALFORMED),
    ("<a>&#xFFFE;</a>", MALFORMED),
    ("<a>&#;</a>", MALFORMED),
    ("<a>& </a>", MALFORMED),
    ("<a>&a:b;</a>", MALFORMED),
    ("<a><!-- -- --></a>", MALFORMED),
    ("<a><!-- ---></a>", MALFORMED),
    ("<a><?xml?></a>", MALFORMED),
    ("<a><?p:q?></a>", MALFORMED),
];

/// More of them: two tables are proved sooner than one of all.
static MORE_MALFORMED_TEXTS: [Text; 35] = [
    ("<a:b:c/>", MALFORMED),
    ("<1/>", MALFORMED),
    ("<a>\u{1}</a>", MALFORMED),
    ("<a>\u{FFFE}</a>", MALFORMED),
    ("<a>&#xD800;</a>", MALFORMED),
    ("<a>&#x110000;</a>", MALFORMED),
    ("<a>&#65</a>", MALFORMED),
    ("<a>&#x;</a>", MALFORMED),
    ("<a>&lt</a>", MALFORMED),
    ("<a><![CDATA[x]]</a>", MALFORMED),
    ("<a><![CDATA[x]></a>", MALFORMED),
    ("<a><!x></a>", MALFORMED),
    ("<a><!-></a>", MALFORMED),
    ("<a></a ", MALFORMED),
    ("<a></A>", MALFORMED),
    ("</a>", MALFORMED),
    ("<a b=1/>", MALFORMED),
    ("<a b='1'", MALFORMED),
    ("<a b='1\"/>", MALFORMED),
    ("<a:/>", MALFORMED),
    ("<:a/>", MALFORMED),
    ("<-a/>", MALFORMED),
    ("<p:a xmlns:p='u'></a>", MALFORMED),
    ("<a><b xmlns:p='u'/><p:b/></a>", MALFORMED),
    (
        "<a xmlns='http://www.w3.org/XML/1998/namespace'/>",
        MALFORMED,
    ),
    (
        "<a xmlns:xmlns='http://www.w3.org/2000/xmlns/'/>",
        MALFORMED,
    ),
    ("<a p:b='1' q:b='2' xmlns:p='u' xmlns:q='u'/>", MALFORMED),
    ("<a/><!DOCTYPE a>", MALFORMED),
    ("<!DOCTYPE a><!DOCTYPE a><a/>", MALFORMED),
    ("<!DOCTYPE a 'x'><a/>", MALFORMED),
    ("<!DOCTYPE a PUBLIC 'x'><a/>", MALFORMED),
    ("<?xml version='1.0' standalone='maybe'?><a/>", MALFORMED),
    ("<?xml encoding='UTF-8'?><a/>", MALFORMED),
    (
        "<?xml version='1.0' encoding='UTF-8'standalone='yes'?><a/>",
        MALFORMED,
    ),
    ("\u{FEFF}\u{FEFF}<a/>", MALFORMED),
];

/// Texts that have what isn't read, where, and why it isn't.
static UNSUPPORTED: [Text; 12] = [
    (
        "<a>&nbsp;</a>",
        Some(Unsupported(Place(3), Why::EntityReference)),
    ),
    (
        "<a>x<b/>&eacute;</a>",
        Some(Unsupported(Place(8), Why::EntityReference)),
    ),
    (
        "<a b='x&nbsp;'/>",
        Some(Unsupported(Place(7), Why::EntityReference)),
    ),
    (
        "\u{FEFF}<a>&x;</a>",
        Some(Unsupported(Place(6), Why::EntityReference)),
    ),
    (
        "<a xml:space='preserve'/>",
        Some(Unsupported(Place(3), Why::XmlSpace)),
    ),
    (
        "<a><b c='' xml:space='&x;'/></a>",
        Some(Unsupported(Place(11), Why::XmlSpace)),
    ),
    (
        "<!DOCTYPE a [<!ELEMENT a ANY>]><a/>",
        Some(Unsupported(Place(12), Why::DoctypeSubset)),
    ),
    (
        "<!DOCTYPE a SYSTEM 'x'[]><a/>",
        Some(Unsupported(Place(22), Why::DoctypeSubset)),
    ),
    (
        "<?xml version='1.1'?><a/>",
        Some(Unsupported(Place(6), Why::XmlVersion)),
    ),
    (
        "<?xml  version='1.1' encoding='x'?><a/>",
        Some(Unsupported(Place(7), Why::XmlVersion)),
    ),
    (
        "<?xml version='1.0' encoding='latin1'?><a/>",
        Some(Unsupported(Place(20), Why::Encoding)),
    ),
    (
        "<?xml version='1.0' encoding='utf8'?><a/>",
        Some(Unsupported(Place(20), Why::Encoding)),
    ),
];

/// Asserts of each text how it is refused, if it is.
fn assert_outcomes(rt: &impl Abort, alloc: Global, texts: &[Text]) {
    for (text, expected) in texts {
        let found = outcome_anywhere(alloc, text.as_bytes());
        assert!(rt; found == *expected, "{text}");
    }
}

#[test]
fn texts_are_read_or_have_their_faults(rt: HostRuntime) {
    assert_outcomes(&rt, rt.alloc(), &GOOD);
    assert_outcomes(&rt, rt.alloc(), &MALFORMED_TEXTS);
    assert_outcomes(&rt, rt.alloc(), &MORE_MALFORMED_TEXTS);
    assert_outcomes(&rt, rt.alloc(), &UNSUPPORTED);
    let found = outcome(rt.alloc(), b"\xFF");
    assert!(rt; found == Some(Malformed(Place(0))));
}

/// Fronts of texts, and how each text of such a front is refused.
static FRONTS: [(&str, XmlFault); 6] = [
    ("<a>&nbsp;</a>", Unsupported(Place(3), Why::EntityReference)),
    ("<a xml:space='", Unsupported(Place(3), Why::XmlSpace)),
    ("<!DOCTYPE a [", Unsupported(Place(12), Why::DoctypeSubset)),
    (
        "<?xml version='1.1'",
        Unsupported(Place(6), Why::XmlVersion),
    ),
    (
        "<?xml version='1.0' encoding='ISO-8859-1'?><a>",
        Unsupported(Place(20), Why::Encoding),
    ),
    (
        "<?xml version='1.0' encoding='ISO-2022-JP'?><a>",
        Unsupported(Place(20), Why::Encoding),
    ),
];

/// Bytes that are no characters.
static BEHIND: [&[u8]; 4] = [b"\xFF", b"\xE9</a>", b"\x1B$B</a>", b"\xEF\xBF\xBE"];

/// Texts of which such bytes are the first fault.
static BROKEN: [&[u8]; 5] = [
    b"<a/>\xFF",
    b"<a>\xFF&nbsp;</a>",
    b"<a>\x01&nbsp;</a>",
    b"<?xml version='1.0' encoding='x\xFF'?><a/>",
    b"<a>\xEF\xBF\xBE<b xml:space=''/></a>",
];

/// How a text in two parts is refused.
fn outcome_of_both(alloc: Global, front: &[u8], behind: &[u8]) -> Result<Option<XmlFault>, Fail> {
    let mut text = Vec::new(alloc);
    for part in [front, behind] {
        text.extend_from_slice(part)?;
    }
    Ok(outcome(alloc, &text))
}

/// What follows the place of a refusal, be it no characters.
#[test]
fn what_stands_behind_is_not_looked_at(rt: HostRuntime) -> Result<(), Fail> {
    for (front, fault) in &FRONTS {
        for bytes in &BEHIND {
            let found = outcome_of_both(rt.alloc(), front.as_bytes(), bytes)?;
            assert!(rt; found == Some(*fault), "{front}");
        }
    }
    for text in &BROKEN {
        assert!(rt; outcome_anywhere(rt.alloc(), text) == MALFORMED, "{text:?}");
    }
    Ok(())
}

/// They are malformed no later than at their end.
#[test]
fn prefixes_are_malformed(rt: HostRuntime) {
    let text = b"<a><b/><c><b/></c></a>";
    for end in 0..text.len() {
        assert!(rt;
            matches!(
                outcome(rt.alloc(), &text[..end]),
                Some(Malformed(place)) if place.0 as usize <= end
            ),
            "{end}"
        );
    }
}

/// The document of a text, by its raw tree.
fn stripped<'b>(arena: &'b Bump, text: &[u8]) -> Result<Node<'b>, Fail> {
    if text.len() > 1000000 {
        return Err(Fail::from("a short text"));
    }
    let raw = read_raw(arena, text)?;
    Ok(strip(arena, &raw)?)
}

#[test]
fn documents_are_stripped(rt: HostRuntime) -> Result<(), Fail> {
    let arena = Bump::new(rt.alloc());
    let document = stripped(&arena, b"<a> <b/>x<!--c-->y </a>")?;
    assert!(rt; matches!(document, Node::Elem(_, [_, Node::Text("xy ")])));
    Ok(())
}

/// Elements within one another.
const NESTED: Parts = ["", "<a>", "", "</a>", ""];

/// Whether so many elements within one another are a document whose element has one child.
fn is_nested(alloc: Global, depth: usize) -> Result<bool, Fail> {
    let text = nested(alloc, &NESTED, depth)?;
    let arena = Bump::new(alloc);
    let document = stripped(&arena, text.as_bytes())?;
    Ok(matches!(document, Node::Elem(_, [_])))
}

#[test]
fn nesting_is_bounded(rt: HostRuntime) -> Result<(), Fail> {
    assert!(rt; is_nested(rt.alloc(), 2000)?);
    for (depth, fault) in [(2000, None), (2001, Some(TooDeep(Place(6000))))] {
        let text = nested(rt.alloc(), &NESTED, depth)?;
        assert!(rt; outcome(rt.alloc(), text.as_bytes()) == fault, "{depth}");
    }
    Ok(())
}

/// The attributes of an element, and the prefixes in its scope.
fn put_attributes(out: &mut String, element: &RawElem<'_>) -> Result<(), Fail> {
    for attr in element.attrs {
        write!(out, "{}|{}={};", attr.name.uri, attr.name.local, attr.value)?;
    }
    for binding in element.scope {
        write!(out, "{}>{};", binding.prefix, binding.uri)?;
    }
    Ok(())
}

/// The children of an element, with their places.
fn put_children(out: &mut String, element: &RawElem<'_>) -> Result<(), Fail> {
    for kid in element.kids {
        let (before, shown, behind, place) = match kid {
            Raw::Text(text, place) => ("", *text, "", place.0),
            Raw::Elem(inner) => ("<", inner.name.local, ">", inner.place.0),
        };
        write!(out, "{before}{shown}{behind}@{place};")?;
    }
    Ok(())
}

/// Texts, and what their roots show, or the only children of these: attributes, prefixes in scope, and children with their places.
static SHOWN: [(&str, &str); 3] = [
    (
        "<a b=' x\ty\r\nz&#10;&lt;'>q\r\nr<!--c-->s<b/><![CDATA[]]>t</a>",
        "|b= x y z\n<;xml>http://www.w3.org/XML/1998/namespace;q\nrs@24;<b>@37;t@41;",
    ),
    (
        "<a xmlns='u' xmlns:p='v' p:c='1'/>",
        "v|c=1;xml>http://www.w3.org/XML/1998/namespace;>u;p>v;",
    ),
    (
        "<a xmlns='u' xmlns:p='v'><b xmlns:p='w' xmlns='' p:c='' xmlns:q='u'>&#13;\r<c/><?p?></b></a>",
        "w|c=;xml>http://www.w3.org/XML/1998/namespace;p>w;q>u;\r\n@68;<c>@74;",
    ),
];

/// What the root of a text shows, or its only child.
fn put_shown_of_text(out: &mut String, arena: &Bump, text: &[u8]) -> Result<(), Fail> {
    if text.len() > 1000000 {
        return Err(Fail::from("a short text"));
    }
    let tree = read_raw(arena, text)?;
    let Raw::Elem(root) = &tree else {
        return Err(Fail::from("an element"));
    };
    let shown = match root.kids {
        [kid] => kid,
        _ => &tree,
    };
    if let Raw::Elem(element) = shown {
        put_attributes(out, element)?;
        put_children(out, element)?;
    }
    Ok(())
}

#[test]
fn trees_as_they_are_read(rt: HostRuntime) -> Result<(), Fail> {
    let arena = Bump::new(rt.alloc());
    for (text, answer) in &SHOWN {
        let mut shown = String::new(rt.alloc());
        put_shown_of_text(&mut shown, &arena, text.as_bytes())?;
        assert!(rt; shown.as_str() == *answer);
    }
    Ok(())
}

/// A document as its names, each with what stands in it in parentheses, and its texts in brackets.
fn written(node: &Node<'_>, out: &mut String) -> Result<(), Fail> {
    match node {
        Node::Text(text) => write!(out, "[{}]", text)?,
        Node::Elem(name, kids) => {
            write!(out, "{}|{}(", name.uri, name.local)?;
            for kid in *kids {
                written(kid, out)?;
            }
            out.push_str(")")?;
        }
    }
    Ok(())
}

/// Texts, and their documents as they are written above, or how they are refused.
static DOCUMENTS: [(&str, Result<&str, XmlFault>); 8] = [
    ("<a/>", Ok("|a()")),
    ("<a> <b/>x<!--c-->y </a>", Ok("|a(|b()[xy ])")),
    (
        "<a>\r\nx&amp;\ry<?p?><![CDATA[]]>z&#10;</a>",
        Ok("|a([\nx&\nyz\n])"),
    ),
    ("<a c='1'><b d='&lt;'>\t</b></a >", Ok("|a(|b())")),
    (
        "<a xmlns='u'><b xmlns=''/><p:c xmlns:p='v'/>t</a>",
        Ok("u|a(|b()v|c()[t])"),
    ),
    (
        "<!DOCTYPE a><!--x--><a><b>1</b><b>2</b></a><?p?>\n",
        Ok("|a(|b([1])|b([2]))"),
    ),
    (
        "<a>&nbsp;</a>",
        Err(Unsupported(Place(3), Why::EntityReference)),
    ),
    ("<a><b></a>", Err(Malformed(Place(6)))),
];

/// Writes the document of a text as above. How the text is refused, if it is.
fn put_document(out: &mut String, arena: &Bump, text: &str) -> Result<Option<XmlFault>, Fail> {
    if text.len() > 1000000 {
        return Err(Fail::from("a short text"));
    }
    match read_document(arena, text.as_bytes()) {
        Ok(document) => written(&document, out)?,
        Err(fault) => return Ok(Some(fault)),
    }
    Ok(None)
}

#[test]
fn documents_are_read(rt: HostRuntime) -> Result<(), Fail> {
    let arena = Bump::new(rt.alloc());
    for (text, answer) in &DOCUMENTS {
        let mut out = String::new(rt.alloc());
        let found = match put_document(&mut out, &arena, text)? {
            None => Ok(out.as_str()),
            Some(fault) => Err(fault),
        };
        assert!(rt; found == *answer, "{text}");
    }
    Ok(())
}
