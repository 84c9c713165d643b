//! Texts of declarations, by hand.

use crate::repeated::{Parts, nested};
use bumpalo::Bump;
use std::alloc::Global;
use std::process::Abort;
use std::test::Fail;
use tc_base::{Place, Why};
use tc_dtd::DtdFault::{Malformed, TooDeep, Twice, Unsupported};
use tc_dtd::{Content, Decl, DtdFault, Particle, read_dtd};

/// Why a text is refused, which is of a lawful length.
fn fault(alloc: Global, text: &[u8]) -> Option<DtdFault> {
    if text.len() > 67108864 {
        return Some(DtdFault::NoMemory);
    }
    let arena = Bump::new(alloc);
    read_dtd(&arena, text).err()
}

/// A text, and why it is refused, if it is.
type Text = (&'static [u8], Option<DtdFault>);

/// Texts that are read.
static PHRASES: [Text; 33] = [
    (b"", None),
    (b" \n", None),
    (b"\xEF\xBB\xBF", None),
    (b"<?xml?>", None),
    (b"<?xml version=\"1.0\"?>", None),
    (b"<?xml encoding='utf-8'?>", None),
    (
        b"<?xml version='1.0' encoding='US-ASCII' standalone='no' ?>",
        None,
    ),
    (b"<?xml-stylesheet a?><!ELEMENT a EMPTY>", None),
    (b"<!-- % --><?p % ?>", None),
    (b"<!ELEMENT a EMPTY>", None),
    (b"<!ELEMENT a\tANY\n>", None),
    (b"<!ELEMENT a (#PCDATA)>", None),
    (b"<!ELEMENT a (#PCDATA)*>", None),
    (b"<!ELEMENT a ( #PCDATA | b | b )* >", None),
    (b"<!ELEMENT a (b)>", None),
    (b"<!ELEMENT a (b?)>", None),
    (b"<!ELEMENT a (b*,c+)?>", None),
    (b"<!ELEMENT a ( b | (c , d)* | e )+>", None),
    (b"<!ELEMENT a ((b))>", None),
    (b"<!ELEMENT a (a|a)>", None),
    (b"<!ELEMENT a (b,a)><!ELEMENT b ANY>", None),
    (b"<!ATTLIST a k CDATA \">\">", None),
    (b"<!ATTLIST a k CDATA '%\">'>", None),
    (b"<!ATTLIST>", None),
    (b"<!NOTATION n SYSTEM \"%\">", None),
    (b"<!ENTITY e \">\">", None),
    (b"<!ENTITY e '\"'>", None),
    (
        b"<!ELEMENT a EMPTY> <!-- c --> <?p?> <!ENTITY e SYSTEM 'f'> <!ELEMENT b EMPTY>",
        None,
    ),
    (b"<!ELEMENT EMPTY EMPTY>", None),
    (b"<!ELEMENT \xC3\xA9 (\xC3\xA9)>", None),
    (
        b"<!ELEMENT a (#PCDATA)><!ATTLIST a a CDATA #IMPLIED -- <![ >",
        None,
    ),
    (b"<!ELEMENT a (\r\nb\r\n)>", None),
    (b"<!ELEMENT a EMPTY   >", None),
];

/// Texts that are malformed, and where.
static MALFORMED: [Text; 31] = [
    (b"<!ELEMENT a (b,c|d)>", Some(Malformed(Place(16)))),
    (b"<!ELEMENT a (b|c,d)>", Some(Malformed(Place(16)))),
    (b"<!ELEMENT a (b )*c>", Some(Malformed(Place(17)))),
    (b"<!ELEMENT a (b *)>", Some(Malformed(Place(15)))),
    (b"<!ELEMENT a (b) *>", Some(Malformed(Place(16)))),
    (b"<!ELEMENT a ()>", Some(Malformed(Place(13)))),
    (b"<!ELEMENT a (b,)>", Some(Malformed(Place(15)))),
    (b"<!ELEMENT a (b", Some(Malformed(Place(14)))),
    (b"<!ELEMENT a b>", Some(Malformed(Place(12)))),
    (b"<!ELEMENT a>", Some(Malformed(Place(11)))),
    (b"<!ELEMENT a EMPTY", Some(Malformed(Place(17)))),
    (b"<!ELEMENT a EMPTYx>", Some(Malformed(Place(17)))),
    (b"<!ELEMENT a empty>", Some(Malformed(Place(12)))),
    (b"<!ELEMENTa EMPTY>", Some(Malformed(Place(9)))),
    (b"<!ELEMENT 1 EMPTY>", Some(Malformed(Place(10)))),
    (b"<!ELEMENT a(b)>", Some(Malformed(Place(11)))),
    (b"<!ELEMENT a (#PCDATA|b)>", Some(Malformed(Place(23)))),
    (b"<!ELEMENT a (#PCDATA,b)*>", Some(Malformed(Place(20)))),
    (b"<!ELEMENT a (#PCDATA)?>", Some(Malformed(Place(21)))),
    (b"<!ELEMENT a (b|#PCDATA)*>", Some(Malformed(Place(15)))),
    (b"<!ELEMENT a (#PCDATA|(b))*>", Some(Malformed(Place(21)))),
    (b"<!ELEMENT a (<![)>", Some(Malformed(Place(13)))),
    (b"<!DOCTYPE a>", Some(Malformed(Place(0)))),
    (b"<a/>", Some(Malformed(Place(0)))),
    (b"x", Some(Malformed(Place(0)))),
    (b"<!-- -- -->", Some(Malformed(Place(0)))),
    (b"<?xml %?>", Some(Malformed(Place(6)))),
    (b" <?xml version='1.0'?>", Some(Malformed(Place(1)))),
    (b"<!ATTLIST a 'x>", Some(Malformed(Place(15)))),
    (b"<!ELEMENT a EMPTY>\xFF", Some(Malformed(Place(18)))),
    (
        b"<!ELEMENT a EMPTY><!ELEMENT a EMPTY>\xFF",
        Some(Malformed(Place(36))),
    ),
];

/// Texts that have a construct that isn't read, where, and why it isn't.
static CONSTRUCTS: [Text; 23] = [
    (
        b"<!ENTITY % x \"b\">",
        Some(Unsupported(Place(9), Why::ParameterEntity)),
    ),
    (b"%x;", Some(Unsupported(Place(0), Why::ParameterEntity))),
    (b" %x;", Some(Unsupported(Place(1), Why::ParameterEntity))),
    (
        b"<!ELEMENT %n; EMPTY>",
        Some(Unsupported(Place(10), Why::ParameterEntity)),
    ),
    (
        b"<!ELEMENT% a EMPTY>",
        Some(Unsupported(Place(9), Why::ParameterEntity)),
    ),
    (
        b"<!ELEMENT a %c;>",
        Some(Unsupported(Place(12), Why::ParameterEntity)),
    ),
    (
        b"<!ELEMENT a (%c;)>",
        Some(Unsupported(Place(13), Why::ParameterEntity)),
    ),
    (
        b"<!ELEMENT a (b,%c;)>",
        Some(Unsupported(Place(15), Why::ParameterEntity)),
    ),
    (
        b"<!ELEMENT a (b%c;)>",
        Some(Unsupported(Place(14), Why::ParameterEntity)),
    ),
    (
        b"<!ELEMENT a (#PCDATA %c;)*>",
        Some(Unsupported(Place(21), Why::ParameterEntity)),
    ),
    (
        b"<!ELEMENT a (#PCDATA|%c;)*>",
        Some(Unsupported(Place(21), Why::ParameterEntity)),
    ),
    (
        b"<!ELEMENT a (#PCDATA|b)%c;>",
        Some(Unsupported(Place(23), Why::ParameterEntity)),
    ),
    (
        b"<!ELEMENT a EMPTY %e;>",
        Some(Unsupported(Place(18), Why::ParameterEntity)),
    ),
    (
        b"<!ATTLIST a %k;>",
        Some(Unsupported(Place(12), Why::ParameterEntity)),
    ),
    (
        b"<!ENTITY e \"%x;\">",
        Some(Unsupported(Place(12), Why::ParameterEntity)),
    ),
    (
        b"<!ENTITY e '%",
        Some(Unsupported(Place(12), Why::ParameterEntity)),
    ),
    (
        b"<![INCLUDE[]]>",
        Some(Unsupported(Place(0), Why::ConditionalSection)),
    ),
    (
        b"<!ELEMENT a EMPTY><![ %x;",
        Some(Unsupported(Place(18), Why::ConditionalSection)),
    ),
    (
        b"<!ELEMENT a:b EMPTY>",
        Some(Unsupported(Place(11), Why::QualifiedElementName)),
    ),
    (
        b"<!ELEMENT :b EMPTY>",
        Some(Unsupported(Place(10), Why::QualifiedElementName)),
    ),
    (
        b"<!ELEMENT a (b,c:d)>",
        Some(Unsupported(Place(16), Why::QualifiedElementName)),
    ),
    (
        b"<?xml version='1.1'?>",
        Some(Unsupported(Place(6), Why::XmlVersion)),
    ),
    (
        b"<?xml encoding='latin-1'?>\xFF",
        Some(Unsupported(Place(6), Why::Encoding)),
    ),
];

/// Texts that declare an element twice, and where; another fault comes before that.
static DECLARED_TWICE: [Text; 4] = [
    (
        b"<!ELEMENT a EMPTY><!ELEMENT a EMPTY>",
        Some(Twice(Place(18))),
    ),
    (
        b"<!ELEMENT a ANY> <!ELEMENT b ANY><!ELEMENT b EMPTY><!ELEMENT a ANY>",
        Some(Twice(Place(33))),
    ),
    (
        b"\xEF\xBB\xBF<!ELEMENT a ANY><!ELEMENT a ANY>",
        Some(Twice(Place(19))),
    ),
    (
        b"<!ELEMENT a ANY><!ELEMENT a ANY>%",
        Some(Unsupported(Place(32), Why::ParameterEntity)),
    ),
];

/// Asserts of each text why it is refused, if it is.
fn assert_faults(rt: &impl Abort, alloc: Global, texts: &[Text]) {
    for (text, wanted) in texts {
        assert!(rt; fault(alloc, text) == *wanted, "{text:?}");
    }
}

#[test]
fn texts_are_read_or_have_their_faults(rt: HostRuntime) {
    assert_faults(&rt, rt.alloc(), &PHRASES);
    assert_faults(&rt, rt.alloc(), &MALFORMED);
    assert_faults(&rt, rt.alloc(), &CONSTRUCTS);
    assert_faults(&rt, rt.alloc(), &DECLARED_TWICE);
}

/// A name within parentheses.
const PARENTHESES: Parts = ["<!ELEMENT a ", "(", "b", ")", ">"];

/// How deep parentheses nest, and why the text is refused, if it is.
static NESTED: [(usize, Option<DtdFault>); 2] = [(2000, None), (2001, Some(TooDeep(Place(2012))))];

#[test]
fn parentheses_nest_2000_deep(rt: HostRuntime) -> Result<(), Fail> {
    for (depth, wanted) in &NESTED {
        let text = nested(rt.alloc(), &PARENTHESES, *depth)?;
        assert!(rt; fault(rt.alloc(), text.as_bytes()) == *wanted, "{depth}");
    }
    Ok(())
}

/// The name of the first particle of a choice with an asterisk, where that is a name with a plus sign.
fn first_of_choice<'b>(decl: &Decl<'b>) -> Option<&'b str> {
    let Content::Children(Particle::Star(Particle::Choice(particles))) = decl.content else {
        return None;
    };
    match particles.first()? {
        Particle::Plus(Particle::Name(name)) => Some(name),
        _ => None,
    }
}

/// How many names mixed content has.
fn mixed_names(decl: &Decl<'_>) -> Option<usize> {
    match decl.content {
        Content::Mixed(names) => Some(names.len()),
        _ => None,
    }
}

/// Whether the declarations of the next test are read as they should be.
fn are_kept(decls: &[Decl<'_>]) -> bool {
    match decls {
        [first, second] => first_of_choice(first) == Some("b") && mixed_names(second) == Some(1),
        _ => false,
    }
}

#[test]
fn contents_are_kept(rt: HostRuntime) {
    let arena = Bump::new(rt.alloc());
    let text = b"<!ELEMENT a (b+|(c,d)?)*><!ELEMENT b (#PCDATA|c)*>";
    match read_dtd(&arena, text) {
        Ok(dtd) => assert!(rt; are_kept(dtd.decls)),
        Err(_) => panic!(rt; "a definition"),
    }
}
