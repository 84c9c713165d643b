//! Values from the standards, by hand.

use std::alloc::Global;
use tc_base::limits::LONGEST_FILE;
use tc_base::{Cursor, NoMemory, Place, Why, is_char, is_name_char, is_name_start, is_white};

const OUTSIDE: &str = "\u{0}\u{8}\u{B}\u{C}\u{E}\u{1F}\u{FFFE}\u{FFFF}";

const WHITE: &str = "\u{9}\u{A}\u{D}\u{20}";

const OTHERS: &str =
    "!,/;@[^`{\u{7F}\u{B6}\u{B8}\u{BF}\u{D7}\u{F7}\u{37E}\u{2000}\u{200B}\u{200E}\u{203E}\u{2041}\u{206F}\
    \u{2190}\u{2BFF}\u{2FF0}\u{3000}\u{E000}\u{F8FF}\u{FDD0}\u{FDEF}\u{F0000}\u{10FFFF}";

const STARTS: &str =
    ":AZ_az\u{C0}\u{D6}\u{D8}\u{F6}\u{F8}\u{2FF}\u{370}\u{37D}\u{37F}\u{1FFF}\u{200C}\u{200D}\u{2070}\u{218F}\
    \u{2C00}\u{2FEF}\u{3001}\u{D7FF}\u{F900}\u{FDCF}\u{FDF0}\u{FFFD}\u{10000}\u{EFFFF}";

const INNER: &str = "-.09\u{B7}\u{300}\u{36F}\u{203F}\u{2040}";

/// Characters, and which of them are: characters of XML, white space, starts of names, characters of names.
static CLASSES: [(&str, [bool; 4]); 5] = [
    (OUTSIDE, [false, false, false, false]),
    (WHITE, [true, true, false, false]),
    (OTHERS, [true, false, false, false]),
    (STARTS, [true, false, true, true]),
    (INNER, [true, false, false, true]),
];

/// Which of them a character is.
fn classes_of(c: char) -> [bool; 4] {
    [is_char(c), is_white(c), is_name_start(c), is_name_char(c)]
}

/// Every end of every range, and the characters beside it, by what they may be.
#[test]
fn classes_at_the_ends_of_their_ranges(rt: HostRuntime) {
    for (characters, classes) in &CLASSES {
        for c in characters.chars() {
            assert!(rt; classes_of(c) == *classes, "{c:?}");
        }
    }
}

/// Characters that are taken up to the end, the places behind them, and how many bytes are left.
static TAKEN: [(Option<char>, u32, usize); 5] = [
    (Some('a'), 1, 9),
    (Some('é'), 3, 7),
    (Some('€'), 6, 4),
    (Some('😀'), 10, 0),
    (None, 10, 0),
];

/// Whether this character is taken, with this place behind it, and so many bytes are left.
fn is_taken(cursor: &mut Cursor<'_>, c: Option<char>, place: u32, left: usize) -> bool {
    cursor.next_char() == Ok(c) && cursor.place() == Place(place) && cursor.rest().len() == left
}

/// Characters of one to four bytes, the last before the end.
#[test]
fn takes_characters_of_each_length(rt: HostRuntime) {
    let mut cursor = Cursor::new(b"a\xC3\xA9\xE2\x82\xAC\xF0\x9F\x98\x80");
    for (c, place, left) in &TAKEN {
        assert!(rt; is_taken(&mut cursor, *c, *place, *left), "{c:?}");
    }
}

/// Too long a form of two bytes and one of three, a surrogate, too large a number, a byte alone, a front, and a break.
static BAD: [&[u8]; 7] = [
    b"\xC0\x80",
    b"\xE0\x9F\xBF",
    b"\xED\xA0\x80",
    b"\xF4\x90\x80\x80",
    b"\x80a",
    b"\xE2\x82",
    b"\xF0\x9F\x98a",
];

#[test]
fn stays_where_no_character_begins(rt: HostRuntime) {
    for bytes in &BAD {
        assert!(rt; bytes.len() <= LONGEST_FILE);
        let mut cursor = Cursor::new(bytes);
        assert!(rt; cursor.next_char() == Err(Place(0)), "{bytes:?}");
        assert!(rt; cursor.rest() == *bytes, "{bytes:?}");
    }
}

/// A character that ends where the bytes go wrong is taken; what is no character stays.
#[test]
fn takes_the_character_before_what_is_none(rt: HostRuntime) {
    let mut cursor = Cursor::new(b"\xC3\xA9\xFF");
    assert!(rt; cursor.next_char() == Ok(Some('é')));
    assert!(rt; cursor.next_char() == Err(Place(2)));
    assert!(rt; cursor.next_char() == Err(Place(2)));
}

static REASONS: [(Why, u32, &str); 12] = [
    (Why::DoctypeSubset, 1, "doctype-subset"),
    (Why::XmlVersion, 5, "xml-version"),
    (Why::DataPattern, 6, "data"),
    (Why::Concatenation, 17, "concatenation"),
    (Why::XslVariable, 18, "variable"),
    (Why::XslPreserveSpace, 34, "preserve-space"),
    (Why::ExtensionElements, 35, "extension"),
    (Why::UnknownXslt, 42, "unknown-xslt"),
    (Why::Axis, 43, "axis"),
    (Why::StringLiteral, 52, "string"),
    (Why::ParameterEntity, 53, "parameter-entity"),
    (Why::QualifiedElementName, 55, "qualified-name"),
];

/// The first and the last reason of each standard.
#[test]
fn reasons_have_their_numbers_and_words(rt: HostRuntime) {
    for (why, number, word) in &REASONS {
        assert!(rt; why.number() == *number && why.word() == *word, "{word}");
    }
}

/// A byte that was in a box.
fn boxed(alloc: Global) -> Result<u8, NoMemory> {
    let byte = Box::new(alloc, 7)?;
    Ok(*byte)
}

/// A byte that was in a list by itself.
fn listed(alloc: Global) -> Result<Option<u8>, NoMemory> {
    let mut list = Vec::new(alloc);
    list.reserve(1)?;
    list.push(7)?;
    match list.as_slice() {
        [byte] => Ok(Some(*byte)),
        _ => Ok(None),
    }
}

/// With memory left, what may be refused for want of it is not.
#[test]
fn errors_of_the_allocator_become_want_of_memory(rt: HostRuntime) {
    assert!(rt; matches!(boxed(rt.alloc()), Ok(7)));
    assert!(rt; matches!(listed(rt.alloc()), Ok(Some(7))));
}
