// Names (Namespaces in XML 1.0, 3 and 4).
ghost use Rattle.std.specs.Prelude.{◌≡◌, ◌≤◌, ◌++◌, [], ℕ, List, length, IfSome, MatchOption, encode_utf8};
ghost use Rattle.std.specs.Char.{IsScalar};
ghost use Rattle.std.specs.List.{prefix_len};
ghost use Rattle.tc_model.specs.Names as names;
ghost use Rattle.tc_model.specs.XmlTextNames as xml;
ghost use Rattle.tc_scan.specs.Names.{is_ascii_name_byte, GoesOn};
ghost use Rattle.tc_scan.specs.Views.{written_name};

use crate::front::after_byte;
use tc_base::{is_name_char, is_name_start};

/// A name as it is written: its prefix, empty where it has none, and its local part (Namespaces in XML 1.0, 4, [7]).
#[derive(Clone, Copy)]
pub struct QualifiedName<'t> {
    pub prefix: &'t str,
    pub local: &'t str,
}

/// The character at the front, and what follows it.
pub fn first_char(text: &str) -> Option<(char, &str)>
    ensures { MatchOption result (text.now ≡ [])
        (λ r. IsScalar r.0 × (text.now ≡ encode_utf8 r.0 ++ r.1.now)) }
{
    let first = text.chars().next()?;
    Some((first, &text[first.len_utf8()..]))
}

/// Whether an NCName may begin with this character.
pub fn is_ncname_start(c: char) -> bool
    ensures { result ≡ names.is_ncname_start c }
{
    is_name_start(c) && c != ':'
}

/// Whether an NCName may hold this character.
pub fn is_ncname_char(c: char) -> bool
    ensures { result ≡ names.is_ncname_char c }
{
    c != ':' && is_name_char(c)
}

// 1 at each letter and digit of ASCII, at `-`, `.` and `_`
#[rattlefmt::skip]
static NAME_BYTES: [u8; 256] = [
    0, 0, 0, 0, 0, 0, 0, 0, 0, 0, 0, 0, 0, 0, 0, 0,
    0, 0, 0, 0, 0, 0, 0, 0, 0, 0, 0, 0, 0, 0, 0, 0,
    0, 0, 0, 0, 0, 0, 0, 0, 0, 0, 0, 0, 0, 1, 1, 0,
    1, 1, 1, 1, 1, 1, 1, 1, 1, 1, 0, 0, 0, 0, 0, 0,
    0, 1, 1, 1, 1, 1, 1, 1, 1, 1, 1, 1, 1, 1, 1, 1,
    1, 1, 1, 1, 1, 1, 1, 1, 1, 1, 1, 0, 0, 0, 0, 1,
    0, 1, 1, 1, 1, 1, 1, 1, 1, 1, 1, 1, 1, 1, 1, 1,
    1, 1, 1, 1, 1, 1, 1, 1, 1, 1, 1, 0, 0, 0, 0, 0,
    0, 0, 0, 0, 0, 0, 0, 0, 0, 0, 0, 0, 0, 0, 0, 0,
    0, 0, 0, 0, 0, 0, 0, 0, 0, 0, 0, 0, 0, 0, 0, 0,
    0, 0, 0, 0, 0, 0, 0, 0, 0, 0, 0, 0, 0, 0, 0, 0,
    0, 0, 0, 0, 0, 0, 0, 0, 0, 0, 0, 0, 0, 0, 0, 0,
    0, 0, 0, 0, 0, 0, 0, 0, 0, 0, 0, 0, 0, 0, 0, 0,
    0, 0, 0, 0, 0, 0, 0, 0, 0, 0, 0, 0, 0, 0, 0, 0,
    0, 0, 0, 0, 0, 0, 0, 0, 0, 0, 0, 0, 0, 0, 0, 0,
    0, 0, 0, 0, 0, 0, 0, 0, 0, 0, 0, 0, 0, 0, 0, 0,
];

/// Whether this byte is a letter or a digit of ASCII, `-`, `.` or `_`.
#[inline(always)]
fn is_name_byte(byte: u8) -> bool
    ensures { result ≡ is_ascii_name_byte byte }
{
    NAME_BYTES[usize::from(byte)] == 1
}

/// How many ASCII letters, digits, `-`, `.` and `_` the text begins with.
fn ascii_len(text: &str) -> usize
    ensures count { result ≡ prefix_len is_ascii_name_byte text.now }
    ensures within { result ≤ length text.now }
{
    let mut count = 0;
    for byte in text.as_bytes() {
        if !is_name_byte(*byte) {
            return count;
        }
        count += 1;
    }
    count
}

/// What follows the ASCII characters of an NCName at the front, a colon not among them.
fn after_ascii(text: &str) -> &str
    ensures { GoesOn text.now result.now }
{
    let count = ascii_len(text);
    &text[count..]
}

/// An NCName in ASCII at the front, before ASCII that ends it, and what follows it.
fn ascii_name(text: &str) -> Option<(&str, &str)>
    ensures { IfSome result (λ r. xml.NcNameAt text.now r.0.now r.1.now) }
{
    let bytes = text.as_bytes();
    if bytes.is_empty() || !is_ncname_start(char::from(bytes[0])) {
        return None;
    }
    let count = ascii_len(text);
    if count == 0 || count >= bytes.len() || bytes[count] >= 128 {
        return None;
    }
    Some(text.split_at(count))
}

/// An NCName at the front, as long as it goes, and what follows it.
#[inline(never)]
fn any_name(text: &str) -> Option<(&str, &str)>
    ensures { MatchOption result ((name after : List ℕ) → xml.NcNameAt text.now name after → ⊥)
        (λ r. xml.NcNameAt text.now r.0.now r.1.now) }
{
    let (first, after) = first_char(text)?;
    if !is_ncname_start(first) {
        return None;
    }
    let mut rest = after_ascii(after);
    while let Some((next, after)) = first_char(rest) {
        if !is_ncname_char(next) {
            break;
        }
        rest = after_ascii(after);
    }
    Some((&text[..text.len() - rest.len()], rest))
}

/// An NCName at the front, as long as it goes, and what follows it (Namespaces in XML 1.0, 3, [4]).
pub fn ncname(text: &str) -> Option<(&str, &str)>
    ensures { MatchOption result ((name after : List ℕ) → xml.NcNameAt text.now name after → ⊥)
        (λ r. xml.NcNameAt text.now r.0.now r.1.now) }
{
    match ascii_name(text) {
        Some(found) => Some(found),
        None => any_name(text),
    }
}

/// A QName at the front, and what follows it (Namespaces in XML 1.0, 4, [7] to [11]).
pub fn qname(text: &str) -> Option<(QualifiedName<'_>, &str)>
    ensures { MatchOption result
        ((name : xml.QualifiedName) (after : List ℕ) → xml.QNameAt text.now name after → ⊥)
        (λ r. xml.QNameAt text.now (written_name r.0) r.1.now) }
{
    let (first, rest) = ncname(text)?;
    match after_byte(rest, b':') {
        None => {
            let name = QualifiedName {
                prefix: "",
                local: first,
            };
            Some((name, rest))
        }
        Some(behind) => {
            let (local, after) = ncname(behind)?;
            let name = QualifiedName {
                prefix: first,
                local,
            };
            Some((name, after))
        }
    }
}
