// What stands at the front of a text: a byte, a mark, white space, a run, what comes before a mark.
ghost use Rattle.std.specs.Prelude.{◌≡◌, ◌≢◌, ◌+◌, ◌<◌, ◌≤◌, ◌∷◌, ◌++◌, ◌↔◌, ℕ, List, length, slice_index, MatchOption, MatchBool};
ghost use Rattle.std.specs.List.{prefix_len};
ghost use Rattle.tc_base.specs.Characters.{is_white};
ghost use Rattle.tc_model.specs.XmlTextBytes as xml;
ghost use Rattle.tc_model.specs.XmlTextReferences as xml_references;

use crate::blocks::plain_bytes_len;
use memchr::{memchr3, memmem};

/// What follows this ASCII byte, where the text begins with it.
pub fn after_byte(text: &str, byte: u8) -> Option<&str>
    requires { byte < 128 }
    ensures { MatchOption result ((r : List ℕ) → text.now ≡ byte ∷ r → ⊥)
        (λ rest. text.now ≡ byte ∷ rest.now) }
{
    let (first, _) = text.as_bytes().split_first()?;
    if *first == byte {
        Some(&text[1..])
    } else {
        None
    }
}

/// What follows this mark, where the text begins with it.
#[inline(always)]
pub fn after_mark<'t>(text: &'t str, mark: &str) -> Option<&'t str>
    ensures { MatchOption result ((r : List ℕ) → text.now ≡ mark.now ++ r → ⊥)
        (λ rest. text.now ≡ mark.now ++ rest.now) }
{
    if text.as_bytes().starts_with(mark.as_bytes()) {
        Some(&text[mark.len()..])
    } else {
        None
    }
}

/// Whether the text begins with this mark.
pub fn begins(text: &str, mark: &str) -> bool
    ensures { MatchBool result ((r : List ℕ) × (text.now ≡ mark.now ++ r))
        ((r : List ℕ) → text.now ≡ mark.now ++ r → ⊥) }
{
    match after_mark(text, mark) {
        Some(_) => true,
        None => false,
    }
}

/// How many bytes of white space the text begins with.
fn white_len(text: &str) -> usize
    ensures count { result ≡ prefix_len is_white text.now }
    ensures within { result ≤ length text.now }
{
    let mut count = 0;
    for byte in text.as_bytes() {
        if !matches!(*byte, b' ' | b'\t' | b'\r' | b'\n') {
            return count;
        }
        count += 1;
    }
    count
}

/// What follows the white space at the front: all of the text where there is none (XML 1.0, 2.3).
pub fn after_white(text: &str) -> &str
    ensures { result.now ≡ xml.after_white text.now }
{
    let count = white_len(text);
    &text[count..]
}

/// What follows the white space at the front, of which there must be some.
pub fn after_some_white(text: &str) -> Option<&str>
    ensures { MatchOption result (xml.BeginsWithWhite text.now → ⊥)
        (λ rest. xml.BeginsWithWhite text.now × (rest.now ≡ xml.after_white text.now)) }
{
    let count = white_len(text);
    if count == 0 {
        return None;
    }
    Some(&text[count..])
}

/// How many bytes stand before the first `<` or `&`, or before the end (XML 1.0, 2.4, [14]).
pub fn plain_len(text: &str) -> usize
    ensures count { result ≡ prefix_len xml_references.is_plain text.now }
    ensures within { result ≤ length text.now }
{
    plain_bytes_len(text.as_bytes())
}

/// How many bytes stand before the first such quote, `<` or `&`, or before the end (XML 1.0, 2.3, [10]).
pub fn plain_len_within(text: &str, quote: u8) -> usize
    ensures count { result ≡ prefix_len (xml_references.is_plain_within quote) text.now }
    ensures within { result ≤ length text.now }
{
    match memchr3(quote, b'<', b'&', text.as_bytes()) {
        Some(count) => count,
        None => text.len(),
    }
}

/// How many bytes stand before the first such mark, or before the end.
fn length_before(text: &str, mark: &str) -> usize
    ensures count { result ≡ xml.length_before mark.now text.now }
    ensures within { result ≤ length text.now }
{
    match memmem::find(text.as_bytes(), mark.as_bytes()) {
        Some(count) => count,
        None => text.len(),
    }
}

/// What stands before the first such mark, and what follows the mark.
pub fn up_to<'t>(text: &'t str, mark: &str) -> Option<(&'t str, &'t str)>
    requires some { 0 < length mark.now }
    requires ascii { slice_index mark.now 0 < 128 }
    ensures { MatchOption result
        ((inside after : List ℕ) → xml.UpTo mark.now text.now inside after → ⊥)
        (λ found. xml.UpTo mark.now text.now found.0.now found.1.now) }
{
    let count = length_before(text, mark);
    if count == text.len() {
        return None;
    }
    Some((&text[..count], &text[count + mark.len()..]))
}
