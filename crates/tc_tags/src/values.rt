// The values of attributes, normalised (XML 1.0, 2.11, 3.3.3 and 4.1).
ghost use Rattle.std.specs.Prelude.{◌≡◌, ◌+◌, ◌<◌, ◌++◌, ℕ, List, false, length, slice_index, encode_utf8, MatchBool, MatchOption};
ghost use Rattle.tc_model.specs.XmlTextBytes as xml_bytes;
ghost use Rattle.tc_model.specs.XmlTextReferences as xml;
ghost use Rattle.tc_tags.specs.Values.{PieceAt, past_line_end};

use crate::names::Room;
use memchr::memchr3;
use tc_scan::{after_byte, after_mark, plain_len_within, reference};

/// What follows the CR LF, or the one byte, at the front.
fn after_line_end(text: &str) -> &str
    requires some { 0 < length text.now }
    requires ascii { slice_index text.now 0 < 128 }
    ensures { result.now ≡ past_line_end text.now }
{
    match after_mark(text, "\r\n") {
        Some(rest) => rest,
        None => &text[1..],
    }
}

/// Adds characters, each line end and each tab as a space (XML 1.0, 2.11 and 3.3.3), if there is room; whether there
/// was.
fn push_spaced(names: &mut Room, run: &str) -> bool
    ensures most { names.new.most ≡ names.old.most }
    ensures bytes { MatchBool result
        (names.new.bytes.items ≡ names.old.bytes.items ++ xml.spaced (xml_bytes.line_ends run.now))
        (names.old.most
        < length names.old.bytes.items + length (xml.spaced (xml_bytes.line_ends run.now))) }
{
    let mut rest = run;
    while let Some(at) = memchr3(b'\r', b'\n', b'\t', rest.as_bytes()) {
        let (front, behind) = rest.split_at(at);
        if !names.push_str(front) {
            return false;
        }
        if !names.push(b' ') {
            return false;
        }
        rest = after_line_end(behind);
    }
    names.push_str(rest)
}

/// Adds a character, if there is room; whether there was.
pub fn push_char(names: &mut Room, c: char) -> bool
    ensures most { names.new.most ≡ names.old.most }
    ensures bytes { MatchBool result
        (names.new.bytes.items ≡ names.old.bytes.items ++ encode_utf8 c)
        (names.old.most < length names.old.bytes.items + length (encode_utf8 c)) }
{
    let mut bytes = [0; 4];
    names.push_str(c.encode_utf8(&mut bytes))
}

/// Adds the run of characters or the reference at the front of what is left of a value, normalised, and gives what
/// follows it: nothing where there is neither, or no room.
fn push_piece<'t>(names: &mut Room, text: &'t str, quote: u8) -> Option<&'t str>
    requires { xml_bytes.IsQuote quote }
    ensures most { names.new.most ≡ names.old.most }
    ensures piece { MatchOption result
        ((piece rest : List ℕ) → PieceAt false quote text.now piece rest
        → names.old.most < length names.old.bytes.items + length piece)
        (λ rest. (piece : List ℕ) × PieceAt false quote text.now piece rest.now
        × (names.new.bytes.items ≡ names.old.bytes.items ++ piece)) }
{
    let count = plain_len_within(text, quote);
    if count == 0 {
        return match reference(text) {
            Ok((c, rest)) => {
                if push_char(names, c) {
                    Some(rest)
                } else {
                    None
                }
            }
            Err(_) => None,
        };
    }
    let (run, rest) = text.split_at(count);
    if push_spaced(names, run) {
        Some(rest)
    } else {
        None
    }
}

/// Adds the value that stands before this quote, normalised, if there is room; whether there was.
pub(crate) fn push_value(names: &mut Room, text: &str, quote: u8) -> bool
    requires { xml_bytes.IsQuote quote }
    ensures most { names.new.most ≡ names.old.most }
    ensures bytes { (value after : List ℕ) → xml.ValueAt false quote text.now value after
        → MatchBool result
        (names.new.bytes.items ≡ names.old.bytes.items ++ value)
        (names.old.most < length names.old.bytes.items + length value) }
{
    let mut rest = text;
    loop {
        if let Some(_) = after_byte(rest, quote) {
            return true;
        }
        let Some(after) = push_piece(names, rest, quote) else {
            return false;
        };
        rest = after;
    }
}
