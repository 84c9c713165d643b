// The word at the front of a text.
ghost use Rattle.std.specs.Prelude.{◌≡◌, ◌+◌, ◌++◌, ◌<◌, ◌≤◌, ℕ, List, length, take, drop, slice_index, IsTrue, MatchOption};
ghost use Rattle.std.specs.List.{list_all};
ghost use Rattle.tc_model.specs.CompactSyntaxTokens as model;
ghost use Rattle.tc_model.specs.XmlTextBytes as xml;
ghost use Rattle.tc_model.specs.XmlTextNames as xml_names;
ghost use Rattle.tc_rnc.specs.Extents.{extent};
ghost use Rattle.tc_rnc.specs.Fronts.{IsNoMark, is_in_line};
ghost use Rattle.tc_rnc.specs.Views as seen;

use crate::tokens::Word;
use tc_base::{is_name_start, is_white};
use tc_scan::{after_byte, after_mark, begins, first_char, ncname, up_to};

/// A literal in single quotes at the front, and what follows it.
fn literal(text: &str) -> Option<(&str, &str)>
    ensures { MatchOption result ((value after : List ℕ) → xml.LiteralAt text.now value after → ⊥)
        (λ r. xml.LiteralAt text.now r.0.now r.1.now) }
{
    if let Some(rest) = after_byte(text, b'"') {
        return up_to(rest, "\"");
    }
    let rest = after_byte(text, b'\'')?;
    up_to(rest, "'")
}

/// Whether no line ends in a text.
fn is_on_one_line(text: &str) -> bool
    ensures { result ≡ list_all is_in_line text.now }
{
    text.as_bytes().iter().all(|b| !matches!(*b, b'\n' | b'\r'))
}

/// A literal on one line at the front, and what follows it.
fn quoted(text: &str) -> Option<(&str, &str)>
    ensures { MatchOption result
        ((value after : List ℕ) → xml.LiteralAt text.now value after
        → IsTrue (list_all is_in_line value) → ⊥)
        (λ r. xml.LiteralAt text.now r.0.now r.1.now × IsTrue (list_all is_in_line r.0.now)) }
{
    let (value, after) = literal(text)?;
    if is_on_one_line(value) {
        Some((value, after))
    } else {
        None
    }
}

/// What stands before a mark, and what follows it: all and nothing, where there is no such mark.
pub fn up_to_or_all<'t>(text: &'t str, mark: &str) -> (&'t str, &'t str)
    requires some { 0 < length mark.now }
    requires ascii { slice_index mark.now 0 < 128 }
    ensures front { result.0.now ≡ take (xml.length_before mark.now text.now) text.now }
    ensures back { result.1.now
        ≡ drop (length mark.now) (drop (xml.length_before mark.now text.now) text.now) }
{
    match up_to(text, mark) {
        Some(parts) => parts,
        None => (text, ""),
    }
}

/// A literal in three quotes at the front, and what follows it.
fn long_literal(text: &str) -> Option<(&str, &str)>
    ensures { MatchOption result
        ((value after : List ℕ) → model.LongLiteralAt text.now value after → ⊥)
        (λ r. model.LongLiteralAt text.now r.0.now r.1.now) }
{
    if let Some(rest) = after_mark(text, "\"\"\"") {
        return Some(up_to_or_all(rest, "\"\"\""));
    }
    let rest = after_mark(text, "'''")?;
    Some(up_to_or_all(rest, "'''"))
}

/// A backslash and a name at the front, and what follows them. Directly before a brace, a backslash and `x` are none.
fn escaped(text: &str) -> Option<(&str, &str)>
    ensures { MatchOption result ((name after : List ℕ) → model.EscapedAt text.now name after → ⊥)
        (λ r. model.EscapedAt text.now r.0.now r.1.now) }
{
    let rest = after_byte(text, b'\\')?;
    let (name, after) = ncname(rest)?;
    if name == "x" && begins(after, "{") {
        None
    } else {
        Some((name, after))
    }
}

/// What stands before the end of a text.
fn before<'t>(text: &'t str, end: &str) -> &'t str
    requires { (front : List ℕ) × (text.now ≡ front ++ end.now) }
    ensures { (front : List ℕ) → text.now ≡ front ++ end.now → result.now ≡ front }
{
    &text[..text.len() - end.len()]
}

/// The word of a text that begins with this name, which this follows, and what follows the word.
fn named<'t>(text: &'t str, name: &'t str, rest: &'t str) -> (Word<'t>, &'t str)
    requires { xml_names.NcNameAt text.now name.now rest.now }
    ensures { model.WordAt text.now (seen.word result.0) result.1.now }
{
    let Some(behind) = after_byte(rest, b':') else {
        return (Word::Name(name), rest);
    };
    if let Some(after) = after_byte(behind, b'*') {
        return (Word::AllOf(name), after);
    }
    match ncname(behind) {
        Some((_, after)) => (Word::Prefixed(before(text, after)), after),
        None => (Word::Name(name), rest),
    }
}

/// Whether neither a name, white space, a comment, a literal nor a backslash begins with this character.
fn is_mark(c: char) -> bool
    ensures { result ≡ model.is_mark c }
{
    !((is_name_start(c) && c != ':')
        || is_white(c)
        || c == '"'
        || c == '#'
        || c == '\''
        || c == '\\')
}

/// A character that stands for itself at the front, and what follows it.
fn marked(text: &str) -> Option<(Word<'_>, &str)>
    requires { (name after : List ℕ) → model.EscapedAt text.now name after → ⊥ }
    ensures { MatchOption result (IsNoMark text.now)
        (λ r. model.WordAt text.now (seen.word r.0) r.1.now) }
{
    if let Some(rest) = after_byte(text, b'\\') {
        return Some((Word::Mark('\\'), rest));
    }
    let (first, rest) = first_char(text)?;
    if is_mark(first) {
        Some((Word::Mark(first), rest))
    } else {
        None
    }
}

/// The word at the front, as long as it goes, and what follows it.
pub fn word_at(text: &str) -> Option<(Word<'_>, &str)>
    ensures { MatchOption result
        ((word : model.Word) (after : List ℕ) → model.WordAt text.now word after → ⊥)
        (λ r. model.WordAt text.now (seen.word r.0) r.1.now) }
{
    if let Some((name, rest)) = ncname(text) {
        return Some(named(text, name, rest));
    }
    if let Some((value, after)) = long_literal(text) {
        return Some((Word::LongLiteral(value), after));
    }
    if let Some((value, after)) = quoted(text) {
        return Some((Word::Literal(value), after));
    }
    if let Some((name, after)) = escaped(text) {
        return Some((Word::Escaped(name), after));
    }
    marked(text)
}
