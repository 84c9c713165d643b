// All tokens of a text.
ghost use Rattle.std.specs.Prelude.{◌≡◌, ◌+◌, ◌≤◌, ◌++◌, ◌∷◌, [], ℕ, List, None, Some, length, IfOk, OnOk, MatchBool, MatchOption};
ghost use Rattle.tc_base.specs.declared.limits.TheConstants.{LONGEST_FILE};
ghost use Rattle.tc_model.specs.CompactSyntaxRefused as refused;
ghost use Rattle.tc_model.specs.CompactSyntaxTokens as model;
ghost use Rattle.tc_model.specs.XmlText as xml_text;
ghost use Rattle.tc_model.specs.XmlTextBytes as xml;
ghost use Rattle.tc_rnc.specs.Extents.{extent};
ghost use Rattle.tc_rnc.specs.Lexed.{IsWhole, Lexed, ReadsAllTokens};
ghost use Rattle.tc_rnc.specs.Views as seen;

use crate::faults::escape_in;
use crate::front::{after_space, line};
use crate::tokens::{End, Token, Word};
use crate::words::word_at;
use bumpalo::Bump;
use std::alloc::AllocError;
use tc_base::Place;
use tc_scan::{after_mark, characters, quote};

/// The tokens of a text up to its end, or up to where it goes on with none.
#[derive(Drop)]
pub struct Tokens<'t, 'b> {
    pub list: Vec<Token<'t>, &'b Bump>,
    pub end: End,
    pub whole: bool,
}

/// What follows the byte order mark at the front, if there is one.
fn after_byte_order_mark(text: &str) -> &str
    ensures { result.now ≡ xml_text.after_mark text.now }
{
    match after_mark(text, "\u{FEFF}") {
        Some(rest) => rest,
        None => text,
    }
}

/// Where the escape of a character begins in a literal that isn't closed on its line.
fn unclosed_escape(total: usize, text: &str) -> Option<Place>
    requires within { length text.now ≤ total }
    requires bounded { total ≤ LONGEST_FILE }
    ensures { MatchOption result (refused.unclosed_escape total text.now ≡ None)
        (λ p. refused.unclosed_escape total text.now ≡ Some p.0) }
{
    let (_, inside) = quote(text)?;
    let line = line(inside);
    let before = escape_in(line)?;
    Some(Place((total - inside.len() + before) as u32))
}

/// The word at the front as a token of a text of so many bytes, and what follows it.
fn token_at(total: usize, text: &str) -> Option<(Token<'_>, &str)>
    requires within { length text.now ≤ total }
    requires bounded { total ≤ LONGEST_FILE }
    ensures { MatchOption result
        ((word : model.Word) (after : List ℕ) → model.WordAt text.now word after → ⊥)
        (λ r. model.WordAt text.now (seen.token r.0).word r.1.now
        × ((seen.token r.0).place ≡ xml.place_of total text.now)) }
{
    let (word, after) = word_at(text)?;
    let place = Place((total - text.len()) as u32);
    Some((Token { word, place }, after))
}

/// Adds a token; where there is no room left, room for so many in all is taken at once.
fn add<'t, 'b>(
    list: &mut Vec<Token<'t>, &'b Bump>,
    token: Token<'t>,
    most: usize,
) -> Result<(), AllocError>
    ensures items { OnOk result (list.new.items ≡ list.old.items ++ token.entry ∷ []) }
{
    if list.len() == list.capacity() {
        list.reserve(most.saturating_sub(list.len()))?;
    }
    list.push(token)?;
    Ok(())
}

/// The tokens at the front of a text, and what follows them, where no word stands.
fn tokens_at<'t, 'b>(
    arena: &'b Bump,
    text: &'t str,
    total: usize,
) -> Result<(Vec<Token<'t>, &'b Bump>, &'t str), AllocError>
    requires within { length text.now ≤ total }
    requires bounded { total ≤ LONGEST_FILE }
    ensures { IfOk result (λ r. ReadsAllTokens total text.now (seen.tokens r.0.items) r.1.now) }
{
    // Most tokens have several bytes, each at least one.
    let mut list = Vec::with_capacity(arena, text.len() / 8)?;
    let mut rest = after_space(text);
    while let Some((token, after)) = token_at(total, rest) {
        add(&mut list, token, text.len())?;
        rest = after_space(after);
    }
    Ok((list, rest))
}

/// Whether nothing follows the tokens, and nothing the characters.
fn is_whole(rest: &str, text: &str, bytes: &[u8]) -> bool
    ensures { MatchBool result (IsWhole rest.now text.now bytes.now)
        (IsWhole rest.now text.now bytes.now → ⊥) }
{
    rest.is_empty() && text.len() == bytes.len()
}

/// All tokens of a text.
pub fn tokens_of<'t, 'b>(arena: &'b Bump, bytes: &'t [u8]) -> Result<Tokens<'t, 'b>, AllocError>
    requires { length bytes.now ≤ LONGEST_FILE }
    ensures { IfOk result (λ r. Lexed bytes.now (seen.tokens r.list.items) r.end r.whole) }
{
    let text = characters(bytes);
    let total = text.len();
    let (list, rest) = tokens_at(arena, after_byte_order_mark(text), total)?;
    let escape = unclosed_escape(total, rest);
    let place = Place((total - rest.len() + line(rest).len()) as u32);
    let end = End { place, escape };
    let whole = is_whole(rest, text, bytes);
    Ok(Tokens { list, end, whole })
}
