// The tokens of paths, patterns and tests (XPath 1.0, 3.7).
ghost use Rattle.std.specs.Prelude.{◌≡◌, ◌<◌, ◌≤◌, [], ◌∷◌, IfOk, IfErr, None, Some, ℕ, List, IsTrue, IsFalse, length, MatchOption, MatchBool};
ghost use Rattle.tc_model.specs.PathTextTokens as path;
ghost use Rattle.tc_path.specs.Views.{mark, token, tokens_of};
ghost use Rattle.tc_path.specs.Faults.{OrNoMemory};
ghost use Rattle.tc_path.specs.NameTokens.{NameTokenAt, VariableAt};

use crate::PathFault;
use crate::front::{after_digits, literal};
use crate::reasons::is_word;
use bumpalo::Bump;
use bumpalo::collections::into_bump_slice;
use tc_scan::{QualifiedName, after_byte, after_white, begins, ncname, qname};

#[derive(Clone, Copy, PartialEq, Eq)]
pub(crate) enum Mark {
    Star,
    Slash,
    Slashes,
    Bar,
    OpenParenthesis,
    CloseParenthesis,
    OpenBracket,
    CloseBracket,
    At,
    Dot,
    Dots,
    Colons,
    Comma,
    /// `=`, `!=`, `<`, `<=`, `>`, `>=`.
    Comparison,
    /// `+`, `-`.
    Arithmetic,
}

#[derive(Clone, Copy)]
pub(crate) enum Token<'t> {
    Name(QualifiedName<'t>),
    /// `p:*`.
    AllOfPrefix(&'t str),
    Mark(Mark),
    Number,
    Literal,
    Variable,
}

/// The mark of this one character.
fn single(byte: u8) -> Option<Mark>
    ensures { MatchOption result (path.single_in path.singles byte ≡ None)
        (λ m. path.single_in path.singles byte ≡ Some (mark m)) }
{
    match byte {
        b'*' => Some(Mark::Star),
        b'/' => Some(Mark::Slash),
        b'|' => Some(Mark::Bar),
        b'(' => Some(Mark::OpenParenthesis),
        b')' => Some(Mark::CloseParenthesis),
        b'[' => Some(Mark::OpenBracket),
        b']' => Some(Mark::CloseBracket),
        b'@' => Some(Mark::At),
        b'.' => Some(Mark::Dot),
        b',' => Some(Mark::Comma),
        b'=' | b'<' | b'>' => Some(Mark::Comparison),
        b'+' | b'-' => Some(Mark::Arithmetic),
        _ => None,
    }
}

/// The mark of these two characters.
fn double(first: u8, second: u8) -> Option<Mark>
    ensures { MatchOption result (path.double_in path.doubles first second ≡ None)
        (λ m. path.double_in path.doubles first second ≡ Some (mark m)) }
{
    match (first, second) {
        (b'/', b'/') => Some(Mark::Slashes),
        (b'.', b'.') => Some(Mark::Dots),
        (b':', b':') => Some(Mark::Colons),
        (b'!', b'=') | (b'<', b'=') | (b'>', b'=') => Some(Mark::Comparison),
        _ => None,
    }
}

/// The mark of two characters at the front, and what follows it.
fn double_at(text: &str) -> Option<(Mark, &str)>
    ensures { MatchOption result
        ((a b : ℕ) (after : List ℕ) → text.now ≡ a ∷ b ∷ after → path.double_in path.doubles a b
        ≡ None) (λ r. (a : ℕ) × (b : ℕ) × (text.now ≡ a ∷ b ∷ r.1.now)
        × (path.double_in path.doubles a b ≡ Some (mark r.0))) }
{
    let (first, others) = text.as_bytes().split_first()?;
    let (second, _) = others.split_first()?;
    match double(*first, *second) {
        Some(mark) => Some((mark, &text[2..])),
        None => None,
    }
}

/// The mark of one character at the front, and what follows it.
fn single_at(text: &str) -> Option<(Mark, &str)>
    ensures { MatchOption result
        ((a : ℕ) (after : List ℕ) → text.now ≡ a ∷ after → path.single_in path.singles a ≡ None)
        (λ r. (a : ℕ) × (text.now ≡ a ∷ r.1.now)
        × (path.single_in path.singles a ≡ Some (mark r.0))) }
{
    let (first, _) = text.as_bytes().split_first()?;
    match single(*first) {
        Some(mark) => Some((mark, &text[1..])),
        None => None,
    }
}

/// The longest mark at the front, and what follows it.
fn mark_at(text: &str) -> Option<(Mark, &str)>
    ensures { MatchOption result
        ((m : path.Mark) (after : List ℕ) → path.MarkAt text.now m after → ⊥)
        (λ r. path.MarkAt text.now (mark r.0) r.1.now) }
{
    match double_at(text) {
        Some(found) => Some(found),
        None => single_at(text),
    }
}

/// Whether a number begins here: a digit, or a point and a digit.
fn begins_with_number(text: &str) -> bool
    ensures { result ≡ path.begins_with_number text.now }
{
    match text.as_bytes() {
        [b'0'..=b'9', ..] => true,
        [b'.', b'0'..=b'9', ..] => true,
        _ => false,
    }
}

/// What follows a point and digits at the front, if they stand there.
fn after_fraction(text: &str) -> &str
    ensures { result.now ≡ path.after_fraction text.now }
{
    match after_byte(text, b'.') {
        Some(rest) => after_digits(rest),
        None => text,
    }
}

/// A name without a prefix.
fn unprefixed(local: &str) -> Token<'_>
    ensures { token result ≡ path.name (record { prefix = []; local = local.now }) }
{
    Token::Name(QualifiedName { prefix: "", local })
}

/// The token at the front that is a name, or `p:*`, and what follows it.
fn name_token(text: &str) -> Option<(Token<'_>, &str)>
    ensures { MatchOption result
        ((t : path.Token) (after : List ℕ) → NameTokenAt text.now t after → ⊥)
        (λ r. NameTokenAt text.now (token r.0) r.1.now) }
{
    let (first, rest) = ncname(text)?;
    let Some(behind) = after_byte(rest, b':') else {
        return Some((unprefixed(first), rest));
    };
    if begins(behind, ":") {
        return Some((unprefixed(first), rest));
    }
    if let Some(after) = after_byte(behind, b'*') {
        return Some((Token::AllOfPrefix(first), after));
    }
    match ncname(behind) {
        Some((local, after)) => {
            let name = QualifiedName {
                prefix: first,
                local,
            };
            Some((Token::Name(name), after))
        }
        None => None,
    }
}

/// What follows the variable reference at the front (XPath 1.0, 3.7).
fn after_variable(text: &str) -> Option<&str>
    ensures { MatchOption result ((after : List ℕ) → VariableAt text.now after → ⊥)
        (λ r. VariableAt text.now r.now) }
{
    match qname(after_byte(text, b'$')?) {
        Some((_, after)) => Some(after),
        None => None,
    }
}

/// The longest token at the front, and what follows it.
fn token_at(text: &str) -> Option<(Token<'_>, &str)>
    ensures { MatchOption result
        ((t : path.Token) (after : List ℕ) → path.TokenAt text.now t after → ⊥)
        (λ r. path.TokenAt text.now (token r.0) r.1.now) }
{
    if begins_with_number(text) {
        return Some((Token::Number, after_fraction(after_digits(text))));
    }
    if let Some((mark, rest)) = mark_at(text) {
        return Some((Token::Mark(mark), rest));
    }
    if let Some((_, rest)) = literal(text) {
        return Some((Token::Literal, rest));
    }
    if let Some(rest) = after_variable(text) {
        return Some((Token::Variable, rest));
    }
    name_token(text)
}

/// How many tokens stand one behind another at the front of a text.
fn token_count(text: &str) -> usize
    ensures { result ≤ length text.now }
{
    let mut count = 0;
    let mut rest = text;
    while let Some((_, after)) = token_at(after_white(rest)) {
        count += 1;
        rest = after;
    }
    count
}

/// The tokens of a text, in as much room as they take.
pub(crate) fn tokens<'t>(arena: &'t Bump, text: &'t str) -> Result<&'t [Token<'t>], PathFault>
    ensures ok { IfOk result (λ r. path.Tokens text.now (tokens_of r.now)) }
    ensures no { IfErr result
        (λ e. OrNoMemory e
        ((e ≡ PathFault.Malformed) × ((ts : List path.Token) → path.Tokens text.now ts → ⊥))) }
{
    let mut found = Vec::with_capacity(arena, token_count(text))?;
    let mut rest = text;
    loop {
        let front = after_white(rest);
        if front.is_empty() {
            return Ok(into_bump_slice(found));
        }
        let Some((token, after)) = token_at(front) else {
            return Err(PathFault::Malformed);
        };
        found.push(token)?;
        rest = after;
    }
}

/// What follows this mark, where the tokens begin with it.
pub(crate) fn after_mark<'a, 't>(tokens: &'a [Token<'t>], wanted: Mark) -> Option<&'a [Token<'t>]>
    ensures { MatchOption result
        ((r : List path.Token) → tokens_of tokens.now ≡ path.mark (mark wanted) ∷ r → ⊥)
        (λ rest. tokens_of tokens.now ≡ path.mark (mark wanted) ∷ tokens_of rest.now) }
{
    match tokens.split_first() {
        Some((Token::Mark(mark), rest)) if *mark == wanted => Some(rest),
        _ => None,
    }
}

/// Whether the tokens begin with this mark.
pub(crate) fn begins_with(tokens: &[Token<'_>], wanted: Mark) -> bool
    ensures { MatchBool result
        ((r : List path.Token) × (tokens_of tokens.now ≡ path.mark (mark wanted) ∷ r))
        ((r : List path.Token) → tokens_of tokens.now ≡ path.mark (mark wanted) ∷ r → ⊥) }
{
    match after_mark(tokens, wanted) {
        Some(_) => true,
        None => false,
    }
}

/// What follows this word, a name without a prefix, where the tokens begin with it.
pub(crate) fn after_word<'a, 't>(tokens: &'a [Token<'t>], word: &str) -> Option<&'a [Token<'t>]>
    ensures { MatchOption result
        ((r : List path.Token) → tokens_of tokens.now
        ≡ path.name (record { prefix = []; local = word.now }) ∷ r → ⊥)
        (λ rest. tokens_of tokens.now ≡ path.name (record { prefix = []; local = word.now }) ∷
        tokens_of rest.now) }
{
    match tokens.split_first() {
        Some((first, rest)) => match first {
            Token::Name(name) if is_word(name, word) => Some(rest),
            _ => None,
        },
        None => None,
    }
}
