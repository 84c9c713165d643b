// Why a text is unread.
ghost use Rattle.std.specs.Prelude.{◌≡◌, ◌<◌, List, [], ◌∷◌, length, MatchBool, MatchOption};
ghost use Rattle.tc_model.specs.CompactSyntaxUnread as unread;
ghost use Rattle.tc_model.specs.XmlTextBytes.{Lacks, length_before};
ghost use Rattle.tc_rnc.specs.Connectors.{BeginsNoneRead};
ghost use Rattle.tc_rnc.specs.Escapes.{HasEscape, IsEscapeText, IsTwoSigns, LacksEscape, ReadsLiteral, StopsAtLiteral};
ghost use Rattle.tc_rnc.specs.Refusals.{Refuses};
ghost use Rattle.tc_rnc.specs.Views as seen;

use crate::tokens::{End, Token, Word};
use std::alloc::{AllocError, AllocFailed};
use tc_base::{Place, Why};
use tc_scan::up_to;

/// Why a text is not read, and where.
#[derive(Clone, Copy, Debug, PartialEq, Eq)]
pub enum RncFault {
    /// The text is no schema in compact syntax.
    Malformed(Place),
    /// A construct of the compact syntax that is not read stands here.
    Unsupported(Place, Why),
    /// The 2,001st brace or parenthesis within one another opens here.
    TooDeep(Place),
    NoMemory,
}

impl From<AllocError> for RncFault {
    ghost use Rattle.tc_rnc.specs.declared.faults.RncFault.TheVariants.{NoMemory};

    ghost from_gives = { λ _ e. e ≡ NoMemory };

    fn from(_error: AllocError) -> RncFault {
        RncFault::NoMemory
    }
}

impl<T: Drop> From<AllocFailed<T>> for RncFault {
    ghost use Rattle.tc_rnc.specs.declared.faults.RncFault.TheVariants.{NoMemory};

    ghost from_gives = { λ _ e. e ≡ NoMemory };

    fn from(_error: AllocFailed<T>) -> RncFault {
        RncFault::NoMemory
    }
}

/// The first token and those after it.
pub fn first_of<'s, 't>(tokens: &'s [Token<'t>]) -> Option<(&'s Token<'t>, &'s [Token<'t>])>
    ensures { MatchOption result (seen.tokens tokens.now ≡ [])
        (λ r. seen.tokens tokens.now ≡ seen.token r.0.now ∷ seen.tokens r.1.now) }
{
    tokens.split_first()
}

/// Where the escape of a character begins in the text of a literal, in bytes.
pub fn escape_in(value: &str) -> Option<usize>
    ensures { MatchOption result (Lacks unread.escape_mark value.now)
        (λ n. (n ≡ length_before unread.escape_mark value.now) × (n < length value.now)) }
{
    match up_to(value, "\\x{") {
        Some((inside, _)) => Some(inside.len()),
        None => None,
    }
}

/// Where the escape of a character begins in a literal.
fn escape_in_literal(token: &Token<'_>) -> Option<Place>
    ensures { MatchOption result (LacksEscape (seen.token token.now))
        (λ p. HasEscape (seen.token token.now) p.0) }
{
    let (quotes, value) = token.quoted()?;
    let before = escape_in(value)?;
    Some(Place(token.place.0 + quotes + before as u32))
}

/// Whether the backslash, `x` and a brace stand here without anything between.
fn is_escape(first: &Token<'_>, rest: &[Token<'_>]) -> bool
    ensures { MatchBool result (IsEscapeText (seen.token first.now) (seen.tokens rest.now))
        (IsEscapeText (seen.token first.now) (seen.tokens rest.now) → ⊥) }
{
    let Some((name, after)) = first_of(rest) else {
        return false;
    };
    let Some((brace, _)) = first_of(after) else {
        return false;
    };
    first.is_mark('\\')
        && name.is_name("x")
        && brace.is_mark('{')
        && name.follows(first, 1)
        && brace.follows(name, 1)
}

/// Where the escape of a character begins as the next tokens, or in the next literal.
#[tactic(auto, using(crate::proofs::Escapes::escapes))]
pub fn escape_at(tokens: &[Token<'_>]) -> Option<Place>
    ensures { MatchOption result (unread.NoEscape (seen.tokens tokens.now))
        (λ p. unread.EscapeAt (seen.tokens tokens.now) p.0) }
{
    let (first, rest) = first_of(tokens)?;
    if is_escape(first, rest) {
        return Some(first.place);
    }
    escape_in_literal(first)
}

/// Whether `>>` stands here without anything between.
fn is_two_signs(first: &Token<'_>, rest: &[Token<'_>]) -> bool
    ensures { MatchBool result (IsTwoSigns (seen.token first.now) (seen.tokens rest.now))
        (IsTwoSigns (seen.token first.now) (seen.tokens rest.now) → ⊥) }
{
    let Some((second, _)) = first_of(rest) else {
        return false;
    };
    first.is_mark('>') && second.is_mark('>') && second.follows(first, 1)
}

/// Whether an annotation begins here, with `[` or `>>`.
#[tactic(auto, using(crate::proofs::Constructs::annotations))]
fn is_annotation(first: &Token<'_>, rest: &[Token<'_>]) -> bool
    ensures { MatchBool result (unread.AnnotationAt (seen.token first.now ∷ seen.tokens rest.now))
        (unread.AnnotationAt (seen.token first.now ∷ seen.tokens rest.now) → ⊥) }
{
    if first.is_mark('[') {
        return true;
    }
    is_two_signs(first, rest)
}

/// The refusal where the tokens end.
pub fn at_end(end: End) -> RncFault
    ensures { Refuses (unread.Unexpected (seen.end end) []) result }
{
    match end.escape {
        Some(place) => RncFault::Unsupported(place, Why::Escape),
        None => RncFault::Malformed(end.place),
    }
}

/// The refusal of what stands here, where nothing that is read may.
pub fn unexpected(tokens: &[Token<'_>], end: End) -> RncFault
    ensures { Refuses (unread.Unexpected (seen.end end) (seen.tokens tokens.now)) result }
{
    if let Some(place) = escape_at(tokens) {
        return RncFault::Unsupported(place, Why::Escape);
    }
    let Some((first, rest)) = first_of(tokens) else {
        return at_end(end);
    };
    if is_annotation(first, rest) {
        return RncFault::Unsupported(first.place, Why::Annotation);
    }
    RncFault::Malformed(first.place)
}

/// The reason why a pattern that begins with this keyword isn't read, if there is one.
fn unread_keyword(name: &str) -> Option<Why>
    ensures { result ≡ unread.unread_keyword name.now }
{
    match name {
        "string" | "token" => Some(Why::DataPattern),
        "list" => Some(Why::ListPattern),
        "external" => Some(Why::ExternalPattern),
        "grammar" => Some(Why::NestedGrammar),
        "parent" => Some(Why::ParentReference),
        _ => None,
    }
}

/// The reason why a pattern that begins with this token isn't read, if there is one: a literal aside.
fn unread_pattern(token: &Token<'_>) -> Option<Why>
    ensures { result ≡ unread.unread_pattern (seen.word token.now.word) }
{
    match token.word {
        Word::Name(name) => unread_keyword(name),
        Word::Prefixed(_) => Some(Why::DataPattern),
        _ => None,
    }
}

/// The refusal of the literal that stands first, where it isn't read wherever it stands.
pub fn unread_literal(tokens: &[Token<'_>]) -> Option<RncFault>
    ensures { MatchOption result (ReadsLiteral (seen.tokens tokens.now))
        (λ e. Refuses (StopsAtLiteral (seen.tokens tokens.now)) e) }
{
    let (first, _) = first_of(tokens)?;
    if !first.is_literal() {
        return None;
    }
    if let Some(place) = escape_at(tokens) {
        return Some(RncFault::Unsupported(place, Why::Escape));
    }
    match first.literal() {
        Some(_) => None,
        None => Some(RncFault::Unsupported(first.place, Why::TripleQuote)),
    }
}

/// The refusal of what stands where a pattern should, where none that is read begins.
pub fn no_pattern(tokens: &[Token<'_>], end: End) -> RncFault
    requires { BeginsNoneRead (seen.tokens tokens.now) }
    ensures { Refuses (unread.NoPattern (seen.end end) (seen.tokens tokens.now)) result }
{
    let Some((first, _)) = first_of(tokens) else {
        return unexpected(tokens, end);
    };
    if let Some(why) = unread_pattern(first) {
        return RncFault::Unsupported(first.place, why);
    }
    if let Some(fault) = unread_literal(tokens) {
        return fault;
    }
    match first.literal() {
        Some(_) => RncFault::Unsupported(first.place, Why::ValuePattern),
        None => unexpected(tokens, end),
    }
}
