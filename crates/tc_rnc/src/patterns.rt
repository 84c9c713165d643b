// Patterns.
ghost use Rattle.std.specs.Prelude.{◌≡◌, ◌⊎◌, ◌++◌, ◌∷◌, ℕ, suc, false, List, [], None, Some, IfOk, IfErr, OnOk, MatchBool, MatchOption};
ghost use Rattle.tc_model.specs.CompactSyntaxNames.{LacksMark};
ghost use Rattle.tc_model.specs.CompactSyntaxUnread.{Unexpected};
ghost use Rattle.tc_model.specs.CompactSyntaxPatterns as model;
ghost use Rattle.tc_model.specs.CompactSyntaxStops as stops;
ghost use Rattle.tc_model.specs.CompactSyntaxTrees as trees;
ghost use Rattle.tc_rnc.specs.Connectors as view;
ghost use Rattle.tc_rnc.specs.Readings as reading;
ghost use Rattle.tc_rnc.specs.Refusals.{Refuses};
ghost use Rattle.tc_rnc.specs.Stops as parts;
ghost use Rattle.tc_rnc.specs.Scopes.{scope_of};
ghost use Rattle.tc_rnc.specs.Views as seen;
ghost use Rattle.tc_model.specs.Views.{place as seen_place};
ghost use Rattle.tc_rnc.specs.declared.faults.RncFault.TheVariants.{NoMemory};

use crate::faults::{RncFault, first_of, no_pattern, unexpected};
use crate::marks::after_mark;
use crate::parser::Parser;
use crate::syntax::SPat;
use crate::tokens::{End, Token};
use bumpalo::Bump;
use bumpalo::collections::into_bump_slice;
use tc_base::Place;

/// What stands between items.
#[derive(Clone, Copy, PartialEq, Eq)]
enum Connector {
    Comma,
    Bar,
    Ampersand,
}

/// What may follow a primary.
#[derive(Clone, Copy)]
enum Suffix {
    QuestionMark,
    Asterisk,
    PlusSign,
}

/// What a primary begins with.
#[derive(Clone, Copy)]
enum Begin<'t> {
    Element,
    Attribute,
    Mixed,
    Empty,
    Text,
    NotAllowed,
    Parenthesis,
    Reference(&'t str),
    Other,
}

fn connector_of(token: &Token<'_>) -> Option<Connector>
    ensures { MatchOption result (model.connector_of (seen.word token.now.word) ≡ None)
        (λ c. model.connector_of (seen.word token.now.word) ≡ Some (view.connector c)) }
{
    if token.is_mark(',') {
        return Some(Connector::Comma);
    }
    if token.is_mark('|') {
        return Some(Connector::Bar);
    }
    if token.is_mark('&') {
        return Some(Connector::Ampersand);
    }
    None
}

/// The connector that stands first, and what follows it.
fn connector_at<'s, 't>(tokens: &'s [Token<'t>]) -> Option<(Connector, &'s [Token<'t>])>
    ensures { MatchOption result (model.connector_at (seen.tokens tokens.now) ≡ None)
        (λ r. reading.GoesOn (view.connector r.0) (seen.tokens tokens.now) (seen.tokens r.1.now)) }
{
    let (first, rest) = first_of(tokens)?;
    let connector = connector_of(first)?;
    Some((connector, rest))
}

fn suffix_of(token: &Token<'_>) -> Option<Suffix>
    ensures { MatchOption result (model.suffix_of (seen.word token.now.word) ≡ None)
        (λ x. model.suffix_of (seen.word token.now.word) ≡ Some (view.suffix x)) }
{
    if token.is_mark('?') {
        return Some(Suffix::QuestionMark);
    }
    if token.is_mark('*') {
        return Some(Suffix::Asterisk);
    }
    if token.is_mark('+') {
        return Some(Suffix::PlusSign);
    }
    None
}

/// The suffix that stands first, and what follows it.
fn suffix_at<'s, 't>(tokens: &'s [Token<'t>]) -> Option<(Suffix, &'s [Token<'t>])>
    ensures { MatchOption result (model.suffix_at (seen.tokens tokens.now) ≡ None)
        (λ r. reading.EndsWith (view.suffix r.0) (seen.tokens tokens.now) (seen.tokens r.1.now)) }
{
    let (first, rest) = first_of(tokens)?;
    let suffix = suffix_of(first)?;
    Some((suffix, rest))
}

/// One item, to which more may be added.
fn begun<'b>(arena: &'b Bump, item: SPat<'b>) -> Result<Vec<SPat<'b>, &'b Bump>, RncFault>
    ensures ok { IfOk result (λ all. all.items ≡ item.entry ∷ []) }
    ensures no { IfErr result (λ e. e ≡ NoMemory) }
{
    let all = Vec::from_slice(arena, &[item])?;
    Ok(all)
}

/// Puts an item behind the others, and gives what follows this connector behind it, where one stands there, or
/// nothing, where none does.
fn put_item<'b, 's, 't>(
    all: &mut Vec<SPat<'b>, &'b Bump>,
    item: SPat<'b>,
    between: Connector,
    tokens: &'s [Token<'t>],
    end: End,
) -> Result<Option<&'s [Token<'t>]>, RncFault>
    ensures items { OnOk result (all.new.items ≡ all.old.items ++ item.entry ∷ []) }
    ensures ok { IfOk result
        (λ o. MatchOption o (model.connector_at (seen.tokens tokens.now) ≡ None)
        (λ rest. reading.GoesOn (view.connector between) (seen.tokens tokens.now)
        (seen.tokens rest.now))) }
    ensures no { IfErr result
        (Refuses (λ r. reading.GoesOnOtherwise (view.connector between) (seen.tokens tokens.now)
        × Unexpected (seen.end end) (seen.tokens tokens.now) r)) }
{
    all.push(item)?;
    let Some((connector, rest)) = connector_at(tokens) else {
        return Ok(None);
    };
    if connector == between {
        Ok(Some(rest))
    } else {
        Err(unexpected(tokens, end))
    }
}

/// What follows the brace or parenthesis that opens here, and how deep things may stand in it.
pub fn opened<'s, 't>(
    mark: char,
    tokens: &'s [Token<'t>],
    end: End,
    deepest: u32,
) -> Result<(&'s [Token<'t>], u32), RncFault>
    ensures ok { IfOk result
        (λ r. reading.BeginsWith mark (seen.tokens tokens.now) (seen.tokens r.0.now)) }
    ensures depth { IfOk result (λ r. deepest ≡ suc r.1) }
    ensures no { IfErr result
        (Refuses (parts.OpeningStops (seen.end end) mark deepest (seen.tokens tokens.now))) }
{
    let Some((opening, rest)) = first_of(tokens) else {
        return Err(unexpected(tokens, end));
    };
    if !opening.is_mark(mark) {
        return Err(unexpected(tokens, end));
    }
    if deepest == 0 {
        return Err(RncFault::TooDeep(opening.place));
    }
    Ok((rest, deepest - 1))
}

/// A token of balanced text that is no brace, or braces with balanced text between, and what follows.
#[cycle(balanced)]
fn balanced_part<'s, 't>(
    tokens: &'s [Token<'t>],
    end: End,
    deepest: u32,
) -> Result<&'s [Token<'t>], RncFault>
    requires { LacksMark 125 (seen.tokens tokens.now) }
    ensures ok { IfOk result
        (λ r. reading.BalancedPartAt deepest (seen.tokens tokens.now) (seen.tokens r.now)) }
    ensures no { IfErr result
        (Refuses (parts.BalancedPartStops (seen.end end) deepest (seen.tokens tokens.now))) }
{
    let Some((first, rest)) = first_of(tokens) else {
        return Err(RncFault::Malformed(end.place));
    };
    if !first.is_mark('{') {
        return Ok(rest);
    }
    if deepest == 0 {
        return Err(RncFault::TooDeep(first.place));
    }
    balanced(rest, end, deepest - 1)
}

/// What follows the brace that closes balanced text.
#[cycle(balanced)]
fn balanced<'s, 't>(
    tokens: &'s [Token<'t>],
    end: End,
    deepest: u32,
) -> Result<&'s [Token<'t>], RncFault>
    ensures ok { IfOk result
        (λ r. model.BalancedAt deepest (seen.tokens tokens.now) (seen.tokens r.now)) }
    ensures no { IfErr result
        (Refuses (stops.BalancedStops (seen.end end) deepest (seen.tokens tokens.now))) }
{
    let mut rest = tokens.split_at(0).1;
    loop {
        if let Some(after) = after_mark(rest, '}') {
            return Ok(after);
        }
        let after = balanced_part(rest, end, deepest)?;
        rest = after;
    }
}

/// Balanced text within braces, and what follows.
fn braced_text<'s, 't>(
    tokens: &'s [Token<'t>],
    end: End,
    deepest: u32,
) -> Result<&'s [Token<'t>], RncFault>
    ensures ok { IfOk result
        (λ r. reading.BracedTextAt deepest (seen.tokens tokens.now) (seen.tokens r.now)) }
    ensures no { IfErr result
        (Refuses (stops.BracedTextStops (seen.end end) deepest (seen.tokens tokens.now))) }
{
    let (inside, deeper) = opened('{', tokens, end, deepest)?;
    balanced(inside, end, deeper)
}

/// The pattern with this suffix.
#[tactic(auto, using(crate::proofs::Views::see_pattern))]
fn suffixed<'b>(arena: &'b Bump, suffix: Suffix, inner: SPat<'b>) -> Result<SPat<'b>, RncFault>
    ensures ok { IfOk result
        (λ p. seen.pattern p ≡ model.suffixed (view.suffix suffix) (seen.pattern inner.entry)) }
    ensures no { IfErr result (λ e. e ≡ NoMemory) }
{
    let inner: &'b SPat<'b> = arena.try_alloc(inner)?;
    match suffix {
        Suffix::QuestionMark => Ok(SPat::Optional(inner)),
        Suffix::Asterisk => Ok(SPat::ZeroOrMore(inner)),
        Suffix::PlusSign => Ok(SPat::OneOrMore(inner)),
    }
}

/// The pattern of several items with this connector between.
#[tactic(auto, using(crate::proofs::Views::see_pattern))]
fn joined<'b>(between: Connector, items: &'b [SPat<'b>]) -> SPat<'b>
    ensures { seen.pattern result
        ≡ model.joined_by (view.connector between) (seen.patterns items.now) }
{
    match between {
        Connector::Comma => SPat::Group(items),
        Connector::Bar => SPat::Choice(items),
        Connector::Ampersand => SPat::Interleave(items),
    }
}

/// What a primary begins with, where it begins with this token.
fn begin_of<'t>(token: &Token<'t>) -> Begin<'t>
    ensures { view.BeginsPrimary result (seen.word token.now.word) }
{
    if token.is_name("element") {
        return Begin::Element;
    }
    if token.is_name("attribute") {
        return Begin::Attribute;
    }
    if token.is_name("mixed") {
        return Begin::Mixed;
    }
    if token.is_name("empty") {
        return Begin::Empty;
    }
    if token.is_name("text") {
        return Begin::Text;
    }
    if token.is_name("notAllowed") {
        return Begin::NotAllowed;
    }
    if token.is_mark('(') {
        return Begin::Parenthesis;
    }
    match token.identifier() {
        Some(name) => Begin::Reference(name),
        None => Begin::Other,
    }
}

/// A reference, with its place.
fn reference<'b>(arena: &'b Bump, name: &str, place: Place) -> Result<SPat<'b>, RncFault>
    ensures ok { IfOk result (λ p. seen.pattern p ≡ trees.ref name.now (seen_place place)) }
    ensures no { IfErr result (λ e. e ≡ NoMemory) }
{
    let name: &'b str = arena.try_alloc_str(name)?;
    Ok(SPat::Ref(name, place))
}

/// Whether a pattern would go on here, with a connector or a suffix.
pub fn goes_on(tokens: &[Token<'_>]) -> bool
    ensures { MatchBool result (stops.GoesOnAsPattern (seen.tokens tokens.now))
        (stops.GoesOnAsPattern (seen.tokens tokens.now) → ⊥) }
{
    if let Some(_) = connector_at(tokens) {
        return true;
    }
    match suffix_at(tokens) {
        Some(_) => true,
        None => false,
    }
}

impl<'b> Parser<'b> {
    /// What follows the word of an attribute.
    fn attribute<'s, 't>(
        &self,
        tokens: &'s [Token<'t>],
        deepest: u32,
    ) -> Result<&'s [Token<'t>], RncFault>
        ensures ok { IfOk result
            (λ r. reading.LabelledAt (scope_of self.now.scope) deepest (seen.tokens tokens.now)
            (seen.tokens r.now)) }
        ensures no { IfErr result
            (Refuses
            (parts.LabelledStops (seen.end self.now.end) (scope_of self.now.scope) deepest
            (seen.tokens tokens.now))) }
    {
        let (_, rest) = self.name_class(tokens, deepest)?;
        braced_text(rest, self.end, deepest)
    }

    /// A pattern, and what follows it; braces and parentheses may stand so deep.
    #[cycle(pattern)]
    pub fn pattern<'s, 't>(
        &self,
        tokens: &'s [Token<'t>],
        deepest: u32,
    ) -> Result<(SPat<'b>, &'s [Token<'t>]), RncFault>
        ensures ok { IfOk result
            (λ r. model.PatternAt false (scope_of self.now.scope) deepest (seen.tokens tokens.now)
            (seen.pattern r.0) (seen.tokens r.1.now)) }
        ensures no { IfErr result
            (Refuses
            (stops.PatternStops (seen.end self.now.end) (scope_of self.now.scope) deepest
            (seen.tokens tokens.now))) }
    {
        let (first, rest) = self.particle(tokens, deepest)?;
        let Some((between, behind)) = connector_at(rest) else {
            return Ok((first, rest));
        };
        let (all, after) = self.particles(between, first, behind, deepest)?;
        Ok((joined(between, all), after))
    }

    /// This particle and those that follow its connector, and what follows them.
    #[cycle(pattern)]
    fn particles<'s, 't>(
        &self,
        between: Connector,
        first: SPat<'b>,
        tokens: &'s [Token<'t>],
        deepest: u32,
    ) -> Result<(&'b [SPat<'b>], &'s [Token<'t>]), RncFault>
        ensures ok { IfOk result (λ r. (ps : trees.SyntaxPatterns)
            × (seen.patterns r.0.now ≡ trees.more (seen.pattern first.entry) ps)
            × model.ItemsAt false (scope_of self.now.scope) (view.connector between) deepest
            (seen.tokens tokens.now) ps (seen.tokens r.1.now)) }
        ensures no { IfErr result
            (Refuses
            (stops.ItemsStop (seen.end self.now.end) (scope_of self.now.scope)
            (view.connector between) deepest (seen.tokens tokens.now))) }
    {
        let mut all = begun(self.arena, first)?;
        let mut rest = tokens.split_at(0).1;
        loop {
            let (next, after) = self.particle(rest, deepest)?;
            let Some(behind) = put_item(&mut all, next, between, after, self.end)? else {
                return Ok((into_bump_slice(all), after));
            };
            rest = behind;
        }
    }

    /// A primary with its suffix, if it has one, and what follows.
    #[cycle(pattern)]
    fn particle<'s, 't>(
        &self,
        tokens: &'s [Token<'t>],
        deepest: u32,
    ) -> Result<(SPat<'b>, &'s [Token<'t>]), RncFault>
        ensures ok { IfOk result
            (λ r. model.ItemAt false (scope_of self.now.scope) deepest (seen.tokens tokens.now)
            (seen.pattern r.0) (seen.tokens r.1.now)) }
        ensures no { IfErr result
            (Refuses
            (stops.PrimaryStops (seen.end self.now.end) (scope_of self.now.scope) deepest
            (seen.tokens tokens.now))) }
    {
        let (inner, rest) = self.primary(tokens, deepest)?;
        let Some((suffix, after)) = suffix_at(rest) else {
            return Ok((inner, rest));
        };
        let whole = suffixed(self.arena, suffix, inner)?;
        Ok((whole, after))
    }

    /// A pattern within these marks, and what follows.
    #[cycle(pattern)]
    fn enclosed<'s, 't>(
        &self,
        left: char,
        right: char,
        tokens: &'s [Token<'t>],
        deepest: u32,
    ) -> Result<(SPat<'b>, &'s [Token<'t>]), RncFault>
        ensures ok { IfOk result
            (λ r. reading.EnclosedAt false (scope_of self.now.scope) left right deepest
            (seen.tokens tokens.now) (seen.pattern r.0) (seen.tokens r.1.now)) }
        ensures no { IfErr result
            (Refuses
            (stops.EnclosedStops (seen.end self.now.end)
            (scope_of self.now.scope) left right deepest (seen.tokens tokens.now))) }
    {
        let (inside, deeper) = opened(left, tokens, self.end, deepest)?;
        let (inner, closing) = self.pattern(inside, deeper)?;
        let Some(after) = after_mark(closing, right) else {
            return Err(unexpected(closing, self.end));
        };
        Ok((inner, after))
    }

    /// An element after its word, which stands at this place, and what follows it.
    #[cycle(pattern)]
    fn element<'s, 't>(
        &self,
        place: Place,
        tokens: &'s [Token<'t>],
        deepest: u32,
    ) -> Result<(SPat<'b>, &'s [Token<'t>]), RncFault>
        ensures ok { IfOk result (λ r. (c : trees.SyntaxClass) × (p : trees.SyntaxPattern)
            × (seen.pattern r.0 ≡ trees.element (seen_place place) c p)
            × reading.NamedAt false (scope_of self.now.scope) deepest (seen.tokens tokens.now) c p
            (seen.tokens r.1.now)) }
        ensures no { IfErr result
            (Refuses
            (parts.NamedStops (seen.end self.now.end) (scope_of self.now.scope) deepest
            (seen.tokens tokens.now))) }
    {
        let (names, brace) = self.name_class(tokens, deepest)?;
        let (content, after) = self.enclosed('{', '}', brace, deepest)?;
        let content: &'b SPat<'b> = self.arena.try_alloc(content)?;
        Ok((SPat::Element(place, names, content), after))
    }

    /// Mixed content after its word, and what follows it.
    #[cycle(pattern)]
    fn mixed<'s, 't>(
        &self,
        tokens: &'s [Token<'t>],
        deepest: u32,
    ) -> Result<(SPat<'b>, &'s [Token<'t>]), RncFault>
        ensures ok { IfOk result
            (λ r. (p : trees.SyntaxPattern) × (seen.pattern r.0 ≡ trees.mixed p)
            × reading.EnclosedAt false (scope_of self.now.scope) 123 125 deepest
            (seen.tokens tokens.now) p (seen.tokens r.1.now)) }
        ensures no { IfErr result
            (Refuses
            (stops.EnclosedStops (seen.end self.now.end) (scope_of self.now.scope) 123 125 deepest
            (seen.tokens tokens.now))) }
    {
        let (content, after) = self.enclosed('{', '}', tokens, deepest)?;
        let content: &'b SPat<'b> = self.arena.try_alloc(content)?;
        Ok((SPat::Mixed(content), after))
    }

    /// A primary, and what follows it.
    #[cycle(pattern)]
    fn primary<'s, 't>(
        &self,
        tokens: &'s [Token<'t>],
        deepest: u32,
    ) -> Result<(SPat<'b>, &'s [Token<'t>]), RncFault>
        ensures ok { IfOk result
            (λ r. model.PrimaryAt false (scope_of self.now.scope) deepest (seen.tokens tokens.now)
            (seen.pattern r.0) (seen.tokens r.1.now)) }
        ensures no { IfErr result
            (Refuses
            (stops.PrimaryStops (seen.end self.now.end) (scope_of self.now.scope) deepest
            (seen.tokens tokens.now))) }
    {
        let Some((first, rest)) = first_of(tokens) else {
            return Err(unexpected(tokens, self.end));
        };
        match begin_of(first) {
            Begin::Element => self.element(first.place, rest, deepest),
            Begin::Attribute => {
                let after = self.attribute(rest, deepest)?;
                Ok((SPat::Attribute, after))
            }
            Begin::Mixed => self.mixed(rest, deepest),
            Begin::Empty => Ok((SPat::Empty, rest)),
            Begin::Text => Ok((SPat::Text, rest)),
            Begin::NotAllowed => Ok((SPat::NotAllowed, rest)),
            Begin::Parenthesis => self.enclosed('(', ')', tokens, deepest),
            Begin::Reference(name) => {
                let found = reference(self.arena, name, first.place)?;
                Ok((found, rest))
            }
            Begin::Other => Err(no_pattern(tokens, self.end)),
        }
    }
}
