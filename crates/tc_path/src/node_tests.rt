// Node tests and attribute steps (XPath 1.0, 2.1, 2.3, 2.5).
ghost use Rattle.std.specs.Prelude.{◌≡◌, ◌<◌, [], ◌∷◌, None, Some, ℕ, List, length, codes, MatchOption, MatchResult, MatchBool};
ghost use Rattle.tc_model.specs.Names.{ExpandedName};
ghost use Rattle.tc_model.specs.PathTextTokens as path;
ghost use Rattle.tc_model.specs.PathTextPhrases as p;
ghost use Rattle.tc_model.specs.Sheets as sheets;
ghost use Rattle.tc_model.specs.Views as seen;
ghost use Rattle.tc_path.specs.Scopes.{in_scope};
ghost use Rattle.tc_path.specs.Views.{tokens_of};
ghost use Rattle.tc_scan.specs.Views.{written_name};
ghost use Rattle.tc_path.specs.Faults.{OrNoMemory};

use crate::PathFault;
use crate::joined::after_open_call;
use crate::scopes::Scope;
use crate::token::{Mark, Token, after_mark, after_word, begins_with};
use bumpalo::Bump;
use tc_model::{Name, NodeTest};
use tc_scan::QualifiedName;

/// The namespace name of a name test: none without a prefix.
fn namespace_of_name<'b>(scope: &Scope<'_, 'b>, name: &QualifiedName<'_>) -> Option<&'b str>
    ensures { MatchOption result
        ((m : ExpandedName) → p.NameMeans (in_scope scope.now) (written_name name.now) m → ⊥)
        (λ uri. p.NameMeans (in_scope scope.now) (written_name name.now)
        (record { uri = uri.now; local = (written_name name.now).local })) }
{
    if name.prefix.is_empty() {
        Some("")
    } else {
        scope.uri_of(name.prefix)
    }
}

/// What follows `WORD()`.
pub(crate) fn after_call<'a, 't>(tokens: &'a [Token<'t>], word: &str) -> Option<&'a [Token<'t>]>
    ensures { MatchOption result
        ((r : List path.Token) → (tokens_of tokens.now)
        ≡ p.word word.now ∷ path.mark path.open_parenthesis ∷ path.mark path.close_parenthesis ∷ r
        → ⊥) (λ rest. (tokens_of tokens.now)
        ≡ p.word word.now ∷ path.mark path.open_parenthesis ∷ path.mark path.close_parenthesis ∷
        tokens_of rest.now) }
{
    match after_open_call(tokens, word) {
        Some(inside) => after_mark(inside, Mark::CloseParenthesis),
        None => None,
    }
}

/// What follows `WORD::`.
fn after_axis<'a, 't>(tokens: &'a [Token<'t>], word: &str) -> Option<&'a [Token<'t>]>
    ensures { MatchOption result
        ((r : List path.Token) → (tokens_of tokens.now)
        ≡ p.word word.now ∷ path.mark path.colons ∷ r → ⊥)
        (λ rest. (tokens_of tokens.now)
        ≡ p.word word.now ∷ path.mark path.colons ∷ tokens_of rest.now) }
{
    match after_word(tokens, word) {
        Some(rest) => after_mark(rest, Mark::Colons),
        None => None,
    }
}

/// Whether a name before these tokens is a name test.
fn ends_name_test(tokens: &[Token<'_>]) -> bool
    ensures { MatchBool result (p.EndsNameTest (tokens_of tokens.now))
        (p.EndsNameTest (tokens_of tokens.now) → ⊥) }
{
    !begins_with(tokens, Mark::OpenParenthesis) && !begins_with(tokens, Mark::Colons)
}

/// The node test at the front that is a name, `p:*` or `*`, and what follows it.
fn name_test<'a, 'b, 't>(
    arena: &'b Bump,
    scope: &Scope<'_, 'b>,
    tokens: &'a [Token<'t>],
) -> Result<(NodeTest<'b>, &'a [Token<'t>]), PathFault>
    requires no_text { (r : List path.Token) → (tokens_of tokens.now)
        ≡ p.word
        (codes "text") ∷ path.mark path.open_parenthesis ∷ path.mark path.close_parenthesis ∷ r
        → ⊥ }
    requires no_node { (r : List path.Token) → (tokens_of tokens.now)
        ≡ p.word
        (codes "node") ∷ path.mark path.open_parenthesis ∷ path.mark path.close_parenthesis ∷ r
        → ⊥ }
    ensures { MatchResult result
        (λ r. p.NodeTestAt (in_scope scope.now) (tokens_of tokens.now) (seen.node_test r.0)
        (tokens_of r.1.now) × (length r.1.now < length tokens.now))
        (λ e. OrNoMemory e
        ((t : sheets.NodeTest) (after : List path.Token)
        → p.NodeTestAt (in_scope scope.now) (tokens_of tokens.now) t after → ⊥)) }
{
    if let Some(rest) = after_mark(tokens, Mark::Star) {
        return Ok((NodeTest::Any, rest));
    }
    let Some((first, rest)) = tokens.split_first() else {
        return Err(PathFault::Malformed);
    };
    match first {
        Token::AllOfPrefix(prefix) => match scope.uri_of(prefix) {
            Some(uri) => Ok((NodeTest::Ns(uri), rest)),
            None => Err(PathFault::Malformed),
        },
        Token::Name(name) if ends_name_test(rest) => match namespace_of_name(scope, name) {
            Some(uri) => {
                let local = arena.try_alloc_str(name.local)?;
                Ok((NodeTest::Name(Name { uri, local }), rest))
            }
            None => Err(PathFault::Malformed),
        },
        _ => Err(PathFault::Malformed),
    }
}

/// The node test at the front, and what follows it (XPath 1.0, 2.3).
fn node_test_at<'a, 'b, 't>(
    arena: &'b Bump,
    scope: &Scope<'_, 'b>,
    tokens: &'a [Token<'t>],
) -> Result<(NodeTest<'b>, &'a [Token<'t>]), PathFault>
    ensures { MatchResult result
        (λ r. p.NodeTestAt (in_scope scope.now) (tokens_of tokens.now) (seen.node_test r.0)
        (tokens_of r.1.now) × (length r.1.now < length tokens.now))
        (λ e. OrNoMemory e
        ((t : sheets.NodeTest) (after : List path.Token)
        → p.NodeTestAt (in_scope scope.now) (tokens_of tokens.now) t after → ⊥)) }
{
    if let Some(rest) = after_call(tokens, "text") {
        return Ok((NodeTest::Text, rest));
    }
    if let Some(rest) = after_call(tokens, "node") {
        return Ok((NodeTest::Node, rest));
    }
    name_test(arena, scope, tokens)
}

/// The node test of the child axis at the front, and what follows it.
pub(crate) fn child_test<'a, 'b, 't>(
    arena: &'b Bump,
    scope: &Scope<'_, 'b>,
    tokens: &'a [Token<'t>],
) -> Result<(NodeTest<'b>, &'a [Token<'t>]), PathFault>
    ensures { MatchResult result
        (λ r. p.ChildAt (in_scope scope.now) (tokens_of tokens.now) (seen.node_test r.0)
        (tokens_of r.1.now) × (length r.1.now < length tokens.now))
        (λ e. OrNoMemory e
        ((t : sheets.NodeTest) (after : List path.Token)
        → p.ChildAt (in_scope scope.now) (tokens_of tokens.now) t after → ⊥)) }
{
    match after_axis(tokens, "child") {
        Some(rest) => node_test_at(arena, scope, rest),
        None => node_test_at(arena, scope, tokens),
    }
}

/// What follows the name, `p:*` or `*` of an attribute step.
fn after_attribute_test<'a, 't>(
    scope: &Scope<'_, '_>,
    tokens: &'a [Token<'t>],
) -> Option<&'a [Token<'t>]>
    ensures { MatchOption result
        ((r : List path.Token) → p.AttributeTestAt (in_scope scope.now) (tokens_of tokens.now) r
        → ⊥) (λ rest. p.AttributeTestAt (in_scope scope.now) (tokens_of tokens.now)
        (tokens_of rest.now)) }
{
    if let Some(rest) = after_mark(tokens, Mark::Star) {
        return Some(rest);
    }
    let (first, rest) = tokens.split_first()?;
    match first {
        Token::AllOfPrefix(prefix) => {
            match scope.uri_of(prefix) {
                Some(_) => Some(rest),
                None => None,
            }
        }
        Token::Name(name) => {
            match namespace_of_name(scope, name) {
                Some(_) => Some(rest),
                None => None,
            }
        }
        Token::Mark(_) | Token::Number | Token::Literal | Token::Variable => None,
    }
}

/// What follows the attribute step at the front.
pub(crate) fn after_attribute<'a, 't>(
    scope: &Scope<'_, '_>,
    tokens: &'a [Token<'t>],
) -> Option<&'a [Token<'t>]>
    ensures { MatchOption result
        ((r : List path.Token) → p.AttributeAt (in_scope scope.now) (tokens_of tokens.now) r → ⊥)
        (λ rest. p.AttributeAt (in_scope scope.now) (tokens_of tokens.now) (tokens_of rest.now)) }
{
    if let Some(rest) = after_mark(tokens, Mark::At) {
        return after_attribute_test(scope, rest);
    }
    match after_axis(tokens, "attribute") {
        Some(rest) => after_attribute_test(scope, rest),
        None => None,
    }
}

/// What follows `comment()` or `processing-instruction()`.
pub(crate) fn after_other_node<'a, 't>(tokens: &'a [Token<'t>]) -> Option<&'a [Token<'t>]>
    ensures { MatchOption result
        ((r : List path.Token) → p.OtherNodeAt (tokens_of tokens.now) r → ⊥)
        (λ rest. p.OtherNodeAt (tokens_of tokens.now) (tokens_of rest.now)) }
{
    match after_call(tokens, "comment") {
        Some(rest) => Some(rest),
        None => after_call(tokens, "processing-instruction"),
    }
}
