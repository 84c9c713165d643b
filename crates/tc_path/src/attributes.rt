// Selects of attributes alone (XSLT 1.0, 11.3).
ghost use Rattle.std.specs.Prelude.{◌≡◌, ◌<◌, ◌&&◌, false, [], IfOk, IfErr, Bool, List, length, MatchBool};
ghost use Rattle.tc_model.specs.PathTextTokens as path;
ghost use Rattle.tc_model.specs.PathTextPhrases as p;
ghost use Rattle.tc_model.specs.Sheets as sheets;
ghost use Rattle.tc_model.specs.Views as seen;
ghost use Rattle.tc_path.specs.Scopes.{in_scope};
ghost use Rattle.tc_path.specs.Views.{form, tokens_of};
ghost use Rattle.tc_path.specs.Phrases.{EndsIn};
ghost use Rattle.tc_path.specs.Faults.{OrNoMemory};

use crate::PathFault;
use crate::joined::Form;
use crate::node_tests::after_other_node;
use crate::phrases::alternative;
use crate::scopes::Scope;
use crate::token::{Mark, Token, after_mark};
use bumpalo::Bump;

/// Whether steps of this form end in an attribute step, where they are no other nodes.
fn ends_so(written: Form, other: bool) -> bool
    ensures { MatchBool result ((form written ≡ p.dropped) × (other ≡ false))
        ((form written ≡ p.dropped) × (other ≡ false) → ⊥) }
{
    match written {
        Form::Dropped => !other,
        Form::Lone | Form::Longer => false,
    }
}

/// Whether `comment()` or `processing-instruction()` stands at the front.
fn is_other_node(tokens: &[Token<'_>]) -> bool
    ensures { MatchBool result ((r : List path.Token) × p.OtherNodeAt (tokens_of tokens.now) r)
        ((r : List path.Token) → p.OtherNodeAt (tokens_of tokens.now) r → ⊥) }
{
    match after_other_node(tokens) {
        Some(_) => true,
        None => false,
    }
}

/// Whether the alternative of a select at the front ends in an attribute step, and what follows it.
fn ends_in_attribute<'a, 'b, 't>(
    arena: &'b Bump,
    scope: &Scope<'_, 'b>,
    tokens: &'a [Token<'t>],
) -> Result<(bool, &'a [Token<'t>]), PathFault>
    ensures ok { IfOk result (λ r. EndsIn (in_scope scope.now) (tokens_of tokens.now) r.0
        (tokens_of r.1.now)) }
    ensures no { IfErr result (λ e. OrNoMemory e
        ((ss : sheets.Steps) (f : p.Form) (after : List path.Token)
        → p.AlternativeAt (in_scope scope.now) (tokens_of tokens.now) ss f after → ⊥)) }
    ensures shorter { IfOk result (λ r. length r.1.now < length tokens.now) }
{
    let other = is_other_node(tokens);
    let (_, form, rest) = alternative(arena, scope, tokens)?;
    Ok((ends_so(form, other), rest))
}

/// Whether both hold.
fn both(first: bool, second: bool) -> bool
    ensures { result ≡ (first && second) }
{
    first && second
}

/// Whether each alternative of a select, which takes all of the tokens, ends in an attribute step.
pub(crate) fn are_attributes<'b>(
    arena: &'b Bump,
    scope: &Scope<'_, 'b>,
    tokens: &[Token<'_>],
) -> Result<bool, PathFault>
    ensures ok { IfOk result (λ all. MatchBool all
        (p.AttributesAt (in_scope scope.now) (tokens_of tokens.now) [])
        (p.AttributesAt (in_scope scope.now) (tokens_of tokens.now) [] → ⊥)) }
    ensures select { IfOk result (λ _. (q : sheets.Path) × (drops : Bool)
        × p.SelectAt (in_scope scope.now) (tokens_of tokens.now) q drops []) }
    ensures no { IfErr result (λ e. OrNoMemory e
        ((q : sheets.Path) (drops : Bool)
        → p.SelectAt (in_scope scope.now) (tokens_of tokens.now) q drops [] → ⊥)) }
{
    let (first, mut rest) = ends_in_attribute(arena, scope, tokens)?;
    let mut all = first;
    while let Some(next) = after_mark(rest, Mark::Bar) {
        let (more, after) = ends_in_attribute(arena, scope, next)?;
        all = both(all, more);
        rest = after;
    }
    if rest.is_empty() {
        Ok(all)
    } else {
        Err(PathFault::Malformed)
    }
}
