// Selects and tests (XPath 1.0, 2 and 3).
#![tactic(none)]

ghost use Rattle.std.specs.Prelude.{◌<◌, [], ◌∷◌, MatchResult, Bool, List, length};
ghost use Rattle.tc_model.specs.PathTextTokens as path;
ghost use Rattle.tc_model.specs.PathTextPhrases as p;
ghost use Rattle.tc_model.specs.Sheets as sheets;
ghost use Rattle.tc_model.specs.Views as seen;
ghost use Rattle.tc_path.specs.Scopes.{in_scope};
ghost use Rattle.tc_path.specs.Views.{mark, form, tokens_of};
ghost use Rattle.tc_path.specs.Phrases.{IsStepAt, ClosedAt};
ghost use Rattle.tc_path.specs.Faults.{OrNoMemory};

use crate::PathFault;
use crate::joined::{
    Form, after_open_call, after_separator, conjunction, disjunction, form_of, keep, put_step,
};
use crate::node_tests::{after_attribute, after_call, after_other_node, child_test};
use crate::scopes::Scope;
use crate::token::{Mark, Token, after_mark, after_word};
use bumpalo::Bump;
use bumpalo::collections::into_bump_slice;
use tc_model::{Path, Step, Test};

/// The step at the front with its predicates, whether it is a node test alone, and what follows it (XPath
/// 1.0, 2.1, 2.4).
#[cycle(phrases)]
fn step<'a, 'b, 't>(
    arena: &'b Bump,
    scope: &Scope<'_, 'b>,
    tokens: &'a [Token<'t>],
    deep: bool,
) -> Result<(Step<'b>, bool, &'a [Token<'t>]), PathFault>
    ensures { MatchResult result
        (λ r. IsStepAt (in_scope scope.now) deep (tokens_of tokens.now) (seen.steps (r.0 ∷ [])) r.1
        (tokens_of r.2.now) × (length r.2.now < length tokens.now))
        (λ e. OrNoMemory e
        ((ss : sheets.Steps) (lone : Bool) (after : List path.Token)
        → IsStepAt (in_scope scope.now) deep (tokens_of tokens.now) ss lone after → ⊥)) }
{
    let (test, mut rest) = child_test(arena, scope, tokens)?;
    let mut found = Vec::new(arena);
    while let Some(inside) = after_mark(rest, Mark::OpenBracket) {
        let (predicate, after) = closed_test(arena, scope, inside, Mark::CloseBracket)?;
        found.push(predicate)?;
        rest = after;
    }
    let predicates = into_bump_slice(found);
    let step = Step {
        deep,
        test,
        when: conjunction(predicates),
    };
    Ok((step, predicates.is_empty(), rest))
}

/// The steps at the front, the first of which is deep or not, their form, and what follows them.
#[cycle(phrases)]
pub(crate) fn steps<'a, 'b, 't>(
    arena: &'b Bump,
    scope: &Scope<'_, 'b>,
    tokens: &'a [Token<'t>],
    is_deep: bool,
) -> Result<(&'b [Step<'b>], Form, &'a [Token<'t>]), PathFault>
    ensures { MatchResult result
        (λ r. p.StepsAt (in_scope scope.now) is_deep (tokens_of tokens.now) (seen.steps r.0.now)
        (form r.1) (tokens_of r.2.now) × (length r.2.now < length tokens.now))
        (λ e. OrNoMemory e
        ((ss : sheets.Steps) (f : p.Form) (after : List path.Token)
        → p.StepsAt (in_scope scope.now) is_deep (tokens_of tokens.now) ss f after → ⊥)) }
{
    let mut found = Vec::new(arena);
    let mut longer = false;
    let mut deep = is_deep;
    let mut rest = tokens.split_at(0).1;
    loop {
        if let Some(after) = after_attribute(scope, rest) {
            return Ok((into_bump_slice(found), Form::Dropped, after));
        }
        let (next, lone, after) = step(arena, scope, rest, deep)?;
        put_step(&mut found, next, tokens)?;
        let Some((below, behind)) = after_separator(after) else {
            return Ok((into_bump_slice(found), form_of(longer, lone), after));
        };
        longer = true;
        deep = below;
        rest = behind;
    }
}

/// The alternative of a select at the front, its form, and what follows it.
#[cycle(phrases)]
pub(crate) fn alternative<'a, 'b, 't>(
    arena: &'b Bump,
    scope: &Scope<'_, 'b>,
    tokens: &'a [Token<'t>],
) -> Result<(&'b [Step<'b>], Form, &'a [Token<'t>]), PathFault>
    ensures { MatchResult result
        (λ r. p.AlternativeAt (in_scope scope.now) (tokens_of tokens.now) (seen.steps r.0.now)
        (form r.1) (tokens_of r.2.now) × (length r.2.now < length tokens.now))
        (λ e. OrNoMemory e
        ((ss : sheets.Steps) (f : p.Form) (after : List path.Token)
        → p.AlternativeAt (in_scope scope.now) (tokens_of tokens.now) ss f after → ⊥)) }
{
    if let Some(rest) = after_other_node(tokens) {
        return Ok((&[], Form::Dropped, rest));
    }
    let Some(behind) = after_mark(tokens, Mark::Dot) else {
        return steps(arena, scope, tokens, false);
    };
    let Some(rest) = after_mark(behind, Mark::Slashes) else {
        return Err(PathFault::Malformed);
    };
    steps(arena, scope, rest, true)
}

/// The select at the front, whether an alternative of it is dropped, and what follows it.
#[cycle(phrases)]
pub(crate) fn select<'a, 'b, 't>(
    arena: &'b Bump,
    scope: &Scope<'_, 'b>,
    tokens: &'a [Token<'t>],
) -> Result<(Path<'b>, bool, &'a [Token<'t>]), PathFault>
    ensures { MatchResult result
        (λ r. p.SelectAt (in_scope scope.now) (tokens_of tokens.now) (seen.path r.0) r.1
        (tokens_of r.2.now) × (length r.2.now < length tokens.now))
        (λ e. OrNoMemory e
        ((q : sheets.Path) (drops : Bool) (after : List path.Token)
        → p.SelectAt (in_scope scope.now) (tokens_of tokens.now) q drops after → ⊥)) }
{
    let mut found = Vec::new(arena);
    let mut drops = false;
    let mut rest = tokens.split_at(0).1;
    loop {
        let (steps, form, after) = alternative(arena, scope, rest)?;
        drops = keep(&mut found, steps, form, drops, tokens)?;
        let Some(next) = after_mark(after, Mark::Bar) else {
            let alts = into_bump_slice(found);
            return Ok((Path { alts }, drops, after));
        };
        rest = next;
    }
}

/// What `and` joins, at the front, and what follows it.
#[cycle(phrases)]
fn primary<'a, 'b, 't>(
    arena: &'b Bump,
    scope: &Scope<'_, 'b>,
    tokens: &'a [Token<'t>],
) -> Result<(Test<'b>, &'a [Token<'t>]), PathFault>
    ensures { MatchResult result
        (λ r. p.PrimaryAt (in_scope scope.now) (tokens_of tokens.now) (seen.test r.0)
        (tokens_of r.1.now) × (length r.1.now < length tokens.now))
        (λ e. OrNoMemory e
        ((t : sheets.Test) (after : List path.Token)
        → p.PrimaryAt (in_scope scope.now) (tokens_of tokens.now) t after → ⊥)) }
{
    if let Some(rest) = after_call(tokens, "true") {
        return Ok((Test::True, rest));
    }
    if let Some(rest) = after_call(tokens, "false") {
        return Ok((Test::False, rest));
    }
    if let Some(inside) = after_mark(tokens, Mark::OpenParenthesis) {
        return closed_test(arena, scope, inside, Mark::CloseParenthesis);
    }
    if let Some(inside) = after_open_call(tokens, "not") {
        let (test, rest) = closed_test(arena, scope, inside, Mark::CloseParenthesis)?;
        return Ok((Test::Not(arena.try_alloc(test)?), rest));
    }
    let (path, drops, rest) = select(arena, scope, tokens)?;
    if drops {
        return Err(PathFault::Malformed);
    }
    Ok((Test::Has(path), rest))
}

/// A test up to this mark, and what follows that.
#[cycle(phrases)]
fn closed_test<'a, 'b, 't>(
    arena: &'b Bump,
    scope: &Scope<'_, 'b>,
    tokens: &'a [Token<'t>],
    close: Mark,
) -> Result<(Test<'b>, &'a [Token<'t>]), PathFault>
    ensures { MatchResult result
        (λ r. ClosedAt (in_scope scope.now) (tokens_of tokens.now) (mark close) (seen.test r.0)
        (tokens_of r.1.now) × (length r.1.now < length tokens.now))
        (λ e. OrNoMemory e
        ((t : sheets.Test) (after : List path.Token)
        → ClosedAt (in_scope scope.now) (tokens_of tokens.now) (mark close) t after → ⊥)) }
{
    let (tests, after) = any_tests(arena, scope, tokens)?;
    let Some(rest) = after_mark(after, close) else {
        return Err(PathFault::Malformed);
    };
    Ok((disjunction(tests), rest))
}

/// Primaries joined by `and`, at the front, and what follows them (XPath 1.0, 3.4).
#[cycle(phrases)]
fn all_tests<'a, 'b, 't>(
    arena: &'b Bump,
    scope: &Scope<'_, 'b>,
    tokens: &'a [Token<'t>],
) -> Result<(&'b [Test<'b>], &'a [Token<'t>]), PathFault>
    ensures { MatchResult result
        (λ r. p.AndAt (in_scope scope.now) (tokens_of tokens.now) (seen.tests r.0.now)
        (tokens_of r.1.now) × (length r.1.now < length tokens.now))
        (λ e. OrNoMemory e
        ((us : sheets.Tests) (after : List path.Token)
        → p.AndAt (in_scope scope.now) (tokens_of tokens.now) us after → ⊥)) }
{
    let mut found = Vec::new(arena);
    let mut rest = tokens.split_at(0).1;
    loop {
        let (test, after) = primary(arena, scope, rest)?;
        found.push(test)?;
        let Some(next) = after_word(after, "and") else {
            return Ok((into_bump_slice(found), after));
        };
        rest = next;
    }
}

/// Conjunctions joined by `or`, at the front, and what follows them (XPath 1.0, 3.4).
#[cycle(phrases)]
pub(crate) fn any_tests<'a, 'b, 't>(
    arena: &'b Bump,
    scope: &Scope<'_, 'b>,
    tokens: &'a [Token<'t>],
) -> Result<(&'b [Test<'b>], &'a [Token<'t>]), PathFault>
    ensures { MatchResult result
        (λ r. p.OrAt (in_scope scope.now) (tokens_of tokens.now) (seen.tests r.0.now)
        (tokens_of r.1.now) × (length r.1.now < length tokens.now))
        (λ e. OrNoMemory e
        ((us : sheets.Tests) (after : List path.Token)
        → p.OrAt (in_scope scope.now) (tokens_of tokens.now) us after → ⊥)) }
{
    let mut found = Vec::new(arena);
    let mut rest = tokens.split_at(0).1;
    loop {
        let (tests, after) = all_tests(arena, scope, rest)?;
        found.push(conjunction(tests))?;
        let Some(next) = after_word(after, "or") else {
            return Ok((into_bump_slice(found), after));
        };
        rest = next;
    }
}
