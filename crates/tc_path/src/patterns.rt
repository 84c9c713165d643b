// Patterns with their default priorities (XSLT 1.0, 5.2, 5.5).
ghost use Rattle.std.specs.Prelude.{◌≡◌, ◌<◌, ◌++◌, [], ◌∷◌, IfOk, IfErr, None, Some, List, length, map, false, MatchBool, MatchResult};
ghost use Rattle.tc_model.specs.PathTextTokens as path;
ghost use Rattle.tc_model.specs.PathTextPhrases as p;
ghost use Rattle.tc_model.specs.Views as seen;
ghost use Rattle.tc_path.specs.Scopes.{in_scope};
ghost use Rattle.tc_path.specs.Views as see;
ghost use Rattle.tc_path.specs.Views.{form, tokens_of, kept_alternative};
ghost use Rattle.tc_path.specs.Phrases.{StartsAt, priority_from};
ghost use Rattle.tc_path.specs.Faults.{OrNoMemory};

use crate::PathFault;
use crate::joined::Form;
use crate::node_tests::after_other_node;
use crate::phrases::steps;
use crate::rooms::make_room;
use crate::scopes::Scope;
use crate::token::{Mark, Token, after_mark, begins_with};
use bumpalo::Bump;
use bumpalo::collections::into_bump_slice;
use tc_model::{Alt, NodeTest, Pattern, Step};

/// The default priority of a pattern that isn't a node test alone, in ten-thousandths.
const OTHERWISE: i64 = 5000;

/// The default priority of a node test alone, in ten-thousandths.
fn priority_of_test(test: &NodeTest<'_>) -> i64
    ensures { result ≡ p.priority_of_test (seen.node_test test.now) }
{
    match test {
        NodeTest::Name(_) => 0,
        NodeTest::Ns(_) => -2500,
        NodeTest::Any | NodeTest::Text | NodeTest::Node => -5000,
    }
}

/// The default priority of a relative pattern, in ten-thousandths.
fn default_priority(steps: &[Step<'_>], written: Form) -> i64
    ensures { result ≡ p.default_priority (form written) (seen.steps steps.now) }
{
    match (written, steps.first()) {
        (Form::Lone, Some(step)) => priority_of_test(&step.test),
        _ => OTHERWISE,
    }
}

/// The default priority of a pattern, from the root or relative, in ten-thousandths.
fn priority_of(from_root: bool, steps: &[Step<'_>], written: Form) -> i64
    ensures { result ≡ priority_from from_root (form written) (seen.steps steps.now) }
{
    if from_root {
        OTHERWISE
    } else {
        default_priority(steps, written)
    }
}

/// These steps as an alternative, from the root or relative, unless it is dropped.
fn kept<'b>(from_root: bool, steps: &'b [Step<'b>], written: Form) -> Option<Alt<'b>>
    ensures { kept_alternative result
        ≡ p.unless_dropped (form written) (seen.steps steps.now)
        (priority_from from_root (form written) (seen.steps steps.now)) }
{
    match written {
        Form::Dropped => None,
        Form::Lone | Form::Longer => Some(Alt {
            pattern: Pattern::Steps(steps),
            priority: priority_of(from_root, steps, written),
        }),
    }
}

/// Whether an alternative may end here.
fn ends_alternative(tokens: &[Token<'_>]) -> bool
    ensures { MatchBool result (p.EndsAlternative (tokens_of tokens.now))
        (p.EndsAlternative (tokens_of tokens.now) → ⊥) }
{
    tokens.is_empty() || begins_with(tokens, Mark::Bar)
}

/// Whether an alternative is the root alone, by whether its first step is deep and by what follows.
fn is_root(deep: bool, tokens: &[Token<'_>]) -> bool
    ensures { MatchBool result ((deep ≡ false) × p.EndsAlternative (tokens_of tokens.now))
        (deep ≡ false → p.EndsAlternative (tokens_of tokens.now) → ⊥) }
{
    !deep && ends_alternative(tokens)
}

/// Whether steps begin at the root, whether the first of them is deep, and where they begin.
fn start<'a, 't>(tokens: &'a [Token<'t>]) -> (bool, bool, &'a [Token<'t>])
    ensures { StartsAt (tokens_of tokens.now) result.0 result.1 (tokens_of result.2.now) }
{
    if let Some(rest) = after_mark(tokens, Mark::Slash) {
        return (true, false, rest);
    }
    match after_mark(tokens, Mark::Slashes) {
        Some(rest) => (true, true, rest),
        None => (false, true, tokens),
    }
}

/// The alternative of a pattern at the front, none where it is dropped, and what follows it.
fn alternative<'a, 'b, 't>(
    arena: &'b Bump,
    scope: &Scope<'_, 'b>,
    tokens: &'a [Token<'t>],
) -> Result<(Option<Alt<'b>>, &'a [Token<'t>]), PathFault>
    ensures { MatchResult result
        (λ r. p.PatternAlternativeAt (in_scope scope.now) (tokens_of tokens.now)
        (kept_alternative r.0) (tokens_of r.1.now) × (length r.1.now < length tokens.now))
        (λ e. OrNoMemory e
        ((xs : List p.Alternative) (after : List path.Token)
        → p.PatternAlternativeAt (in_scope scope.now) (tokens_of tokens.now) xs after → ⊥)) }
{
    if let Some(rest) = after_other_node(tokens) {
        return Ok((None, rest));
    }
    let (from_root, deep, rest) = start(tokens);
    if is_root(deep, rest) {
        return Ok((
            Some(Alt {
                pattern: Pattern::Root,
                priority: OTHERWISE,
            }),
            rest,
        ));
    }
    let (steps, form, after) = steps(arena, scope, rest, deep)?;
    Ok((kept(from_root, steps, form), after))
}

/// Puts an alternative behind the others, if there is one. The first makes room for those that are seen ahead
/// in the tokens.
fn keep<'b>(
    alternatives: &mut Vec<Alt<'b>, &'b Bump>,
    alternative: Option<Alt<'b>>,
    tokens: &[Token<'_>],
) -> Result<(), PathFault>
    ensures kept { IfOk result (λ _. map see.alternative alternatives.new.items
        ≡ map see.alternative alternatives.old.items ++ kept_alternative alternative.entry) }
    ensures memory { IfErr result (λ e. e ≡ PathFault.NoMemory) }
{
    let Some(alternative) = alternative else {
        return Ok(());
    };
    make_room(alternatives, tokens, Mark::Bar, Mark::Bar)?;
    alternatives.push(alternative)?;
    Ok(())
}

/// The alternatives of a pattern, which takes all of the tokens.
pub(crate) fn pattern<'b>(
    arena: &'b Bump,
    scope: &Scope<'_, 'b>,
    tokens: &[Token<'_>],
) -> Result<&'b [Alt<'b>], PathFault>
    ensures ok { IfOk result (λ r. p.PatternAt (in_scope scope.now) (tokens_of tokens.now)
        (map see.alternative r.now)) }
    ensures no { IfErr result (λ e. OrNoMemory e
        ((xs : List p.Alternative) → p.PatternAt (in_scope scope.now) (tokens_of tokens.now) xs
        → ⊥)) }
{
    let mut found = Vec::new(arena);
    let mut rest = tokens.split_at(0).1;
    loop {
        let (more, after) = alternative(arena, scope, rest)?;
        keep(&mut found, more, tokens)?;
        if after.is_empty() {
            return Ok(into_bump_slice(found));
        }
        let Some(next) = after_mark(after, Mark::Bar) else {
            return Err(PathFault::Malformed);
        };
        rest = next;
    }
}
