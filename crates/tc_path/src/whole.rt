// Selects, values and tests that take all of the tokens.
ghost use Rattle.std.specs.Prelude.{◌≡◌, [], ◌∷◌, IfOk, IfErr, MatchBool, Bool, List, map};
ghost use Rattle.tc_model.specs.PathTextTokens as path;
ghost use Rattle.tc_model.specs.PathTextPhrases as p;
ghost use Rattle.tc_model.specs.PathText as texts;
ghost use Rattle.tc_model.specs.Sheets as sheets;
ghost use Rattle.tc_model.specs.Views as seen;
ghost use Rattle.tc_path.specs.Views as see;
ghost use Rattle.tc_path.specs.Views.{tokens_of};
ghost use Rattle.tc_path.specs.Faults.{OrNoMemory, refused_as};

use crate::PathFault;
use crate::attributes::are_attributes;
use crate::joined::disjunction;
use crate::patterns::pattern;
use crate::phrases::{any_tests, select};
use crate::reasons::{Context, first_reason};
use crate::scopes::Scope;
use crate::token::{Mark, Token, after_mark};
use bumpalo::Bump;
use tc_model::{Alt, Binding, Instr, Path, Test};

/// Why tokens aren't read that aren't of the form.
pub(crate) fn refusal(context: Context, tokens: &[Token<'_>], fault: PathFault) -> PathFault
    ensures { result ≡ refused_as context (tokens_of tokens.now) fault }
{
    match fault {
        PathFault::NoMemory => PathFault::NoMemory,
        PathFault::Malformed | PathFault::Unsupported(_) | PathFault::TooDeep => {
            match first_reason(context, tokens) {
                Some(why) => PathFault::Unsupported(why),
                None => PathFault::Malformed,
            }
        }
    }
}

/// A select that takes all of the tokens, and whether an alternative of it is dropped.
pub(crate) fn whole_select<'b>(
    arena: &'b Bump,
    scope: &[Binding<'b>],
    tokens: &[Token<'_>],
) -> Result<(Path<'b>, bool), PathFault>
    ensures ok { IfOk result (λ r. p.SelectAt (map seen.bound scope.now) (tokens_of tokens.now)
        (seen.path r.0) r.1 []) }
    ensures no { IfErr result (λ e. OrNoMemory e
        ((q : sheets.Path) (drops : Bool)
        → p.SelectAt (map seen.bound scope.now) (tokens_of tokens.now) q drops [] → ⊥)) }
{
    let known = Scope::of(arena, scope, tokens)?;
    let (path, drops, rest) = select(arena, known, tokens)?;
    if rest.is_empty() {
        Ok((path, drops))
    } else {
        Err(PathFault::Malformed)
    }
}

/// Whether the tokens are a `.` alone.
fn is_dot(tokens: &[Token<'_>]) -> bool
    ensures { MatchBool result (tokens_of tokens.now ≡ path.mark path.dot ∷ [])
        (tokens_of tokens.now ≡ path.mark path.dot ∷ [] → ⊥) }
{
    match after_mark(tokens, Mark::Dot) {
        Some(rest) => rest.is_empty(),
        None => false,
    }
}

/// A value that takes all of the tokens.
pub(crate) fn whole_value<'b>(
    arena: &'b Bump,
    scope: &[Binding<'b>],
    tokens: &[Token<'_>],
) -> Result<Instr<'b>, PathFault>
    ensures ok { IfOk result (λ r. texts.IsValue (map seen.bound scope.now)
        (seen.instruction r sheets.no_instruction) (tokens_of tokens.now)) }
    ensures no { IfErr result (λ e. OrNoMemory e
        ((v : sheets.Body) → texts.IsValue (map seen.bound scope.now) v (tokens_of tokens.now)
        → ⊥)) }
{
    if is_dot(tokens) {
        return Ok(Instr::ValueOfSelf);
    }
    let (path, drops) = whole_select(arena, scope, tokens)?;
    if drops {
        return Err(PathFault::Malformed);
    }
    Ok(Instr::ValueOf(path))
}

/// A test that takes all of the tokens.
pub(crate) fn whole_test<'b>(
    arena: &'b Bump,
    scope: &[Binding<'b>],
    tokens: &[Token<'_>],
) -> Result<Test<'b>, PathFault>
    ensures ok { IfOk result (λ r. texts.IsTest (map seen.bound scope.now) (seen.test r)
        (tokens_of tokens.now)) }
    ensures no { IfErr result (λ e. OrNoMemory e
        ((t : sheets.Test) → texts.IsTest (map seen.bound scope.now) t (tokens_of tokens.now)
        → ⊥)) }
{
    let known = Scope::of(arena, scope, tokens)?;
    let (tests, rest) = any_tests(arena, known, tokens)?;
    if rest.is_empty() {
        Ok(disjunction(tests))
    } else {
        Err(PathFault::Malformed)
    }
}

/// The alternatives of a pattern that takes all of the tokens.
pub(crate) fn whole_pattern<'b>(
    arena: &'b Bump,
    scope: &[Binding<'b>],
    tokens: &[Token<'_>],
) -> Result<&'b [Alt<'b>], PathFault>
    ensures ok { IfOk result (λ r. p.PatternAt (map seen.bound scope.now) (tokens_of tokens.now)
        (map see.alternative r.now)) }
    ensures no { IfErr result (λ e. OrNoMemory e
        ((xs : List p.Alternative)
        → p.PatternAt (map seen.bound scope.now) (tokens_of tokens.now) xs → ⊥)) }
{
    let known = Scope::of(arena, scope, tokens)?;
    pattern(arena, known, tokens)
}

/// Whether each alternative of a select that takes all of the tokens ends in an attribute step.
pub(crate) fn whole_attributes<'b>(
    arena: &'b Bump,
    scope: &[Binding<'b>],
    tokens: &[Token<'_>],
) -> Result<bool, PathFault>
    ensures ok { IfOk result (λ all. MatchBool all
        (p.AttributesAt (map seen.bound scope.now) (tokens_of tokens.now) [])
        (p.AttributesAt (map seen.bound scope.now) (tokens_of tokens.now) [] → ⊥)) }
    ensures select { IfOk result (λ _. (q : sheets.Path) × (drops : Bool)
        × p.SelectAt (map seen.bound scope.now) (tokens_of tokens.now) q drops []) }
    ensures no { IfErr result (λ e. OrNoMemory e
        ((q : sheets.Path) (drops : Bool)
        → p.SelectAt (map seen.bound scope.now) (tokens_of tokens.now) q drops [] → ⊥)) }
{
    let known = Scope::of(arena, scope, tokens)?;
    are_attributes(arena, known, tokens)
}
