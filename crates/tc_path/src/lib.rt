//! Reads the paths, patterns, tests and priorities of stylesheets, exactly (XPath 1.0; XSLT 1.0).
#![tactic(auto)]

ghost use Rattle.std.specs.Prelude.{◌≡◌, ℕ, List, IfOk, IfErr, MatchBool, map};
ghost use Rattle.tc_model.specs.PathTextPhrases as p;
ghost use Rattle.tc_model.specs.PathText as texts;
ghost use Rattle.tc_model.specs.Sheets as sheets;
ghost use Rattle.tc_model.specs.Views as seen;
ghost use Rattle.tc_path.specs.Views as see;
ghost use Rattle.tc_path.specs.declared.reasons.Context.TheVariants as contexts;
ghost use Rattle.tc_path.specs.Faults.{OrNoMemory, IsCause, FormsOnceRenamed, IsUnsupported};

mod attributes;
mod front;
mod joined;
mod known;
mod nesting;
mod node_tests;
mod patterns;
mod phrases;
mod priority;
mod reasons;
mod rooms;
mod scopes;
mod token;
mod whole;

use bumpalo::Bump;
use nesting::shallow_tokens;
pub use priority::read_priority;
use reasons::Context;
use std::alloc::{AllocError, AllocFailed};
use tc_base::Why;
use tc_model::{Alt, Binding, Instr, Path, Test};
use whole::{refusal, whole_attributes, whole_pattern, whole_select, whole_test, whole_value};

/// Why a text is not read.
#[derive(Clone, Copy, Debug, PartialEq, Eq)]
pub enum PathFault {
    /// The text is not of the form, for no other reason.
    Malformed,
    /// A construct stands in the text that is not supported.
    Unsupported(Why),
    /// Parentheses and brackets together stand more than 2,000 deep within one another.
    TooDeep,
    /// Memory was refused.
    NoMemory,
}

impl From<AllocError> for PathFault {
    ghost use Rattle.tc_path.specs.declared.PathFault.TheVariants.{NoMemory};

    ghost from_gives = { λ _ e. e ≡ NoMemory };

    fn from(_error: AllocError) -> PathFault {
        PathFault::NoMemory
    }
}

impl<T: Drop> From<AllocFailed<T>> for PathFault {
    ghost use Rattle.tc_path.specs.declared.PathFault.TheVariants.{NoMemory};

    ghost from_gives = { λ _ e. e ≡ NoMemory };

    fn from(_error: AllocFailed<T>) -> PathFault {
        PathFault::NoMemory
    }
}

/// Reads what an instruction selects (XSLT 1.0, 5.4, 8).
pub fn read_select<'b>(
    arena: &'b Bump,
    text: &str,
    scope: &[Binding<'b>],
) -> Result<Path<'b>, PathFault>
    ensures ok { IfOk result
        (λ r. texts.SelectText (map seen.bound scope.now) text.now (seen.path r)) }
    ensures no { IfErr result
        (λ e. OrNoMemory e
        ((v : sheets.Path) → texts.SelectText (map seen.bound scope.now) text.now v → ⊥)) }
    ensures cause { IfErr result (λ e. IsCause contexts.Select text.now e) }
    ensures renamed { (v : sheets.Path)
        → FormsOnceRenamed (texts.IsSelect (map seen.bound scope.now) v) text.now
        → IfErr result IsUnsupported }
{
    let tokens = shallow_tokens(arena, text)?;
    match whole_select(arena, scope, tokens) {
        Ok((path, _)) => Ok(path),
        Err(fault) => Err(refusal(Context::Select, tokens, fault)),
    }
}

/// Whether each alternative of a select ends in an attribute step, so that `xsl:copy-of` copies nothing of
/// a tree by it (XSLT 1.0, 11.3). The faults are those of `read_select`.
pub fn selects_attributes(
    arena: &Bump,
    text: &str,
    scope: &[Binding<'_>],
) -> Result<bool, PathFault>
    ensures ok { IfOk result
        (λ r. MatchBool r (texts.AttributesText (map seen.bound scope.now) text.now)
        (texts.AttributesText (map seen.bound scope.now) text.now → ⊥)) }
    ensures select { IfOk result
        (λ _. (v : sheets.Path) × texts.SelectText (map seen.bound scope.now) text.now v) }
    ensures no { IfErr result
        (λ e. OrNoMemory e
        ((v : sheets.Path) → texts.SelectText (map seen.bound scope.now) text.now v → ⊥)) }
    ensures cause { IfErr result (λ e. IsCause contexts.Select text.now e) }
    ensures renamed { (v : sheets.Path)
        → FormsOnceRenamed (texts.IsSelect (map seen.bound scope.now) v) text.now
        → IfErr result IsUnsupported }
{
    let tokens = shallow_tokens(arena, text)?;
    match whole_attributes(arena, scope, tokens) {
        Ok(all) => Ok(all),
        Err(fault) => Err(refusal(Context::Select, tokens, fault)),
    }
}

/// Reads what `xsl:value-of` selects, as that instruction (XSLT 1.0, 7.6.1).
pub fn read_value<'b>(
    arena: &'b Bump,
    text: &str,
    scope: &[Binding<'b>],
) -> Result<Instr<'b>, PathFault>
    ensures ok { IfOk result
        (λ r. texts.ValueText (map seen.bound scope.now) text.now
        (seen.instruction r sheets.no_instruction)) }
    ensures no { IfErr result
        (λ e. OrNoMemory e
        ((v : sheets.Body) → texts.ValueText (map seen.bound scope.now) text.now v → ⊥)) }
    ensures cause { IfErr result (λ e. IsCause contexts.Value text.now e) }
    ensures renamed { (v : sheets.Body)
        → FormsOnceRenamed (texts.IsValue (map seen.bound scope.now) v) text.now
        → IfErr result IsUnsupported }
{
    let tokens = shallow_tokens(arena, text)?;
    match whole_value(arena, scope, tokens) {
        Ok(value) => Ok(value),
        Err(fault) => Err(refusal(Context::Value, tokens, fault)),
    }
}

/// Reads a pattern: its alternatives with their default priorities (XSLT 1.0, 5.2, 5.5).
pub fn read_pattern<'b>(
    arena: &'b Bump,
    text: &str,
    scope: &[Binding<'b>],
) -> Result<&'b [Alt<'b>], PathFault>
    ensures ok { IfOk result
        (λ r. texts.PatternText (map seen.bound scope.now) text.now (map see.alternative r.now)) }
    ensures no { IfErr result
        (λ e. OrNoMemory e
        ((v : List p.Alternative) → texts.PatternText (map seen.bound scope.now) text.now v → ⊥)) }
    ensures cause { IfErr result (λ e. IsCause contexts.Pattern text.now e) }
    ensures renamed { (v : List p.Alternative)
        → FormsOnceRenamed (texts.IsPattern (map seen.bound scope.now) v) text.now
        → IfErr result IsUnsupported }
{
    let tokens = shallow_tokens(arena, text)?;
    match whole_pattern(arena, scope, tokens) {
        Ok(alternatives) => Ok(alternatives),
        Err(fault) => Err(refusal(Context::Pattern, tokens, fault)),
    }
}

/// Reads a test (XSLT 1.0, 9).
pub fn read_test<'b>(
    arena: &'b Bump,
    text: &str,
    scope: &[Binding<'b>],
) -> Result<Test<'b>, PathFault>
    ensures ok { IfOk result
        (λ r. texts.TestText (map seen.bound scope.now) text.now (seen.test r)) }
    ensures no { IfErr result
        (λ e. OrNoMemory e
        ((v : sheets.Test) → texts.TestText (map seen.bound scope.now) text.now v → ⊥)) }
    ensures cause { IfErr result (λ e. IsCause contexts.Test text.now e) }
    ensures renamed { (v : sheets.Test)
        → FormsOnceRenamed (texts.IsTest (map seen.bound scope.now) v) text.now
        → IfErr result IsUnsupported }
{
    let tokens = shallow_tokens(arena, text)?;
    match whole_test(arena, scope, tokens) {
        Ok(test) => Ok(test),
        Err(fault) => Err(refusal(Context::Test, tokens, fault)),
    }
}
