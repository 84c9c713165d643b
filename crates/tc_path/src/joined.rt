// The parts of paths and tests that are read without recursion.
ghost use Rattle.std.specs.Prelude.{◌≡◌, ◌||◌, ◌++◌, [], ◌∷◌, IfOk, IfErr, OnOk, List, MatchOption, if◌then◌else◌};
ghost use Rattle.tc_model.specs.PathTextTokens as path;
ghost use Rattle.tc_model.specs.PathTextPhrases as p;
ghost use Rattle.tc_model.specs.Views as seen;
ghost use Rattle.tc_path.specs.Views.{form, tokens_of};
ghost use Rattle.tc_path.specs.Phrases.{form_of_one};

use crate::PathFault;
use crate::rooms::make_room;
use crate::token::{Mark, Token, after_mark, after_word};
use bumpalo::Bump;
use tc_model::{Step, Test};

/// How steps are written: a node test alone, or otherwise; or with an attribute step as the last, so
/// that they select nothing in a tree.
#[derive(Clone, Copy)]
pub(crate) enum Form {
    Lone,
    Longer,
    Dropped,
}

/// One test is itself, several are all to hold, and none always holds.
pub(crate) fn conjunction<'b>(tests: &'b [Test<'b>]) -> Test<'b>
    ensures { seen.test result ≡ p.conjunction (seen.tests tests.now) }
{
    let Some((first, rest)) = tests.split_first() else {
        return Test::True;
    };
    if rest.is_empty() {
        *first
    } else {
        Test::And(tests)
    }
}

/// One test is itself, of several one is to hold.
pub(crate) fn disjunction<'b>(tests: &'b [Test<'b>]) -> Test<'b>
    ensures { seen.test result ≡ p.disjunction (seen.tests tests.now) }
{
    let Some((first, rest)) = tests.split_first() else {
        return Test::False;
    };
    if rest.is_empty() {
        *first
    } else {
        Test::Or(tests)
    }
}

/// The form of steps, which are several or one, and of which the last is a node test alone or not.
pub(crate) fn form_of(several: bool, lone: bool) -> Form
    ensures { form result ≡ (if several then p.longer else form_of_one lone) }
{
    if lone && !several {
        Form::Lone
    } else {
        Form::Longer
    }
}

/// Whether the next step is deep, and what follows the `/` or `//` before it.
pub(crate) fn after_separator<'a, 't>(tokens: &'a [Token<'t>]) -> Option<(bool, &'a [Token<'t>])>
    ensures { MatchOption result
        (p.Lacks (path.mark path.slash) (tokens_of tokens.now)
        × p.Lacks (path.mark path.slashes) (tokens_of tokens.now))
        (λ r. (tokens_of tokens.now)
        ≡ path.mark (if r.0 then path.slashes else path.slash) ∷ tokens_of r.1.now) }
{
    match after_mark(tokens, Mark::Slash) {
        Some(rest) => Some((false, rest)),
        None => match after_mark(tokens, Mark::Slashes) {
            Some(rest) => Some((true, rest)),
            None => None,
        },
    }
}

/// What follows `WORD(`.
pub(crate) fn after_open_call<'a, 't>(
    tokens: &'a [Token<'t>],
    word: &str,
) -> Option<&'a [Token<'t>]>
    ensures { MatchOption result
        ((r : List path.Token) → (tokens_of tokens.now)
        ≡ p.word word.now ∷ path.mark path.open_parenthesis ∷ r → ⊥)
        (λ rest. (tokens_of tokens.now)
        ≡ p.word word.now ∷ path.mark path.open_parenthesis ∷ tokens_of rest.now) }
{
    match after_word(tokens, word) {
        Some(rest) => after_mark(rest, Mark::OpenParenthesis),
        None => None,
    }
}

/// Puts a step behind the others. The first makes room for those that are seen ahead in the tokens.
pub(crate) fn put_step<'b>(
    steps: &mut Vec<Step<'b>, &'b Bump>,
    step: Step<'b>,
    tokens: &[Token<'_>],
) -> Result<(), PathFault>
    ensures put { OnOk result (steps.new.items ≡ steps.old.items ++ step.entry ∷ []) }
    ensures memory { IfErr result (λ e. e ≡ PathFault.NoMemory) }
{
    make_room(steps, tokens, Mark::Slash, Mark::Slashes)?;
    steps.push(step)?;
    Ok(())
}

/// Puts these steps behind the alternatives, unless they are dropped, and says whether they or others
/// are. The first make room for those that are seen ahead in the tokens.
pub(crate) fn keep<'b>(
    alternatives: &mut Vec<&'b [Step<'b>], &'b Bump>,
    steps: &'b [Step<'b>],
    written: Form,
    drops: bool,
    tokens: &[Token<'_>],
) -> Result<bool, PathFault>
    ensures kept { IfOk result (λ _. alternatives.new.items ≡ alternatives.old.items
        ++ (if p.is_dropped (form written) then [] else steps.entry ∷ [])) }
    ensures drops { IfOk result (λ dropped. dropped ≡ p.is_dropped (form written) || drops) }
    ensures memory { IfErr result (λ e. e ≡ PathFault.NoMemory) }
{
    match written {
        Form::Dropped => Ok(true),
        Form::Lone | Form::Longer => {
            make_room(alternatives, tokens, Mark::Bar, Mark::Bar)?;
            alternatives.push(steps)?;
            Ok(drops)
        }
    }
}
