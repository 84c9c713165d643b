// Tokens in which parentheses and brackets don't stand too deep within one another.
ghost use Rattle.std.specs.Prelude.{◌≡◌, ◌≤◌, IfOk, IfErr, MatchBool};
ghost use Rattle.tc_model.specs.PathTextTokens as path;
ghost use Rattle.tc_path.specs.Views.{token, tokens_of};
ghost use Rattle.tc_path.specs.Faults.{IsUnread};

use crate::PathFault;
use crate::token::{Mark, Token, tokens};
use bumpalo::Bump;
use tc_base::limits::DEEPEST_NESTING;

/// How deep parentheses and brackets together may stand within one another.
const DEEPEST: usize = DEEPEST_NESTING as usize;

/// How many parentheses and brackets are open behind this token.
fn open_behind(before: usize, next: &Token<'_>) -> usize
    requires { before ≤ DEEPEST }
    ensures { result ≡ path.open_behind before (token next.now) }
{
    match next {
        Token::Mark(Mark::OpenParenthesis | Mark::OpenBracket) => before + 1,
        Token::Mark(Mark::CloseParenthesis | Mark::CloseBracket) => before.saturating_sub(1),
        _ => before,
    }
}

/// Whether parentheses and brackets together stand too deep within one another.
fn is_too_deep(tokens: &[Token<'_>]) -> bool
    ensures { MatchBool result (path.IsTooDeep (tokens_of tokens.now))
        (path.IsTooDeep (tokens_of tokens.now) → ⊥) }
{
    let mut count = 0;
    for token in tokens {
        count = open_behind(count, token);
        if count > DEEPEST {
            return true;
        }
    }
    false
}

/// The tokens of a text in which parentheses and brackets don't stand too deep.
pub(crate) fn shallow_tokens<'t>(
    arena: &'t Bump,
    text: &'t str,
) -> Result<&'t [Token<'t>], PathFault>
    ensures tokens { IfOk result (λ r. path.Tokens text.now (tokens_of r.now)) }
    ensures shallow { IfOk result (λ r. path.IsTooDeep (tokens_of r.now) → ⊥) }
    ensures no { IfErr result (IsUnread text.now) }
{
    let found = tokens(arena, text)?;
    if is_too_deep(found) {
        return Err(PathFault::TooDeep);
    }
    Ok(found)
}
