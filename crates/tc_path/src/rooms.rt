// Room for parts of phrases that are seen ahead.
ghost use Rattle.std.specs.Prelude.{◌≡◌, ◌+◌, ◌<◌, ◌≤◌, IfErr, IfSome, length};

use crate::PathFault;
use crate::token::{Mark, Token};
use bumpalo::Bump;

/// Whether a token is one of these two marks.
fn is_either(token: &Token<'_>, first: Mark, second: Mark) -> bool {
    match token {
        Token::Mark(mark) => *mark == first || *mark == second,
        _ => false,
    }
}

/// What follows a token and one of these two marks.
fn behind_part<'a, 't>(
    tokens: &'a [Token<'t>],
    first: Mark,
    second: Mark,
) -> Option<&'a [Token<'t>]>
    ensures { IfSome result (λ rest. length rest.now < length tokens.now) }
{
    let (_, rest) = tokens.split_first()?;
    let (mark, behind) = rest.split_first()?;
    if is_either(mark, first, second) {
        Some(behind)
    } else {
        None
    }
}

/// How many parts of one token each stand at the front, with one of these two marks between them; at least one.
fn parts_ahead(tokens: &[Token<'_>], first: Mark, second: Mark) -> usize
    ensures { result ≤ length tokens.now + 1 }
{
    let mut count = 1;
    let mut rest = tokens.split_at(0).1;
    while let Some(behind) = behind_part(rest, first, second) {
        count += 1;
        rest = behind;
    }
    count
}

/// Makes room for the parts that are seen ahead in the tokens, with one of these two marks between them, where there
/// are none yet.
pub(crate) fn make_room<'b, T>(
    parts: &mut Vec<T, &'b Bump>,
    tokens: &[Token<'_>],
    first: Mark,
    second: Mark,
) -> Result<(), PathFault>
    ensures same { parts.new.items ≡ parts.old.items }
    ensures memory { IfErr result (λ e. e ≡ PathFault.NoMemory) }
{
    if parts.is_empty() {
        parts.reserve_exact(parts_ahead(tokens, first, second))?;
    }
    Ok(())
}
