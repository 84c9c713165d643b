// The mark or the keyword that stands first among tokens.
ghost use Rattle.std.specs.Prelude.{MatchOption};
ghost use Rattle.tc_model.specs.CompactSyntaxNames.{LacksMark};
ghost use Rattle.tc_rnc.specs.Readings.{BeginsWith};
ghost use Rattle.tc_model.specs.CompactSyntaxStops.{LacksWord};
ghost use Rattle.tc_rnc.specs.Schemas.{StartsWith};
ghost use Rattle.tc_rnc.specs.Views as seen;

use crate::faults::first_of;
use crate::tokens::Token;

/// What follows this mark, where it stands first.
pub fn after_mark<'s, 't>(tokens: &'s [Token<'t>], mark: char) -> Option<&'s [Token<'t>]>
    ensures { MatchOption result (LacksMark mark (seen.tokens tokens.now))
        (λ rest. BeginsWith mark (seen.tokens tokens.now) (seen.tokens rest.now)) }
{
    let (first, rest) = first_of(tokens)?;
    if first.is_mark(mark) {
        Some(rest)
    } else {
        None
    }
}

/// What follows this keyword, where it stands first.
pub fn after_word<'s, 't>(tokens: &'s [Token<'t>], word: &str) -> Option<&'s [Token<'t>]>
    ensures { MatchOption result (LacksWord word.now (seen.tokens tokens.now))
        (λ rest. StartsWith word.now (seen.tokens tokens.now) (seen.tokens rest.now)) }
{
    let (first, rest) = first_of(tokens)?;
    if first.is_name(word) {
        Some(rest)
    } else {
        None
    }
}
