// Whole schemas.
// The parser holds the arena, the scope and where the tokens end. Tokens are handed on, and what follows is
// handed back, as a phrase's clause relates the two, so that looking ahead takes nothing back. What nests is
// handed on as how much deeper it may go.
ghost use Rattle.std.specs.Prelude.{◌≤◌, length, IfErr, IfOk};
ghost use Rattle.tc_base.specs.declared.limits.TheConstants.{LONGEST_FILE};
ghost use Rattle.tc_model.specs.CompactSyntax.{CompactSyntax};
ghost use Rattle.tc_rnc.specs.Texts.{IsReadOrRefused};
ghost use Rattle.tc_rnc.specs.Answers.{Excluded, Stands};
ghost use Rattle.tc_rnc.specs.Views as seen;

use crate::faults::{RncFault, at_end};
use crate::lexing::tokens_of;
use crate::schema::top_level;
use crate::syntax::Syntax;
use bumpalo::Bump;
use tc_base::Place;

/// The syntax tree of a schema in compact syntax, of at most 67,108,864 bytes (OASIS, RELAX NG Compact Syntax,
/// 2002; ISO/IEC 19757-2, Annex C). Of its constructs those are read that this crate's documentation names.
///
/// # Errors
///
/// `Unsupported` at a construct that is not read, `TooDeep` where a brace or parenthesis opens within 2,000 others,
/// `Malformed` where the text is no schema for another cause, and `NoMemory`.
pub fn read_rnc<'b>(arena: &'b Bump, text: &[u8]) -> Result<Syntax<'b>, RncFault>
    requires { length text.now ≤ LONGEST_FILE }
    ensures ok { IfOk result (λ s. CompactSyntax text.now (seen.syntax s)) }
    ensures no { IfErr result (λ e. Excluded e text.now) }
    ensures stands { IfErr result (λ e. Stands e text.now) }
{
    let tokens = tokens_of(arena, text)?;
    let defs = top_level(arena, &tokens.list, tokens.end)?;
    if !tokens.whole {
        return Err(at_end(tokens.end));
    }
    let end = Place(text.len() as u32);
    Ok(Syntax { defs, end })
}

/// A law of texts: any bytes have a syntax tree, or are refused.
pub fn law_of_texts()
    ensures { IsReadOrRefused }
{}
