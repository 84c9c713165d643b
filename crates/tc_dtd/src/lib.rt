//! Reads the declarations of elements in a document type definition, exactly (XML 1.0, Fifth Edition, 2.8 and 3.2), and makes
//! a schema of them.
#![tactic(auto)]

ghost use Rattle.std.specs.Prelude.{◌≤◌, length, map, IfOk, IfErr};
ghost use Rattle.tc_base.specs.declared.limits.TheConstants.{LONGEST_FILE};
ghost use Rattle.tc_dtd.specs.Declarations.{AreDeclarations};
ghost use Rattle.tc_dtd.specs.DtdText.{DtdText};
ghost use Rattle.tc_dtd.specs.Faults.{IsFaultOf, IsDeclaredOnce, IsAgain};
ghost use Rattle.tc_dtd.specs.PlacedViews.{placed};
ghost use Rattle.tc_dtd.specs.Views as see;

mod contents;
mod declarations;
mod faults;
mod laws;
mod links;
mod markup;
mod misc;
mod numbers;
mod once;
mod patterns;
mod prolog;
mod schema;
mod sizes;
mod skipping;

use bumpalo::Bump;
pub use declarations::{Content, Decl, Dtd, Particle};
pub use faults::DtdFault;
use faults::place_of;
pub use laws::law_of_dtd_texts;
use markup::{Placed, all_placed};
use once::{first_again, without_places};
pub use schema::{DtdGrammarFault, grammar};
use tc_scan::characters;

/// The declarations of elements in the text of a document type definition. Takes at most 64 MiB of text.
///
/// # Errors
///
/// The first place at which reading stops decides; what stands behind it isn't looked at, whatever bytes it is.
/// Unsupported at a construct that isn't read. TooDeep at a parenthesis within 2,000 others. Otherwise Malformed, and
/// Twice only where all else is well. NoMemory where memory is refused.
pub fn read_dtd<'b>(arena: &'b Bump, text: &[u8]) -> Result<Dtd<'b>, DtdFault>
    requires { length text.now ≤ LONGEST_FILE }
    ensures ok { IfOk result (λ d. DtdText text.now (see.declarations d)) }
    ensures lawful { IfOk result (λ d. AreDeclarations (see.declarations d)) }
    ensures refused { IfErr result (IsFaultOf text.now) }
{
    let front = characters(text);
    match all_placed(arena, front) {
        Ok(found) => {
            if front.len() == text.len() {
                declared_once(arena, found.as_slice())
            } else {
                Err(DtdFault::Malformed(place_of(front.len(), 0)))
            }
        }
        Err(stop) => Err(stop.fault(front.len())),
    }
}

/// The declarations, where each element is declared once.
fn declared_once<'b>(arena: &'b Bump, found: &[Placed<'b>]) -> Result<Dtd<'b>, DtdFault>
    ensures ok { IfOk result (λ d. IsDeclaredOnce (map placed found.now) (see.declarations d)) }
    ensures again { IfErr result (IsAgain (map placed found.now)) }
{
    if let Some(place) = first_again(arena, found)? {
        return Err(DtdFault::Twice(place));
    }
    let decls = without_places(arena, found)?;
    Ok(Dtd { decls })
}
