// Elements that are declared more than once (XML 1.0, 3.2).
ghost use Rattle.std.specs.Prelude.{◌≡◌, [], map, bytes_eq, IfOk, MatchOption};
ghost use Rattle.std.specs.List.{IsDistinct};
ghost use Rattle.tc_dtd.specs.DtdText.{FirstAgain, names_of};
ghost use Rattle.tc_dtd.specs.PlacedViews.{placed};
ghost use Rattle.tc_dtd.specs.Views.{declaration};

use crate::declarations::Decl;
use crate::markup::Placed;
use crate::numbers::Names;
use bumpalo::Bump;
use bumpalo::collections::into_bump_slice;
use indexmap::IndexSet;
use tc_base::{NoMemory, Place};

/// The place of the first declaration of an element that was declared before.
pub(crate) fn first_again<'b>(
    arena: &'b Bump,
    found: &[Placed<'b>],
) -> Result<Option<Place>, NoMemory>
    ensures { IfOk result
        (λ o. MatchOption o (IsDistinct bytes_eq (names_of (map placed found.now)))
        (λ p. FirstAgain (map placed found.now) p.0)) }
{
    let mut seen: Names<'b> = IndexSet::new(arena);
    first_again_among(&mut seen, found)
}

/// The place of the first declaration whose name stands before it too; `seen` is empty yet.
fn first_again_among<'b>(
    seen: &mut Names<'b>,
    found: &[Placed<'b>],
) -> Result<Option<Place>, NoMemory>
    requires { seen.old.keys ≡ [] }
    ensures { IfOk result
        (λ o. MatchOption o (IsDistinct bytes_eq (names_of (map placed found.now)))
        (λ p. FirstAgain (map placed found.now) p.0)) }
{
    for one in found {
        let is_new = seen.insert(one.declaration.name)?;
        if !is_new {
            return Ok(Some(one.place));
        }
    }
    Ok(None)
}

/// The declarations without their places.
pub(crate) fn without_places<'b>(
    arena: &'b Bump,
    found: &[Placed<'b>],
) -> Result<&'b [Decl<'b>], NoMemory>
    ensures { IfOk result
        (λ out. map declaration out.now ≡ map (λ x. x.declaration) (map placed found.now)) }
{
    let mut out = Vec::new(arena);
    for one in found {
        out.push(one.declaration)?;
    }
    Ok(into_bump_slice(out))
}
