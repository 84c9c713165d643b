// The schema of what is put out without a mark.
ghost use Rattle.std.specs.Prelude.{◌≡◌, IfOk};
ghost use Rattle.tc_dead.specs.Marked as m;
ghost use Rattle.tc_dead.specs.Marked.{either, plain_content, plain_schema};
ghost use Rattle.tc_model.specs.Grammars as g;
ghost use Rattle.tc_model.specs.Views as see;

use bumpalo::Bump;
use tc_base::NoMemory;
use tc_model::{ElemPat, Grammar, Name, NameClass, Pat};

/// The namespace of marks, and of what stands around copies.
const DEAD_URI: &str = "urn:typecheck:dead";

/// The name of a mark.
pub(crate) fn mark_name<'b>() -> Name<'b>
    ensures { see.name result ≡ m.mark_name }
{
    Name {
        uri: DEAD_URI,
        local: "m",
    }
}

/// The name of what stands around a copy.
pub(crate) fn wrapper_name<'b>() -> Name<'b>
    ensures { see.name result ≡ m.wrapper_name }
{
    Name {
        uri: DEAD_URI,
        local: "w",
    }
}

/// One pattern or the other.
fn either<'b>(arena: &'b Bump, one: Pat<'b>, other: Pat<'b>) -> Result<Pat<'b>, NoMemory>
    ensures { IfOk result (λ p. see.pattern p
        ≡ either (see.pattern one.entry) (see.pattern other.entry)) }
{
    let both = arena.try_alloc_slice_copy(&[one, other])?;
    Ok(Pat::Choice(both))
}

/// One or more of a pattern.
fn one_or_more<'b>(arena: &'b Bump, pattern: Pat<'b>) -> Result<Pat<'b>, NoMemory>
    ensures { IfOk result (λ p. see.pattern p ≡ g.one_or_more (see.pattern pattern.entry)) }
{
    let repeated = arena.try_alloc(pattern)?;
    Ok(Pat::OneOrMore(repeated))
}

/// Texts and what stands around copies, in any number.
fn plain_content<'b>(arena: &'b Bump) -> Result<Pat<'b>, NoMemory>
    ensures { IfOk result (λ p. see.pattern p ≡ plain_content) }
{
    let item = either(arena, Pat::Text, Pat::Ref(1))?;
    let items = one_or_more(arena, item)?;
    either(arena, items, Pat::Empty)
}

/// The schema of what is put out without a mark: texts, and elements around copies.
pub fn plain<'b>(arena: &'b Bump) -> Result<Grammar<'b>, NoMemory>
    ensures { IfOk result (λ g. see.grammar g ≡ plain_schema) }
{
    let start = plain_content(arena)?;
    let content = either(arena, Pat::Ref(2), start)?;
    let elements = arena.try_alloc_slice_copy(&[
        ElemPat {
            names: NameClass::Name(wrapper_name()),
            content,
        },
        ElemPat {
            names: NameClass::Any(&[]),
            content: start,
        },
    ])?;
    Ok(Grammar { start, elements })
}
