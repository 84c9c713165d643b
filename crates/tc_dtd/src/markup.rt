// Declarations one after the other, and whole texts (XML 1.0, 2.8 and 3.2).
ghost use Rattle.std.specs.Prelude.{◌≡◌, ◌≤◌, ◌++◌, [], ℕ, List, map, length, IfOk, IfErr, OnOk};
ghost use Rattle.tc_base.specs.declared.limits.TheConstants.{LONGEST_FILE};
ghost use Rattle.tc_model.specs.XmlText.{after_mark as past_mark_of};
ghost use Rattle.tc_dtd.specs.DtdText as whole;
ghost use Rattle.tc_dtd.specs.DtdTextDeclarations as form;
ghost use Rattle.tc_dtd.specs.Outcomes.{read};
ghost use Rattle.tc_dtd.specs.PlacedViews.{placed};
ghost use Rattle.tc_dtd.specs.Stops.{Stops};
ghost use Rattle.tc_dtd.specs.Views as see;

use crate::contents::{after_space, content, element_name};
use crate::declarations::Decl;
use crate::faults::{Stop, place_of, unexpected};
use crate::misc::after_misc;
use crate::prolog::after_declaration;
use crate::skipping::after_unread;
use bumpalo::Bump;
use tc_base::limits::DEEPEST_NESTING;
use tc_base::{Place, Why};
use tc_scan::{after_byte, after_mark, after_white, begins};

/// The declaration of an element, and the place of its `<`.
#[derive(Clone, Copy)]
pub(crate) struct Placed<'b> {
    pub(crate) place: Place,
    pub(crate) declaration: Decl<'b>,
}

/// What follows the end of a declaration.
fn after_end(text: &str) -> Result<&str, Stop>
    ensures ok { IfOk result (λ r. form.EndAt text.now (read tt r.now)) }
    ensures no { IfErr result (λ e. Stops e (form.EndAt text.now)) }
{
    let end = after_white(text);
    match after_byte(end, b'>') {
        Some(after) => Ok(after),
        None => Err(unexpected(end)),
    }
}

/// The declaration of an element from behind its word on, and what follows it (XML 1.0, 3.2, [45]).
fn element<'b, 't>(arena: &'b Bump, text: &'t str) -> Result<(Decl<'b>, &'t str), Stop>
    ensures ok { IfOk result
        (λ r. form.ElementAt whole.deepest_parenthesis text.now
        (read (see.declaration r.0) r.1.now)) }
    ensures no { IfErr result (λ e. Stops e (form.ElementAt whole.deepest_parenthesis text.now)) }
{
    let start = after_space(text)?;
    let (name, behind) = element_name(arena, start)?;
    let past_name = after_space(behind)?;
    let (content, end) = content(arena, DEEPEST_NESTING, past_name)?;
    let after = after_end(end)?;
    Ok((Decl { name, content }, after))
}

/// Reads one declaration, of which those of elements are kept, and gives what follows it (XML 1.0, 2.8, [29]).
fn after_markup<'b, 't>(
    arena: &'b Bump,
    total: usize,
    text: &'t str,
    found: &mut Vec<Placed<'b>, &'b Bump>,
) -> Result<&'t str, Stop>
    requires { total ≤ LONGEST_FILE }
    ensures ok { IfOk result
        (λ r. (xs : List form.Placed)
        × (map placed found.new.items ≡ map placed found.old.items ++ xs)
        × form.MarkupAt whole.deepest_parenthesis total text.now (read xs r.now)) }
    ensures no { IfErr result
        (λ e. Stops e (form.MarkupAt whole.deepest_parenthesis total text.now)) }
{
    if let Some(rest) = after_mark(text, "<!ELEMENT") {
        let (declaration, after) = element(arena, rest)?;
        let place = place_of(total, text.len());
        found.push(Placed { place, declaration })?;
        return Ok(after);
    }
    if begins(text, "<![") {
        return Err(Stop::Unsupported(text.len(), Why::ConditionalSection));
    }
    if begins(text, "%") {
        return Err(Stop::Unsupported(text.len(), Why::ParameterEntity));
    }
    after_unread(text)
}

/// Puts all declarations of elements up to the end of a text of so many bytes where none is yet (XML 1.0, 2.8, [29]).
fn put_markup<'b>(
    arena: &'b Bump,
    total: usize,
    text: &str,
    found: &mut Vec<Placed<'b>, &'b Bump>,
) -> Result<(), Stop>
    requires low { total ≤ LONGEST_FILE }
    requires none { found.old.items ≡ [] }
    ensures ok { OnOk result
        (form.DeclarationsAt whole.deepest_parenthesis total text.now
        (read (map placed found.new.items) [])) }
    ensures no { IfErr result
        (λ e. Stops e (form.DeclarationsAt whole.deepest_parenthesis total text.now)) }
{
    let mut rest = text;
    while !rest.is_empty() {
        let after = after_markup(arena, total, rest, found)?;
        rest = after_misc(after)?;
    }
    Ok(())
}

/// What follows a byte order mark, if there is one (XML 1.0, 4.3.3).
fn past_mark(text: &str) -> &str
    ensures { result.now ≡ past_mark_of text.now }
{
    match after_mark(text, "\u{FEFF}") {
        Some(start) => start,
        None => text,
    }
}

/// All declarations of elements of a text (XML 1.0, 2.8).
pub(crate) fn all_placed<'b>(arena: &'b Bump, text: &str) -> Result<Vec<Placed<'b>, &'b Bump>, Stop>
    requires { length text.now ≤ LONGEST_FILE }
    ensures ok { IfOk result
        (λ v. whole.TextAt whole.deepest_parenthesis text.now (read (map placed v.items) [])) }
    ensures no { IfErr result (λ e. Stops e (whole.TextAt whole.deepest_parenthesis text.now)) }
{
    let start = past_mark(text);
    let past_declaration = after_declaration(start)?;
    let first = after_misc(past_declaration)?;
    let mut found = Vec::new(arena);
    put_markup(arena, text.len(), first, &mut found)?;
    Ok(found)
}
