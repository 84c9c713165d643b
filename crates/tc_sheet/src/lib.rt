//! Reads stylesheets from their raw trees, exactly (XSLT 1.0, 2 to 9 and 11.3).
#![tactic(auto)]

ghost use Rattle.std.specs.Prelude.{◌≡◌, ℕ, filter, map, IfOk, IfErr};
ghost use Rattle.tc_model.specs.RawTrees.{RawTrees, IsOneElement, none};
ghost use Rattle.tc_model.specs.Views.{raw_element, raw_tree, sheet};
ghost use Rattle.tc_model.specs.SheetText.{SheetText, SheetFails, undefined, call_loop};
ghost use Rattle.tc_model.specs.SheetTextTrees.{is_used};
ghost use Rattle.tc_model.specs.Sheets as sheets;
ghost use Rattle.tc_sheet.specs.Changes.{mended, flattened, Changed};
ghost use Rattle.tc_sheet.specs.Faults.{IsCause, IsUnsupported, IsTooDeep, IsUndefinedAt, IsLoopAt, NamesAgain, IsMalformedAt};
ghost use Rattle.tc_sheet.specs.Laws.{HasLawfulSheet, HasNoSheetWithCause, HasSheetOrCause};
ghost use Rattle.tc_sheet.specs.Views.{template as template_seen};
ghost use Rattle.tc_sheet.specs.FaultClauses.{IsTold};

mod attributes;
mod bodies;
mod calls;
mod elements;
mod faults;
mod numbering;
mod tables;
mod templates;
mod written;

use bumpalo::Bump;
use bumpalo::collections::into_bump_slice;
use calls::check_calls;
pub use faults::SheetFault;
use numbering::{Tables, sheet_of};
use tables::{modes_of, names_of};
use tc_model::{Raw, RawElem, Sheet};
use templates::stylesheet;
use written::Template;

/// Drops templates that have no name and no alternative left.
fn used<'b>(arena: &'b Bump, templates: &[Template<'b>]) -> Result<&'b [Template<'b>], SheetFault>
    ensures ok { IfOk result
        (λ r. map template_seen r.now ≡ filter is_used (map template_seen templates.now)) }
    ensures no { IfErr result (λ e. e ≡ SheetFault.NoMemory) }
{
    let mut found = Vec::new(arena);
    for template in templates {
        if template.is_used() {
            found.push(*template)?;
        }
    }
    Ok(into_bump_slice(found))
}

/// The stylesheet of its root (XSLT 1.0, 2.2).
fn sheet_in<'b>(arena: &'b Bump, element: &RawElem<'b>) -> Result<Sheet<'b>, SheetFault>
    ensures ok { IfOk result (λ r. SheetText (raw_element element.now none) (sheet r)) }
    ensures no { IfErr result (IsTold (raw_element element.now none)) }
{
    let written = stylesheet(arena, element)?;
    let names = names_of(arena, written)?;
    let templates = used(arena, written)?;
    check_calls(arena, names, templates)?;
    let modes = modes_of(arena, templates)?;
    let tables = Tables { modes, names };
    sheet_of(arena, &tables, templates)
}

/// Reads a stylesheet from its raw tree, which is an element (XSLT 1.0, 2 to 9 and 11.3).
///
/// # Errors
///
/// Unsupported at a construct that is not supported, but not in what `xsl:attribute`, `xsl:output`,
/// `xsl:strip-space` and foreign elements at the top have and hold, nor in what elements have and hold that are not
/// supported or may not stand where they stand, and of a root that is no stylesheet's at its tag alone; always where
/// the tree is a stylesheet once some elements that are not supported are taken away, and some variable references,
/// literals and numbers of its selects, patterns and tests are taken as the name `a`. TooDeep at a select, pattern
/// or test whose parentheses and brackets stand more than 2,000 deep within one another; always where the tree is a
/// stylesheet once others stand in place of some of these. Undefined at the first call of a template that does not
/// exist, and CallLoop at the first call that leads back to the template in which it stands, all else being good.
/// Malformed otherwise, at a text, an element or an attribute that is no such construct; where all else is good, at
/// the first template whose name one before it has. NoMemory where memory is refused.
pub fn read_sheet<'b>(arena: &'b Bump, raw: &Raw<'b>) -> Result<Sheet<'b>, SheetFault>
    requires { IsOneElement (raw_tree raw.now) }
    ensures ok { IfOk result (λ r. SheetText (raw_tree raw.now) (sheet r)) }
    ensures cause { IfErr result (IsCause (raw_tree raw.now)) }
    ensures unsupported { (changed : RawTrees) (s : sheets.Sheet)
        → Changed mended (raw_tree raw.now) changed → SheetText changed s
        → IfErr result IsUnsupported }
    ensures deep { (changed : RawTrees) (s : sheets.Sheet)
        → Changed flattened (raw_tree raw.now) changed → SheetText changed s
        → IfErr result IsTooDeep }
    ensures no_template { (p : ℕ) → SheetFails (raw_tree raw.now) undefined p
        → IfErr result (IsUndefinedAt p) }
    ensures loops { (p : ℕ) → SheetFails (raw_tree raw.now) call_loop p
        → IfErr result (IsLoopAt p) }
    ensures again { (p : ℕ) → NamesAgain (raw_tree raw.now) p → IfErr result (IsMalformedAt p) }
{
    let Raw::Elem(element) = raw else {
        unreachable!()
    };
    sheet_in(arena, element)
}

/// Laws of stylesheets that are read. The stylesheet of a tree whose names and texts are lawful, as
/// `law_of_xml_texts` says of the trees of XML texts, is well-formed. `law_of_sheet_texts` says that a tree has at
/// most one. Each tree of one element spells a stylesheet or has a cause for which it is refused, and none does both.
pub fn law_of_sheets()
    ensures lawful { HasLawfulSheet }
    ensures none { HasNoSheetWithCause }
    ensures some { HasSheetOrCause }
{}
