// The result of a document by a stylesheet, by their texts.
ghost use Rattle.std.specs.Prelude.{◌≡◌, ◌≤◌, ◌⊎◌, Err, IfOk, IfErr, length};
ghost use Rattle.tc_base.specs.Reading.{longest_text};
ghost use Rattle.tc_decide.specs.Limits.{AreFew, SheetPasses, symbols_of_sheet};
ghost use Rattle.tc_decide.specs.MachinesSeen.{IsCauseBy};
ghost use Rattle.tc_decide.specs.Running.{DecidesRun, TellsRefusalOfRun, TellsRunLimit};
ghost use Rattle.tc_decide.specs.RunningSeen.{IsFoundOfRun, IsRun, IsSheetParts};
ghost use Rattle.tc_decide.specs.TextsSeen.{IsRefusalOf};
ghost use Rattle.tc_model.specs.Sheets as model;
ghost use Rattle.tc_model.specs.Trees.{Trees, none, IsDocument};
ghost use Rattle.tc_model.specs.Views as see;
ghost use Rattle.tc_model.specs.WellFormed.{IsSheet};
ghost use Rattle.tc_print.specs.ReadBack.{IsReadAs};
ghost use Rattle.tc_read.specs.Refusals.{IsRefusedDocument};
ghost use Rattle.tc_read.specs.Sheets.{IsSheetOf};
ghost use Rattle.tc_run.specs.Limits.{IsTextOfResult};

use crate::empty::no_schema;
use crate::failure::{Failure, Which, unaccepted};
use crate::machine::{LimitFault, rules_of};
use crate::texts::sheet_of;
use bumpalo::Bump;
use std::alloc::Global;
use tc_alpha::{AlphaFault, Alphabet};
use tc_base::Limit;
use tc_base::limits::MOST_SYMBOLS;
use tc_model::{Node, Sheet};
use tc_read::{TextFault, read_document};
use tc_rules::Rules;

/// The text of the result of a document, as `tc_print` prints it. No tree of the result is made. Neither of the texts that are taken is
/// longer than a file may be.
///
/// # Errors
///
/// The first text that is refused; or else a limit that the stylesheet or its run passes; or want of memory, at any time.
pub fn run(alloc: Global, sheet: &[u8], document: &[u8]) -> Result<Vec<u8>, Failure>
    requires sheet { length sheet.now ≤ longest_text }
    requires document { length document.now ≤ longest_text }

    // What is given is the text of the result of the document.
    ensures running { (s : model.Sheet) (d : Trees) → IsSheetOf sheet.now s
        → IsReadAs document.now d → IfOk result (λ text. IsTextOfResult s d text.items) }

    // Unless memory is refused, it is given exactly where the stylesheet and its run keep to their limits; and else a limit that is passed.
    ensures limited { (s : model.Sheet) (d : Trees) → IsSheetOf sheet.now s
        → IsReadAs document.now d → (result ≡ Err Failure.NoMemory) ⊎ DecidesRun s d result }

    // The limit that is told, and the text that is refused.
    ensures counted { (s : model.Sheet) (d : Trees) → IsSheetOf sheet.now s
        → IsReadAs document.now d → TellsRunLimit s d result }
    ensures refused { TellsRefusalOfRun sheet.now document.now result }
{
    let arena = Bump::new(alloc);
    run_texts(&arena, alloc, sheet, document)
}

/// Writes the result of the stylesheet of a text on the document of one.
fn run_texts<'b>(
    arena: &'b Bump,
    alloc: Global,
    sheet: &[u8],
    document: &'b [u8],
) -> Result<Vec<u8>, Failure>
    requires sheet { length sheet.now ≤ longest_text }
    requires document { length document.now ≤ longest_text }
    ensures { IsFoundOfRun sheet.now document.now result }
{
    let stylesheet = sheet_of(arena, sheet)?;
    let root = lent_document(arena, document)?;
    run_on(arena, alloc, &stylesheet, &root)
}

/// The document of a text.
pub(crate) fn document_of<'b>(arena: &'b Bump, text: &[u8]) -> Result<Node<'b>, Failure>
    requires { length text.now ≤ longest_text }
    ensures ok { IfOk result (λ root. IsReadAs text.now (see.before root none)) }
    ensures document { IfOk result (λ root. IsDocument (see.before root none)) }
    ensures no { IfErr result (IsRefusalOf Which.Document (IsRefusedDocument text.now)) }
{
    match read_document(arena, text) {
        Ok(root) => Ok(root),
        Err(fault) => Err(unaccepted(Which::Document, fault)),
    }
}

/// The document of a text, which lends it names and texts.
fn lent_document<'b>(arena: &'b Bump, text: &'b [u8]) -> Result<Node<'b>, Failure>
    requires { length text.now ≤ longest_text }
    ensures ok { IfOk result (λ root. IsReadAs text.now (see.before root none)) }
    ensures document { IfOk result (λ root. IsDocument (see.before root none)) }
    ensures no { IfErr result (IsRefusalOf Which.Document (IsRefusedDocument text.now)) }
{
    match tc_xml::read_document(arena, text) {
        Ok(root) => Ok(root),
        Err(fault) => {
            let refused = TextFault::from(fault);
            Err(unaccepted(Which::Document, refused))
        }
    }
}

/// The rules of a stylesheet over its symbols.
#[derive(Drop)]
struct SheetParts<'b> {
    alphabet: Alphabet,
    rules: Rules<'b>,
}

/// The rules of a stylesheet over its symbols, unless a limit is passed.
fn sheet_parts<'b>(alloc: Global, sheet: &Sheet<'b>) -> Result<SheetParts<'b>, LimitFault>
    requires { IsSheet (see.sheet sheet.now) }
    ensures parts { IfOk result (IsSheetParts (see.sheet sheet.now)) }
    ensures err { IfErr result
        (IsCauseBy (SheetPasses (symbols_of_sheet (see.sheet sheet.now)) (see.sheet sheet.now))) }
{
    let alphabet = sheet_alphabet(alloc, sheet)?;
    let rules = rules_of(alloc, sheet, &alphabet)?;
    Ok(SheetParts { alphabet, rules })
}

/// Writes the result of a stylesheet on a document, unless a limit is passed.
fn run_on<'b>(
    arena: &'b Bump,
    alloc: Global,
    sheet: &Sheet<'b>,
    document: &Node<'b>,
) -> Result<Vec<u8>, Failure>
    requires sheet { IsSheet (see.sheet sheet.now) }
    requires document { IsDocument (see.before document.now none) }
    ensures { IsRun (see.sheet sheet.now) (see.before document.now none) result }
{
    let parts = sheet_parts(alloc, sheet)?;
    let text = tc_run::run_text(arena, alloc, &parts.rules, &parts.alphabet, document)?;
    Ok(text)
}

/// The symbols of a stylesheet alone.
fn sheet_alphabet(alloc: Global, sheet: &Sheet<'_>) -> Result<Alphabet, LimitFault>
    ensures stands { IfOk result (λ symbols. symbols ≡ symbols_of_sheet (see.sheet sheet.now)) }
    ensures few { IfOk result (λ symbols. AreFew symbols) }
    ensures err { IfErr result
        (IsCauseBy (SheetPasses (symbols_of_sheet (see.sheet sheet.now)) (see.sheet sheet.now))) }
{
    let nothing = no_schema();
    let twin = nothing;
    match Alphabet::of(alloc, &nothing, &twin, sheet) {
        Ok(alphabet) => Ok(alphabet),
        Err(AlphaFault::TooManySymbols) => Err(LimitFault::Passes(Limit::Symbols, MOST_SYMBOLS)),
        Err(AlphaFault::NoMemory) => Err(LimitFault::NoMemory),
    }
}
