// Stylesheets, read.
ghost use Rattle.std.specs.Prelude.{◌≤◌, ℕ, length, IfOk, IfErr};
ghost use Rattle.tc_base.specs.Reading.{longest_text};
ghost use Rattle.tc_model.specs.RawTrees.{RawTrees};
ghost use Rattle.tc_model.specs.SheetText.{SheetText, SheetFails, undefined, call_loop};
ghost use Rattle.tc_model.specs.Sheets as sheets;
ghost use Rattle.tc_model.specs.Views as see;
ghost use Rattle.tc_model.specs.WellFormed.{IsSheet};
ghost use Rattle.tc_model.specs.XmlText.{XmlText};
ghost use Rattle.tc_read.specs.Faults.{IsUnaccepted, IsOfTree};
ghost use Rattle.tc_read.specs.Refusals.{IsRefusedSheet};
ghost use Rattle.tc_read.specs.SheetLaws.{HasNoSheet, HasSheetOrReason};
ghost use Rattle.tc_read.specs.Sheets.{IsSheetOf};
ghost use Rattle.tc_sheet.specs.Changes.{mended, flattened, Changed};
ghost use Rattle.tc_sheet.specs.Faults.{IsUnsupported, IsTooDeep, IsUndefinedAt, IsLoopAt, NamesAgain, IsMalformedAt};

use crate::faults::TextFault;
use bumpalo::Bump;
use tc_model::Sheet;
use tc_xml::read_raw;

/// The stylesheet of an XML text (XSLT 1.0, 2 to 9 and 11.3), which is well-formed. A text isn't longer than a file may
/// be.
///
/// # Errors
///
/// What is wrong with the text as XML comes first, then what is wrong with its tree as a stylesheet.
pub fn read_sheet<'b>(arena: &'b Bump, text: &[u8]) -> Result<Sheet<'b>, TextFault>
    requires { length text.now ≤ longest_text }
    ensures ok { IfOk result (λ s. IsSheetOf text.now (see.sheet s)) }
    ensures well_formed { IfOk result (λ s. IsSheet (see.sheet s)) }
    ensures no { IfErr result (IsUnaccepted (IsRefusedSheet text.now)) }

    // What an XML text is refused for whose tree is a stylesheet but for one thing.
    ensures unsupported { (raw changed : RawTrees) (s : sheets.Sheet) → XmlText text.now raw
        → Changed mended raw changed → SheetText changed s
        → IfErr result (IsOfTree IsUnsupported) }
    ensures deep { (raw changed : RawTrees) (s : sheets.Sheet) → XmlText text.now raw
        → Changed flattened raw changed → SheetText changed s
        → IfErr result (IsOfTree IsTooDeep) }
    ensures no_template { (raw : RawTrees) (p : ℕ) → XmlText text.now raw
        → SheetFails raw undefined p → IfErr result (IsOfTree (IsUndefinedAt p)) }
    ensures loops { (raw : RawTrees) (p : ℕ) → XmlText text.now raw → SheetFails raw call_loop p
        → IfErr result (IsOfTree (IsLoopAt p)) }
    ensures again { (raw : RawTrees) (p : ℕ) → XmlText text.now raw → NamesAgain raw p
        → IfErr result (IsOfTree (IsMalformedAt p)) }
{
    let raw = read_raw(arena, text)?;
    let sheet = tc_sheet::read_sheet(arena, &raw)?;
    Ok(sheet)
}

/// Laws of the texts of stylesheets: each spells a stylesheet or is refused for some reason, and
/// none does both.
pub fn law_of_stylesheets()
    ensures none { HasNoSheet }
    ensures some { HasSheetOrReason }
{}
