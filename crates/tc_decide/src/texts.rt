// What the texts of two schemas and a stylesheet lead to, before rows are worked out.
ghost use Rattle.std.specs.Prelude.{◌≤◌, IfOk, IfErr, length};
ghost use Rattle.tc_base.specs.Reading.{longest_text};
ghost use Rattle.tc_decide.specs.Texts.{IsRefused, IsSchemaOf, IsShort};
ghost use Rattle.tc_decide.specs.TextsSeen.{IsMachineOfTexts, IsRefusalOf, StopsTexts};
ghost use Rattle.tc_model.specs.Views as see;
ghost use Rattle.tc_model.specs.WellFormed.{IsSheet};
ghost use Rattle.tc_read.specs.Refusals.{IsRefusedSheet};
ghost use Rattle.tc_read.specs.Sheets.{IsSheetOf};

use crate::failure::{Failure, Which, unaccepted};
use crate::machine::machine_of;
use crate::schemas::{SchemaText, read_schema};
use bumpalo::Bump;
use std::alloc::Global;
use tc_beh::Machine;
use tc_model::Sheet;
use tc_read::{Schema, read_sheet};

/// The schema of a text.
pub(crate) fn schema_of<'b>(
    arena: &'b Bump,
    which: Which,
    text: SchemaText<'_>,
) -> Result<Schema<'b>, Failure>
    requires { IsShort text }
    ensures ok { IfOk result (IsSchemaOf text.entry) }
    ensures no { IfErr result (IsRefusalOf which (IsRefused text.entry)) }
{
    match read_schema(arena, text) {
        Ok(schema) => Ok(schema),
        Err(fault) => Err(unaccepted(which, fault)),
    }
}

/// The stylesheet of a text.
pub(crate) fn sheet_of<'b>(arena: &'b Bump, text: &[u8]) -> Result<Sheet<'b>, Failure>
    requires { length text.now ≤ longest_text }
    ensures ok { IfOk result (λ s. IsSheetOf text.now (see.sheet s)) }
    ensures well_formed { IfOk result (λ s. IsSheet (see.sheet s)) }
    ensures no { IfErr result (IsRefusalOf Which.Sheet (IsRefusedSheet text.now)) }
{
    match read_sheet(arena, text) {
        Ok(sheet) => Ok(sheet),
        Err(fault) => Err(unaccepted(Which::Sheet, fault)),
    }
}

/// The machine of the texts of two schemas and a stylesheet, by which rows are worked out.
///
/// # Errors
///
/// A text is refused, a limit is passed that is tried before rows are, or memory is refused.
pub(crate) fn machine_of_texts<'b>(
    arena: &'b Bump,
    alloc: Global,
    input: SchemaText<'_>,
    output: SchemaText<'_>,
    sheet: &[u8],
) -> Result<Machine<'b>, Failure>
    requires input { IsShort input }
    requires output { IsShort output }
    requires sheet { length sheet.now ≤ longest_text }
    ensures ok { IfOk result (IsMachineOfTexts input.entry output.entry sheet.now) }
    ensures no { IfErr result (StopsTexts input.entry output.entry sheet.now) }
{
    let input_schema = schema_of(arena, Which::Input, input)?;
    let output_schema = schema_of(arena, Which::Output, output)?;
    let stylesheet = sheet_of(arena, sheet)?;
    Ok(machine_of(alloc, &input_schema, &output_schema, &stylesheet)?)
}
