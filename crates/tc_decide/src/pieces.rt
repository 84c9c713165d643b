// Whether a document that comes in pieces is valid for a schema, by their texts.
ghost use Rattle.std.specs.Prelude.{◌≡◌, ◌≤◌, ◌⊎◌, ◌↔◌, Err, IfErr, IfOk, IsTrue, [], length};
ghost use Rattle.tc_auto.specs.Stands as a;
ghost use Rattle.tc_base.specs.Reading.{longest_text};
ghost use Rattle.tc_base.specs.declared.limits.TheConstants.{MOST_INPUT_STATES};
ghost use Rattle.tc_decide.specs.MachinesSeen.{IsLawful, IsReadOf};
ghost use Rattle.tc_decide.specs.Pieces.{DecidesInPieces, TellsLimitInPieces, TellsRefusalInPieces};
ghost use Rattle.tc_decide.specs.PiecesSeen.{IsFoundInPieces, TellsInPieces};
ghost use Rattle.tc_decide.specs.Texts.{IsShort, Spells};
ghost use Rattle.tc_decide.specs.ValidatingSeen.{IsSchemaParts};
ghost use Rattle.tc_model.specs.Grammars as g;
ghost use Rattle.tc_model.specs.RawTrees.{RawTrees};
ghost use Rattle.tc_model.specs.Stripped.{stripped};
ghost use Rattle.tc_model.specs.Validity.{IsValid};
ghost use Rattle.tc_stream.specs.Faults.{IsFaultOf};
ghost use Rattle.tc_stream.specs.Streams.{StandsFor, fed_of};
ghost use Rattle.tc_stream.specs.XmlTextMeasures.{IsGood};

use crate::failure::{Failure, Which};
use crate::schemas::SchemaText;
use crate::texts::schema_of;
use crate::validating::{SchemaParts, limit_failure, schema_parts};
use bumpalo::Bump;
use std::alloc::Global;
use tc_read::Schema;
use tc_stream::{Stream, StreamFault};

/// Whether a document is valid for a schema, its text being taken in pieces of so many bytes, the last one perhaps shorter.
/// A text isn't longer than a file may be.
///
/// # Errors
///
/// As of `valid`, but that the limits of the schema come before anything of the document, in which tags and the names of
/// open elements have limits, too.
pub fn valid_in_pieces(
    alloc: Global,
    size: u32,
    schema: SchemaText<'_>,
    document: &[u8],
) -> Result<bool, Failure>
    requires some { 1 ≤ size }
    requires schema { IsShort schema }
    requires document { length document.now ≤ longest_text }

    // Unless memory is refused, it is yes or no exactly where no limit is passed, of the schema or in the text of the document, by whether the document
    // is valid; the document is refused exactly where its text is no document's and no measure passes before reading stops; and else a limit is told.
    ensures validity { (x : g.Grammar) → Spells schema.entry x
        → (result ≡ Err Failure.NoMemory) ⊎ DecidesInPieces x document.now result }

    // The limit that is told, and the text that is refused.
    ensures counted { (x : g.Grammar) → Spells schema.entry x
        → TellsLimitInPieces x document.now result }
    ensures refused { TellsRefusalInPieces schema.entry document.now result }
{
    texts_in_pieces(alloc, size, schema, document)
}

/// Judges the pieces of a document by the schema of a text.
fn texts_in_pieces(
    alloc: Global,
    size: u32,
    schema: SchemaText<'_>,
    document: &[u8],
) -> Result<bool, Failure>
    requires some { 1 ≤ size }
    requires schema { IsShort schema }
    requires document { length document.now ≤ longest_text }
    ensures { IsFoundInPieces schema.entry document.now result }
{
    let arena = Bump::new(alloc);
    match schema_of(&arena, Which::Input, schema) {
        Ok(read) => schema_in_pieces(alloc, size, &read, document),
        Err(failure) => Err(failure),
    }
}

/// Judges the pieces of a document by a schema, unless that passes a limit.
fn schema_in_pieces(
    alloc: Global,
    size: u32,
    schema: &Schema<'_>,
    document: &[u8],
) -> Result<bool, Failure>
    requires some { 1 ≤ size }
    requires schema { IsLawful schema.now }
    requires document { length document.now ≤ longest_text }
    ensures { (x : g.Grammar) → IsReadOf x schema.now → TellsInPieces x document.now result }
{
    match schema_parts(alloc, schema) {
        Ok(parts) => document_in_pieces(alloc, size, &parts, document),
        Err(fault) => Err(limit_failure(fault)),
    }
}

/// Judges the pieces of a document by a schema that passes no limit.
fn document_in_pieces(
    alloc: Global,
    size: u32,
    schema: &SchemaParts<'_>,
    document: &[u8],
) -> Result<bool, Failure>
    requires some { 1 ≤ size }
    requires states { a.states schema.now.automaton ≤ MOST_INPUT_STATES }
    requires document { length document.now ≤ longest_text }
    ensures { (x : g.Grammar) → IsSchemaParts x schema.now → TellsInPieces x document.now result }
{
    let stream = Stream::new(alloc, &schema.automaton, &schema.alphabet)?;
    let valid = feed_all(stream, document, size)?;
    Ok(valid)
}

/// Feeds a text to a stream in pieces of so many bytes, and tells whether it is valid.
///
/// # Errors
///
/// The text isn't good.
fn feed_all(begun: Stream<'_>, text: &[u8], size: u32) -> Result<bool, StreamFault>
    requires some { 1 ≤ size }
    requires nothing { fed_of begun ≡ 0 }
    requires short { length text.now ≤ longest_text }
    ensures ok { IfOk result (λ b. (x : g.Grammar) → StandsFor x begun.entry []
        → (h : RawTrees) × IsGood text.now h × (IsTrue b ↔ IsValid x (stripped h))) }
    ensures fault { IfErr result
        (λ e. (x : g.Grammar) → StandsFor x begun.entry [] → IsFaultOf text.now e) }
{
    let mut stream = begun;
    for piece in text.chunks(size as usize) {
        stream.feed(piece)?;
    }
    stream.finish()
}
