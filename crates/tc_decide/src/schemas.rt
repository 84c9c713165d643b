// The texts of schemas.
ghost use Rattle.std.specs.Prelude.{◌≤◌, List, ℕ, IfOk, IfErr, length};
ghost use Rattle.tc_base.specs.Reading.{longest_text};
ghost use Rattle.tc_decide.specs.Texts.{IsRefused, IsRefusedDtd, IsSchemaOf, IsSchemaOfDtd, IsShort};
ghost use Rattle.tc_dtd.specs.Declarations.{AreDeclarations};
ghost use Rattle.tc_dtd.specs.DtdText.{DtdText};
ghost use Rattle.tc_dtd.specs.Faults.{IsFaultOf};
ghost use Rattle.tc_dtd.specs.Views as see;
ghost use Rattle.tc_read.specs.Faults.{IsUnaccepted};

use bumpalo::Bump;
use tc_base::Limit;
use tc_base::limits::{GREATEST_PATTERN_DEPTH, MOST_ELEMENT_PATTERNS, MOST_PATTERN_NODES};
use tc_dtd::{Dtd, DtdFault, DtdGrammarFault, grammar, read_dtd};
use tc_read::{Reason, Schema, TextFault};

/// The text of a schema.
#[derive(Clone, Copy)]
pub enum SchemaText<'t> {
    /// In RELAX NG's compact syntax.
    Compact(&'t [u8]),
    /// Declarations of elements (XML 1.0, 3.2), with the name of the document's element. With a name that isn't declared,
    /// or can't be, no document is valid.
    Declarations(&'t str, &'t [u8]),
}

/// The schema of a text. A limit that its size passes isn't told before all texts were read.
pub(crate) fn read_schema<'b>(
    arena: &'b Bump,
    text: SchemaText<'_>,
) -> Result<Schema<'b>, TextFault>
    requires { IsShort text }
    ensures ok { IfOk result (IsSchemaOf text.entry) }
    ensures no { IfErr result (IsUnaccepted (IsRefused text.entry)) }
{
    match text {
        SchemaText::Compact(bytes) => tc_read::read_schema(arena, bytes),
        SchemaText::Declarations(root, bytes) => read_declarations(arena, bytes, root),
    }
}
/// The schema of declarations of elements, with `root` as the document's element.
fn read_declarations<'b>(arena: &'b Bump, text: &[u8], root: &str) -> Result<Schema<'b>, TextFault>
    requires { length text.now ≤ longest_text }
    ensures ok { IfOk result (IsSchemaOfDtd root.now text.now) }
    ensures no { IfErr result (IsUnaccepted (IsRefusedDtd text.now)) }
{
    match read_dtd(arena, text) {
        Ok(dtd) => schema_of_dtd(arena, &dtd, root),
        Err(fault) => Err(text_fault(fault)),
    }
}

/// The schema of a document type definition. A limit that it passes isn't told before all texts were read.
fn schema_of_dtd<'b>(arena: &'b Bump, dtd: &Dtd<'b>, root: &str) -> Result<Schema<'b>, TextFault>
    requires { AreDeclarations (see.declarations dtd.now) }
    ensures ok { IfOk result (λ schema. (bytes : List ℕ) → DtdText bytes (see.declarations dtd.now)
        → IsSchemaOfDtd root.now bytes schema) }
    ensures no { IfErr result (λ e. (bytes : List ℕ) → IsUnaccepted (IsRefusedDtd bytes) e) }
{
    match grammar(arena, dtd, root) {
        Ok(grammar) => Ok(Schema::Small(grammar)),
        Err(DtdGrammarFault::TooManyNodes) => {
            Ok(Schema::TooLarge(Limit::Pattern, MOST_PATTERN_NODES))
        }
        Err(DtdGrammarFault::TooNested) => {
            Ok(Schema::TooLarge(Limit::Depth, GREATEST_PATTERN_DEPTH))
        }
        Err(DtdGrammarFault::TooManyElements) => {
            Ok(Schema::TooLarge(Limit::Elements, MOST_ELEMENT_PATTERNS))
        }
        Err(DtdGrammarFault::NoMemory) => Err(TextFault::NoMemory),
    }
}

/// Why a text isn't read as a document type definition.
fn text_fault(fault: DtdFault) -> TextFault
    ensures { (bytes : List ℕ) → IsFaultOf bytes fault → IsUnaccepted (IsRefusedDtd bytes) result }
{
    match fault {
        DtdFault::Malformed(place) => TextFault::Refused(Reason::Malformed, place),
        DtdFault::Unsupported(place, why) => TextFault::Refused(Reason::Unsupported(why), place),
        DtdFault::TooDeep(place) => TextFault::Refused(Reason::TooDeep, place),
        DtdFault::Twice(place) => TextFault::Refused(Reason::Twice, place),
        DtdFault::NoMemory => TextFault::NoMemory,
    }
}
