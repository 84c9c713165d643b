// Schemas, read and simplified.
ghost use Rattle.std.specs.Prelude.{◌≤◌, length, IfOk, IfErr, List, ℕ};
ghost use Rattle.tc_base.specs.Reading.{longest_text};
ghost use Rattle.tc_model.specs.CompactSyntax.{CompactSyntax};
ghost use Rattle.tc_model.specs.CompactSyntaxTrees as t;
ghost use Rattle.tc_read.specs.Faults.{IsUnaccepted};
ghost use Rattle.tc_read.specs.Refusals.{IsRefusedSchema};
ghost use Rattle.tc_read.specs.SchemaLaws.{HasGrammarOrReason, HasNoGrammar, HasOneReason};
ghost use Rattle.tc_read.specs.Schemas.{IsSchemaOf};
ghost use Rattle.tc_simple.specs.Refused as simple;

use crate::faults::{Reason, TextFault};
use bumpalo::Bump;
use tc_base::Limit;
use tc_base::limits::{GREATEST_PATTERN_DEPTH, MOST_ELEMENT_PATTERNS, MOST_PATTERN_NODES};
use tc_model::Grammar;
use tc_rnc::read_rnc;
use tc_simple::{SimpleFault, simplify};

/// A schema without a fault.
#[derive(Clone, Copy)]
pub enum Schema<'b> {
    /// Its grammar passes none of the limits on its size.
    Small(Grammar<'b>),
    /// Its grammar passes this limit on its size, which has this number.
    TooLarge(Limit, u32),
}

/// The schema of a text in RELAX NG's compact syntax. A text isn't longer than a file may be.
pub fn read_schema<'b>(arena: &'b Bump, text: &[u8]) -> Result<Schema<'b>, TextFault>
    requires { length text.now ≤ longest_text }
    ensures ok { IfOk result (IsSchemaOf text.now) }
    ensures no { IfErr result (IsUnaccepted (IsRefusedSchema text.now)) }
{
    let syntax = read_rnc(arena, text)?;
    match simplify(arena, &syntax) {
        Ok(grammar) => Ok(Schema::Small(grammar)),
        Err(fault) => of_fault(fault),
    }
}

/// What a syntax tree is that has no grammar, or one that is too large.
fn of_fault<'b>(fault: SimpleFault) -> Result<Schema<'b>, TextFault>
    ensures ok { IfOk result (λ schema. (bytes : List ℕ) (s : t.Syntax) → CompactSyntax bytes s
        → simple.Refuses s fault → IsSchemaOf bytes schema) }
    ensures no { IfErr result (λ e. (bytes : List ℕ) (s : t.Syntax) → CompactSyntax bytes s
        → simple.Refuses s fault → IsUnaccepted (IsRefusedSchema bytes) e) }
{
    match fault {
        SimpleFault::Twice(place) => Err(TextFault::Refused(Reason::Twice, place)),
        SimpleFault::Undefined(place) => Err(TextFault::Refused(Reason::Undefined, place)),
        SimpleFault::Loop(place) => Err(TextFault::Refused(Reason::Loop, place)),
        SimpleFault::BadExcept(place) => Err(TextFault::Refused(Reason::BadExcept, place)),
        SimpleFault::BadStart(place) => Err(TextFault::Refused(Reason::BadStart, place)),
        SimpleFault::TooManyNodes => Ok(Schema::TooLarge(Limit::Pattern, MOST_PATTERN_NODES)),
        SimpleFault::TooNested => Ok(Schema::TooLarge(Limit::Depth, GREATEST_PATTERN_DEPTH)),
        SimpleFault::TooManyElements => {
            Ok(Schema::TooLarge(Limit::Elements, MOST_ELEMENT_PATTERNS))
        }
        SimpleFault::NoMemory => Err(TextFault::NoMemory),
    }
}

/// Laws of the texts of schemas: each has a grammar or is refused, not both, and for one reason, at one place.
pub fn law_of_schemas()
    ensures one { HasOneReason }
    ensures none { HasNoGrammar }
    ensures some { HasGrammarOrReason }
{}
