// The texts of schemas, by the words that name them.
ghost use Rattle.tc_top.specs.SchemaTexts.{IsTextOf};

use tc_answer::{Operand, schema_root};
use tc_decide::SchemaText;

/// The text of an operand: in RELAX NG's compact syntax, or declarations of elements where its word says so.
pub fn schema_text<'t>(operand: &'t Operand<'_>) -> SchemaText<'t>
    ensures { IsTextOf operand.now.name.now operand.now.text.items result }
{
    match schema_root(operand.name) {
        Some(root) => SchemaText::Declarations(root, &operand.text),
        None => SchemaText::Compact(&operand.text),
    }
}
