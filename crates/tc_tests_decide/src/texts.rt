// The texts that calls are asked about, and what is shown.
ghost use Rattle.std.specs.Prelude.{◌≤◌, IfSome, length};
ghost use Rattle.tc_base.specs.Reading.{longest_text};
ghost use Rattle.tc_decide.specs.Texts.{IsShort};

use std::alloc::{AllocError, Global};
use tc_decide::SchemaText;
use tc_io::MemSink;
use tc_model::Node;
use tc_print::print;

/// The longest text that is tried.
const LONGEST: usize = 1_000_000;

/// The bytes of a text, unless it is too long.
pub(crate) fn bytes_of(text: &str) -> Option<&[u8]>
    ensures { IfSome result (λ bytes. length bytes.now ≤ longest_text) }
{
    let bytes = text.as_bytes();
    if bytes.len() > LONGEST {
        return None;
    }
    Some(bytes)
}

/// A schema in the compact syntax.
pub(crate) fn compact(text: &str) -> Option<SchemaText<'_>>
    ensures { IfSome result IsShort }
{
    let bytes = bytes_of(text)?;
    Some(SchemaText::Compact(bytes))
}

/// Declarations of elements.
pub(crate) fn declared<'t>(root: &'t str, text: &'t str) -> Option<SchemaText<'t>>
    ensures { IfSome result IsShort }
{
    let bytes = bytes_of(text)?;
    Some(SchemaText::Declarations(root, bytes))
}

/// A stylesheet with these rules.
pub(crate) fn sheet_of(alloc: Global, rules: &str) -> Result<String, AllocError> {
    let mut text = String::new(alloc);
    text.push_str(
        "<xsl:stylesheet version=\"1.0\" xmlns:xsl=\"http://www.w3.org/1999/XSL/Transform\">",
    )?;
    text.push_str(rules)?;
    text.push_str("</xsl:stylesheet>")?;
    Ok(text)
}

/// Whether this is the text of trees.
pub(crate) fn prints(alloc: Global, nodes: &[Node<'_>], text: &str) -> bool {
    let Ok(mut sink) = MemSink::new(alloc, 10_000) else {
        return false;
    };
    print(nodes, &mut sink).is_ok() && sink.bytes() == text.as_bytes()
}
