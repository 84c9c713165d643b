// Documents, read.
ghost use Rattle.std.specs.Prelude.{◌≤◌, length, IfOk, IfErr};
ghost use Rattle.tc_base.specs.Reading.{longest_text};
ghost use Rattle.tc_model.specs.Views.{before};
ghost use Rattle.tc_model.specs.Trees.{none, IsDocument};
ghost use Rattle.tc_print.specs.ReadBack.{IsReadAs};
ghost use Rattle.tc_read.specs.DocumentLaws.{HasDocumentOrReason, HasNoDocument};
ghost use Rattle.tc_read.specs.Faults.{IsUnaccepted};
ghost use Rattle.tc_read.specs.Refusals.{IsRefusedDocument};

use crate::faults::TextFault;
use bumpalo::Bump;
use tc_model::Node;

/// The document of an XML text (XML 1.0; Namespaces in XML 1.0), without what stylesheets and schemas don't see. A text
/// isn't longer than a file may be. It is copied once, and names and texts that need no change are lent from the copy.
pub fn read_document<'b>(arena: &'b Bump, text: &[u8]) -> Result<Node<'b>, TextFault>
    requires { length text.now ≤ longest_text }
    ensures ok { IfOk result (λ document. IsReadAs text.now (before document none)) }
    ensures document { IfOk result (λ document. IsDocument (before document none)) }
    ensures no { IfErr result (IsUnaccepted (IsRefusedDocument text.now)) }
{
    let Ok(kept) = arena.try_alloc_slice_copy(text) else {
        return Err(TextFault::NoMemory);
    };
    let document = tc_xml::read_document(arena, kept)?;
    Ok(document)
}

/// Laws of the texts of documents: each has a document or is refused, and not both.
pub fn law_of_documents()
    ensures none { HasNoDocument }
    ensures some { HasDocumentOrReason }
{}
