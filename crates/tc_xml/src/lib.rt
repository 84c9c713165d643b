//! Reads XML documents, exactly (XML 1.0, Fifth Edition; Namespaces in XML 1.0).
#![tactic(auto)]

ghost use Rattle.std.specs.Prelude.{◌≤◌, length, IfOk, IfErr};
ghost use Rattle.tc_base.specs.declared.limits.TheConstants.{LONGEST_FILE};
ghost use Rattle.tc_model.specs.RawTrees.{IsOneElement};
ghost use Rattle.tc_model.specs.Views.{raw_tree};
ghost use Rattle.tc_model.specs.Stripped.{stripped};
ghost use Rattle.tc_model.specs.Trees.{IsDocument};
ghost use Rattle.tc_model.specs.XmlText.{XmlText};
ghost use Rattle.tc_model.specs.XmlTextLaws.{AreLawfulWithin};
ghost use Rattle.tc_xml.specs.Faults.{IsFaultOf};

mod bindings;
mod building;
mod character_data;
mod content;
mod document;
mod documents;
mod faults;
mod levels;
mod misc;
mod plain_tags;
mod references;
mod scopes;
mod spelled;
mod stripping;
mod tags;
mod taking;

use bumpalo::Bump;
use document::document;
pub use documents::read_document;
pub use faults::XmlFault;
use faults::place_of;
pub use stripping::strip;
pub use taking::take_document;
use tc_model::Raw;
use tc_scan::characters;

/// The raw tree of a text, which is always an element (XML 1.0, 2.1). Its names, texts and namespace names are
/// lawful, no place in it is past the text's length, and stripped it is a document. Takes at most 64 MiB of text.
///
/// # Errors
///
/// The first place at which reading stops decides; what stands behind it isn't looked at, whatever bytes it is.
/// Unsupported at a construct that isn't read, where the text before it is well-formed. TooDeep at the `<` of an
/// element within 2,000 others. Otherwise Malformed. NoMemory where memory is refused.
pub fn read_raw<'b>(arena: &'b Bump, text: &[u8]) -> Result<Raw<'b>, XmlFault>
    requires { length text.now ≤ LONGEST_FILE }
    ensures ok { IfOk result (λ r. XmlText text.now (raw_tree r)) }
    ensures element { IfOk result (λ r. IsOneElement (raw_tree r)) }
    ensures lawful { IfOk result (λ r. AreLawfulWithin (length text.now) (raw_tree r)) }
    ensures document { IfOk result (λ r. IsDocument (stripped (raw_tree r))) }
    ensures refused { IfErr result (IsFaultOf text.now) }
{
    let front = characters(text);
    match document(arena, front) {
        Ok(tree) => {
            if front.len() == text.len() {
                Ok(tree)
            } else {
                Err(XmlFault::Malformed(place_of(front.len(), 0)))
            }
        }
        Err(stop) => Err(stop.fault(front.len())),
    }
}
