// The documents of texts.
// What reads in one pass may give up, and so may what takes the trees. Then the reader that tells each fault
// decides, so that the one in one pass promises only what it gives.
ghost use Rattle.std.specs.Prelude.{◌≡◌, ◌≤◌, length, IfOk, IfErr, IfSome};
ghost use Rattle.tc_base.specs.declared.limits.TheConstants.{LONGEST_FILE};
ghost use Rattle.tc_model.specs.RawTrees.{RawTrees};
ghost use Rattle.tc_model.specs.Stripped.{stripped};
ghost use Rattle.tc_model.specs.Trees.{none, IsDocument};
ghost use Rattle.tc_model.specs.Views.{before};
ghost use Rattle.tc_model.specs.XmlText.{XmlText};
ghost use Rattle.tc_xml.specs.Faults.{IsFaultOf};

use crate::building::TreeBuilder;
use crate::faults::XmlFault;
use crate::read_raw;
use crate::stripping::strip;
use crate::taking::take_document;
use bumpalo::Bump;
use tc_base::NoMemory;
use tc_model::Node;

/// The document of a text that holds nothing unusual.
fn plain_document<'b>(arena: &'b Bump, text: &'b [u8]) -> Option<Node<'b>>
    requires { length text.now ≤ LONGEST_FILE }
    ensures { IfSome result
        (λ n. (h : RawTrees) × XmlText text.now h × (before n none ≡ stripped h)) }
{
    let built = take_document(arena, text, TreeBuilder::new(arena))?;
    built.tree()
}

/// The document of a text: without attributes and in normal form, its texts and names lent from the text where
/// nothing in them changes. Takes at most 64 MiB of text.
///
/// # Errors
///
/// As `read_raw` refuses a text.
pub fn read_document<'b>(arena: &'b Bump, text: &'b [u8]) -> Result<Node<'b>, XmlFault>
    requires { length text.now ≤ LONGEST_FILE }
    ensures ok { IfOk result
        (λ n. (h : RawTrees) × XmlText text.now h × (before n none ≡ stripped h)) }
    ensures document { IfOk result (λ n. IsDocument (before n none)) }
    ensures refused { IfErr result (IsFaultOf text.now) }
{
    if let Some(document) = plain_document(arena, text) {
        return Ok(document);
    }
    let raw = match read_raw(arena, text) {
        Ok(raw) => raw,
        Err(fault) => return Err(fault),
    };
    match strip(arena, &raw) {
        Ok(document) => Ok(document),
        Err(NoMemory) => Err(XmlFault::NoMemory),
    }
}
