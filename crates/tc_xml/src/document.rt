// A whole document (XML 1.0, 2.1 and 2.8).
ghost use Rattle.std.specs.Prelude.{◌≡◌, ◌≤◌, ℕ, List, true, false, length, IfOk, IfErr};
ghost use Rattle.tc_base.specs.declared.limits.TheConstants.{LONGEST_FILE};
ghost use Rattle.tc_model.specs.Names.{IsChars};
ghost use Rattle.tc_model.specs.RawTrees.{RawTrees};
ghost use Rattle.tc_model.specs.Views.{raw_tree};
ghost use Rattle.tc_model.specs.XmlText as xml;
ghost use Rattle.tc_model.specs.XmlTextMisc as misc;
ghost use Rattle.tc_model.specs.XmlTextRefusals.{Cause, unsupported, DocumentRefuses};
ghost use Rattle.tc_xml.specs.Refusals.{Refuses, RefusesWithin, UnsupportedAt, RefusedAt, OnMalformed};

use crate::content::root_element;
use crate::faults::Stop;
use crate::misc::{after_declaration, after_doctype, after_misc};
use bumpalo::Bump;
use tc_base::limits::DEEPEST_NESTING;
use tc_model::Raw;
use tc_scan::after_mark;

/// What follows a byte order mark, if there is one (XML 1.0, 4.3.3).
pub(crate) fn past_mark(text: &str) -> &str
    ensures { result.now ≡ xml.after_mark text.now }
{
    match after_mark(text, "\u{FEFF}") {
        Some(start) => start,
        None => text,
    }
}

/// What stands from the root element of a document on (XML 1.0, 2.1).
pub(crate) fn before_root(text: &str) -> Result<&str, Stop>
    ensures ok { IfOk result
        (λ root. (d m : List ℕ) × misc.DeclarationAt (xml.after_mark text.now) d × misc.MiscAt d m
        × misc.DoctypeAt m root.now) }
    ensures no { IfErr result (λ e. Refuses e
        ((d m root : List ℕ) → misc.DeclarationAt (xml.after_mark text.now) d → misc.MiscAt d m
        → misc.DoctypeAt m root → ⊥)
        ((d m root : List ℕ) → misc.DeclarationAt (xml.after_mark text.now) d → misc.MiscAt d m
        → misc.DoctypeAt m root → ⊥)) }
    ensures stands { IfErr result
        (λ e. UnsupportedAt e
        (λ why at. DocumentRefuses xml.deepest_element text.now (unsupported why) at)) }
    ensures malformed { IfErr result
        (λ e. OnMalformed e
        ((cause : Cause) (at : List ℕ) → DocumentRefuses xml.deepest_element text.now cause at
        → ⊥)) }
{
    let start = past_mark(text);
    let past_declaration = after_declaration(start)?;
    let past_misc = after_misc(past_declaration)?;
    after_doctype(past_misc)
}

/// The root element of a document of characters of XML (XML 1.0, 2.1).
pub(crate) fn document<'b>(arena: &'b Bump, text: &str) -> Result<Raw<'b>, Stop>
    requires total { length text.now ≤ LONGEST_FILE }
    requires characters { IsChars text.now }
    ensures ok { IfOk result (λ r. xml.XmlText text.now (raw_tree r)) }
    ensures no { IfErr result (λ e. RefusesWithin e
        ((d : ℕ) (h : RawTrees) → xml.Reads true d text.now h → ⊥)
        ((d : ℕ) (h : RawTrees) → xml.Reads false d text.now h → ⊥)
        ((h : RawTrees) → xml.Reads true xml.deepest_element text.now h → ⊥)) }
    ensures stands { IfErr result
        (λ e. RefusedAt e (DocumentRefuses xml.deepest_element text.now)) }
    ensures malformed { IfErr result
        (λ e. OnMalformed e
        ((cause : Cause) (at : List ℕ) → DocumentRefuses xml.deepest_element text.now cause at
        → ⊥)) }
{
    let root = before_root(text)?;
    let (tree, rest) = root_element(arena, text.len(), root, DEEPEST_NESTING)?;
    let end = after_misc(rest)?;
    if end.is_empty() {
        Ok(tree)
    } else {
        Err(Stop::Malformed(end.len()))
    }
}
