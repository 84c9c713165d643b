// The elements of XSLT (XSLT 1.0, 2.1 and the element syntax summary).
ghost use Rattle.std.specs.Prelude.{◌≡◌, ◌≢◌, MatchBool, map, option_map, bytes_eq};
ghost use Rattle.std.specs.List.{list_any};
ghost use Rattle.tc_model.specs.Views as see;
ghost use Rattle.tc_model.specs.SheetTextPhrases as phrases;
ghost use Rattle.tc_model.specs.SheetTextPhrases.{xsl_uri, IsXsl};
ghost use Rattle.tc_sheet.specs.Constructs as constructs;
ghost use Rattle.tc_sheet.specs.Readings.{IsMisplaced};
ghost use Rattle.tc_sheet.specs.Views.{instruction};

use crate::faults::SheetFault;
use tc_base::Why;
use tc_model::{Name, RawElem};

/// The namespace of XSLT (XSLT 1.0, 2.1).
pub(crate) const XSL: &str = "http://www.w3.org/1999/XSL/Transform";

/// An instruction that is read.
#[derive(Clone, Copy)]
pub(crate) enum Instruction {
    ApplyTemplates,
    CallTemplate,
    ValueOf,
    ForEach,
    If,
    Choose,
    Text,
    Copy,
    Element,
    Attribute,
    CopyOf,
}

/// Whether a name is in the namespace of XSLT.
pub(crate) fn is_xslt(name: &Name<'_>) -> bool
    ensures { MatchBool result ((see.name name.now).uri ≡ xsl_uri)
        ((see.name name.now).uri ≢ xsl_uri) }
{
    name.uri == XSL
}

/// Whether a name is this one of the namespace of XSLT.
pub(crate) fn is_xsl(name: &Name<'_>, local: &str) -> bool
    ensures { MatchBool result (IsXsl local.now (see.name name.now))
        (IsXsl local.now (see.name name.now) → ⊥) }
{
    name.uri == XSL && name.local == local
}

/// The instruction of this local name.
fn instruction_in(local: &str) -> Option<Instruction>
    ensures { option_map instruction result
        ≡ phrases.instruction_in phrases.instructions local.now }
{
    match local {
        "apply-templates" => Some(Instruction::ApplyTemplates),
        "call-template" => Some(Instruction::CallTemplate),
        "value-of" => Some(Instruction::ValueOf),
        "for-each" => Some(Instruction::ForEach),
        "if" => Some(Instruction::If),
        "choose" => Some(Instruction::Choose),
        "text" => Some(Instruction::Text),
        "copy" => Some(Instruction::Copy),
        "element" => Some(Instruction::Element),
        "attribute" => Some(Instruction::Attribute),
        "copy-of" => Some(Instruction::CopyOf),
        _ => None,
    }
}

/// The instruction of an element's name.
pub(crate) fn instruction_of(name: &Name<'_>) -> Option<Instruction>
    ensures { option_map instruction result ≡ phrases.instruction_of (see.name name.now) }
{
    if is_xslt(name) {
        instruction_in(name.local)
    } else {
        None
    }
}

/// The reason of an XSLT element that is not supported.
fn reason_of(local: &str) -> Option<Why>
    ensures { result ≡ constructs.reason_in constructs.reasons local.now }
{
    match local {
        "variable" => Some(Why::XslVariable),
        "param" => Some(Why::XslParam),
        "with-param" => Some(Why::XslWithParam),
        "import" => Some(Why::XslImport),
        "include" => Some(Why::XslInclude),
        "sort" => Some(Why::XslSort),
        "number" => Some(Why::XslNumber),
        "key" => Some(Why::XslKey),
        "message" => Some(Why::XslMessage),
        "comment" => Some(Why::XslComment),
        "processing-instruction" => Some(Why::XslProcessingInstruction),
        "apply-imports" => Some(Why::XslApplyImports),
        "attribute-set" => Some(Why::XslAttributeSet),
        "namespace-alias" => Some(Why::XslNamespaceAlias),
        "decimal-format" => Some(Why::XslDecimalFormat),
        "fallback" => Some(Why::XslFallback),
        "preserve-space" => Some(Why::XslPreserveSpace),
        _ => None,
    }
}

/// Whether this is among these words.
pub(crate) fn is_among(word: &str, words: &[&str]) -> bool
    ensures { result ≡ list_any (bytes_eq word.now) (map (λ w. w.now) words.now) }
{
    for other in words {
        if word == *other {
            return true;
        }
    }
    false
}

/// Whether an XSLT element of this local name is read where it may stand, but is no instruction.
fn is_part(local: &str) -> bool
    ensures { result ≡ list_any (bytes_eq local.now) constructs.parts }
{
    is_among(
        local,
        &[
            "stylesheet",
            "transform",
            "template",
            "output",
            "strip-space",
            "when",
            "otherwise",
        ],
    )
}

/// The refusal of an element that must not stand where it stands.
pub(crate) fn misplaced(element: &RawElem<'_>) -> SheetFault
    ensures { IsMisplaced element.now result }
{
    if !is_xslt(&element.name) {
        return SheetFault::Malformed(element.place);
    }
    let local = element.name.local;
    if let Some(why) = reason_of(local) {
        return SheetFault::Unsupported(element.place, why);
    }
    if is_part(local) || instruction_in(local).is_some() {
        return SheetFault::Malformed(element.place);
    }
    SheetFault::Unsupported(element.place, Why::UnknownXslt)
}
