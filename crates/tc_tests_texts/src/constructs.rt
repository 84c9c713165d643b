//! Elements of XSLT that are not read, with their reasons, and attributes of those that are (XSLT 1.0).

use tc_base::{Place, Why};
use tc_sheet::SheetFault;

/// The elements that are not supported, with their reasons.
pub(crate) static UNSUPPORTED: [(&str, Why); 18] = [
    ("variable", Why::XslVariable),
    ("param", Why::XslParam),
    ("with-param", Why::XslWithParam),
    ("import", Why::XslImport),
    ("include", Why::XslInclude),
    ("sort", Why::XslSort),
    ("number", Why::XslNumber),
    ("key", Why::XslKey),
    ("message", Why::XslMessage),
    ("comment", Why::XslComment),
    ("processing-instruction", Why::XslProcessingInstruction),
    ("apply-imports", Why::XslApplyImports),
    ("attribute-set", Why::XslAttributeSet),
    ("namespace-alias", Why::XslNamespaceAlias),
    ("decimal-format", Why::XslDecimalFormat),
    ("fallback", Why::XslFallback),
    ("preserve-space", Why::XslPreserveSpace),
    ("document", Why::UnknownXslt),
];

/// The place of an attribute.
pub(crate) const HERE: Place = Place(21);

const MALFORMED: Option<SheetFault> = Some(SheetFault::Malformed(HERE));

/// An instruction, its one attribute with its value, and the fault of it.
pub(crate) type Row<'r> = (&'r str, &'r str, &'r str, Option<SheetFault>);

/// Instructions with one attribute.
pub(crate) static INSTRUCTIONS: [Row<'static>; 23] = [
    // attributes that must not be there
    ("value-of", "version", "1.0", MALFORMED),
    (
        "text",
        "disable-output-escaping",
        "yes",
        Some(SheetFault::Unsupported(HERE, Why::DisableOutputEscaping)),
    ),
    (
        "copy",
        "use-attribute-sets",
        "a",
        Some(SheetFault::Unsupported(HERE, Why::UseAttributeSets)),
    ),
    ("copy", "select", "a", MALFORMED),
    (
        "element",
        "namespace",
        "a",
        Some(SheetFault::Unsupported(HERE, Why::ComputedName)),
    ),
    // attributes that are names
    ("element", "name", "a", None),
    (
        "element",
        "name",
        "a{b}",
        Some(SheetFault::Unsupported(HERE, Why::ComputedName)),
    ),
    ("element", "name", "q:a", MALFORMED),
    ("apply-templates", "mode", "xsl:m", None),
    ("apply-templates", "mode", "q:m", MALFORMED),
    (
        "call-template",
        "name",
        "a",
        Some(SheetFault::Undefined(Place(20))),
    ),
    // attributes of XPath
    ("value-of", "select", "a", None),
    ("value-of", "select", ".", None),
    (
        "value-of",
        "select",
        "@a",
        Some(SheetFault::Unsupported(HERE, Why::AttributeStep)),
    ),
    ("if", "test", "not(a)", None),
    (
        "if",
        "test",
        "a = b",
        Some(SheetFault::Unsupported(HERE, Why::Comparison)),
    ),
    (
        "for-each",
        "select",
        "a[1]",
        Some(SheetFault::Unsupported(HERE, Why::Arithmetic)),
    ),
    (
        "apply-templates",
        "select",
        ".",
        Some(SheetFault::Unsupported(HERE, Why::Dot)),
    ),
    ("copy-of", "select", "a/@b|.//@*", None),
    (
        "copy-of",
        "select",
        "@a|comment()",
        Some(SheetFault::Unsupported(HERE, Why::XslCopyOf)),
    ),
    (
        "copy-of",
        "select",
        "a",
        Some(SheetFault::Unsupported(HERE, Why::XslCopyOf)),
    ),
    ("copy-of", "select", "a)", MALFORMED),
    (
        "copy-of",
        "select",
        "a(",
        Some(SheetFault::Unsupported(HERE, Why::FunctionCall)),
    ),
];
