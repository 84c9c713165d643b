//! Why a text that has the form of its standard is refused all the same.

ghost use Rattle.std.specs.Prelude.{◌≡◌, ◌≤◌};
ghost use Rattle.tc_base.specs.declared.reasons.Why.{Why};
ghost use Rattle.tc_base.specs.Reasons.{number_of, word_of};

use crate::Place;

/// The construct for which a text is refused, by its number from 1 to 55.
///
/// 1 to 5 are constructs of a document, 6 to 17 of a schema in the compact syntax of RELAX NG
/// (ISO/IEC 19757-2, Annex C), 18 to 42 of a stylesheet, 43 to 52 of its paths, patterns and tests, and 53 to 55
/// of a document type definition. Each is named by its construct, those that are elements of XSLT with `Xsl` before.
#[derive(Clone, Copy, Debug, PartialEq, Eq)]
pub enum Why {
    /// `doctype-subset`: a document type declaration with an internal subset (XML 1.0, 2.8).
    DoctypeSubset = 1,
    /// `entity`: a reference to an entity other than `lt`, `gt`, `amp`, `apos` and `quot` (XML 1.0, 4.1).
    EntityReference = 2,
    /// `encoding`: an encoding other than UTF-8 and US-ASCII (XML 1.0, 4.3.3).
    Encoding = 3,
    /// `xml-space`: the attribute `xml:space` (XML 1.0, 2.10).
    XmlSpace = 4,
    /// `xml-version`: a version other than 1.0 (XML 1.0, 2.8).
    XmlVersion = 5,
    /// `data`: a datatype name, `string` or `token` as a pattern.
    DataPattern = 6,
    /// `value`: a literal as a pattern.
    ValuePattern = 7,
    /// `list`: a list pattern.
    ListPattern = 8,
    /// `external`: a pattern that stands in another file.
    ExternalPattern = 9,
    /// `include`: definitions that stand in another file.
    Include = 10,
    /// `grammar`: a grammar that is not the whole file.
    NestedGrammar = 11,
    /// `parent`: a reference to a definition of the grammar around this one.
    ParentReference = 12,
    /// `inherit`: a namespace that is inherited from the including file.
    InheritedNamespace = 13,
    /// `annotation`: an annotation, `[` or `>>`.
    Annotation = 14,
    /// `escape`: a character given by its code, `\x{`.
    Escape = 15,
    /// `triple-quote`: a literal in three quotes.
    TripleQuote = 16,
    /// `concatenation`: literals joined by `~`.
    Concatenation = 17,
    /// `variable`: `xsl:variable` (XSLT 1.0, 11).
    XslVariable = 18,
    /// `param`: `xsl:param` (XSLT 1.0, 11).
    XslParam = 19,
    /// `with-param`: `xsl:with-param` (XSLT 1.0, 11.6).
    XslWithParam = 20,
    /// `import`: `xsl:import` (XSLT 1.0, 2.6.2).
    XslImport = 21,
    /// `xsl-include`: `xsl:include` (XSLT 1.0, 2.6.1).
    XslInclude = 22,
    /// `sort`: `xsl:sort` (XSLT 1.0, 10).
    XslSort = 23,
    /// `number`: `xsl:number` (XSLT 1.0, 7.7).
    XslNumber = 24,
    /// `key`: `xsl:key` (XSLT 1.0, 12.2).
    XslKey = 25,
    /// `message`: `xsl:message` (XSLT 1.0, 13).
    XslMessage = 26,
    /// `comment`: `xsl:comment` (XSLT 1.0, 7.4).
    XslComment = 27,
    /// `processing-instruction`: `xsl:processing-instruction` (XSLT 1.0, 7.3).
    XslProcessingInstruction = 28,
    /// `apply-imports`: `xsl:apply-imports` (XSLT 1.0, 5.6).
    XslApplyImports = 29,
    /// `attribute-set`: `xsl:attribute-set` (XSLT 1.0, 7.1.4).
    XslAttributeSet = 30,
    /// `namespace-alias`: `xsl:namespace-alias` (XSLT 1.0, 7.1.1).
    XslNamespaceAlias = 31,
    /// `decimal-format`: `xsl:decimal-format` (XSLT 1.0, 12.3).
    XslDecimalFormat = 32,
    /// `fallback`: `xsl:fallback` (XSLT 1.0, 15).
    XslFallback = 33,
    /// `preserve-space`: `xsl:preserve-space` (XSLT 1.0, 3.4).
    XslPreserveSpace = 34,
    /// `extension`: the attribute `extension-element-prefixes` of the root (XSLT 1.0, 14.1).
    ExtensionElements = 35,
    /// `simplified`: a stylesheet that is one literal result element (XSLT 1.0, 2.3).
    SimplifiedStylesheet = 36,
    /// `disable-output-escaping`: the attribute `disable-output-escaping` (XSLT 1.0, 16.4).
    DisableOutputEscaping = 37,
    /// `computed-name`: a name of `xsl:element` with `{`, or its attribute `namespace` (XSLT 1.0, 7.1.2).
    ComputedName = 38,
    /// `copy-of`: `xsl:copy-of` of anything but attributes (XSLT 1.0, 11.3).
    XslCopyOf = 39,
    /// `use-attribute-sets`: the attribute `use-attribute-sets` (XSLT 1.0, 7.1.4).
    UseAttributeSets = 40,
    /// `version`: a version other than 1.0 (XSLT 1.0, 2.2).
    XsltVersion = 41,
    /// `unknown-xslt`: an unknown element or attribute of the XSLT namespace (XSLT 1.0, 2.1).
    UnknownXslt = 42,
    /// `axis`: an axis other than `child` and `attribute`, `..` too (XPath 1.0, 2.2).
    Axis = 43,
    /// `dot`: the node itself, `.`, as a step (XPath 1.0, 2.5).
    Dot = 44,
    /// `absolute`: a path from the root (XPath 1.0, 2).
    AbsolutePath = 45,
    /// `function`: a function (XPath 1.0, 3.2).
    FunctionCall = 46,
    /// `comparison`: a comparison (XPath 1.0, 3.4).
    Comparison = 47,
    /// `arithmetic`: a number or a calculation (XPath 1.0, 3.5).
    Arithmetic = 48,
    /// `predicate`: a predicate of an attribute step, of `comment()`, of `processing-instruction()` or of `.`
    /// (XPath 1.0, 2.4).
    Predicate = 49,
    /// `attribute`: an attribute in a test or a value (XPath 1.0, 2.2).
    AttributeStep = 50,
    /// `variable-reference`: a reference to a variable (XPath 1.0, 3.1).
    VariableReference = 51,
    /// `string`: a string literal (XPath 1.0, 3.7).
    StringLiteral = 52,
    /// `parameter-entity`: a `%`, which declares or refers to a parameter entity (XML 1.0, 2.8 and 4.2).
    ParameterEntity = 53,
    /// `conditional-section`: a section that is included or ignored, `<![` (XML 1.0, 3.4).
    ConditionalSection = 54,
    /// `qualified-name`: a name of an element with a colon (Namespaces in XML 1.0, 4).
    QualifiedElementName = 55,
}

impl Why {
    /// The number of the reason, from 1 to 55. No two reasons have one number.
    pub fn number(self) -> u32
        ensures number { result ≡ number_of self }
        ensures least { 1 ≤ result }
        ensures most { result ≤ 55 }
        ensures unique { (other : Why) → number_of other ≡ result → other ≡ self }
    {
        self as u32
    }

    /// The word of the reason, in lower-case ASCII letters and hyphens. No two reasons have one word.
    pub fn word(self) -> &'static str
        ensures word { result.now ≡ word_of self }
        ensures unique { (other : Why) → word_of other ≡ result.now → other ≡ self }
    {
        match self {
            Why::DoctypeSubset => "doctype-subset",
            Why::EntityReference => "entity",
            Why::Encoding => "encoding",
            Why::XmlSpace => "xml-space",
            Why::XmlVersion => "xml-version",
            Why::DataPattern => "data",
            Why::ValuePattern => "value",
            Why::ListPattern => "list",
            Why::ExternalPattern => "external",
            Why::Include => "include",
            Why::NestedGrammar => "grammar",
            Why::ParentReference => "parent",
            Why::InheritedNamespace => "inherit",
            Why::Annotation => "annotation",
            Why::Escape => "escape",
            Why::TripleQuote => "triple-quote",
            Why::Concatenation => "concatenation",
            Why::XslVariable => "variable",
            Why::XslParam => "param",
            Why::XslWithParam => "with-param",
            Why::XslImport => "import",
            Why::XslInclude => "xsl-include",
            Why::XslSort => "sort",
            Why::XslNumber => "number",
            Why::XslKey => "key",
            Why::XslMessage => "message",
            Why::XslComment => "comment",
            Why::XslProcessingInstruction => "processing-instruction",
            Why::XslApplyImports => "apply-imports",
            Why::XslAttributeSet => "attribute-set",
            Why::XslNamespaceAlias => "namespace-alias",
            Why::XslDecimalFormat => "decimal-format",
            Why::XslFallback => "fallback",
            Why::XslPreserveSpace => "preserve-space",
            Why::ExtensionElements => "extension",
            Why::SimplifiedStylesheet => "simplified",
            Why::DisableOutputEscaping => "disable-output-escaping",
            Why::ComputedName => "computed-name",
            Why::XslCopyOf => "copy-of",
            Why::UseAttributeSets => "use-attribute-sets",
            Why::XsltVersion => "version",
            Why::UnknownXslt => "unknown-xslt",
            Why::Axis => "axis",
            Why::Dot => "dot",
            Why::AbsolutePath => "absolute",
            Why::FunctionCall => "function",
            Why::Comparison => "comparison",
            Why::Arithmetic => "arithmetic",
            Why::Predicate => "predicate",
            Why::AttributeStep => "attribute",
            Why::VariableReference => "variable-reference",
            Why::StringLiteral => "string",
            Why::ParameterEntity => "parameter-entity",
            Why::ConditionalSection => "conditional-section",
            Why::QualifiedElementName => "qualified-name",
        }
    }
}

/// A construct that is refused, and where it stands.
#[derive(Clone, Copy, Debug, PartialEq, Eq)]
pub struct Refusal {
    /// The first byte of the construct.
    pub place: Place,
    /// Which construct it is.
    pub why: Why,
}
