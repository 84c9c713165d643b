// The attributes of XSLT elements and of literal ones (XSLT 1.0, 2.1, 7.1.1).
ghost use Rattle.std.specs.Prelude.{◌≡◌, ◌≢◌, ◌&&◌, ◌||◌, not, ℕ, [], None, Some, List, All, Contains, IsTrue, IsFalse, MatchBool, MatchOption, IfSome, IfNone, IfOk, IfErr, OnOk, bytes_eq, codes, map, option_map};
ghost use Rattle.std.specs.List.{list_any};
ghost use Rattle.tc_model.specs.Names.{ExpandedName};
ghost use Rattle.tc_model.specs.PathText as texts;
ghost use Rattle.tc_model.specs.PathTextPriority.{PriorityText};
ghost use Rattle.tc_model.specs.RawTrees.{Attribute};
ghost use Rattle.tc_model.specs.Views as see;
ghost use Rattle.tc_model.specs.SheetTextPhrases as phrases;
ghost use Rattle.tc_model.specs.SheetTextPhrases.{xsl_uri, IsXsl};
ghost use Rattle.tc_model.specs.Sheets as sheets;
ghost use Rattle.tc_model.specs.XmlTextNames as names;
ghost use Rattle.tc_model.specs.XmlTextScopes.{is_empty, uri_of};
ghost use Rattle.tc_path.specs.Views.{alternative};
ghost use Rattle.tc_scan.specs.Views.{written_name};
ghost use Rattle.tc_sheet.specs.Changes.{exchanged};
ghost use Rattle.tc_sheet.specs.Constructs.{IsRoot, MustHave, IsWeighed, AreWeighedAmong, IsNeverRefused, plain};
ghost use Rattle.tc_sheet.specs.Constructs as forms;
ghost use Rattle.tc_sheet.specs.OneAttribute.{IsOfLiteral, IsOfXslt};
ghost use Rattle.tc_sheet.specs.Readings.{Refuses, IsFaultOf, IsAttribute, HasAttributesText, HasNoAttributes, HasNoOptional, HasNoRequired, alone, attributes_of, scope_of};

use crate::elements::{XSL, is_among, is_xsl};
use crate::faults::{SheetFault, fault_at};
use bumpalo::Bump;
use tc_base::Why;
use tc_model::{Alt, Binding, Instr, Name, Path, RawAttr, RawElem, Test};
use tc_path::{
    read_pattern, read_priority, read_select, read_test, read_value, selects_attributes,
};
use tc_scan::{QualifiedName, qname};

/// Whether an attribute has this local name and no namespace.
fn has_plain_name(attribute: &RawAttr<'_>, local: &str) -> bool
    ensures { result
        ≡ (is_empty (see.attribute attribute.now).name.uri
        && bytes_eq (see.attribute attribute.now).name.local local.now) }
{
    attribute.name.uri.is_empty() && attribute.name.local == local
}

/// The attribute of this local name that has no namespace, if there is one.
pub(crate) fn attribute_of<'e, 'b>(element: &'e RawElem<'b>, local: &str) -> Option<&'e RawAttr<'b>>
    ensures { MatchOption result (phrases.value_of local.now (attributes_of element.now) ≡ None)
        (λ a. IsAttribute element.now local.now a.now) }
{
    for attribute in element.attrs {
        if has_plain_name(attribute, local) {
            return Some(attribute);
        }
    }
    None
}

/// The refusal of an attribute that an XSLT element must not have.
fn unexpected(element: &RawElem<'_>, attribute: &RawAttr<'_>) -> SheetFault
    requires own { IsOfXslt element.now attribute.now }
    requires plain { IsTrue (is_empty (see.attribute attribute.now).name.uri) }
    requires unweighed { IsWeighed (see.name element.now.name) (see.attribute attribute.now).name
        → ⊥ }
    ensures { IsFaultOf result (alone element.now) }
{
    let place = attribute.place;
    let local = attribute.name.local;
    if local == "disable-output-escaping" {
        SheetFault::Unsupported(place, Why::DisableOutputEscaping)
    } else if local == "use-attribute-sets" {
        SheetFault::Unsupported(place, Why::UseAttributeSets)
    } else if local == "namespace" && is_xsl(&element.name, "element") {
        SheetFault::Unsupported(place, Why::ComputedName)
    } else if local == "extension-element-prefixes" && is_root(&element.name) {
        SheetFault::Unsupported(place, Why::ExtensionElements)
    } else {
        SheetFault::Malformed(place)
    }
}

/// Whether a name is one of those of the root (XSLT 1.0, 2.2).
pub(crate) fn is_root(name: &Name<'_>) -> bool
    ensures { MatchBool result (IsRoot (see.name name.now)) (IsRoot (see.name name.now) → ⊥) }
{
    is_xsl(name, "stylesheet") || is_xsl(name, "transform")
}

/// Whether an attribute of an XSLT element has a namespace or is of one of these names.
fn is_expected(attribute: &RawAttr<'_>, locals: &[&str]) -> bool
    ensures { result
        ≡ (not (is_empty (see.attribute attribute.now).name.uri)
        || list_any (bytes_eq (see.attribute attribute.now).name.local)
        (map (λ w. w.now) locals.now)) }
{
    !attribute.name.uri.is_empty() || is_among(attribute.name.local, locals)
}

/// Checks that an attribute of an XSLT element has a namespace or is of one of these names.
fn check_attribute(
    element: &RawElem<'_>,
    attribute: &RawAttr<'_>,
    locals: &[&str],
) -> Result<(), SheetFault>
    requires own { IsOfXslt element.now attribute.now }
    requires weighed { AreWeighedAmong (map (λ w. w.now) locals.now) (see.name element.now.name) }
    ensures ok { OnOk result
        (IsTrue
        (not (is_empty (see.attribute attribute.now).name.uri)
        || list_any (bytes_eq (see.attribute attribute.now).name.local)
        (map (λ w. w.now) locals.now))) }
    ensures no { IfErr result
        (λ e. Refuses e (alone element.now)
        (HasNoAttributes element.now (phrases.HasOnly (map (λ w. w.now) locals.now)))) }
{
    if is_expected(attribute, locals) {
        Ok(())
    } else {
        Err(unexpected(element, attribute))
    }
}

/// Checks that the attributes without a namespace of an XSLT element are of these names.
pub(crate) fn only_attributes(element: &RawElem<'_>, locals: &[&str]) -> Result<(), SheetFault>
    requires xslt { (see.name element.now.name).uri ≡ xsl_uri }
    requires weighed { AreWeighedAmong (map (λ w. w.now) locals.now) (see.name element.now.name) }
    ensures ok { OnOk result
        (phrases.HasOnly (map (λ w. w.now) locals.now) (attributes_of element.now)) }
    ensures no { IfErr result
        (λ e. Refuses e (alone element.now)
        (HasNoAttributes element.now (phrases.HasOnly (map (λ w. w.now) locals.now)))) }
{
    for attribute in element.attrs {
        check_attribute(element, attribute, locals)?;
    }
    Ok(())
}

/// Whether an attribute of a literal element has another namespace than that of XSLT, or is
/// `exclude-result-prefixes` (XSLT 1.0, 7.1.1).
fn is_passed_over(attribute: &RawAttr<'_>) -> bool
    ensures { result
        ≡ (not (bytes_eq (see.attribute attribute.now).name.uri xsl_uri)
        || bytes_eq (see.attribute attribute.now).name.local (codes "exclude-result-prefixes")) }
{
    attribute.name.uri != XSL || attribute.name.local == "exclude-result-prefixes"
}

/// The refusal of an attribute that a literal element must not have.
fn unexpected_in_literal(element: &RawElem<'_>, attribute: &RawAttr<'_>) -> SheetFault
    requires own { IsOfLiteral element.now attribute.now }
    requires xslt { (see.attribute attribute.now).name.uri ≡ xsl_uri }
    requires other { (see.attribute attribute.now).name.local ≢ codes "exclude-result-prefixes" }
    ensures { IsFaultOf result (alone element.now) }
{
    if attribute.name.local == "use-attribute-sets" {
        SheetFault::Unsupported(attribute.place, Why::UseAttributeSets)
    } else {
        SheetFault::Unsupported(attribute.place, Why::UnknownXslt)
    }
}

/// Checks that an attribute of a literal element may stand there.
fn check_literal_attribute(element: &RawElem<'_>, attribute: &RawAttr<'_>) -> Result<(), SheetFault>
    requires { IsOfLiteral element.now attribute.now }
    ensures ok { OnOk result
        (IsTrue (not (bytes_eq (see.attribute attribute.now).name.uri xsl_uri)
        || bytes_eq (see.attribute attribute.now).name.local (codes "exclude-result-prefixes"))) }
    ensures no { IfErr result
        (λ e. Refuses e (alone element.now) (HasNoAttributes element.now phrases.AreLiteral)) }
{
    if is_passed_over(attribute) {
        Ok(())
    } else {
        Err(unexpected_in_literal(element, attribute))
    }
}

/// Checks the attributes of a literal element: in the namespace of XSLT it has `exclude-result-prefixes` alone
/// (XSLT 1.0, 7.1.1).
pub(crate) fn check_literal_attributes(element: &RawElem<'_>) -> Result<(), SheetFault>
    requires { (see.name element.now.name).uri ≢ xsl_uri }
    ensures ok { OnOk result (phrases.AreLiteral (attributes_of element.now)) }
    ensures no { IfErr result
        (λ e. Refuses e (alone element.now) (HasNoAttributes element.now phrases.AreLiteral)) }
{
    for attribute in element.attrs {
        check_literal_attribute(element, attribute)?;
    }
    Ok(())
}

/// The `select`, if there is one (XSLT 1.0, 5.4).
pub(crate) fn optional_select<'b>(
    arena: &'b Bump,
    element: &RawElem<'b>,
) -> Result<Option<Path<'b>>, SheetFault>
    requires { MustHave (see.name element.now.name) (plain (codes "select")) forms.select }
    ensures ok { IfOk result
        (λ p. phrases.Optional (texts.SelectText (scope_of element.now))
        (phrases.value_of (codes "select") (attributes_of element.now)) (option_map see.path p)) }
    ensures no { IfErr result
        (λ e. Refuses e (alone element.now)
        (HasNoOptional element.now (codes "select") (texts.SelectText (scope_of element.now)))) }
{
    let Some(attribute) = attribute_of(element, "select") else {
        return Ok(None);
    };
    match read_select(arena, attribute.value, element.scope) {
        Ok(path) => Ok(Some(path)),
        Err(fault) => Err(fault_at(attribute.place, fault)),
    }
}

/// The `select` (XSLT 1.0, 8).
pub(crate) fn required_select<'b>(
    arena: &'b Bump,
    element: &RawElem<'b>,
) -> Result<Path<'b>, SheetFault>
    requires { MustHave (see.name element.now.name) (plain (codes "select")) forms.select }
    ensures ok { IfOk result
        (λ p. phrases.Required (texts.SelectText (scope_of element.now))
        (phrases.value_of (codes "select") (attributes_of element.now)) (see.path p)) }
    ensures no { IfErr result
        (λ e. Refuses e (alone element.now)
        (HasNoRequired element.now (codes "select") (texts.SelectText (scope_of element.now)))) }
{
    let Some(attribute) = attribute_of(element, "select") else {
        return Err(SheetFault::Malformed(element.place));
    };
    match read_select(arena, attribute.value, element.scope) {
        Ok(path) => Ok(path),
        Err(fault) => Err(fault_at(attribute.place, fault)),
    }
}

/// The `select` of an `xsl:value-of` as that instruction (XSLT 1.0, 7.6.1).
pub(crate) fn required_value<'b>(
    arena: &'b Bump,
    element: &RawElem<'b>,
) -> Result<Instr<'b>, SheetFault>
    requires { MustHave (see.name element.now.name) (plain (codes "select")) forms.value }
    ensures ok { IfOk result
        (λ i. phrases.Required (texts.ValueText (scope_of element.now))
        (phrases.value_of (codes "select") (attributes_of element.now))
        (see.instruction i sheets.no_instruction)) }
    ensures no { IfErr result
        (λ e. Refuses e (alone element.now)
        (HasNoRequired element.now (codes "select") (texts.ValueText (scope_of element.now)))) }
{
    let Some(attribute) = attribute_of(element, "select") else {
        return Err(SheetFault::Malformed(element.place));
    };
    match read_value(arena, attribute.value, element.scope) {
        Ok(value) => Ok(value),
        Err(fault) => Err(fault_at(attribute.place, fault)),
    }
}

/// The `test` (XSLT 1.0, 9).
pub(crate) fn required_test<'b>(
    arena: &'b Bump,
    element: &RawElem<'b>,
) -> Result<Test<'b>, SheetFault>
    requires { MustHave (see.name element.now.name) (plain (codes "test")) forms.test }
    ensures ok { IfOk result
        (λ t. phrases.Required (texts.TestText (scope_of element.now))
        (phrases.value_of (codes "test") (attributes_of element.now)) (see.test t)) }
    ensures no { IfErr result
        (λ e. Refuses e (alone element.now)
        (HasNoRequired element.now (codes "test") (texts.TestText (scope_of element.now)))) }
{
    let Some(attribute) = attribute_of(element, "test") else {
        return Err(SheetFault::Malformed(element.place));
    };
    match read_test(arena, attribute.value, element.scope) {
        Ok(test) => Ok(test),
        Err(fault) => Err(fault_at(attribute.place, fault)),
    }
}

/// Takes the `select` of an `xsl:copy-of`, which selects attributes alone (XSLT 1.0, 11.3).
pub(crate) fn required_attributes(arena: &Bump, element: &RawElem<'_>) -> Result<(), SheetFault>
    requires { IsXsl (codes "copy-of") (see.name element.now.name) }
    ensures ok { OnOk result
        (HasAttributesText (scope_of element.now) (attributes_of element.now)) }
    ensures no { IfErr result
        (λ e. Refuses e (alone element.now)
        (HasNoAttributes element.now (HasAttributesText (scope_of element.now)))) }
{
    let Some(attribute) = attribute_of(element, "select") else {
        return Err(SheetFault::Malformed(element.place));
    };
    match selects_attributes(arena, attribute.value, element.scope) {
        Ok(all) => {
            if all {
                Ok(())
            } else {
                Err(SheetFault::Unsupported(attribute.place, Why::XslCopyOf))
            }
        }
        Err(fault) => Err(fault_at(attribute.place, fault)),
    }
}

/// The alternatives of the `match`, if there is one (XSLT 1.0, 5.2).
pub(crate) fn optional_pattern<'b>(
    arena: &'b Bump,
    element: &RawElem<'b>,
) -> Result<Option<&'b [Alt<'b>]>, SheetFault>
    requires { IsXsl (codes "template") (see.name element.now.name) }
    ensures ok { IfOk result
        (λ xs. phrases.Optional (texts.PatternText (scope_of element.now))
        (phrases.value_of (codes "match") (attributes_of element.now))
        (option_map (λ x. map alternative x.now) xs)) }
    ensures no { IfErr result
        (λ e. Refuses e (alone element.now)
        (HasNoOptional element.now (codes "match") (texts.PatternText (scope_of element.now)))) }
{
    let Some(attribute) = attribute_of(element, "match") else {
        return Ok(None);
    };
    match read_pattern(arena, attribute.value, element.scope) {
        Ok(alternatives) => Ok(Some(alternatives)),
        Err(fault) => Err(fault_at(attribute.place, fault)),
    }
}

/// The `priority` in ten-thousandths, if there is one (XSLT 1.0, 5.5).
pub(crate) fn optional_priority(element: &RawElem<'_>) -> Result<Option<i64>, SheetFault>
    requires { IsXsl (codes "template") (see.name element.now.name) }
    ensures ok { IfOk result
        (phrases.Optional PriorityText
        (phrases.value_of (codes "priority") (attributes_of element.now))) }
    ensures no { IfErr result
        (λ e. Refuses e (alone element.now)
        (HasNoOptional element.now (codes "priority") PriorityText)) }
{
    let Some(attribute) = attribute_of(element, "priority") else {
        return Ok(None);
    };
    let priority = read_priority(attribute.value);
    if priority.is_none() {
        return Err(SheetFault::Malformed(attribute.place));
    }
    Ok(priority)
}

/// The namespace name to which a prefix is bound.
fn namespace_of<'b>(scope: &[Binding<'b>], prefix: &str) -> Option<&'b str>
    ensures { MatchOption result (uri_of (map see.bound scope.now) prefix.now ≡ None)
        (λ uri. uri_of (map see.bound scope.now) prefix.now ≡ Some uri.now) }
{
    for binding in scope {
        if binding.prefix == prefix {
            return Some(binding.uri);
        }
    }
    None
}

/// The QName that a text is.
fn whole_name(text: &str) -> Option<QualifiedName<'_>>
    ensures { MatchOption result ((n : names.QualifiedName) → names.QNameAt text.now n [] → ⊥)
        (λ n. names.QNameAt text.now (written_name n) []) }
{
    let (name, rest) = qname(text)?;
    if rest.is_empty() { Some(name) } else { None }
}

/// The name of a mode or of a template: without a prefix it has no namespace (XSLT 1.0, 2.4).
fn name_of<'b>(scope: &[Binding<'b>], text: &'b str) -> Option<Name<'b>>
    ensures { MatchOption result
        ((n : ExpandedName) → phrases.NameText (map see.bound scope.now) text.now n → ⊥)
        (λ n. phrases.NameText (map see.bound scope.now) text.now (see.name n)) }
{
    let QualifiedName { prefix, local } = whole_name(text)?;
    if prefix.is_empty() {
        return Some(Name { uri: "", local });
    }
    match namespace_of(scope, prefix) {
        Some(uri) => Some(Name { uri, local }),
        None => None,
    }
}

/// The name of an element: without a prefix it takes the default namespace (XSLT 1.0, 7.1.2).
fn element_name_of<'b>(scope: &[Binding<'b>], text: &'b str) -> Option<Name<'b>>
    ensures { MatchOption result
        ((n : ExpandedName) → phrases.ElementNameText (map see.bound scope.now) text.now n → ⊥)
        (λ n. phrases.ElementNameText (map see.bound scope.now) text.now (see.name n)) }
{
    let QualifiedName { prefix, local } = whole_name(text)?;
    match namespace_of(scope, prefix) {
        Some(uri) => Some(Name { uri, local }),
        None if prefix.is_empty() => Some(Name { uri: "", local }),
        None => None,
    }
}

/// The name of a mode or of a template in the attribute of this local name, if there is one.
pub(crate) fn optional_name<'b>(
    element: &RawElem<'b>,
    local: &str,
) -> Result<Option<Name<'b>>, SheetFault>
    requires kept { IsFalse (list_any (bytes_eq local.now) exchanged) }
    requires unrefused { IsNeverRefused local.now (see.name element.now.name) }
    ensures ok { IfOk result
        (λ n. phrases.Optional (phrases.NameText (scope_of element.now))
        (phrases.value_of local.now (attributes_of element.now)) (option_map see.name n)) }
    ensures no { IfErr result
        (λ e. Refuses e (alone element.now)
        (HasNoOptional element.now local.now (phrases.NameText (scope_of element.now)))) }
{
    let Some(attribute) = attribute_of(element, local) else {
        return Ok(None);
    };
    match name_of(element.scope, attribute.value) {
        Some(name) => Ok(Some(name)),
        None => Err(SheetFault::Malformed(attribute.place)),
    }
}

/// The name of the template that is called (XSLT 1.0, 6).
pub(crate) fn required_name<'b>(element: &RawElem<'b>) -> Result<Name<'b>, SheetFault>
    requires { IsXsl (codes "call-template") (see.name element.now.name) }
    ensures ok { IfOk result
        (λ n. phrases.Required (phrases.NameText (scope_of element.now))
        (phrases.value_of (codes "name") (attributes_of element.now)) (see.name n)) }
    ensures no { IfErr result
        (λ e. Refuses e (alone element.now)
        (HasNoRequired element.now (codes "name") (phrases.NameText (scope_of element.now)))) }
{
    let Some(attribute) = attribute_of(element, "name") else {
        return Err(SheetFault::Malformed(element.place));
    };
    match name_of(element.scope, attribute.value) {
        Some(name) => Ok(name),
        None => Err(SheetFault::Malformed(attribute.place)),
    }
}

/// Whether a text has a brace, as a name that is computed.
fn has_brace(text: &str) -> bool
    ensures { MatchBool result (Contains text.now 0x7B) (All (λ b. b ≢ 0x7B) text.now) }
{
    for byte in text.as_bytes() {
        if *byte == b'{' {
            return true;
        }
    }
    false
}

/// The name of the element that an `xsl:element` makes (XSLT 1.0, 7.1.2).
pub(crate) fn required_element_name<'b>(element: &RawElem<'b>) -> Result<Name<'b>, SheetFault>
    requires { IsXsl (codes "element") (see.name element.now.name) }
    ensures ok { IfOk result
        (λ n. phrases.Required (phrases.ElementNameText (scope_of element.now))
        (phrases.value_of (codes "name") (attributes_of element.now)) (see.name n)) }
    ensures no { IfErr result
        (λ e. Refuses e (alone element.now)
        (HasNoRequired element.now (codes "name")
        (phrases.ElementNameText (scope_of element.now)))) }
{
    let Some(attribute) = attribute_of(element, "name") else {
        return Err(SheetFault::Malformed(element.place));
    };
    match element_name_of(element.scope, attribute.value) {
        Some(name) => Ok(name),
        None if has_brace(attribute.value) => {
            Err(SheetFault::Unsupported(attribute.place, Why::ComputedName))
        }
        None => Err(SheetFault::Malformed(attribute.place)),
    }
}

/// The attribute of this local name in the namespace of XSLT, if there is one.
pub(crate) fn xsl_attribute<'e, 'b>(
    element: &'e RawElem<'b>,
    local: &str,
) -> Option<&'e RawAttr<'b>>
    ensures has { IfSome result (λ a. Contains (attributes_of element.now) (see.attribute a.now)) }
    ensures name { IfSome result (λ a. IsXsl local.now (see.attribute a.now).name) }
    ensures none { IfNone result
        (All (λ a. IsXsl local.now a.name → ⊥) (attributes_of element.now)) }
{
    for attribute in element.attrs {
        if is_xsl(&attribute.name, local) {
            return Some(attribute);
        }
    }
    None
}
