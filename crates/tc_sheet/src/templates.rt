// Templates, and what stands beside them in a stylesheet (XSLT 1.0, 2.2, 5, 6).
ghost use Rattle.std.specs.Prelude.{◌≡◌, ◌≢◌, ◌||◌, ◌&&◌, not, [], Some, IfOk, IfErr, OnOk, MatchBool, codes, map, option_map};
ghost use Rattle.tc_model.specs.RawTrees as raws;
ghost use Rattle.tc_model.specs.Views as see;
ghost use Rattle.tc_model.specs.SheetTextPhrases as phrases;
ghost use Rattle.tc_model.specs.SheetTextPhrases.{IsXsl};
ghost use Rattle.tc_path.specs.Views.{alternative};
ghost use Rattle.tc_sheet.specs.Constructs.{IsRoot, IsDeclaration};
ghost use Rattle.tc_sheet.specs.Faults.{IsCause, IsNoFaultOfCalls};
ghost use Rattle.tc_sheet.specs.LookedAt.{IsIn, at_top};
ghost use Rattle.tc_sheet.specs.Readings.{Refuses, alone, attributes_of, HasNoAttributes, HasNoTemplate, HasNoTemplates, IsTopItem, HasNoTopItem, IsTopElement, HasNoTopElement};
ghost use Rattle.tc_sheet.specs.Views.{tag_of, put_template, template as template_seen};
ghost use Rattle.tc_sheet.specs.declared.faults.SheetFault.TheVariants as faults;

use crate::attributes::{
    attribute_of, is_root, only_attributes, optional_name, optional_pattern, optional_priority,
    xsl_attribute,
};
use crate::bodies::body;
use crate::elements::{is_xsl, is_xslt, misplaced};
use crate::faults::SheetFault;
use crate::written::Template;
use bumpalo::Bump;
use bumpalo::collections::into_bump_slice;
use tc_base::Why;
use tc_model::{Alt, Name, Raw, RawElem, is_white_space_only};

/// The alternatives of a pattern, each with this priority if it is given (XSLT 1.0, 5.5).
fn with_priority<'b>(
    arena: &'b Bump,
    priority: Option<i64>,
    alternatives: &'b [Alt<'b>],
) -> Result<&'b [Alt<'b>], SheetFault>
    ensures ok { IfOk result (λ xs. map alternative xs.now
        ≡ phrases.with_priority priority (map alternative alternatives.now)) }
    ensures no { IfErr result (λ e. e ≡ faults.NoMemory) }
{
    let Some(priority) = priority else {
        return Ok(alternatives);
    };
    let mut changed = Vec::new(arena);
    for alternative in alternatives {
        changed.push(Alt {
            pattern: alternative.pattern,
            priority,
        })?;
    }
    Ok(into_bump_slice(changed))
}

/// The alternatives of a pattern, or none, each with this priority if it is given.
fn kept<'b>(
    arena: &'b Bump,
    priority: Option<i64>,
    pattern: Option<&'b [Alt<'b>]>,
) -> Result<&'b [Alt<'b>], SheetFault>
    ensures ok { IfOk result
        (λ xs. map alternative xs.now
        ≡ phrases.with_priority priority
        (phrases.or_none (option_map (λ ys. map alternative ys.now) pattern.entry))) }
    ensures no { IfErr result (λ e. e ≡ faults.NoMemory) }
{
    match pattern {
        Some(alternatives) => with_priority(arena, priority, alternatives),
        None => Ok(&[]),
    }
}

/// Whether a template may lack what it lacks: it has a pattern or a name, and a mode only with a pattern.
fn is_complete(pattern: bool, name: bool, mode: bool) -> bool
    ensures { result ≡ (pattern || (name && not mode)) }
{
    pattern || (name && !mode)
}

/// Reads an `xsl:template` (XSLT 1.0, 5.3, 5.5, 5.7, 6).
fn template<'b>(arena: &'b Bump, element: &RawElem<'b>) -> Result<Template<'b>, SheetFault>
    requires { IsXsl (codes "template") (see.name element.now.name) }
    ensures ok { IfOk result
        (λ t. phrases.IsTemplate (tag_of element.now) (see.raw_trees element.now.kids.now)
        (template_seen t)) }
    ensures no { IfErr result
        (λ e. Refuses e (IsIn at_top (see.raw_element element.now raws.none))
        (HasNoTemplate element.now)) }
{
    only_attributes(element, &["match", "name", "priority", "mode"])?;
    let pattern = optional_pattern(arena, element)?;
    let priority = optional_priority(element)?;
    let name = optional_name(element, "name")?;
    let mode = optional_name(element, "mode")?;
    if !is_complete(pattern.is_some(), name.is_some(), mode.is_some()) {
        return Err(SheetFault::Malformed(element.place));
    }
    let body = body(arena, element.kids)?;
    let alternatives = kept(arena, priority, pattern)?;
    Ok(Template {
        alternatives,
        name,
        mode,
        body,
        place: element.place,
    })
}

/// Whether this is the name of an `xsl:output` or an `xsl:strip-space`.
fn is_declaration(name: &Name<'_>) -> bool
    ensures { MatchBool result (IsDeclaration (see.name name.now))
        (IsDeclaration (see.name name.now) → ⊥) }
{
    is_xsl(name, "output") || is_xsl(name, "strip-space")
}

/// Whether a name has no namespace.
fn is_bare(name: &Name<'_>) -> bool
    ensures { MatchBool result ((see.name name.now).uri ≡ []) ((see.name name.now).uri ≢ []) }
{
    name.uri == ""
}

/// Reads an element at the top, which may be passed over.
fn element_at_top<'b>(
    arena: &'b Bump,
    element: &RawElem<'b>,
) -> Result<Option<Template<'b>>, SheetFault>
    ensures ok { IfOk result (λ t. IsTopElement element.now (put_template t)) }
    ensures no { IfErr result
        (λ e. Refuses e (IsIn at_top (see.raw_element element.now raws.none))
        (HasNoTopElement element.now)) }
{
    if is_xsl(&element.name, "template") {
        let template = template(arena, element)?;
        return Ok(Some(template));
    }
    if is_declaration(&element.name) {
        return Ok(None);
    }
    if is_xslt(&element.name) {
        return Err(misplaced(element));
    }
    if is_bare(&element.name) {
        return Err(misplaced(element));
    }
    Ok(None)
}

/// Reads what stands at the top, which may be passed over.
fn at_top<'b>(arena: &'b Bump, kid: &Raw<'b>) -> Result<Option<Template<'b>>, SheetFault>
    ensures ok { IfOk result (λ t. IsTopItem kid.now (put_template t)) }
    ensures no { IfErr result
        (λ e. Refuses e (IsIn at_top (see.raw_tree kid.now)) (HasNoTopItem kid.now)) }
{
    match kid {
        Raw::Text(text, place) => {
            if is_white_space_only(text) {
                Ok(None)
            } else {
                Err(SheetFault::Malformed(*place))
            }
        }
        Raw::Elem(element) => element_at_top(arena, element),
    }
}

/// Reads the templates among what stands at the top.
fn templates<'b>(arena: &'b Bump, kids: &[Raw<'b>]) -> Result<&'b [Template<'b>], SheetFault>
    ensures ok { IfOk result
        (λ ts. phrases.AreTemplates (see.raw_trees kids.now) (map template_seen ts.now)) }
    ensures no { IfErr result
        (λ e. Refuses e (IsIn at_top (see.raw_trees kids.now))
        (HasNoTemplates (see.raw_trees kids.now))) }
{
    let mut found = Vec::new(arena);
    for kid in kids {
        let read = at_top(arena, kid)?;
        match read {
            Some(template) => found.push(template)?,
            None => {}
        }
    }
    Ok(into_bump_slice(found))
}

/// The refusal of a root that is none of XSLT's: a literal element with a version is a stylesheet by itself
/// (XSLT 1.0, 2.3).
fn no_root(element: &RawElem<'_>) -> SheetFault
    requires { IsRoot (see.name element.now.name) → ⊥ }
    ensures cause { IsCause (see.raw_element element.now raws.none) result }
    ensures calls { IsNoFaultOfCalls result }
{
    if is_xslt(&element.name) {
        return SheetFault::Malformed(element.place);
    }
    match xsl_attribute(element, "version") {
        Some(_version) => SheetFault::Unsupported(element.place, Why::SimplifiedStylesheet),
        None => SheetFault::Malformed(element.place),
    }
}

/// Checks that the version is 1.0 (XSLT 1.0, 2.2).
fn check_version(element: &RawElem<'_>) -> Result<(), SheetFault>
    requires { IsRoot (see.name element.now.name) }
    ensures ok { OnOk result
        (phrases.value_of (codes "version") (attributes_of element.now) ≡ Some (codes "1.0")) }
    ensures no { IfErr result
        (λ e. Refuses e (alone element.now)
        (HasNoAttributes element.now
        (λ olds. phrases.value_of (codes "version") olds ≡ Some (codes "1.0")))) }
{
    let Some(attribute) = attribute_of(element, "version") else {
        return Err(SheetFault::Malformed(element.place));
    };
    if attribute.value == "1.0" {
        Ok(())
    } else {
        Err(SheetFault::Unsupported(attribute.place, Why::XsltVersion))
    }
}

/// Reads the templates of a stylesheet (XSLT 1.0, 2.2).
pub(crate) fn stylesheet<'b>(
    arena: &'b Bump,
    element: &RawElem<'b>,
) -> Result<&'b [Template<'b>], SheetFault>
    ensures ok { IfOk result
        (λ ts. phrases.IsStylesheet (see.raw_element element.now raws.none)
        (map template_seen ts.now)) }
    ensures no { IfErr result (IsCause (see.raw_element element.now raws.none)) }
    ensures calls { IfErr result IsNoFaultOfCalls }
{
    if !is_root(&element.name) {
        return Err(no_root(element));
    }
    only_attributes(element, &["version", "exclude-result-prefixes", "id"])?;
    check_version(element)?;
    templates(arena, element.kids)
}
