// What a start tag means (XML 1.0, 3.1; Namespaces in XML 1.0, 3, 5 and 6).
ghost use Rattle.std.specs.Prelude.{◌≡◌, ℕ, List, [], ◌∷◌, map, Option, None, Some, option_map, IfOk, IfErr, OnOk, IsTrue, IsFalse, MatchBool, MatchOption};
ghost use Rattle.std.specs.List.{IsDistinct};
ghost use Rattle.std.specs.Option.{option_to_list};
ghost use Rattle.tc_model.specs.Names.{ExpandedName, same_name};
ghost use Rattle.tc_model.specs.RawTrees.{Attribute, Bound};
ghost use Rattle.tc_model.specs.Views as seen;
ghost use Rattle.tc_model.specs.XmlTextNames as xml_names;
ghost use Rattle.tc_model.specs.XmlTextScopes as xml;
ghost use Rattle.tc_scan.specs.Views.{written_name};
ghost use Rattle.tc_xml.specs.Bounds.{bound_to, named};
ghost use Rattle.tc_xml.specs.Tags.{written, in_scope, lacks_space, is_declaring, declared_prefix, Breaks};

use crate::faults::Stop;
use crate::scopes::{Names, Scope};
use bumpalo::Bump;
use bumpalo::collections::into_bump_slice;
use indexmap::IndexMap;
use tc_base::{NoMemory, Place};
use tc_model::{Name, RawAttr};
use tc_scan::QualifiedName;
use tc_tags::all_differ;

/// The namespace of the prefix `xml`.
const XML: &str = "http://www.w3.org/XML/1998/namespace";

/// The namespace of namespace declarations.
pub(crate) const XMLNS: &str = "http://www.w3.org/2000/xmlns/";

/// An attribute as it is written, with the place of its name's first byte.
#[derive(Clone, Copy)]
pub(crate) struct Written<'b, 't> {
    pub(crate) name: QualifiedName<'t>,
    pub(crate) value: &'b str,
    pub(crate) place: Place,
}

/// What a start tag means: its expanded name, its attributes other than declarations, and the prefixes in
/// scope within it.
#[derive(Clone, Copy)]
pub(crate) struct Meaning<'b> {
    pub(crate) name: Name<'b>,
    pub(crate) attrs: &'b [RawAttr<'b>],
    pub(crate) scope: Scope<'b>,
}

/// The prefixes that are bound before any declaration.
pub(crate) fn first_names<'b>(arena: &'b Bump) -> Result<Names<'b>, NoMemory>
    ensures { IfOk result (λ names. named names ≡ xml.first_scope) }
{
    let mut names = IndexMap::new(arena);
    names.insert("xml", XML)?;
    Ok(names)
}

/// What is in scope before any declaration.
pub(crate) fn first_scope<'b>(arena: &'b Bump) -> Result<Scope<'b>, Stop>
    ensures ok { IfOk result (λ s. in_scope s ≡ xml.first_scope) }
    ensures no { IfErr result (λ e. Breaks e ⊥) }
{
    let names = first_names(arena)?;
    Scope::of(arena, names)
}

/// The prefix that an attribute with this name declares, where it is a declaration (Namespaces, 3, [1] to [3]).
pub(crate) fn declared_by<'t>(name: QualifiedName<'t>) -> Option<&'t str>
    ensures { MatchOption result (IsFalse (is_declaring (written_name name.entry)))
        (λ prefix. IsTrue (is_declaring (written_name name.entry))
        × (prefix.now ≡ declared_prefix (written_name name.entry))) }
{
    match (name.prefix, name.local) {
        ("", "xmlns") => Some(""),
        ("xmlns", prefix) => Some(prefix),
        _ => None,
    }
}

/// The prefix that this attribute declares, where it is a declaration.
fn declared<'t>(attribute: &Written<'_, 't>) -> Option<&'t str>
    ensures { MatchOption result (IsFalse (xml.is_declaration (written attribute.now)))
        (λ prefix. IsTrue (xml.is_declaration (written attribute.now))
        × (prefix.now ≡ (xml.binding_of (written attribute.now)).prefix)) }
{
    declared_by(attribute.name)
}

/// Whether this prefix may be bound to this namespace name (Namespaces, 3 and 5).
pub(crate) fn is_lawful(prefix: &str, uri: &str) -> bool
    ensures { MatchBool result (xml.IsLawfulBinding (bound_to prefix.now uri.now))
        (xml.IsLawfulBinding (bound_to prefix.now uri.now) → ⊥) }
{
    prefix != "xmlns"
        && uri != XMLNS
        && (prefix == "xml") == (uri == XML)
        && (prefix == "" || uri != "")
}

/// Binds a prefix, which an empty namespace name leaves unbound.
fn bind<'b>(names: &mut Names<'b>, prefix: &'b str, uri: &'b str) -> Result<(), Stop>
    ensures ok { OnOk result
        (named names.new ≡ xml.bound_in (bound_to prefix.now uri.now) (named names.old)) }
    ensures no { IfErr result (λ e. Breaks e ⊥) }
{
    if uri == "" {
        names.shift_remove(&prefix);
        return Ok(());
    }
    names.insert(prefix, uri)?;
    Ok(())
}

/// Binds what this attribute declares.
fn declare<'b>(
    arena: &'b Bump,
    names: &mut Names<'b>,
    attribute: &Written<'b, '_>,
) -> Result<(), Stop>
    ensures ok { OnOk result
        (named names.new ≡ xml.scope_within (named names.old) (written attribute.now ∷ [])) }
    ensures no { IfErr result (λ e. Breaks e ⊥) }
{
    let Some(prefix) = declared(attribute) else {
        return Ok(());
    };
    let prefix = arena.try_alloc_str(prefix)?;
    bind(names, prefix, attribute.value)
}

/// Binds what these attributes declare.
fn declare_all<'b>(
    arena: &'b Bump,
    names: &mut Names<'b>,
    attributes: &[Written<'b, '_>],
) -> Result<(), Stop>
    ensures ok { OnOk result
        (named names.new ≡ xml.scope_within (named names.old) (map written attributes.now)) }
    ensures no { IfErr result (λ e. Breaks e ⊥) }
{
    for attribute in attributes {
        declare(arena, names, attribute)?;
    }
    Ok(())
}

/// Whether one of these attributes is a declaration.
fn declare_some(attributes: &[Written<'_, '_>]) -> bool
    ensures { IsFalse result → (scope : List Bound)
        → xml.scope_within scope (map written attributes.now) ≡ scope }
{
    for attribute in attributes {
        if declared(attribute).is_some() {
            return true;
        }
    }
    false
}

/// What is in scope after the declarations among these attributes: the outer scope where there are none.
fn scope_within<'b>(
    arena: &'b Bump,
    outer: Scope<'b>,
    attributes: &[Written<'b, '_>],
) -> Result<Scope<'b>, Stop>
    ensures ok { IfOk result
        (λ s. in_scope s ≡ xml.scope_within (in_scope outer.entry) (map written attributes.now)) }
    ensures no { IfErr result (λ e. Breaks e ⊥) }
{
    if !declare_some(attributes) {
        return Ok(outer);
    }
    let mut names = outer.names()?;
    declare_all(arena, &mut names, attributes)?;
    Scope::of(arena, names)
}

/// The namespace name of an attribute with this prefix: without a prefix it has none (Namespaces, 6.2).
fn attribute_uri<'b>(scope: Scope<'b>, prefix: &str) -> Option<&'b str>
    ensures { MatchBool (xml.is_empty prefix.now)
        (MatchOption result ⊥ (λ uri. uri.now ≡ []))
        (MatchOption result (xml.uri_of (in_scope scope.entry) prefix.now ≡ None)
        (λ uri. xml.uri_of (in_scope scope.entry) prefix.now ≡ Some uri.now)) }
{
    if prefix == "" {
        return Some("");
    }
    scope.uri_of(prefix)
}

/// An attribute with its expanded name, unless it is a declaration.
fn expanded<'b>(
    arena: &'b Bump,
    scope: Scope<'b>,
    attribute: &Written<'b, '_>,
    left: usize,
) -> Result<Option<RawAttr<'b>>, Stop>
    ensures ok { IfOk result
        (λ r. xml.Expands (in_scope scope.entry) (written attribute.now ∷ [])
        (option_to_list (option_map seen.attribute r))) }
    ensures no { IfErr result
        (λ e. Breaks e
        ((found : List Attribute)
        → xml.Expands (in_scope scope.entry) (written attribute.now ∷ []) found → ⊥)) }
{
    if let Some(prefix) = declared(attribute) {
        if is_lawful(prefix, attribute.value) {
            return Ok(None);
        }
        return Err(Stop::Malformed(left));
    }
    let Some(uri) = attribute_uri(scope, attribute.name.prefix) else {
        return Err(Stop::Malformed(left));
    };
    let local = arena.try_alloc_str(attribute.name.local)?;
    Ok(Some(RawAttr {
        name: Name { uri, local },
        value: attribute.value,
        place: attribute.place,
    }))
}

/// The attributes other than declarations, with their expanded names.
fn all_expanded<'b>(
    arena: &'b Bump,
    scope: Scope<'b>,
    attributes: &[Written<'b, '_>],
    left: usize,
) -> Result<&'b [RawAttr<'b>], Stop>
    ensures ok { IfOk result
        (λ r. xml.Expands (in_scope scope.entry) (map written attributes.now)
        (map seen.attribute r.now)) }
    ensures no { IfErr result
        (λ e. Breaks e
        ((found : List Attribute)
        → xml.Expands (in_scope scope.entry) (map written attributes.now) found → ⊥)) }
{
    let mut found = Vec::new(arena);
    for attribute in attributes {
        match expanded(arena, scope, attribute, left)? {
            Some(attr) => found.push(attr)?,
            None => {}
        }
    }
    Ok(into_bump_slice(found))
}

/// The expanded name of an element: without a prefix it takes the default namespace, or none (Namespaces, 6.1
/// and 6.2).
fn element_name<'b>(
    arena: &'b Bump,
    scope: Scope<'b>,
    name: QualifiedName<'_>,
    left: usize,
) -> Result<Name<'b>, Stop>
    ensures ok { IfOk result
        (λ n. xml.ElementName (in_scope scope.entry) (written_name name.entry) (seen.name n)) }
    ensures no { IfErr result
        (λ e. Breaks e
        ((n : ExpandedName) → xml.ElementName (in_scope scope.entry) (written_name name.entry) n
        → ⊥)) }
{
    let local = arena.try_alloc_str(name.local)?;
    match scope.uri_of(name.prefix) {
        Some(uri) => Ok(Name { uri, local }),
        None => {
            if name.prefix == "" {
                Ok(Name { uri: "", local })
            } else {
                Err(Stop::Malformed(left))
            }
        }
    }
}

/// Whether no two attributes are written with one name (XML, 3.1, Unique Att Spec).
fn are_written_once(arena: &Bump, attributes: &[Written<'_, '_>]) -> Result<bool, Stop>
    ensures ok { IfOk result (λ once. MatchBool once
        (IsDistinct xml_names.same_written (map (λ a. a.name) (map written attributes.now)))
        (IsDistinct xml_names.same_written (map (λ a. a.name) (map written attributes.now)) → ⊥)) }
    ensures no { IfErr result (λ e. Breaks e ⊥) }
{
    let mut names = Vec::new(arena);
    for attribute in attributes {
        let name = attribute.name;
        names.push((name.prefix.as_bytes(), name.local.as_bytes()))?;
    }
    Ok(all_differ(&mut names))
}

/// Whether no two attributes have one expanded name (Namespaces, 6.3).
fn are_expanded_once(arena: &Bump, attributes: &[RawAttr<'_>]) -> Result<bool, Stop>
    ensures ok { IfOk result (λ once. MatchBool once
        (IsDistinct same_name (map (λ a. a.name) (map seen.attribute attributes.now)))
        (IsDistinct same_name (map (λ a. a.name) (map seen.attribute attributes.now)) → ⊥)) }
    ensures no { IfErr result (λ e. Breaks e ⊥) }
{
    let mut names = Vec::new(arena);
    for attribute in attributes {
        let name = attribute.name;
        names.push((name.local.as_bytes(), name.uri.as_bytes()))?;
    }
    Ok(all_differ(&mut names))
}

/// What a tag with this name and these attributes means, where this scope is within it. The fault says how many
/// bytes are left at the tag.
fn meaning_within<'b>(
    arena: &'b Bump,
    scope: Scope<'b>,
    tag: QualifiedName<'_>,
    attributes: &[Written<'b, '_>],
    left: usize,
) -> Result<Meaning<'b>, Stop>
    ensures ok { IfOk result (λ m. (in_scope m.scope ≡ in_scope scope.entry)
        × xml.ElementName (in_scope scope.entry) (written_name tag.entry) (seen.name m.name)
        × xml.Expands (in_scope scope.entry) (map written attributes.now)
        (map seen.attribute m.attrs.now)
        × IsDistinct same_name (map (λ a. a.name) (map seen.attribute m.attrs.now))) }
    ensures no { IfErr result (λ e. Breaks e ((name : ExpandedName) (expanded : List Attribute)
        → xml.ElementName (in_scope scope.entry) (written_name tag.entry) name
        → xml.Expands (in_scope scope.entry) (map written attributes.now) expanded
        → IsDistinct same_name (map (λ a. a.name) expanded) → ⊥)) }
{
    let name = element_name(arena, scope, tag, left)?;
    let attrs = all_expanded(arena, scope, attributes, left)?;
    let expanded_once = are_expanded_once(arena, attrs)?;
    if !expanded_once {
        return Err(Stop::Malformed(left));
    }
    Ok(Meaning { name, attrs, scope })
}

/// What a start tag with this name and these attributes means, none of them `xml:space`, where `outer` is in
/// scope. The fault says how many bytes are left at the tag.
pub(crate) fn meaning_of<'b>(
    arena: &'b Bump,
    outer: Scope<'b>,
    tag: QualifiedName<'_>,
    attributes: &[Written<'b, '_>],
    left: usize,
) -> Result<Meaning<'b>, Stop>
    requires no_space { IsTrue (lacks_space (map written attributes.now)) }
    ensures ok { IfOk result
        (λ m. xml.TagMeans (in_scope outer.entry) (written_name tag.entry)
        (map written attributes.now)
        (in_scope m.scope) (seen.name m.name) (map seen.attribute m.attrs.now)) }
    ensures no { IfErr result (λ e. Breaks e
        ((scope : List Bound) (name : ExpandedName) (expanded : List Attribute)
        → xml.TagMeans (in_scope outer.entry) (written_name tag.entry)
        (map written attributes.now) scope name expanded → ⊥)) }
{
    let written_once = are_written_once(arena, attributes)?;
    if !written_once {
        return Err(Stop::Malformed(left));
    }
    let scope = scope_within(arena, outer, attributes)?;
    meaning_within(arena, scope, tag, attributes, left)
}
