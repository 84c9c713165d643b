// Start tags whose attributes are read, and dropped (XML 1.0, 3.1; Namespaces in XML 1.0, 3, 5 and 6). Where
// anything is unusual this gives up, and what it gives is what the tag means.
// Attributes are told apart by one list of expanded names. A declaration stands in it in the namespace of
// declarations, in which no other name is. The local part comes first, so that namespace names, which may be long, are
// compared only where the local parts are the same.
ghost use Rattle.std.specs.Prelude.{◌≡◌, ℕ, List, Some, IfSome};
ghost use Rattle.tc_model.specs.RawTrees.{Bound};
ghost use Rattle.tc_model.specs.Views.{name as seen_name};
ghost use Rattle.tc_model.specs.XmlTextScopes.{ElementName};
ghost use Rattle.tc_scan.specs.Views.{written_name};
ghost use Rattle.tc_xml.specs.Bindings.{Tells, now_bound};
ghost use Rattle.tc_xml.specs.PlainTags.{DeclarationRead, ValueRead, AttributeRead, AllRead, AreExpanded, TagRead, as_written, as_expanded, expanded_name};

use crate::bindings::Bindings;
use crate::content::{ends_tag, is_xml_space};
use crate::references::{after_quoted, quoted};
use crate::tags::{XMLNS, declared_by, is_lawful};
use bumpalo::Bump;
use tc_model::Name;
use tc_scan::{QualifiedName, after_byte, after_equals, after_some_white, after_white, qname};
use tc_tags::all_differ;

/// A tag up to where it ends: its name as it is written and as it is meant, and what follows.
#[derive(Clone, Copy)]
pub(crate) struct Tag<'b> {
    pub(crate) written: QualifiedName<'b>,
    pub(crate) name: Name<'b>,
    pub(crate) rest: &'b str,
}

/// The names of one tag's attributes, as they are written and as they are meant, with room that the next tag
/// takes over.
#[derive(Drop)]
pub(crate) struct AttributeNames<'b> {
    written: Vec<(&'b str, &'b str), &'b Bump>,
    expanded: Vec<(&'b [u8], &'b [u8]), &'b Bump>,
}

impl<'b> AttributeNames<'b> {
    /// No names, and no room yet.
    pub(crate) fn new(arena: &'b Bump) -> AttributeNames<'b> {
        AttributeNames {
            written: Vec::new(arena),
            expanded: Vec::new(arena),
        }
    }
}

/// Binds a prefix to the namespace name in quotes at the front, where it may be, and gives what follows.
fn declaration<'b>(
    arena: &'b Bump,
    bindings: &mut Bindings<'b>,
    prefix: &'b str,
    text: &'b str,
) -> Option<&'b str>
    ensures { IfSome result
        (λ rest. DeclarationRead bindings.old prefix.now text.now bindings.new rest.now) }
{
    let Ok((uri, rest)) = quoted(arena, text) else {
        return None;
    };
    if !is_lawful(prefix, uri) {
        return None;
    }
    bindings.bind(prefix, uri)?;
    Some(rest)
}

/// Reads the value of an attribute with this name, binds what it declares, and gives what follows.
fn read_value<'b>(
    arena: &'b Bump,
    bindings: &mut Bindings<'b>,
    name: QualifiedName<'b>,
    text: &'b str,
) -> Option<&'b str>
    ensures { IfSome result
        (λ rest. ValueRead bindings.old (written_name name.entry) text.now bindings.new rest.now) }
{
    if let Some(prefix) = declared_by(name) {
        return declaration(arena, bindings, prefix, text);
    }
    after_quoted(text)
}

/// Reads the attribute at the front: notes its name, binds what it declares, and gives what follows.
fn read_attribute<'b>(
    arena: &'b Bump,
    bindings: &mut Bindings<'b>,
    names: &mut Vec<(&'b str, &'b str), &'b Bump>,
    text: &'b str,
) -> Option<&'b str>
    ensures { IfSome result
        (λ rest. (total : ℕ)
        → AttributeRead total bindings.old names.old.items text.now bindings.new names.new.items
        rest.now) }
{
    let start = after_some_white(text)?;
    let (name, behind) = qname(start)?;
    if is_xml_space(&name) {
        return None;
    }
    let equals = after_equals(behind)?;
    let rest = read_value(arena, bindings, name, equals)?;
    let Ok(()) = names.push((name.prefix, name.local)) else {
        return None;
    };
    Some(rest)
}

/// Reads the attributes up to where the tag ends, and gives what stands there.
fn read_attributes<'b>(
    arena: &'b Bump,
    bindings: &mut Bindings<'b>,
    names: &mut Vec<(&'b str, &'b str), &'b Bump>,
    text: &'b str,
) -> Option<&'b str>
    ensures { IfSome result
        (λ rest. (total : ℕ)
        → AllRead total bindings.old text.now bindings.new names.new.items rest.now) }
{
    names.clear();
    let mut rest = text;
    'attributes: loop {
        let end = after_white(rest);
        if ends_tag(end) {
            return Some(end);
        }
        rest = read_attribute(arena, bindings, names, rest)?;
    }
}

/// The name by which the attribute with this name is told from others: its expanded name, which without a prefix has no
/// namespace (Namespaces, 6.2); its local part comes first. A declaration is put into the namespace of declarations, `xmlns` too, which has no prefix.
fn expand<'b>(bindings: &Bindings<'b>, name: &(&'b str, &'b str)) -> Option<(&'b str, &'b str)>
    ensures { IfSome result
        (λ r. (scope : List Bound) → Tells (now_bound bindings.now) scope
        → expanded_name scope (as_written name.now) ≡ Some (as_expanded r)) }
{
    let (prefix, local) = *name;
    if let Some(_) = declared_by(QualifiedName { prefix, local }) {
        return Some((local, XMLNS));
    }
    if prefix == "" {
        return Some((local, ""));
    }
    let uri = bindings.uri_of(prefix)?;
    Some((local, uri))
}

/// The same of the attributes with these names.
fn expand_all<'b>(
    bindings: &Bindings<'b>,
    names: &[(&'b str, &'b str)],
    expanded: &mut Vec<(&'b [u8], &'b [u8]), &'b Bump>,
) -> Option<()>
    ensures { IfSome result (λ _. AreExpanded bindings.now names.now expanded.new.items) }
{
    expanded.clear();
    for name in names {
        let (local, uri) = expand(bindings, name)?;
        let Ok(()) = expanded.push((local.as_bytes(), uri.as_bytes())) else {
            return None;
        };
    }
    Some(())
}

/// The expanded name of an element, as `element_name` of `tags` over the bindings of a scope: without a prefix it takes
/// the default namespace, or none (Namespaces, 6.1 and 6.2).
fn name_within<'b>(bindings: &Bindings<'b>, written: QualifiedName<'b>) -> Option<Name<'b>>
    ensures { IfSome result
        (λ n. (scope : List Bound) → Tells (now_bound bindings.now) scope
        → ElementName scope (written_name written.entry) (seen_name n)) }
{
    let local = written.local;
    match bindings.uri_of(written.prefix) {
        Some(uri) => Some(Name { uri, local }),
        None => {
            if written.prefix == "" {
                Some(Name { uri: "", local })
            } else {
                None
            }
        }
    }
}

/// Reads the tag at the front up to where it ends, and binds what it declares.
pub(crate) fn read_tag<'b>(
    arena: &'b Bump,
    bindings: &mut Bindings<'b>,
    names: &mut AttributeNames<'b>,
    text: &'b str,
) -> Option<Tag<'b>>
    ensures { IfSome result
        (λ tag. (total : ℕ) → TagRead total bindings.old text.now tag bindings.new) }
{
    let start = after_byte(text, b'<')?;
    let (written, behind) = qname(start)?;
    let rest = read_attributes(arena, bindings, &mut names.written, behind)?;
    let name = name_within(bindings, written)?;
    expand_all(bindings, names.written.as_slice(), &mut names.expanded)?;
    if !all_differ(&mut names.expanded) {
        return None;
    }
    Some(Tag {
        written,
        name,
        rest,
    })
}
