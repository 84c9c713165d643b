// The names of open elements, what they declare, and what the attributes of a tag mean (Namespaces in XML 1.0, 3, 5 and 6;
// XML 1.0, 3.1).
ghost use Rattle.std.specs.Prelude.{◌≡◌, ◌+◌, ◌-◌, ◌<◌, ◌≤◌, ◌++◌, ◌∷◌, ℕ, List, [], true, false, length, map, drop, reverse, sum_by, None, Some, IfOk, IsTrue, MatchBool, MatchOption, IsUtf8};
ghost use Rattle.std.specs.List.{AllByRecursion, list_all};
ghost use Rattle.tc_model.specs.Names.{ExpandedName};
ghost use Rattle.tc_model.specs.RawTrees.{Bound as Binding};
ghost use Rattle.tc_model.specs.Views as seen;
ghost use Rattle.tc_model.specs.XmlTextNames as xml_names;
ghost use Rattle.tc_model.specs.XmlTextScopes as xml;
ghost use Rattle.tc_tags.specs.Bindings.{Binds};
ghost use Rattle.tc_tags.specs.Scoped.{chains_in, bound_by};
ghost use Rattle.tc_tags.specs.Spans.{at_span};
ghost use Rattle.tc_tags.specs.Written.{IsWritten, AreWritten, AreKept, AreMeant, Adds, binding_in, has_meaning};
ghost use Rattle.tc_tags.specs.XmlTextTags.{declared_length};
ghost use Rattle.tc_tags.specs.declared.scopes.TheConstants.{MOST_DECLARED};

use crate::attributes::{Attribute, Attributes};
use crate::names::{Room, Span, WrittenName};
use crate::scopes::{Declared, Scopes, XML};
use crate::values::push_value;
use simdutf8::compat::from_utf8;
use std::alloc::{AllocError, Global};
use tc_base::limits::MOST_NAMES;
use tc_model::Name;

/// The namespace of namespace declarations.
const XMLNS: &str = "http://www.w3.org/2000/xmlns/";

/// The names that are kept: those of open elements, what they declare, and the attributes of one tag.
#[derive(Drop)]
pub struct Rooms {
    pub names: Room,
    pub scopes: Scopes,
    pub attributes: Attributes,
}

/// The text that these bytes are, nothing where they are none.
pub fn text_of(bytes: &[u8]) -> &str
    ensures whole { IsUtf8 bytes.now → result.now ≡ bytes.now }
    ensures within { length result.now ≤ length bytes.now }
{
    match from_utf8(bytes) {
        Ok(text) => text,
        Err(_) => "",
    }
}

/// Whether this prefix may be bound to this namespace name (Namespaces in XML 1.0, 3 and 5).
fn is_lawful(prefix: &[u8], uri: &[u8]) -> bool
    ensures { MatchBool result
        (xml.IsLawfulBinding (record { prefix = prefix.now; uri = uri.now }))
        (xml.IsLawfulBinding (record { prefix = prefix.now; uri = uri.now }) → ⊥) }
{
    prefix != b"xmlns".as_slice()
        && uri != XMLNS.as_bytes()
        && (prefix == b"xml".as_slice()) == (uri == XML.as_bytes())
        && (prefix == b"".as_slice() || uri != b"".as_slice())
}

/// Adds what an attribute declares, where it is a declaration, if there is room; whether there was.
fn add_declared(names: &mut Room, scopes: &mut Scopes, tag: &str, attribute: &Attribute) -> bool
    requires room { length scopes.old.declared.items < MOST_DECLARED }
    requires kept { AreKept names.old.bytes.items scopes.old.declared.items
        scopes.old.chains.chains }
    requires written { (w : xml.WrittenAttribute) × IsWritten tag.now attribute.now w }
    ensures most { names.new.most ≡ names.old.most }
    ensures kept { IsTrue result
        → AreKept names.new.bytes.items scopes.new.declared.items scopes.new.chains.chains }
    ensures added { (w : xml.WrittenAttribute) → IsWritten tag.now attribute.now w
        → MatchBool result
        (Adds
        (w ∷ []) names.old.bytes.items names.new.bytes.items scopes.old.declared.items
        scopes.new.declared.items)
        (names.old.most < length names.old.bytes.items + declared_length w) }
{
    let Some(declared) = attribute.declares(tag.as_bytes()) else {
        return true;
    };
    let start = names.len();
    if !names.push_all(declared) {
        return false;
    }
    let prefix = Span {
        start,
        length: declared.len(),
    };
    let start = names.len();
    if !push_value(names, &tag[attribute.value..], attribute.quote) {
        return false;
    }
    let uri = Span {
        start,
        length: names.len() - start,
    };
    scopes.declare(names, prefix, uri);
    true
}

/// Adds what these attributes declare, if there is room for all; whether there was.
fn add_all(names: &mut Room, scopes: &mut Scopes, tag: &str, list: &[Attribute]) -> bool
    requires room { length scopes.old.declared.items + length list.now ≤ MOST_DECLARED }
    requires kept { AreKept names.old.bytes.items scopes.old.declared.items
        scopes.old.chains.chains }
    requires written { (ws : List xml.WrittenAttribute) × AreWritten tag.now list.now ws }
    ensures most { names.new.most ≡ names.old.most }
    ensures kept { IsTrue result
        → AreKept names.new.bytes.items scopes.new.declared.items scopes.new.chains.chains }
    ensures added { (ws : List xml.WrittenAttribute) → AreWritten tag.now list.now ws
        → MatchBool result
        (Adds ws names.old.bytes.items names.new.bytes.items scopes.old.declared.items
        scopes.new.declared.items)
        (names.old.most < length names.old.bytes.items + sum_by declared_length ws) }
{
    for attribute in list {
        if !add_declared(names, scopes, tag, attribute) {
            return false;
        }
    }
    true
}

/// Whether all these declarations are lawful.
fn are_lawful(names: &Room, declared: &[Declared]) -> bool
    ensures { MatchBool result
        (AllByRecursion xml.IsLawfulBinding (map (binding_in names.now.bytes.items) declared.now))
        (AllByRecursion xml.IsLawfulBinding (map (binding_in names.now.bytes.items) declared.now)
        → ⊥) }
{
    for one in declared {
        if !is_lawful(one.prefix.of(names.bytes()), one.uri.of(names.bytes())) {
            return false;
        }
    }
    true
}

/// Whether an attribute is a declaration, or has no prefix or one that is bound.
fn is_bound(attribute: &Attribute, tag: &[u8], names: &Room, scopes: &Scopes) -> bool
    requires { scopes.now.chains.chains
        ≡ chains_in names.now.bytes.items scopes.now.declared.items }
    ensures { result
        ≡ has_meaning tag.now names.now.bytes.items scopes.now.declared.items attribute.now }
{
    if attribute.declares(tag).is_some() {
        return true;
    }
    let prefix = attribute.prefix.of(tag);
    if prefix == b"".as_slice() {
        return true;
    }
    scopes.bound(names, prefix).is_some()
}

/// Whether all are.
fn are_bound(list: &[Attribute], tag: &[u8], names: &Room, scopes: &Scopes) -> bool
    requires { scopes.now.chains.chains
        ≡ chains_in names.now.bytes.items scopes.now.declared.items }
    ensures { result
        ≡ list_all (has_meaning tag.now names.now.bytes.items scopes.now.declared.items) list.now }
{
    for attribute in list {
        if !is_bound(attribute, tag, names, scopes) {
            return false;
        }
    }
    true
}

impl Rooms {
    /// No name.
    pub fn new(alloc: Global) -> Result<Rooms, AllocError>
        ensures names { IfOk result (λ r. r.names.bytes.items ≡ []) }
        ensures most { IfOk result (λ r. r.names.most ≡ MOST_NAMES) }
        ensures declared { IfOk result (λ r. r.scopes.declared.items ≡ []) }
        ensures chains { IfOk result (λ r. r.scopes.chains.chains ≡ []) }
    {
        let names = Room::new(alloc, MOST_NAMES)?;
        let scopes = Scopes::new(alloc)?;
        let attributes = Attributes::new(alloc)?;
        Ok(Rooms {
            names,
            scopes,
            attributes,
        })
    }

    /// Adds the names of a tag: its own as it is written, which stands there, and those of its declarations. Where they
    /// have no room nothing is told.
    pub fn add_names(&mut self, tag: &str, name: Span) -> Option<Span>
        requires room { length self.old.scopes.declared.items + length
            self.old.attributes.list.items ≤ MOST_DECLARED }
        requires kept { AreKept self.old.names.bytes.items self.old.scopes.declared.items
            self.old.scopes.chains.chains }
        requires written { (ws : List xml.WrittenAttribute)
            × AreWritten tag.now self.old.attributes.list.items ws }
        ensures most { self.new.names.most ≡ self.old.names.most }
        ensures attributes { self.new.attributes ≡ self.old.attributes }
        ensures kept { MatchOption result (Unit {0})
            (λ _. AreKept self.new.names.bytes.items self.new.scopes.declared.items
            self.new.scopes.chains.chains) }
        ensures name { MatchOption result (Unit {0})
            (λ s. (s.start ≡ length self.old.names.bytes.items)
            × (s.length ≡ length (at_span name tag.now))) }
        ensures added { (ws : List xml.WrittenAttribute)
            → AreWritten tag.now self.old.attributes.list.items ws → MatchOption result
            (self.old.names.most < length self.old.names.bytes.items + length
            (at_span name tag.now) + sum_by declared_length ws)
            (λ _. Adds ws
            (self.old.names.bytes.items
            ++ at_span name tag.now) self.new.names.bytes.items self.old.scopes.declared.items
            self.new.scopes.declared.items) }
    {
        let start = self.names.len();
        let written = name.of(tag.as_bytes());
        if !self.names.push_all(written) {
            return None;
        }
        let length = written.len();
        let attributes = self.attributes.list();
        if add_all(&mut self.names, &mut self.scopes, tag, attributes) {
            Some(Span { start, length })
        } else {
            None
        }
    }

    /// Whether the attributes of a tag mean something, whose declarations stand behind the first so many (Namespaces in
    /// XML 1.0, 3, 5 and 6; XML 1.0, 3.1).
    pub fn are_meant(&mut self, tag: &[u8], before: usize) -> bool
        requires { self.old.scopes.chains.chains
            ≡ chains_in self.old.names.bytes.items self.old.scopes.declared.items }
        ensures names { self.new.names ≡ self.old.names }
        ensures scopes { self.new.scopes ≡ self.old.scopes }
        ensures list { self.new.attributes.list.items ≡ self.old.attributes.list.items }
        ensures meant { let bindings = map (binding_in self.old.names.bytes.items)
            (drop before self.old.scopes.declared.items) in
            MatchBool result
            (AreMeant tag.now self.old.names.bytes.items self.old.scopes.declared.items bindings
            self.old.attributes.list.items)
            (AreMeant tag.now self.old.names.bytes.items self.old.scopes.declared.items bindings
            self.old.attributes.list.items → ⊥) }
    {
        self.attributes.are_apart(tag, &self.names, &self.scopes)
            && are_lawful(&self.names, self.scopes.behind(before))
            && are_bound(self.attributes.list(), tag, &self.names, &self.scopes)
    }

    /// The expanded name of an element, where its prefix is bound (Namespaces in XML 1.0, 6.1 and 6.2).
    pub fn expanded<'n>(&'n self, tag: &'n [u8], name: &WrittenName) -> Option<Name<'n>>
        requires { self.now.scopes.chains.chains
            ≡ chains_in self.now.names.bytes.items self.now.scopes.declared.items }
        ensures { (scope : List Binding) → IsUtf8 (at_span name.now.local tag.now)
            → ((prefix uri : List ℕ)
            → bound_by (reverse self.now.scopes.declared.items) self.now.names.bytes.items prefix
            ≡ Some uri → IsUtf8 uri)
            → Binds
            (map (binding_in self.now.names.bytes.items) self.now.scopes.declared.items) scope
            → MatchOption result
            ((n : ExpandedName) → xml.ElementName scope (record {
              prefix = at_span name.now.prefix
                  tag.now;
              local = at_span name.now.local tag.now;
            }) n → ⊥)
            (λ n. xml.ElementName scope (record {
              prefix = at_span name.now.prefix tag.now;
              local =
                  at_span name.now.local tag.now;
            }) (seen.name n)) }
    {
        let local = text_of(name.local.of(tag));
        let prefix = name.prefix.of(tag);
        match self.scopes.bound(&self.names, prefix) {
            Some(bound) => Some(Name {
                uri: text_of(bound.named(&self.names)),
                local,
            }),
            None => {
                if prefix == b"".as_slice() {
                    Some(Name { uri: "", local })
                } else {
                    None
                }
            }
        }
    }

    /// The expanded name of an element that is written without a prefix (Namespaces in XML 1.0, 6.2).
    pub fn unprefixed<'n>(&'n self, local: &'n str) -> Name<'n>
        requires { self.now.scopes.chains.chains
            ≡ chains_in self.now.names.bytes.items self.now.scopes.declared.items }
        ensures { (scope : List Binding)
            → ((prefix uri : List ℕ)
            → bound_by (reverse self.now.scopes.declared.items) self.now.names.bytes.items prefix
            ≡ Some uri → IsUtf8 uri)
            → Binds
            (map (binding_in self.now.names.bytes.items) self.now.scopes.declared.items) scope
            → xml.ElementName scope (record {
              prefix = [];
              local = local.now;
            }) (seen.name result) }
    {
        match self.scopes.bound(&self.names, &[]) {
            Some(bound) => Name {
                uri: text_of(bound.named(&self.names)),
                local,
            },
            None => Name { uri: "", local },
        }
    }
}
