// The attributes of one tag, in a table that is taken once (XML 1.0, 3.1).
ghost use Rattle.std.specs.Prelude.{◌≡◌, ◌+◌, ◌<◌, ◌≤◌, ◌++◌, ◌∷◌, [], length, map, take, reverse, slice_set, slice_index_or, vec_len, vec_capacity, IfOk, IfSome, IsTrue, MatchBool, MatchOption, None, Some};
ghost use Rattle.std.specs.List.{IsDistinct, AllByRecursion};
ghost use Rattle.tc_tags.specs.Listed.{HasNoPrefix};
ghost use Rattle.tc_tags.specs.declared.attributes.TheConstants.{MOST_ATTRIBUTES};

use crate::chains::{Chains, chain_of};
use crate::distinct::all_differ;
use crate::names::{Room, Span};
use crate::scopes::Scopes;
use std::alloc::{AllocError, Global};

/// The most attributes of a tag of 65,536 bytes, each of which has five at least: `<a` and 13,106 attributes.
pub(crate) const MOST_ATTRIBUTES: usize = 13_106;

/// How many attributes are told apart by chains. Of more of them the names are put in order, as long as there is memory: who
/// writes names can put them all into one chain.
const CHAINED: usize = 64;

/// An attribute, by where the parts of its name stand in the tag, its quote, and where its value begins behind that.
#[derive(Clone, Copy)]
pub(crate) struct Attribute {
    pub(crate) prefix: Span,
    pub(crate) local: Span,
    pub(crate) value: usize,
    pub(crate) quote: u8,
}

/// Which names of attributes are told from one another.
#[derive(Clone, Copy)]
enum Sort {
    /// As they are written (XML 1.0, 3.1, Unique Att Spec).
    Written,
    /// Expanded names (Namespaces in XML 1.0, 6.3).
    Expanded,
}

/// The attributes of a tag.
#[derive(Drop)]
pub struct Attributes {
    alloc: Global,
    list: Vec<Attribute>,
    chains: Chains,
    ghost few: { vec_len list ≤ MOST_ATTRIBUTES },
    ghost is_taken: { MOST_ATTRIBUTES ≤ vec_capacity list },
    ghost room: { chains.most ≡ MOST_ATTRIBUTES },
    ghost at_rest: { chains.chains ≡ [] },
}

impl Attribute {
    ghost use Rattle.std.specs.Prelude.{true, false};
    ghost use Rattle.tc_tags.specs.Scoped.{chains_in};
    ghost use Rattle.tc_tags.specs.Spans.{at_span};
    ghost use Rattle.tc_tags.specs.Listed.{is_declared, declared_prefix, uri_bytes};

    /// The prefix that it declares, where it is a declaration (Namespaces in XML 1.0, 3, [1] to [3]).
    pub(crate) fn declares<'t>(&self, tag: &'t [u8]) -> Option<&'t [u8]>
        ensures { MatchOption result
            (is_declared (at_span self.now.prefix tag.now) (at_span self.now.local tag.now) ≡ false)
            (λ prefix. (is_declared (at_span self.now.prefix tag.now)
            (at_span self.now.local tag.now) ≡ true)
            × (prefix.now
            ≡ declared_prefix (at_span self.now.prefix tag.now) (at_span self.now.local tag.now))) }
    {
        let prefix = self.prefix.of(tag);
        let local = self.local.of(tag);
        if prefix == b"".as_slice() && local == b"xmlns".as_slice() {
            return Some(b"".as_slice());
        }
        if prefix == b"xmlns".as_slice() {
            return Some(local);
        }
        None
    }

    /// Its namespace name, empty where it has none: it is no declaration.
    fn uri<'n>(&self, tag: &[u8], names: &'n Room, scopes: &Scopes) -> &'n [u8]
        requires { scopes.now.chains.chains
            ≡ chains_in names.now.bytes.items scopes.now.declared.items }
        ensures { result.now ≡ uri_bytes names.now.bytes.items scopes.now.declared.items
            (at_span self.now.prefix tag.now) }
    {
        let prefix = self.prefix.of(tag);
        if prefix == b"".as_slice() {
            return b"".as_slice();
        }
        match scopes.bound(names, prefix) {
            Some(bound) => bound.named(names),
            None => b"".as_slice(),
        }
    }
}

impl Sort {
    ghost use Rattle.tc_tags.specs.Scoped.{chains_in};
    ghost use Rattle.tc_tags.specs.Listed.{same_parts, parts, chain_of_parts, chains_of_parts, has_parts, all_parts, shown, is_among};

    /// The name of an attribute, unless it has none.
    fn name<'n>(
        self,
        attribute: &Attribute,
        tag: &'n [u8],
        names: &'n Room,
        scopes: &Scopes,
    ) -> Option<(&'n [u8], &'n [u8])>
        requires { scopes.now.chains.chains
            ≡ chains_in names.now.bytes.items scopes.now.declared.items }
        ensures { MatchOption result
            (parts self tag.now names.now.bytes.items scopes.now.declared.items attribute.now
            ≡ None)
            (λ r. parts self tag.now names.now.bytes.items scopes.now.declared.items attribute.now
            ≡ Some (r.0.now, r.1.now)) }
    {
        match self {
            Sort::Written => Some((attribute.prefix.of(tag), attribute.local.of(tag))),
            Sort::Expanded => {
                match attribute.declares(tag) {
                    Some(_) => None,
                    None => Some((attribute.uri(tag, names, scopes), attribute.local.of(tag))),
                }
            }
        }
    }

    /// The names of all attributes that have one, the local part first, if there is memory for them. So namespace names, which
    /// may be long, are compared only where the local parts are the same.
    fn all_names<'n>(
        self,
        alloc: Global,
        list: &[Attribute],
        tag: &'n [u8],
        names: &'n Room,
        scopes: &Scopes,
    ) -> Option<Vec<(&'n [u8], &'n [u8])>>
        requires { scopes.now.chains.chains
            ≡ chains_in names.now.bytes.items scopes.now.declared.items }
        ensures { IfSome result (λ found. map shown found.items
            ≡ all_parts self tag.now names.now.bytes.items scopes.now.declared.items list.now) }
    {
        let mut found = Vec::with_capacity(alloc, list.len()).ok()?;
        for attribute in list {
            let Some((first, second)) = self.name(attribute, tag, names, scopes) else {
                continue;
            };
            found.push((second, first)).ok()?;
        }
        Some(found)
    }

    /// The chain of the name of an attribute.
    fn chain(self, attribute: &Attribute, tag: &[u8], names: &Room, scopes: &Scopes) -> usize
        requires { scopes.now.chains.chains
            ≡ chains_in names.now.bytes.items scopes.now.declared.items }
        ensures chain { result ≡ chain_of_parts
            (parts self tag.now names.now.bytes.items scopes.now.declared.items attribute.now) }
        ensures within { result < 4096 }
    {
        match self.name(attribute, tag, names, scopes) {
            Some((first, second)) => chain_of(first, second),
            None => 0,
        }
    }

    /// Whether an attribute has the name of these parts.
    fn has(
        self,
        attribute: &Attribute,
        tag: &[u8],
        names: &Room,
        scopes: &Scopes,
        name: (&[u8], &[u8]),
    ) -> bool
        requires { scopes.now.chains.chains
            ≡ chains_in names.now.bytes.items scopes.now.declared.items }
        ensures { result ≡ has_parts (name.entry.0.now, name.entry.1.now)
            (parts self tag.now names.now.bytes.items scopes.now.declared.items attribute.now) }
    {
        match self.name(attribute, tag, names, scopes) {
            Some(other) => other.0 == name.0 && other.1 == name.1,
            None => false,
        }
    }

    /// Whether one of these attributes, which are in the chains, has the name of this one.
    fn occurs(
        self,
        seen: &[Attribute],
        chains: &Chains,
        attribute: &Attribute,
        tag: &[u8],
        names: &Room,
        scopes: &Scopes,
    ) -> bool
        requires scopes { scopes.now.chains.chains
            ≡ chains_in names.now.bytes.items scopes.now.declared.items }
        requires seen { chains.now.chains
            ≡ chains_of_parts self tag.now names.now.bytes.items scopes.now.declared.items seen.now }
        ensures { result
            ≡ is_among
            (parts self tag.now names.now.bytes.items scopes.now.declared.items attribute.now)
            (all_parts self tag.now names.now.bytes.items scopes.now.declared.items seen.now) }
    {
        let Some(name) = self.name(attribute, tag, names, scopes) else {
            return false;
        };
        let mut at = chains.newest(chain_of(name.0, name.1));
        while at > 0 {
            if self.has(&seen[at - 1], tag, names, scopes, name) {
                return true;
            }
            at = chains.older(at);
        }
        false
    }

    /// Whether no two have one name. The chains are used for it.
    fn are_apart(
        self,
        list: &[Attribute],
        chains: &mut Chains,
        tag: &[u8],
        names: &Room,
        scopes: &Scopes,
    ) -> bool
        requires scopes { scopes.now.chains.chains
            ≡ chains_in names.now.bytes.items scopes.now.declared.items }
        requires none { chains.old.chains ≡ [] }
        requires room { length list.now ≤ chains.old.most }
        ensures most { chains.new.most ≡ chains.old.most }
        ensures apart { MatchBool result
            (IsDistinct same_parts
            (all_parts self tag.now names.now.bytes.items scopes.now.declared.items list.now))
            (IsDistinct same_parts
            (all_parts self tag.now names.now.bytes.items scopes.now.declared.items list.now) → ⊥) }
    {
        for at in 0..list.len() {
            let attribute = &list[at];
            if self.occurs(&list[..at], chains, attribute, tag, names, scopes) {
                return false;
            }
            chains.push(self.chain(attribute, tag, names, scopes));
        }
        true
    }
}

/// True only where no attribute has a prefix: then expanded names differ where written ones do.
fn have_no_prefix(list: &[Attribute]) -> bool
    ensures { IsTrue result → AllByRecursion HasNoPrefix list.now }
{
    for attribute in list {
        if attribute.prefix.length != 0 {
            return false;
        }
    }
    true
}

impl Attributes {
    ghost use Rattle.tc_tags.specs.Scoped.{chains_in};
    ghost use Rattle.tc_tags.specs.Listed.{same_parts, all_parts};
    ghost use Rattle.tc_tags.specs.declared.attributes.Sort.TheVariants.{Written, Expanded};

    /// A table without attributes.
    pub(crate) fn new(alloc: Global) -> Result<Attributes, AllocError>
        ensures { IfOk result (λ a. a.list.items ≡ []) }
    {
        let list = Vec::with_capacity(alloc, MOST_ATTRIBUTES)?;
        let chains = Chains::new(alloc, MOST_ATTRIBUTES)?;
        Ok(Attributes {
            alloc,
            list,
            chains,
        })
    }

    /// All of them.
    pub(crate) fn list(&self) -> &[Attribute]
        ensures { result.now ≡ self.now.list.items }
    {
        &self.list
    }

    /// Takes all away.
    pub(crate) fn clear(&mut self)
        ensures { self.new.list.items ≡ [] }
    {
        self.list.clear();
    }

    /// Adds one.
    pub(crate) fn push(&mut self, attribute: Attribute)
        requires { length self.old.list.items < MOST_ATTRIBUTES }
        ensures { self.new.list.items ≡ self.old.list.items ++ attribute ∷ [] }
    {
        let _is_pushed = self.list.push(attribute).is_ok();
    }

    /// Whether no two have one name of this sort.
    fn are_once(&mut self, sort: Sort, tag: &[u8], names: &Room, scopes: &Scopes) -> bool
        requires { scopes.now.chains.chains
            ≡ chains_in names.now.bytes.items scopes.now.declared.items }
        ensures list { self.new.list.items ≡ self.old.list.items }
        ensures once { MatchBool result
            (IsDistinct same_parts
            (all_parts sort tag.now names.now.bytes.items scopes.now.declared.items
            self.old.list.items))
            (IsDistinct same_parts
            (all_parts sort tag.now names.now.bytes.items scopes.now.declared.items
            self.old.list.items) → ⊥) }
    {
        if self.list.len() > CHAINED {
            if let Some(mut found) = sort.all_names(self.alloc, &self.list, tag, names, scopes) {
                return all_differ(&mut found);
            }
        }
        let once = sort.are_apart(&self.list, &mut self.chains, tag, names, scopes);
        self.chains.keep(0);
        once
    }

    /// Whether no two are written alike (XML 1.0, 3.1, Unique Att Spec), and no two have one expanded name (Namespaces in
    /// XML 1.0, 6.3).
    pub(crate) fn are_apart(&mut self, tag: &[u8], names: &Room, scopes: &Scopes) -> bool
        requires { scopes.now.chains.chains
            ≡ chains_in names.now.bytes.items scopes.now.declared.items }
        ensures list { self.new.list.items ≡ self.old.list.items }
        ensures apart { MatchBool result
            (IsDistinct same_parts
            (all_parts Written tag.now names.now.bytes.items scopes.now.declared.items
            self.old.list.items)
            × IsDistinct same_parts
            (all_parts Expanded tag.now names.now.bytes.items scopes.now.declared.items
            self.old.list.items))
            (IsDistinct same_parts
            (all_parts Written tag.now names.now.bytes.items scopes.now.declared.items
            self.old.list.items)
            → IsDistinct same_parts
            (all_parts Expanded tag.now names.now.bytes.items scopes.now.declared.items
            self.old.list.items) → ⊥) }
    {
        if self.list.is_empty() {
            return true;
        }
        self.are_once(Sort::Written, tag, names, scopes)
            && (have_no_prefix(&self.list) || self.are_once(Sort::Expanded, tag, names, scopes))
    }
}
