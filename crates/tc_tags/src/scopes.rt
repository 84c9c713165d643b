// The prefixes in scope (Namespaces in XML 1.0, 3 and 6.1).
ghost use Rattle.std.specs.Prelude.{◌≡◌, ◌+◌, ◌<◌, ◌≤◌, ◌++◌, ◌∷◌, [], length, take, drop, reverse, vec_capacity, IfOk, Some};
ghost use Rattle.tc_tags.specs.declared.scopes.TheConstants.{MOST_DECLARED};

use crate::chains::{Chains, chain_of};
use crate::names::{Room, Span};
use std::alloc::{AllocError, Global};

/// The most declarations. Those of open elements have at least two bytes each in 65,536 bytes of names, but for one in
/// each of 2,000 elements, whose name has one byte at least: 33,768. A tag of which it isn't known yet what its names
/// mean has 13,106 attributes at most.
pub(crate) const MOST_DECLARED: usize = 46_874;

/// The namespace of the prefix `xml`.
pub(crate) const XML: &str = "http://www.w3.org/XML/1998/namespace";

/// A declaration, by where its prefix and its namespace name stand among the names of open elements.
#[derive(Clone, Copy)]
pub(crate) struct Declared {
    pub(crate) prefix: Span,
    pub(crate) uri: Span,
}

/// What a prefix is bound to.
#[derive(Clone, Copy)]
pub(crate) enum Bound {
    /// The namespace of the prefix `xml`.
    Xml,
    /// The name that stands here.
    Name(Span),
}

/// The declarations of the elements that are open, the innermost last, by chains of their prefixes.
#[derive(Drop)]
pub struct Scopes {
    declared: Vec<Declared>,
    chains: Chains,
    ghost is_taken: { MOST_DECLARED ≤ vec_capacity declared },
    ghost room: { chains.most ≡ MOST_DECLARED },
}

impl Bound {
    ghost use Rattle.tc_tags.specs.Scoped.{bound_bytes};

    /// The namespace name.
    pub(crate) fn named(self, names: &Room) -> &[u8]
        ensures { Some result.now ≡ bound_bytes names.now.bytes.items (Some self) }
    {
        match self {
            Bound::Xml => XML.as_bytes(),
            Bound::Name(span) => span.of(names.bytes()),
        }
    }
}

impl Scopes {
    ghost use Rattle.tc_tags.specs.Chained.{first_such};
    ghost use Rattle.tc_tags.specs.Scoped.{chains_in, declares, bound_by, bound_bytes};

    /// None.
    pub(crate) fn new(alloc: Global) -> Result<Scopes, AllocError>
        ensures declared { IfOk result (λ s. s.declared.items ≡ []) }
        ensures chains { IfOk result (λ s. s.chains.chains ≡ []) }
    {
        let declared = Vec::with_capacity(alloc, MOST_DECLARED)?;
        let chains = Chains::new(alloc, MOST_DECLARED)?;
        Ok(Scopes { declared, chains })
    }

    /// How many declarations there are.
    pub fn len(&self) -> usize
        ensures { result ≡ length self.now.declared.items }
    {
        self.declared.len()
    }

    /// Those behind the first so many.
    pub(crate) fn behind(&self, count: usize) -> &[Declared]
        ensures { result.now ≡ drop count self.now.declared.items }
    {
        &self.declared[count.min(self.declared.len())..]
    }

    /// Keeps the first so many.
    pub fn keep(&mut self, count: usize)
        ensures declared { self.new.declared.items ≡ take count self.old.declared.items }
        ensures chains { self.new.chains.chains ≡ take count self.old.chains.chains }
    {
        self.declared.truncate(count);
        self.chains.keep(count);
    }

    /// Declares the prefix that stands at one place, and binds it to the namespace name at the other.
    pub(crate) fn declare(&mut self, names: &Room, prefix: Span, uri: Span)
        requires room { length self.old.declared.items < MOST_DECLARED }
        requires chained { self.old.chains.chains
            ≡ chains_in names.now.bytes.items self.old.declared.items }
        ensures declared { self.new.declared.items ≡ self.old.declared.items
            ++ record { prefix = prefix; uri = uri } ∷ [] }
        ensures chained { self.new.chains.chains
            ≡ chains_in names.now.bytes.items self.new.declared.items }
    {
        let chain = chain_of(prefix.of(names.bytes()), &[]);
        if self.declared.push(Declared { prefix, uri }).is_ok() {
            self.chains.push(chain);
        }
    }

    /// The innermost declaration of a prefix.
    fn found(&self, names: &Room, prefix: &[u8]) -> Option<Declared>
        requires chained { self.now.chains.chains
            ≡ chains_in names.now.bytes.items self.now.declared.items }
        ensures { result ≡ first_such (declares names.now.bytes.items prefix.now)
            (reverse self.now.declared.items) }
    {
        let mut at = self.chains.newest(chain_of(prefix, &[]));
        while at > 0 {
            let declared = self.declared[at - 1];
            if declared.prefix.of(names.bytes()) == prefix {
                return Some(declared);
            }
            at = self.chains.older(at);
        }
        None
    }

    /// What a prefix is bound to by the innermost declaration.
    pub(crate) fn bound(&self, names: &Room, prefix: &[u8]) -> Option<Bound>
        requires chained { self.now.chains.chains
            ≡ chains_in names.now.bytes.items self.now.declared.items }
        ensures { bound_bytes names.now.bytes.items result
            ≡ bound_by (reverse self.now.declared.items) names.now.bytes.items prefix.now }
    {
        match self.found(names, prefix) {
            Some(declared) => {
                if declared.uri.of(names.bytes()).is_empty() {
                    None
                } else {
                    Some(Bound::Name(declared.uri))
                }
            }
            None => {
                if prefix == b"xml".as_slice() {
                    Some(Bound::Xml)
                } else {
                    None
                }
            }
        }
    }
}
