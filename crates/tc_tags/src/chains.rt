// Entries of a table by chains: those whose names may be the same are in one, so that a name is looked for among a few.
ghost use Rattle.std.specs.Prelude.{◌≡◌, ◌+◌, ◌<◌, ◌≤◌, ◌++◌, ◌∷◌, ◌-◌, [], length, take, reverse, slice_index, IfOk};
ghost use Rattle.tc_tags.specs.Chained.{mixed, chain_of, newest};

use std::alloc::{AllocError, Global};
use std::marker::Model;

/// How many chains there are.
const CHAINS: usize = 4_096;

/// An entry: its chain, and the next older entry of that, counted from 1, or 0.
#[derive(Clone, Copy)]
struct Link {
    chain: usize,
    older: usize,
}

/// The chains of the entries of a table, and of each chain its newest entry, counted from 1, or 0.
#[derive(Drop)]
pub(crate) struct Chains {
    most: usize,
    links: Vec<Link>,
    newest: Vec<usize>,
}

impl Model for Chains {
    ghost use Rattle.std.specs.Prelude.{◌≡◌, ◌≤◌, length, reverse, vec_len, vec_capacity};
    ghost use Rattle.tc_tags.specs.Chained.{Table, chains_of, AreLinked, AreNewest};

    ghost Value = { Table };

    ghost view = { λ c. record { most = c.most; chains = chains_of c.links.items } };

    ghost invariant = { λ c. (vec_len c.links ≤ c.most) × (c.most ≤ vec_capacity c.links) × (length c.newest.items ≡ 4096) × AreLinked (reverse c.links.items) × AreNewest (reverse c.links.items) c.newest.items };
}

/// What bytes make of a number (FNV-1a).
fn mixed(start: u32, bytes: &[u8]) -> u32
    ensures { result ≡ mixed start bytes.now }
{
    let mut hash = start;
    for byte in bytes {
        hash = (hash ^ u32::from(*byte)).wrapping_mul(0x0100_0193);
    }
    hash
}

/// The chain of a name of two parts.
pub(crate) fn chain_of(first: &[u8], second: &[u8]) -> usize
    ensures chain { result ≡ chain_of first.now second.now }
    ensures within { result < 4096 }
{
    mixed(mixed(0x811C_9DC5, first), second) as usize % CHAINS
}

impl Chains {
    /// No entry, and room for so many.
    pub(crate) fn new(alloc: Global, most: usize) -> Result<Chains, AllocError>
        ensures most { IfOk result (λ c. c.most ≡ most) }
        ensures chains { IfOk result (λ c. c.chains ≡ []) }
    {
        let links = Vec::with_capacity(alloc, most)?;
        let newest = vec![in alloc; 0usize; CHAINS]?;
        Ok(Chains {
            most,
            links,
            newest,
        })
    }

    /// How many entries there are.
    pub(crate) fn len(&self) -> usize
        ensures { result ≡ length self.now.chains }
    {
        self.links.len()
    }

    /// The newest entry of a chain, counted from 1, or 0.
    pub(crate) fn newest(&self, chain: usize) -> usize
        requires { chain < 4096 }
        ensures { result ≡ newest chain (reverse self.now.chains) }
    {
        self.newest[chain]
    }

    /// The next older entry of the chain of this one, both counted from 1, or 0.
    pub(crate) fn older(&self, entry: usize) -> usize
        requires some { 0 < entry }
        requires within { entry ≤ length self.now.chains }
        ensures { result ≡ newest (slice_index self.now.chains (entry - 1))
            (reverse (take (entry - 1) self.now.chains)) }
    {
        self.links[entry - 1].older
    }

    /// Adds an entry.
    pub(crate) fn push(&mut self, chain: usize)
        requires chain { chain < 4096 }
        requires room { length self.old.chains < self.old.most }
        ensures most { self.new.most ≡ self.old.most }
        ensures chains { self.new.chains ≡ self.old.chains ++ chain ∷ [] }
    {
        let link = Link {
            chain,
            older: self.newest[chain],
        };
        let count = self.links.len();
        if self.links.push(link).is_ok() {
            self.newest[chain] = count + 1;
        }
    }

    /// Takes the newest entry away, if there is one.
    fn forget(&mut self)
        ensures most { self.new.most ≡ self.old.most }
        ensures chains { self.new.chains ≡ take (length self.old.chains - 1) self.old.chains }
    {
        if let Some(link) = self.links.pop() {
            self.newest[link.chain] = link.older;
        }
    }

    /// Keeps the first so many.
    pub(crate) fn keep(&mut self, count: usize)
        ensures most { self.new.most ≡ self.old.most }
        ensures chains { self.new.chains ≡ take count self.old.chains }
    {
        while self.len() > count {
            self.forget();
        }
    }
}
