// Sets of numbers below a size.
ghost use Rattle.std.specs.Prelude.{◌≡◌, ◌<◌, ◌↔◌, ◌⊎◌, ℕ, IfOk, IsTrue, nat_eq, ◌++◌};
ghost use Rattle.std.specs.Hash as fed;
ghost use Rattle.std.specs.Cmp.Lexicographic.{pointwise};
ghost use Rattle.std.specs.Ordering.{on, eq_of_both};
ghost use Rattle.std.specs.Cmp.Rules.{comparing, hashing};
ghost use Rattle.std.proofs.Common.{rules};
ghost use Rattle.tc_sets.specs.Numbers.{Has, HasNone, IsSet, AreApart, SetsHaveOneForm};

use crate::words::{are_apart, are_zero, is_bit_set, join, meet, set_bit, words_for};
use std::alloc::Global;
use std::hash::{Hash, Hasher};
use std::marker::Model;
use tc_base::NoMemory;

/// A set of numbers below its size.
///
/// The bit of number j stands in word j / 64, place j % 64; all other bits are zero.
#[derive(Drop)]
pub struct Set {
    n: u32,
    words: Vec<u64>,
}

impl Model for Set {
    ghost use Rattle.tc_sets.specs.Numbers.{Numbers, IsSet};

    ghost Value = { Numbers };

    ghost view = { λ s. record { size = s.n; words = s.words.items } };

    ghost invariant = { λ s. IsSet (record { size = s.n; words = s.words.items }) };
}

impl Set {
    /// The empty set.
    ///
    /// # Errors
    ///
    /// There is no memory for the words.
    pub fn empty(alloc: Global, n: u32) -> Result<Set, NoMemory>
        ensures size { IfOk result (λ s. s.size ≡ n) }
        ensures numbers { IfOk result (λ s. HasNone s) }
    {
        let words = vec![in alloc; 0u64; words_for(n)]?;
        Ok(Set { n, words })
    }

    /// The number below which the set's numbers are.
    pub fn size(&self) -> u32
        ensures size { result ≡ self.now.size }
        ensures set { IsSet self.now }
    {
        self.n
    }

    /// Whether a number is in the set.
    pub fn has(&self, number: u32) -> bool
        requires { number < self.now.size }
        ensures { IsTrue result ↔ Has self.now number }
    {
        is_bit_set(&self.words, number as usize / 64, number % 64)
    }

    /// Puts a number into the set.
    pub fn add(&mut self, number: u32)
        requires { number < self.old.size }
        ensures size { self.new.size ≡ self.old.size }
        ensures numbers { (j : ℕ) → Has self.new j ↔ (Has self.old j ⊎ (j ≡ number)) }
    {
        let word = number as usize / 64;
        set_bit(self.words.as_mut_slice(), word, number % 64);
    }

    /// Takes all numbers out of the set.
    pub fn clear(&mut self)
        ensures size { self.new.size ≡ self.old.size }
        ensures numbers { HasNone self.new }
    {
        self.words.as_mut_slice().fill(0);
    }

    /// Puts the numbers of another set of this size into the set.
    pub fn add_all(&mut self, other: &Set)
        requires { other.now.size ≡ self.old.size }
        ensures size { self.new.size ≡ self.old.size }
        ensures numbers { (j : ℕ) → Has self.new j ↔ (Has self.old j ⊎ Has other.now j) }
    {
        join(self.words.as_mut_slice(), &other.words);
    }

    /// Takes all numbers out of the set that aren't in another set of this size.
    pub fn keep_all(&mut self, other: &Set)
        requires { other.now.size ≡ self.old.size }
        ensures size { self.new.size ≡ self.old.size }
        ensures numbers { (j : ℕ) → Has self.new j ↔ (Has self.old j × Has other.now j) }
    {
        meet(self.words.as_mut_slice(), &other.words);
    }

    /// Whether the set has no number.
    pub fn is_empty(&self) -> bool
        ensures { IsTrue result ↔ HasNone self.now }
    {
        are_zero(&self.words)
    }

    /// Whether no number is in the set and in another set of this size.
    pub fn is_apart(&self, other: &Set) -> bool
        requires { other.now.size ≡ self.now.size }
        ensures { IsTrue result ↔ AreApart self.now other.now }
    {
        are_apart(&self.words, &other.words)
    }
}

impl PartialEq for Set {
    ghost eq = { eq_of_both (on (λ s. s.size) nat_eq) (on (λ s. s.words) (pointwise nat_eq)) };

    ghost laws = { Prim.search (comparing, rules) };

    fn eq(&self, other: &Set) -> bool {
        self.n == other.n && self.words == other.words
    }
}

impl Eq for Set {
    ghost laws = { Prim.search (comparing, rules) };
}

impl Hash for Set {
    ghost hash_input = { λ s. fed.slice fed.u64 s.words ++ fed.u32 s.size };

    ghost respects_eq = { Prim.search (hashing, rules) };

    fn hash<H: Hasher>(&self, state: &mut H) {
        self.words.hash(state);
        state.write_u32(self.n);
    }
}

/// At one size, equal sets are kept as equal words.
pub fn sets_have_one_form()
    ensures { SetsHaveOneForm }
{}
