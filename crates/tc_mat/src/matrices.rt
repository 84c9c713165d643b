//! Sets of pairs of numbers below a size.

ghost use Rattle.std.specs.Prelude.{◌≡◌, ◌≢◌, ◌⊎◌, ◌↔◌, ℕ, ◌+◌, ◌*◌, ◌/◌, ◌%◌, ◌^◌, ◌<◌, ◌≤◌, length, slice_index, slice_set, IfOk, IsTrue, nat_eq, bit_or, ◌++◌};
ghost use Rattle.std.specs.Int.{bit_at};
ghost use Rattle.std.specs.Hash as fed;
ghost use Rattle.std.specs.Cmp.Lexicographic.{pointwise};
ghost use Rattle.std.specs.Ordering.{on, eq_of_both};
ghost use Rattle.std.specs.Cmp.Rules.{comparing, hashing};
ghost use Rattle.std.proofs.Common.{rules};
ghost use Rattle.tc_mat.specs.Matrix.{words_a_row, HasPair, IsMatrix, HasNone, IsIdentity, Gains, IsComposition, SetsHaveOneForm};

use crate::products::multiply;
use std::alloc::Global;
use std::hash::{Hash, Hasher};
use std::marker::Model;
use tc_base::NoMemory;

/// A set of pairs of numbers below its size.
///
/// The bit of the pair (i, j) stands in row i, word j / 64, place j % 64; all other bits are zero.
#[derive(Drop)]
pub struct Mat {
    n: u32,
    rows: Vec<u64>,
}

impl Model for Mat {
    ghost use Rattle.tc_mat.specs.Matrix.{Matrix, IsMatrix};

    ghost Value = { Matrix };

    ghost view = { λ m. record { size = m.n; words = m.rows.items } };

    ghost invariant = { λ m. IsMatrix (record { size = m.n; words = m.rows.items }) };
}

impl Mat {
    /// The empty set.
    ///
    /// # Errors
    ///
    /// There is no memory for the rows.
    pub fn zero(alloc: Global, n: u32) -> Result<Mat, NoMemory>
        ensures size { IfOk result (λ m. m.size ≡ n) }
        ensures pairs { IfOk result (λ m. HasNone m) }
        ensures matrix { IfOk result (λ m. IsMatrix m) }
    {
        let rows = vec![in alloc; 0u64; n as usize * words_in_row(n)]?;
        Ok(Mat { n, rows })
    }

    /// The pairs of each number below `n` with itself.
    ///
    /// # Errors
    ///
    /// There is no memory for the rows.
    pub fn identity(alloc: Global, n: u32) -> Result<Mat, NoMemory>
        ensures size { IfOk result (λ m. m.size ≡ n) }
        ensures pairs { IfOk result (λ m. IsIdentity m) }
        ensures matrix { IfOk result (λ m. IsMatrix m) }
    {
        let mut mat = Mat::zero(alloc, n)?;
        for i in 0..n {
            mat.set(i, i);
        }
        Ok(mat)
    }

    /// The number below which the pairs' numbers are.
    pub fn size(&self) -> u32
        ensures size { result ≡ self.now.size }
        ensures matrix { IsMatrix self.now }
    {
        self.n
    }

    /// The same set in memory of its own.
    ///
    /// # Errors
    ///
    /// There is no memory for the rows.
    pub fn copied(&self, alloc: Global) -> Result<Mat, NoMemory>
        ensures same { IfOk result (λ m. m ≡ self.now) }
        ensures matrix { IfOk result (λ m. IsMatrix m) }
    {
        let rows = Vec::from_slice(alloc, &self.rows)?;
        Ok(Mat { n: self.n, rows })
    }

    /// The words that are kept, row by row, (size + 63) / 64 words a row.
    pub fn words(&self) -> &[u64]
        ensures words { result.now ≡ self.now.words }
        ensures matrix { IsMatrix self.now }
    {
        self.rows.as_slice()
    }

    /// Whether a pair is in the set.
    pub fn has(&self, i: u32, j: u32) -> bool
        requires row { i < self.now.size }
        requires column { j < self.now.size }
        ensures { IsTrue result ↔ HasPair self.now i j }
    {
        is_bit_set(
            &self.rows,
            i as usize * words_in_row(self.n) + j as usize / 64,
            j % 64,
        )
    }

    /// Puts a pair into the set.
    pub fn set(&mut self, i: u32, j: u32)
        requires row { i < self.old.size }
        requires column { j < self.old.size }
        ensures size { self.new.size ≡ self.old.size }
        ensures pairs { Gains self.old i j self.new }
        ensures matrix { IsMatrix self.new }
    {
        let word = i as usize * words_in_row(self.n) + j as usize / 64;
        set_bit(self.rows.as_mut_slice(), word, j % 64);
    }

    /// Takes all pairs out of the set.
    pub fn clear(&mut self)
        ensures size { self.new.size ≡ self.old.size }
        ensures pairs { HasNone self.new }
        ensures matrix { IsMatrix self.new }
    {
        self.rows.as_mut_slice().fill(0);
    }

    /// Leaves the composition of two sets in `out`, whatever it held: the pairs (i, j) such that
    /// some (i, k) is in `a` and (k, j) in `b`. It takes no memory.
    pub fn mul_into(a: &Mat, b: &Mat, out: &mut Mat)
        requires left { a.now.size ≡ out.old.size }
        requires right { b.now.size ≡ out.old.size }
        ensures size { out.new.size ≡ out.old.size }
        ensures pairs { IsComposition a.now b.now out.new }
        ensures matrix { IsMatrix out.new }
    {
        multiply(
            out.n,
            a.rows.as_slice(),
            b.rows.as_slice(),
            out.rows.as_mut_slice(),
        );
    }
}

impl PartialEq for Mat {
    ghost eq = { eq_of_both (on (λ m. m.size) nat_eq) (on (λ m. m.words) (pointwise nat_eq)) };

    ghost laws = { Prim.search (comparing, rules) };

    fn eq(&self, other: &Mat) -> bool {
        self.n == other.n && self.rows == other.rows
    }
}

impl Eq for Mat {
    ghost laws = { Prim.search (comparing, rules) };
}

impl Hash for Mat {
    ghost hash_input = { λ m. fed.slice fed.u64 m.words ++ fed.u32 m.size };

    ghost respects_eq = { Prim.search (hashing, rules) };

    fn hash<H: Hasher>(&self, state: &mut H) {
        self.rows.hash(state);
        state.write_u32(self.n);
    }
}

/// At one size, equal sets of pairs are kept as equal words.
pub fn sets_have_one_form()
    ensures { SetsHaveOneForm }
{}

/// How many words a row takes.
pub(crate) fn words_in_row(n: u32) -> usize
    ensures { result ≡ words_a_row n }
{
    (n as usize + 63) / 64
}

fn is_bit_set(words: &[u64], word: usize, place: u32) -> bool
    requires within { word < length words.now }
    requires place { place < 64 }
    ensures { IsTrue result ↔ (bit_at (slice_index words.now word) place ≡ 1) }
{
    (words[word] >> place) & 1 == 1
}

fn set_bit(words: &mut [u64], word: usize, place: u32)
    requires within { word < length words.old }
    requires place { place < 64 }
    ensures { words.new
        ≡ slice_set words.old word (bit_or (slice_index words.old word) (2 ^ place)) }
{
    words[word] = words[word] | (1u64 << place);
}
