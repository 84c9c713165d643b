//! The composition of two sets of pairs, by the words of the left that aren't zero.
//! A product whose left is the set of each number with itself is a copy of its right.

ghost use Rattle.std.specs.Prelude.{◌≡◌, ◌≢◌, ◌⊎◌, ◌↔◌, ℕ, ◌+◌, ◌*◌, ◌/◌, ◌%◌, ◌^◌, ◌<◌, ◌≤◌, length, IsTrue};
ghost use Rattle.std.specs.Int.{bit_at};
ghost use Rattle.tc_mat.specs.Matrix.{words_a_row};
ghost use Rattle.tc_mat.specs.Factors.{AreFactors, IsTarget};
ghost use Rattle.tc_mat.specs.Product.{IsSet, HasBits, GainsBits, Leads, Told, IsUnit, IsUnitWord};

use crate::matrices::words_in_row;

/// Leaves the composition of `a` and `b` in `out`, all three of `n` rows. Behind each number with itself `b` is copied.
pub(crate) fn multiply(n: u32, a: &[u64], b: &[u64], out: &mut [u64])
    requires { AreFactors n a.now b.now out.old }
    ensures { HasBits n out.new
        (λ row word place. (by : ℕ) × (by < words_a_row n)
        × Leads n a.now b.now by row word place) }
{
    if is_identity(n, a) {
        out.copy_from_slice(b);
        return;
    }
    out.fill(0);
    let width = words_in_row(n);
    for (at, word) in a.iter().enumerate() {
        if *word != 0 {
            add_rows(n, *word, at % width, b, out, at / width);
        }
    }
}

/// True only where each row has exactly its own number.
fn is_identity(n: u32, a: &[u64]) -> bool
    requires left { length a.now ≡ n * words_a_row n }
    ensures { IsTrue result → (row : ℕ) → row < n → IsUnit n a.now row }
{
    for row in 0..n as usize {
        if !is_unit(n, a, row) {
            return false;
        }
    }
    true
}

/// True only of a row that has exactly its own number.
fn is_unit(n: u32, a: &[u64], row: usize) -> bool
    requires left { length a.now ≡ n * words_a_row n }
    requires row { row < n }
    ensures { IsTrue result → IsUnit n a.now row }
{
    let width = words_in_row(n);
    for word in 0..width {
        if a[row * width + word] != unit_word(row, word) {
            return false;
        }
    }
    true
}

/// A word of a row that has exactly its own number.
fn unit_word(row: usize, word: usize) -> u64
    ensures { IsUnitWord row word result }
{
    if word == row / 64 {
        1u64 << (row % 64)
    } else {
        0
    }
}

/// Adds what one word of the left leads to, which stands for 64 numbers, to a row.
fn add_rows(n: u32, told: u64, by: usize, b: &[u64], out: &mut [u64], row: usize)
    requires target { IsTarget n b.now out.old row }
    requires by { by < words_a_row n }
    requires told { (t : ℕ) → bit_at told t ≡ 1 → (t < 64) × (64 * by + t < n) }
    ensures { GainsBits n out.old out.new
        (λ x word place. (x ≡ row) × Told n b.now told by word place) }
{
    let mut rest = told;
    while rest != 0 {
        let place = rest.trailing_zeros();
        add_row(n, b, 64 * by + place as usize, out, row);
        rest = rest & !(1u64 << place);
    }
}

/// Adds one row of the right to a row.
fn add_row(n: u32, b: &[u64], from: usize, out: &mut [u64], row: usize)
    requires target { IsTarget n b.now out.old row }
    requires from { from < n }
    ensures { GainsBits n out.old out.new
        (λ x word place. (x ≡ row) × IsSet n b.now from word place) }
{
    let width = words_in_row(n);
    for word in 0..width {
        let at = row * width + word;
        out[at] = out[at] | b[from * width + word];
    }
}
