// Words of 64 bits, one after another.
ghost use Rattle.std.specs.Prelude.{◌≡◌, ◌≢◌, ◌<◌, ◌^◌, ◌↔◌, ℕ, bit_and, bit_or, length, slice_index, slice_set, EachIndex, IsTrue, false};
ghost use Rattle.std.specs.Int.{bit_at};
ghost use Rattle.tc_sets.specs.Numbers.{words_for};

/// How many words numbers below `n` take.
pub(crate) fn words_for(n: u32) -> usize
    ensures { result ≡ words_for n }
{
    (n as usize + 63) / 64
}

/// Whether the bit at a place of a word is set.
pub(crate) fn is_bit_set(words: &[u64], word: usize, place: u32) -> bool
    requires within { word < length words.now }
    requires place { place < 64 }
    ensures { IsTrue result ↔ (bit_at (slice_index words.now word) place ≡ 1) }
{
    (words[word] >> place) & 1 == 1
}

/// Sets the bit at a place of a word.
pub(crate) fn set_bit(words: &mut [u64], word: usize, place: u32)
    requires within { word < length words.old }
    requires place { place < 64 }
    ensures { words.new
        ≡ slice_set words.old word (bit_or (slice_index words.old word) (2 ^ place)) }
{
    words[word] = words[word] | (1u64 << place);
}

/// Sets the bits that are set in other words.
pub(crate) fn join(words: &mut [u64], other: &[u64])
    requires { length words.old ≡ length other.now }
    ensures { (w : ℕ) → slice_index words.new w
        ≡ bit_or (slice_index words.old w) (slice_index other.now w) }
{
    for k in 0..words.len() {
        words[k] = words[k] | other[k];
    }
}

/// Leaves the bits alone that are set in other words too.
pub(crate) fn meet(words: &mut [u64], other: &[u64])
    requires { length words.old ≡ length other.now }
    ensures { (w : ℕ) → slice_index words.new w
        ≡ bit_and (slice_index words.old w) (slice_index other.now w) }
{
    for k in 0..words.len() {
        words[k] = words[k] & other[k];
    }
}

/// Whether no bit is set.
pub(crate) fn are_zero(words: &[u64]) -> bool
    ensures { IsTrue result ↔ EachIndex words.now (λ k. slice_index words.now k ≡ 0) }
{
    words.iter().all(|word| *word == 0)
}

/// Whether no bit is set in both.
pub(crate) fn are_apart(words: &[u64], other: &[u64]) -> bool
    requires { length words.now ≡ length other.now }
    ensures yes { IsTrue result → (w : ℕ) → w < length words.now
        → bit_and (slice_index words.now w) (slice_index other.now w) ≡ 0 }
    ensures no { result ≡ false → (w : ℕ)
        × (bit_and (slice_index words.now w) (slice_index other.now w) ≢ 0) }
{
    for k in 0..words.len() {
        if words[k] & other[k] != 0 {
            return false;
        }
    }
    true
}
