// A hasher of lists of numbers.
// It takes each number in one multiplication, where the kit's hashers take its bytes, and answers its state
// as it is, since the set folds the two halves itself.
ghost use Rattle.std.specs.Prelude.{◌≡◌, slice_index};
ghost use Rattle.std.specs.Int.{w32, from_le_bytes};
ghost use Rattle.tc_close.specs.Hashing.{stepped};

use std::hash::Hasher;

/// What numbers are multiplied by, so that those that are like one another lead far apart: 2 to the 64 by the golden ratio.
pub(crate) const MULTIPLIER: u64 = 0x9e37_79b9_7f4a_7c15;

/// A hasher that takes a number of 32 bits in one step, and of other writes the first four bytes. It isn't cryptographic.
#[derive(Clone, Copy)]
pub(crate) struct NumberHasher {
    state: u64,
}

impl Default for NumberHasher {
    ghost is_default = { λ s. s ≡ record { state = 0 } };

    fn default() -> NumberHasher {
        NumberHasher { state: 0 }
    }
}

/// The state after a number.
pub(crate) fn step(state: u64, number: u32) -> u64
    ensures { result ≡ stepped state number }
{
    (state ^ u64::from(number)).wrapping_mul(MULTIPLIER)
}

/// The byte at a place, and 0 behind the last one.
fn byte_at(bytes: &[u8], place: usize) -> u8
    ensures { result ≡ slice_index bytes.now place }
{
    bytes.get(place).copied().unwrap_or(0)
}

/// The number that the first four bytes are, the lowest first.
fn number_of(bytes: &[u8]) -> u32
    ensures { result ≡ from_le_bytes w32 bytes.now }
{
    u32::from_le_bytes([
        byte_at(bytes, 0),
        byte_at(bytes, 1),
        byte_at(bytes, 2),
        byte_at(bytes, 3),
    ])
}

impl Hasher for NumberHasher {
    ghost use Rattle.std.specs.Int.{w32, from_le_bytes};
    ghost use Rattle.tc_close.specs.Hashing.{stepped};

    ghost write = { λ s bytes. record { state = stepped s.state (from_le_bytes w32 bytes) } };

    ghost finish = { λ s. s.state };

    fn finish(&self) -> u64 {
        self.state
    }

    fn write(&mut self, bytes: &[u8]) {
        self.state = step(self.state, number_of(bytes));
    }

    fn write_u32(&mut self, i: u32) {
        self.state = step(self.state, i);
    }
}
