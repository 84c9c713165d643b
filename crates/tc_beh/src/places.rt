// Where what is worked out of two numbers is remembered, in tables that are overwritten.
ghost use Rattle.std.specs.Prelude.{◌<◌};

/// How many places a table has.
pub(crate) const PLACES: usize = 4096;

/// What numbers are multiplied by, so that those that are like one another lead far apart: 2 to the 64 by the golden ratio.
const MULTIPLIER: u64 = 0x9e37_79b9_7f4a_7c15;

/// The place of two numbers.
pub(crate) fn place_of(first: u32, second: u32) -> usize
    ensures { result < 4096 }
{
    let mixed = ((first as u64) << 32 | second as u64).wrapping_mul(MULTIPLIER);
    (mixed >> 52) as usize % PLACES
}
