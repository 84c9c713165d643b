// Pairs of numbers for which a number is remembered for a while.
ghost use Rattle.std.specs.Prelude.{◌≡◌, ℕ, length, IfOk, IfSome};
ghost use Rattle.tc_close.specs.NumberTables.{ComesOn, HasNumber};

use crate::number_hasher::MULTIPLIER;
use std::alloc::Global;
use tc_base::NoMemory;

/// For how many pairs a number is remembered.
const REMEMBERED: usize = 16384;

/// Pairs of numbers, each with a number. A pair is forgotten where another one comes to its place.
#[derive(Drop)]
pub(crate) struct NumberTable {
    places: Vec<Option<(u32, u32, u32)>>,
    ghost whole: { length places.items ≡ 16384 },
}

/// Where a pair is remembered. Pairs with the same second number, whose first ones are near, have different places.
fn place_of(first: u32, second: u32) -> usize {
    let begin = u64::from(second).wrapping_mul(MULTIPLIER) >> 40;
    u64::from(first).wrapping_add(begin) as usize
}

impl NumberTable {
    /// No pair.
    ///
    /// # Errors
    ///
    /// There is no memory for the places.
    pub(crate) fn new(alloc: Global) -> Result<NumberTable, NoMemory>
        ensures { IfOk result (λ t. (i j n : ℕ) → ¬ HasNumber t.places.items i j n) }
    {
        let places = vec![in alloc; None; REMEMBERED]?;
        Ok(NumberTable { places })
    }

    /// What is remembered at a place.
    pub(crate) fn at(&self, place: usize) -> Option<(u32, u32, u32)>
        ensures { IfSome result (λ p. HasNumber self.now.places.items p.0 p.1 p.2) }
    {
        self.places[place % REMEMBERED]
    }

    /// Remembers a pair and its number at a place.
    pub(crate) fn put_at(&mut self, place: usize, pair: (u32, u32, u32))
        ensures { ComesOn pair.0 pair.1 pair.2 self.old.places.items self.new.places.items }
    {
        self.places[place % REMEMBERED] = Some(pair);
    }

    /// The number of a pair, if it is remembered.
    pub(crate) fn get(&self, first: u32, second: u32) -> Option<u32>
        ensures { IfSome result (λ n. HasNumber self.now.places.items first second n) }
    {
        let (one, other, number) = self.at(place_of(first, second))?;
        if one == first && other == second {
            Some(number)
        } else {
            None
        }
    }

    /// Remembers the number of a pair.
    pub(crate) fn put(&mut self, first: u32, second: u32, number: u32)
        ensures { ComesOn first second number self.old.places.items self.new.places.items }
    {
        self.put_at(place_of(first, second), (first, second, number));
    }
}
