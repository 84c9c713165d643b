// Guesses of the numbers of sets, by their words. No contract says what they are: whoever asks looks at the set of that number.
ghost use Rattle.std.specs.Prelude.{◌<◌};

use std::alloc::Global;
use std::marker::Model;
use tc_base::NoMemory;
use tc_mat::{Mat, MatId, Pool};

/// How many guesses are kept.
const GUESSES: usize = 8192;

/// In how many places a guess may stand.
const NEAR: usize = 4;

/// What words are multiplied by, so that those that are like one another lead far apart: 2 to the 64 by the golden ratio.
const MULTIPLIER: u64 = 0x9e37_79b9_7f4a_7c15;

/// The number of no set.
const NO_SET: u32 = u32::MAX;

/// The number of a set, and what its words mix to.
#[derive(Clone, Copy)]
struct Guess {
    mixed: u64,
    number: u32,
}

/// Numbers of sets, each near the place of its words.
#[derive(Drop)]
pub(crate) struct Guesses {
    guesses: Vec<Guess>,
}

impl Model for Guesses {
    ghost use Rattle.std.specs.Prelude.{◌≡◌, List, length};
    ghost use Rattle.tc_beh.specs.declared.guesses.Guess.{Guess};

    ghost Value = { List Guess };

    ghost view = { λ g. g.guesses.items };

    ghost invariant = { λ g. length g.guesses.items ≡ 8192 };
}

/// What the words of a set mix to.
fn mixed_of(set: &Mat) -> u64 {
    let mut mixed = 0u64;
    for word in set.words() {
        mixed = (mixed.rotate_left(5) ^ *word).wrapping_mul(MULTIPLIER);
    }
    mixed
}

/// One of the places for words that mix so.
fn place_of(mixed: u64, step: usize) -> usize
    requires { step < 4 }
    ensures { result < 8192 }
{
    ((mixed >> 51) as usize % GUESSES + step) % GUESSES
}

impl Guesses {
    /// No guesses.
    ///
    /// # Errors
    ///
    /// There is no memory for them.
    pub(crate) fn none(alloc: Global) -> Result<Guesses, NoMemory> {
        let nothing = Guess {
            mixed: 0,
            number: NO_SET,
        };
        let guesses = vec![in alloc; nothing; GUESSES]?;
        Ok(Guesses { guesses })
    }

    /// Those of the sets of a pool.
    ///
    /// # Errors
    ///
    /// There is no memory for them.
    pub(crate) fn of(alloc: Global, pool: &Pool) -> Result<Guesses, NoMemory> {
        let mut guesses = Guesses::none(alloc)?;
        for number in 0..pool.len() {
            guesses.keep(pool.get(MatId(number)), number);
        }
        Ok(guesses)
    }

    /// The number that a set may have.
    pub(crate) fn number_of(&self, set: &Mat) -> u32 {
        let mixed = mixed_of(set);
        for step in 0..NEAR {
            let guess = self.guesses[place_of(mixed, step)];
            if guess.mixed == mixed {
                return guess.number;
            }
        }
        NO_SET
    }

    /// A place for words that mix so: one that is free, or else the first.
    fn room_for(&self, mixed: u64) -> usize
        ensures { result < 8192 }
    {
        for step in 0..NEAR {
            let place = place_of(mixed, step);
            if self.guesses[place].number == NO_SET {
                return place;
            }
        }
        place_of(mixed, 0)
    }

    /// Keeps the number of a set.
    pub(crate) fn keep(&mut self, set: &Mat, number: u32) {
        let mixed = mixed_of(set);
        let place = self.room_for(mixed);
        self.guesses[place] = Guess { mixed, number };
    }
}
