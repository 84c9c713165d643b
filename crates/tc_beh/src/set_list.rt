// Sets of pairs, each known by its number, most of them once.
ghost use Rattle.std.specs.Prelude.{◌≡◌, ◌<◌, ◌++◌, ◌∷◌, ◌⊎◌, [], Some, true, slice_get, length, IfOk, IfSome};
ghost use Rattle.tc_mat.specs.Held.{AreMatrices};
ghost use Rattle.tc_beh.specs.Held.{Extends, set_at};

use crate::guesses::Guesses;
use std::alloc::Global;
use std::marker::Model;
use tc_base::NoMemory;
use tc_mat::Mat;

/// Sets of pairs of one size, each known by its number. A set may stand in it more than once.
#[derive(Drop)]
pub(crate) struct SetList {
    alloc: Global,
    size: u32,
    sets: Vec<Mat>,
    guesses: Guesses,
    most: u32,
}

impl Model for SetList {
    ghost use Rattle.tc_mat.specs.Held.{Held, AreMatrices};

    ghost Value = { Held };

    ghost view = { λ s. record { size = s.size; matrices = s.sets.items } };

    ghost invariant = { λ s. AreMatrices (record { size = s.size; matrices = s.sets.items }) };
}

impl SetList {
    /// A list of no sets, with room for so many.
    ///
    /// # Errors
    ///
    /// There is no memory for what is guessed of them.
    pub(crate) fn new(alloc: Global, size: u32, most: u32) -> Result<SetList, NoMemory>
        ensures { IfOk result (λ s. s ≡ record { size = size; matrices = [] }) }
    {
        let guesses = Guesses::none(alloc)?;
        Ok(SetList {
            alloc,
            size,
            sets: Vec::new(alloc),
            guesses,
            most,
        })
    }

    /// How many sets there are.
    pub(crate) fn len(&self) -> usize
        ensures count { result ≡ length self.now.matrices }
        ensures matrices { AreMatrices self.now }
    {
        self.sets.len()
    }

    /// The set of a number.
    pub(crate) fn get(&self, number: u32) -> &Mat
        requires { number < length self.now.matrices }
        ensures held { slice_get self.now.matrices number ≡ Some result.now }
        ensures set { result.now ≡ set_at self.now number }
        ensures size { result.now.size ≡ self.now.size }
    {
        &self.sets[number as usize]
    }

    /// True only where a set has a number.
    fn is_at(&self, number: u32, set: &Mat) -> bool
        ensures { result ≡ true → slice_get self.now.matrices number ≡ Some set.now }
    {
        (number as usize) < self.len() && self.get(number) == set
    }

    /// Puts a set behind the others, if there is room.
    fn add(&mut self, set: &Mat) -> Option<u32>
        requires { set.now.size ≡ self.old.size }
        ensures number { IfSome result (λ k. slice_get self.new.matrices k ≡ Some set.now) }
        ensures grows { IfSome result (λ k. (k ≡ length self.old.matrices)
            × (self.new ≡ record self.old { matrices = self.old.matrices ++ set.now ∷ [] })) }
        ensures held { Extends self.old self.new }
    {
        let number = self.sets.len();
        if number >= self.most as usize {
            return None;
        }
        let Ok(copy) = set.copied(self.alloc) else {
            return None;
        };
        let Ok(()) = self.sets.push(copy) else {
            return None;
        };
        Some(number as u32)
    }

    /// The number of a set, which is put behind the others if it isn't found and there is room.
    pub(crate) fn number_of(&mut self, set: &Mat) -> Option<u32>
        requires { set.now.size ≡ self.old.size }
        ensures number { IfSome result (λ k. slice_get self.new.matrices k ≡ Some set.now) }
        ensures grows { IfSome result (λ k. (self.new ≡ self.old)
            ⊎ ((k ≡ length self.old.matrices)
            × (self.new ≡ record self.old { matrices = self.old.matrices ++ set.now ∷ [] }))) }
        ensures held { Extends self.old self.new }
    {
        let guess = self.guesses.number_of(set);
        if self.is_at(guess, set) {
            return Some(guess);
        }
        let number = self.add(set)?;
        self.guesses.keep(set, number);
        Some(number)
    }
}
