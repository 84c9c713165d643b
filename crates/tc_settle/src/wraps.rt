// What came of elements around one list of trees.
ghost use Rattle.std.specs.Prelude.{◌≡◌, ◌⊎◌, [], ℕ, Option, MatchOption};

use std::alloc::Global;

/// The rows of elements around one list of trees, by the numbers of their symbols or of the kinds of these, as far as they are
/// known.
#[derive(Drop)]
pub struct Wraps {
    /// The number of the list of trees.
    hedge: u32,
    /// For each symbol, or kind, the number of the row; none where the element is dead.
    made: Vec<Option<u32>>,
}

impl Wraps {
    ghost use Rattle.tc_settle.specs.Wraps.{IsKnown};

    /// Nothing is known.
    pub fn new(alloc: Global) -> Wraps
        ensures { result.made.items ≡ [] }
    {
        Wraps {
            hedge: 0,
            made: Vec::new(alloc),
        }
    }

    /// What came of an element of a symbol around a list of trees, if it is known.
    pub fn known(&self, symbol: u32, hedge: u32) -> Option<Option<u32>>
        ensures { MatchOption result (Unit {0}) (λ made. IsKnown self.now hedge symbol made) }
    {
        if hedge != self.hedge {
            return None;
        }
        match self.made.get(symbol as usize) {
            Some(made) => Some(*made),
            None => None,
        }
    }

    /// What came of an element of a symbol around a list of trees is known from now on, if the symbols before are known too
    /// and there is memory for it, and what came of elements around other lists no longer.
    pub fn learn(&mut self, symbol: u32, hedge: u32, made: Option<u32>)
        ensures { (h a : ℕ) (o : Option ℕ) → IsKnown self.new h a o → IsKnown self.old h a o
            ⊎ ((h ≡ hedge) × (a ≡ symbol) × (o ≡ made)) }
    {
        if hedge != self.hedge {
            self.hedge = hedge;
            self.made.clear();
        }
        if symbol as usize == self.made.len() {
            let _ = self.made.push(made);
        }
    }
}
