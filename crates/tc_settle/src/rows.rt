// Rows of trees and of lists of trees, known by their numbers alone.
// What is made of which is told by relations on numbers. So the search has neither schemas nor sets of pairs
// in its proofs, and rows of another kind, as those of two schemas beside each other, come by the same
// search, least costs and limits.
ghost use Rattle.std.specs.Prelude.{◌≡◌, ◌<◌, ℕ, IfOk, IfErr, OnErr, MatchOption, MatchBool};
ghost use Rattle.tc_settle.specs.Held.{Held, Grows, SameRows, IsExact, IsHeldAs, IsNoneAt, IsTextAt, IsAppendAt, IsWrapAt, IsUnchanged};

/// Why a further row can't be held.
#[derive(Clone, Copy, Debug, PartialEq, Eq)]
pub enum HoldFault {
    /// What is held passes a bound of its own.
    Full,
    /// Memory was refused.
    NoMemory,
}

/// Rows of trees and of lists of trees that are held, each kind numbered from 0 in the order in which they were first
/// found. An operation finds the row of what is made, holds it where it isn't held yet, and answers its number; it
/// answers none where what is made is dead.
pub trait NumberedRows: Drop {
    /// How many rows are held, and what is made of which.
    ghost held: { Self → Held };

    /// What is held, and what came on last, passes a bound.
    ghost is_full: { Self → Type 0 };

    /// How many symbols elements have. Rows of different numbers are different.
    fn symbols(&self) -> u32
        ensures number { result ≡ (held self.now).symbols }
        ensures exact { IsExact (held self.now) };

    /// The row of the list of no tree.
    ///
    /// # Errors
    ///
    /// It can't be held.
    fn none(&mut self) -> Result<u32, HoldFault>
        requires room { (held self.old).hedges < 4294967295 }
        ensures grows { Grows (held self.old) (held self.new) }
        ensures trees { (held self.new).trees ≡ (held self.old).trees }
        ensures made { IfOk result (λ u. IsNoneAt (held self.new) u
            × IsHeldAs (held self.old).hedges (held self.new).hedges u) }
        ensures fault { OnErr result (IsUnchanged (held self.old) (held self.new)) }
        ensures full { IfErr result (λ e. e ≡ HoldFault.Full → is_full self.new) };

    /// The row of a text, where texts are live.
    ///
    /// # Errors
    ///
    /// It can't be held.
    fn text(&mut self) -> Result<Option<u32>, HoldFault>
        requires room { (held self.old).trees < 4294967295 }
        ensures grows { Grows (held self.old) (held self.new) }
        ensures hedges { (held self.new).hedges ≡ (held self.old).hedges }
        ensures made { IfOk result
            (λ o. MatchOption o
            ((held self.new).no_text × IsUnchanged (held self.old) (held self.new))
            (λ u. IsTextAt (held self.new) u
            × IsHeldAs (held self.old).trees (held self.new).trees u)) }
        ensures fault { OnErr result (IsUnchanged (held self.old) (held self.new)) }
        ensures full { IfErr result (λ e. e ≡ HoldFault.Full → is_full self.new) };

    /// The row of a list of trees with one more tree behind, where that is live.
    ///
    /// # Errors
    ///
    /// It can't be held.
    fn append(&mut self, hedge: u32, tree: u32) -> Result<Option<u32>, HoldFault>
        requires hedge { hedge < (held self.old).hedges }
        requires tree { tree < (held self.old).trees }
        requires room { (held self.old).hedges < 4294967295 }
        ensures grows { Grows (held self.old) (held self.new) }
        ensures trees { (held self.new).trees ≡ (held self.old).trees }
        ensures made { IfOk result
            (λ o. MatchOption o
            ((held self.new).no_append hedge tree × IsUnchanged (held self.old) (held self.new))
            (λ u. IsAppendAt (held self.new) hedge tree u
            × IsHeldAs (held self.old).hedges (held self.new).hedges u)) }
        ensures fault { OnErr result (IsUnchanged (held self.old) (held self.new)) }
        ensures full { IfErr result (λ e. e ≡ HoldFault.Full → is_full self.new) };

    /// The row of an element of a symbol around a list of trees, where that is live.
    ///
    /// # Errors
    ///
    /// It can't be held.
    fn wrap(&mut self, symbol: u32, hedge: u32) -> Result<Option<u32>, HoldFault>
        requires symbol { symbol < (held self.old).symbols }
        requires hedge { hedge < (held self.old).hedges }
        requires room { (held self.old).trees < 4294967295 }
        ensures grows { Grows (held self.old) (held self.new) }
        ensures hedges { (held self.new).hedges ≡ (held self.old).hedges }
        ensures made { IfOk result
            (λ o. MatchOption o
            ((held self.new).no_wrap symbol hedge × IsUnchanged (held self.old) (held self.new))
            (λ u. IsWrapAt (held self.new) symbol hedge u
            × IsHeldAs (held self.old).trees (held self.new).trees u)) }
        ensures fault { OnErr result (IsUnchanged (held self.old) (held self.new)) }
        ensures full { IfErr result (λ e. e ≡ HoldFault.Full → is_full self.new) };

    /// Whether the row of a tree fails: it is that of a document whose result isn't valid.
    fn is_failing(&mut self, tree: u32) -> bool
        requires { tree < (held self.old).trees }
        ensures fails { MatchBool result ((held self.old).fails tree)
            ((held self.old).passes tree) }
        ensures same { SameRows (held self.old) (held self.new) };
}
