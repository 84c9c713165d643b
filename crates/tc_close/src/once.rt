// Rows over a machine, where elements that nothing tells apart are worked out once.
// Nothing tells elements of symbols alike apart, and where a symbol reads no look, nothing tells apart elements of it around
// lists of trees that differ in looks alone. What came of them is told from a table, so that rows come on in the same order.
// An append that others tell isn't worked out either.
use crate::held::HeldRows;
use crate::look_free::FreeSymbols;
use crate::number_table::NumberTable;
use crate::over::Over;
use std::alloc::Global;
use std::marker::Model;
use tc_base::NoMemory;
use tc_beh::{Alike, Machine};
use tc_settle::{HoldFault, NumberedRows};

/// Rows over a machine. Of elements that nothing tells apart one is worked out, as long as the table has room for it.
#[derive(Drop)]
pub(crate) struct OnceRows<'m, 'b, K: Over> {
    pub(crate) rows: HeldRows<'m, 'b, K>,
    /// Of each symbol the first that is alike.
    alike: Alike,
    /// Which symbols read no look.
    free: FreeSymbols,
    /// What came of live elements of symbols around lists of trees.
    wraps: NumberTable,
}

impl<'m, 'b, K: Over> Model for OnceRows<'m, 'b, K> {
    ghost use Rattle.tc_close.specs.Once.{AreOnce};
    ghost use Rattle.tc_close.specs.RowState.{RowState};

    ghost Value = { RowState };

    ghost view = { λ p. p.rows };

    ghost invariant = { λ p. AreOnce K.is_of p.rows p.alike.firsts.items p.free p.wraps };
}

impl<'m, 'b, K: Over> OnceRows<'m, 'b, K> {
    ghost use Rattle.std.specs.Prelude.{◌≡◌, ◌<◌, ◌↔◌, ℕ, [], length, IfErr, IfOk, IfSome, MatchOption, OnErr, true};
    ghost use Rattle.tc_beh.specs.AlikeSymbols.{IsFirstAlike};
    ghost use Rattle.tc_beh.specs.Machines.{IsMachineOf};
    ghost use Rattle.tc_close.specs.RowState.{held_of, IsFull};
    ghost use Rattle.tc_rows.specs.Triples.{Triple};
    ghost use Rattle.tc_settle.specs.Held.{Grows, IsHeldAs, IsUnchanged, IsWrapAt};

    /// No rows.
    pub(crate) fn new(
        alloc: Global,
        machine: &'m Machine<'b>,
    ) -> Result<OnceRows<'m, 'b, K>, NoMemory>
        requires some { (x : Triple) × K.is_of x }
        requires machine { (x : Triple) → K.is_of x → IsMachineOf x machine.now }
        ensures hedges { IfOk result (λ r. r.hedges ≡ []) }
        ensures trees { IfOk result (λ r. r.trees ≡ []) }
    {
        let alike = Alike::of(alloc, machine)?;
        let free = FreeSymbols::of(alloc, machine.rules(), machine.alphabet().count())?;
        let wraps = NumberTable::new(alloc)?;
        let rows = HeldRows::<K>::new(alloc, machine)?;
        let _outputs = rows.output_count();
        Ok(OnceRows {
            rows,
            alike,
            free,
            wraps,
        })
    }

    /// The first symbol that is alike.
    fn first(&self, symbol: u32) -> u32
        requires { symbol < self.now.symbols }
        ensures low { result < self.now.symbols }
        ensures alike { (x : Triple) → K.is_of x → IsFirstAlike x symbol result }
    {
        self.alike.first(symbol)
    }

    /// Whether it is known that no element of a symbol can stand around a list of trees.
    fn is_dead(&self, symbol: u32, hedge: u32) -> bool
        ensures { result ≡ true → (held_of K.is_of self.now).no_wrap symbol hedge }
    {
        self.rows.is_dead_wrap(symbol, hedge)
    }

    /// A list of trees around which elements of a symbol have the same rows as around this one.
    fn like(&mut self, symbol: u32, hedge: u32) -> u32
        requires hedge { hedge < length self.old.hedges }
        ensures same { self.new ≡ self.old }
        ensures low { result < length self.old.hedges }
        ensures like { (u : ℕ) → IsWrapAt (held_of K.is_of self.old) symbol result u
            ↔ IsWrapAt (held_of K.is_of self.old) symbol hedge u }
    {
        if self.free.is_free(symbol) {
            self.rows.core(hedge)
        } else {
            hedge
        }
    }

    /// What came of an element of a symbol around a list of trees, if it is known.
    fn known_wrap(&mut self, symbol: u32, hedge: u32) -> Option<u32>
        requires hedge { hedge < length self.old.hedges }
        ensures same { self.new ≡ self.old }
        ensures told { IfSome result (λ u. IsWrapAt (held_of K.is_of self.old) symbol hedge u) }
    {
        let like = self.like(symbol, hedge);
        self.wraps.get(symbol, like)
    }

    /// Learns what came of an element of a symbol around a list of trees.
    fn learn_wrap(&mut self, symbol: u32, hedge: u32, tree: u32)
        requires symbol { symbol < self.old.symbols }
        requires hedge { hedge < length self.old.hedges }
        requires told { IsWrapAt (held_of K.is_of self.old) symbol hedge tree }
        ensures { self.new ≡ self.old }
    {
        self.find_free(symbol);
        let like = self.like(symbol, hedge);
        self.remember(symbol, like, tree);
    }

    /// Finds out whether a symbol reads no look, if that isn't known.
    fn find_free(&mut self, symbol: u32)
        requires { symbol < self.old.symbols }
        ensures { self.new ≡ self.old }
    {
        let _outputs = self.rows.output_count();
        self.free.learn(self.rows.rules(), symbol);
    }

    /// Remembers what came of an element of a symbol around a list of trees.
    fn remember(&mut self, symbol: u32, hedge: u32, tree: u32)
        requires symbol { symbol < self.old.symbols }
        requires hedge { hedge < length self.old.hedges }
        requires told { IsWrapAt (held_of K.is_of self.old) symbol hedge tree }
        ensures { self.new ≡ self.old }
    {
        self.wraps.put(symbol, hedge, tree);
    }

    /// The row of an element of a symbol around a list of trees, where that is live.
    ///
    /// # Errors
    ///
    /// It can't be held.
    fn wrap_new(&mut self, symbol: u32, hedge: u32) -> Result<Option<u32>, HoldFault>
        requires symbol { symbol < self.old.symbols }
        requires hedge { hedge < length self.old.hedges }
        requires room { length self.old.trees < 4294967295 }
        ensures grows { Grows (held_of K.is_of self.old) (held_of K.is_of self.new) }
        ensures hedges { length self.new.hedges ≡ length self.old.hedges }
        ensures made { IfOk result
            (λ o. MatchOption o
            ((held_of K.is_of self.new).no_wrap symbol hedge
            × IsUnchanged (held_of K.is_of self.old) (held_of K.is_of self.new))
            (λ u. IsWrapAt (held_of K.is_of self.new) symbol hedge u
            × IsHeldAs (length self.old.trees) (length self.new.trees) u)) }
        ensures fault { OnErr result
            (IsUnchanged (held_of K.is_of self.old) (held_of K.is_of self.new)) }
        ensures full { IfErr result (λ e. e ≡ HoldFault.Full → IsFull K.is_of self.new) }
    {
        self.rows.wrap(symbol, hedge)
    }
}

impl<'m, 'b, K: Over> NumberedRows for OnceRows<'m, 'b, K> {
    ghost use Rattle.tc_close.specs.RowState.{held_of, IsFull};

    ghost held = { held_of K.is_of };

    ghost is_full = { IsFull K.is_of };

    fn symbols(&self) -> u32 {
        self.rows.symbols()
    }

    fn none(&mut self) -> Result<u32, HoldFault> {
        self.rows.none()
    }

    fn text(&mut self) -> Result<Option<u32>, HoldFault> {
        self.rows.text()
    }

    fn append(&mut self, hedge: u32, tree: u32) -> Result<Option<u32>, HoldFault> {
        if let Some(made) = self.rows.known_append(hedge, tree) {
            return Ok(Some(made));
        }
        let appended = self.rows.append(hedge, tree);
        if let Ok(Some(made)) = appended {
            self.rows.learn_append(hedge, tree, made);
        }
        appended
    }

    fn wrap(&mut self, symbol: u32, hedge: u32) -> Result<Option<u32>, HoldFault> {
        let first = self.first(symbol);
        if self.is_dead(first, hedge) {
            return Ok(None);
        }
        if let Some(tree) = self.known_wrap(first, hedge) {
            return Ok(Some(tree));
        }
        let made = self.wrap_new(first, hedge)?;
        if let Some(tree) = made {
            self.learn_wrap(first, hedge, tree);
        }
        Ok(made)
    }

    fn is_failing(&mut self, tree: u32) -> bool {
        self.rows.is_failing(tree)
    }
}
