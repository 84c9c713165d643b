// The cover rows of two schemas, held by their numbers.
ghost use Rattle.std.specs.Prelude.{◌<◌, All, OnOk, length};
ghost use Rattle.tc_incl.specs.Held.{IsHedgeFit};
ghost use Rattle.tc_incl.specs.Stepped.{AreStepped};

use crate::both::Both;
use crate::over::Over;
use crate::rows::{Row, hold};
use crate::steps::BothSteps;
use indexmap::IndexSet;
use std::alloc::Global;
use std::marker::{Model, PhantomData};
use tc_alpha::Alphabet;
use tc_auto::Auto;
use tc_base::NoMemory;
use tc_settle::{HoldFault, NumberedRows, Wraps};

/// Cover rows of two schemas, each held once and known by its number.
#[derive(Drop)]
pub(crate) struct Covers<'c, 'g, K: Over> {
    both: Both<'c, 'g>,
    hedges: IndexSet<Row>,
    trees: IndexSet<Row>,
    /// Where the first rows of lists of trees lead.
    steps: Vec<BothSteps>,
    /// What came of elements around the list of trees that was tried last.
    wraps: Wraps,
    over: PhantomData<K>,
}

impl<'c, 'g, K: Over> Model for Covers<'c, 'g, K> {
    ghost use Rattle.tc_incl.specs.Covers.{AreHeld, State, held_of, state_of};
    ghost use Rattle.tc_incl.specs.Stepped.{AreStepped};
    ghost use Rattle.tc_incl.specs.Wraps.{AreKnown};

    ghost Value = { State };

    ghost view = { λ p. state_of p.both p.hedges.keys p.trees.keys };

    ghost invariant = { λ p. AreHeld K.is_of p.both p.hedges.keys p.trees.keys × AreStepped p.both p.hedges.keys p.steps.items
        × AreKnown (held_of K.is_of (state_of p.both p.hedges.keys p.trees.keys)) p.both.kinds.items p.wraps };
}

/// Works out where rows of lists of trees lead, up to one of them.
///
/// # Errors
///
/// There is no memory; what was worked out stays.
fn step_to(
    both: &Both<'_, '_>,
    hedges: &[Row],
    steps: &mut Vec<BothSteps>,
    hedge: u32,
) -> Result<(), NoMemory>
    requires hedge { hedge < length hedges.now }
    requires fit { All (IsHedgeFit both.now) hedges.now }
    requires stepped { AreStepped both.now hedges.now steps.old.items }
    ensures stepped { AreStepped both.now hedges.now steps.new.items }
    ensures there { OnOk result (hedge < length steps.new.items) }
{
    for place in steps.len()..hedge as usize + 1 {
        let more = both.steps(&hedges[place])?;
        steps.push(more)?;
    }
    Ok(())
}

impl<'c, 'g, K: Over> Covers<'c, 'g, K> {
    ghost use Rattle.std.specs.Prelude.{◌≡◌, ◌<◌, ◌≤◌, [], length, IfOk, MatchBool, MatchOption, OnErr};
    ghost use Rattle.tc_incl.specs.Covers.{AreOf, Known, held_of};
    ghost use Rattle.tc_incl.specs.Schemas.{Schemas};
    ghost use Rattle.tc_settle.specs.Wraps.{IsWrapTold};
    ghost use Rattle.tc_settle.specs.Held.{Grows, IsHeldAs, IsUnchanged, IsWrapAt};

    /// No rows.
    pub(crate) fn new(
        alloc: Global,
        first: &'c Auto<'g>,
        second: &'c Auto<'g>,
        alphabet: &Alphabet,
    ) -> Result<Covers<'c, 'g, K>, NoMemory>
        requires some { (x : Schemas) × K.is_of x }
        requires schemas { (x : Schemas) → K.is_of x → AreOf first.now second.now alphabet.now x }
        ensures hedges { IfOk result (λ r. r.hedges ≡ []) }
        ensures trees { IfOk result (λ r. r.trees ≡ []) }
    {
        let both = Both::of(alloc, first, second, alphabet)?;
        Ok(Covers {
            both,
            hedges: IndexSet::new(alloc),
            trees: IndexSet::new(alloc),
            steps: Vec::new(alloc),
            wraps: Wraps::new(alloc),
            over: PhantomData,
        })
    }

    /// What holds of all that is held.
    pub(crate) fn see(&self)
        ensures known { Known K.is_of self.now }
    {
        let _ = &self.both;
    }

    /// How many rows of lists of trees are held.
    pub(crate) fn hedge_count(&self) -> u32
        requires { length self.now.hedges ≤ 4294967295 }
        ensures { result ≡ length self.now.hedges }
    {
        self.hedges.len() as u32
    }

    /// How many rows of trees are held.
    pub(crate) fn tree_count(&self) -> u32
        requires { length self.now.trees ≤ 4294967295 }
        ensures { result ≡ length self.now.trees }
    {
        self.trees.len() as u32
    }

    /// Whether the row of a tree is that of a document that is valid for the first schema and not for the second.
    pub(crate) fn fails(&self, tree: u32) -> bool
        requires { tree < length self.now.trees }
        ensures { MatchBool result ((held_of K.is_of self.now).fails tree)
            ((held_of K.is_of self.now).passes tree) }
    {
        self.both.is_failing(&self.trees.as_slice()[tree as usize])
    }

    /// What came of an element of a symbol, or of another one of its kind, around a list of trees, if it is known.
    fn known_wrap(&self, symbol: u32, hedge: u32) -> Option<Option<u32>>
        requires { symbol < self.now.symbols }
        ensures { MatchOption result (Unit {0})
            (λ made. IsWrapTold (held_of K.is_of self.now) symbol hedge made) }
    {
        let kind = self.both.kind(symbol);
        self.wraps.known(kind, hedge)
    }

    /// Learns what came of an element of a symbol around a list of trees.
    fn learn_wrap(&mut self, symbol: u32, hedge: u32, made: Option<u32>)
        requires symbol { symbol < self.old.symbols }
        requires hedge { hedge < length self.old.hedges }
        requires told { IsWrapTold (held_of K.is_of self.old) symbol hedge made }
        ensures { self.new ≡ self.old }
    {
        let kind = self.both.kind(symbol);
        self.wraps.learn(kind, hedge, made);
    }

    /// The row of an element of a symbol around a list of trees, where that is live.
    ///
    /// # Errors
    ///
    /// There is no memory to hold it.
    fn wrap_new(&mut self, symbol: u32, hedge: u32) -> Result<Option<u32>, NoMemory>
        requires hedge { hedge < length self.old.hedges }
        requires symbol { symbol < self.old.symbols }
        requires room { length self.old.trees < 4294967295 }
        ensures grows { Grows (held_of K.is_of self.old) (held_of K.is_of self.new) }
        ensures hedges { length self.new.hedges ≡ length self.old.hedges }
        ensures made { IfOk result
            (λ o. MatchOption o
            ((held_of K.is_of self.new).no_wrap symbol hedge
            × IsUnchanged (held_of K.is_of self.old) (held_of K.is_of self.new))
            (λ u. IsWrapAt (held_of K.is_of self.new) symbol hedge u
            × IsHeldAs (length self.old.trees) (length self.new.trees) u)) }
        ensures fault { OnErr result
            (IsUnchanged (held_of K.is_of self.old) (held_of K.is_of self.new)) }
    {
        step_to(&self.both, self.hedges.as_slice(), &mut self.steps, hedge)?;
        let made = self.both.wrapped(symbol, &self.steps[hedge as usize])?;
        let Some(row) = made else {
            return Ok(None);
        };
        let number = hold(&mut self.trees, row)?;
        Ok(Some(number))
    }
}

impl<'c, 'g, K: Over> NumberedRows for Covers<'c, 'g, K> {
    ghost use Rattle.tc_incl.specs.Covers.{held_of};

    ghost held = { held_of K.is_of };

    ghost is_full = { λ s. ⊥ };

    fn symbols(&self) -> u32 {
        self.both.symbols
    }

    fn none(&mut self) -> Result<u32, HoldFault> {
        let Ok(row) = self.both.none() else {
            return Err(HoldFault::NoMemory);
        };
        let Ok(number) = hold(&mut self.hedges, row) else {
            return Err(HoldFault::NoMemory);
        };
        Ok(number)
    }

    fn text(&mut self) -> Result<Option<u32>, HoldFault> {
        let Ok(made) = self.both.text() else {
            return Err(HoldFault::NoMemory);
        };
        let Some(row) = made else {
            return Ok(None);
        };
        let Ok(number) = hold(&mut self.trees, row) else {
            return Err(HoldFault::NoMemory);
        };
        Ok(Some(number))
    }

    fn append(&mut self, hedge: u32, tree: u32) -> Result<Option<u32>, HoldFault> {
        let Ok(()) = step_to(&self.both, self.hedges.as_slice(), &mut self.steps, hedge) else {
            return Err(HoldFault::NoMemory);
        };
        let front = &self.hedges.as_slice()[hedge as usize];
        let last = &self.trees.as_slice()[tree as usize];
        let Ok(made) = self.both.appended(front, &self.steps[hedge as usize], last) else {
            return Err(HoldFault::NoMemory);
        };
        let Some(row) = made else {
            return Ok(None);
        };
        let Ok(number) = hold(&mut self.hedges, row) else {
            return Err(HoldFault::NoMemory);
        };
        Ok(Some(number))
    }

    fn wrap(&mut self, symbol: u32, hedge: u32) -> Result<Option<u32>, HoldFault> {
        if let Some(made) = self.known_wrap(symbol, hedge) {
            return Ok(made);
        }
        let Ok(made) = self.wrap_new(symbol, hedge) else {
            return Err(HoldFault::NoMemory);
        };
        self.learn_wrap(symbol, hedge, made);
        Ok(made)
    }

    fn is_failing(&mut self, tree: u32) -> bool {
        self.fails(tree)
    }
}
