// Rows over a machine, held by their numbers.
// They lie in an `indexmap` set, each as a vector of numbers, which looks them up and keeps the order in
// which they came. A row is looked up by its numbers, since rooms of equal numbers stand for equal rows
// (`law_of_rooms` of `tc_beh`).
ghost use Rattle.std.specs.Prelude.{◌≡◌, ◌<◌, ◌≤◌, [], length, All, IfOk, IfSome, true};
ghost use Rattle.tc_beh.specs.Held.{set_at};
ghost use Rattle.tc_beh.specs.Machines.{IsMachineOf, IsShapeOf};
ghost use Rattle.tc_beh.specs.Places.{pairs_of};
ghost use Rattle.tc_beh.specs.Stands.{IsRulesIn};
ghost use Rattle.tc_close.specs.LookFree.{AgreeButLooks};
ghost use Rattle.tc_close.specs.Lines.{tree_held, hedge_held};
ghost use Rattle.tc_close.specs.RowState.{Known, hedge_at, held_of};
ghost use Rattle.tc_rows.specs.Triples.{Triple};
ghost use Rattle.tc_settle.specs.Held.{IsAppendAt};

use crate::appends::{Appends, HeldLists};
use crate::kinds::Kinds;
use crate::lists::Lists;
use crate::over::Over;
use crate::rooms::Rooms;
use std::alloc::Global;
use std::marker::{Model, PhantomData};
use tc_alpha::Sym;
use tc_base::NoMemory;
use tc_beh::{Machine, RowFault, Rows, Shape};
use tc_model::{HedgeLine, Pairs, TreeLine};
use tc_rules::Rules;
use tc_settle::{HoldFault, NumberedRows};

/// Rows over a machine, each held once and known by its number. Once a row is refused, no further one is held.
#[derive(Drop)]
pub(crate) struct HeldRows<'m, 'b, K: Over> {
    rows: Rows<'m, 'b>,
    hedges: Lists,
    trees: Lists,
    rooms: Rooms,
    kinds: Kinds,
    appends: Appends,
    /// No row was refused.
    is_whole: bool,
    over: PhantomData<K>,
}

impl<'m, 'b, K: Over> Model for HeldRows<'m, 'b, K> {
    ghost use Rattle.tc_close.specs.RowState.{RowState};
    ghost use Rattle.tc_close.specs.HeldRows.{AreHeld, AreKnown, state_of};

    ghost Value = { RowState };

    ghost view = { λ p. state_of p.rows p.hedges p.trees p.is_whole };

    ghost invariant = { λ p. AreHeld K.is_of p.rows (state_of p.rows p.hedges p.trees p.is_whole) p.rooms × AreKnown K.is_of p.rows.outputs p.hedges p.trees p.kinds p.appends };
}

/// Why a row can't be held.
fn hold_fault(fault: RowFault) -> HoldFault
    ensures { result ≡ HoldFault.Full → fault ≡ RowFault.TooManyOutputs }
{
    match fault {
        RowFault::TooManyOutputs => HoldFault::Full,
        RowFault::NewOutput | RowFault::NoMemory => HoldFault::NoMemory,
    }
}

impl<'m, 'b, K: Over> HeldRows<'m, 'b, K> {
    /// No rows.
    pub(crate) fn new(
        alloc: Global,
        machine: &'m Machine<'b>,
    ) -> Result<HeldRows<'m, 'b, K>, NoMemory>
        requires some { (x : Triple) × K.is_of x }
        requires machine { (x : Triple) → K.is_of x → IsMachineOf x machine.now }
        ensures hedges { IfOk result (λ r. r.hedges ≡ []) }
        ensures trees { IfOk result (λ r. r.trees ≡ []) }
    {
        let rooms = Rooms::new(alloc, machine)?;
        let shape = machine.shape();
        let kinds = Kinds::new(alloc, shape)?;
        let appends = Appends::new(alloc, shape)?;
        let rows = Rows::new(alloc, machine)?;
        Ok(HeldRows {
            rows,
            hedges: Lists::new(alloc),
            trees: Lists::new(alloc),
            rooms,
            kinds,
            appends,
            is_whole: true,
            over: PhantomData,
        })
    }

    /// How many sets of pairs stand in rows.
    pub(crate) fn output_count(&self) -> u32
        ensures count { result ≡ length self.now.outputs.matrices }
        ensures known { Known K.is_of self.now }
    {
        let _hedges = self.hedges.count();
        let _trees = self.trees.count();
        self.rows.output_count()
    }

    /// How long the parts of rows are.
    pub(crate) fn shape(&self) -> Shape
        ensures stands { (x : Triple) → K.is_of x → IsShapeOf x result }
        ensures fits { (result.inputs < 4294967296) × (result.outputs < 4294967296)
            × (result.patterns < 4294967296) }
    {
        self.rows.machine().shape()
    }

    /// How many rows of lists of trees are held.
    pub(crate) fn hedge_count(&self) -> u32
        ensures { result ≡ length self.now.hedges }
    {
        self.hedges.count()
    }

    /// How many rows of trees are held.
    pub(crate) fn tree_count(&self) -> u32
        ensures { result ≡ length self.now.trees }
    {
        self.trees.count()
    }

    /// The pairs of the set of a number, in order.
    pub(crate) fn output(&self, alloc: Global, number: u32) -> Result<Pairs, NoMemory>
        requires { number < length self.now.outputs.matrices }
        ensures { IfOk result (λ pairs. pairs ≡ pairs_of (set_at self.now.outputs number)) }
    {
        self.rows.output(alloc, number)
    }

    /// The row of a tree as a line of a certificate, with the numbers of its outputs as they are held.
    pub(crate) fn tree_line(&mut self, alloc: Global, place: u32) -> Result<TreeLine, NoMemory>
        requires { place < length self.old.trees }
        ensures same { self.new ≡ self.old }
        ensures line { IfOk result
            (λ l. (x : Triple) → K.is_of x → l ≡ tree_held x self.old place) }
        ensures outs { IfOk result (λ l. All (λ n. n < length self.old.outputs.matrices) l.outs) }
    {
        let _shape = self.shape();
        self.rooms.tree.load(self.trees.get(place));
        self.rooms.tree.line(alloc)
    }

    /// The row of a list of trees as a line of a certificate, with the numbers of its outputs as they are held.
    pub(crate) fn hedge_line(&mut self, alloc: Global, place: u32) -> Result<HedgeLine, NoMemory>
        requires { place < length self.old.hedges }
        ensures same { self.new ≡ self.old }
        ensures line { IfOk result
            (λ l. (x : Triple) → K.is_of x → l ≡ hedge_held x self.old place) }
        ensures outs { IfOk result (λ l. All (λ n. n < length self.old.outputs.matrices) l.outs) }
    {
        let _shape = self.shape();
        self.rooms.hedge.load(self.hedges.get(place));
        self.rooms.hedge.line(alloc)
    }

    /// The rules of the stylesheet.
    pub(crate) fn rules(&self) -> &'m Rules<'b>
        ensures { (x : Triple) → K.is_of x → IsRulesIn x result.now }
    {
        self.rows.machine().rules()
    }

    /// Whether it is known that no element of a symbol can stand around a list of trees.
    pub(crate) fn is_dead_wrap(&self, symbol: u32, hedge: u32) -> bool
        ensures { result ≡ true → (held_of K.is_of self.now).no_wrap symbol hedge }
    {
        self.kinds.is_dead_wrap(symbol, hedge)
    }

    /// A list of trees that agrees with this one in all but its looks: the first that does, if there is memory to find it.
    pub(crate) fn core(&mut self, hedge: u32) -> u32
        requires { hedge < length self.old.hedges }
        ensures same { self.new ≡ self.old }
        ensures low { result < length self.old.hedges }
        ensures agree { (x : Triple) → K.is_of x
            → AgreeButLooks (hedge_at x self.old result) (hedge_at x self.old hedge) }
    {
        self.kinds.core(&self.hedges, hedge)
    }

    /// The list of trees that one is with a tree behind it, if that is known.
    pub(crate) fn known_append(&self, hedge: u32, tree: u32) -> Option<u32>
        requires hedge { hedge < length self.now.hedges }
        requires tree { tree < length self.now.trees }
        ensures { IfSome result (IsAppendAt (held_of K.is_of self.now) hedge tree) }
    {
        if !self.appends.are_even(hedge, tree) || self.kinds.is_dead_append(hedge, tree) {
            return None;
        }
        let lists = HeldLists {
            hedges: &self.hedges,
            trees: &self.trees,
        };
        self.appends.known(lists, hedge, tree)
    }

    /// Learns which list of trees one is with a tree behind it.
    pub(crate) fn learn_append(&mut self, hedge: u32, tree: u32, made: u32)
        requires hedge { hedge < length self.old.hedges }
        requires tree { tree < length self.old.trees }
        requires told { IsAppendAt (held_of K.is_of self.old) hedge tree made }
        ensures { self.new ≡ self.old }
    {
        let lists = HeldLists {
            hedges: &self.hedges,
            trees: &self.trees,
        };
        self.appends.learn(lists, hedge, tree, made);
    }

    /// Whether no row was refused.
    pub(crate) fn is_whole(&self) -> bool
        ensures { result ≡ self.now.is_whole }
    {
        self.is_whole
    }
}

impl<'m, 'b, K: Over> NumberedRows for HeldRows<'m, 'b, K> {
    ghost use Rattle.tc_close.specs.RowState.{held_of, IsFull};

    ghost held = { held_of K.is_of };

    ghost is_full = { IsFull K.is_of };

    fn symbols(&self) -> u32 {
        let _outputs = self.output_count();
        self.rows.machine().alphabet().count()
    }

    fn none(&mut self) -> Result<u32, HoldFault> {
        if !self.is_whole {
            return Err(HoldFault::NoMemory);
        }
        self.is_whole = false;
        if let Err(fault) = self.rows.empty_row(&mut self.rooms.new_hedge) {
            return Err(hold_fault(fault));
        }
        let Ok(number) = self.hedges.keep(self.rooms.new_hedge.numbers()) else {
            return Err(HoldFault::NoMemory);
        };
        self.is_whole = true;
        Ok(number)
    }

    fn text(&mut self) -> Result<Option<u32>, HoldFault> {
        if !self.is_whole {
            return Err(HoldFault::NoMemory);
        }
        self.is_whole = false;
        match self.rows.text_row(&mut self.rooms.new_tree) {
            Ok(true) => {}
            Ok(false) => {
                self.is_whole = true;
                return Ok(None);
            }
            Err(fault) => return Err(hold_fault(fault)),
        }
        let Ok(number) = self.trees.keep(self.rooms.new_tree.numbers()) else {
            return Err(HoldFault::NoMemory);
        };
        self.is_whole = true;
        Ok(Some(number))
    }

    fn append(&mut self, hedge: u32, tree: u32) -> Result<Option<u32>, HoldFault> {
        if !self.is_whole {
            return Err(HoldFault::NoMemory);
        }
        if self.kinds.is_dead_append(hedge, tree) {
            return Ok(None);
        }
        self.is_whole = false;
        self.rooms.hedge.load(self.hedges.get(hedge));
        self.rooms.tree.load(self.trees.get(tree));
        match self.rows.append(
            &self.rooms.hedge,
            &self.rooms.tree,
            &mut self.rooms.new_hedge,
        ) {
            Ok(true) => {}
            Ok(false) => {
                self.kinds
                    .learn_append(&self.hedges, &self.trees, hedge, tree);
                self.is_whole = true;
                return Ok(None);
            }
            Err(fault) => return Err(hold_fault(fault)),
        }
        let Ok(number) = self.hedges.keep(self.rooms.new_hedge.numbers()) else {
            return Err(HoldFault::NoMemory);
        };
        self.is_whole = true;
        Ok(Some(number))
    }

    fn wrap(&mut self, symbol: u32, hedge: u32) -> Result<Option<u32>, HoldFault> {
        if !self.is_whole {
            return Err(HoldFault::NoMemory);
        }
        if self.kinds.is_dead_wrap(symbol, hedge) {
            return Ok(None);
        }
        self.is_whole = false;
        self.rooms.hedge.load(self.hedges.get(hedge));
        match self
            .rows
            .wrap(Sym(symbol), &self.rooms.hedge, &mut self.rooms.new_tree)
        {
            Ok(true) => {}
            Ok(false) => {
                self.kinds.learn_wrap(&self.hedges, symbol, hedge);
                self.is_whole = true;
                return Ok(None);
            }
            Err(fault) => return Err(hold_fault(fault)),
        }
        let Ok(number) = self.trees.keep(self.rooms.new_tree.numbers()) else {
            return Err(HoldFault::NoMemory);
        };
        self.is_whole = true;
        Ok(Some(number))
    }

    fn is_failing(&mut self, tree: u32) -> bool {
        self.rooms.tree.load(self.trees.get(tree));
        self.rows.admitted(&self.rooms.tree) && !self.rows.root_ok(&self.rooms.tree)
    }
}
