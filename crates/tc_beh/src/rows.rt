// Rows and what they are worked out in.
ghost use Rattle.std.specs.Prelude.{◌≡◌, ◌<◌, ◌≤◌, ◌+◌, ℕ, [], length, get_or, IfOk, OnOk, All};
ghost use Rattle.std.specs.List.{Contains};
ghost use Rattle.tc_base.specs.declared.limits.TheConstants.{MOST_OUTPUTS};
ghost use Rattle.tc_mat.specs.Matrix.{Matrix, IsMatrix, HasPair};
ghost use Rattle.tc_beh.specs.Machines.{IsMachine, IsMachineOf};
ghost use Rattle.tc_rows.specs.Triples.{Triple};

use crate::append::{put_append, put_kind};
use crate::bundles::Bundles;
use crate::empty::put_empty;
use crate::held_sets::HeldSets;
use crate::leads::{Lead, NOWHERE};
use crate::lists::{pairs_of, pool_of};
use crate::machine::Machine;
use crate::open_sets::OpenSets;
use crate::outputs::RowFault;
use crate::patterns::all_takers;
use crate::rooms::{HRow, TRow};
use crate::runs::Run;
use std::alloc::Global;
use tc_base::NoMemory;
use tc_mat::{Mat, MatId, Pool};
use tc_model::{PairLists, Pairs};
use tc_rules::KnownRules;

/// What rows over one machine are worked out in: the sets of pairs that stand in rows, each with a number, and room.
#[derive(Drop)]
pub struct Rows<'m, 'b> {
    pub(crate) machine: &'m Machine<'b>,
    pub(crate) is_fixed: bool,
    pub(crate) outputs: HeldSets,
    pub(crate) work: Work<'b>,
    /// Where the states of moves go on the node whose row is worked out.
    pub(crate) leads: Vec<Lead>,
}

/// Room for sets of pairs that are worked out.
#[derive(Drop)]
pub(crate) struct Work<'b> {
    pub(crate) alloc: Global,
    /// The pairs of a text that isn't white space alone.
    pub(crate) text: Mat,
    /// The set that is worked out.
    pub(crate) set: Mat,
    /// The sets of the bodies of named templates.
    pub(crate) named: Vec<Mat>,
    /// The sets that stand open in a body.
    pub(crate) sets: OpenSets,
    /// Some of the rules that were found for letters of nodes.
    pub(crate) known: KnownRules,
    /// The edges of the contents of the input schema.
    pub(crate) bundles: Bundles,
    /// The element patterns of the input schema whose classes hold a symbol, by symbol.
    pub(crate) takers: Vec<Vec<u32>>,
    /// The runs of the bodies of rules, by rule, and whether they were read.
    pub(crate) runs: Vec<Option<Run<'b>>>,
    pub(crate) are_read: bool,
}

/// So many empty sets.
fn empty_sets(alloc: Global, count: usize, size: u32) -> Result<Vec<Mat>, NoMemory>
    ensures count { IfOk result (λ v. length v.items ≡ count) }
    ensures sizes { IfOk result (λ v. All (λ m. m.size ≡ size) v.items) }
{
    let mut sets = Vec::new(alloc);
    for _ in 0..count {
        sets.push(Mat::zero(alloc, size)?)?;
    }
    Ok(sets)
}

impl<'b> Work<'b> {
    ghost use Rattle.tc_mat.specs.Held.{Held};
    ghost use Rattle.tc_beh.specs.RowsOf.{IsWork};

    fn new(alloc: Global, machine: &Machine<'b>) -> Result<Work<'b>, NoMemory>
        requires { IsMachine machine.now }
        ensures { IfOk result (λ w. (x : Triple) (h : Held) → IsMachineOf x machine.now
            → IsWork x machine.now h w) }
    {
        let size = machine.output.auto().states();
        let mut text = Mat::zero(alloc, size)?;
        machine.output.text_into(&mut text);
        let set = Mat::zero(alloc, size)?;
        let named = empty_sets(alloc, machine.rules.sheet().named.len(), size)?;
        let sets = OpenSets::of(alloc, &text, machine.depth)?;
        let known = KnownRules::new(&machine.rules)?;
        let bundles = Bundles::of(alloc, machine.input.auto())?;
        let takers = all_takers(alloc, &machine.input)?;
        let runs = Vec::new(alloc);
        Ok(Work {
            alloc,
            text,
            set,
            named,
            sets,
            known,
            bundles,
            takers,
            runs,
            are_read: false,
        })
    }
}

impl<'m, 'b> Rows<'m, 'b> {
    ghost use Rattle.std.specs.Prelude.{◌≡◌, ◌<◌, IfOk, true, false};
    ghost use Rattle.tc_beh.specs.Machines.{IsMachine, IsMachineOf};
    ghost use Rattle.tc_rows.specs.Triples.{Triple};
    ghost use Rattle.std.specs.Prelude.{OnOk, OnErr};
    ghost use Rattle.std.specs.Result.{IsErrOf};
    ghost use Rattle.tc_rows.specs.Arithmetic.{IsEmptyRow, IsAppend, IsLiveAppend};
    ghost use Rattle.tc_beh.specs.Rooms.{hedge_layout, output_at};
    ghost use Rattle.tc_beh.specs.RoomsOf.{IsRoomOf, IsRoomBeside};
    ghost use Rattle.tc_beh.specs.Held.{Extends, Grows, set_at};
    ghost use Rattle.tc_beh.specs.Places.{pairs_of as list_of};
    ghost use Rattle.tc_mat.specs.Held.{AreDifferent};
    ghost use Rattle.tc_rows.specs.Triples.{outputs as output_states};
    ghost use Rattle.tc_rows.specs.PairSets.{IsPairs};
    ghost use Rattle.tc_beh.specs.Listing.{AreDistinct};
    ghost use Rattle.tc_beh.specs.Outs.{sets_of, GrowsBy, IsLeftOut};
    ghost use Rattle.tc_rows.specs.Rows.{HedgeRow};
    ghost use Rattle.tc_beh.specs.RowsOf.{AreRows, AreRowsOf, AreSameRows, StandsForHedge, StandsForTree, hedge_of, tree_of};

    /// Rows without outputs.
    ///
    /// # Errors
    ///
    /// There is no memory for the room.
    pub fn new(alloc: Global, machine: &'m Machine<'b>) -> Result<Rows<'m, 'b>, NoMemory>
        requires { IsMachine machine.now }
        ensures stands { IfOk result
            (λ r. (x : Triple) → IsMachineOf x machine.now → AreRowsOf x r) }
        ensures none { IfOk result (λ r. r.outputs.matrices ≡ []) }
        ensures grow { IfOk result (λ r. r.is_fixed ≡ false) }
        ensures machine { IfOk result (λ r. r.machine.now ≡ machine.now) }
    {
        let pool = Pool::new(alloc, machine.output.auto().states());
        Rows::over(alloc, machine, pool, false)
    }

    /// Rows over these sets of pairs alone, each with its place as its number.
    ///
    /// # Errors
    ///
    /// There is no memory for the room or for the sets.
    pub fn fixed(
        alloc: Global,
        machine: &'m Machine<'b>,
        outputs: &PairLists,
    ) -> Result<Rows<'m, 'b>, NoMemory>
        requires machine { IsMachine machine.now }
        requires few { length outputs.now ≤ MOST_OUTPUTS }
        requires distinct { AreDistinct outputs.now }
        requires pairs { (x : Triple) → IsMachineOf x machine.now
            → All (IsPairs (output_states x)) outputs.now }
        ensures stands { IfOk result
            (λ r. (x : Triple) → IsMachineOf x machine.now → AreRowsOf x r) }
        ensures sets { IfOk result (λ r. sets_of r.outputs.matrices ≡ outputs.now) }
        ensures fixed { IfOk result (λ r. r.is_fixed ≡ true) }
        ensures machine { IfOk result (λ r. r.machine.now ≡ machine.now) }
    {
        let pool = pool_of(alloc, machine.output.auto().states(), outputs)?;
        Rows::over(alloc, machine, pool, true)
    }

    /// Rows over the sets of pairs of a pool.
    ///
    /// # Errors
    ///
    /// There is no memory for the room.
    fn over(
        alloc: Global,
        machine: &'m Machine<'b>,
        pool: Pool,
        is_fixed: bool,
    ) -> Result<Rows<'m, 'b>, NoMemory>
        requires { IsMachine machine.now }
        ensures stands { IfOk result (λ r. (x : Triple) → IsMachineOf x machine.now → pool.size
            ≡ output_states x → AreRowsOf x r) }
        ensures outputs { IfOk result (λ r. r.outputs ≡ pool) }
        ensures fixed { IfOk result (λ r. r.is_fixed ≡ is_fixed) }
        ensures machine { IfOk result (λ r. r.machine.now ≡ machine.now) }
    {
        let outputs = HeldSets::of(alloc, pool)?;
        let leads = vec![in alloc; NOWHERE; machine.rules.moves() as usize]?;
        let work = Work::new(alloc, machine)?;
        Ok(Rows {
            machine,
            is_fixed,
            outputs,
            work,
            leads,
        })
    }

    /// How many sets of pairs are held, at most 65,536, none of them twice.
    pub fn output_count(&self) -> u32
        ensures count { result ≡ length self.now.outputs.matrices }
        ensures few { result ≤ MOST_OUTPUTS }
        ensures different { AreDifferent self.now.outputs }
    {
        self.outputs.len()
    }

    /// The sets of pairs that are held, by their numbers, the pairs of each in order.
    ///
    /// # Errors
    ///
    /// There is no memory for the lists, or no room for the pairs of a set in one.
    pub fn outputs(&self, alloc: Global) -> Result<PairLists, NoMemory>
        ensures { IfOk result (λ l. l ≡ sets_of self.now.outputs.matrices) }
    {
        let mut lists = PairLists::new(alloc);
        for number in 0..self.outputs.len() {
            let pairs = pairs_of(alloc, self.outputs.get(MatId(number)))?;
            lists.push(pairs)?;
        }
        Ok(lists)
    }

    /// The pairs of the set of a number, in order.
    ///
    /// # Errors
    ///
    /// There is no memory for the list, or no room for the pairs in one.
    pub fn output(&self, alloc: Global, number: u32) -> Result<Pairs, NoMemory>
        requires { number < length self.now.outputs.matrices }
        ensures { IfOk result (λ l. l ≡ list_of (set_at self.now.outputs number)) }
    {
        pairs_of(alloc, self.outputs.get(MatId(number)))
    }

    /// The machine.
    pub fn machine(&self) -> &'m Machine<'b>
        ensures { result.now ≡ self.now.machine.now }
    {
        self.machine
    }

    /// The row of no tree. Over fixed rows it takes no memory.
    ///
    /// # Errors
    ///
    /// The set of its pairs would be the 65,537th (`TooManyOutputs`), isn't held over fixed rows (`NewOutput`), or finds no
    /// memory (`NoMemory`).
    pub fn empty_row(&mut self, out: &mut HRow) -> Result<(), RowFault>
        requires rows { AreRows self.old }
        requires room { (x : Triple) → AreRowsOf x self.old
            → IsRoomOf (hedge_layout x) out.old.room }
        ensures rows { (x : Triple) → AreRowsOf x self.old → AreRowsOf x self.new }
        ensures same { AreSameRows self.old self.new }
        ensures room { IsRoomBeside out.old.room out.new.room }
        ensures held { Extends self.old.outputs self.new.outputs }
        ensures row { OnOk result ((x : Triple) → AreRowsOf x self.old
            → StandsForHedge x self.new out.new × IsEmptyRow x (hedge_of x self.new out.new)) }
        ensures grows { OnOk result
            (Grows self.old.outputs self.new.outputs
            (output_at out.new.room.flags out.new.room.numbers.items) out.new.room.entries) }
        ensures partly { OnErr result
            ((x : Triple) (r : HedgeRow) → AreRowsOf x self.old → IsEmptyRow x r
            → GrowsBy self.old.outputs self.new.outputs r.entries
            × IsLeftOut self.new.outputs r.entries) }
        ensures fixed { self.old.is_fixed ≡ true → self.new.outputs ≡ self.old.outputs }
        ensures full { IsErrOf result RowFault.TooManyOutputs → (self.old.is_fixed ≡ false)
            × (length self.new.outputs.matrices ≡ MOST_OUTPUTS) }
        ensures fresh { IsErrOf result RowFault.NewOutput → self.old.is_fixed ≡ true }
        ensures memory { IsErrOf result RowFault.NoMemory → self.old.is_fixed ≡ false }
    {
        put_empty(
            self.machine.input.auto(),
            &mut self.outputs,
            self.is_fixed,
            &mut self.work.set,
            &mut out.room,
        )
    }

    /// The row of a list of trees with one tree more behind it. Tells whether it may stand in the input; where not, nothing is
    /// held that wasn't before. Over fixed rows it takes no memory.
    ///
    /// # Errors
    ///
    /// A set of its pairs would be the 65,537th (`TooManyOutputs`), isn't held over fixed rows (`NewOutput`), or finds no memory
    /// (`NoMemory`).
    pub fn append(&mut self, h: &HRow, t: &TRow, out: &mut HRow) -> Result<bool, RowFault>
        requires rows { AreRows self.old }
        requires hedge { (x : Triple) → AreRowsOf x self.old → StandsForHedge x self.old h.now }
        requires tree { (x : Triple) → AreRowsOf x self.old → StandsForTree x self.old t.now }
        requires room { (x : Triple) → AreRowsOf x self.old
            → IsRoomOf (hedge_layout x) out.old.room }
        ensures rows { (x : Triple) → AreRowsOf x self.old → AreRowsOf x self.new }
        ensures same { AreSameRows self.old self.new }
        ensures room { IsRoomBeside out.old.room out.new.room }
        ensures held { Extends self.old.outputs self.new.outputs }
        ensures dead { IfOk result
            (λ b. b ≡ false → (self.new.outputs ≡ self.old.outputs)
            × ((x : Triple) → AreRowsOf x self.old
            → ¬ IsLiveAppend x (hedge_of x self.old h.now) (tree_of x self.old t.now))) }
        ensures live { IfOk result (λ b. b ≡ true → (x : Triple) → AreRowsOf x self.old
            → IsLiveAppend x (hedge_of x self.old h.now) (tree_of x self.old t.now)) }
        ensures row { IfOk result
            (λ b. b ≡ true → (x : Triple) → AreRowsOf x self.old
            → StandsForHedge x self.new out.new
            × IsAppend x (hedge_of x self.old h.now) (tree_of x self.old t.now)
            (hedge_of x self.new out.new)) }
        ensures grows { IfOk result
            (λ b. b ≡ true
            → Grows self.old.outputs self.new.outputs
            (output_at out.new.room.flags out.new.room.numbers.items) out.new.room.entries) }
        ensures err { OnErr result ((x : Triple) → AreRowsOf x self.old
            → IsLiveAppend x (hedge_of x self.old h.now) (tree_of x self.old t.now)) }
        ensures partly { OnErr result
            ((x : Triple) (r : HedgeRow) → AreRowsOf x self.old
            → IsAppend x (hedge_of x self.old h.now) (tree_of x self.old t.now) r
            → GrowsBy self.old.outputs self.new.outputs r.entries
            × IsLeftOut self.new.outputs r.entries) }
        ensures fixed { self.old.is_fixed ≡ true → self.new.outputs ≡ self.old.outputs }
        ensures full { IsErrOf result RowFault.TooManyOutputs → (self.old.is_fixed ≡ false)
            × (length self.new.outputs.matrices ≡ MOST_OUTPUTS) }
        ensures fresh { IsErrOf result RowFault.NewOutput → self.old.is_fixed ≡ true }
        ensures memory { IsErrOf result RowFault.NoMemory → self.old.is_fixed ≡ false }
    {
        if !put_kind(
            self.machine.input.auto(),
            &mut self.work.bundles,
            &h.room,
            &t.room,
            &mut out.room,
        ) {
            return Ok(false);
        }
        put_append(
            &mut self.outputs,
            self.is_fixed,
            &mut self.work.set,
            &h.room,
            &t.room,
            &mut out.room,
        )?;
        Ok(true)
    }
}
