// Rows of texts, and of elements around trees.
ghost use Rattle.std.specs.Prelude.{◌≡◌, ◌<◌, ◌≤◌, ◌+◌, ◌-◌, ◌⊎◌, ◌==◌, ℕ, [], length, get_or, OnOk, OnErr, true, false};
ghost use Rattle.tc_base.specs.declared.limits.TheConstants.{MOST_OUTPUTS};
ghost use Rattle.tc_mat.specs.Held.{AreMatrices};
ghost use Rattle.tc_rows.specs.Triples.{Triple};
ghost use Rattle.tc_rows.specs.Arithmetic.{letter_around, letter_of_text};
ghost use Rattle.tc_beh.specs.Above.{letter_of};
ghost use Rattle.tc_beh.specs.Entries.{AreGrounds, AreSomeGrounds, IsNodeRow, ComesPartly};
ghost use Rattle.tc_beh.specs.Held.{Extends, Grows};
ghost use Rattle.tc_beh.specs.Places.{entries_by};
ghost use Rattle.tc_beh.specs.Rooms.{tree_layout, output_at, outputs_in, looks_in};
ghost use Rattle.tc_beh.specs.RoomsOf.{IsRoomOf, IsRoomBeside};
ghost use Rattle.tc_beh.specs.RowsOf.{IsWork};
ghost use Rattle.tc_beh.specs.Stands.{IsRulesIn, AreRules};
ghost use Rattle.tc_beh.specs.Refusals.{MayRefuse};

use crate::above::Letter;
use crate::entries::{Node, put_entries};
use crate::held_sets::HeldSets;
use crate::leads::{Lead, put_leads};
use crate::looks::marks;
use crate::looks_above::put_looks;
use crate::machine::Machine;
use crate::outputs::RowFault;
use crate::patterns::put_patterns;
use crate::rooms::{HRow, Room, TRow};
use crate::rows::{Rows, Work};
use tc_alpha::Sym;
use tc_rules::Kind;

/// Leaves the looks and the entries of a node.
fn put_node<'b>(
    machine: &Machine<'b>,
    outputs: &mut HeldSets,
    is_fixed: bool,
    work: &mut Work<'b>,
    node: Node<'_>,
    out: &mut Room,
) -> Result<(), RowFault>
    requires grounds { AreSomeGrounds machine.now outputs.old work.old node }
    requires few { (i : ℕ) → get_or node.looks.now i 0 ≤ 2 }
    requires room { (x : Triple) × AreGrounds x machine.now outputs.old work.old node
        × IsRoomOf (tree_layout x) out.old }
    ensures work { (x : Triple) → AreGrounds x machine.now outputs.old work.old node.entry
        → IsWork x machine.now outputs.new work.new }
    ensures beside { IsRoomBeside out.old out.new }
    ensures others { (k : ℕ) → k < 2 + out.old.flags → get_or out.new.numbers.items k 0
        ≡ get_or out.old.numbers.items k 0 }
    ensures held { Extends outputs.old outputs.new }
    ensures sets { AreMatrices outputs.new }
    ensures row { OnOk result ((x : Triple)
        → AreGrounds x machine.now outputs.old work.old node.entry
        → IsRoomOf (tree_layout x) out.old
        → IsNodeRow x outputs.old outputs.new node.entry out.new.numbers.items) }
    ensures grows { OnOk result (Grows outputs.old outputs.new
        (output_at out.old.flags out.new.numbers.items) out.old.entries) }
    ensures partly { OnErr result ((x : Triple)
        → AreGrounds x machine.now outputs.old work.old node.entry
        → ComesPartly x
        (entries_by outputs.old.matrices node.entry.entries.now) node.entry outputs.old
        outputs.new) }
    ensures refusals { MayRefuse is_fixed outputs.old outputs.new result }
{
    let letter = node.letter;
    put_looks(
        &machine.rules,
        node.looks,
        node.bears,
        letter.kind,
        letter.marks,
        out,
    );
    let put = put_entries(machine, outputs, is_fixed, work, node, out);
    let _held = outputs.len();
    put
}

/// The letter of a text.
fn text_letter(machine: &Machine<'_>) -> Letter
    requires { AreRules machine.now.rules }
    ensures { (x : Triple) → IsRulesIn x machine.now.rules → letter_of result ≡ letter_of_text x }
{
    Letter {
        kind: Kind::Text,
        marks: marks(&machine.rules, &[]),
    }
}

/// The node of a text.
fn text_node<'a>(letter: Letter, leads: &'a [Lead]) -> Node<'a>
    ensures letter { result.letter ≡ letter }
    ensures bears { result.bears ≡ true }
    ensures entries { result.entries.now ≡ [] }
    ensures looks { result.looks.now ≡ [] }
    ensures leads { result.leads.now ≡ leads.now }
{
    Node {
        letter,
        bears: true,
        entries: &[],
        looks: &[],
        leads,
    }
}

/// The letter of an element of a symbol around a list of trees.
fn element_letter(machine: &Machine<'_>, sym: Sym, hedge: &Room) -> Letter
    requires { AreRules machine.now.rules }
    ensures { (x : Triple) → IsRulesIn x machine.now.rules → letter_of result
        ≡ letter_around x sym.0
        (looks_in hedge.now.flags hedge.now.entries hedge.now.numbers.items) }
{
    let looks = hedge.looks();
    Letter {
        kind: Kind::Elem(sym),
        marks: marks(&machine.rules, looks),
    }
}

/// The node of an element around a list of trees.
fn node_around<'a>(letter: Letter, hedge: &'a Room, leads: &'a [Lead]) -> Node<'a>
    ensures letter { result.letter ≡ letter }
    ensures bears { result.bears ≡ (get_or hedge.now.numbers.items 1 0 == 1) }
    ensures entries { result.entries.now
        ≡ outputs_in hedge.now.flags hedge.now.entries hedge.now.numbers.items }
    ensures looks { result.looks.now
        ≡ looks_in hedge.now.flags hedge.now.entries hedge.now.numbers.items }
    ensures leads { result.leads.now ≡ leads.now }
{
    Node {
        letter,
        bears: hedge.bears(),
        entries: hedge.outputs(),
        looks: hedge.looks(),
        leads,
    }
}

impl<'m, 'b> Rows<'m, 'b> {
    ghost use Rattle.std.specs.Prelude.{◌≡◌, ◌<◌, IfOk, OnErr, true, false, length};
    ghost use Rattle.std.specs.Result.{IsErrOf};
    ghost use Rattle.tc_model.specs.Symbols.{symbol_count};
    ghost use Rattle.tc_rows.specs.Triples.{Triple};
    ghost use Rattle.tc_rows.specs.Rows.{TreeRow};
    ghost use Rattle.tc_rows.specs.Arithmetic.{IsTextRow, IsTextLive, IsWrap, IsLiveWrap};
    ghost use Rattle.tc_beh.specs.Held.{Extends, Grows};
    ghost use Rattle.tc_beh.specs.Outs.{GrowsBy, IsLeftOut};
    ghost use Rattle.tc_beh.specs.Rooms.{tree_layout, output_at};
    ghost use Rattle.tc_beh.specs.RoomsOf.{IsRoomOf, IsRoomBeside};
    ghost use Rattle.tc_beh.specs.RowsOf.{AreRows, AreRowsOf, AreSameRows, StandsForHedge, StandsForTree, hedge_of, tree_of};

    /// The row of a text that isn't white space alone. Tells whether a text may stand in the input; where not, nothing is held
    /// that wasn't before. Over fixed rows it is refused no memory.
    ///
    /// # Errors
    ///
    /// A set of its pairs would be the 65,537th (`TooManyOutputs`), isn't held over fixed rows (`NewOutput`), or finds no memory
    /// (`NoMemory`).
    pub fn text_row(&mut self, out: &mut TRow) -> Result<bool, RowFault>
        requires rows { AreRows self.old }
        requires room { (x : Triple) → AreRowsOf x self.old
            → IsRoomOf (tree_layout x) out.old.room }
        ensures rows { (x : Triple) → AreRowsOf x self.old → AreRowsOf x self.new }
        ensures same { AreSameRows self.old self.new }
        ensures room { IsRoomBeside out.old.room out.new.room }
        ensures held { Extends self.old.outputs self.new.outputs }
        ensures dead { IfOk result (λ b. b ≡ false → (self.new.outputs ≡ self.old.outputs)
            × ((x : Triple) → AreRowsOf x self.old → ¬ IsTextLive x)) }
        ensures live { IfOk result (λ b. b ≡ true → (x : Triple) → AreRowsOf x self.old
            → IsTextLive x) }
        ensures row { IfOk result (λ b. b ≡ true → (x : Triple) → AreRowsOf x self.old
            → StandsForTree x self.new out.new × IsTextRow x (tree_of x self.new out.new)) }
        ensures grows { IfOk result (λ b. b ≡ true
            → Grows self.old.outputs self.new.outputs
            (output_at out.new.room.flags out.new.room.numbers.items) out.new.room.entries) }
        ensures err { OnErr result ((x : Triple) → AreRowsOf x self.old → IsTextLive x) }
        ensures partly { OnErr result ((x : Triple) (r : TreeRow) → AreRowsOf x self.old
            → IsTextRow x r → GrowsBy self.old.outputs self.new.outputs r.entries
            × IsLeftOut self.new.outputs r.entries) }
        ensures fixed { self.old.is_fixed ≡ true → self.new.outputs ≡ self.old.outputs }
        ensures full { IsErrOf result RowFault.TooManyOutputs → (self.old.is_fixed ≡ false)
            × (length self.new.outputs.matrices ≡ MOST_OUTPUTS) }
        ensures fresh { IsErrOf result RowFault.NewOutput → self.old.is_fixed ≡ true }
        ensures memory { IsErrOf result RowFault.NoMemory → self.old.is_fixed ≡ false }
    {
        let machine = self.machine;
        if !machine.input.auto().has_text() {
            return Ok(false);
        }
        let letter = text_letter(machine);
        put_leads(&machine.rules, letter, self.leads.as_mut_slice());
        let node = text_node(letter, self.leads.as_slice());
        out.room.set_heads(true, true);
        out.room.clear_flags();
        put_node(
            machine,
            &mut self.outputs,
            self.is_fixed,
            &mut self.work,
            node,
            &mut out.room,
        )?;
        Ok(true)
    }

    /// The row of an element of a symbol around a list of trees. Tells whether it may stand in the input; where not, nothing is
    /// held that wasn't before. Over fixed rows it is refused no memory.
    ///
    /// # Errors
    ///
    /// A set of its pairs would be the 65,537th (`TooManyOutputs`), isn't held over fixed rows (`NewOutput`), or finds no memory
    /// (`NoMemory`).
    pub fn wrap(&mut self, sym: Sym, h: &HRow, out: &mut TRow) -> Result<bool, RowFault>
        requires rows { AreRows self.old }
        requires symbol { (x : Triple) → AreRowsOf x self.old → sym.0 < symbol_count x.symbols }
        requires hedge { (x : Triple) → AreRowsOf x self.old → StandsForHedge x self.old h.now }
        requires room { (x : Triple) → AreRowsOf x self.old
            → IsRoomOf (tree_layout x) out.old.room }
        ensures rows { (x : Triple) → AreRowsOf x self.old → AreRowsOf x self.new }
        ensures same { AreSameRows self.old self.new }
        ensures room { IsRoomBeside out.old.room out.new.room }
        ensures held { Extends self.old.outputs self.new.outputs }
        ensures dead { IfOk result (λ b. b ≡ false → (self.new.outputs ≡ self.old.outputs)
            × ((x : Triple) → AreRowsOf x self.old
            → ¬ IsLiveWrap x sym.0 (hedge_of x self.old h.now))) }
        ensures live { IfOk result (λ b. b ≡ true → (x : Triple) → AreRowsOf x self.old
            → IsLiveWrap x sym.0 (hedge_of x self.old h.now)) }
        ensures row { IfOk result (λ b. b ≡ true → (x : Triple) → AreRowsOf x self.old
            → StandsForTree x self.new out.new
            × IsWrap x sym.0 (hedge_of x self.old h.now) (tree_of x self.new out.new)) }
        ensures grows { IfOk result (λ b. b ≡ true
            → Grows self.old.outputs self.new.outputs
            (output_at out.new.room.flags out.new.room.numbers.items) out.new.room.entries) }
        ensures err { OnErr result ((x : Triple) → AreRowsOf x self.old
            → IsLiveWrap x sym.0 (hedge_of x self.old h.now)) }
        ensures partly { OnErr result ((x : Triple) (r : TreeRow) → AreRowsOf x self.old
            → IsWrap x sym.0 (hedge_of x self.old h.now) r
            → GrowsBy self.old.outputs self.new.outputs r.entries
            × IsLeftOut self.new.outputs r.entries) }
        ensures fixed { self.old.is_fixed ≡ true → self.new.outputs ≡ self.old.outputs }
        ensures full { IsErrOf result RowFault.TooManyOutputs → (self.old.is_fixed ≡ false)
            × (length self.new.outputs.matrices ≡ MOST_OUTPUTS) }
        ensures fresh { IsErrOf result RowFault.NewOutput → self.old.is_fixed ≡ true }
        ensures memory { IsErrOf result RowFault.NoMemory → self.old.is_fixed ≡ false }
    {
        let machine = self.machine;
        let takers = self.work.takers.as_slice();
        if !put_patterns(&machine.input, takers, sym, h.room.flags(), &mut out.room) {
            return Ok(false);
        }
        let letter = element_letter(machine, sym, &h.room);
        put_leads(&machine.rules, letter, self.leads.as_mut_slice());
        let node = node_around(letter, &h.room, self.leads.as_slice());
        out.room.set_heads(false, node.bears);
        put_node(
            machine,
            &mut self.outputs,
            self.is_fixed,
            &mut self.work,
            node,
            &mut out.room,
        )?;
        Ok(true)
    }
}
