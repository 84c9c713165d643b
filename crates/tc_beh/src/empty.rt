// Rows of no tree.
ghost use Rattle.std.specs.Prelude.{◌≡◌, ◌<◌, ◌≤◌, ◌+◌, ◌⊎◌, ℕ, length, get_or, true, false, OnOk, OnErr};
ghost use Rattle.tc_auto.specs.Stands.{states as states_of, patterns as patterns_of};
ghost use Rattle.tc_mat.specs.Matrix.{IsMatrix, IsIdentity};
ghost use Rattle.tc_mat.specs.Held.{AreMatrices};
ghost use Rattle.tc_beh.specs.Held.{Extends, Grows, set_at};
ghost use Rattle.tc_beh.specs.Rooms.{flag_at, output_at};
ghost use Rattle.tc_beh.specs.RoomsOf.{IsRoomBeside};
ghost use Rattle.tc_beh.specs.Emptying.{PutsFirst, IsOfNoTree, IsNewIdentity};
ghost use Rattle.tc_beh.specs.Refusals.{MayRefuse};

use crate::held_sets::HeldSets;
use crate::outputs::{RowFault, keep};
use crate::rooms::Room;
use crate::sets::put_identity;
use tc_auto::Auto;
use tc_mat::Mat;

/// Leaves the flags of the first states of contents.
fn put_first_states(auto: &Auto<'_>, out: &mut Room)
    requires flags { out.old.flags ≡ states_of auto.now }
    ensures beside { IsRoomBeside out.old out.new }
    ensures others { (k : ℕ) → (k < 2) ⊎ (2 + out.old.flags ≤ k) → get_or out.new.numbers.items k 0
        ≡ get_or out.old.numbers.items k 0 }
    ensures flags { PutsFirst auto.now (patterns_of auto.now) out.new.numbers.items }
{
    out.clear_flags();
    for before in 0..auto.patterns() {
        out.set_flag(auto.first(before + 1) as usize);
    }
}

/// Leaves no hit for each look.
fn put_no_looks(out: &mut Room)
    ensures beside { IsRoomBeside out.old out.new }
    ensures others { (k : ℕ) → k < 2 + out.old.flags + out.old.entries
        → get_or out.new.numbers.items k 0 ≡ get_or out.old.numbers.items k 0 }
    ensures looks { (k : ℕ) → 2 + out.old.flags + out.old.entries ≤ k
        → get_or out.new.numbers.items k 0 ≡ 0 }
{
    for place in 0..out.looks().len() {
        out.set_look(place, 0);
    }
}

/// Leaves one number for each output.
fn put_one_output(output: u32, out: &mut Room)
    ensures beside { IsRoomBeside out.old out.new }
    ensures others { (k : ℕ) → (k < 2 + out.old.flags) ⊎ (2 + out.old.flags + out.old.entries ≤ k)
        → get_or out.new.numbers.items k 0 ≡ get_or out.old.numbers.items k 0 }
    ensures outputs { (i : ℕ) → i < out.old.entries
        → output_at out.old.flags out.new.numbers.items i ≡ output }
{
    for place in 0..out.entries {
        out.set_output(place, output);
    }
}

/// Leaves for each output the number of the set that leads each state to itself.
fn put_identities(
    outputs: &mut HeldSets,
    is_fixed: bool,
    set: &mut Mat,
    out: &mut Room,
) -> Result<(), RowFault>
    requires set { set.old.size ≡ outputs.old.size }
    ensures set { set.new.size ≡ set.old.size }
    ensures beside { IsRoomBeside out.old out.new }
    ensures others { (k : ℕ) → (k < 2 + out.old.flags) ⊎ (2 + out.old.flags + out.old.entries ≤ k)
        → get_or out.new.numbers.items k 0 ≡ get_or out.old.numbers.items k 0 }
    ensures outs { OnOk result ((i : ℕ) → i < out.old.entries
        → IsIdentity (set_at outputs.new (output_at out.old.flags out.new.numbers.items i))) }
    ensures held { Extends outputs.old outputs.new }
    ensures grows { OnOk result
        (Grows outputs.old outputs.new
        (output_at out.old.flags out.new.numbers.items) out.old.entries) }
    ensures err { OnErr result
        ((outputs.new ≡ outputs.old) × (0 < out.old.entries) × IsNewIdentity outputs.new) }
    ensures refusals { MayRefuse is_fixed outputs.old outputs.new result }
{
    if out.entries == 0 {
        return Ok(());
    }
    put_identity(set);
    let number = keep(outputs, is_fixed, set)?;
    put_one_output(number, out);
    Ok(())
}

/// Leaves the numbers of no tree.
pub(crate) fn put_empty(
    auto: &Auto<'_>,
    outputs: &mut HeldSets,
    is_fixed: bool,
    set: &mut Mat,
    out: &mut Room,
) -> Result<(), RowFault>
    requires set { set.old.size ≡ outputs.old.size }
    requires flags { out.old.flags ≡ states_of auto.now }
    ensures set { set.new.size ≡ set.old.size }
    ensures beside { IsRoomBeside out.old out.new }
    ensures numbers { OnOk result
        (IsOfNoTree outputs.new auto.now out.old.flags out.old.entries out.new.numbers.items) }
    ensures held { Extends outputs.old outputs.new }
    ensures matrices { AreMatrices outputs.new }
    ensures grows { OnOk result
        (Grows outputs.old outputs.new
        (output_at out.old.flags out.new.numbers.items) out.old.entries) }
    ensures err { OnErr result
        ((outputs.new ≡ outputs.old) × (0 < out.old.entries) × IsNewIdentity outputs.new) }
    ensures refusals { MayRefuse is_fixed outputs.old outputs.new result }
{
    out.set_heads(false, false);
    put_first_states(auto, out);
    put_no_looks(out);
    let put = put_identities(outputs, is_fixed, set, out);
    let _held = outputs.len();
    put
}
