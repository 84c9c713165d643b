// Rows of trees with one more behind them.
ghost use Rattle.std.specs.Prelude.{◌≡◌, ◌≢◌, ◌<◌, ◌≤◌, ◌+◌, ◌⊎◌, ◌↔◌, ◌==◌, ◌-◌, ℕ, List, length, get_or, IsTrue, Bool, true, false, cond, OnOk, OnErr};
ghost use Rattle.std.specs.List.{Contains};
ghost use Rattle.tc_auto.specs.Stands.{states as states_of, patterns as patterns_of};
ghost use Rattle.tc_rows.specs.Rows.{or_hit};
ghost use Rattle.tc_mat.specs.Held.{AreMatrices};
ghost use Rattle.tc_beh.specs.Held.{Extends, Grows, set_at, IsNew, AreProducts};
ghost use Rattle.tc_beh.specs.Rooms.{flag_at, flags_in, output_at};
ghost use Rattle.tc_beh.specs.RoomsOf.{IsRoomBeside, AreTexts};
ghost use Rattle.tc_beh.specs.Appending.{Puts, IsBehind};
ghost use Rattle.tc_beh.specs.Bundles.{AreStepsOf};
ghost use Rattle.tc_beh.specs.Refusals.{MayRefuse};

use crate::bundles::{Bundles, put_edges};
use crate::held_sets::HeldSets;
use crate::outputs::{RowFault, put_products};
use crate::rooms::Room;
use tc_auto::Auto;
use tc_mat::Mat;

/// Whether a flag is set.
pub(crate) fn is_set(flags: &[u32], place: usize) -> bool
    ensures { IsTrue result ↔ (get_or flags.now place 0 ≡ 1) }
{
    match flags.get(place) {
        Some(flag) => *flag == 1,
        None => false,
    }
}

/// Leaves the flags of the states to which an element leads some, by the element patterns that it matches. None is set yet.
fn put_states_of_element(
    auto: &Auto<'_>,
    bundles: &mut Bundles,
    hedge: &[u32],
    patterns: &[u32],
    out: &mut Room,
)
    requires flags { out.old.flags ≡ states_of auto.now }
    requires none { (j : ℕ) → j < out.old.flags → flag_at out.old.numbers.items j ≡ 0 }
    requires patterns { length patterns.now ≡ patterns_of auto.now }
    requires steps { AreStepsOf auto.now bundles.old }
    ensures steps { AreStepsOf auto.now bundles.new }
    ensures beside { IsRoomBeside out.old out.new }
    ensures others { (k : ℕ) → (k < 2) ⊎ (2 + out.old.flags ≤ k) → get_or out.new.numbers.items k 0
        ≡ get_or out.old.numbers.items k 0 }
    ensures flags { Puts auto.now hedge.now false patterns.now out.new.numbers.items }
{
    for before in 0..auto.patterns() {
        if is_set(patterns, before as usize) {
            put_edges(
                auto.arrows(before + 1),
                bundles.patterns[before as usize].as_slice(),
                &mut bundles.words,
                hedge,
                out,
            );
        }
    }
}

/// Leaves the flags of the states to which a tree leads some.
fn put_states(
    auto: &Auto<'_>,
    bundles: &mut Bundles,
    hedge: &[u32],
    is_text: bool,
    patterns: &[u32],
    out: &mut Room,
)
    requires flags { out.old.flags ≡ states_of auto.now }
    requires patterns { length patterns.now ≡ patterns_of auto.now }
    requires steps { AreStepsOf auto.now bundles.old }
    ensures steps { AreStepsOf auto.now bundles.new }
    ensures beside { IsRoomBeside out.old out.new }
    ensures others { (k : ℕ) → (k < 2) ⊎ (2 + out.old.flags ≤ k) → get_or out.new.numbers.items k 0
        ≡ get_or out.old.numbers.items k 0 }
    ensures flags { Puts auto.now hedge.now is_text patterns.now out.new.numbers.items }
{
    out.clear_flags();
    if is_text {
        put_edges(
            auto.text_arrows(),
            bundles.text.as_slice(),
            &mut bundles.words,
            hedge,
            out,
        );
    } else {
        put_states_of_element(auto, bundles, hedge, patterns, out);
    }
}

/// Whether some flag is set.
pub(crate) fn has_flag(flags: &[u32]) -> bool
    ensures { IsTrue result ↔ Contains flags.now 1 }
{
    flags.contains(&1)
}

/// Leaves for each look the first hit, or else the one behind it.
fn put_first_looks(first: &[u32], second: &[u32], out: &mut Room)
    requires first { length first.now + 2 + out.old.flags + out.old.entries
        ≡ length out.old.numbers.items }
    requires second { length second.now ≡ length first.now }
    ensures beside { IsRoomBeside out.old out.new }
    ensures others { (k : ℕ) → k < 2 + out.old.flags + out.old.entries
        → get_or out.new.numbers.items k 0 ≡ get_or out.old.numbers.items k 0 }
    ensures looks { (i : ℕ) → i < length first.now
        → get_or out.new.numbers.items (2 + out.old.flags + out.old.entries + i) 0
        ≡ or_hit (get_or first.now i 0) (get_or second.now i 0) }
{
    for place in 0..first.len() {
        let value = first[place];
        let value = if value == 0 { second[place] } else { value };
        out.set_look(place, value);
    }
}

/// Leaves where a list of trees may stand with a tree more behind it. Tells whether it may stand anywhere.
pub(crate) fn put_kind(
    auto: &Auto<'_>,
    bundles: &mut Bundles,
    hedge: &Room,
    tree: &Room,
    out: &mut Room,
) -> bool
    requires flags { out.old.flags ≡ states_of auto.now }
    requires patterns { tree.now.flags ≡ patterns_of auto.now }
    requires steps { AreStepsOf auto.now bundles.old }
    ensures steps { AreStepsOf auto.now bundles.new }
    ensures beside { IsRoomBeside out.old out.new }
    ensures others { (k : ℕ) → (k < 2) ⊎ (2 + out.old.flags ≤ k) → get_or out.new.numbers.items k 0
        ≡ get_or out.old.numbers.items k 0 }
    ensures live { IsTrue result
        ↔ (¬ AreTexts hedge.now tree.now
        × Contains (flags_in out.new.flags out.new.numbers.items) 1) }
    ensures flags { ¬ AreTexts hedge.now tree.now
        → Puts auto.now (flags_in hedge.now.flags hedge.now.numbers.items)
        (get_or tree.now.numbers.items 0 0 == 1)
        (flags_in tree.now.flags tree.now.numbers.items) out.new.numbers.items }
{
    if hedge.is_text() && tree.is_text() {
        return false;
    }
    put_states(
        auto,
        bundles,
        hedge.flags(),
        tree.is_text(),
        tree.flags(),
        out,
    );
    has_flag(out.flags())
}

/// Leaves all but the flags of a list of trees with a tree more behind it.
pub(crate) fn put_append(
    outputs: &mut HeldSets,
    is_fixed: bool,
    set: &mut Mat,
    hedge: &Room,
    tree: &Room,
    out: &mut Room,
) -> Result<(), RowFault>
    requires set { set.old.size ≡ outputs.old.size }
    requires hedge { hedge.now.entries ≡ out.old.entries }
    requires tree { tree.now.entries ≡ out.old.entries }
    requires first { (i : ℕ) → i < out.old.entries
        → output_at hedge.now.flags hedge.now.numbers.items i < length outputs.old.matrices }
    requires second { (i : ℕ) → i < out.old.entries
        → output_at tree.now.flags tree.now.numbers.items i < length outputs.old.matrices }
    requires looks { length hedge.now.numbers.items + out.old.flags
        ≡ length out.old.numbers.items + hedge.now.flags }
    requires tree_looks { length tree.now.numbers.items + hedge.now.flags
        ≡ length hedge.now.numbers.items + tree.now.flags }
    ensures set { set.new.size ≡ set.old.size }
    ensures beside { IsRoomBeside out.old out.new }
    ensures flags { (k : ℕ) → 2 ≤ k → k < 2 + out.old.flags → get_or out.new.numbers.items k 0
        ≡ get_or out.old.numbers.items k 0 }
    ensures numbers { OnOk result
        (IsBehind outputs.old outputs.new hedge.now.flags tree.now.flags out.old.flags
        out.old.entries hedge.now.numbers.items tree.now.numbers.items out.new.numbers.items) }
    ensures held { Extends outputs.old outputs.new }
    ensures matrices { AreMatrices outputs.new }
    ensures grows { OnOk result
        (Grows outputs.old outputs.new
        (output_at out.old.flags out.new.numbers.items) out.old.entries) }
    ensures partly { OnErr result
        (AreProducts outputs.old outputs.new (output_at hedge.now.flags hedge.now.numbers.items)
        (output_at tree.now.flags tree.now.numbers.items) out.old.entries) }
    ensures err { OnErr result
        ((i : ℕ) × (i < out.old.entries)
        × IsNew outputs.new
        (set_at outputs.old (output_at hedge.now.flags hedge.now.numbers.items i))
        (set_at outputs.old (output_at tree.now.flags tree.now.numbers.items i))) }
    ensures refusals { MayRefuse is_fixed outputs.old outputs.new result }
{
    out.set_heads(tree.is_text(), hedge.bears() || tree.bears());
    put_first_looks(hedge.looks(), tree.looks(), out);
    let put = put_products(outputs, is_fixed, set, hedge.outputs(), tree.outputs(), out);
    let _held = outputs.len();
    put
}
