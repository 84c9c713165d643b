// The sets of pairs that stand in rows, each held once.
ghost use Rattle.std.specs.Prelude.{◌≡◌, ◌<◌, ◌≤◌, ◌+◌, ◌++◌, ◌∷◌, ◌⊎◌, ℕ, [], length, slice_get, get_or, Some, IfSome, IfOk, OnOk, OnErr, true, false, IsTrue};
ghost use Rattle.tc_mat.specs.Matrix.{IsComposition};
ghost use Rattle.tc_mat.specs.Held.{IsHeld};
ghost use Rattle.tc_beh.specs.Held.{Extends, Grows, GrowsAt, set_at, IsNew, AreProducts};
ghost use Rattle.tc_beh.specs.Remembered.{IsNothing, IsProduct};
ghost use Rattle.tc_beh.specs.Rooms.{output_at};
ghost use Rattle.tc_beh.specs.RoomsOf.{IsRoomBeside};
ghost use Rattle.tc_beh.specs.Refusals.{MayRefuse};

use crate::held_sets::HeldSets;
use crate::rooms::Room;
use tc_mat::{Mat, MatId, PoolFault};

/// Why there is no row.
#[derive(Clone, Copy, Debug, PartialEq, Eq)]
pub enum RowFault {
    /// A set of pairs of the row would be the 65,537th.
    TooManyOutputs,
    /// A set of pairs of the row isn't held, and the rows are fixed.
    NewOutput,
    /// Memory was refused.
    NoMemory,
}

/// The number of a set, which is held from now on, or else is held already where the sets are fixed.
pub(crate) fn keep(outputs: &mut HeldSets, is_fixed: bool, set: &Mat) -> Result<u32, RowFault>
    requires { set.now.size ≡ outputs.old.size }
    ensures number { IfOk result (λ k. slice_get outputs.new.matrices k ≡ Some set.now) }
    ensures grows { IfOk result
        (λ k. (outputs.new ≡ outputs.old)
        ⊎ ((k ≡ length outputs.old.matrices)
        × (outputs.new ≡ record outputs.old { matrices = outputs.old.matrices ++ set.now ∷ [] }))) }
    ensures err { OnErr result ((outputs.new ≡ outputs.old) × ¬ IsHeld outputs.old set.now) }
    ensures refusals { MayRefuse is_fixed outputs.old outputs.new result }
{
    if let Some(id) = outputs.find(set) {
        return Ok(id.0);
    }
    if is_fixed {
        return Err(RowFault::NewOutput);
    }
    match outputs.hold(set) {
        Ok(id) => Ok(id.0),
        Err(PoolFault::PoolFull) => Err(RowFault::TooManyOutputs),
        Err(PoolFault::NoMemory) => Err(RowFault::NoMemory),
    }
}

/// True only of a number that is known.
fn is_known(known: Option<u32>, number: u32) -> bool
    ensures { result ≡ true → known ≡ Some number }
{
    match known {
        Some(same) => same == number,
        None => false,
    }
}

/// The number of the product of two sets, if it is known. Where one of them is that of each state with itself, it is the other.
fn known_product(outputs: &HeldSets, nothing: Option<u32>, first: u32, second: u32) -> Option<u32>
    requires nothing { IfSome nothing (IsNothing outputs.now) }
    requires first { first < length outputs.now.matrices }
    requires second { second < length outputs.now.matrices }
    ensures { IfSome result (IsProduct outputs.now first second) }
{
    let _held = outputs.len();
    if is_known(nothing, second) {
        return Some(first);
    }
    if is_known(nothing, first) {
        return Some(second);
    }
    outputs.product(first, second)
}

/// The number of the set that leads by one and then by another.
fn keep_product(
    outputs: &mut HeldSets,
    is_fixed: bool,
    set: &mut Mat,
    nothing: Option<u32>,
    first: u32,
    second: u32,
) -> Result<u32, RowFault>
    requires set { set.old.size ≡ outputs.old.size }
    requires nothing { IfSome nothing (IsNothing outputs.old) }
    requires first { first < length outputs.old.matrices }
    requires second { second < length outputs.old.matrices }
    ensures set { set.new.size ≡ set.old.size }
    ensures held { Extends outputs.old outputs.new }
    ensures pairs { IfOk result
        (λ k. (k < length outputs.new.matrices)
        × IsComposition (set_at outputs.old first) (set_at outputs.old second)
        (set_at outputs.new k)) }
    ensures grows { IfOk result (GrowsAt outputs.old outputs.new) }
    ensures err { OnErr result ((outputs.new ≡ outputs.old)
        × IsNew outputs.old (set_at outputs.old first) (set_at outputs.old second)) }
    ensures refusals { MayRefuse is_fixed outputs.old outputs.new result }
{
    if let Some(number) = known_product(outputs, nothing, first, second) {
        return Ok(number);
    }
    Mat::mul_into(outputs.get(MatId(first)), outputs.get(MatId(second)), set);
    let number = keep(outputs, is_fixed, set)?;
    outputs.remember(first, second, number);
    Ok(number)
}

/// Leaves the numbers of the products of entries.
pub(crate) fn put_products(
    outputs: &mut HeldSets,
    is_fixed: bool,
    set: &mut Mat,
    first: &[u32],
    second: &[u32],
    out: &mut Room,
) -> Result<(), RowFault>
    requires set { set.old.size ≡ outputs.old.size }
    requires first_count { length first.now ≡ out.old.entries }
    requires second_count { length second.now ≡ out.old.entries }
    requires first { (i : ℕ) → i < length first.now
        → get_or first.now i 0 < length outputs.old.matrices }
    requires second { (i : ℕ) → i < length second.now
        → get_or second.now i 0 < length outputs.old.matrices }
    ensures set { set.new.size ≡ set.old.size }
    ensures beside { IsRoomBeside out.old out.new }
    ensures others { (k : ℕ) → (k < 2 + out.old.flags) ⊎ (2 + out.old.flags + out.old.entries ≤ k)
        → get_or out.new.numbers.items k 0 ≡ get_or out.old.numbers.items k 0 }
    ensures held { Extends outputs.old outputs.new }
    ensures grows { OnOk result
        (Grows outputs.old outputs.new
        (output_at out.old.flags out.new.numbers.items) out.old.entries) }
    ensures pairs { OnOk result
        ((i : ℕ) → i < out.old.entries
        → IsComposition (set_at outputs.old (get_or first.now i 0))
        (set_at outputs.old (get_or second.now i 0))
        (set_at outputs.new (output_at out.old.flags out.new.numbers.items i))) }
    ensures partly { OnErr result
        (AreProducts outputs.old outputs.new (λ i. get_or first.now i 0)
        (λ i. get_or second.now i 0) out.old.entries) }
    ensures err { OnErr result
        ((i : ℕ) × (i < out.old.entries)
        × IsNew outputs.new (set_at outputs.old (get_or first.now i 0))
        (set_at outputs.old (get_or second.now i 0))) }
    ensures refusals { MayRefuse is_fixed outputs.old outputs.new result }
{
    let nothing = outputs.nothing();
    for place in 0..out.entries {
        let number = keep_product(outputs, is_fixed, set, nothing, first[place], second[place])?;
        out.set_output(place, number);
    }
    Ok(())
}
