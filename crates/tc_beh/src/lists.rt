// What is held as lists of pairs, and lists of pairs as what is held.
ghost use Rattle.std.specs.Prelude.{◌≡◌, ◌<◌, ◌≤◌, ◌++◌, ◌∷◌, [], ℕ, length, All, IfOk, OnOk, IfSome, MatchOption};
ghost use Rattle.std.specs.List.{Contains};
ghost use Rattle.tc_base.specs.declared.limits.TheConstants.{MOST_OUTPUTS};
ghost use Rattle.tc_mat.specs.Matrix.{IsMatrix};
ghost use Rattle.tc_mat.specs.Held.{IsHeld};
ghost use Rattle.tc_rows.specs.PairSets.{IsPairs};
ghost use Rattle.tc_beh.specs.Places.{pairs_of as list_of};
ghost use Rattle.tc_beh.specs.Outs.{sets_of};
ghost use Rattle.tc_beh.specs.Listing.{row_pairs, AreDistinct, HasPairs, AreZero, IsFirstBit, LeadsNowhere, IsNext};

use std::alloc::Global;
use tc_base::NoMemory;
use tc_mat::{Mat, Pool};
use tc_model::{PairLists, Pairs};

/// Leaves these pairs.
fn put_pairs(set: &mut Mat, pairs: &Pairs)
    requires { (i j : ℕ) → Contains pairs.now (i, j) → (i < set.old.size) × (j < set.old.size) }
    ensures size { set.new.size ≡ set.old.size }
    ensures matrix { IsMatrix set.new }
    ensures pairs { HasPairs set.new pairs.now }
{
    set.clear();
    for place in 0..pairs.len() {
        let (from, to) = *pairs.get(place);
        set.set(from, to);
    }
}

/// Holds one set more.
fn hold(outputs: &mut Pool, set: &Mat) -> Result<(), NoMemory>
    requires size { set.now.size ≡ outputs.old.size }
    requires absent { ¬ IsHeld outputs.old set.now }
    requires few { length outputs.old.matrices < MOST_OUTPUTS }
    ensures { OnOk result
        (outputs.new ≡ record outputs.old { matrices = outputs.old.matrices ++ set.now ∷ [] }) }
{
    match outputs.intern(set) {
        Ok(_) => Ok(()),
        Err(_) => Err(NoMemory),
    }
}

/// Sets of these pairs, each with its place as its number.
pub(crate) fn pool_of(alloc: Global, size: u32, lists: &PairLists) -> Result<Pool, NoMemory>
    requires few { length lists.now ≤ MOST_OUTPUTS }
    requires distinct { AreDistinct lists.now }
    requires pairs { All (IsPairs size) lists.now }
    ensures size { IfOk result (λ p. p.size ≡ size) }
    ensures sets { IfOk result (λ p. sets_of p.matrices ≡ lists.now) }
{
    let mut outputs = Pool::new(alloc, size);
    let mut set = Mat::zero(alloc, size)?;
    for number in 0..lists.len() {
        put_pairs(&mut set, lists.get(number));
        hold(&mut outputs, &set)?;
    }
    Ok(outputs)
}

/// Puts a pair at the end.
fn push_pair(pairs: &mut Pairs, pair: (u32, u32)) -> Result<(), NoMemory>
    ensures { OnOk result (pairs.new ≡ pairs.old ++ pair ∷ []) }
{
    if pairs.len() == u32::MAX {
        return Err(NoMemory);
    }
    pairs.push(pair)
}

/// The first place of a word, from one on, at which a bit is set.
fn first_bit(word: u64, start: u32) -> Option<u32>
    requires { start < 64 }
    ensures { MatchOption result (AreZero word start 64) (λ k. IsFirstBit word start k) }
{
    let rest = word >> start;
    if rest == 0 {
        return None;
    }
    Some(start + rest.trailing_zeros())
}

/// The first number, from one on, to which a number leads.
fn next_of(set: &Mat, from: u32, start: u32) -> Option<u32>
    requires { from < set.now.size }
    ensures next { MatchOption result (LeadsNowhere set.now from start set.now.size)
        (λ to. IsNext set.now from start to) }
    ensures low { IfSome result (λ to. to < 4294967295) }
{
    let width = (set.size() as usize + 63) / 64;
    let first = start as usize / 64;
    for word in first..width {
        let place = if word == first { start % 64 } else { 0 };
        if let Some(bit) = first_bit(set.words()[from as usize * width + word], place) {
            return Some(64 * word as u32 + bit);
        }
    }
    None
}

/// Puts the pairs of a set from one number at the end, in order.
fn put_row(set: &Mat, from: u32, pairs: &mut Pairs) -> Result<(), NoMemory>
    requires { from < set.now.size }
    ensures { OnOk result (pairs.new ≡ pairs.old ++ row_pairs set.now from set.now.size) }
{
    let mut start = 0;
    while let Some(to) = next_of(set, from, start) {
        push_pair(pairs, (from, to))?;
        start = to + 1;
    }
    Ok(())
}

/// The pairs of a set, in order.
pub(crate) fn pairs_of(alloc: Global, set: &Mat) -> Result<Pairs, NoMemory>
    ensures { IfOk result (λ l. l ≡ list_of set.now) }
{
    let mut pairs = Pairs::new(alloc);
    for from in 0..set.size() {
        put_row(set, from, &mut pairs)?;
    }
    Ok(pairs)
}
