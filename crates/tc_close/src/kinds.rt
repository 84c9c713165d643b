// Rows that may stand in the same places, and what is known to be dead of them.
ghost use Rattle.std.specs.Prelude.{◌≡◌, ◌<◌, ◌≤◌, ◌+◌, ◌⊎◌, ℕ, [], Some, length, get_or, IfOk, IfSome, IsTrue, All};
ghost use Rattle.std.specs.List.{Contains};
ghost use Rattle.tc_close.specs.Kinds.{AreAlike, IsLike, AreFit, FitLists, KnowsNothing, KnowsAppend, KnowsWrap, LearnsAppend, LearnsWrap, LearnsCore, IsCore};

use crate::lists::Lists;
use crate::number_hasher::MULTIPLIER;
use crate::number_table::NumberTable;
use std::alloc::Global;
use tc_base::NoMemory;
use tc_beh::Shape;

/// How many numbers stand before the flags of a row.
pub(crate) const HEADS: usize = 2;

/// Lists of numbers by their kind: for each of the first lists the place of one that is like it.
#[derive(Drop)]
pub(crate) struct Alike {
    /// How many flags there are.
    flags: usize,
    of: Vec<u32>,
    /// The places of those that are like none before, each beside the sum of what they are compared by.
    firsts: Vec<(u64, u32)>,
}

/// A sum of the number at the front and the flags of a list. No answer depends on it: what it tells is guessed.
fn sum_of(flags: usize, numbers: &[u32]) -> u64
    requires { flags ≤ 8589934590 }
{
    let end = HEADS + flags;
    if numbers.len() < end {
        return 0;
    }
    let mut sum = 0u64;
    for number in &numbers[HEADS..end] {
        sum = (sum ^ u64::from(*number)).wrapping_mul(MULTIPLIER);
    }
    sum
}

/// Whether two lists have the same number at the front and the same flags.
pub(crate) fn are_alike(flags: usize, first: &[u32], second: &[u32]) -> bool
    requires { flags ≤ 8589934590 }
    ensures { IsTrue result → AreAlike flags first.now second.now }
{
    let end = HEADS + flags;
    if first.len() < end || second.len() < end {
        return false;
    }
    first[0] == second[0] && first[HEADS..end] == second[HEADS..end]
}

/// Puts a list behind the first ones, if it is like none before.
fn put_first(
    firsts: &mut Vec<(u64, u32)>,
    sum: u64,
    first: u32,
    place: usize,
) -> Result<(), NoMemory> {
    if first as usize == place {
        firsts.push((sum, first))?;
    }
    Ok(())
}

/// Whether two rows bear alike.
pub(crate) fn bear_alike(first: &[u32], second: &[u32]) -> bool
    ensures { IsTrue result → get_or first.now 1 0 ≡ get_or second.now 1 0 }
{
    match (first.get(1), second.get(1)) {
        (Some(first), Some(second)) => *first == *second,
        _ => false,
    }
}

impl Alike {
    fn new(alloc: Global, flags: usize) -> Alike
        ensures flags { result.flags ≡ flags }
        ensures of { result.of.items ≡ [] }
    {
        Alike {
            flags,
            of: Vec::new(alloc),
            firsts: Vec::new(alloc),
        }
    }

    /// The place of a list that is like this one: the first of its kind, or this one itself.
    fn first_like(&self, lists: &Lists, place: u32, sum: u64) -> u32
        requires fit { AreFit lists.now self.now }
        requires place { place < length lists.now }
        ensures { IsLike self.now.flags lists.now result place }
    {
        for known in 0..self.firsts.len() {
            let (other, first) = self.firsts[known];
            if other == sum
                && first < place
                && are_alike(self.flags, lists.get(first), lists.get(place))
            {
                return first;
            }
        }
        place
    }

    /// Learns the kinds of the lists up to a place.
    ///
    /// # Errors
    ///
    /// There is no memory. What was known before still is.
    fn learn(&mut self, lists: &Lists, place: u32) -> Result<(), NoMemory>
        requires place { place < length lists.now }
        requires fit { AreFit lists.now self.old }
        ensures fit { AreFit lists.now self.new }
        ensures flags { self.new.flags ≡ self.old.flags }
        ensures more { (u : ℕ) → u < length self.old.of.items → (u < length self.new.of.items)
            × (get_or self.new.of.items u 0 ≡ get_or self.old.of.items u 0) }
    {
        for next in self.of.len()..place as usize + 1 {
            let sum = sum_of(self.flags, lists.get(next as u32));
            let first = self.first_like(lists, next as u32, sum);
            put_first(&mut self.firsts, sum, first, next)?;
            self.of.push(first)?;
        }
        Ok(())
    }

    /// The place of a list that is like this one, which is learned where it isn't known. There is none where there is no
    /// memory.
    fn learned(&mut self, lists: &Lists, place: u32) -> Option<u32>
        requires place { place < length lists.now }
        requires fit { AreFit lists.now self.old }
        ensures fit { AreFit lists.now self.new }
        ensures flags { self.new.flags ≡ self.old.flags }
        ensures like { IfSome result (λ k. IsLike self.new.flags lists.now k place) }
        ensures known { IfSome result
            (λ k. (place < length self.new.of.items) × (k ≡ get_or self.new.of.items place 0)) }
    {
        self.learn(lists, place).ok()?;
        self.of.get(place as usize).copied()
    }
}

/// The kinds of rows, and those that are dead together.
#[derive(Drop)]
pub(crate) struct Kinds {
    hedges: Alike,
    trees: Alike,
    /// Lists of trees by all but their looks and whether they bear: their entries are taken for flags.
    cores: Alike,
    /// Lists of trees and trees, by the first ones of their kinds: the tree can't stand behind the list.
    appends: NumberTable,
    /// Symbols and lists of trees: no element of the symbol can stand around the list.
    wraps: NumberTable,
}

impl Kinds {
    /// Nothing is known.
    ///
    /// # Errors
    ///
    /// There is no memory for the pairs.
    pub(crate) fn new(alloc: Global, shape: Shape) -> Result<Kinds, NoMemory>
        ensures { IfOk result (λ k. KnowsNothing shape k) }
    {
        let appends = NumberTable::new(alloc)?;
        let wraps = NumberTable::new(alloc)?;
        let inputs = shape.inputs as usize;
        let entries = shape.entries as usize;
        Ok(Kinds {
            hedges: Alike::new(alloc, inputs),
            trees: Alike::new(alloc, shape.patterns as usize),
            cores: Alike::new(alloc, inputs + entries),
            appends,
            wraps,
        })
    }

    /// Whether it is known that a tree can't stand behind a list of trees.
    pub(crate) fn is_dead_append(&self, hedge: u32, tree: u32) -> bool
        ensures { IsTrue result → KnowsAppend self.now hedge tree }
    {
        let (Some(first), Some(second)) = (
            self.hedges.of.get(hedge as usize),
            self.trees.of.get(tree as usize),
        ) else {
            return false;
        };
        self.appends.get(*first, *second).is_some()
    }

    /// Whether it is known that no element of a symbol can stand around a list of trees.
    pub(crate) fn is_dead_wrap(&self, symbol: u32, hedge: u32) -> bool
        ensures { IsTrue result → KnowsWrap self.now symbol hedge }
    {
        match self.hedges.of.get(hedge as usize) {
            Some(first) => self.wraps.get(symbol, *first).is_some(),
            None => false,
        }
    }

    /// Learns that a tree can't stand behind a list of trees.
    pub(crate) fn learn_append(&mut self, hedges: &Lists, trees: &Lists, hedge: u32, tree: u32)
        requires hedge { hedge < length hedges.now }
        requires tree { tree < length trees.now }
        requires fit { FitLists hedges.now trees.now self.old }
        ensures fit { FitLists hedges.now trees.now self.new }
        ensures append { LearnsAppend hedges.now trees.now hedge tree self.old self.new }
    {
        let first = self.hedges.learned(hedges, hedge);
        let second = self.trees.learned(trees, tree);
        if let (Some(first), Some(second)) = (first, second) {
            self.appends.put(first, second, 0);
        }
    }

    /// Learns that no element of a symbol can stand around a list of trees.
    pub(crate) fn learn_wrap(&mut self, hedges: &Lists, symbol: u32, hedge: u32)
        requires hedge { hedge < length hedges.now }
        requires fit { AreFit hedges.now self.old.hedges }
        ensures fit { AreFit hedges.now self.new.hedges }
        ensures trees { self.new.trees ≡ self.old.trees }
        ensures wrap { LearnsWrap hedges.now symbol hedge self.old self.new }
    {
        if let Some(first) = self.hedges.learned(hedges, hedge) {
            self.wraps.put(symbol, first, 0);
        }
    }

    /// A list of trees that has all but the looks of this one: the first that does, if there is memory to find it.
    pub(crate) fn core(&mut self, hedges: &Lists, hedge: u32) -> u32
        requires hedge { hedge < length hedges.now }
        requires fit { AreFit hedges.now self.old.cores }
        ensures learns { LearnsCore hedges.now self.old self.new }
        ensures core { IsCore self.new.cores.flags hedges.now result hedge }
    {
        let Some(first) = self.cores.learned(hedges, hedge) else {
            return hedge;
        };
        if bear_alike(hedges.get(first), hedges.get(hedge)) {
            first
        } else {
            hedge
        }
    }
}
