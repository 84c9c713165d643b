// Appends that are told from others, without whole rows.
// All but the entries of a list of trees with a tree behind it is as where another tree stands behind another list and
// both agree with these in all but their entries. What stands at a place of the entries is as where others have the
// same two numbers there. And rows mostly have the same numbers at many places: one of each such class is asked.
ghost use Rattle.std.specs.Prelude.{◌≡◌, ◌<◌, length, [], IfOk, IfSome, IsTrue, MatchOption, true};
ghost use Rattle.tc_beh.specs.Rooms.{output_at};
ghost use Rattle.tc_close.specs.NumberTables.{ComesOn};
ghost use Rattle.tc_close.specs.Appends.{AgreeButEntries, AreEven, AreKept, AreProducts, IsEven, IsEvenAt, IsProduct, IsTold};

use crate::kinds::{HEADS, are_alike, bear_alike};
use crate::lists::Lists;
use crate::number_hasher::{MULTIPLIER, step};
use crate::number_table::NumberTable;
use std::alloc::Global;
use tc_base::NoMemory;
use tc_beh::Shape;

/// How many classes of places there are at most.
const MOST: usize = 256;

/// Rows with fewer entries are soon worked out, and nothing is learned of them.
const FEW: u32 = 256;

/// Numbers more in a sum.
fn all_mixed(sum: u64, numbers: &[u32]) -> u64 {
    let mut all = sum;
    for number in numbers {
        all = step(all, *number);
    }
    all
}

/// A sum of all but the entries of a row. No answer depends on sums.
fn sum_of(flags: u32, entries: u32, numbers: &[u32]) -> u64 {
    let begin = HEADS + flags as usize;
    let end = begin + entries as usize;
    if numbers.len() < end {
        return 0;
    }
    all_mixed(all_mixed(0, &numbers[..begin]), &numbers[end..])
}

/// A sum of all but the entries of a list of trees and of a tree.
fn sum_of_both(shape: Shape, hedge: &[u32], tree: &[u32]) -> u64 {
    let first = sum_of(shape.inputs, shape.entries, hedge);
    let second = sum_of(shape.patterns, shape.entries, tree);
    first.wrapping_mul(MULTIPLIER) ^ second
}

/// A sum of two numbers at a place of entries.
fn sum_at(place: u32, first: u32, second: u32) -> u64 {
    step(step(step(0, place), first), second)
}

/// Where a sum leads.
fn slot(sum: u64) -> usize {
    (sum >> 40) as usize
}

/// The number at a place of the entries of a row.
fn entry(flags: u32, numbers: &[u32], place: u32) -> u32
    ensures { result ≡ output_at flags numbers.now place }
{
    let place = HEADS + flags as usize + place as usize;
    match numbers.get(place) {
        Some(number) => *number,
        None => 0,
    }
}

/// Whether two rows agree in all but their entries.
fn agree_but_entries(flags: u32, entries: u32, first: &[u32], second: &[u32]) -> bool
    ensures { IsTrue result → AgreeButEntries flags entries first.now second.now }
{
    let end = HEADS + flags as usize + entries as usize;
    if first.len() < end || second.len() < end {
        return false;
    }
    if !are_alike(flags as usize, first, second) || !bear_alike(first, second) {
        return false;
    }
    first[end..] == second[end..]
}

/// Classes of places of entries. They are guesses: no answer depends on them.
#[derive(Drop)]
pub(crate) struct Classes {
    /// Of each place its class.
    of: Vec<u32>,
    /// A place of each class.
    firsts: Vec<u32>,
}

impl Classes {
    /// Whether a row is known to have the same number at a place of its entries and at the first place of its class.
    fn is_even_at(&self, entries: u32, flags: u32, numbers: &[u32], place: u32) -> bool
        ensures { result ≡ true → IsEvenAt entries self.now flags numbers.now place }
    {
        let Some(class) = self.of.get(place as usize) else {
            return false;
        };
        let Some(first) = self.firsts.get(*class as usize) else {
            return false;
        };
        *first < entries && entry(flags, numbers, *first) == entry(flags, numbers, place)
    }

    /// The first place at which a row isn't even.
    fn uneven(&self, entries: u32, flags: u32, numbers: &[u32]) -> Option<u32>
        ensures { MatchOption result (IsEven entries self.now flags numbers.now)
            (λ place. place < entries) }
    {
        for place in 0..entries {
            if !self.is_even_at(entries, flags, numbers, place) {
                return Some(place);
            }
        }
        None
    }

    /// Where a row isn't even, makes a class of those of the class of the first such place where it has the same number.
    fn part(&mut self, entries: u32, flags: u32, numbers: &[u32]) {
        let parted = self.firsts.len();
        let Some(place) = self.uneven(entries, flags, numbers) else {
            return;
        };
        let Some(before) = self.of.get(place as usize).copied() else {
            return;
        };
        if parted >= MOST || self.firsts.push(place).is_err() {
            return;
        }
        let number = entry(flags, numbers, place);
        for other in place..entries {
            if let Some(class) = self.of.get_mut(other as usize) {
                if *class == before && entry(flags, numbers, other) == number {
                    *class = parted as u32;
                }
            }
        }
    }
}

/// Appends that were worked out, and rows that are even: which have the same number at all places of each class.
#[derive(Drop)]
pub(crate) struct Appends {
    shape: Shape,
    classes: Classes,
    /// How many of the first lists of trees are even.
    hedges: usize,
    /// How many of the first trees are.
    trees: usize,
    /// How many rows may be looked through again: one for each append that was worked out.
    again: usize,
    /// Lists of trees, trees, and what they make, each where sums of what it tells lead.
    made: NumberTable,
}

/// The lists of trees and the trees that are held.
#[derive(Clone, Copy)]
pub(crate) struct HeldLists<'a> {
    pub(crate) hedges: &'a Lists,
    pub(crate) trees: &'a Lists,
}

/// Remembers of a list of trees and a tree what they make, by the entries at the places of classes, and as a whole.
fn remember(
    made: &mut NumberTable,
    shape: Shape,
    places: &[u32],
    rows: (&[u32], &[u32], &[u32]),
    numbers: (u32, u32, u32),
)
    ensures { ComesOn numbers.0 numbers.1 numbers.2 made.old.places.items made.new.places.items }
{
    let mut sum = sum_of_both(shape, rows.0, rows.1);
    for class in 0..places.len() {
        let place = places[class];
        let first = entry(shape.inputs, rows.0, place);
        let second = entry(shape.patterns, rows.1, place);
        made.put_at(slot(sum_at(place, first, second)), numbers);
        sum = step(sum, entry(shape.inputs, rows.2, place));
    }
    made.put_at(slot(sum), numbers);
}

impl Appends {
    /// Nothing is known.
    ///
    /// # Errors
    ///
    /// There is no memory.
    pub(crate) fn new(alloc: Global, shape: Shape) -> Result<Appends, NoMemory>
        ensures kept { IfOk result (AreKept [] []) }
        ensures shape { IfOk result (λ a. a.shape ≡ shape) }
    {
        let of = vec![in alloc; 0u32; shape.entries as usize]?;
        let mut firsts = Vec::new(alloc);
        firsts.push(0)?;
        let made = NumberTable::new(alloc)?;
        Ok(Appends {
            shape,
            classes: Classes { of, firsts },
            hedges: 0,
            trees: 0,
            again: 0,
            made,
        })
    }

    /// How many of the first rows are even, up to a place.
    fn evens(&self, flags: u32, known: usize, rows: &Lists, place: u32) -> usize
        requires place { place < length rows.now }
        requires known { AreEven self.now.shape.entries self.now.classes flags rows.now known }
        ensures { AreEven self.now.shape.entries self.now.classes flags rows.now result }
    {
        let mut count = known;
        for next in known..place as usize + 1 {
            match self
                .classes
                .uneven(self.shape.entries, flags, rows.get(next as u32))
            {
                Some(_) => return count,
                None => count = next + 1,
            }
        }
        count
    }

    /// What the entries of two rows make at a place, as others tell.
    fn product(
        &self,
        lists: HeldLists<'_>,
        place: u32,
        first: &[u32],
        second: &[u32],
    ) -> Option<u32>
        requires { AreKept lists.hedges.now lists.trees.now self.now }
        ensures { IfSome result
            (IsProduct self.now lists.entry.hedges.now lists.entry.trees.now place
            (output_at self.now.shape.inputs first.now place)
            (output_at self.now.shape.patterns second.now place)) }
    {
        let (inputs, patterns) = (self.shape.inputs, self.shape.patterns);
        let one = entry(inputs, first, place);
        let other = entry(patterns, second, place);
        let (hedge, tree, made) = self.made.at(slot(sum_at(place, one, other)))?;
        if entry(inputs, lists.hedges.get(hedge), place) == one
            && entry(patterns, lists.trees.get(tree), place) == other
        {
            Some(entry(inputs, lists.hedges.get(made), place))
        } else {
            None
        }
    }

    /// Whether the entries of a row are known to be made of those of two, as far as all are even.
    fn are_products(
        &self,
        lists: HeldLists<'_>,
        first: &[u32],
        second: &[u32],
        both: &[u32],
    ) -> bool
        requires { AreKept lists.hedges.now lists.trees.now self.now }
        ensures { result ≡ true
            → AreProducts self.now lists.entry.hedges.now lists.entry.trees.now first.now
            second.now both.now }
    {
        for class in 0..self.classes.firsts.len() {
            let place = self.classes.firsts[class];
            let Some(product) = self.product(lists, place, first, second) else {
                return false;
            };
            if product != entry(self.shape.inputs, both, place) {
                return false;
            }
        }
        true
    }

    /// Where it is remembered what two rows make, if all products are known.
    fn slot_of(&self, lists: HeldLists<'_>, first: &[u32], second: &[u32]) -> Option<usize>
        requires { AreKept lists.hedges.now lists.trees.now self.now }
    {
        let mut sum = sum_of_both(self.shape, first, second);
        for class in 0..self.classes.firsts.len() {
            let place = self.classes.firsts[class];
            sum = step(sum, self.product(lists, place, first, second)?);
        }
        Some(slot(sum))
    }

    /// Whether a list of trees and a tree are known to be even.
    pub(crate) fn are_even(&self, hedge: u32, tree: u32) -> bool
        ensures { result ≡ true → (hedge < self.now.hedges) × (tree < self.now.trees) }
    {
        (hedge as usize) < self.hedges && (tree as usize) < self.trees
    }

    /// What a list of trees and a tree make, if it is told by others.
    pub(crate) fn known(&self, lists: HeldLists<'_>, hedge: u32, tree: u32) -> Option<u32>
        requires kept { AreKept lists.hedges.now lists.trees.now self.now }
        requires hedge { hedge < length lists.hedges.now }
        requires tree { tree < length lists.trees.now }
        ensures { IfSome result
            (IsTold self.now lists.entry.hedges.now lists.entry.trees.now hedge tree) }
    {
        if !self.are_even(hedge, tree) {
            return None;
        }
        let shape = self.shape;
        let (first, second) = (lists.hedges.get(hedge), lists.trees.get(tree));
        let slot = self.slot_of(lists, first, second)?;
        let (other, another, made) = self.made.at(slot)?;
        if (made as usize) < self.hedges
            && agree_but_entries(shape.inputs, shape.entries, lists.hedges.get(other), first)
            && agree_but_entries(
                shape.patterns,
                shape.entries,
                lists.trees.get(another),
                second,
            )
            && self.are_products(lists, first, second, lists.hedges.get(made))
        {
            Some(made)
        } else {
            None
        }
    }

    /// Learns what a list of trees and a tree make. If a row isn't even, it parts the classes by it instead, where so many rows may
    /// be looked through again; none is known to be even then.
    pub(crate) fn learn(&mut self, lists: HeldLists<'_>, hedge: u32, tree: u32, made: u32)
        requires kept { AreKept lists.hedges.now lists.trees.now self.old }
        requires hedge { hedge < length lists.hedges.now }
        requires tree { tree < length lists.trees.now }
        requires made { made < length lists.hedges.now }
        ensures kept { AreKept lists.entry.hedges.now lists.entry.trees.now self.new }
        ensures shape { self.new.shape ≡ self.old.shape }
        ensures comes { ComesOn hedge tree made self.old.made.places.items
            self.new.made.places.items }
    {
        let HeldLists { hedges, trees } = lists;
        let shape = self.shape;
        if shape.entries < FEW {
            return;
        }
        self.hedges = self.evens(shape.inputs, self.hedges, hedges, made);
        self.trees = self.evens(shape.patterns, self.trees, trees, tree);
        self.again = self.again.saturating_add(1);
        let (flags, row) = if self.hedges <= made as usize {
            (shape.inputs, hedges.get(self.hedges as u32))
        } else if self.trees <= tree as usize {
            (shape.patterns, trees.get(self.trees as u32))
        } else {
            let rows = (hedges.get(hedge), trees.get(tree), hedges.get(made));
            let places = self.classes.firsts.as_slice();
            remember(&mut self.made, shape, places, rows, (hedge, tree, made));
            return;
        };
        if self.hedges <= self.again && self.classes.firsts.len() < MOST {
            self.again -= self.hedges;
            self.hedges = 0;
            self.trees = 0;
            self.classes.part(shape.entries, flags, row);
        }
    }
}
