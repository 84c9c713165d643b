// Rows of bits: path states, and which steps fit a letter.
ghost use Rattle.std.specs.Prelude.{◌≡◌, ◌+◌, ◌*◌, ◌/◌, ◌%◌, ◌^◌, ◌<◌, ◌≤◌, ◌++◌, ◌∷◌, ◌&&◌, [], true, false, None, Some, bit_and, bit_or, get_or, length, slice_get, if◌then◌else◌, IfOk, OnOk, ℕ};
ghost use Rattle.std.specs.List.{list_any};
ghost use Rattle.tc_model.specs.Letters as l;
ghost use Rattle.tc_model.specs.PathStates as p;
ghost use Rattle.tc_model.specs.Views as see;
ghost use Rattle.tc_rules.specs.Rows.{state, words, all_words};
ghost use Rattle.tc_rules.specs.Steps as v;
ghost use Rattle.tc_rules.specs.Views.{predicates};
ghost use Rattle.tc_rules.specs.Words as w;

use crate::once::number_of_test;
use std::alloc::Global;
use std::hash::{Hash, Hasher};
use tc_base::NoMemory;
use tc_model::{Name, NodeTest, Step, Test};

/// A bit for each step of a path's alternatives, one behind the other, 64 a word: a path state, or which steps fit a letter.
#[derive(Drop)]
pub(crate) struct Row {
    words: Vec<u64>,
}

impl PartialEq for Row {
    ghost use Rattle.std.proofs.Common.{rules};
    ghost use Rattle.std.specs.Cmp.Lexicographic.{pointwise};
    ghost use Rattle.std.specs.Cmp.Rules.{comparing};
    ghost use Rattle.std.specs.Ordering.{on};
    ghost use Rattle.std.specs.Prelude.{nat_eq};

    ghost eq = { on (λ r. r.words.items) (pointwise nat_eq) };

    ghost laws = { Prim.search (comparing, rules) };

    fn eq(&self, other: &Row) -> bool {
        self.words == other.words
    }
}

impl Eq for Row {
    ghost use Rattle.std.proofs.Common.{rules};
    ghost use Rattle.std.specs.Cmp.Rules.{comparing};

    ghost laws = { Prim.search (comparing, rules) };
}

impl Hash for Row {
    ghost use Rattle.std.proofs.Common.{rules};
    ghost use Rattle.std.specs.Hash as fed;
    ghost use Rattle.std.specs.Cmp.Rules.{hashing};

    ghost hash_input = { λ r. fed.slice fed.u64 r.words.items };

    ghost respects_eq = { Prim.search (hashing, rules) };

    fn hash<H: Hasher>(&self, state: &mut H) {
        self.words.hash(state);
    }
}

/// What is asked of each step: whether an element of this name, or a text, passes its node test, whether its predicate is in
/// this set, whether `//` stands before it, or whether a step comes after it.
#[derive(Clone, Copy)]
pub(crate) enum Sought<'a> {
    Passes(Option<Name<'a>>),
    Marked(u32),
    Deep,
    Inner,
}

/// Whether an element of this name, or a text, passes a node test.
fn passes(test: &NodeTest<'_>, name: &Option<Name<'_>>) -> bool
    ensures { result ≡ v.passes_name (see.node_test test.now) name.now }
{
    match (test, name) {
        (NodeTest::Name(n), Some(m)) => n.uri == m.uri && n.local == m.local,
        (NodeTest::Ns(uri), Some(m)) => *uri == m.uri,
        (NodeTest::Any, Some(_)) | (NodeTest::Text, None) | (NodeTest::Node, _) => true,
        _ => false,
    }
}

/// Whether a predicate is among the marks, or says nothing.
fn is_marked(numbered: &[&Test<'_>], when: &Test<'_>, marks: u32) -> bool
    ensures { result ≡ l.is_marked [] (predicates numbered.now) (see.test when.now) marks }
{
    if matches!(when, Test::True) {
        return true;
    }
    let number = number_of_test(numbered, when);
    has_mark(marks, number)
}

/// Whether a set of predicates has the one of this number.
fn has_mark(marks: u32, number: usize) -> bool
    ensures { result ≡ l.mark_at marks number }
{
    number < 32 && marks >> number & 1 == 1
}

/// Whether a step has what is asked, after which a step comes or not.
fn step_has(numbered: &[&Test<'_>], step: &Step<'_>, goes_on: bool, sought: &Sought<'_>) -> bool
    ensures { result ≡ v.step_has numbered.now step.now.deep goes_on (see.node_test step.now.test)
        (see.test step.now.when) sought.now }
{
    match sought {
        Sought::Passes(name) => passes(&step.test, name),
        Sought::Marked(marks) => is_marked(numbered, &step.when, *marks),
        Sought::Deep => step.deep,
        Sought::Inner => goes_on,
    }
}

/// Which of an alternative's steps have what is asked, behind what was written.
fn write_having(
    written: &mut Written,
    numbered: &[&Test<'_>],
    steps: &[Step<'_>],
    sought: &Sought<'_>,
) -> Result<(), NoMemory>
    requires { w.IsWritten written.old }
    ensures made { OnOk result (w.IsWritten written.new) }
    ensures bits { OnOk result (w.bits_of written.new ≡ w.bits_of written.old
        ++ v.steps_having numbered.now (see.steps steps.now) sought.now) }
{
    for (k, step) in steps.iter().enumerate() {
        let goes_on = k + 1 < steps.len();
        let has = step_has(numbered, step, goes_on, sought);
        written.push(has)?;
    }
    Ok(())
}

/// Which steps of all alternatives have what is asked.
pub(crate) fn row_having(
    alloc: Global,
    numbered: &[&Test<'_>],
    path: &[&[Step<'_>]],
    sought: &Sought<'_>,
) -> Result<Row, NoMemory>
    ensures { IfOk result (λ r. w.IsRow (see.alternatives path.now)
        (v.path_having numbered.now (see.alternatives path.now) sought.now) (words r)) }
{
    let mut written = Written::new(alloc);
    for steps in path {
        write_having(&mut written, numbered, steps, sought)?;
    }
    Ok(Row {
        words: written.words,
    })
}

/// No step of an alternative is taken, behind what was written.
fn write_first(written: &mut Written, steps: &[Step<'_>]) -> Result<(), NoMemory>
    requires { w.IsWritten written.old }
    ensures made { OnOk result (w.IsWritten written.new) }
    ensures bits { OnOk result (w.bits_of written.new ≡ w.bits_of written.old
        ++ p.first_items (see.steps steps.now)) }
{
    let mut first = true;
    for _step in steps {
        written.push(first)?;
        first = false;
    }
    Ok(())
}

/// The first state of a path.
pub(crate) fn first_row(alloc: Global, path: &[&[Step<'_>]]) -> Result<Row, NoMemory>
    ensures { IfOk result (λ r. w.IsRow (see.alternatives path.now)
        (p.first_state (see.alternatives path.now)) (words r)) }
{
    let mut written = Written::new(alloc);
    for steps in path {
        write_first(&mut written, steps)?;
    }
    Ok(Row {
        words: written.words,
    })
}

/// Where the steps of each alternative end.
pub(crate) fn ends_of(alloc: Global, path: &[&[Step<'_>]]) -> Result<Vec<usize>, NoMemory>
    ensures { IfOk result (λ e. e.items ≡ w.ends_of 0 (see.alternatives path.now)) }
{
    let mut ends = Vec::with_capacity(alloc, path.len())?;
    let mut end = 0usize;
    for steps in path {
        let Some(next) = end.checked_add(steps.len()) else {
            return Err(NoMemory);
        };
        end = next;
        ends.push(end)?;
    }
    Ok(ends)
}

/// The word at a place, and none where there is no such place.
fn word_at(words: &[u64], at: usize) -> u64
    ensures { result ≡ get_or words.now at 0 }
{
    match words.get(at) {
        Some(word) => *word,
        None => 0,
    }
}

/// A word whose bits are one place further on, with the bit that comes into the first place.
fn further(word: u64, carry: u64) -> u64
    ensures { result ≡ bit_or (w.shifted word) carry }
{
    word << 1 | carry
}

/// The bit that goes out of the last place.
fn carried(word: u64) -> u64
    ensures { result ≡ word / 2 ^ 63 }
{
    word >> 63
}

/// The state one element further down, by the items that stay and those that may move on, where these predicates hold.
pub(crate) fn next_row(
    alloc: Global,
    staying: &Row,
    moving: &Row,
    marks: &Row,
) -> Result<Row, NoMemory>
    ensures { IfOk result (λ r. words r
        ≡ w.further_words 0 (words staying.now)
        (w.both_words (words moving.now) (words marks.now))) }
{
    let count = staying.words.len();
    let mut words = Vec::with_capacity(alloc, count)?;
    let mut carry = 0u64;
    for k in 0..count {
        let moved = word_at(&moving.words, k) & word_at(&marks.words, k);
        words.push(staying.words[k] | further(moved, carry))?;
        carry = carried(moved);
    }
    Ok(Row { words })
}

/// Whether two sets of predicates have the same where items may move on.
fn are_alike(moving: &Row, marks: &Row, others: &Row) -> bool
    ensures { result ≡ w.are_alike (words moving.now) (words marks.now) (words others.now) }
{
    for k in 0..moving.words.len() {
        let word = moving.words[k];
        if word & word_at(&marks.words, k) != word & word_at(&others.words, k) {
            return false;
        }
    }
    true
}

/// The predicates that are asked where items may move on, one bit each: a set is like the one of these alone.
pub(crate) fn asked_predicates(moving: &Row, marked: &[Row]) -> usize {
    let mut asked = 0usize;
    for number in 0..32u32 {
        if changes(moving, marked, 1usize << number) {
            asked = asked | 1usize << number;
        }
    }
    asked
}

/// Whether a set of predicates has not the same as the empty one where items may move on.
fn changes(moving: &Row, marked: &[Row], number: usize) -> bool {
    match (marked.first(), marked.get(number)) {
        (Some(none), Some(one)) => !are_alike(moving, none, one),
        _ => false,
    }
}

/// A set of predicates before this one that has the same where items may move on, or else this one, by its number.
pub(crate) fn first_alike(moving: &Row, marked: &[Row], asked: usize, number: usize) -> usize
    requires { number < length marked.now }
    ensures within { result ≤ number }
    ensures alike { w.both_words (words moving.now) (get_or (all_words marked.now) result [])
        ≡ w.both_words (words moving.now) (get_or (all_words marked.now) number []) }
{
    let before = number & asked;
    if before < number && are_alike(moving, &marked[before], &marked[number]) {
        return before;
    }
    number
}

impl Row {
    /// The bits that both have.
    pub(crate) fn both(&self, alloc: Global, other: &Row) -> Result<Row, NoMemory>
        ensures { IfOk result (λ r. words r ≡ w.both_words (words self.now) (words other.now)) }
    {
        let count = self.words.len();
        let mut words = Vec::with_capacity(alloc, count)?;
        for k in 0..count {
            words.push(self.words[k] & word_at(&other.words, k))?;
        }
        Ok(Row { words })
    }

    /// A copy of it.
    pub(crate) fn copied(&self, alloc: Global) -> Result<Row, NoMemory>
        ensures { IfOk result (λ r. words r ≡ words self.now) }
    {
        let mut words = Vec::with_capacity(alloc, self.words.len())?;
        words.extend_from_slice(&self.words)?;
        Ok(Row { words })
    }

    /// Whether no bit is set.
    pub(crate) fn is_empty(&self) -> bool
        ensures { result ≡ w.are_zero (words self.now) }
    {
        for word in &self.words {
            if *word != 0 {
                return false;
            }
        }
        true
    }

    /// Whether no bit is set in both.
    pub(crate) fn is_apart(&self, other: &Row) -> bool
        ensures { result ≡ w.are_zero (w.both_words (words self.now) (words other.now)) }
    {
        for k in 0..self.words.len() {
            if self.words[k] & word_at(&other.words, k) != 0 {
                return false;
            }
        }
        true
    }

    /// Whether the bit of a step is set.
    fn has(&self, step: usize) -> bool
        ensures { result ≡ w.bit (words self.now) step }
    {
        word_at(&self.words, step / 64) >> (step % 64) & 1 == 1
    }

    /// Whether the bit of an alternative's last step is set.
    fn has_last(&self, ends: &[usize], alternative: usize) -> bool
        ensures { result ≡ v.ends_true (get_or (state ends.now self.now) alternative []) }
    {
        let Some(end) = ends.get(alternative) else {
            return false;
        };
        let start = start_of(ends, alternative);
        start < *end && self.has(*end - 1)
    }

    /// Whether the last step of an alternative fits, being in both of these rows, and all before it may have been taken.
    pub(crate) fn ends(&self, ends: &[usize], fits: &Row, marked: &Row, alternative: usize) -> bool
        ensures { result ≡ v.ends_at (state ends.now self.now)
            (v.both_states (state ends.now fits.now) (state ends.now marked.now)) alternative }
    {
        let here = self.has_last(ends, alternative);
        let fit = fits.has_last(ends, alternative);
        let holds = marked.has_last(ends, alternative);
        are_all(here, fit, holds)
    }

    /// The alternatives of which all steps but the last may have been taken.
    pub(crate) fn ending(&self, alloc: Global, ends: &[usize]) -> Result<Vec<usize>, NoMemory>
        ensures { IfOk result (λ w. w.items ≡ v.ending_alternatives 0 (state ends.now self.now)) }
    {
        let mut ending = Vec::new(alloc);
        for i in 0..ends.len() {
            let has_last = self.has_last(ends, i);
            add_ending(&mut ending, has_last, i)?;
        }
        Ok(ending)
    }

    /// Whether one of these alternatives ends.
    pub(crate) fn hits_by(&self, ends: &[usize], ending: &[usize], fits: &Row, marked: &Row) -> bool
        ensures { result ≡ list_any
            (v.ends_at (state ends.now self.now)
            (v.both_states (state ends.now fits.now) (state ends.now marked.now))) ending.now }
    {
        for alternative in ending {
            if self.ends(ends, fits, marked, *alternative) {
                return true;
            }
        }
        false
    }
}

/// Whether all three are true.
fn are_all(first: bool, second: bool, third: bool) -> bool
    ensures { result ≡ (first && (second && third)) }
{
    first && (second && third)
}

/// Where the steps of an alternative begin.
fn start_of(ends: &[usize], alternative: usize) -> usize
    ensures { result ≡ get_or (0 ∷ ends.now) alternative 0 }
{
    if alternative == 0 {
        return 0;
    }
    match ends.get(alternative - 1) {
        Some(end) => *end,
        None => 0,
    }
}

/// One alternative more, if its last step's bit is set.
fn add_ending(ending: &mut Vec<usize>, has_last: bool, alternative: usize) -> Result<(), NoMemory>
    ensures { OnOk result (ending.new.items ≡ ending.old.items
        ++ (if has_last then alternative ∷ [] else [])) }
{
    if has_last {
        ending.push(alternative)?;
    }
    Ok(())
}

/// A row that is written bit by bit.
#[derive(Drop)]
struct Written {
    words: Vec<u64>,
    /// How many bits were written.
    len: usize,
}

impl Written {
    /// A row without bits.
    fn new(alloc: Global) -> Written
        ensures made { w.IsWritten result }
        ensures bits { w.bits_of result ≡ [] }
    {
        Written {
            words: Vec::new(alloc),
            len: 0,
        }
    }

    /// One bit more.
    fn push(&mut self, value: bool) -> Result<(), NoMemory>
        requires { w.IsWritten self.old }
        ensures made { OnOk result (w.IsWritten self.new) }
        ensures bits { OnOk result (w.bits_of self.new ≡ w.bits_of self.old ++ value ∷ []) }
    {
        let Some(len) = self.len.checked_add(1) else {
            return Err(NoMemory);
        };
        make_room(&mut self.words, self.len)?;
        set_if(&mut self.words, self.len, value);
        self.len = len;
        Ok(())
    }
}

/// Room for one bit more, behind so many.
fn make_room(words: &mut Vec<u64>, len: usize) -> Result<(), NoMemory>
    requires { w.IsPadded len words.old.items }
    ensures room { OnOk result (w.IsPadded (len + 1) words.new.items) }
    ensures bits { OnOk result ((i : ℕ) → w.bit words.new.items i ≡ w.bit words.old.items i) }
{
    if len % 64 != 0 {
        return Ok(());
    }
    words.push(0)?;
    Ok(())
}

/// Sets a bit, or not.
fn set_if(words: &mut Vec<u64>, at: usize, value: bool)
    requires { at / 64 < length words.old.items }
    ensures { words.new.items ≡ (if value then w.with_bit words.old.items at else words.old.items) }
{
    if !value {
        return;
    }
    let word = at / 64;
    words[word] = words[word] | 1u64 << (at % 64);
}
