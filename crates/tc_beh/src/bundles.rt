// The edges of the contents of a schema by what they take, from 64 states at once.
// A list of trees may stand in many states, and an element pattern may have an edge from each to many. So states
// that stand beside one another are the bits of a word, and the edges from them to one state are one bundle.
ghost use Rattle.std.specs.Prelude.{◌≡◌, ◌<◌, ◌≤◌, ◌+◌, ◌*◌, ◌/◌, ◌^◌, ◌⊎◌, ◌↔◌, ℕ, length, get_or, true, IfOk, OnOk, IsTrue};
ghost use Rattle.tc_auto.specs.Arrows.{AreWithin};
ghost use Rattle.tc_auto.specs.Stands.{states as states_of};
ghost use Rattle.tc_auto.specs.declared.auto.Auto.{Auto};
ghost use Rattle.tc_model.specs.States as s;
ghost use Rattle.tc_mat.specs.Matrix.{words_a_row};
ghost use Rattle.tc_beh.specs.Bundles.{AreEdges, AreLow, AreOf, AreStepsOf, AreWordsOf, GainsEdge, HaveCommon, IsBundleOf, IsCurrent, IsWordOf, LeadsAlong, LeadsBy, PutsAfter, PutsBy, widened};
ghost use Rattle.tc_beh.specs.RoomsOf.{IsRoomBeside};

use crate::append::is_set;
use crate::rooms::Room;
use std::alloc::Global;
use tc_auto::{Arrow, Auto};
use tc_base::NoMemory;

/// Edges to one state from states of one word.
#[derive(Clone, Copy)]
pub(crate) struct Bundle {
    /// The states are those from 64 times this number on.
    word: u32,
    to: u32,
    /// The bits of the states from which an edge leads.
    bits: u64,
}

/// The states in which a list of trees may stand, as the bits of words, and the flags that they were made of.
#[derive(Drop)]
pub(crate) struct Words {
    /// The flags, where they are known.
    of: Vec<u32>,
    is_known: bool,
    pub(crate) bits: Vec<u64>,
}

/// The edges of an automaton in bundles, and room for the states in which a list of trees may stand.
#[derive(Drop)]
pub(crate) struct Bundles {
    /// The edges that take a text.
    pub(crate) text: Vec<Bundle>,
    /// The edges that take an element, by each element pattern.
    pub(crate) patterns: Vec<Vec<Bundle>>,
    pub(crate) words: Words,
}

/// Whether the bundle of a place is that of a word and a state.
fn is_of(bundles: &[Bundle], place: usize, word: u32, to: u32) -> bool
    ensures { IsTrue result → IsBundleOf bundles.now place word to }
{
    match bundles.get(place) {
        Some(bundle) => bundle.word == word && bundle.to == to,
        None => false,
    }
}

/// The bit of a place in a word.
fn bit_of(place: u32) -> u64
    requires { place < 64 }
    ensures { result ≡ 2 ^ place }
{
    1u64 << place
}

/// Puts a bit into a bundle.
fn widen(bundles: &mut Vec<Bundle>, place: usize, bit: u64)
    requires { place < length bundles.old.items }
    ensures { bundles.new.items ≡ widened bundles.old.items place bit }
{
    let bundle = bundles[place];
    bundles[place] = Bundle {
        word: bundle.word,
        to: bundle.to,
        bits: bundle.bits | bit,
    };
}

/// Puts an edge into the bundle that was begun last for its state, or else into a new one.
fn put_edge(bundles: &mut Vec<Bundle>, begun: &mut Vec<usize>, arrow: Arrow) -> Result<(), NoMemory>
    requires { arrow.to < length begun.old.items }
    ensures begun { length begun.new.items ≡ length begun.old.items }
    ensures edges { OnOk result (GainsEdge bundles.old.items arrow bundles.new.items) }
    ensures low { OnOk result ((states : ℕ) → arrow.from < states → arrow.to < states
        → AreLow states bundles.old.items → AreLow states bundles.new.items) }
{
    let word = arrow.from / 64;
    let bit = bit_of(arrow.from % 64);
    let place = begun[arrow.to as usize];
    if is_of(bundles.as_slice(), place, word, arrow.to) {
        widen(bundles, place, bit);
        return Ok(());
    }
    begun[arrow.to as usize] = bundles.len();
    bundles.push(Bundle {
        word,
        to: arrow.to,
        bits: bit,
    })?;
    Ok(())
}

/// Edges in bundles.
fn bundled(alloc: Global, begun: &mut Vec<usize>, arrows: &[Arrow]) -> Result<Vec<Bundle>, NoMemory>
    requires { AreWithin (length begun.old.items) arrows.now }
    ensures begun { length begun.new.items ≡ length begun.old.items }
    ensures edges { IfOk result (λ v. AreOf arrows.now v.items) }
    ensures low { IfOk result (λ v. AreLow (length begun.old.items) v.items) }
{
    let mut bundles = Vec::new(alloc);
    for arrow in arrows {
        put_edge(&mut bundles, begun, *arrow)?;
    }
    Ok(bundles)
}

impl Words {
    /// Room for so many states; no flags are known.
    ///
    /// # Errors
    ///
    /// There is no memory for it.
    fn new(alloc: Global, states: usize) -> Result<Words, NoMemory>
        requires { states ≤ 4294967295 }
        ensures count { IfOk result (λ w. length w.bits.items ≡ (states + 63) / 64) }
        ensures current { IfOk result (λ w. IsCurrent w) }
    {
        let of = vec![in alloc; 0u32; states]?;
        let bits = vec![in alloc; 0u64; (states + 63) / 64]?;
        Ok(Words {
            of,
            is_known: false,
            bits,
        })
    }
}

impl Bundles {
    /// The edges of an automaton.
    ///
    /// # Errors
    ///
    /// There is no memory for them.
    pub(crate) fn of(alloc: Global, auto: &Auto<'_>) -> Result<Bundles, NoMemory>
        ensures { IfOk result (λ b. AreStepsOf auto.now b) }
    {
        let states = auto.states() as usize;
        let mut begun = vec![in alloc; 0usize; states]?;
        let text = bundled(alloc, &mut begun, auto.text_arrows())?;
        let mut patterns = Vec::new(alloc);
        for before in 0..auto.patterns() {
            patterns.push(bundled(alloc, &mut begun, auto.arrows(before + 1))?)?;
        }
        let words = Words::new(alloc, states)?;
        Ok(Bundles {
            text,
            patterns,
            words,
        })
    }
}

/// The flags of a word as its bits.
fn word_of(flags: &[u32], word: usize) -> u64
    requires { word < 4294967296 }
    ensures { IsWordOf flags.now word result }
{
    let mut bits = 0u64;
    for place in 0..64u32 {
        if is_set(flags, 64 * word + place as usize) {
            bits = bits | bit_of(place);
        }
    }
    bits
}

/// Leaves flags as the bits of words.
fn put_bits(words: &mut Vec<u64>, flags: &[u32])
    requires { length words.old.items ≤ 4294967296 }
    ensures count { length words.new.items ≡ length words.old.items }
    ensures words { AreWordsOf flags.now words.new.items }
{
    for word in 0..words.len() {
        words[word] = word_of(flags, word);
    }
}

/// Whether words are known to be made of these flags.
fn stand_for(words: &Words, flags: &[u32]) -> bool
    ensures known { IsTrue result → words.now.is_known ≡ true }
    ensures same { IsTrue result → words.now.of.items ≡ flags.now }
{
    words.is_known && words.of.as_slice() == flags
}

/// Keeps of which flags the words are made, where there is room for as many.
fn keep_flags(words: &mut Words, flags: &[u32])
    requires { AreWordsOf flags.now words.old.bits.items }
    ensures bits { words.new.bits.items ≡ words.old.bits.items }
    ensures current { IsCurrent words.new }
{
    words.is_known = false;
    if words.of.len() == flags.len() {
        words.of.as_mut_slice().copy_from_slice(flags);
        words.is_known = true;
    }
}

/// Leaves flags as the bits of words, which are made anew only for other flags: the same list of trees is tried
/// with many trees, one after the other.
fn put_words(words: &mut Words, flags: &[u32])
    requires count { length words.old.bits.items ≤ 4294967296 }
    requires current { IsCurrent words.old }
    ensures count { length words.new.bits.items ≡ length words.old.bits.items }
    ensures words { AreWordsOf flags.now words.new.bits.items }
    ensures current { IsCurrent words.new }
{
    if stand_for(words, flags) {
        return;
    }
    put_bits(&mut words.bits, flags);
    keep_flags(words, flags);
}

/// Whether two words have a bit in common.
fn have_common(first: u64, second: u64) -> bool
    ensures { IsTrue result ↔ HaveCommon first second }
{
    if first & second == 0 {
        return false;
    }
    true
}

/// Sets the flags of the states to which edges lead from some of the states.
fn put_bundles(bundles: &[Bundle], words: &[u64], out: &mut Room)
    requires low { AreLow out.old.flags bundles.now }
    requires words { words_a_row out.old.flags ≤ length words.now }
    ensures beside { IsRoomBeside out.old out.new }
    ensures others { (k : ℕ) → (k < 2) ⊎ (2 + out.old.flags ≤ k) → get_or out.new.numbers.items k 0
        ≡ get_or out.old.numbers.items k 0 }
    ensures flags { PutsBy (LeadsBy bundles.now words.now) out.old.numbers.items
        out.new.numbers.items }
{
    for bundle in bundles {
        if have_common(words[bundle.word as usize], bundle.bits) {
            out.set_flag(bundle.to as usize);
        }
    }
}

/// Sets the flags of the states to which edges lead from states with a flag, edge by edge.
fn put_arrows(arrows: &[Arrow], hedge: &[u32], out: &mut Room)
    requires within { AreWithin out.old.flags arrows.now }
    ensures beside { IsRoomBeside out.old out.new }
    ensures others { (k : ℕ) → (k < 2) ⊎ (2 + out.old.flags ≤ k) → get_or out.new.numbers.items k 0
        ≡ get_or out.old.numbers.items k 0 }
    ensures flags { PutsBy (LeadsAlong arrows.now hedge.now) out.old.numbers.items
        out.new.numbers.items }
{
    for arrow in arrows {
        if is_set(hedge, arrow.from as usize) {
            out.set_flag(arrow.to as usize);
        }
    }
}

/// Sets the flags of the states to which edges lead from states with a flag. Bundles are used only where there are more edges than
/// bundles and flags, since the flags are first made into words.
pub(crate) fn put_edges(
    arrows: &[Arrow],
    bundles: &[Bundle],
    words: &mut Words,
    hedge: &[u32],
    out: &mut Room,
)
    requires within { AreWithin out.old.flags arrows.now }
    requires low { AreLow out.old.flags bundles.now }
    requires words { words_a_row out.old.flags ≤ length words.old.bits.items }
    requires count { length words.old.bits.items ≤ 4294967296 }
    requires current { IsCurrent words.old }
    ensures count { length words.new.bits.items ≡ length words.old.bits.items }
    ensures current { IsCurrent words.new }
    ensures beside { IsRoomBeside out.old out.new }
    ensures others { (k : ℕ) → (k < 2) ⊎ (2 + out.old.flags ≤ k) → get_or out.new.numbers.items k 0
        ≡ get_or out.old.numbers.items k 0 }
    ensures flags { (a : Auto) (taken : s.Leaf) → out.old.flags ≡ states_of a
        → AreEdges a taken arrows.now bundles.now
        → PutsAfter a hedge.now taken out.old.numbers.items out.new.numbers.items }
{
    if arrows.len() <= bundles.len() + hedge.len() {
        put_arrows(arrows, hedge, out);
        return;
    }
    put_words(words, hedge);
    put_bundles(bundles, words.bits.as_slice(), out);
}
