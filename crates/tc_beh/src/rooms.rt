// Rooms for rows, as numbers: two flags of the whole, a flag for each state or element pattern, the numbers of the outputs, the
// looks.
ghost use Rattle.std.specs.Prelude.{◌≡◌, ◌<◌, ◌≤◌, ◌≢◌, ◌+◌, ◌↔◌, ◌⊎◌, ◌==◌, ℕ, IfOk, length, get_or, IsTrue};
ghost use Rattle.std.specs.List.{Contains};

use crate::machine::{Machine, Shape};
use std::alloc::Global;
use tc_base::NoMemory;

/// How many numbers stand before the flags of states or element patterns: whether the row is that of a text or ends in one, and
/// whether it bears text.
const HEADS: usize = 2;

/// The numbers of a row.
#[derive(Drop)]
pub(crate) struct Room {
    /// How many flags of states or of element patterns there are.
    pub(crate) flags: usize,
    /// How many numbers of outputs there are.
    pub(crate) entries: usize,
    pub(crate) numbers: Vec<u32>,
    ghost parted: { 2 + flags + entries ≤ length numbers.items },
}

/// Room for the row of a list of trees.
#[derive(Drop)]
pub struct HRow {
    pub(crate) room: Room,
}

/// Room for the row of a tree.
#[derive(Drop)]
pub struct TRow {
    pub(crate) room: Room,
}

/// Takes the numbers away from one place up to another.
fn clear(numbers: &mut [u32], from: usize, to: usize)
    requires within { to ≤ length numbers.old }
    ensures count { length numbers.new ≡ length numbers.old }
    ensures cleared { (k : ℕ) → from ≤ k → k < to → get_or numbers.new k 0 ≡ 0 }
    ensures others { (k : ℕ) → (k < from) ⊎ (to ≤ k) → get_or numbers.new k 0
        ≡ get_or numbers.old k 0 }
{
    for place in from..to {
        numbers[place] = 0;
    }
}

impl Room {
    ghost use Rattle.tc_beh.specs.RoomsOf.{IsRoomBeside, ChangesHeads};
    ghost use Rattle.tc_beh.specs.Rooms.{flag_at, output_at, flags_in, outputs_in, looks_in};

    fn new(alloc: Global, flags: u32, shape: Shape) -> Result<Room, NoMemory>
        ensures flags { IfOk result (λ r. r.flags ≡ flags) }
        ensures entries { IfOk result (λ r. r.entries ≡ shape.entries) }
        ensures count { IfOk result
            (λ r. length r.numbers.items ≡ 2 + flags + shape.entries + shape.looks) }
    {
        let flags = flags as usize;
        let entries = shape.entries as usize;
        let count = HEADS + flags + entries + shape.looks as usize;
        let numbers = vec![in alloc; 0u32; count]?;
        Ok(Room {
            flags,
            entries,
            numbers,
        })
    }

    /// Whether the row is that of a text, or ends in one.
    pub(crate) fn is_text(&self) -> bool
        ensures { result ≡ (get_or self.now.numbers.items 0 0 == 1) }
    {
        self.numbers[0] == 1
    }

    pub(crate) fn bears(&self) -> bool
        ensures { result ≡ (get_or self.now.numbers.items 1 0 == 1) }
    {
        self.numbers[1] == 1
    }

    /// The flags of states or of element patterns.
    pub(crate) fn flags(&self) -> &[u32]
        ensures value { result.now ≡ flags_in self.now.flags self.now.numbers.items }
        ensures count { length result.now ≡ self.now.flags }
    {
        let end = HEADS + self.flags;
        &self.numbers.as_slice()[HEADS..end]
    }

    /// The numbers of the outputs.
    pub(crate) fn outputs(&self) -> &[u32]
        ensures value { result.now
            ≡ outputs_in self.now.flags self.now.entries self.now.numbers.items }
        ensures count { length result.now ≡ self.now.entries }
    {
        let start = HEADS + self.flags;
        let end = start + self.entries;
        &self.numbers.as_slice()[start..end]
    }

    /// The number of an output.
    pub(crate) fn output(&self, place: usize) -> u32
        requires { place < self.now.entries }
        ensures { result ≡ output_at self.now.flags self.now.numbers.items place }
    {
        self.numbers[HEADS + self.flags + place]
    }

    pub(crate) fn looks(&self) -> &[u32]
        ensures value { result.now
            ≡ looks_in self.now.flags self.now.entries self.now.numbers.items }
        ensures count { 2 + self.now.flags + self.now.entries + length result.now
            ≡ length self.now.numbers.items }
    {
        let start = HEADS + self.flags + self.entries;
        &self.numbers.as_slice()[start..]
    }

    pub(crate) fn set_heads(&mut self, is_text: bool, bears: bool)
        ensures beside { IsRoomBeside self.old self.new }
        ensures change { ChangesHeads self.old.numbers.items self.new.numbers.items is_text bears }
    {
        self.numbers[0] = u32::from(is_text);
        self.numbers[1] = u32::from(bears);
    }

    /// Takes all flags away.
    pub(crate) fn clear_flags(&mut self)
        ensures beside { IsRoomBeside self.old self.new }
        ensures flags { (i : ℕ) → i < self.old.flags → flag_at self.new.numbers.items i ≡ 0 }
        ensures others { (k : ℕ) → (k < 2) ⊎ (2 + self.old.flags ≤ k)
            → get_or self.new.numbers.items k 0 ≡ get_or self.old.numbers.items k 0 }
    {
        let end = HEADS + self.flags;
        clear(self.numbers.as_mut_slice(), HEADS, end);
    }

    pub(crate) fn set_flag(&mut self, place: usize)
        requires { place < self.old.flags }
        ensures beside { IsRoomBeside self.old self.new }
        ensures flag { flag_at self.new.numbers.items place ≡ 1 }
        ensures others { (k : ℕ) → k ≢ 2 + place → get_or self.new.numbers.items k 0
            ≡ get_or self.old.numbers.items k 0 }
    {
        self.numbers[HEADS + place] = 1;
    }

    pub(crate) fn set_output(&mut self, place: usize, output: u32)
        requires { place < self.old.entries }
        ensures beside { IsRoomBeside self.old self.new }
        ensures output { output_at self.old.flags self.new.numbers.items place ≡ output }
        ensures others { (k : ℕ) → k ≢ 2 + self.old.flags + place
            → get_or self.new.numbers.items k 0 ≡ get_or self.old.numbers.items k 0 }
    {
        self.numbers[HEADS + self.flags + place] = output;
    }

    pub(crate) fn set_look(&mut self, place: usize, value: u32)
        requires { 2 + self.old.flags + self.old.entries + place < length self.old.numbers.items }
        ensures beside { IsRoomBeside self.old self.new }
        ensures look { get_or self.new.numbers.items
            (2 + self.old.flags + self.old.entries + place) 0 ≡ value }
        ensures others { (k : ℕ) → k ≢ 2 + self.old.flags + self.old.entries + place
            → get_or self.new.numbers.items k 0 ≡ get_or self.old.numbers.items k 0 }
    {
        self.numbers[HEADS + self.flags + self.entries + place] = value;
    }

    fn load(&mut self, numbers: &[u32])
        requires { length numbers.now ≡ length self.old.numbers.items }
        ensures beside { IsRoomBeside self.old self.new }
        ensures numbers { self.new.numbers.items ≡ numbers.now }
    {
        self.numbers.as_mut_slice().copy_from_slice(numbers);
    }
}

impl HRow {
    ghost use Rattle.tc_beh.specs.Machines.{IsMachine, IsMachineOf};
    ghost use Rattle.tc_beh.specs.RoomsOf.{IsRoomOf, IsRoomBeside};
    ghost use Rattle.tc_beh.specs.Rooms.{hedge_layout};
    ghost use Rattle.tc_rows.specs.Triples.{Triple};

    /// Blank room for the row of a list of trees.
    ///
    /// # Errors
    ///
    /// There is no memory for the numbers.
    pub fn room(alloc: Global, machine: &Machine<'_>) -> Result<HRow, NoMemory>
        requires { IsMachine machine.now }
        ensures { IfOk result
            (λ r. (x : Triple) → IsMachineOf x machine.now → IsRoomOf (hedge_layout x) r.room) }
    {
        let shape = machine.shape();
        let room = Room::new(alloc, shape.inputs, shape)?;
        Ok(HRow { room })
    }

    /// The row as numbers.
    pub fn numbers(&self) -> &[u32]
        ensures { result.now ≡ self.now.room.numbers.items }
    {
        self.room.numbers.as_slice()
    }

    /// Makes a row again of its numbers.
    pub fn load(&mut self, numbers: &[u32])
        requires { length numbers.now ≡ length self.old.room.numbers.items }
        ensures beside { IsRoomBeside self.old.room self.new.room }
        ensures numbers { self.new.room.numbers.items ≡ numbers.now }
    {
        self.room.load(numbers);
    }
}

impl TRow {
    ghost use Rattle.tc_beh.specs.Machines.{IsMachine, IsMachineOf};
    ghost use Rattle.tc_beh.specs.RoomsOf.{IsRoomOf, IsRoomBeside};
    ghost use Rattle.tc_beh.specs.Rooms.{tree_layout};
    ghost use Rattle.tc_rows.specs.Triples.{Triple};

    /// Blank room for the row of a tree.
    ///
    /// # Errors
    ///
    /// There is no memory for the numbers.
    pub fn room(alloc: Global, machine: &Machine<'_>) -> Result<TRow, NoMemory>
        requires { IsMachine machine.now }
        ensures { IfOk result
            (λ r. (x : Triple) → IsMachineOf x machine.now → IsRoomOf (tree_layout x) r.room) }
    {
        let shape = machine.shape();
        let room = Room::new(alloc, shape.patterns, shape)?;
        Ok(TRow { room })
    }

    /// The row as numbers.
    pub fn numbers(&self) -> &[u32]
        ensures { result.now ≡ self.now.room.numbers.items }
    {
        self.room.numbers.as_slice()
    }

    /// Makes a row again of its numbers.
    pub fn load(&mut self, numbers: &[u32])
        requires { length numbers.now ≡ length self.old.room.numbers.items }
        ensures beside { IsRoomBeside self.old.room self.new.room }
        ensures numbers { self.new.room.numbers.items ≡ numbers.now }
    {
        self.room.load(numbers);
    }
}
