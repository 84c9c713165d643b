// Rows as lines of a certificate.
ghost use Rattle.std.specs.Prelude.{◌≡◌, ◌<◌, ◌≤◌, ◌+◌, ◌++◌, ◌∷◌, [], ◌⊎◌, ◌==◌, ℕ, length, get_or, All, IfOk, OnOk};
ghost use Rattle.std.specs.List.{Contains};
ghost use Rattle.tc_beh.specs.Rooms.{flagged, output_at};
ghost use Rattle.tc_beh.specs.RoomsOf.{IsRoomBeside};
ghost use Rattle.tc_beh.specs.Lines.{IsLine, FitsRoom, PutsPlaces, AreFlags};

use crate::rooms::{HRow, Room, TRow};
use std::alloc::Global;
use tc_base::NoMemory;
use tc_model::{HedgeLine, Numbers, TreeLine};

/// Puts a number at the end.
fn push_number(list: &mut Numbers, number: u32) -> Result<(), NoMemory>
    ensures { OnOk result (list.new ≡ list.old ++ number ∷ []) }
{
    if list.len() == u32::MAX {
        return Err(NoMemory);
    }
    list.push(number)
}

/// These numbers as a list.
fn list_of(alloc: Global, numbers: &[u32]) -> Result<Numbers, NoMemory>
    ensures { IfOk result (λ l. l ≡ numbers.now) }
{
    let mut list = Numbers::new(alloc);
    for number in numbers {
        push_number(&mut list, *number)?;
    }
    Ok(list)
}

/// The places of the set flags, counted from a number.
fn places_of(alloc: Global, first: u32, flags: &[u32]) -> Result<Numbers, NoMemory>
    requires { first + length flags.now ≤ 4294967296 }
    ensures { IfOk result (λ l. l ≡ flagged first flags.now) }
{
    let mut list = Numbers::new(alloc);
    for place in 0..flags.len() {
        if flags[place] == 1 {
            push_number(&mut list, first + place as u32)?;
        }
    }
    Ok(list)
}

/// Leaves the flags of these places, counted from a number.
fn put_places(places: &Numbers, first: u32, out: &mut Room)
    requires { All (λ k. (first ≤ k) × (k < first + out.old.flags)) places.now }
    ensures beside { IsRoomBeside out.old out.new }
    ensures others { (k : ℕ) → (k < 2) ⊎ (2 + out.old.flags ≤ k) → get_or out.new.numbers.items k 0
        ≡ get_or out.old.numbers.items k 0 }
    ensures flags { PutsPlaces places.now first out.old.flags out.new.numbers.items }
{
    out.clear_flags();
    for index in 0..places.len() {
        let place = *places.get(index) - first;
        out.set_flag(place as usize);
    }
}

/// Leaves these outputs.
fn put_outputs(outputs: &Numbers, out: &mut Room)
    requires { length outputs.now ≡ out.old.entries }
    ensures beside { IsRoomBeside out.old out.new }
    ensures others { (k : ℕ) → (k < 2 + out.old.flags) ⊎ (2 + out.old.flags + out.old.entries ≤ k)
        → get_or out.new.numbers.items k 0 ≡ get_or out.old.numbers.items k 0 }
    ensures outputs { (i : ℕ) → i < out.old.entries
        → output_at out.old.flags out.new.numbers.items i ≡ get_or outputs.now i 0 }
{
    for index in 0..outputs.len() {
        out.set_output(index as usize, *outputs.get(index));
    }
}

/// Leaves these looks.
fn put_looks(looks: &Numbers, out: &mut Room)
    requires { 2 + out.old.flags + out.old.entries + length looks.now
        ≡ length out.old.numbers.items }
    ensures beside { IsRoomBeside out.old out.new }
    ensures others { (k : ℕ) → k < 2 + out.old.flags + out.old.entries
        → get_or out.new.numbers.items k 0 ≡ get_or out.old.numbers.items k 0 }
    ensures looks { (i : ℕ) → i < length looks.now
        → get_or out.new.numbers.items (2 + out.old.flags + out.old.entries + i) 0
        ≡ get_or looks.now i 0 }
{
    for index in 0..looks.len() {
        out.set_look(index as usize, *looks.get(index));
    }
}

/// Leaves the row of a line.
fn put_line(
    first: u32,
    is_text: bool,
    bears: bool,
    places: &Numbers,
    outputs: &Numbers,
    looks: &Numbers,
    out: &mut Room,
)
    requires fits { FitsRoom first out.old places.now outputs.now looks.now }
    ensures beside { IsRoomBeside out.old out.new }
    ensures line { IsLine first out.new is_text bears places.now outputs.now looks.now }
    ensures flags { AreFlags out.new }
{
    out.set_heads(is_text, bears);
    put_places(places, first, out);
    put_outputs(outputs, out);
    put_looks(looks, out);
}

impl HRow {
    ghost use Rattle.std.specs.Prelude.{◌≤◌, IfOk};
    ghost use Rattle.tc_beh.specs.RoomsOf.{IsRoomBeside};
    ghost use Rattle.tc_beh.specs.Lines.{IsLine, FitsRoom, AreFlags};

    /// The row as a line of a certificate.
    ///
    /// # Errors
    ///
    /// There is no memory for the line, or a part is longer than its list can be.
    pub fn line(&self, alloc: Global) -> Result<HedgeLine, NoMemory>
        requires { self.now.room.flags ≤ 4294967295 }
        ensures { IfOk result (λ l. IsLine 0 self.now.room l.ends l.bears l.states l.outs l.looks) }
    {
        let states = places_of(alloc, 0, self.room.flags())?;
        let outs = list_of(alloc, self.room.outputs())?;
        let looks = list_of(alloc, self.room.looks())?;
        Ok(HedgeLine {
            ends: self.room.is_text(),
            bears: self.room.bears(),
            states,
            outs,
            looks,
        })
    }

    /// Takes the row of a line, which fits the room.
    pub fn read(&mut self, line: &HedgeLine)
        requires { FitsRoom 0 self.old.room line.now.states line.now.outs line.now.looks }
        ensures beside { IsRoomBeside self.old.room self.new.room }
        ensures line { IsLine 0 self.new.room line.now.ends line.now.bears line.now.states
            line.now.outs line.now.looks }
        ensures flags { AreFlags self.new.room }
    {
        put_line(
            0,
            line.ends,
            line.bears,
            &line.states,
            &line.outs,
            &line.looks,
            &mut self.room,
        );
    }
}

impl TRow {
    ghost use Rattle.std.specs.Prelude.{◌≤◌, IfOk};
    ghost use Rattle.tc_beh.specs.RoomsOf.{IsRoomBeside};
    ghost use Rattle.tc_beh.specs.Lines.{IsLine, FitsRoom, AreFlags};

    /// The row as a line of a certificate.
    ///
    /// # Errors
    ///
    /// There is no memory for the line, or a part is longer than its list can be.
    pub fn line(&self, alloc: Global) -> Result<TreeLine, NoMemory>
        requires { self.now.room.flags ≤ 4294967295 }
        ensures { IfOk result
            (λ l. IsLine 1 self.now.room l.text l.bears l.patterns l.outs l.looks) }
    {
        let patterns = places_of(alloc, 1, self.room.flags())?;
        let outs = list_of(alloc, self.room.outputs())?;
        let looks = list_of(alloc, self.room.looks())?;
        Ok(TreeLine {
            text: self.room.is_text(),
            bears: self.room.bears(),
            patterns,
            outs,
            looks,
        })
    }

    /// Takes the row of a line, which fits the room.
    pub fn read(&mut self, line: &TreeLine)
        requires { FitsRoom 1 self.old.room line.now.patterns line.now.outs line.now.looks }
        ensures beside { IsRoomBeside self.old.room self.new.room }
        ensures line { IsLine 1 self.new.room line.now.text line.now.bears line.now.patterns
            line.now.outs line.now.looks }
        ensures flags { AreFlags self.new.room }
    {
        put_line(
            1,
            line.text,
            line.bears,
            &line.patterns,
            &line.outs,
            &line.looks,
            &mut self.room,
        );
    }
}
