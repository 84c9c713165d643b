// The lines that tell of the rules, named bodies and branches of a stylesheet.
ghost use Rattle.std.specs.Prelude.{◌≡◌, ◌++◌, OnOk, codes, decimal, flat_map, if◌then◌else◌};
ghost use Rattle.tc_answer.specs.Answers as a;
ghost use Rattle.tc_answer.specs.SpotLines.{dead_count, is_unused, places_line, spot_line, spot_text, use_text};
ghost use Rattle.tc_answer.specs.SpotsSeen.{spot_use, spot_uses, use_of};
ghost use Rattle.tc_dead.specs.Views.{seen};

use crate::buffer::Buffer;
use crate::status::Status;
use tc_base::NoMemory;
use tc_decide::{Spot, SpotTold, Told};

/// How many spots are dead.
pub fn count_dead(told: &[SpotTold<'_>]) -> usize
    ensures { result ≡ dead_count (spot_uses told.now) }
{
    let mut dead = 0;
    for spot in told {
        dead += one_if_dead(&spot.told);
    }
    dead
}

/// One where a spot is dead, and else none.
fn one_if_dead(told: &Told<'_>) -> usize
    ensures { result ≡ (if is_unused (use_of told.now) then 1 else 0) }
{
    match told {
        Told::Dead => 1,
        Told::Used(_) | Told::UsedTooLarge => 0,
    }
}

/// Yes where none is dead, and else no.
pub fn status_by_dead(dead: usize) -> Status
    ensures { result ≡ a.status_by_dead dead }
{
    if dead == 0 { Status::Yes } else { Status::No }
}

/// Puts a line for each spot at the end.
pub fn put_spots(text: &mut Buffer, told: &[SpotTold<'_>]) -> Result<(), NoMemory>
    ensures { OnOk result
        (text.new.bytes.items ≡ text.old.bytes.items ++ flat_map spot_line (spot_uses told.now)) }
{
    for spot in told {
        put_spot(text, spot)?;
    }
    Ok(())
}

/// Puts the line of a spot at the end.
fn put_spot(text: &mut Buffer, spot: &SpotTold<'_>) -> Result<(), NoMemory>
    ensures { OnOk result
        (text.new.bytes.items ≡ text.old.bytes.items ++ spot_line (spot_use spot.now)) }
{
    put_name(text, spot.spot)?;
    put_use(text, &spot.told)
}

/// Puts what a spot is, and its number, at the end.
fn put_name(text: &mut Buffer, spot: Spot) -> Result<(), NoMemory>
    ensures { OnOk result
        (text.new.bytes.items ≡ text.old.bytes.items ++ spot_text (seen spot)) }
{
    match spot {
        Spot::Rule(number) => put_numbered(text, b"rule ", number),
        Spot::Named(number) => put_numbered(text, b"named ", number),
        Spot::Branch(number) => put_numbered(text, b"branch ", number),
    }
}

/// Puts bytes and a number at the end.
fn put_numbered(text: &mut Buffer, front: &[u8], number: u32) -> Result<(), NoMemory>
    ensures { OnOk result
        (text.new.bytes.items ≡ text.old.bytes.items ++ (front.now ++ decimal number)) }
{
    let mut digits = itoa::Buffer::new();
    text.put(front)?;
    text.put(digits.format(number).as_bytes())
}

/// Puts what is told of a spot at the end, and ends the line.
fn put_use(text: &mut Buffer, told: &Told<'_>) -> Result<(), NoMemory>
    ensures { OnOk result (text.new.bytes.items
        ≡ text.old.bytes.items ++ (use_text (use_of told.now) ++ codes "\n")) }
{
    match told {
        Told::Dead => text.put(b" dead\n"),
        Told::Used(document) => text.put_shown(b" used ", &[*document], b"\n"),
        Told::UsedTooLarge => text.put(b" used document-too-large\n"),
    }
}

/// Puts the line at the end that tells how many spots there are, and how many of them are dead.
pub fn put_places(text: &mut Buffer, places: usize, dead: usize) -> Result<(), NoMemory>
    ensures { OnOk result
        (text.new.bytes.items ≡ text.old.bytes.items ++ places_line places dead) }
{
    let mut digits = itoa::Buffer::new();
    text.put(b"places ")?;
    text.put(digits.format(places).as_bytes())?;
    text.put(b" dead ")?;
    text.put(digits.format(dead).as_bytes())?;
    text.put(b"\n")
}
