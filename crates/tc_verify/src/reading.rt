// Rooms of the rows of a certificate's lines.
ghost use Rattle.std.specs.Prelude.{◌≡◌, [], OnOk};
ghost use Rattle.tc_verify.specs.Checkers.{IsFit};
ghost use Rattle.tc_verify.specs.Rooms.{AreReadHedges, AreReadTrees};

use crate::lists::Lists;
use std::alloc::Global;
use tc_base::NoMemory;
use tc_beh::{HRow, Machine, TRow};
use tc_model::CertData;

/// Puts the rooms of the lines of lists of trees, by their places, into `rooms`, and their numbers into `lists`: both are empty yet.
///
/// # Errors
///
/// There is no memory for them.
pub(crate) fn read_hedges(
    alloc: Global,
    machine: &Machine<'_>,
    cert: &CertData,
    rooms: &mut Vec<HRow>,
    lists: &mut Lists,
) -> Result<(), NoMemory>
    requires fit { IsFit machine.now cert.now }
    requires rooms { rooms.old.items ≡ [] }
    requires lists { lists.old ≡ [] }
    ensures { OnOk result (AreReadHedges machine.now cert.now rooms.new.items lists.new) }
{
    for place in 0..cert.hedges.len() {
        let mut room = HRow::room(alloc, machine)?;
        room.read(cert.hedges.get(place));
        lists.keep(room.numbers())?;
        rooms.push(room)?;
    }
    Ok(())
}

/// Puts the rooms of the lines of trees, by their places, into `rooms`, and their numbers into `lists`: both are empty yet.
///
/// # Errors
///
/// There is no memory for them.
pub(crate) fn read_trees(
    alloc: Global,
    machine: &Machine<'_>,
    cert: &CertData,
    rooms: &mut Vec<TRow>,
    lists: &mut Lists,
) -> Result<(), NoMemory>
    requires fit { IsFit machine.now cert.now }
    requires rooms { rooms.old.items ≡ [] }
    requires lists { lists.old ≡ [] }
    ensures { OnOk result (AreReadTrees machine.now cert.now rooms.new.items lists.new) }
{
    for place in 0..cert.trees.len() {
        let mut room = TRow::room(alloc, machine)?;
        room.read(cert.trees.get(place));
        lists.keep(room.numbers())?;
        rooms.push(room)?;
    }
    Ok(())
}
