// Rooms in which rows are worked out.
ghost use Rattle.std.specs.Prelude.{IfOk};
ghost use Rattle.tc_rows.specs.Triples.{Triple};
ghost use Rattle.tc_beh.specs.Machines.{IsMachine, IsMachineOf};
ghost use Rattle.tc_beh.specs.Rooms.{hedge_layout, tree_layout};
ghost use Rattle.tc_beh.specs.RoomsOf.{IsRoomOf};

use std::alloc::Global;
use tc_base::NoMemory;
use tc_beh::{HRow, Machine, TRow};

/// Rooms for the rows that are taken, and for those that are made of them.
#[derive(Drop)]
pub(crate) struct Rooms {
    pub(crate) hedge: HRow,
    pub(crate) tree: TRow,
    pub(crate) new_hedge: HRow,
    pub(crate) new_tree: TRow,
}

/// Room for the row of a list of trees, and for that of a tree.
fn pair(alloc: Global, machine: &Machine<'_>) -> Result<(HRow, TRow), NoMemory>
    requires { IsMachine machine.now }
    ensures { IfOk result (λ r. (x : Triple) → IsMachineOf x machine.now
        → IsRoomOf (hedge_layout x) r.0.room × IsRoomOf (tree_layout x) r.1.room) }
{
    let hedge = HRow::room(alloc, machine)?;
    let tree = TRow::room(alloc, machine)?;
    Ok((hedge, tree))
}

impl Rooms {
    ghost use Rattle.tc_close.specs.HeldRows.{AreRoomsOf};

    pub(crate) fn new(alloc: Global, machine: &Machine<'_>) -> Result<Rooms, NoMemory>
        requires { IsMachine machine.now }
        ensures { IfOk result (λ r. (x : Triple) → IsMachineOf x machine.now → AreRoomsOf x r) }
    {
        let (hedge, tree) = pair(alloc, machine)?;
        let (new_hedge, new_tree) = pair(alloc, machine)?;
        Ok(Rooms {
            hedge,
            tree,
            new_hedge,
            new_tree,
        })
    }
}
