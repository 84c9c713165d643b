// Rows that are held, each once.
ghost use Rattle.std.specs.Prelude.{◌≡◌, ◌<◌, ◌⊎◌, ◌++◌, ◌∷◌, [], length, slice_get, Some, IfOk, OnOk, OnErr};
ghost use Rattle.tc_rows.specs.Counts.{AreDifferent};

use indexmap::IndexSet;
use tc_base::NoMemory;
use tc_sets::Set;

/// What is told of a tree or of a list of trees: whether it is a text, or ends in one, and a set for each schema, of
/// element patterns or of states.
#[derive(Drop, PartialEq, Eq, Hash)]
pub struct Row {
    pub(crate) text: bool,
    pub(crate) first: Set,
    pub(crate) second: Set,
}

/// The place of a row among rows; one that isn't held comes last.
///
/// # Errors
///
/// There is no memory for one more; what is held stays.
pub(crate) fn hold(rows: &mut IndexSet<Row>, row: Row) -> Result<u32, NoMemory>
    requires room { length rows.old.keys < 4294967295 }
    ensures held { IfOk result (λ u. slice_get rows.new.keys u ≡ Some row) }
    ensures kept { IfOk result (λ u. ((u < length rows.old.keys) × (rows.new.keys ≡ rows.old.keys))
        ⊎ ((u ≡ length rows.old.keys) × (rows.new.keys ≡ rows.old.keys ++ row ∷ []))) }
    ensures different { OnOk result (AreDifferent rows.new.keys) }
    ensures err { OnErr result (rows.new.keys ≡ rows.old.keys) }
{
    let (place, _) = rows.insert_full(row)?;
    Ok(place as u32)
}
