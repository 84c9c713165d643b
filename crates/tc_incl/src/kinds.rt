// Kinds of symbols.
ghost use Rattle.std.specs.Prelude.{◌≡◌, ◌<◌, ◌⊎◌, ◌++◌, ◌∷◌, [], length, slice_get, Some, IfOk};
ghost use Rattle.tc_incl.specs.Alike.{AreKinds, IsCopyAt};
ghost use Rattle.tc_incl.specs.declared.rows.Row.{Row};

use crate::rows::{Row, hold};
use crate::sides::Side;
use indexmap::IndexSet;
use std::alloc::Global;
use tc_base::NoMemory;

/// The kind of a symbol: the place, among rows that are held, of the element patterns of two schemas whose classes hold it.
fn kind_of(
    held: &mut IndexSet<Row>,
    first: &Side<'_, '_>,
    second: &Side<'_, '_>,
    symbol: u32,
) -> Result<u32, NoMemory>
    requires first { symbol < length first.now.allowed.items }
    requires second { symbol < length second.now.allowed.items }
    requires room { length held.old.keys < 4294967295 }
    ensures { IfOk result
        (λ u. (row : Row) × IsCopyAt first.now.allowed.items symbol row.first
        × IsCopyAt second.now.allowed.items symbol row.second
        × (slice_get held.new.keys u ≡ Some row)
        × (((u < length held.old.keys) × (held.new.keys ≡ held.old.keys))
        ⊎ ((u ≡ length held.old.keys) × (held.new.keys ≡ held.old.keys ++ row ∷ [])))) }
{
    let of_first = first.allowing(symbol)?;
    let of_second = second.allowing(symbol)?;
    hold(
        held,
        Row {
            text: false,
            first: of_first,
            second: of_second,
        },
    )
}

/// The kinds of so many symbols: those that the same classes of two schemas hold are of one.
pub(crate) fn kinds_of(
    alloc: Global,
    first: &Side<'_, '_>,
    second: &Side<'_, '_>,
    symbols: u32,
) -> Result<Vec<u32>, NoMemory>
    requires first { length first.now.allowed.items ≡ symbols }
    requires second { length second.now.allowed.items ≡ symbols }
    ensures count { IfOk result (λ r. length r.items ≡ symbols) }
    ensures kinds { IfOk result
        (λ r. AreKinds first.now.allowed.items second.now.allowed.items r.items) }
{
    let mut held = IndexSet::new(alloc);
    let mut kinds = Vec::new(alloc);
    for symbol in 0..symbols {
        let kind = kind_of(&mut held, first, second, symbol)?;
        kinds.push(kind)?;
    }
    Ok(kinds)
}
