// Elements that are open, by states.
ghost use Rattle.std.specs.Prelude.{◌≡◌, ◌≤◌, IfOk, length, All};
ghost use Rattle.tc_auto.specs.Stands as a;

use std::alloc::Global;
use tc_alpha::Sym;
use tc_auto::Auto;
use tc_base::NoMemory;
use tc_sets::Set;

/// An element that is open: its symbol, and the states to which its children lead.
#[derive(Drop)]
pub(crate) struct Level {
    pub(crate) symbol: Sym,
    pub(crate) states: Set,
}

/// So many of them, which mean nothing yet.
pub(crate) fn all_levels(
    alloc: Global,
    automaton: &Auto<'_>,
    most: usize,
) -> Result<Vec<Level>, NoMemory>
    ensures count { IfOk result (λ r. length r.items ≡ most) }
    ensures symbols { IfOk result (λ r. All (λ (l : Level). l.symbol.0 ≡ 0) r.items) }
    ensures sizes { IfOk result
        (λ r. All (λ (l : Level). l.states.size ≡ a.states automaton.now) r.items) }
{
    let mut levels = Vec::with_capacity(alloc, most)?;
    for _level in 0..most {
        let states = Set::empty(alloc, automaton.states())?;
        levels.push(Level {
            symbol: Sym(0),
            states,
        })?;
    }
    Ok(levels)
}
