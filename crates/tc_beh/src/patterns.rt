// The element patterns of the input that an element around a list of trees matches.
// Those whose classes hold its symbol are listed once for each symbol.
ghost use Rattle.std.specs.Prelude.{◌≡◌, ◌<◌, ◌≤◌, ◌+◌, ◌⊎◌, ◌↔◌, ℕ, Some, get_or, IfOk, IsTrue};
ghost use Rattle.std.specs.List.{Contains};
ghost use Rattle.tc_auto.specs.Stands as a;
ghost use Rattle.tc_auto.specs.Stands.{patterns as patterns_of};
ghost use Rattle.tc_model.specs.Grammars as g;
ghost use Rattle.tc_model.specs.States as s;
ghost use Rattle.tc_beh.specs.Around.{IsTakenBy, AreTakers, AreAllTakers, PutsPatterns};
ghost use Rattle.tc_beh.specs.Rooms.{flags_in};
ghost use Rattle.tc_beh.specs.RoomsOf.{IsRoomBeside};

use crate::append::{has_flag, is_set};
use crate::rooms::Room;
use std::alloc::Global;
use tc_alpha::Sym;
use tc_auto::Auto;
use tc_base::NoMemory;
use tc_hedge::Hedge;

/// Whether the content of an element pattern accepts in a state that has a flag.
fn is_taken(auto: &Auto<'_>, number: u32, states: &[u32]) -> bool
    requires { number ≤ patterns_of auto.now }
    ensures { (side : s.Side) (x : g.Grammar) → a.Stands side x auto.now → (e : g.ElementPattern)
        → g.element_at x.elements number ≡ Some e → IsTrue result
        ↔ IsTakenBy side x states.now number e }
{
    let first = auto.first(number);
    let end = auto.end(number);
    for state in first..end {
        if is_set(states, state as usize) && auto.accepts(state) {
            return true;
        }
    }
    false
}

/// The element patterns whose classes hold a symbol, by their numbers.
fn takers_of(alloc: Global, input: &Hedge<'_>, sym: Sym) -> Result<Vec<u32>, NoMemory>
    requires { sym.0 < input.now.symbols }
    ensures { IfOk result (λ v. AreTakers input.now sym.0 (patterns_of input.now.auto) v.items) }
{
    let mut takers = Vec::new(alloc);
    for before in 0..input.auto().patterns() {
        if input.allows(before + 1, sym) {
            takers.push(before + 1)?;
        }
    }
    Ok(takers)
}

/// Those of each symbol.
///
/// # Errors
///
/// There is no memory for them.
pub(crate) fn all_takers(alloc: Global, input: &Hedge<'_>) -> Result<Vec<Vec<u32>>, NoMemory>
    ensures { IfOk result (λ v. AreAllTakers input.now v.items) }
{
    let mut all = Vec::new(alloc);
    for symbol in 0..input.symbols() {
        all.push(takers_of(alloc, input, Sym(symbol))?)?;
    }
    Ok(all)
}

/// Leaves the flags of the element patterns that an element of a symbol matches, around a list of trees that leads to the states
/// with a flag. Tells whether there is one.
pub(crate) fn put_patterns(
    input: &Hedge<'_>,
    takers: &[Vec<u32>],
    sym: Sym,
    states: &[u32],
    out: &mut Room,
) -> bool
    requires takers { AreAllTakers input.now takers.now }
    requires symbol { sym.0 < input.now.symbols }
    requires flags { out.old.flags ≡ patterns_of input.now.auto }
    ensures beside { IsRoomBeside out.old out.new }
    ensures others { (k : ℕ) → (k < 2) ⊎ (2 + out.old.flags ≤ k) → get_or out.new.numbers.items k 0
        ≡ get_or out.old.numbers.items k 0 }
    ensures flags { PutsPatterns input.now sym.0 states.now out.new.numbers.items }
    ensures some { IsTrue result ↔ Contains (flags_in out.new.flags out.new.numbers.items) 1 }
{
    out.clear_flags();
    for number in takers[sym.0 as usize].as_slice() {
        if is_taken(input.auto(), *number, states) {
            out.set_flag(*number as usize - 1);
        }
    }
    has_flag(out.flags())
}
