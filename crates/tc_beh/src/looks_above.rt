// The looks of a node, from those of what stands below it.
ghost use Rattle.std.specs.Prelude.{◌≡◌, ◌<◌, ◌≤◌, ◌+◌, ◌-◌, ℕ, length, get_or};
ghost use Rattle.tc_model.specs.Letters.{IsLetter};
ghost use Rattle.tc_rules.specs.Asked.{letter};
ghost use Rattle.tc_rules.specs.Kept.{told};
ghost use Rattle.tc_rules.specs.RulesView.{select_count};
ghost use Rattle.tc_rules.specs.States.{Looking};
ghost use Rattle.tc_rules.specs.Tasks.{IsLookAt};
ghost use Rattle.tc_rows.specs.Triples.{Triple, predicates, moves, looks as looks_of};
ghost use Rattle.tc_beh.specs.LooksAbove.{found_below, found_above};
ghost use Rattle.tc_beh.specs.RoomsOf.{IsRoomBeside};
ghost use Rattle.tc_beh.specs.Stands.{IsRulesIn};

use crate::looks::number_at;
use crate::rooms::Room;
use tc_alpha::Sym;
use tc_rules::{Kind, Marks, Rules};

/// What a state of a look finds below an element that isn't a hit.
fn look_below(rules: &Rules<'_>, looks: &[u32], sym: Sym, marks: Marks, state: u32) -> u32
    requires letter { (x : Triple) × IsRulesIn x rules.now
        × IsLetter x.symbols (predicates x) (letter (Kind.Elem sym) marks) }
    requires state { state < select_count (told rules.now) }
    requires few { (i : ℕ) → get_or looks.now i 0 ≤ 2 }
    ensures value { (x : Triple) (s : Looking) → IsRulesIn x rules.now
        → IsLetter x.symbols (predicates x) (letter (Kind.Elem sym) marks)
        → IsLookAt x.rules state s → result
        ≡ found_below x looks.now (letter (Kind.Elem sym) marks) s
        (letter (Kind.Elem sym) marks).kind }
    ensures few { result ≤ 2 }
{
    match rules.sel_step(state, sym, marks) {
        None => 0,
        Some(next) => number_at(looks, next.saturating_sub(rules.moves())),
    }
}

/// What a state of a look finds from above a node of a letter: 0 for nothing, 1 for a node that bears no text, 2 for one that does.
fn look_above(
    rules: &Rules<'_>,
    looks: &[u32],
    bears: bool,
    kind: Kind,
    marks: Marks,
    state: u32,
) -> u32
    requires letter { (x : Triple) × IsRulesIn x rules.now
        × IsLetter x.symbols (predicates x) (letter kind marks) }
    requires state { state < select_count (told rules.now) }
    requires few { (i : ℕ) → get_or looks.now i 0 ≤ 2 }
    ensures value { (x : Triple) (s : Looking) → IsRulesIn x rules.now
        → IsLetter x.symbols (predicates x) (letter kind marks) → IsLookAt x.rules state s → result
        ≡ found_above x bears looks.now (letter kind marks) s }
    ensures few { result ≤ 2 }
{
    if rules.sel_hits(state, kind, marks) {
        return 1 + u32::from(bears);
    }
    match kind {
        Kind::Elem(sym) => look_below(rules, looks, sym, marks, state),
        Kind::Text => 0,
    }
}

/// Leaves the looks of a node of a letter.
pub(crate) fn put_looks(
    rules: &Rules<'_>,
    looks: &[u32],
    bears: bool,
    kind: Kind,
    marks: Marks,
    out: &mut Room,
)
    requires letter { (x : Triple) × IsRulesIn x rules.now
        × IsLetter x.symbols (predicates x) (letter kind marks) }
    requires few { (i : ℕ) → get_or looks.now i 0 ≤ 2 }
    requires room { (x : Triple) → IsRulesIn x rules.now
        → 2 + out.old.flags + out.old.entries + looks_of x ≤ length out.old.numbers.items }
    ensures beside { IsRoomBeside out.old out.new }
    ensures others { (k : ℕ) → k < 2 + out.old.flags + out.old.entries
        → get_or out.new.numbers.items k 0 ≡ get_or out.old.numbers.items k 0 }
    ensures few { (x : Triple) (i : ℕ) → IsRulesIn x rules.now → i < looks_of x
        → get_or out.new.numbers.items (2 + out.old.flags + out.old.entries + i) 0 ≤ 2 }
    ensures looks { (x : Triple) (k : ℕ) (s : Looking) → IsRulesIn x rules.now
        → IsLetter x.symbols (predicates x) (letter kind marks) → IsLookAt x.rules k s
        → get_or out.new.numbers.items (2 + out.old.flags + out.old.entries + (k - moves x)) 0
        ≡ found_above x bears looks.now (letter kind marks) s }
{
    let first = rules.moves();
    for place in 0..rules.looks() {
        let value = look_above(rules, looks, bears, kind, marks, first + place);
        out.set_look(place as usize, value);
    }
}
