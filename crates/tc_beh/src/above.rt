// What a state of a move above a node puts out on the node and below it.
ghost use Rattle.std.specs.Prelude.{◌≡◌, ◌≤◌, ◌<◌, ◌+◌, ℕ, length, All};
ghost use Rattle.tc_model.specs.Letters as letters;
ghost use Rattle.tc_model.specs.Letters.{of_symbol};
ghost use Rattle.tc_rules.specs.Asked as asked;
ghost use Rattle.tc_rules.specs.Kept.{told};
ghost use Rattle.tc_rules.specs.RulesView.{move_count};
ghost use Rattle.tc_rules.specs.States.{Going};
ghost use Rattle.tc_rules.specs.Tasks.{IsMoveAt};
ghost use Rattle.tc_rows.specs.Triples.{Triple, predicates, number_below, moving};
ghost use Rattle.tc_rows.specs.Arithmetic.{hit_pairs, pairs_from, step};
ghost use Rattle.tc_beh.specs.Above.{letter_of, node_of, pairs_at};
ghost use Rattle.tc_beh.specs.Opening.{IsOpenAt, IsBeside};
ghost use Rattle.tc_beh.specs.Places.{IsPlace, IsPlaceIn, kind_of, below_of, entries_by};
ghost use Rattle.tc_beh.specs.Putting.{Extends};
ghost use Rattle.tc_beh.specs.Runs.{IsRulePlace, IsRulePlaceIn};
ghost use Rattle.tc_beh.specs.Templates.{IsMeantAt, IsPartTemplate, depth_of, depth_of_sheet, AreCalled};

use crate::bodies::{Place, put_entry};
use crate::open_sets::OpenSets;
use crate::templates::{Template, put_template};
use tc_alpha::Sym;
use tc_rules::{Kind, Marks};

/// The letter of a node that isn't the root: what it is, and the predicates that hold on it.
#[derive(Clone, Copy)]
pub(crate) struct Letter {
    pub(crate) kind: Kind,
    pub(crate) marks: Marks,
}

/// Puts what a state of a move puts out on a node, if the state hits it, by what is then to be done.
fn put_hit(
    place: &Place<'_, '_>,
    letter: Letter,
    template: Template<'_>,
    state: u32,
    sets: &mut OpenSets,
)
    requires place { IsRulePlace place.now }
    requires node { kind_of place.now.node ≡ node_of (letter_of letter).kind }
    requires letter { (x : Triple) × IsPlaceIn x place.now
        × letters.IsLetter x.symbols (predicates x) (letter_of letter) }
    requires part { IsPartTemplate (told place.now.rules.now).sheet template }
    requires depth { depth_of template ≤ depth_of_sheet (told place.now.rules.now).sheet }
    requires state { state < move_count (told place.now.rules.now) }
    requires sets { IsOpenAt place.now (depth_of_sheet (told place.now.rules.now).sheet) sets.old }
    ensures same { IsBeside place.now.output.now place.now.outputs.now sets.old sets.new }
    ensures pairs { (x : Triple) (g : Going) (q : ℕ) → IsRulePlaceIn x place.now
        → AreCalled x place.now → letters.IsLetter x.symbols (predicates x) (letter_of letter)
        → IsMoveAt x.rules state g
        → IsMeantAt x g q (letter_of letter) template.entry
        → Extends sets.old.out sets.new.out
        (hit_pairs x g q (letter_of letter) (kind_of place.now.node) (below_of x place.now)) }
{
    if !place.rules.sel_hits(state, letter.kind, letter.marks) {
        return;
    }
    put_template(place, template, sets)
}

/// Puts what a state of a move above an element puts out below it.
fn put_further(place: &Place<'_, '_>, sym: Sym, marks: Marks, state: u32, sets: &mut OpenSets)
    requires place { IsPlace place.now }
    requires node { kind_of place.now.node ≡ node_of (of_symbol sym.0) }
    requires letter { (x : Triple) × IsPlaceIn x place.now
        × letters.IsLetter x.symbols (predicates x) (asked.letter (Kind.Elem sym) marks) }
    requires state { state < move_count (told place.now.rules.now) }
    requires sets { IsOpenAt place.now 0 sets.old }
    ensures same { IsBeside place.now.output.now place.now.outputs.now sets.old sets.new }
    ensures pairs { (x : Triple) (g : Going) (at : IsMoveAt x.rules state g)
        → IsPlaceIn x place.now
        → letters.IsLetter x.symbols (predicates x) (asked.letter (Kind.Elem sym) marks)
        → Extends sets.old.out sets.new.out
        (pairs_from x
        (entries_by place.now.outputs.now.matrices place.now.entries.now) place.now.above
        (moving at.mode g.path (step x g.path g.state (asked.letter (Kind.Elem sym) marks)))) }
{
    match place.rules.sel_step(state, sym, marks) {
        None => {}
        Some(next) => put_entry(place, next, sets),
    }
}

/// Puts what a state of a move above a node puts out on it, by what is to be done where the state hits it, and then below it.
pub(crate) fn put_entry_above(
    place: &Place<'_, '_>,
    letter: Letter,
    template: Template<'_>,
    state: u32,
    sets: &mut OpenSets,
)
    requires place { IsRulePlace place.now }
    requires node { kind_of place.now.node ≡ node_of (letter_of letter).kind }
    requires letter { (x : Triple) × IsPlaceIn x place.now
        × letters.IsLetter x.symbols (predicates x) (letter_of letter) }
    requires part { IsPartTemplate (told place.now.rules.now).sheet template }
    requires depth { depth_of template ≤ depth_of_sheet (told place.now.rules.now).sheet }
    requires state { state < move_count (told place.now.rules.now) }
    requires sets { IsOpenAt place.now (depth_of_sheet (told place.now.rules.now).sheet) sets.old }
    ensures same { IsBeside place.now.output.now place.now.outputs.now sets.old sets.new }
    ensures pairs { (x : Triple) (g : Going) (q : ℕ) (at : IsMoveAt x.rules state g)
        → IsRulePlaceIn x place.now → AreCalled x place.now
        → letters.IsLetter x.symbols (predicates x) (letter_of letter)
        → IsMeantAt x g q (letter_of letter) template.entry
        → Extends sets.old.out sets.new.out
        (pairs_at x place.now.bears
        (entries_by place.now.outputs.now.matrices place.now.entries.now) place.now.looks.now q
        place.now.above at.mode g letter.marks.0 (letter_of letter).kind) }
{
    put_hit(place, letter, template, state, sets);
    match letter.kind {
        Kind::Elem(sym) => put_further(place, sym, letter.marks, state, sets),
        Kind::Text => {}
    }
}
