// What the rows of documents tell: whether a document may be an input, and whether its result is a valid output.
ghost use Rattle.std.specs.Prelude.{◌≡◌, ◌≤◌, ◌+◌, ◌↔◌, ℕ, length, IsTrue, All};
ghost use Rattle.std.specs.List.{list_any};
ghost use Rattle.tc_auto.specs.Stands.{Stands, patterns as patterns_of, states as states_of};
ghost use Rattle.tc_mat.specs.Matrix.{Matrix, HasPair, IsIdentity};
ghost use Rattle.tc_model.specs.Grammars as g;
ghost use Rattle.tc_model.specs.Machine.{in_mode};
ghost use Rattle.tc_model.specs.States as s;
ghost use Rattle.tc_rules.specs.Kept.{told};
ghost use Rattle.tc_rules.specs.States.{body_of_root};
ghost use Rattle.tc_rows.specs.Triples.{Triple, sheet, predicates};
ghost use Rattle.tc_rows.specs.PairSets.{HaveSamePairs};
ghost use Rattle.tc_rows.specs.Bodies.{on_root, body_pairs};
ghost use Rattle.tc_beh.specs.Machines.{IsMachine};
ghost use Rattle.tc_beh.specs.Opening.{IsOpenAt, IsBeside};
ghost use Rattle.tc_beh.specs.Places.{kind_of, below_of};
ghost use Rattle.tc_beh.specs.Putting.{has, Extends};
ghost use Rattle.tc_beh.specs.Rooms.{flagged, tree_row};
ghost use Rattle.tc_beh.specs.Roots.{IsRootIn, root_pairs};
ghost use Rattle.tc_beh.specs.RowsOf.{IsWork};
ghost use Rattle.tc_beh.specs.Runs.{IsRulePlace, IsRulePlaceIn};
ghost use Rattle.tc_beh.specs.Templates.{AreCalled, depth_of_sheet};

use crate::append::is_set;
use crate::bodies::{At, Place};
use crate::held_sets::HeldSets;
use crate::machine::Machine;
use crate::named::put_named;
use crate::open_sets::OpenSets;
use crate::rooms::{Room, TRow};
use crate::rows::{Rows, Work};
use crate::templates::{put_template, template_of};
use tc_auto::Auto;
use tc_mat::Mat;

/// Whether some element pattern with a flag is an alternative of the schema's start.
fn has_start(auto: &Auto<'_>, patterns: &[u32]) -> bool
    requires { length patterns.now ≡ patterns_of auto.now }
    ensures { (side : s.Side) (x : g.Grammar) → Stands side x auto.now → result
        ≡ list_any (λ k. s.is_alternative k x.start) (flagged 1 patterns.now) }
{
    for before in 0..auto.patterns() {
        if is_set(patterns, before as usize) && auto.starts(before + 1) {
            return true;
        }
    }
    false
}

/// Whether pairs lead state 0 of a schema to one in which its start accepts.
fn leads_to_end(auto: &Auto<'_>, set: &Mat) -> bool
    requires { set.now.size ≡ states_of auto.now }
    ensures { (x : g.Grammar) → Stands s.output x auto.now
        → IsTrue result ↔ ((j : ℕ) × HasPair set.now 0 j × (s.automaton x.start).accepting j) }
{
    for state in 0..auto.end(0) {
        if set.has(0, state) && auto.accepts(state) {
            return true;
        }
    }
    false
}

/// Puts what is put out on the root of a document.
fn put_on_root(place: &Place<'_, '_>, sets: &mut OpenSets)
    requires place { IsRulePlace place.now }
    requires root { kind_of place.now.node ≡ on_root }
    requires sets { IsOpenAt place.now (depth_of_sheet (told place.now.rules.now).sheet) sets.old }
    ensures same { IsBeside place.now.output.now place.now.outputs.now sets.old sets.new }
    ensures pairs { (x : Triple) → IsRulePlaceIn x place.now → AreCalled x place.now
        → Extends sets.old.out sets.new.out
        (body_pairs x (body_of_root x.symbols (predicates x) (sheet x).rules x.bodies (in_mode 0))
        (kind_of place.now.node) (below_of x place.now)) }
{
    let found = place.rules.root_rule(0);
    let template = template_of(place.rules, 0, found);
    put_template(place, template, sets)
}

/// Leaves, in the set that is worked out, where what is put out on the root of a document leads the output.
fn put_root<'b>(machine: &Machine<'b>, outputs: &HeldSets, work: &mut Work<'b>, tree: &Room)
    requires { (x : Triple) × IsRootIn x machine.now outputs.now work.old tree.now }
    ensures work { (x : Triple) → IsRootIn x machine.now outputs.now work.old tree.now
        → IsWork x machine.now outputs.now work.new }
    ensures pairs { (x : Triple) → IsRootIn x machine.now outputs.now work.old tree.now
        → HaveSamePairs (has work.new.sets.out)
        (root_pairs x (tree_row x outputs.now.matrices tree.now.numbers.items)) }
{
    let _held = outputs.len();
    let ground = Place {
        rules: &machine.rules,
        output: &machine.output,
        alphabet: &machine.alphabet,
        outputs,
        text: &work.text,
        named: &[],
        runs: &[],
        node: At::Root,
        bears: tree.bears(),
        entries: tree.outputs(),
        looks: tree.looks(),
        above: 0,
    };
    put_named(
        &ground,
        machine.order.as_slice(),
        work.named.as_mut_slice(),
        &mut work.sets,
    );
    work.sets.restart();
    let place = Place {
        named: work.named.as_slice(),
        ..ground
    };
    put_on_root(&place, &mut work.sets);
}

impl<'m, 'b> Rows<'m, 'b> {
    ghost use Rattle.std.specs.Prelude.{◌≡◌, ◌↔◌, IsTrue};
    ghost use Rattle.tc_rows.specs.Triples.{Triple};
    ghost use Rattle.tc_rows.specs.Arithmetic.{is_admitted, IsPassing};
    ghost use Rattle.tc_beh.specs.RowsOf.{AreRows, AreRowsOf, AreSameRows, StandsForTree, tree_of};

    /// Whether a document of this row is valid for the input schema.
    pub fn admitted(&self, t: &TRow) -> bool
        requires rows { AreRows self.now }
        requires tree { (x : Triple) → AreRowsOf x self.now → StandsForTree x self.now t.now }
        ensures { (x : Triple) → AreRowsOf x self.now → result
            ≡ is_admitted x (tree_of x self.now t.now) }
    {
        has_start(self.machine.input.auto(), t.room.flags())
    }

    /// Whether the result of a document of this row is valid for the output schema. It is refused no memory.
    pub fn root_ok(&mut self, t: &TRow) -> bool
        requires rows { AreRows self.old }
        requires tree { (x : Triple) → AreRowsOf x self.old → StandsForTree x self.old t.now }
        ensures rows { (x : Triple) → AreRowsOf x self.old → AreRowsOf x self.new }
        ensures same { AreSameRows self.old self.new }
        ensures outputs { self.new.outputs ≡ self.old.outputs }
        ensures passing { (x : Triple) → AreRowsOf x self.old
            → IsTrue result ↔ IsPassing x (tree_of x self.old t.now) }
    {
        let machine = self.machine;
        put_root(machine, &self.outputs, &mut self.work, &t.room);
        leads_to_end(machine.output.auto(), self.work.sets.out())
    }
}
