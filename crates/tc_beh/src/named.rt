// The sets of the bodies of named templates, each after those of the bodies that it calls.
ghost use Rattle.std.specs.Prelude.{◌≡◌, ◌≢◌, ◌≤◌, ◌<◌, ◌+◌, ℕ, List, length, All, get_or};
ghost use Rattle.tc_mat.specs.Matrix.{Matrix};
ghost use Rattle.tc_model.specs.Sheets.{no_instruction};
ghost use Rattle.tc_rules.specs.Kept.{told};
ghost use Rattle.tc_rows.specs.Triples.{Triple};
ghost use Rattle.tc_rows.specs.PairSets.{HaveSamePairs, product};
ghost use Rattle.tc_rows.specs.Bodies.{stay};
ghost use Rattle.tc_beh.specs.Callees.{AreCalleesFirst};
ghost use Rattle.tc_beh.specs.Heights.{deepest};
ghost use Rattle.tc_beh.specs.Putting.{IsCalled, has, put_pairs};
ghost use Rattle.tc_beh.specs.Opening.{IsOpenAt, IsBeside};
ghost use Rattle.tc_beh.specs.Places.{kind_of, below_of, no_matrix};
ghost use Rattle.tc_beh.specs.Grounds.{IsGround, IsGroundIn, AreNamedSets, called_from};

use crate::bodies::{Place, put_body};
use crate::open_sets::OpenSets;
use tc_mat::Mat;

/// Works out the sets of the bodies of named templates on a node. The place's own are not read.
pub(crate) fn put_named(
    place: &Place<'_, '_>,
    order: &[usize],
    named: &mut [Mat],
    sets: &mut OpenSets,
)
    requires place { IsGround place.now }
    requires order { AreCalleesFirst (told place.now.rules.now).sheet.named order.now }
    requires named { AreNamedSets place.now named.old }
    requires sets { IsOpenAt place.now (deepest (told place.now.rules.now).sheet.named) sets.old }
    ensures named { AreNamedSets place.now named.new }
    ensures same { IsBeside place.now.output.now place.now.outputs.now sets.old sets.new }
    ensures called { (x : Triple) (n : ℕ) → IsGroundIn x place.now
        → IsCalled x (kind_of place.now.node) (below_of x place.now) (called_from named.new) n }
{
    for number in order {
        put_one_named(place, *number, named, sets);
    }
}

/// The same of one of them, once those that it calls are worked out.
fn put_one_named(place: &Place<'_, '_>, number: usize, named: &mut [Mat], sets: &mut OpenSets)
    requires place { IsGround place.now }
    requires number { number < length (told place.now.rules.now).sheet.named }
    requires named { AreNamedSets place.now named.old }
    requires sets { IsOpenAt place.now (deepest (told place.now.rules.now).sheet.named) sets.old }
    ensures named { AreNamedSets place.now named.new }
    ensures same { IsBeside place.now.output.now place.now.outputs.now sets.old sets.new }
    ensures others { (n : ℕ) → n ≢ number → get_or named.new n no_matrix
        ≡ get_or named.old n no_matrix }
    ensures called { (x : Triple) → IsGroundIn x place.now →
        HaveSamePairs (has (get_or named.new number no_matrix))
        (product (stay x)
        (put_pairs x (kind_of place.now.node) (below_of x place.now) (called_from named.old)
        (get_or (told place.now.rules.now).sheet.named number no_instruction))) }
{
    let body = place.rules.sheet().named[number];
    sets.restart();
    let here = Place {
        rules: place.rules,
        output: place.output,
        alphabet: place.alphabet,
        outputs: place.outputs,
        text: place.text,
        named: &*named,
        runs: place.runs,
        node: place.node,
        bears: place.bears,
        entries: place.entries,
        looks: place.looks,
        above: place.above,
    };
    put_body(&here, body, sets);
    sets.leave(&mut named[number]);
}
