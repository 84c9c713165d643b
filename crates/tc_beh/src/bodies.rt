// What bodies put out, as the pairs of output states that it leads (XSLT 1.0, 5 to 9).
//
// A node is known by the row of what stands below it, and by the ancestor state at it. Each function puts its pairs behind those
// of the set that is put together.
ghost use Rattle.std.specs.Prelude.{◌≡◌, ◌<◌, ◌≤◌, ◌+◌, ◌*◌, ℕ, List, length, Contains, map, All, not, true, false, IfSome};
ghost use Rattle.tc_model.specs.Meaning.{all_children as all_children_of};
ghost use Rattle.tc_model.specs.Numberings.{moves_of};
ghost use Rattle.tc_model.specs.Sheets as s;
ghost use Rattle.tc_model.specs.Symbols.{symbol_count};
ghost use Rattle.tc_model.specs.Views as see;
ghost use Rattle.tc_rules.specs.Kept.{told};
ghost use Rattle.tc_rules.specs.Parts.{IsPart, ArePartBranches};
ghost use Rattle.tc_rules.specs.Views.{mode_of};
ghost use Rattle.tc_rules.specs.RulesView.{move_count};
ghost use Rattle.tc_rows.specs.Triples.{Triple, moves};
ghost use Rattle.tc_rows.specs.Rows.{entry};
ghost use Rattle.tc_rows.specs.PairSets.{HaveSamePairs, chosen, product, listed};
ghost use Rattle.tc_rows.specs.Bodies.{around, copied_pairs, value_pairs, on_text, stay};
ghost use Rattle.tc_beh.specs.Heights.{depth_in, depth_in_branches};
ghost use Rattle.tc_beh.specs.Putting.{has, Extends, put_pairs, put_branch_pairs};
ghost use Rattle.tc_beh.specs.Opening.{IsOpenAt, IsBeside};
ghost use Rattle.tc_beh.specs.Places.{IsPlace, IsPlaceIn, kind_of, below_of, called_by, entries_by};

use crate::held_sets::HeldSets;
use crate::looks::{holds, look};
use crate::open_sets::OpenSets;
use crate::runs::Run;
use crate::symbols::Symbols;
use tc_alpha::Sym;
use tc_hedge::Hedge;
use tc_mat::Mat;
use tc_model::{Branch, Instr, NodeTest, Path, Step, Test, is_white_space_only};
use tc_rules::{Job, Rules};

/// All children of a node.
static ALL_CHILDREN: Path<'static> = Path {
    alts: &[&[Step {
        deep: false,
        test: NodeTest::Node,
        when: Test::True,
    }]],
};

/// The path to all children: what a built-in rule selects (XSLT 1.0, 5.8).
pub(crate) fn all_children<'b>() -> &'b Path<'b>
    ensures { see.path result.now ≡ all_children_of }
{
    &ALL_CHILDREN
}

/// What a node is.
#[derive(Clone, Copy)]
pub(crate) enum At {
    Root,
    Elem(Sym),
    Text,
}

/// The current node: what it is, what stands below it, and the ancestor state for that.
#[derive(Clone, Copy)]
pub(crate) struct Place<'a, 'b> {
    pub(crate) rules: &'a Rules<'b>,
    pub(crate) output: &'a Hedge<'b>,
    pub(crate) alphabet: &'a Symbols<'b>,
    pub(crate) outputs: &'a HeldSets,
    /// The pairs of a text that isn't white space alone.
    pub(crate) text: &'a Mat,
    /// The pairs of the bodies of named templates here.
    pub(crate) named: &'a [Mat],
    /// The runs of the bodies of rules, by rule, as far as they are known.
    pub(crate) runs: &'a [Option<Run<'b>>],
    pub(crate) node: At,
    pub(crate) bears: bool,
    pub(crate) entries: &'a [u32],
    pub(crate) looks: &'a [u32],
    pub(crate) above: u32,
}

/// Puts the pairs of a text, if one is put out.
pub(crate) fn put_text_if(place: &Place<'_, '_>, is_put: bool, sets: &mut OpenSets)
    requires place { IsPlace place.now }
    requires sets { IsOpenAt place.now 0 sets.old }
    ensures same { IsBeside place.now.output.now place.now.outputs.now sets.old sets.new }
    ensures pairs { (x : Triple) → IsPlaceIn x place.now
        → Extends sets.old.out sets.new.out (value_pairs x is_put) }
{
    if is_put {
        sets.put_text();
    }
}

/// Puts the pairs of the instructions of a body, one after the other.
#[cycle(bodies)]
pub(crate) fn put_body(place: &Place<'_, '_>, body: &[Instr<'_>], sets: &mut OpenSets)
    requires place { IsPlace place.now }
    requires part { IsPart (told place.now.rules.now).sheet (see.body body.now) }
    requires sets { IsOpenAt place.now (depth_in (see.body body.now)) sets.old }
    ensures same { IsBeside place.now.output.now place.now.outputs.now sets.old sets.new }
    ensures pairs { (x : Triple) → IsPlaceIn x place.now
        → Extends sets.old.out sets.new.out
        (put_pairs x (kind_of place.now.node) (below_of x place.now) (called_by place.now)
        (see.body body.now)) }
{
    for instruction in body {
        put_instruction(place, instruction, sets);
    }
}

/// Puts the pairs of one instruction.
#[cycle(bodies)]
fn put_instruction(place: &Place<'_, '_>, instruction: &Instr<'_>, sets: &mut OpenSets)
    requires place { IsPlace place.now }
    requires part { IsPart (told place.now.rules.now).sheet
        (see.instruction instruction.now s.no_instruction) }
    requires sets { IsOpenAt place.now
        (depth_in (see.instruction instruction.now s.no_instruction)) sets.old }
    ensures same { IsBeside place.now.output.now place.now.outputs.now sets.old sets.new }
    ensures pairs { (x : Triple) (rest : s.Body) → IsPlaceIn x place.now → HaveSamePairs
        (product (has sets.new.out)
        (put_pairs x (kind_of place.now.node) (below_of x place.now) (called_by place.now) rest))
        (product (has sets.old.out)
        (put_pairs x (kind_of place.now.node) (below_of x place.now) (called_by place.now)
        (see.instruction instruction.now rest))) }
{
    match instruction {
        Instr::Text(text) => put_text_if(place, !is_white_space_only(text), sets),
        Instr::Elem(name, inner) => {
            let sym = place.alphabet.sym_of(name);
            put_element(place, sym, inner, sets)
        }
        Instr::Copy(inner) => put_copy(place, inner, sets),
        Instr::Apply(path, mode) => put_selected(place, path, Job::Mode(*mode), sets),
        Instr::Call(number) => sets.put(&place.named[*number as usize]),
        Instr::ValueOf(path) => {
            let found = look(place.rules, place.looks, path);
            put_text_if(place, found == 2, sets)
        }
        Instr::ValueOfSelf => put_text_if(place, place.bears, sets),
        Instr::Choose(branches, last) => {
            if put_first(place, branches, sets) {
                return;
            }
            put_body(place, last, sets)
        }
        Instr::ForEach(number, path, _) => { put_selected(place, path, Job::Each(*number), sets) }
    }
}

/// Puts the pairs of an element of a symbol around what a body puts out.
#[cycle(bodies)]
fn put_element(place: &Place<'_, '_>, sym: Sym, inner: &[Instr<'_>], sets: &mut OpenSets)
    requires place { IsPlace place.now }
    requires symbol { sym.0 < symbol_count place.now.alphabet.now }
    requires part { IsPart (told place.now.rules.now).sheet (see.body inner.now) }
    requires sets { IsOpenAt place.now (depth_in (see.body inner.now) + 1) sets.old }
    ensures same { IsBeside place.now.output.now place.now.outputs.now sets.old sets.new }
    ensures pairs { (x : Triple) → IsPlaceIn x place.now
        → Extends sets.old.out sets.new.out
        (around x sym.0
        (put_pairs x (kind_of place.now.node) (below_of x place.now) (called_by place.now)
        (see.body inner.now))) }
{
    sets.begin();
    put_body(place, inner, sets);
    sets.end_element(place.output, sym);
}

/// Puts the pairs of the current node without its children, around what a body puts out (XSLT 1.0, 7.5).
#[cycle(bodies)]
fn put_copy(place: &Place<'_, '_>, inner: &[Instr<'_>], sets: &mut OpenSets)
    requires place { IsPlace place.now }
    requires part { IsPart (told place.now.rules.now).sheet (see.body inner.now) }
    requires sets { IsOpenAt place.now (depth_in (see.body inner.now) + 1) sets.old }
    ensures same { IsBeside place.now.output.now place.now.outputs.now sets.old sets.new }
    ensures pairs { (x : Triple) → IsPlaceIn x place.now
        → Extends sets.old.out sets.new.out
        (copied_pairs x (kind_of place.now.node)
        (put_pairs x (kind_of place.now.node) (below_of x place.now) (called_by place.now)
        (see.body inner.now))) }
{
    match place.node {
        At::Root => put_body(place, inner, sets),
        At::Elem(sym) => put_element(place, sym, inner, sets),
        At::Text => sets.put_text(),
    }
}

/// Puts the pairs of the body of the first branch whose test holds (XSLT 1.0, 9). Tells whether there is one; where there is
/// none, nothing is put.
#[cycle(bodies)]
fn put_first(place: &Place<'_, '_>, branches: &[Branch<'_>], sets: &mut OpenSets) -> bool
    requires place { IsPlace place.now }
    requires part { ArePartBranches (told place.now.rules.now).sheet
        (see.branches branches.now (s.otherwise s.no_instruction)) }
    requires sets { IsOpenAt place.now
        (depth_in_branches (see.branches branches.now (s.otherwise s.no_instruction))) sets.old }
    ensures same { IsBeside place.now.output.now place.now.outputs.now sets.old sets.new }
    ensures stays { result ≡ false → sets.new ≡ sets.old }
    ensures pairs { (x : Triple) (rest : s.Branches) → IsPlaceIn x place.now → HaveSamePairs
        (product (has sets.new.out)
        (chosen result (stay x)
        (put_branch_pairs x (kind_of place.now.node) (below_of x place.now)
        (called_by place.now) rest)))
        (product (has sets.old.out)
        (put_branch_pairs x (kind_of place.now.node) (below_of x place.now) (called_by place.now)
        (see.branches branches.now rest))) }
{
    for branch in branches {
        if holds(place.rules, place.looks, &branch.test) {
            put_body(place, branch.body, sets);
            return true;
        }
    }
    false
}

/// Puts the pairs of what a job puts out on all nodes that a path selects.
pub(crate) fn put_selected(place: &Place<'_, '_>, path: &Path<'_>, job: Job, sets: &mut OpenSets)
    requires place { IsPlace place.now }
    requires path { Contains (moves_of (told place.now.rules.now).sheet)
        (record {
          path = see.path path.now;
          mode = mode_of
              (told place.now.rules.now).sheet.modes job;
        }) }
    requires sets { IsOpenAt place.now 0 sets.old }
    ensures same { IsBeside place.now.output.now place.now.outputs.now sets.old sets.new }
    ensures pairs { (x : Triple) → IsPlaceIn x place.now
        → Extends sets.old.out sets.new.out
        ((below_of x place.now).pairs (mode_of (told place.now.rules.now).sheet.modes job)
        (see.path path.now)) }
{
    match place.node {
        At::Text => {}
        At::Root => put_below(place, path, job, sets),
        At::Elem(_) => put_below(place, path, job, sets),
    }
}

/// The same on a node that is no text.
fn put_below(place: &Place<'_, '_>, path: &Path<'_>, job: Job, sets: &mut OpenSets)
    requires place { IsPlace place.now }
    requires node { kind_of place.now.node ≡ on_text → ⊥ }
    requires path { Contains (moves_of (told place.now.rules.now).sheet)
        (record {
          path = see.path path.now;
          mode = mode_of
              (told place.now.rules.now).sheet.modes job;
        }) }
    requires sets { IsOpenAt place.now 0 sets.old }
    ensures same { IsBeside place.now.output.now place.now.outputs.now sets.old sets.new }
    ensures pairs { (x : Triple) → IsPlaceIn x place.now
        → Extends sets.old.out sets.new.out
        ((below_of x place.now).pairs (mode_of (told place.now.rules.now).sheet.modes job)
        (see.path path.now)) }
{
    match place.rules.move_first(path, job) {
        None => {}
        Some(state) => put_entry(place, state, sets),
    }
}

/// Where the entry of a move state stands, by the ancestor state.
pub(crate) fn entry_place(above: u32, moves: u32, state: u32) -> usize
    ensures { result ≡ above * moves + state }
{
    above as usize * moves as usize + state as usize
}

/// Puts the pairs of the entry of a state of a move below.
pub(crate) fn put_entry(place: &Place<'_, '_>, state: u32, sets: &mut OpenSets)
    requires place { IsPlace place.now }
    requires node { kind_of place.now.node ≡ on_text → ⊥ }
    requires state { state < move_count (told place.now.rules.now) }
    requires sets { IsOpenAt place.now 0 sets.old }
    ensures same { IsBeside place.now.output.now place.now.outputs.now sets.old sets.new }
    ensures pairs { (x : Triple) → IsPlaceIn x place.now
        → Extends sets.old.out sets.new.out
        (listed
        (entry x
        (entries_by place.now.outputs.now.matrices place.now.entries.now) place.now.above state)) }
{
    let number = entry_place(place.above, place.rules.moves(), state);
    sets.put_held(place.outputs, place.entries[number]);
}
