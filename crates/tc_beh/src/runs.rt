// Runs of instructions that read nothing, in the bodies of rules: what such a run puts is one set on every node, which is worked
// out once.
ghost use Rattle.std.specs.Prelude.{◌≡◌, ◌≤◌, length, IfSome, true};
ghost use Rattle.tc_model.specs.Sheets.{Body};
ghost use Rattle.tc_model.specs.Views as see;
ghost use Rattle.tc_rules.specs.Kept.{told};
ghost use Rattle.tc_rules.specs.Parts.{IsPart};
ghost use Rattle.tc_rows.specs.Triples.{Triple};
ghost use Rattle.tc_beh.specs.Heights.{depth_in, deepest_rule};
ghost use Rattle.tc_beh.specs.Opening.{IsOpenAt, IsBeside};
ghost use Rattle.tc_beh.specs.Places.{IsPlace, IsPlaceIn, kind_of, below_of, called_by};
ghost use Rattle.tc_beh.specs.Putting.{Extends, put_pairs};
ghost use Rattle.tc_beh.specs.Runs.{IsConstant, IsRun, AreRuns, IsRulePlace, IsRulePlaceIn, rule_body};

use crate::bodies::{Place, put_body};
use crate::open_sets::OpenSets;
use std::alloc::Global;
use tc_mat::Mat;
use tc_model::Instr;

/// How many instructions a run has at least.
const FEWEST: usize = 8;

/// How many words its set has at most for each of them: then it takes less memory than they do, and less time to put.
const MOST_WORDS: usize = 16;

/// The longest run of a body: what stands before it, the set that it puts, and what stands behind it.
#[derive(Drop)]
pub(crate) struct Run<'b> {
    pub(crate) before: &'b [Instr<'b>],
    pub(crate) set: Mat,
    pub(crate) behind: &'b [Instr<'b>],
}

/// True only of a text, and of an element in which nothing is read.
#[cycle(constant)]
fn is_constant(instruction: &Instr<'_>) -> bool
    ensures { result ≡ true → (rest : Body) → IsConstant rest
        → IsConstant (see.instruction instruction.now rest) }
{
    match instruction {
        Instr::Text(_) => true,
        Instr::Elem(_, inner) => are_constant(inner),
        _ => false,
    }
}

/// True only where all instructions of a body are such.
#[cycle(constant)]
fn are_constant(body: &[Instr<'_>]) -> bool
    ensures { result ≡ true → IsConstant (see.body body.now) }
{
    for instruction in body {
        if !is_constant(instruction) {
            return false;
        }
    }
    true
}

/// Where the longest run of a body begins, and where it ends.
fn longest_run(body: &[Instr<'_>]) -> (usize, usize)
    ensures order { result.0 ≤ result.1 }
    ensures within { result.1 ≤ length body.now }
{
    let mut longest = (0, 0);
    let mut from = 0;
    for place in 0..body.len() {
        if !is_constant(&body[place]) {
            from = place + 1;
        } else if place + 1 - from > longest.1 - longest.0 {
            longest = (from, place + 1);
        }
    }
    longest
}

/// Whether a run of so many instructions is worth a set of so many words.
fn is_worth(count: usize, words: usize) -> bool {
    count >= FEWEST && words / MOST_WORDS <= count
}

/// The longest run of a body, if it is worth its set and there is memory.
fn run_of<'b>(
    place: &Place<'_, 'b>,
    alloc: Global,
    body: &'b [Instr<'b>],
    sets: &mut OpenSets,
) -> Option<Run<'b>>
    requires place { IsPlace place.now }
    requires part { IsPart (told place.now.rules.now).sheet (see.body body.now) }
    requires sets { IsOpenAt place.now (depth_in (see.body body.now)) sets.old }
    ensures same { IsBeside place.now.output.now place.now.outputs.now sets.old sets.new }
    ensures run { IfSome result (λ r. (x : Triple) → IsPlaceIn x place.now
        → IsRun x (see.body body.now) r) }
{
    let (from, to) = longest_run(body);
    let run = &body[from..to];
    let before = &body[..from];
    let behind = &body[to..];
    sets.restart();
    if !is_worth(run.len(), sets.out().words().len()) || !are_constant(run) {
        return None;
    }
    put_body(place, run, sets);
    match sets.out().copied(alloc) {
        Ok(set) => Some(Run {
            before,
            set,
            behind,
        }),
        Err(_) => None,
    }
}

/// The longest runs of the bodies of rules, one after the other, as far as there is memory.
pub(crate) fn read_runs<'b>(
    place: &Place<'_, 'b>,
    alloc: Global,
    sets: &mut OpenSets,
) -> Vec<Option<Run<'b>>>
    requires place { IsPlace place.now }
    requires sets { IsOpenAt place.now (deepest_rule (told place.now.rules.now).sheet.rules)
        sets.old }
    ensures same { IsBeside place.now.output.now place.now.outputs.now sets.old sets.new }
    ensures runs { (x : Triple) → IsPlaceIn x place.now → AreRuns x result.items }
{
    let mut runs = Vec::new(alloc);
    for rule in place.rules.sheet().rules {
        let run = run_of(place, alloc, rule.body, sets);
        let Ok(()) = runs.push(run) else {
            return runs;
        };
    }
    runs
}

/// Puts the pairs of the body of a rule, the set of its run at once.
pub(crate) fn put_rule(place: &Place<'_, '_>, number: u32, body: &[Instr<'_>], sets: &mut OpenSets)
    requires place { IsRulePlace place.now }
    requires part { IsPart (told place.now.rules.now).sheet (see.body body.now) }
    requires rule { rule_body (told place.now.rules.now).sheet number ≡ see.body body.now }
    requires sets { IsOpenAt place.now (depth_in (see.body body.now)) sets.old }
    ensures same { IsBeside place.now.output.now place.now.outputs.now sets.old sets.new }
    ensures pairs { (x : Triple) → IsRulePlaceIn x place.now
        → Extends sets.old.out sets.new.out
        (put_pairs x (kind_of place.now.node) (below_of x place.now) (called_by place.now)
        (see.body body.now)) }
{
    match place.runs.get(number as usize) {
        Some(Some(run)) => {
            put_body(place, run.before, sets);
            sets.put(&run.set);
            put_body(place, run.behind, sets);
        }
        _ => put_body(place, body, sets),
    }
}
