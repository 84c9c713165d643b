// What is to be done at nodes: by the states of a move and of ancestors above them, and by their letters. Some of it is remembered,
// since many nodes have the same letter: each entry is true, so that one is overwritten changes no answer.
ghost use Rattle.std.specs.Prelude.{◌≡◌, ◌<◌, ℕ, List, length, Option, option_map, Contains, IfOk, IfSome, MatchOption};
ghost use Rattle.tc_model.specs.Chains as c;
ghost use Rattle.tc_model.specs.Machine.{CallFreeJob};
ghost use Rattle.tc_model.specs.Numberings.{moves_of};
ghost use Rattle.tc_model.specs.Sheets.{CallFreeBody, no_alternative};
ghost use Rattle.tc_model.specs.Views as see;
ghost use Rattle.tc_rules.specs.Asked.{letter as see_letter, found as found_of};
ghost use Rattle.tc_rules.specs.Jobs.{IsJob};
ghost use Rattle.tc_rules.specs.RulesView.{ancestor};
ghost use Rattle.tc_rules.specs.States.{Chosen, built_in_at, plain_of};
ghost use Rattle.tc_rules.specs.Tasks.{IsTaskOf, IsSomeMove};
ghost use Rattle.tc_rules.specs.Views.{mode_of};
ghost use Rattle.tc_run.specs.ChildMoves.{IsFirst};
ghost use Rattle.tc_run.specs.Leaves.{AreLeaves};
ghost use Rattle.tc_run.specs.Running.{IsRunner, HasBodies, told_by, sheet_by, machine};
ghost use Rattle.tc_run.specs.Tasks.{IsMeantBy, IsPartTemplate, built_in as built_in_of};
ghost use Rattle.tc_run.specs.Visits.{AreFoundBy, IsNextFor, IsMetBy, IsTemplateAt, IsVisit};
ghost use Rattle.tc_run.specs.declared.runner.Runner.{Runner as RunnerOf};

use crate::children::ChildMoves;
use crate::leaves::{Bodies, Leaves};
use crate::runner::Runner;
use crate::sights::{KnownSights, same_kind};
use bumpalo::Bump;
use tc_base::NoMemory;
use tc_model::Path;
use tc_rules::{Found, Job, Kind, Marks};

/// How many visits are remembered.
const REMEMBERED: usize = 2048;

/// What is to be instantiated on a node: a body, or what the built-in rules say in a mode.
#[derive(Clone, Copy)]
pub(crate) enum Template<'b> {
    Body(Bodies<'b>),
    BuiltIn(u32),
}

/// The states below an element: the ancestor state, and that of the move, if it selects a node there.
#[derive(Clone, Copy)]
pub(crate) struct Next {
    pub(crate) above: u32,
    pub(crate) state: Option<u32>,
}

/// What is to be done at a node: what to instantiate on it, if the move selects it, and by which states to go down.
#[derive(Clone, Copy)]
pub(crate) struct Visit<'b> {
    pub(crate) template: Option<Template<'b>>,
    pub(crate) next: Next,
}

/// What was done at a node of a letter, below a state of a move and an ancestor state.
#[derive(Clone, Copy)]
struct Known<'b> {
    state: u32,
    above: u32,
    kind: Kind,
    marks: Marks,
    visit: Visit<'b>,
}

/// Some of what was done at nodes, which is forgotten where something else comes to its place (no clause says that anything is
/// remembered), and what is known of each mode and each rule from the start.
#[derive(Drop)]
pub(crate) struct KnownNodes<'b> {
    places: Vec<Option<Known<'b>>, &'b Bump>,
    children: ChildMoves<'b>,
    pub(crate) leaves: Leaves<'b>,
    /// What looks saw.
    pub(crate) sights: KnownSights<'b>,
}

/// What a rule says, or the built-in ones in a mode.
pub(crate) fn template_of<'b>(
    runner: &Runner<'_, 'b>,
    leaves: &Leaves<'b>,
    mode: u32,
    found: Found,
) -> Template<'b>
    requires runner { IsRunner runner.now }
    requires leaves { AreLeaves (sheet_by runner.now) leaves.now }
    requires mode { mode < (sheet_by runner.now).modes }
    requires found { IfSome (found_of found) (λ i. i < length (sheet_by runner.now).rules) }
    ensures part { IsPartTemplate (sheet_by runner.now) result }
    ensures meant { (bodies : List CallFreeBody) (n : c.Node) (o : Option Chosen)
        → HasBodies runner.now bodies → option_map (λ w. w.number) o ≡ found_of found →
        IsMeantBy (sheet_by runner.now).named n result (plain_of bodies (built_in_of mode n) o) }
{
    match found {
        Found::BuiltIn => Template::BuiltIn(mode),
        Found::Rule(number) => {
            let whole = runner.rules.sheet().rules[number as usize].body;
            Template::Body(leaves.bodies_of(number, whole))
        }
    }
}

/// What is to be done on a node of a letter.
fn template_for<'b>(
    runner: &Runner<'_, 'b>,
    leaves: &Leaves<'b>,
    job: Job,
    above: u32,
    kind: Kind,
    marks: Marks,
) -> Template<'b>
    requires met { IsMetBy runner.now above (see_letter kind marks) }
    requires leaves { AreLeaves (sheet_by runner.now) leaves.now }
    requires job { IsJob (sheet_by runner.now) job }
    ensures part { IsPartTemplate (sheet_by runner.now) result }
    ensures meant { (bodies : List CallFreeBody) (n : c.Node) (k : CallFreeJob)
        → HasBodies runner.now bodies
        → IsTaskOf (sheet_by runner.now) (mode_of (sheet_by runner.now).modes job) k →
        ((m : ℕ) → built_in_at m (see_letter kind marks).kind ≡ built_in_of m n) →
        IsMeantBy (sheet_by runner.now).named n result
        ((machine runner.now bodies).body_at k (ancestor (told_by runner.now) above)
        (see_letter kind marks)) }
{
    match job {
        Job::Each(number) => Template::Body(Bodies::alone(runner.rules.each_body(number))),
        Job::Mode(mode) => {
            let found = runner.rules.rule_for(mode, above, kind, marks);
            template_of(runner, leaves, mode, found)
        }
    }
}

/// What is to be instantiated on a node of a letter, if a move selects it.
fn template_at<'b>(
    runner: &Runner<'_, 'b>,
    leaves: &Leaves<'b>,
    state: u32,
    above: u32,
    kind: Kind,
    marks: Marks,
) -> Option<Template<'b>>
    requires met { IsMetBy runner.now above (see_letter kind marks) }
    requires leaves { AreLeaves (sheet_by runner.now) leaves.now }
    requires state { IsSomeMove (told_by runner.now) state }
    ensures { IsTemplateAt runner.now state above (see_letter kind marks) result }
{
    if !runner.rules.sel_hits(state, kind, marks) {
        return None;
    }
    let job = runner.rules.mode_of(state);
    Some(template_for(runner, leaves, job, above, kind, marks))
}

/// The states below an element of a letter. Below a text stands nothing.
fn next_states(runner: &Runner<'_, '_>, state: u32, above: u32, kind: Kind, marks: Marks) -> Next
    requires met { IsMetBy runner.now above (see_letter kind marks) }
    requires state { IsSomeMove (told_by runner.now) state }
    ensures { IsNextFor runner.now state above kind marks result }
{
    match kind {
        Kind::Text => Next { above, state: None },
        Kind::Elem(sym) => Next {
            above: runner.rules.anc_step(above, sym, marks),
            state: runner.rules.sel_step(state, sym, marks),
        },
    }
}

/// Where what is done at a node is remembered.
fn place_of(state: u32, above: u32, kind: Kind, marks: Marks) -> usize
    ensures { result < 2048 }
{
    let symbol = match kind {
        Kind::Elem(sym) => sym.0 as usize + 1,
        Kind::Text => 0,
    };
    (symbol * 71 + above as usize + state as usize * 1021 + marks.0 as usize * 389) % REMEMBERED
}

impl<'b> KnownNodes<'b> {
    /// None is remembered.
    ///
    /// # Errors
    ///
    /// There is no memory for what will be remembered.
    pub(crate) fn new(arena: &'b Bump, runner: &Runner<'_, 'b>) -> Result<KnownNodes<'b>, NoMemory>
        requires { IsRunner runner.now }
        ensures { IfOk result (λ k. AreFoundBy runner.now k) }
    {
        let places = vec![in arena; None; REMEMBERED]?;
        let children = ChildMoves::new(arena, runner)?;
        let leaves = Leaves::new(arena, runner)?;
        let sights = KnownSights::new(arena)?;
        Ok(KnownNodes {
            places,
            children,
            leaves,
            sights,
        })
    }

    /// The first state of a move. There is none where the path has no alternative.
    pub(crate) fn first_of(&self, runner: &Runner<'_, 'b>, path: &Path<'_>, job: Job) -> Option<u32>
        requires runner { IsRunner runner.now }
        requires known { AreFoundBy runner.now self.now }
        requires path { Contains (moves_of (sheet_by runner.now))
            (record { path = see.path path.now; mode = mode_of (sheet_by runner.now).modes job }) }
        ensures { MatchOption result (see.path path.now ≡ no_alternative)
            (IsFirst runner.now (see.path path.now) job) }
    {
        match self.children.first_of(path, job) {
            Some(state) => Some(state),
            None => runner.rules.move_first(path, job),
        }
    }

    /// What is to be done at a node of a letter, if it is remembered.
    fn remembered(&self, state: u32, above: u32, kind: Kind, marks: Marks) -> Option<Visit<'b>>
        ensures { (r : RunnerOf) → AreFoundBy r self.now
            → IfSome result (λ v. IsVisit r state above kind marks v) }
    {
        let place = place_of(state, above, kind, marks);
        if place >= self.places.len() {
            return None;
        }
        let known = self.places[place]?;
        if known.state == state
            && known.above == above
            && same_kind(known.kind, kind)
            && known.marks.0 == marks.0
        {
            Some(known.visit)
        } else {
            None
        }
    }

    /// Remembers what is to be done at a node of a letter.
    fn remember(&mut self, state: u32, above: u32, kind: Kind, marks: Marks, visit: Visit<'b>)
        ensures { (r : RunnerOf) → AreFoundBy r self.old
            → IsVisit r state above kind marks visit.entry → AreFoundBy r self.new }
    {
        let place = place_of(state, above, kind, marks);
        if place >= self.places.len() {
            return;
        }
        self.places[place] = Some(Known {
            state,
            above,
            kind,
            marks,
            visit,
        });
    }

    /// What is to be done at a node of a letter, below a state of a move and an ancestor state.
    pub(crate) fn visit(
        &mut self,
        runner: &Runner<'_, 'b>,
        state: u32,
        above: u32,
        kind: Kind,
        marks: Marks,
    ) -> Visit<'b>
        requires met { IsMetBy runner.now above (see_letter kind marks) }
        requires state { IsSomeMove (told_by runner.now) state }
        requires known { AreFoundBy runner.now self.old }
        ensures known { AreFoundBy runner.now self.new }
        ensures visit { IsVisit runner.now state above kind marks result }
    {
        match self.remembered(state, above, kind, marks) {
            Some(visit) => visit,
            None => self.new_visit(runner, state, above, kind, marks),
        }
    }

    /// The same where it isn't remembered: out of line, since that is seldom so.
    #[inline(never)]
    fn new_visit(
        &mut self,
        runner: &Runner<'_, 'b>,
        state: u32,
        above: u32,
        kind: Kind,
        marks: Marks,
    ) -> Visit<'b>
        requires met { IsMetBy runner.now above (see_letter kind marks) }
        requires state { IsSomeMove (told_by runner.now) state }
        requires known { AreFoundBy runner.now self.old }
        ensures known { AreFoundBy runner.now self.new }
        ensures visit { IsVisit runner.now state above kind marks result }
    {
        let visit = Visit {
            template: template_at(runner, &self.leaves, state, above, kind, marks),
            next: next_states(runner, state, above, kind, marks),
        };
        self.remember(state, above, kind, marks, visit);
        visit
    }
}
