// Moves to all children, which most rules make: their first states are found once for each mode.
ghost use Rattle.std.specs.Prelude.{◌≡◌, false, IfOk, IfSome, IsTrue};
ghost use Rattle.tc_model.specs.Meaning.{all_children as all_children_of};
ghost use Rattle.tc_model.specs.Sheets as s;
ghost use Rattle.tc_model.specs.Views as see;
ghost use Rattle.tc_run.specs.ChildMoves.{AreFirst, IsFirst};
ghost use Rattle.tc_run.specs.Running.{IsRunner};
ghost use Rattle.tc_run.specs.declared.runner.Runner.{Runner as RunnerOf};

use crate::runner::Runner;
use bumpalo::Bump;
use tc_base::NoMemory;
use tc_model::{NodeTest, Path, Step, Test};
use tc_rules::Job;

/// All children of a node.
static ALL_CHILDREN: Path<'static> = Path {
    alts: &[&[Step {
        deep: false,
        test: NodeTest::Node,
        when: Test::True,
    }]],
};

/// The path to all children: what a built-in rule selects (XSLT 1.0, 5.8).
pub(crate) fn all_children<'b>() -> &'b Path<'b>
    ensures { see.path result.now ≡ all_children_of }
{
    &ALL_CHILDREN
}

/// Whether a step is seen to go to all children.
fn goes_to_all(step: &Step<'_>) -> bool
    ensures { IsTrue result → (rest : s.Steps)
        → s.step step.now.deep (see.node_test step.now.test) (see.test step.now.when) rest
        ≡ s.step false s.any_node s.always rest }
{
    if step.deep {
        return false;
    }
    match (&step.test, &step.when) {
        (NodeTest::Node, Test::True) => true,
        _ => false,
    }
}

/// Whether a path is seen to be that to all children.
fn is_all_children(path: &Path<'_>) -> bool
    ensures { IsTrue result → see.path path.now ≡ all_children_of }
{
    if path.alts.len() != 1 {
        return false;
    }
    let steps = path.alts[0];
    if steps.len() != 1 {
        return false;
    }
    goes_to_all(&steps[0])
}

/// The first states of moves to all children, by their modes.
#[derive(Drop)]
pub(crate) struct ChildMoves<'b> {
    states: Vec<Option<u32>, &'b Bump>,
}

impl<'b> ChildMoves<'b> {
    /// Those of all modes.
    ///
    /// # Errors
    ///
    /// There is no memory for them.
    pub(crate) fn new(arena: &'b Bump, runner: &Runner<'_, 'b>) -> Result<ChildMoves<'b>, NoMemory>
        requires { IsRunner runner.now }
        ensures { IfOk result (λ moves. AreFirst runner.now moves) }
    {
        let mut states = Vec::new(arena);
        for mode in 0..runner.rules.sheet().modes {
            let first = runner.rules.move_first(all_children(), Job::Mode(mode));
            states.push(first)?;
        }
        Ok(ChildMoves { states })
    }

    /// The first state of a move, if it is one to all children.
    pub(crate) fn first_of(&self, path: &Path<'_>, job: Job) -> Option<u32>
        ensures { (r : RunnerOf) → AreFirst r self.now
            → IfSome result (IsFirst r (see.path path.now) job) }
    {
        let Job::Mode(mode) = job else {
            return None;
        };
        if !is_all_children(path) {
            return None;
        }
        *self.states.get(mode as usize)?
    }
}
