// Bodies for nodes without children. Nothing is selected there, and of the instructions that do no more than select one is as good as
// thousands: it keeps the nesting.
ghost use Rattle.std.specs.Prelude.{◌≡◌, ℕ, List, IfOk, IsTrue, Some, slice_get};
ghost use Rattle.tc_model.specs.Sheets.{Rule, Sheet, no_instruction};
ghost use Rattle.tc_model.specs.Views as see;
ghost use Rattle.tc_run.specs.Idle.{IsBodyOn};
ghost use Rattle.tc_run.specs.Leaves.{AreAlike, AreLeaves, IsIdleOnLeaves};
ghost use Rattle.tc_run.specs.Running.{IsRunner, sheet_by};

use crate::bodies::Context;
use crate::runner::Runner;
use bumpalo::Bump;
use bumpalo::collections::into_bump_slice;
use tc_base::NoMemory;
use tc_model::Instr;

/// The most instructions that are gone through for such bodies, which bounds the memory that they take.
const MOST_TAKEN: usize = 65_536;

/// A body, and one that does the same on nodes without children.
#[derive(Clone, Copy)]
pub(crate) struct Bodies<'b> {
    pub(crate) whole: &'b [Instr<'b>],
    pub(crate) on_leaf: &'b [Instr<'b>],
}

/// Whether an instruction is seen to do nothing on nodes without children.
fn is_idle_on_leaves(instruction: &Instr<'_>) -> bool
    ensures { IsTrue result → IsIdleOnLeaves (see.instruction instruction.now no_instruction) }
{
    match instruction {
        Instr::Apply(_, _) => true,
        Instr::ForEach(_, _, _) => true,
        Instr::ValueOf(_) => true,
        _ => false,
    }
}

/// A body that does the same on nodes without children. So many instructions are left to be gone through.
#[cycle(leaves)]
fn leaf_body<'b>(
    arena: &'b Bump,
    body: &'b [Instr<'b>],
    left: &mut usize,
) -> Result<&'b [Instr<'b>], NoMemory>
    ensures { IfOk result (λ leaf. AreAlike (see.body body.now) (see.body leaf.now)) }
{
    if body.len() > *left {
        return Ok(body);
    }
    *left -= body.len();
    let mut kept = Vec::new(arena);
    for one in body {
        if !kept.is_empty() && is_idle_on_leaves(one) {
            continue;
        }
        let leaf = leaf_instruction(arena, one, left)?;
        kept.push(leaf)?;
    }
    Ok(into_bump_slice(kept))
}

/// The same of one instruction.
#[cycle(leaves)]
fn leaf_instruction<'b>(
    arena: &'b Bump,
    instruction: &'b Instr<'b>,
    left: &mut usize,
) -> Result<Instr<'b>, NoMemory>
    ensures { IfOk result (λ leaf. AreAlike (see.instruction instruction.now no_instruction)
        (see.instruction leaf no_instruction)) }
{
    match instruction {
        Instr::Elem(name, inner) => {
            let leaf = leaf_body(arena, inner, left)?;
            Ok(Instr::Elem(*name, leaf))
        }
        Instr::Copy(inner) => {
            let leaf = leaf_body(arena, inner, left)?;
            Ok(Instr::Copy(leaf))
        }
        _ => Ok(*instruction),
    }
}

impl<'b> Bodies<'b> {
    /// The same body on all nodes.
    pub(crate) fn alone(whole: &'b [Instr<'b>]) -> Bodies<'b>
        ensures whole { result.whole ≡ whole.entry }
        ensures on_leaf { result.on_leaf ≡ whole.entry }
    {
        Bodies {
            whole,
            on_leaf: whole,
        }
    }

    /// That for the current node.
    pub(crate) fn on(&self, here: &Context<'b>) -> &'b [Instr<'b>]
        ensures { IsBodyOn self.now here.now result }
    {
        if here.kids.is_empty() {
            self.on_leaf
        } else {
            self.whole
        }
    }
}

/// The bodies of rules on nodes without children, by the numbers of the rules.
#[derive(Drop)]
pub(crate) struct Leaves<'b> {
    bodies: Vec<&'b [Instr<'b>], &'b Bump>,
}

impl<'b> Leaves<'b> {
    /// Those of all rules.
    ///
    /// # Errors
    ///
    /// There is no memory for them.
    pub(crate) fn new(arena: &'b Bump, runner: &Runner<'_, 'b>) -> Result<Leaves<'b>, NoMemory>
        requires { IsRunner runner.now }
        ensures { IfOk result (λ leaves. AreLeaves (sheet_by runner.now) leaves) }
    {
        let rules = runner.rules.sheet().rules;
        let mut bodies = Vec::new(arena);
        let mut left = MOST_TAKEN;
        for rule in rules {
            let body = leaf_body(arena, rule.body, &mut left)?;
            bodies.push(body)?;
        }
        Ok(Leaves { bodies })
    }

    /// Both bodies of the rule of a number.
    pub(crate) fn bodies_of(&self, number: u32, whole: &'b [Instr<'b>]) -> Bodies<'b>
        ensures whole { result.whole ≡ whole.entry }
        ensures alike { (s : Sheet) (rule : Rule) → AreLeaves s self.now
            → slice_get s.rules number ≡ Some rule → rule.body ≡ see.body whole.now
            → AreAlike (see.body whole.now) (see.body result.on_leaf.now) }
    {
        match self.bodies.get(number as usize) {
            None => Bodies::alone(whole),
            Some(on_leaf) => Bodies {
                whole,
                on_leaf: *on_leaf,
            },
        }
    }
}
