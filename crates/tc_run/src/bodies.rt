// What bodies put out (XSLT 1.0, 5 to 9).
//
// A node is known by its children with their letters and by the ancestor state at it. Each function puts out into `output`, and is given
// how many bodies and instructions stand around what it does, and what is remembered of nodes.
ghost use Rattle.std.specs.Borrow.{Bor};
ghost use Rattle.std.specs.Prelude.{◌≡◌, ◌≤◌, ◌<◌, ℕ, List, cond, Contains, is_some, IfSome, IsFalse, IsTrue, OnOk};
ghost use Rattle.tc_base.specs.declared.limits.TheConstants.{MOST_OPEN, MOST_WORK};
ghost use Rattle.tc_model.specs.Chains as c;
ghost use Rattle.tc_model.specs.Chains.{string_value};
ghost use Rattle.tc_model.specs.Letters as letters;
ghost use Rattle.tc_model.specs.Machine.{CallFreeJob, in_mode, first_hit as first_hit_of, does_in, does_at, takes_in};
ghost use Rattle.tc_model.specs.Meaning.{value_of_first};
ghost use Rattle.tc_model.specs.Numberings.{looks_of, moves_of};
ghost use Rattle.tc_model.specs.Outcomes.{Outcome, nothing, counted, put as put_text, put_around, copied};
ghost use Rattle.tc_model.specs.Views as see;
ghost use Rattle.tc_model.specs.Sheets.{no_instruction, otherwise, CallFreeBody, CallFreeBranches, Inlines, BranchesInline};
ghost use Rattle.tc_model.specs.Trees as t;
ghost use Rattle.tc_rules.specs.Asked.{letter as see_letter};
ghost use Rattle.tc_rules.specs.Views.{mode_of};
ghost use Rattle.tc_rules.specs.States.{Going};
ghost use Rattle.tc_run.specs.Lettered as l;
ghost use Rattle.tc_rules.specs.Parts.{IsPart, ArePartBranches};
ghost use Rattle.tc_run.specs.Running.{IsLetteredBy, HasBodies, told_by, sheet_by, symbols_by, predicates_by, machine, looking};
ghost use Rattle.tc_run.specs.Ready.{IsDocument, IsAt, IsReadyOn, IsReadyBelow, StaysReady};
ghost use Rattle.tc_run.specs.Hits.{value_of};
ghost use Rattle.tc_run.specs.Idle.{IsIdleOn};
ghost use Rattle.tc_run.specs.Sights.{AreSeenBy};
ghost use Rattle.tc_run.specs.Views.{trees, before, node};
ghost use Rattle.tc_run.specs.Spent.{Answers};
ghost use Rattle.tc_rules.specs.Tasks.{IsTaskOf, IsMoveAt, going_from, looking_from};
ghost use Rattle.tc_run.specs.Tasks.{IsMeantBy, IsPartTemplate, built_in as built_in_of, does, outputs_on};

use crate::RunFault;
use crate::children::all_children;
use crate::leaves::Bodies;
use crate::letters::Lettered;
use crate::looks::{Hit, first_hit, holds};
use crate::output::{Output, deeper};
use crate::runner::Runner;
use crate::sights::KnownSights;
use crate::visits::{KnownNodes, Template, template_of};
use bumpalo::Bump;
use tc_base::limits::MOST_OPEN;
use tc_model::{Branch, Instr, Name, Path};
use tc_rules::{Job, Kind, Marks};

/// What a node is.
#[derive(Clone, Copy)]
pub(crate) enum Shape<'b> {
    Root,
    Elem(Name<'b>),
    Text(&'b str),
}

/// The current node: what it is, its children, and the ancestor state for them.
#[derive(Clone, Copy)]
pub(crate) struct Context<'b> {
    pub(crate) shape: Shape<'b>,
    pub(crate) kids: &'b [Lettered<'b>],
    pub(crate) above: u32,
}

/// The rule of the root in the default mode.
pub(crate) fn root<'b>(
    arena: &'b Bump,
    runner: &Runner<'_, 'b>,
    nodes: &'b [Lettered<'b>],
    output: &mut Output<'b>,
) -> Result<(), RunFault>
    requires document { IsDocument runner.now (trees nodes.now) }
    requires work { output.old.work ≤ MOST_WORK }
    ensures few { OnOk result (output.new.work ≤ MOST_WORK) }
    ensures outcome { (bodies : List CallFreeBody) → HasBodies runner.now bodies
        → Answers 0 output.old output.new result
        (counted
        (does_at (machine runner.now bodies) ((machine runner.now bodies).root_body (in_mode 0))
        (c.top (l.bare (trees nodes.now))))) }
{
    let here = Context {
        shape: Shape::Root,
        kids: nodes,
        above: 0,
    };
    let found = runner.rules.root_rule(0);
    let mut known = KnownNodes::new(arena, runner)?;
    let rule = template_of(runner, &known.leaves, 0, found);
    let done = instantiate(runner, rule, &here, 0, output, &mut known);
    drop(known);
    done
}

/// Instantiates a body that counts, if there is one.
#[cycle(bodies)]
fn instantiate_some<'b>(
    runner: &Runner<'_, 'b>,
    meant: Option<Template<'b>>,
    here: &Context<'b>,
    nesting: u32,
    output: &mut Output<'b>,
    known: &mut KnownNodes<'b>,
) -> Result<(), RunFault>
    requires ready { IsReadyOn runner.now here.now known.old output.old.work nesting }
    requires meant { IfSome meant (IsPartTemplate (sheet_by runner.now)) }
    ensures ready { StaysReady runner.now known.new output.new.work result }
    ensures outcome { (bodies : List CallFreeBody) (p : CallFreeBody) → HasBodies runner.now bodies
        → IfSome meant.entry (λ t. IsMeantBy (sheet_by runner.now).named (node here.now) t p)
        → Answers nesting output.old output.new result
        (cond (is_some meant.entry) (counted (does runner.now bodies p here.now)) nothing) }
{
    match meant {
        None => Ok(()),
        Some(template) => instantiate(runner, template, here, nesting, output, known),
    }
}

/// Instantiates a body that counts.
#[cycle(bodies)]
fn instantiate<'b>(
    runner: &Runner<'_, 'b>,
    meant: Template<'b>,
    here: &Context<'b>,
    nesting: u32,
    output: &mut Output<'b>,
    known: &mut KnownNodes<'b>,
) -> Result<(), RunFault>
    requires ready { IsReadyOn runner.now here.now known.old output.old.work nesting }
    requires meant { IsPartTemplate (sheet_by runner.now) meant }
    ensures ready { StaysReady runner.now known.new output.new.work result }
    ensures outcome { (bodies : List CallFreeBody) (p : CallFreeBody) → HasBodies runner.now bodies
        → IsMeantBy (sheet_by runner.now).named (node here.now) meant.entry p
        → Answers nesting output.old output.new result
        (counted (does runner.now bodies p here.now)) }
{
    let nesting = deeper(nesting)?;
    output.count()?;
    match meant {
        Template::Body(bodies) => body(runner, bodies.on(here), here, nesting, output, known),
        Template::BuiltIn(mode) => built_in(runner, mode, here, nesting, output, known),
    }
}

/// The built-in rules: the children of the root and of elements in the same mode; a text is copied (XSLT 1.0, 5.8).
#[cycle(bodies)]
fn built_in<'b>(
    runner: &Runner<'_, 'b>,
    mode: u32,
    here: &Context<'b>,
    nesting: u32,
    output: &mut Output<'b>,
    known: &mut KnownNodes<'b>,
) -> Result<(), RunFault>
    requires ready { IsReadyOn runner.now here.now known.old output.old.work nesting }
    requires mode { mode < (sheet_by runner.now).modes }
    ensures ready { StaysReady runner.now known.new output.new.work result }
    ensures outcome { (bodies : List CallFreeBody) → HasBodies runner.now bodies
        → Answers nesting output.old output.new result
        (does runner.now bodies (built_in_of mode (node here.now)) here.now) }
{
    let nesting = deeper(nesting)?;
    match here.shape {
        Shape::Text(text) => output.put(text),
        _ => {
            let path = all_children();
            selected(runner, path, Job::Mode(mode), here, nesting, output, known)
        }
    }
}

/// The instructions of a body, one after the other.
#[cycle(bodies)]
fn body<'b>(
    runner: &Runner<'_, 'b>,
    body: &'b [Instr<'b>],
    here: &Context<'b>,
    nesting: u32,
    output: &mut Output<'b>,
    known: &mut KnownNodes<'b>,
) -> Result<(), RunFault>
    requires ready { IsReadyOn runner.now here.now known.old output.old.work nesting }
    requires part { IsPart (sheet_by runner.now) (see.body body.now) }
    ensures ready { StaysReady runner.now known.new output.new.work result }
    ensures outcome { (bodies : List CallFreeBody) (p : CallFreeBody) → HasBodies runner.now bodies
        → Inlines (sheet_by runner.now).named (see.body body.now) p
        → Answers nesting output.old output.new result
        (does runner.now bodies p here.now) }
{
    for one in body {
        if is_idle(one, here, nesting) {
            continue;
        }
        instruction(runner, one, here, nesting, output, known)?;
    }
    Ok(())
}

/// Whether an instruction is seen to put nothing out here: where no child is, nothing is selected. A body may have thousands of these,
/// and no work counts them.
fn is_idle(instruction: &Instr<'_>, here: &Context<'_>, nesting: u32) -> bool
    ensures { IsTrue result → IsIdleOn here.now nesting (see.instruction instruction.now no_instruction) }
{
    if !here.kids.is_empty() || nesting >= MOST_OPEN {
        return false;
    }
    match instruction {
        Instr::Apply(_, _) => true,
        Instr::ForEach(_, _, _) => true,
        Instr::ValueOf(_) => true,
        Instr::ValueOfSelf => !is_text(here),
        _ => false,
    }
}

/// Whether the current node is a text.
fn is_text(here: &Context<'_>) -> bool
    ensures { IsFalse result → (text : Bor (List ℕ)) → here.now.shape ≡ Shape.Text text → ⊥ }
{
    match here.shape {
        Shape::Text(_) => true,
        _ => false,
    }
}

/// One instruction.
#[cycle(bodies)]
fn instruction<'b>(
    runner: &Runner<'_, 'b>,
    instruction: &'b Instr<'b>,
    here: &Context<'b>,
    nesting: u32,
    output: &mut Output<'b>,
    known: &mut KnownNodes<'b>,
) -> Result<(), RunFault>
    requires ready { IsReadyOn runner.now here.now known.old output.old.work nesting }
    requires part { IsPart (sheet_by runner.now) (see.instruction instruction.now no_instruction) }
    ensures ready { StaysReady runner.now known.new output.new.work result }
    ensures outcome { (bodies : List CallFreeBody) (p : CallFreeBody) → HasBodies runner.now bodies
        → Inlines (sheet_by runner.now).named (see.instruction instruction.now no_instruction) p
        → Answers nesting output.old output.new result
        (does runner.now bodies p here.now) }
{
    let nesting = deeper(nesting)?;
    match instruction {
        Instr::Text(text) => output.put(text),
        Instr::Elem(name, inner) => put_element(runner, *name, inner, here, nesting, output, known),
        Instr::Copy(inner) => copy(runner, inner, here, nesting, output, known),
        Instr::Apply(path, mode) => {
            selected(runner, path, Job::Mode(*mode), here, nesting, output, known)
        }
        Instr::Call(number) => {
            let called = Bodies::alone(runner.rules.sheet().named[*number as usize]);
            instantiate(runner, Template::Body(called), here, nesting, output, known)
        }
        Instr::ValueOf(path) => {
            let first = first_node(runner, path, here, &mut known.sights);
            output.put_value(first)
        }
        Instr::ValueOfSelf => put_self(here, output),
        Instr::Choose(branches, last) => {
            let chosen = chosen_branch(runner, branches, last, here, &mut known.sights);
            body(runner, chosen, here, nesting, output, known)
        }
        Instr::ForEach(number, path, _) => {
            selected(
                runner,
                path,
                Job::Each(*number),
                here,
                nesting,
                output,
                known,
            )
        }
    }
}

/// An element around what a body puts out.
#[cycle(bodies)]
fn put_element<'b>(
    runner: &Runner<'_, 'b>,
    name: Name<'b>,
    inner: &'b [Instr<'b>],
    here: &Context<'b>,
    nesting: u32,
    output: &mut Output<'b>,
    known: &mut KnownNodes<'b>,
) -> Result<(), RunFault>
    requires ready { IsReadyOn runner.now here.now known.old output.old.work nesting }
    requires part { IsPart (sheet_by runner.now) (see.body inner.now) }
    ensures ready { StaysReady runner.now known.new output.new.work result }
    ensures outcome { (bodies : List CallFreeBody) (p : CallFreeBody) → HasBodies runner.now bodies
        → Inlines (sheet_by runner.now).named (see.body inner.now) p
        → Answers nesting output.old output.new result
        (put_around (see.name name.entry) (does runner.now bodies p here.now)) }
{
    let outside = output.enter(&name)?;
    body(runner, inner, here, nesting, output, known)?;
    output.leave(&name, outside)
}

/// The current node without its children, around what a body puts out (XSLT 1.0, 7.5).
#[cycle(bodies)]
fn copy<'b>(
    runner: &Runner<'_, 'b>,
    inner: &'b [Instr<'b>],
    here: &Context<'b>,
    nesting: u32,
    output: &mut Output<'b>,
    known: &mut KnownNodes<'b>,
) -> Result<(), RunFault>
    requires ready { IsReadyOn runner.now here.now known.old output.old.work nesting }
    requires part { IsPart (sheet_by runner.now) (see.body inner.now) }
    ensures ready { StaysReady runner.now known.new output.new.work result }
    ensures outcome { (bodies : List CallFreeBody) (p : CallFreeBody) → HasBodies runner.now bodies
        → Inlines (sheet_by runner.now).named (see.body inner.now) p
        → Answers nesting output.old output.new result
        (copied (node here.now) (does runner.now bodies p here.now)) }
{
    match here.shape {
        Shape::Root => body(runner, inner, here, nesting, output, known),
        Shape::Elem(name) => put_element(runner, name, inner, here, nesting, output, known),
        Shape::Text(text) => output.put(text),
    }
}

/// The string-value of the current node.
fn put_self<'b>(here: &Context<'b>, output: &mut Output<'b>) -> Result<(), RunFault>
    requires { output.old.work ≤ MOST_WORK }
    ensures few { OnOk result (output.new.work ≤ MOST_WORK) }
    ensures outcome { (around : ℕ) → around ≤ MOST_OPEN
        → Answers around output.old output.new result (put_text (string_value (node here.now))) }
{
    match here.shape {
        Shape::Text(text) => output.put(text),
        _ => output.put_joined(here.kids),
    }
}

/// The node that a path selects first (XSLT 1.0, 7.6.1).
fn first_node<'b>(
    runner: &Runner<'_, 'b>,
    path: &Path<'_>,
    here: &Context<'b>,
    known: &mut KnownSights<'_>,
) -> Option<Hit<'b>>
    requires here { IsAt runner.now here.now known.old }
    requires path { Contains (looks_of (sheet_by runner.now)) (see.path path.now) }
    ensures known { AreSeenBy runner.now known.new }
    ensures value { value_of result
        ≡ value_of_first
        (first_hit_of (looking runner.now) (l.bare (trees here.now.kids.now))
        (looking_from (see.path path.now))) }
{
    match runner.rules.look_first(path) {
        None => None,
        Some(look) => first_hit(runner, here.kids, look, known),
    }
}

/// The body of the first branch whose test holds, or else the last (XSLT 1.0, 9).
fn chosen_branch<'b>(
    runner: &Runner<'_, 'b>,
    branches: &'b [Branch<'b>],
    last: &'b [Instr<'b>],
    here: &Context<'b>,
    known: &mut KnownSights<'_>,
) -> &'b [Instr<'b>]
    requires here { IsAt runner.now here.now known.old }
    requires part { ArePartBranches (sheet_by runner.now)
        (see.branches branches.now (otherwise (see.body last.now))) }
    ensures known { AreSeenBy runner.now known.new }
    ensures part { IsPart (sheet_by runner.now) (see.body result.now) }
    ensures chosen { (x : CallFreeBranches)
        → BranchesInline (sheet_by runner.now).named
        (see.branches branches.now (otherwise (see.body last.now))) x →
        (p : CallFreeBody) × Inlines (sheet_by runner.now).named (see.body result.now) p
        × ((bodies : List CallFreeBody) (outs : CallFreeJob → Going → Outcome)
        → takes_in (machine runner.now bodies) x (node here.now) outs
        ≡ does_in (machine runner.now bodies) p (node here.now) outs) }
{
    for branch in branches {
        if holds(runner, &branch.test, here.kids, known) {
            return branch.body;
        }
    }
    last
}

/// A job on all nodes that a path selects.
#[cycle(bodies)]
fn selected<'b>(
    runner: &Runner<'_, 'b>,
    path: &Path<'_>,
    job: Job,
    here: &Context<'b>,
    nesting: u32,
    output: &mut Output<'b>,
    known: &mut KnownNodes<'b>,
) -> Result<(), RunFault>
    requires ready { IsReadyOn runner.now here.now known.old output.old.work nesting }
    requires path { Contains (moves_of (sheet_by runner.now))
        (record { path = see.path path.now; mode = mode_of (sheet_by runner.now).modes job }) }
    ensures ready { StaysReady runner.now known.new output.new.work result }
    ensures outcome { (bodies : List CallFreeBody) (k : CallFreeJob) → HasBodies runner.now bodies
        → IsTaskOf (sheet_by runner.now) (mode_of (sheet_by runner.now).modes job) k
        → Answers nesting output.old output.new result
        (outputs_on runner.now bodies (c.children (node here.now)) here.now.above
        (going_from k (see.path path.now))) }
{
    match known.first_of(runner, path, job) {
        None => Ok(()),
        Some(state) => apply_to_trees(runner, here.kids, here.above, state, nesting, output, known),
    }
}

/// The job of a move on all nodes in trees and below that it selects, by the states above them.
#[cycle(bodies)]
fn apply_to_trees<'b>(
    runner: &Runner<'_, 'b>,
    nodes: &'b [Lettered<'b>],
    above: u32,
    state: u32,
    nesting: u32,
    output: &mut Output<'b>,
    known: &mut KnownNodes<'b>,
) -> Result<(), RunFault>
    requires ready { IsReadyBelow runner.now above state known.old output.old.work nesting }
    requires nodes { IsLetteredBy runner.now (trees nodes.now) }
    ensures ready { StaysReady runner.now known.new output.new.work result }
    ensures outcome { (bodies : List CallFreeBody) (g : Going) → HasBodies runner.now bodies
        → IsMoveAt (told_by runner.now) state g → Answers nesting output.old output.new result
        (outputs_on runner.now bodies (l.bare (trees nodes.now)) above g) }
{
    for node in nodes {
        apply_to_tree(runner, node, above, state, nesting, output, known)?;
    }
    Ok(())
}

/// The same in one tree.
#[cycle(bodies)]
fn apply_to_tree<'b>(
    runner: &Runner<'_, 'b>,
    node: &'b Lettered<'b>,
    above: u32,
    state: u32,
    nesting: u32,
    output: &mut Output<'b>,
    known: &mut KnownNodes<'b>,
) -> Result<(), RunFault>
    requires ready { IsReadyBelow runner.now above state known.old output.old.work nesting }
    requires node { IsLetteredBy runner.now (before node.now l.none) }
    ensures ready { StaysReady runner.now known.new output.new.work result }
    ensures outcome { (bodies : List CallFreeBody) (g : Going) → HasBodies runner.now bodies
        → IsMoveAt (told_by runner.now) state g → Answers nesting output.old output.new result
        (outputs_on runner.now bodies (l.bare (before node.now l.none)) above g) }
{
    match node {
        Lettered::Text(text, marks) => {
            apply_to_text(runner, text, *marks, above, state, nesting, output, known)
        }
        Lettered::Elem(name, letter, kids) => {
            let kind = Kind::Elem(letter.sym);
            let visit = known.visit(runner, state, above, kind, letter.marks);
            let here = Context {
                shape: Shape::Elem(**name),
                kids: *kids,
                above: visit.next.above,
            };
            instantiate_some(runner, visit.template, &here, nesting, output, known)?;
            match visit.next.state {
                None => Ok(()),
                Some(below) => apply_to_trees(
                    runner, kids, here.above, below, nesting, output, known,
                ),
            }
        }
    }
}

/// The job of a move on a text, where it selects it.
#[cycle(bodies)]
fn apply_to_text<'b>(
    runner: &Runner<'_, 'b>,
    text: &'b str,
    marks: Marks,
    above: u32,
    state: u32,
    nesting: u32,
    output: &mut Output<'b>,
    known: &mut KnownNodes<'b>,
) -> Result<(), RunFault>
    requires ready { IsReadyBelow runner.now above state known.old output.old.work nesting }
    requires marks { see_letter Kind.Text marks
        ≡ letters.letter_of (symbols_by runner.now) (predicates_by runner.now) (c.a_text text.now) }
    ensures ready { StaysReady runner.now known.new output.new.work result }
    ensures outcome { (bodies : List CallFreeBody) (g : Going) → HasBodies runner.now bodies
        → IsMoveAt (told_by runner.now) state g → Answers nesting output.old output.new result
        (outputs_on runner.now bodies (t.text text.now t.none) above g) }
{
    let visit = known.visit(runner, state, above, Kind::Text, marks);
    let here = Context {
        shape: Shape::Text(text),
        kids: &[],
        above,
    };
    instantiate_some(runner, visit.template, &here, nesting, output, known)
}
