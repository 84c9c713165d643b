// What is put out, and what it costs.
ghost use Rattle.std.specs.Prelude.{◌≡◌, ◌+◌, ◌<◌, ◌≤◌, ◌++◌, ◌∷◌, [], ℕ, IfOk, OnOk, IfErr};
ghost use Rattle.tc_model.specs.Outcomes.{put as put_text};
ghost use Rattle.tc_model.specs.Views.{name as see_name};
ghost use Rattle.tc_model.specs.Trees as t;
ghost use Rattle.tc_model.specs.Chains.{joined_texts};
ghost use Rattle.tc_run.specs.Hits.{value_of};
ghost use Rattle.tc_run.specs.Lettered.{bare};
ghost use Rattle.tc_run.specs.Spent.{Answers, IsPassed};
ghost use Rattle.tc_run.specs.Taken.{Takes, Starts, Ends};
ghost use Rattle.tc_run.specs.Views as l;

use crate::RunFault;
use crate::letters::{Lettered, joined_text};
use crate::looks::Hit;
use bumpalo::Bump;
use bumpalo::collections::into_bump_slice;
use std::mem;
use tc_base::NoMemory;
use tc_base::limits::{MOST_OPEN, MOST_WORK};
use tc_model::{Name, Node};
use tc_print::Writer;

/// What takes what is put out: trees beside one another, or the text of their normal form.
#[derive(Drop)]
pub(crate) enum Taken<'b> {
    Trees(Vec<Node<'b>, &'b Bump>),
    Text(Writer<'b>),
}

/// What stands around an element that has started: the trees before it, or the default namespace that is in force there.
#[derive(Drop)]
pub(crate) struct Outside<'b> {
    nodes: Vec<Node<'b>, &'b Bump>,
    default: &'b str,
}

/// One more tree. The first takes room for itself alone, since most elements hold one tree.
fn push<'b>(nodes: &mut Vec<Node<'b>, &'b Bump>, node: Node<'b>) -> Result<(), NoMemory>
    ensures { OnOk result (nodes.new.items ≡ nodes.old.items ++ node.entry ∷ []) }
{
    if nodes.is_empty() {
        nodes.reserve_exact(1)?;
    }
    nodes.push(node)?;
    Ok(())
}

impl<'b> Taken<'b> {
    /// Takes a text.
    #[tactic(auto, using(tc_model::proofs::Views::pushed_text))]
    fn text(&mut self, text: &'b str) -> Result<(), NoMemory>
        ensures { OnOk result (Takes self.old (t.text text.now t.none) self.new) }
    {
        match self {
            Taken::Trees(nodes) => push(nodes, Node::Text(text)),
            Taken::Text(writer) => writer.text(text),
        }
    }

    /// Takes the start of an element, and gives what stands around it.
    fn start(&mut self, arena: &'b Bump, name: &Name<'b>) -> Result<Outside<'b>, NoMemory>
        ensures { IfOk result
            (λ outside. Starts self.old (see_name name.now) outside self.new) }
    {
        match self {
            Taken::Trees(nodes) => Ok(Outside {
                nodes: mem::replace(nodes, Vec::new(arena)),
                default: "",
            }),
            Taken::Text(writer) => {
                let default = writer.start(name)?;
                Ok(Outside {
                    nodes: Vec::new(arena),
                    default,
                })
            }
        }
    }

    /// Takes the end of an element, around which this stands.
    #[tactic(auto, using(tc_model::proofs::Views::pushed_elem))]
    fn end(&mut self, name: &Name<'b>, outside: Outside<'b>) -> Result<(), NoMemory>
        ensures { OnOk result (Ends self.old (see_name name.now) outside.entry self.new) }
    {
        match self {
            Taken::Trees(nodes) => {
                let inside = into_bump_slice(mem::replace(nodes, outside.nodes));
                push(nodes, Node::Elem(*name, inside))
            }
            Taken::Text(writer) => writer.end(name, outside.default),
        }
    }
}

/// What was put out so far, and all work that was done.
#[derive(Drop)]
pub(crate) struct Output<'b> {
    arena: &'b Bump,
    pub(crate) taken: Taken<'b>,
    pub(crate) work: u32,
}

/// Within one more body or instruction.
pub(crate) fn deeper(nesting: u32) -> Result<u32, RunFault>
    ensures ok { IfOk result (λ n. (n ≡ nesting + 1) × (n ≤ MOST_OPEN)) }
    ensures err { IfErr result (λ e. (e ≡ RunFault.TooOpen) × (MOST_OPEN < nesting + 1)) }
{
    if nesting < MOST_OPEN {
        Ok(nesting + 1)
    } else {
        Err(RunFault::TooOpen)
    }
}

impl<'b> Output<'b> {
    /// Nothing is put out yet behind what was taken before.
    pub(crate) fn new(arena: &'b Bump, taken: Taken<'b>) -> Output<'b>
        ensures taken { result.taken ≡ taken.entry }
        ensures work { result.work ≡ 0 }
    {
        Output {
            arena,
            taken,
            work: 0,
        }
    }

    /// One more body, element or text.
    pub(crate) fn count(&mut self) -> Result<(), RunFault>
        ensures ok { OnOk result
            ((self.new.work ≡ self.old.work + 1) × (self.new.work ≤ MOST_WORK)) }
        ensures taken { OnOk result (self.new.taken ≡ self.old.taken) }
        ensures err { IfErr result
            (λ e. (e ≡ RunFault.TooMuchWork) × (MOST_WORK < self.old.work + 1)) }
    {
        if self.work < MOST_WORK {
            self.work += 1;
            Ok(())
        } else {
            Err(RunFault::TooMuchWork)
        }
    }

    /// One more text, where it has a character.
    pub(crate) fn put(&mut self, text: &'b str) -> Result<(), RunFault>
        requires { self.old.work ≤ MOST_WORK }
        ensures few { OnOk result (self.new.work ≤ MOST_WORK) }
        ensures outcome { (around : ℕ) → around ≤ MOST_OPEN
            → Answers around self.old self.new result (put_text text.now) }
    {
        if text.is_empty() {
            return Ok(());
        }
        self.count()?;
        self.taken.text(text)?;
        Ok(())
    }

    /// The texts in trees, joined.
    pub(crate) fn put_joined(&mut self, nodes: &'b [Lettered<'b>]) -> Result<(), RunFault>
        requires { self.old.work ≤ MOST_WORK }
        ensures few { OnOk result (self.new.work ≤ MOST_WORK) }
        ensures outcome { (around : ℕ) → around ≤ MOST_OPEN
            → Answers around self.old self.new result
            (put_text (joined_texts (bare (l.trees nodes.now)))) }
    {
        let text = joined_text(self.arena, nodes)?;
        self.put(text)
    }

    /// The string-value of a node that was selected, if one was.
    pub(crate) fn put_value(&mut self, hit: Option<Hit<'b>>) -> Result<(), RunFault>
        requires { self.old.work ≤ MOST_WORK }
        ensures few { OnOk result (self.new.work ≤ MOST_WORK) }
        ensures outcome { (around : ℕ) → around ≤ MOST_OPEN
            → Answers around self.old self.new result (put_text (value_of hit.entry)) }
    {
        match hit {
            None => self.put(""),
            Some(Hit::Text(text)) => self.put(text),
            Some(Hit::Elem(kids)) => self.put_joined(kids),
        }
    }

    /// Goes inside an element, and gives what stands around it.
    pub(crate) fn enter(&mut self, name: &Name<'b>) -> Result<Outside<'b>, RunFault>
        ensures starts { IfOk result
            (λ outside. Starts self.old.taken (see_name name.now) outside self.new.taken) }
        ensures work { OnOk result
            ((self.new.work ≡ self.old.work + 1) × (self.new.work ≤ MOST_WORK)) }
        ensures err { IfErr result (λ e. IsPassed e (self.old.work + 1) 0) }
    {
        self.count()?;
        let outside = self.taken.start(self.arena, name)?;
        Ok(outside)
    }

    /// Goes back outside: the element stands around what was put out inside it.
    pub(crate) fn leave(&mut self, name: &Name<'b>, outside: Outside<'b>) -> Result<(), RunFault>
        ensures ends { OnOk result
            (Ends self.old.taken (see_name name.now) outside.entry self.new.taken) }
        ensures work { OnOk result (self.new.work ≡ self.old.work) }
        ensures err { IfErr result (λ e. e ≡ RunFault.NoMemory) }
    {
        self.taken.end(name, outside)?;
        Ok(())
    }
}
