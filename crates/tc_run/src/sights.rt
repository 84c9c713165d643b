// What looks see of nodes, by their letters. Some of it is remembered, since many nodes have the same letter: each entry is true, so
// that one is overwritten changes no answer.
ghost use Rattle.std.specs.Prelude.{◌≡◌, ◌<◌, List, true, IfOk, IfSome};
ghost use Rattle.tc_model.specs.Letters.{IsLetter};
ghost use Rattle.tc_model.specs.Trees.{Trees};
ghost use Rattle.tc_rules.specs.Asked.{letter as see_letter};
ghost use Rattle.tc_rules.specs.Tasks.{IsSomeLook};
ghost use Rattle.tc_run.specs.Running.{Guide, IsRunner, told_by, symbols_by, predicates_by};
ghost use Rattle.tc_run.specs.Sights.{AreSeenBy, AreSeenUnder, IsSight, LeadsFor};
ghost use Rattle.tc_run.specs.declared.runner.Runner.{Runner as RunnerOf};

use crate::findings::Findings;
use crate::runner::Runner;
use bumpalo::Bump;
use tc_base::NoMemory;
use tc_rules::{Kind, Marks};

/// How many sights are remembered.
const REMEMBERED: usize = 1024;

/// What a look sees of a node: whether it selects the node, and the state of the look below, if it selects a node there.
#[derive(Clone, Copy)]
pub(crate) struct Sight {
    pub(crate) hit: bool,
    pub(crate) below: Option<u32>,
}

/// What a look saw of a node of a letter.
#[derive(Clone, Copy)]
struct Seen {
    look: u32,
    kind: Kind,
    marks: Marks,
    sight: Sight,
}

/// Some of what looks saw. It is forgotten where something else comes to its place.
#[derive(Drop)]
pub(crate) struct KnownSights<'b> {
    places: Vec<Option<Seen>, &'b Bump>,
    /// What looks found below elements.
    pub(crate) findings: Findings<'b>,
}

/// The state of a look below an element of a letter. Below a text stands nothing.
fn below(runner: &Runner<'_, '_>, look: u32, kind: Kind, marks: Marks) -> Option<u32>
    requires runner { IsRunner runner.now }
    requires letter { IsLetter (symbols_by runner.now) (predicates_by runner.now)
        (see_letter kind marks) }
    requires look { IsSomeLook (told_by runner.now) look }
    ensures { LeadsFor runner.now look kind marks result }
{
    match kind {
        Kind::Text => None,
        Kind::Elem(sym) => runner.rules.sel_step(look, sym, marks),
    }
}

/// Where what a look sees of a node is remembered.
fn place_of(look: u32, kind: Kind, marks: Marks) -> usize
    ensures { result < 1024 }
{
    let symbol = match kind {
        Kind::Elem(sym) => sym.0 as usize + 1,
        Kind::Text => 0,
    };
    (symbol * 71 + look as usize * 1021 + marks.0 as usize * 389) % REMEMBERED
}

/// True only of kinds that are the same.
pub(crate) fn same_kind(a: Kind, b: Kind) -> bool
    ensures { result ≡ true → a ≡ b }
{
    match (a, b) {
        (Kind::Elem(a), Kind::Elem(b)) => a.0 == b.0,
        (Kind::Text, Kind::Text) => true,
        _ => false,
    }
}

impl<'b> KnownSights<'b> {
    /// None is remembered.
    ///
    /// # Errors
    ///
    /// There is no memory for what will be remembered.
    pub(crate) fn new(arena: &'b Bump) -> Result<KnownSights<'b>, NoMemory>
        ensures { IfOk result
            (λ k. (g : Guide) (numbered : List Trees) → AreSeenUnder g numbered k) }
    {
        let places = vec![in arena; None; REMEMBERED]?;
        let findings = Findings::new(arena);
        Ok(KnownSights { places, findings })
    }

    /// What a look sees of a node of a letter, if it is remembered.
    fn remembered(&self, look: u32, kind: Kind, marks: Marks) -> Option<Sight>
        ensures { (r : RunnerOf) → AreSeenBy r self.now
            → IfSome result (λ v. IsSight r look kind marks v) }
    {
        let place = place_of(look, kind, marks);
        if place >= self.places.len() {
            return None;
        }
        let seen = self.places[place]?;
        if seen.look == look && same_kind(seen.kind, kind) && seen.marks.0 == marks.0 {
            Some(seen.sight)
        } else {
            None
        }
    }

    /// Remembers what a look sees of a node of a letter.
    fn remember(&mut self, look: u32, kind: Kind, marks: Marks, sight: Sight)
        ensures { (r : RunnerOf) → AreSeenBy r self.old → IsSight r look kind marks sight
            → AreSeenBy r self.new }
    {
        let place = place_of(look, kind, marks);
        if place >= self.places.len() {
            return;
        }
        self.places[place] = Some(Seen {
            look,
            kind,
            marks,
            sight,
        });
    }

    /// What a look sees of a node of a letter.
    pub(crate) fn sight(
        &mut self,
        runner: &Runner<'_, '_>,
        look: u32,
        kind: Kind,
        marks: Marks,
    ) -> Sight
        requires runner { IsRunner runner.now }
        requires letter { IsLetter (symbols_by runner.now) (predicates_by runner.now)
            (see_letter kind marks) }
        requires look { IsSomeLook (told_by runner.now) look }
        requires known { AreSeenBy runner.now self.old }
        ensures known { AreSeenBy runner.now self.new }
        ensures sight { IsSight runner.now look kind marks result }
    {
        match self.remembered(look, kind, marks) {
            Some(sight) => sight,
            None => self.new_sight(runner, look, kind, marks),
        }
    }

    /// The same where it isn't remembered: out of line, since that is seldom so.
    #[inline(never)]
    fn new_sight(&mut self, runner: &Runner<'_, '_>, look: u32, kind: Kind, marks: Marks) -> Sight
        requires runner { IsRunner runner.now }
        requires letter { IsLetter (symbols_by runner.now) (predicates_by runner.now)
            (see_letter kind marks) }
        requires look { IsSomeLook (told_by runner.now) look }
        requires known { AreSeenBy runner.now self.old }
        ensures known { AreSeenBy runner.now self.new }
        ensures sight { IsSight runner.now look kind marks result }
    {
        let sight = Sight {
            hit: runner.rules.sel_hits(look, kind, marks),
            below: below(runner, look, kind, marks),
        };
        self.remember(look, kind, marks, sight);
        sight
    }
}
