// Steps from sets to sets that were worked out: some of them are remembered, since most stand in a document many times.
ghost use Rattle.std.specs.Prelude.{◌≡◌, ◌<◌, ℕ, List, true, IfOk, IfSome};
ghost use Rattle.tc_model.specs.Grammars as g;
ghost use Rattle.tc_model.specs.Symbols.{Mention};
ghost use Rattle.tc_sets.specs.Numbers.{Numbers};
ghost use Rattle.tc_steps.specs.Numbered.{AreSteps, IsStep};

use std::alloc::Global;
use tc_alpha::Sym;
use tc_base::NoMemory;

/// How many steps are remembered.
const REMEMBERED: usize = 4096;

/// A child: a text, or an element of a symbol, whose children lead to the states of a number.
#[derive(Clone, Copy)]
pub(crate) enum Child {
    Text,
    Element(Sym, usize),
}

/// A step from the states of a number over a child to those of another number.
#[derive(Clone, Copy)]
struct Step {
    from: usize,
    child: Child,
    to: usize,
}

/// Some steps. One is forgotten where another one comes to its place.
#[derive(Drop)]
pub(crate) struct KnownSteps {
    places: Vec<Option<Step>>,
}

/// Where a step is remembered.
fn place_of(from: usize, child: Child) -> usize
    ensures { result < 4096 }
{
    let over = match child {
        Child::Text => 0,
        Child::Element(symbol, ends) => ends
            .wrapping_mul(61)
            .wrapping_add(symbol.0 as usize * 7 + 1),
    };
    from.wrapping_mul(389).wrapping_add(over) % REMEMBERED
}

/// True only of children that are the same.
fn is_same_child(a: Child, b: Child) -> bool
    ensures { result ≡ true → a ≡ b }
{
    match (a, b) {
        (Child::Text, Child::Text) => true,
        (Child::Element(a, inner), Child::Element(b, other)) => a.0 == b.0 && inner == other,
        _ => false,
    }
}

impl KnownSteps {
    /// None is remembered.
    ///
    /// # Errors
    ///
    /// There is no memory for what will be remembered.
    pub(crate) fn new(alloc: Global) -> Result<KnownSteps, NoMemory>
        ensures { IfOk result (λ k. (x : g.Grammar) (symbols : List Mention) (sets : List Numbers)
            → AreSteps x symbols sets k) }
    {
        let places = vec![in alloc; None; REMEMBERED]?;
        Ok(KnownSteps { places })
    }

    /// Where a step leads, if it is remembered.
    pub(crate) fn remembered(&self, from: usize, child: Child) -> Option<usize>
        ensures { (x : g.Grammar) (symbols : List Mention) (sets : List Numbers)
            → AreSteps x symbols sets self.now
            → IfSome result (λ to. IsStep x symbols sets from child to) }
    {
        let place = place_of(from, child);
        if place >= self.places.len() {
            return None;
        }
        let step = self.places[place]?;
        if step.from == from && is_same_child(step.child, child) {
            Some(step.to)
        } else {
            None
        }
    }

    /// Remembers where a step leads.
    pub(crate) fn remember(&mut self, from: usize, child: Child, to: usize)
        ensures { (x : g.Grammar) (symbols : List Mention) (sets : List Numbers)
            → AreSteps x symbols sets self.old → IsStep x symbols sets from child to
            → AreSteps x symbols sets self.new }
    {
        let place = place_of(from, child);
        if place >= self.places.len() {
            return;
        }
        self.places[place] = Some(Step { from, child, to });
    }
}
