// The letter of each node of a document, and its string-value.
ghost use Rattle.std.specs.Prelude.{◌≡◌, ◌++◌, List, ℕ, map, Some, slice_get, IfOk, IfSome, OnOk};
ghost use Rattle.std.specs.String.{string_bytes};
ghost use Rattle.tc_model.specs.Chains.{joined_texts};
ghost use Rattle.tc_model.specs.Letters.{marks_of};
ghost use Rattle.tc_model.specs.Machine.{holds_in};
ghost use Rattle.tc_model.specs.Views as see;
ghost use Rattle.tc_model.specs.Trees as t;
ghost use Rattle.tc_run.specs.Lettered as l;
ghost use Rattle.tc_run.specs.Predicates.{AreAllAsked};
ghost use Rattle.tc_rules.specs.Kept.{IsRulesOf};
ghost use Rattle.tc_run.specs.Running.{Guide, IsRunner, IsLetteredIn, kids_of, looking, predicates_by};
ghost use Rattle.tc_run.specs.Sights.{AreLettered, AreLookedAt, AreRemembered, AreSeenBy, AreSeenUnder, HasGrown, IsLetteredOver};
ghost use Rattle.tc_run.specs.Views.{trees, before};
ghost use Rattle.tc_run.specs.declared.runner.Runner.{Runner as RunnerOf};

use crate::known_names::KnownNames;
use crate::predicates::{Asked, all_asked, is_met};
use crate::runner::Runner;
use crate::sights::KnownSights;
use bumpalo::Bump;
use bumpalo::collections::{into_bump_slice, into_bump_str};
use tc_alpha::{Alphabet, Sym};
use tc_base::NoMemory;
use tc_model::{Name, Node};
use tc_rules::{Marks, Rules};

/// The most elements that have a number.
const MOST_NUMBERS: usize = u32::MAX as usize;

/// The letter of an element, its symbol and which predicates hold on it; and its number, if it has one.
#[derive(Clone, Copy)]
pub(crate) struct Letter {
    pub(crate) sym: Sym,
    pub(crate) marks: Marks,
    pub(crate) number: Option<u32>,
}

/// A tree with the letters of its nodes: an element with its children, or a text.
#[derive(Clone, Copy)]
pub(crate) enum Lettered<'b> {
    Elem(&'b Name<'b>, Letter, &'b [Lettered<'b>]),
    Text(&'b str, Marks),
}

/// The texts in trees, joined. Of one text alone it is that text.
pub(crate) fn joined_text<'b>(
    arena: &'b Bump,
    nodes: &'b [Lettered<'b>],
) -> Result<&'b str, NoMemory>
    ensures { IfOk result (λ text. text.now ≡ joined_texts (l.bare (trees nodes.now))) }
{
    if nodes.len() == 1 {
        if let Lettered::Text(piece, _) = nodes[0] {
            return Ok(piece);
        }
    }
    let mut text = String::new(arena);
    join_texts(&mut text, nodes)?;
    Ok(into_bump_str(text))
}

/// The texts in trees, after others.
fn join_texts(text: &mut String<&Bump>, nodes: &[Lettered<'_>]) -> Result<(), NoMemory>
    ensures { OnOk result (string_bytes text.new
        ≡ string_bytes text.old ++ joined_texts (l.bare (trees nodes.now))) }
{
    for node in nodes {
        match node {
            Lettered::Text(piece, _) => text.push_str(piece)?,
            Lettered::Elem(_, _, kids) => join_texts(text, kids)?,
        }
    }
    Ok(())
}

/// The trees of a document with their letters, and the children of the elements that have a number.
#[derive(Clone, Copy)]
pub(crate) struct Document<'b> {
    pub(crate) nodes: &'b [Lettered<'b>],
    pub(crate) numbered: &'b [&'b [Lettered<'b>]],
}

/// What is remembered while letters are found, and the children of the elements that have a number so far.
#[derive(Drop)]
struct Lettering<'b> {
    names: KnownNames<'b>,
    sights: KnownSights<'b>,
    numbered: Vec<&'b [Lettered<'b>], &'b Bump>,
}

/// Whether elements stand two levels below an element of these children. What looks find below others is soon gone through.
fn is_deep(kids: &[Lettered<'_>]) -> bool {
    for kid in kids {
        if let Lettered::Elem(_, _, below) = kid {
            if !below.is_empty() {
                return true;
            }
        }
    }
    false
}

impl<'b> Lettering<'b> {
    /// Nothing is remembered, and no element has a number.
    fn new(arena: &'b Bump) -> Result<Lettering<'b>, NoMemory>
        ensures known { IfOk result (λ k. (r : RunnerOf) → AreRemembered r k) }
        ensures fresh { IfOk result (λ k. (g : Guide) (numbered : List t.Trees)
            → AreSeenUnder g numbered k.sights) }
    {
        let names = KnownNames::new(arena)?;
        let sights = KnownSights::new(arena)?;
        Ok(Lettering {
            names,
            sights,
            numbered: Vec::new(arena),
        })
    }

    /// Gives an element of these children a number, if it is deep.
    fn number(&mut self, kids: &'b [Lettered<'b>]) -> Result<Option<u32>, NoMemory>
        ensures known { (r : RunnerOf) → AreRemembered r self.old → AreRemembered r self.new }
        ensures grown { HasGrown self.old self.new }
        ensures number { IfOk result (λ n. IfSome n (λ k.
            slice_get (kids_of self.new.numbered.items) k ≡ Some (l.bare (trees kids.entry.now)))) }
    {
        let number = self.numbered.len();
        if number >= MOST_NUMBERS || !is_deep(kids) {
            return Ok(None);
        }
        self.numbered.push(kids)?;
        Ok(Some(number as u32))
    }
}

/// The trees of a document with their letters.
pub(crate) fn lettered_document<'b>(
    arena: &'b Bump,
    rules: &Rules<'b>,
    alphabet: &Alphabet,
    nodes: &[Node<'b>],
) -> Result<Document<'b>, NoMemory>
    requires { IsRulesOf alphabet.now rules.now }
    ensures { IfOk result (λ d. IsLetteredOver rules.now alphabet.now nodes.now d) }
{
    let runner = Runner {
        rules,
        alphabet,
        numbered: &[],
    };
    let asked = all_asked(arena, &runner)?;
    let mut known = Lettering::new(arena)?;
    let on_texts = marks(&runner, asked, &[], &mut known.sights);
    let kept: &'b [Node<'b>] = arena.try_alloc_slice_copy(nodes)?;
    let lettered = with_letters(arena, &runner, asked, kept, on_texts, &mut known)?;
    Ok(Document {
        nodes: lettered,
        numbered: into_bump_slice(known.numbered),
    })
}

/// Trees with their letters. Which predicates hold on a text is given.
fn with_letters<'b>(
    arena: &'b Bump,
    runner: &Runner<'_, 'b>,
    asked: &[Asked<'_>],
    nodes: &'b [Node<'b>],
    on_texts: Marks,
    known: &mut Lettering<'b>,
) -> Result<&'b [Lettered<'b>], NoMemory>
    requires runner { IsRunner runner.now }
    requires on_texts { on_texts.0
        ≡ marks_of (map (λ p. holds_in (looking runner.now) p t.none) (predicates_by runner.now)) }
    requires known { AreRemembered runner.now known.old }
    requires asked { AreAllAsked runner.now asked.now }
    ensures known { AreRemembered runner.now known.new }
    ensures grown { HasGrown known.old known.new }
    ensures nodes { IfOk result (λ found. AreLettered runner.now known.new (trees found.now)
        (see.trees nodes.now)) }
{
    let mut found = Vec::with_capacity(arena, nodes.len())?;
    for node in nodes {
        let tree = match node {
            Node::Text(piece) => Lettered::Text(*piece, on_texts),
            Node::Elem(name, kids) => {
                let below = with_letters(arena, runner, asked, kids, on_texts, known)?;
                lettered_element(runner, asked, known, name, below)?
            }
        };
        found.push(tree)?;
    }
    Ok(into_bump_slice(found))
}

/// An element with its letter.
fn lettered_element<'b>(
    runner: &Runner<'_, 'b>,
    asked: &[Asked<'_>],
    known: &mut Lettering<'b>,
    name: &'b Name<'b>,
    kids: &'b [Lettered<'b>],
) -> Result<Lettered<'b>, NoMemory>
    requires runner { IsRunner runner.now }
    requires kids { IsLetteredIn runner.now (kids_of known.old.numbered.items) (trees kids.now) }
    requires known { AreRemembered runner.now known.old }
    requires asked { AreAllAsked runner.now asked.now }
    ensures known { AreRemembered runner.now known.new }
    ensures grown { HasGrown known.old known.new }
    ensures lettered { IfOk result (λ x. AreLettered runner.now known.new (before x l.none)
        (t.element (see.name name.now) (l.bare (trees kids.now)) t.none)) }
{
    let sym = known.names.sym_of(runner.alphabet, name);
    let marks = marks_so_far(runner, asked, kids, known);
    let number = known.number(kids)?;
    let letter = Letter { sym, marks, number };
    Ok(Lettered::Elem(name, letter, kids))
}

/// Which predicates hold on a node of these children, while some elements have a number.
fn marks_so_far<'b>(
    runner: &Runner<'_, 'b>,
    asked: &[Asked<'_>],
    kids: &[Lettered<'b>],
    known: &mut Lettering<'b>,
) -> Marks
    requires runner { IsRunner runner.now }
    requires kids { IsLetteredIn runner.now (kids_of known.old.numbered.items) (trees kids.now) }
    requires known { AreRemembered runner.now known.old }
    requires asked { AreAllAsked runner.now asked.now }
    ensures known { AreRemembered runner.now known.new }
    ensures same { known.new.numbered.items ≡ known.old.numbered.items }
    ensures marks { result.0
        ≡ marks_of
        (map (λ p. holds_in (looking runner.now) p (l.bare (trees kids.now)))
        (predicates_by runner.now)) }
{
    let here = Runner {
        rules: runner.rules,
        alphabet: runner.alphabet,
        numbered: &known.numbered,
    };
    marks(&here, asked, kids, &mut known.sights)
}

/// Which predicates hold on a node of these children.
pub(crate) fn marks(
    runner: &Runner<'_, '_>,
    asked: &[Asked<'_>],
    kids: &[Lettered<'_>],
    sights: &mut KnownSights<'_>,
) -> Marks
    requires kids { AreLookedAt runner.now (trees kids.now) sights.old }
    requires asked { AreAllAsked runner.now asked.now }
    ensures known { AreSeenBy runner.now sights.new }
    ensures marks { result.0
        ≡ marks_of
        (map (λ p. holds_in (looking runner.now) p (l.bare (trees kids.now)))
        (predicates_by runner.now)) }
{
    let mut marks = 0;
    let mut number = asked.len();
    while number > 0 {
        number -= 1;
        marks = 2 * marks + u32::from(is_met(runner, asked[number], kids, sights));
    }
    Marks(marks)
}
