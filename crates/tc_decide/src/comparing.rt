// Whether a schema is included in another, and whether two have the same valid documents, by their texts.
ghost use Rattle.std.specs.Prelude.{◌≡◌, ◌≤◌, ◌<◌, ◌^◌, ◌⊎◌, ℕ, Err, IfOk, IfErr};
ghost use Rattle.tc_base.specs.declared.limits.TheConstants.{MOST_INPUT_STATES};
ghost use Rattle.tc_decide.specs.Comparing as c;
ghost use Rattle.tc_decide.specs.Comparing.{AreWithinPairLimits, DecidesEquality, DecidesInclusion, IfDifferent, IfNotIncluded, OnIncluded, OnSame, PassesPairLimit, TellsEqualityLimit, TellsInclusionCounts, TellsRefusalOfPair, backward, forward, symbols_of_both};
ghost use Rattle.tc_decide.specs.ComparingSeen.{FindsEquality, FindsInclusion, FindsOneOnly, HasFewNodes, IsFoundOfPair, IsPairOf, IsPairOfTexts, StopsPair};
ghost use Rattle.tc_decide.specs.Limits.{AreFew, IsWithinLimits};
ghost use Rattle.tc_decide.specs.MachinesSeen.{IsCauseBy, IsLawful, IsReadOf};
ghost use Rattle.tc_decide.specs.Texts.{IsShort, Means, Spells};
ghost use Rattle.tc_decide.specs.declared.limits.TheConstants.{MOST_ROWS};
ghost use Rattle.tc_incl.specs.Answers.{IsAnswer, IsCause, IsIncludedWith, IsLeastPlain};
ghost use Rattle.tc_incl.specs.Schemas.{IsDifference, IsIncluded};
ghost use Rattle.tc_model.specs.Grammars as g;
ghost use Rattle.tc_model.specs.States.{input};
ghost use Rattle.tc_model.specs.Trees.{none, node_count};
ghost use Rattle.tc_model.specs.Views as see;

use crate::empty::no_rules;
use crate::failure::{Failure, Kind, Which};
use crate::limits::MOST_ROWS;
use crate::machine::{LimitFault, grammar_within_limits, input_automaton};
use crate::schemas::SchemaText;
use crate::texts::schema_of;
use crate::verdict::{Equality, Inclusion};
use bumpalo::Bump;
use std::alloc::Global;
use tc_alpha::{AlphaFault, Alphabet};
use tc_auto::Auto;
use tc_base::Limit;
use tc_base::limits::{MOST_SHOWN_NODES, MOST_SYMBOLS};
use tc_incl::{Cover, InclFault, included};
use tc_model::Node;
use tc_read::Schema;

/// Two schemas by the automata of their contents, and the symbols of both.
#[derive(Drop)]
struct Pair<'b> {
    first: Auto<'b>,
    second: Auto<'b>,
    alphabet: Alphabet,
}

/// Whether a schema is included in another: whether each document that is valid for the first is valid for the second. A text
/// isn't longer than a file may be. What is shown lies in the arena.
///
/// # Errors
///
/// The first text that is refused; or else a limit that is passed; or want of memory, at any time.
pub fn include<'b>(
    arena: &'b Bump,
    alloc: Global,
    first: SchemaText<'_>,
    second: SchemaText<'_>,
) -> Result<Inclusion<'b>, Failure>
    requires first { IsShort first }
    requires second { IsShort second }

    // Of texts in compact syntax. Included: each document that is valid for the first schema is valid for the second. Not: the document
    // that is shown isn't.
    ensures included { (x y : g.Grammar) → Means first.entry x → Means second.entry y
        → OnIncluded result (IsIncluded x y) }
    ensures shown { (x y : g.Grammar) → Means first.entry x → Means second.entry y
        → IfNotIncluded result (IsDifference x y) }

    // Also of declarations of elements: unless memory is refused, it is included exactly where no limit is passed and it is so, not exactly
    // where none is passed and a document that can be shown isn't valid for the second, with a least one; and else a limit that is passed.
    ensures inclusion { (x y : g.Grammar) → Spells first.entry x → Spells second.entry y
        → (result ≡ Err Failure.NoMemory) ⊎ DecidesInclusion x y result }

    // The numbers of rows, the limit that is told, and the text that is refused.
    ensures counted { (x y : g.Grammar) → Spells first.entry x → Spells second.entry y
        → TellsInclusionCounts x y result }
    ensures refused { TellsRefusalOfPair first.entry second.entry result }
{
    include_texts(arena, alloc, first, second)
}

/// Whether two schemas have the same valid documents. A text isn't longer than a file may be. What is shown lies in the
/// arena.
///
/// # Errors
///
/// The first text that is refused; or else a limit that is passed; or want of memory, at any time.
pub fn same<'b>(
    arena: &'b Bump,
    alloc: Global,
    first: SchemaText<'_>,
    second: SchemaText<'_>,
) -> Result<Equality<'b>, Failure>
    requires first { IsShort first }
    requires second { IsShort second }

    // The same, of texts in compact syntax: a document is valid for both or for none. Else: the document that is shown is valid for the one
    // that is told alone.
    ensures equal { (x y : g.Grammar) → Means first.entry x → Means second.entry y
        → OnSame result (c.IsSo x y c.equality) }
    ensures shown { (x y : g.Grammar) → Spells first.entry x → Spells second.entry y
        → IfDifferent x y result }

    // Also of declarations of elements: unless memory is refused, they are the same exactly where no limit is passed and it is so, and a
    // document is shown exactly where none is passed and one that can be is valid for one alone, with a least one; and else a limit that is
    // passed.
    ensures equality { (x y : g.Grammar) → Spells first.entry x → Spells second.entry y
        → (result ≡ Err Failure.NoMemory) ⊎ DecidesEquality x y result }

    // The limit that is told, and the text that is refused.
    ensures counted { (x y : g.Grammar) → Spells first.entry x → Spells second.entry y
        → TellsEqualityLimit x y result }
    ensures refused { TellsRefusalOfPair first.entry second.entry result }
{
    same_texts(arena, alloc, first, second)
}

/// Decides inclusion by the schemas of the texts, where there are such.
fn include_texts<'b>(
    arena: &'b Bump,
    alloc: Global,
    first: SchemaText<'_>,
    second: SchemaText<'_>,
) -> Result<Inclusion<'b>, Failure>
    requires first { IsShort first }
    requires second { IsShort second }
    ensures { IsFoundOfPair FindsInclusion first.entry second.entry result }
{
    let pair = pair_of_texts(arena, alloc, first, second)?;
    decide_inclusion(arena, alloc, &pair)
}

/// Decides equality by the schemas of the texts, where there are such.
fn same_texts<'b>(
    arena: &'b Bump,
    alloc: Global,
    first: SchemaText<'_>,
    second: SchemaText<'_>,
) -> Result<Equality<'b>, Failure>
    requires first { IsShort first }
    requires second { IsShort second }
    ensures { IsFoundOfPair FindsEquality first.entry second.entry result }
{
    let pair = pair_of_texts(arena, alloc, first, second)?;
    decide_equality(arena, alloc, &pair)
}

/// The schemas of two texts, by their automata.
fn pair_of_texts<'b>(
    arena: &'b Bump,
    alloc: Global,
    first: SchemaText<'_>,
    second: SchemaText<'_>,
) -> Result<Pair<'b>, Failure>
    requires first { IsShort first }
    requires second { IsShort second }
    ensures ok { IfOk result (IsPairOfTexts first.entry second.entry) }
    ensures no { IfErr result (StopsPair first.entry second.entry) }
{
    let one = schema_of(arena, Which::Input, first)?;
    let other = schema_of(arena, Which::Output, second)?;
    let pair = pair_of(alloc, &one, &other)?;
    Ok(pair)
}

/// Two schemas by the automata of their contents, and the symbols of both.
///
/// # Errors
///
/// The first limit that is passed: those of the first schema, of the second one, and of what both mention.
fn pair_of<'b>(
    alloc: Global,
    first: &Schema<'b>,
    second: &Schema<'b>,
) -> Result<Pair<'b>, LimitFault>
    requires first { IsLawful first.now }
    requires second { IsLawful second.now }
    ensures ok { IfOk result (λ pair. (x y : g.Grammar) → IsReadOf x first.now
        → IsReadOf y second.now → IsPairOf x y pair) }
    ensures err { IfErr result (λ e. (x y : g.Grammar) → IsReadOf x first.now
        → IsReadOf y second.now → IsCauseBy (PassesPairLimit x y) e) }
{
    let one = input_automaton(alloc, first)?;
    let other = input_automaton(alloc, second)?;
    let alphabet = symbols_of(alloc, first, second)?;
    Ok(Pair {
        first: one,
        second: other,
        alphabet,
    })
}

/// The symbols of two schemas, which pass no limit of their own.
fn symbols_of(
    alloc: Global,
    first: &Schema<'_>,
    second: &Schema<'_>,
) -> Result<Alphabet, LimitFault>
    ensures stands { IfOk result (λ symbols. (x y : g.Grammar) → IsReadOf x first.now
        → IsReadOf y second.now → symbols ≡ symbols_of_both x y) }
    ensures few { IfOk result (λ symbols. AreFew symbols) }
    ensures err { IfErr result
        (λ e. (x y : g.Grammar) → IsReadOf x first.now → IsReadOf y second.now
        → IsWithinLimits x input MOST_INPUT_STATES → IsWithinLimits y input MOST_INPUT_STATES
        → IsCauseBy (PassesPairLimit x y) e) }
{
    let first = grammar_within_limits(first)?;
    let second = grammar_within_limits(second)?;
    let nothing = no_rules();
    match Alphabet::of(alloc, first, second, &nothing) {
        Ok(alphabet) => Ok(alphabet),
        Err(AlphaFault::TooManySymbols) => Err(LimitFault::Passes(Limit::Symbols, MOST_SYMBOLS)),
        Err(AlphaFault::NoMemory) => Err(LimitFault::NoMemory),
    }
}

impl Pair<'_> {
    /// Whether the first schema is included in the second.
    fn forth<'d>(&self, alloc: Global, arena: &'d Bump) -> Result<Cover<'d>, InclFault>
        requires pair { (x : g.Grammar) × (y : g.Grammar) × IsPairOf x y self.now }
        ensures answer { IfOk result
            (λ c. (x y : g.Grammar) → IsPairOf x y self.now → IsAnswer (forward x y) MOST_ROWS c) }
        ensures cause { IfErr result
            (λ e. (x y : g.Grammar) → IsPairOf x y self.now → IsCause (forward x y) MOST_ROWS e) }
    {
        included(
            arena,
            alloc,
            &self.first,
            &self.second,
            &self.alphabet,
            MOST_ROWS,
        )
    }

    /// Whether the second schema is included in the first.
    fn back<'d>(&self, alloc: Global, arena: &'d Bump) -> Result<Cover<'d>, InclFault>
        requires pair { (x : g.Grammar) × (y : g.Grammar) × IsPairOf x y self.now }
        ensures answer { IfOk result
            (λ c. (x y : g.Grammar) → IsPairOf x y self.now → IsAnswer (backward x y) MOST_ROWS c) }
        ensures cause { IfErr result
            (λ e. (x y : g.Grammar) → IsPairOf x y self.now → IsCause (backward x y) MOST_ROWS e) }
    {
        included(
            arena,
            alloc,
            &self.second,
            &self.first,
            &self.alphabet,
            MOST_ROWS,
        )
    }
}

/// Whether the first of two schemas is included in the second.
fn decide_inclusion<'b>(
    arena: &'b Bump,
    alloc: Global,
    pair: &Pair<'_>,
) -> Result<Inclusion<'b>, Failure>
    requires pair { (x : g.Grammar) × (y : g.Grammar) × IsPairOf x y pair.now }
    ensures { (x y : g.Grammar) → IsPairOf x y pair.now → FindsInclusion x y result }
{
    let cover = pair.forth(alloc, arena)?;
    match cover {
        Cover::Included(trees, hedges) => Ok(Inclusion::Included(trees, hedges)),
        Cover::Not(document) => Ok(Inclusion::Not(document)),
        Cover::NotLarge => Err(Failure::Passes(Kind::Nodes, MOST_SHOWN_NODES)),
    }
}

/// Whether two schemas have the same valid documents. Both directions are decided before a document is told.
fn decide_equality<'b>(
    arena: &'b Bump,
    alloc: Global,
    pair: &Pair<'_>,
) -> Result<Equality<'b>, Failure>
    requires pair { (x : g.Grammar) × (y : g.Grammar) × IsPairOf x y pair.now }
    ensures { (x y : g.Grammar) → IsPairOf x y pair.now → FindsEquality x y result }
{
    let forth = pair.forth(alloc, arena)?;
    let back = pair.back(alloc, arena)?;
    tell_equality(forth, back)
}

/// What is told of equality by both directions.
fn tell_equality<'b>(forth: Cover<'b>, back: Cover<'b>) -> Result<Equality<'b>, Failure>
    requires forth { HasFewNodes forth }
    requires back { HasFewNodes back }
    ensures { (x y : g.Grammar) → AreWithinPairLimits x y
        → IsAnswer (forward x y) MOST_ROWS forth.entry
        → IsAnswer (backward x y) MOST_ROWS back.entry → FindsEquality x y result }
{
    match forth {
        Cover::Included(_, _) => tell_second(back),
        Cover::Not(document) => tell_first(document, back),
        Cover::NotLarge => match back {
            Cover::Not(document) => Ok(Equality::SecondOnly(document)),
            Cover::Included(_, _) => Err(Failure::Passes(Kind::Nodes, MOST_SHOWN_NODES)),
            Cover::NotLarge => Err(Failure::Passes(Kind::Nodes, MOST_SHOWN_NODES)),
        },
    }
}

/// What is told where the first schema is included in the second.
fn tell_second<'b>(back: Cover<'b>) -> Result<Equality<'b>, Failure>
    ensures { (x y : g.Grammar) (trees hedges : ℕ) → AreWithinPairLimits x y
        → IsIncludedWith (forward x y) MOST_ROWS trees hedges
        → IsAnswer (backward x y) MOST_ROWS back.entry → FindsEquality x y result }
{
    match back {
        Cover::Included(_, _) => Ok(Equality::Same),
        Cover::Not(document) => Ok(Equality::SecondOnly(document)),
        Cover::NotLarge => Err(Failure::Passes(Kind::Nodes, MOST_SHOWN_NODES)),
    }
}

/// What is told where a document is valid for the first schema alone: it, unless one that is valid for the second alone
/// has fewer nodes.
fn tell_first<'b>(first: Node<'b>, back: Cover<'b>) -> Result<Equality<'b>, Failure>
    requires first { node_count (see.before first none) ≤ MOST_SHOWN_NODES }
    requires back { HasFewNodes back }
    ensures { (x y : g.Grammar) → AreWithinPairLimits x y
        → IsLeastPlain (forward x y) MOST_ROWS (see.before first.entry none)
        → IsAnswer (backward x y) MOST_ROWS back.entry → FindsEquality x y result }
{
    match back {
        Cover::Not(second) => Ok(smaller_of(first, second)),
        Cover::Included(_, _) => Ok(Equality::FirstOnly(first)),
        Cover::NotLarge => Ok(Equality::FirstOnly(first)),
    }
}

/// What is told where each schema has a document of its own: the first one, unless the second has fewer nodes.
fn smaller_of<'b>(first: Node<'b>, second: Node<'b>) -> Equality<'b>
    requires first { node_count (see.before first none) ≤ MOST_SHOWN_NODES }
    requires second { node_count (see.before second none) ≤ MOST_SHOWN_NODES }
    ensures { (x y : g.Grammar) → AreWithinPairLimits x y
        → IsLeastPlain (forward x y) MOST_ROWS (see.before first.entry none)
        → IsLeastPlain (backward x y) MOST_ROWS (see.before second.entry none)
        → FindsOneOnly x y result }
{
    if count_nodes(&[second]) < count_nodes(&[first]) {
        Equality::SecondOnly(second)
    } else {
        Equality::FirstOnly(first)
    }
}

/// How many elements and texts there are.
#[tactic(auto, using(tc_model::proofs::Views::steps))]
fn count_nodes(nodes: &[Node<'_>]) -> u32
    requires { node_count (see.trees nodes.now) < 2 ^ 32 }
    ensures { result ≡ node_count (see.trees nodes.now) }
{
    let mut count = 0;
    for node in nodes {
        count += match node {
            Node::Elem(_, kids) => 1 + count_nodes(kids),
            Node::Text(_) => 1,
        };
    }
    count
}
