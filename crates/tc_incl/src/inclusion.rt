// Whether one schema is included in another, and a least difference where it isn't.
ghost use Rattle.std.specs.Prelude.{◌≡◌, ◌<◌, ◌≤◌, IfOk, IfErr, MatchOption};
ghost use Rattle.tc_incl.specs.Answers.{IsAnswer, IsCause};
ghost use Rattle.tc_incl.specs.Covers.{AreOf, IsFirstFailing, PassBefore, held_of};
ghost use Rattle.tc_incl.specs.Schemas.{Schemas};
ghost use Rattle.tc_incl.specs.Settling.{AreOver, IsSettled, IsStart};
ghost use Rattle.tc_settle.specs.Closed as settled;

use crate::covers::Covers;
use crate::over::Over;
use bumpalo::Bump;
use std::alloc::Global;
use std::marker::Brand;
use tc_alpha::Alphabet;
use tc_auto::Auto;
use tc_base::NoMemory;
use tc_model::Node;
use tc_settle::{BuildFault, CloseFault, Closed, build, close};

/// What is told of two schemas.
#[derive(Clone, Copy)]
pub enum Cover<'b> {
    /// Every document that is valid for the first is valid for the second. The cover counts: how many rows there are of
    /// trees that are live for the first, and of lists of trees.
    Included(u32, u32),
    /// A document that is valid for the first and not for the second, of the fewest nodes.
    Not(Node<'b>),
    /// There are such documents, and all have more than 2,000 nodes.
    NotLarge,
}

/// Why nothing is told. Of limits that are passed any is named.
#[derive(Clone, Copy, Debug, PartialEq, Eq)]
pub enum InclFault {
    /// There are more rows of trees than were allowed.
    TooManyTrees,
    /// There are more rows of lists of trees than were allowed.
    TooManyHedges,
    /// Memory was refused.
    NoMemory,
}

impl From<NoMemory> for InclFault {
    ghost use Rattle.tc_incl.specs.declared.inclusion.InclFault.TheVariants.{NoMemory};

    ghost from_gives = { λ _ e. e ≡ NoMemory };

    fn from(_error: NoMemory) -> InclFault {
        InclFault::NoMemory
    }
}

/// Which count passes its limit, where rows came to no end.
fn cause<K: Over>(covers: &Covers<'_, '_, K>, most: u32, fault: CloseFault) -> InclFault
    requires { settled.IsCause ⊥ most (held_of K.is_of covers.now) fault }
    ensures { (x : Schemas) → K.is_of x → IsCause x most result }
{
    covers.see();
    match fault {
        CloseFault::TooManyTrees => InclFault::TooManyTrees,
        CloseFault::TooManyHedges => InclFault::TooManyHedges,
        CloseFault::Full | CloseFault::NoMemory => InclFault::NoMemory,
    }
}

/// The first row of a tree that fails; none where all pass.
fn first_failing<K: Over>(covers: &Covers<'_, '_, K>) -> Option<u32>
    requires { (held_of K.is_of covers.now).trees ≤ 4294967295 }
    ensures { MatchOption result
        (PassBefore (held_of K.is_of covers.now) (held_of K.is_of covers.now).trees)
        (λ k. IsFirstFailing (held_of K.is_of covers.now) k) }
{
    for tree in 0..covers.tree_count() {
        if covers.fails(tree) {
            return Some(tree);
        }
    }
    None
}

/// What all rows tell.
fn verdict<'b, K: Over>(
    arena: &'b Bump,
    alphabet: &Alphabet,
    covers: &Covers<'_, '_, K>,
    closed: &Closed,
    most: u32,
) -> Result<Cover<'b>, InclFault>
    requires alphabet { (x : Schemas) → K.is_of x → alphabet.now ≡ x.symbols }
    requires settled { IsSettled K.is_of covers.now closed.now most }
    ensures answer { IfOk result (λ c. (x : Schemas) → K.is_of x → IsAnswer x most c) }
    ensures cause { IfErr result (λ e. (x : Schemas) → K.is_of x → IsCause x most e) }
{
    covers.see();
    let hedges = covers.hedge_count();
    let trees = covers.tree_count();
    let Some(tree) = first_failing(covers) else {
        return Ok(Cover::Included(trees, hedges));
    };
    match build(arena, alphabet, covers, closed, tree) {
        Ok(node) => Ok(Cover::Not(node)),
        Err(BuildFault::TooManyNodes) => Ok(Cover::NotLarge),
        Err(BuildFault::NoMemory) => Err(InclFault::NoMemory),
    }
}

/// The answer by all rows, of which none is held yet.
fn answered<'b, K: Over>(
    arena: &'b Bump,
    alloc: Global,
    alphabet: &Alphabet,
    covers: &mut Covers<'_, '_, K>,
    most: u32,
) -> Result<Cover<'b>, InclFault>
    requires alphabet { (x : Schemas) → K.is_of x → alphabet.now ≡ x.symbols }
    requires start { IsStart covers.old most }
    ensures answer { IfOk result (λ c. (x : Schemas) → K.is_of x → IsAnswer x most c) }
    ensures cause { IfErr result (λ e. (x : Schemas) → K.is_of x → IsCause x most e) }
{
    match close(alloc, covers, most) {
        Ok(closed) => verdict(arena, alphabet, covers, &closed, most),
        Err(fault) => Err(cause(covers, most, fault)),
    }
}

/// The answer over some schemas that the automata stand for.
fn included_over<'b, K: Over>(
    arena: &'b Bump,
    alloc: Global,
    first: &Auto<'_>,
    second: &Auto<'_>,
    alphabet: &Alphabet,
    most: u32,
) -> Result<Cover<'b>, InclFault>
    requires over { AreOver K.is_of first.now second.now alphabet.now }
    requires most { most < 4294967295 }
    ensures answer { IfOk result (λ c. (x : Schemas) → K.is_of x → IsAnswer x most c) }
    ensures cause { IfErr result (λ e. (x : Schemas) → K.is_of x → IsCause x most e) }
{
    let mut covers = Covers::<K>::new(alloc, first, second, alphabet)?;
    let answer = answered(arena, alloc, alphabet, &mut covers, most);
    drop(covers);
    answer
}

/// Whether each document that is valid for a first schema is valid for a second, by the automata of their contents and
/// an alphabet of both, with at most so many cover rows of trees, and of lists of trees. Where it isn't so, a document
/// that shows it, of the fewest nodes, whose texts are `t` and whose names are the fresh ones of their symbols.
///
/// # Errors
///
/// A cover count passes its limit, or memory is refused.
pub fn included<'b>(
    arena: &'b Bump,
    alloc: Global,
    first: &Auto<'_>,
    second: &Auto<'_>,
    alphabet: &Alphabet,
    most: u32,
) -> Result<Cover<'b>, InclFault>
    requires schemas { (x : Schemas) × AreOf first.now second.now alphabet.now x }
    requires most { most < 4294967295 }
    ensures answer { IfOk result
        (λ c. (x : Schemas) → AreOf first.now second.now alphabet.now x → IsAnswer x most c) }
    ensures cause { IfErr result
        (λ e. (x : Schemas) → AreOf first.now second.now alphabet.now x → IsCause x most e) }
{
    included_over::<Brand>(arena, alloc, first, second, alphabet, most)
}
