// Whether a stylesheet is safe between two schemas, and a least counterexample where it isn't.
// Closure, verdict and tree are one public call, and not a value that later calls take, since each of them
// would have to ask that the rows are still those of the closure. What a certificate needs is a second call
// beside it (`prove`).
ghost use Rattle.std.specs.Prelude.{◌≡◌, ◌≤◌, IfOk, IfErr};
ghost use Rattle.tc_base.specs.declared.limits.TheConstants.{GREATEST_LIMIT};
ghost use Rattle.tc_beh.specs.Machines.{IsMachine, IsMachineOf};
ghost use Rattle.tc_close.specs.Decisions.{IsDecided, IsCloseCause, KeepsCounts};
ghost use Rattle.tc_close.specs.RowState.{held_of, IsFull};
ghost use Rattle.tc_rows.specs.Triples.{Triple};
ghost use Rattle.tc_close.specs.Settling.{AreOver, IsSettled, IsStart};
ghost use Rattle.tc_settle.specs.Closed.{IsClosure, IsCause, IsFirstFailing};
ghost use Rattle.tc_settle.specs.Held.{SameRows};

use crate::held::HeldRows;
use crate::once::OnceRows;
use crate::over::Over;
use bumpalo::Bump;
use std::alloc::Global;
use std::marker::Brand;
use tc_alpha::Alphabet;
use tc_base::NoMemory;
use tc_beh::Machine;
use tc_model::Node;
use tc_settle::{BuildFault, CloseFault as Unsettled, Closed, build, close, first_failing};

/// How many rows there are.
#[derive(Clone, Copy, Debug, PartialEq, Eq)]
pub struct Counts {
    /// Rows of live trees.
    pub trees: u32,
    /// Rows of live lists of trees, that of no tree included.
    pub hedges: u32,
    /// Sets of pairs of states of the output in these rows.
    pub outputs: u32,
}

/// What is told of a stylesheet between two schemas.
#[derive(Clone, Copy)]
pub enum Decision<'b> {
    /// Every valid document is made into a valid one.
    Safe(Counts),
    /// A valid document with a result that isn't valid, of the fewest nodes.
    Unsafe(Node<'b>),
    /// There are valid documents with results that aren't valid, and all have more than 2,000 nodes.
    TooManyNodes,
}

/// Why nothing is told. Of limits that are passed any is named.
#[derive(Clone, Copy, Debug, PartialEq, Eq)]
pub enum CloseFault {
    /// There are more rows of live trees than were allowed.
    TooManyTrees,
    /// There are more rows of live lists of trees than were allowed.
    TooManyHedges,
    /// There are more than 65,536 sets of pairs in these rows.
    TooManyOutputs,
    /// Memory was refused.
    NoMemory,
}

impl From<NoMemory> for CloseFault {
    ghost use Rattle.tc_close.specs.declared.decision.CloseFault.TheVariants.{NoMemory};

    ghost from_gives = { λ _ e. e ≡ NoMemory };

    fn from(_error: NoMemory) -> CloseFault {
        CloseFault::NoMemory
    }
}

/// Which count passes its limit, where rows came to no end.
fn close_fault<K: Over>(rows: &HeldRows<'_, '_, K>, most: u32, fault: Unsettled) -> CloseFault
    requires { IsCause (IsFull K.is_of rows.now) most (held_of K.is_of rows.now) fault }
    ensures { (x : Triple) → K.is_of x → IsCloseCause x most result }
{
    let _outputs = rows.output_count();
    match fault {
        Unsettled::TooManyTrees => CloseFault::TooManyTrees,
        Unsettled::TooManyHedges => CloseFault::TooManyHedges,
        Unsettled::Full => CloseFault::TooManyOutputs,
        Unsettled::NoMemory => CloseFault::NoMemory,
    }
}

/// What the first row that fails tells, where no count passes its limit.
fn verdict_of_failing<'b, K: Over>(
    arena: &'b Bump,
    alphabet: &Alphabet,
    rows: &HeldRows<'_, 'b, K>,
    closed: &Closed,
    tree: u32,
    most: u32,
) -> Result<Decision<'b>, NoMemory>
    requires triples { (x : Triple) → K.is_of x → (alphabet.now ≡ x.symbols) × KeepsCounts x most }
    requires closure { IsClosure (held_of K.is_of rows.now) closed.now }
    requires first { IsFirstFailing (held_of K.is_of rows.now) closed.now tree }
    ensures { IfOk result (λ d. (x : Triple) → K.is_of x → IsDecided x most d) }
{
    let _outputs = rows.output_count();
    match build(arena, alphabet, rows, closed, tree) {
        Ok(node) => Ok(Decision::Unsafe(node)),
        Err(BuildFault::TooManyNodes) => Ok(Decision::TooManyNodes),
        Err(BuildFault::NoMemory) => Err(NoMemory),
    }
}

/// What all rows tell.
pub(crate) fn verdict<'b, K: Over>(
    arena: &'b Bump,
    alphabet: &Alphabet,
    rows: &mut HeldRows<'_, 'b, K>,
    closed: &Closed,
    most: u32,
) -> Result<Decision<'b>, NoMemory>
    requires alphabet { (x : Triple) → K.is_of x → alphabet.now ≡ x.symbols }
    requires settled { IsSettled K.is_of rows.old closed.now most }
    ensures decision { IfOk result (λ d. (x : Triple) → K.is_of x → IsDecided x most d) }
    ensures same { SameRows (held_of K.is_of rows.old) (held_of K.is_of rows.new) }
{
    let counts = Counts {
        trees: rows.tree_count(),
        hedges: rows.hedge_count(),
        outputs: rows.output_count(),
    };
    if !rows.is_whole() {
        return Err(NoMemory);
    }
    let Some(tree) = first_failing(rows, closed) else {
        return Ok(Decision::Safe(counts));
    };
    verdict_of_failing(arena, alphabet, rows, closed, tree, most)
}

/// Finds all rows that come of none, and how they are made.
pub(crate) fn settle<K: Over>(
    alloc: Global,
    once: &mut OnceRows<'_, '_, K>,
    most: u32,
) -> Result<Closed, CloseFault>
    requires { IsStart once.old most }
    ensures settled { IfOk result (λ closed. IsSettled K.is_of once.new closed most) }
    ensures cause { IfErr result (λ e. (x : Triple) → K.is_of x → IsCloseCause x most e) }
{
    match close(alloc, once, most) {
        Ok(closed) => Ok(closed),
        Err(fault) => Err(close_fault(&once.rows, most, fault)),
    }
}

/// The decision of rows of which none is held yet.
fn decided<'b, K: Over>(
    arena: &'b Bump,
    alloc: Global,
    machine: &Machine<'b>,
    once: &mut OnceRows<'_, 'b, K>,
    most: u32,
) -> Result<Decision<'b>, CloseFault>
    requires machine { (x : Triple) → K.is_of x → IsMachineOf x machine.now }
    requires start { IsStart once.old most }
    ensures decision { IfOk result (λ d. (x : Triple) → K.is_of x → IsDecided x most d) }
    ensures cause { IfErr result (λ e. (x : Triple) → K.is_of x → IsCloseCause x most e) }
{
    let closed = settle(alloc, once, most)?;
    let decision = verdict(arena, machine.alphabet(), &mut once.rows, &closed, most)?;
    Ok(decision)
}

/// The decision over some triples that a machine stands for.
fn decide_over<'b, K: Over>(
    arena: &'b Bump,
    alloc: Global,
    machine: &Machine<'b>,
    most: u32,
) -> Result<Decision<'b>, CloseFault>
    requires over { AreOver K.is_of machine.now }
    requires most { most ≤ GREATEST_LIMIT }
    ensures decision { IfOk result (λ d. (x : Triple) → K.is_of x → IsDecided x most d) }
    ensures cause { IfErr result (λ e. (x : Triple) → K.is_of x → IsCloseCause x most e) }
{
    let mut once = OnceRows::<K>::new(alloc, machine)?;
    let decision = decided(arena, alloc, machine, &mut once, most);
    drop(once);
    decision
}

/// Decides whether a stylesheet is safe between two schemas, with at most so many rows of trees, and of lists of trees.
///
/// # Errors
///
/// A count passes its limit, or memory is refused.
pub fn decide<'b>(
    arena: &'b Bump,
    alloc: Global,
    machine: &Machine<'b>,
    most: u32,
) -> Result<Decision<'b>, CloseFault>
    requires machine { IsMachine machine.now }
    requires most { most ≤ GREATEST_LIMIT }
    ensures decision { IfOk result
        (λ d. (x : Triple) → IsMachineOf x machine.now → IsDecided x most d) }
    ensures cause { IfErr result
        (λ e. (x : Triple) → IsMachineOf x machine.now → IsCloseCause x most e) }
{
    decide_over::<Brand>(arena, alloc, machine, most)
}
