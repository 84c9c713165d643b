// Whether a stylesheet is safe between two schemas, with a certificate where it is, and a least counterexample where it isn't.
ghost use Rattle.std.specs.Prelude.{◌≡◌, ◌≤◌, ℕ, IfOk, IfErr, MatchOption};
ghost use Rattle.tc_beh.specs.Machines.{IsMachine, IsMachineOf};
ghost use Rattle.tc_close.specs.Certified.{HasLongCertificate, IsLeastCertificate, IsProved};
ghost use Rattle.tc_close.specs.Decisions.{IsCloseCause, KeepsCounts};
ghost use Rattle.tc_close.specs.RowState.{held_of};
ghost use Rattle.tc_rows.specs.Triples.{Triple};
ghost use Rattle.tc_base.specs.declared.limits.TheConstants.{GREATEST_LIMIT};
ghost use Rattle.tc_close.specs.Settling.{AreOver, IsSettled, IsStart};
ghost use Rattle.tc_settle.specs.Held.{SameRows};

use crate::certificate::cert_data;
use crate::decision::{CloseFault, Decision, settle, verdict};
use crate::held::HeldRows;
use crate::once::OnceRows;
use crate::over::Over;
use bumpalo::Bump;
use std::alloc::Global;
use std::marker::Brand;
use tc_base::NoMemory;
use tc_beh::Machine;
use tc_model::{CertData, Node};
use tc_settle::Closed;

/// What is told of a stylesheet between two schemas, with a certificate where it is safe.
#[derive(Drop)]
pub enum Proof<'b> {
    /// Every valid document is made into a valid one, by this certificate.
    Certified(CertData),
    /// Every valid document is made into a valid one, and its certificate has more bytes than one may have.
    TooLong,
    /// A valid document with a result that isn't valid, of the fewest nodes.
    Unsafe(Node<'b>),
    /// There are valid documents with results that aren't valid, and all have more than 2,000 nodes.
    TooManyNodes,
}

/// The certificate of all rows.
pub(crate) fn certified<'b, K: Over>(
    alloc: Global,
    rows: &mut HeldRows<'_, 'b, K>,
    closed: &Closed,
) -> Result<Option<CertData>, NoMemory>
    requires { IsSettled K.is_of rows.old closed.now GREATEST_LIMIT }
    ensures same { rows.new ≡ rows.old }
    ensures data { IfOk result (λ o. (x : Triple) → K.is_of x
        → MatchOption o (HasLongCertificate x) (IsLeastCertificate x)) }
    ensures keeps { IfOk result (λ o. (x : Triple) (most : ℕ) → K.is_of x
        → IsSettled K.is_of rows.old closed.now most → KeepsCounts x most) }
{
    if !rows.is_whole() {
        return Err(NoMemory);
    }
    cert_data(alloc, rows)
}

/// What all rows tell, with their certificate.
fn told<'b, K: Over>(
    arena: &'b Bump,
    alloc: Global,
    machine: &Machine<'b>,
    rows: &mut HeldRows<'_, 'b, K>,
    closed: &Closed,
    most: u32,
) -> Result<Proof<'b>, NoMemory>
    requires machine { (x : Triple) → K.is_of x → IsMachineOf x machine.now }
    requires settled { IsSettled K.is_of rows.old closed.now most }
    ensures same { SameRows (held_of K.is_of rows.old) (held_of K.is_of rows.new) }
    ensures proof { IfOk result (λ p. (x : Triple) → K.is_of x → IsProved x most p) }
{
    match verdict(arena, machine.alphabet(), rows, closed, most) {
        Ok(Decision::Safe(_)) => match certified(alloc, rows, closed) {
            Ok(Some(data)) => Ok(Proof::Certified(data)),
            Ok(None) => Ok(Proof::TooLong),
            Err(NoMemory) => Err(NoMemory),
        },
        Ok(Decision::Unsafe(node)) => Ok(Proof::Unsafe(node)),
        Ok(Decision::TooManyNodes) => Ok(Proof::TooManyNodes),
        Err(NoMemory) => Err(NoMemory),
    }
}

/// The proof of rows of which none is held yet.
fn proved<'b, K: Over>(
    arena: &'b Bump,
    alloc: Global,
    machine: &Machine<'b>,
    once: &mut OnceRows<'_, 'b, K>,
    most: u32,
) -> Result<Proof<'b>, CloseFault>
    requires machine { (x : Triple) → K.is_of x → IsMachineOf x machine.now }
    requires start { IsStart once.old most }
    ensures proof { IfOk result (λ p. (x : Triple) → K.is_of x → IsProved x most p) }
    ensures cause { IfErr result (λ e. (x : Triple) → K.is_of x → IsCloseCause x most e) }
{
    let closed = settle(alloc, once, most)?;
    let proof = told(arena, alloc, machine, &mut once.rows, &closed, most)?;
    Ok(proof)
}

/// The proof over some triples that a machine stands for.
fn prove_over<'b, K: Over>(
    arena: &'b Bump,
    alloc: Global,
    machine: &Machine<'b>,
    most: u32,
) -> Result<Proof<'b>, CloseFault>
    requires over { AreOver K.is_of machine.now }
    requires most { most ≤ GREATEST_LIMIT }
    ensures proof { IfOk result (λ p. (x : Triple) → K.is_of x → IsProved x most p) }
    ensures cause { IfErr result (λ e. (x : Triple) → K.is_of x → IsCloseCause x most e) }
{
    let mut once = OnceRows::<K>::new(alloc, machine)?;
    let proof = proved(arena, alloc, machine, &mut once, most);
    drop(once);
    proof
}

/// Decides whether a stylesheet is safe between two schemas, as [`decide`](crate::decide) does, and gives the certificate where
/// it is: exactly the rows of live trees and of live lists of trees, and the sets of pairs in them.
///
/// # Errors
///
/// A count passes its limit, or memory is refused.
pub fn prove<'b>(
    arena: &'b Bump,
    alloc: Global,
    machine: &Machine<'b>,
    most: u32,
) -> Result<Proof<'b>, CloseFault>
    requires machine { IsMachine machine.now }
    requires most { most ≤ GREATEST_LIMIT }
    ensures proof { IfOk result
        (λ p. (x : Triple) → IsMachineOf x machine.now → IsProved x most p) }
    ensures cause { IfErr result
        (λ e. (x : Triple) → IsMachineOf x machine.now → IsCloseCause x most e) }
{
    prove_over::<Brand>(arena, alloc, machine, most)
}
