// The rows of live trees and of live lists of trees, whatever they tell of a stylesheet.
ghost use Rattle.std.specs.Prelude.{◌≤◌, IfOk, IfErr};
ghost use Rattle.tc_base.specs.declared.limits.TheConstants.{GREATEST_LIMIT};
ghost use Rattle.tc_beh.specs.Machines.{IsMachine, IsMachineOf};
ghost use Rattle.tc_close.specs.Certified.{IsListed};
ghost use Rattle.tc_close.specs.Decisions.{IsCloseCause};
ghost use Rattle.tc_close.specs.Settling.{AreOver, IsStart};
ghost use Rattle.tc_rows.specs.Triples.{Triple};

use crate::decision::{CloseFault, settle};
use crate::once::OnceRows;
use crate::over::Over;
use crate::proof::certified;
use std::alloc::Global;
use std::marker::Brand;
use tc_beh::Machine;
use tc_model::CertData;

/// The list of rows of which none is held yet.
fn listed<K: Over>(
    alloc: Global,
    once: &mut OnceRows<'_, '_, K>,
    most: u32,
) -> Result<Option<CertData>, CloseFault>
    requires { IsStart once.old most }
    ensures rows { IfOk result (λ o. (x : Triple) → K.is_of x → IsListed x most o) }
    ensures cause { IfErr result (λ e. (x : Triple) → K.is_of x → IsCloseCause x most e) }
{
    let closed = settle(alloc, once, most)?;
    let rows = certified(alloc, &mut once.rows, &closed)?;
    Ok(rows)
}

/// The list over some triples that a machine stands for.
fn list_over<K: Over>(
    alloc: Global,
    machine: &Machine<'_>,
    most: u32,
) -> Result<Option<CertData>, CloseFault>
    requires over { AreOver K.is_of machine.now }
    requires most { most ≤ GREATEST_LIMIT }
    ensures rows { IfOk result (λ o. (x : Triple) → K.is_of x → IsListed x most o) }
    ensures cause { IfErr result (λ e. (x : Triple) → K.is_of x → IsCloseCause x most e) }
{
    let mut once = OnceRows::<K>::new(alloc, machine)?;
    let rows = listed(alloc, &mut once, most);
    drop(once);
    rows
}

/// Lists the rows of a machine, be the stylesheet safe or not: exactly those of live trees and of live lists of trees, and
/// exactly the sets of pairs in them, each once, in the order of their lines in a certificate. None only where a
/// certificate of them would be too long.
///
/// # Errors
///
/// A count passes its limit, or memory is refused.
pub fn list_rows(
    alloc: Global,
    machine: &Machine<'_>,
    most: u32,
) -> Result<Option<CertData>, CloseFault>
    requires machine { IsMachine machine.now }
    requires most { most ≤ GREATEST_LIMIT }
    ensures rows { IfOk result
        (λ o. (x : Triple) → IsMachineOf x machine.now → IsListed x most o) }
    ensures cause { IfErr result
        (λ e. (x : Triple) → IsMachineOf x machine.now → IsCloseCause x most e) }
{
    list_over::<Brand>(alloc, machine, most)
}
