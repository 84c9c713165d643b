// Whether a certificate holds.
// No limit of the closure is tried: what isn't a certificate is rejected. Data is required as a certificate's
// text gives it.
ghost use Rattle.std.specs.Prelude.{◌≡◌, OnOk, IfErr};
ghost use Rattle.tc_model.specs.Safety.{IsSafe};
ghost use Rattle.tc_rows.specs.Triples.{Triple, sheet};
ghost use Rattle.tc_beh.specs.Machines.{IsMachine, IsMachineOf};
ghost use Rattle.tc_model.specs.CertificateData.{IsFormed};
ghost use Rattle.tc_rows.specs.CertificateRows.{IsCertificateData, ListsAllLive};
ghost use Rattle.tc_verify.specs.Rejects.{IsCause};
ghost use Rattle.tc_verify.specs.RejectedPlaces.{Tells, IsRejectOf, AreIn};

use crate::checker::Checker;
use crate::first::{Broken, try_rules};
use crate::fit::{first_unfit, hedge_line, tree_line};
use crate::reject::{Reject, RejectRule, VerifyFault};
use std::alloc::Global;
use tc_beh::Machine;
use tc_model::CertData;

/// A rule that is broken, by a line and another line or a symbol.
fn told(rule: RejectRule, line: u32, other: u32) -> Reject
    ensures { Tells result rule line other }
{
    Reject { line, rule, other }
}

/// What is told of a rule that is broken.
fn reject_of(cert: &CertData, broken: Broken) -> Reject
    requires formed { IsFormed cert.now }
    requires places { AreIn cert.now broken }
    ensures { IsRejectOf cert.now broken result }
{
    match broken {
        Broken::Empty => told(RejectRule::Empty, 0, 0),
        Broken::Text => told(RejectRule::Text, 0, 0),
        Broken::Append(hedge, tree) => told(
            RejectRule::Append,
            hedge_line(cert, hedge),
            tree_line(cert, tree),
        ),
        Broken::Wrap(hedge, symbol) => told(RejectRule::Wrap, hedge_line(cert, hedge), symbol),
        Broken::Root(tree) => told(RejectRule::Root, tree_line(cert, tree), 0),
    }
}

/// Whether a certificate holds for a machine: whatever it was made by, the stylesheet is safe where it does. Its data is as the
/// text of a certificate gives it. The rules are tried one after the other over all lines; of them the first that is broken is
/// told, with its least line. Memory is taken for the rooms of rows, where all numbers fit, and none after that.
///
/// # Errors
///
/// A rule is broken (`Rejected`), or there is no memory for the rooms (`NoMemory`).
pub fn verify(alloc: Global, machine: &Machine<'_>, cert: &CertData) -> Result<(), VerifyFault>
    requires machine { IsMachine machine.now }
    requires formed { IsFormed cert.now }
    ensures certificate { OnOk result
        ((x : Triple) → IsMachineOf x machine.now → IsCertificateData x cert.now) }
    ensures safe { OnOk result
        ((x : Triple) → IsMachineOf x machine.now → IsSafe x.input x.output (sheet x)) }
    ensures all_live { OnOk result
        ((x : Triple) → IsMachineOf x machine.now → ListsAllLive x cert.now) }
    ensures cause { IfErr result
        (λ e. (x : Triple) → IsMachineOf x machine.now → IsCause x cert.now e) }
{
    if let Some(line) = first_unfit(machine.shape(), cert) {
        return Err(VerifyFault::Rejected(told(RejectRule::Fit, line, 0)));
    }
    let mut checker = Checker::new(alloc, machine, cert)?;
    let tried = try_rules(&mut checker);
    drop(checker);
    match tried {
        Ok(()) => Ok(()),
        Err(broken) => Err(VerifyFault::Rejected(reject_of(cert, broken))),
    }
}
