// A certificate's text, written anew by the changes of rows.
ghost use Rattle.std.specs.Prelude.{◌≡◌, ◌≤◌, ◌⊎◌, Err, length};
ghost use Rattle.tc_base.specs.Reading.{longest_text};
ghost use Rattle.tc_decide.specs.Verified.{DecidesUpgrade, TellsUpgradeLimit};
ghost use Rattle.tc_decide.specs.VerifiedSeen.{IsWrittenAnew};

use crate::failure::{Failure, Kind};
use crate::limits::LONGEST_CERTIFICATE;
use crate::verdict::Upgrade;
use std::alloc::Global;
use tc_cert::UpgradeFault;

/// A certificate's text in version 2, by the changes of rows.
///
/// # Errors
///
/// The limit on the length of such a text, or want of memory.
pub fn upgrade(alloc: Global, certificate: &[u8]) -> Result<Upgrade, Failure>
    requires { length certificate.now ≤ longest_text }

    // Unless memory is refused, the text of the certificate's data by changes is given exactly where it isn't too long, the first line that isn't
    // as it must be exactly where the text is no certificate's, and the limit exactly where it is too long.
    ensures upgraded { (result ≡ Err Failure.NoMemory) ⊎ DecidesUpgrade certificate.now result }
    ensures counted { TellsUpgradeLimit certificate.now result }
{
    upgrade_text(alloc, certificate)
}

/// A certificate's text, by the cause.
fn upgrade_text(alloc: Global, certificate: &[u8]) -> Result<Upgrade, Failure>
    requires { length certificate.now ≤ longest_text }
    ensures { IsWrittenAnew certificate.now result }
{
    match tc_cert::upgrade(alloc, certificate) {
        Ok(text) => Ok(Upgrade::Text(text)),
        Err(UpgradeFault::Form(line)) => Ok(Upgrade::Malformed(line)),
        Err(UpgradeFault::TooLong) => Err(Failure::Passes(Kind::Certificate, LONGEST_CERTIFICATE)),
        Err(UpgradeFault::NoMemory) => Err(Failure::NoMemory),
    }
}
