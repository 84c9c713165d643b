// Why the bytes of a certificate aren't read or written anew.
use crate::text::CertWriteFault;
use std::alloc::{AllocError, AllocFailed};
use tc_base::NoMemory;

/// Why bytes aren't read as a certificate.
#[derive(Clone, Copy, Debug, PartialEq, Eq)]
pub enum CertFault {
    /// They are no certificate's text. The number of the first line that isn't as it must be, given those before it,
    /// counted from 1; or of the line behind the last.
    Form(u32),
    /// Memory was refused.
    NoMemory,
}

impl From<AllocError> for CertFault {
    ghost use Rattle.std.specs.Prelude.{◌≡◌};
    ghost use Rattle.tc_cert.specs.declared.faults.CertFault.TheVariants.{NoMemory};

    ghost from_gives = { λ _ e. e ≡ NoMemory };

    fn from(_error: AllocError) -> CertFault {
        CertFault::NoMemory
    }
}

impl From<NoMemory> for CertFault {
    ghost use Rattle.std.specs.Prelude.{◌≡◌};
    ghost use Rattle.tc_cert.specs.declared.faults.CertFault.TheVariants.{NoMemory};

    ghost from_gives = { λ _ e. e ≡ NoMemory };

    fn from(_error: NoMemory) -> CertFault {
        CertFault::NoMemory
    }
}

/// Why there is no text in version 2.
#[derive(Clone, Copy, Debug, PartialEq, Eq)]
pub enum UpgradeFault {
    /// The bytes are no certificate's text; the line as in [`CertFault::Form`].
    Form(u32),
    /// The text in version 2 has more bytes than a file may have.
    TooLong,
    /// Memory was refused.
    NoMemory,
}

impl From<AllocError> for UpgradeFault {
    ghost use Rattle.std.specs.Prelude.{◌≡◌};
    ghost use Rattle.tc_cert.specs.declared.faults.UpgradeFault.TheVariants.{NoMemory};

    ghost from_gives = { λ _ e. e ≡ NoMemory };

    fn from(_error: AllocError) -> UpgradeFault {
        UpgradeFault::NoMemory
    }
}

impl From<CertFault> for UpgradeFault {
    ghost use Rattle.std.specs.Prelude.{◌≡◌};
    ghost use Rattle.tc_cert.specs.Readings.{upgrade_fault};

    ghost from_gives = { λ fault e. e ≡ upgrade_fault fault };

    fn from(fault: CertFault) -> UpgradeFault {
        match fault {
            CertFault::Form(line) => UpgradeFault::Form(line),
            CertFault::NoMemory => UpgradeFault::NoMemory,
        }
    }
}

impl From<CertWriteFault> for UpgradeFault {
    ghost use Rattle.std.specs.Prelude.{◌≡◌};
    ghost use Rattle.tc_cert.specs.Readings.{write_fault};

    ghost from_gives = { λ fault e. e ≡ write_fault fault };

    fn from(fault: CertWriteFault) -> UpgradeFault {
        match fault {
            CertWriteFault::TooLong => UpgradeFault::TooLong,
            CertWriteFault::NoMemory => UpgradeFault::NoMemory,
        }
    }
}

/// Why a piece of a line isn't read.
#[derive(Clone, Copy)]
pub(crate) enum PieceFault {
    /// It doesn't stand there.
    Form,
    /// Memory was refused.
    NoMemory,
}

impl<T: Drop> From<AllocFailed<T>> for PieceFault {
    ghost use Rattle.std.specs.Prelude.{◌≡◌};
    ghost use Rattle.tc_cert.specs.declared.faults.PieceFault.TheVariants.{NoMemory};

    ghost from_gives = { λ _ e. e ≡ NoMemory };

    fn from(_error: AllocFailed<T>) -> PieceFault {
        PieceFault::NoMemory
    }
}

impl From<NoMemory> for PieceFault {
    ghost use Rattle.std.specs.Prelude.{◌≡◌};
    ghost use Rattle.tc_cert.specs.declared.faults.PieceFault.TheVariants.{NoMemory};

    ghost from_gives = { λ _ e. e ≡ NoMemory };

    fn from(_error: NoMemory) -> PieceFault {
        PieceFault::NoMemory
    }
}
