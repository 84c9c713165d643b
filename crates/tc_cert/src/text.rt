// A text that grows up to a length.
ghost use Rattle.std.specs.Prelude.{◌≡◌, [], IfErr, OnOk, decimal};
ghost use Rattle.tc_cert.specs.Puts.{IsPut, IsCause};

use itoa::Buffer;
use std::alloc::{AllocError, Global};
use tc_base::NoMemory;

/// Why a certificate can't be written.
#[derive(Clone, Copy, Debug, PartialEq, Eq)]
pub enum CertWriteFault {
    /// The text has more bytes than a file may have.
    TooLong,
    /// Memory was refused.
    NoMemory,
}

impl From<AllocError> for CertWriteFault {
    ghost use Rattle.std.specs.Prelude.{◌≡◌};
    ghost use Rattle.tc_cert.specs.declared.text.CertWriteFault.TheVariants.{NoMemory};

    ghost from_gives = { λ _ e. e ≡ NoMemory };

    fn from(_error: AllocError) -> CertWriteFault {
        CertWriteFault::NoMemory
    }
}

impl From<NoMemory> for CertWriteFault {
    ghost use Rattle.std.specs.Prelude.{◌≡◌};
    ghost use Rattle.tc_cert.specs.declared.text.CertWriteFault.TheVariants.{NoMemory};

    ghost from_gives = { λ _ e. e ≡ NoMemory };

    fn from(_error: NoMemory) -> CertWriteFault {
        CertWriteFault::NoMemory
    }
}

/// A text, and the most bytes that it may have.
#[derive(Drop)]
pub(crate) struct Text {
    pub(crate) bytes: Vec<u8>,
    pub(crate) most: usize,
}

impl Text {
    /// No byte.
    pub(crate) fn new(alloc: Global, most: usize) -> Text
        ensures bytes { result.bytes.items ≡ [] }
        ensures most { result.most ≡ most }
    {
        Text {
            bytes: Vec::new(alloc),
            most,
        }
    }

    /// Puts bytes at the end.
    pub(crate) fn put(&mut self, piece: &[u8]) -> Result<(), CertWriteFault>
        ensures ok { OnOk result (IsPut self.old self.new piece.now) }
        ensures cause { IfErr result (IsCause self.old piece.now) }
    {
        if self.bytes.len() > self.most || piece.len() > self.most - self.bytes.len() {
            return Err(CertWriteFault::TooLong);
        }
        self.bytes.extend_from_slice(piece)?;
        Ok(())
    }

    /// Puts a number at the end.
    pub(crate) fn put_number(&mut self, number: u32) -> Result<(), CertWriteFault>
        ensures ok { OnOk result (IsPut self.old self.new (decimal number)) }
        ensures cause { IfErr result (IsCause self.old (decimal number)) }
    {
        let mut buffer = Buffer::new();
        self.put(buffer.format(number).as_bytes())
    }
}
