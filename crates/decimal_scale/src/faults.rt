ghost use Rattle.std.specs.Prelude.{◌≡◌, IfOk};
ghost use Rattle.decimal_scale.specs.Faults.{fault_number, fault_words};

use solid_base::Bytes;
use std::alloc::{AllocError, Global};
use thiserror::Error;

/// Why a text can't be read as steps.
#[derive(Clone, Copy, Debug, PartialEq, Eq, Error)]
pub enum RealFault {
    /// The text is no whole or real number.
    #[error("not a number")]
    BadReal,
    /// The rounded magnitude is above 10^18 steps.
    #[error("above 10^18 steps")]
    TooBig,
}

impl RealFault {
    /// The fault's number.
    pub fn number(&self) -> u32
        ensures { result ≡ fault_number self.now }
    {
        match self {
            RealFault::BadReal => 2,
            RealFault::TooBig => 3,
        }
    }

    /// The fault's words.
    pub fn write_fault(&self, alloc: Global) -> Result<Bytes, AllocError>
        ensures { IfOk result (λ words. words ≡ fault_words self.now) }
    {
        let mut words = Bytes::new(alloc);
        match self {
            RealFault::BadReal => words.extend_from_slice(b"BadReal")?,
            RealFault::TooBig => words.extend_from_slice(b"TooBig")?,
        }
        Ok(words)
    }
}
