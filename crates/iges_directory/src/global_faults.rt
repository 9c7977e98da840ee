ghost use Rattle.std.specs.Prelude.{◌≡◌, IfOk};
ghost use Rattle.iges_directory.specs.GlobalFaults.{IsOfText, fault_number, fault_words};

use solid_base::{Bytes, word_and_number};
use std::alloc::{AllocError, Global};
use thiserror::Error;

/// Why a text is no global section.
#[derive(Clone, Copy, Debug, PartialEq, Eq, Error)]
pub enum GlobalFault {
    /// Out of memory.
    #[error("out of memory")]
    Memory(AllocError),
    /// The parameter with this index, counted from 1, is the first that is faulty.
    #[error("global parameter {0} is faulty")]
    BadGlobal(u32),
}

impl From<AllocError> for GlobalFault {
    ghost use Rattle.iges_directory.specs.declared.global_faults.GlobalFault.TheVariants.{Memory};

    ghost from_gives = { λ e fault. fault ≡ Memory e };

    fn from(e: AllocError) -> GlobalFault {
        GlobalFault::Memory(e)
    }
}

impl GlobalFault {
    /// The number of the fault, 1 or 2.
    pub fn number(&self) -> u32
        ensures { result ≡ fault_number self.now }
    {
        match self {
            GlobalFault::Memory(_) => 1,
            GlobalFault::BadGlobal(_) => 2,
        }
    }

    /// The fault as it is printed: its name and its number. AllocError when out of memory.
    /// Out of memory itself is never printed.
    pub fn write_fault(&self, alloc: Global) -> Result<Bytes, AllocError>
        requires { IsOfText self.now }
        ensures { IfOk result (λ words. words ≡ fault_words self.now) }
    {
        match self {
            GlobalFault::Memory(_) => Ok(Bytes::new(alloc)),
            GlobalFault::BadGlobal(index) => word_and_number(alloc, b"BadGlobal ", *index),
        }
    }
}

#[cfg(test)]
mod tests {
    use super::*;

    #[test]
    fn writes_a_fault(rt: HostRuntime) -> Result<(), AllocError> {
        let fault = GlobalFault::BadGlobal(27);
        let words: &[u8] = b"BadGlobal 27";
        assert_eq!(rt; fault.number(), 2);
        assert_eq!(rt; fault.write_fault(rt.alloc())?.as_slice(), words);
        Ok(())
    }
}
