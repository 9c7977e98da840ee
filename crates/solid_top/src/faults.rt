ghost use Rattle.std.specs.Prelude.{◌≡◌, ◌↔◌, IsTrue, IsErr, IfOk};
ghost use Rattle.solid_top.specs.TopFaults.{IsOfText, top_number, top_words};

use iges_file::FileFault;
use solid_base::Bytes;
use std::alloc::{AllocError, Global};
use thiserror::Error;

/// Why a model is not served.
#[derive(Clone, Copy, Debug, PartialEq, Eq, Error)]
pub enum TopFault {
    /// The bytes are no file that is read.
    #[error("the file is faulty")]
    File(FileFault),
}

impl TopFault {
    /// The number of the fault: that of the file's fault.
    pub fn number(&self) -> u32
        ensures { result ≡ top_number self.now }
    {
        match self {
            TopFault::File(fault) => fault.number(),
        }
    }

    /// The printed words of the fault: those of the file's fault. AllocError when out of memory.
    /// Out of memory itself is never printed.
    pub fn write_fault(&self, alloc: Global) -> Result<Bytes, AllocError>
        requires { IsOfText self.now }
        ensures { IfOk result (λ words. words ≡ top_words self.now) }
    {
        match self {
            TopFault::File(fault) => fault.write_fault(alloc),
        }
    }
}

/// Whether a file's fault has words: neither it nor a fault in it is out of memory, whose number is
/// 1.
fn has_words(fault: &FileFault) -> bool
    ensures { IsTrue result ↔ IsOfText (TopFault.File fault.now) }
{
    match fault {
        FileFault::BadRow(_, row) => row.number() != 1,
        other => other.number() != 1,
    }
}

/// The fault of a file as that of a run. Out of memory is an error of its own.
pub fn of_file(fault: FileFault) -> Result<TopFault, AllocError>
    ensures fault { IfOk result (λ top. (top ≡ TopFault.File fault) × IsOfText top) }
    ensures words { IsErr result → IsOfText (TopFault.File fault) → ⊥ }
{
    if has_words(&fault) {
        Ok(TopFault::File(fault))
    } else {
        Err(AllocError)
    }
}
