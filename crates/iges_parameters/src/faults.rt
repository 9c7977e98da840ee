ghost use Rattle.std.specs.Prelude.{◌≡◌, IfOk};
ghost use Rattle.iges_parameters.specs.Faults.{IsOfText, fault_number, fault_words};

use solid_base::{Bytes, word, word_and_number};
use std::alloc::{AllocError, Global};
use thiserror::Error;

/// Why a record isn't read. An index is that of a parameter, counted from 1 after the type's
/// number, which has index 0.
#[derive(Clone, Copy, Debug, PartialEq, Eq, Error)]
pub enum RowFault {
    /// Out of memory.
    #[error("out of memory")]
    Memory(AllocError),
    /// Entities of this type and form aren't read.
    #[error("the type and form aren't read")]
    NotRead,
    /// What stands at this index is no field.
    #[error("parameter {0} is no field")]
    Token(u32),
    /// A required parameter is empty, or the record ends before it.
    #[error("parameter {0} is missing")]
    Missing(u32),
    /// Another kind of field stands where a whole number, or a number, is wanted. At index 0 the
    /// number isn't the entity's type.
    #[error("parameter {0} is of the wrong kind")]
    WrongKind(u32),
    /// A magnitude is too large; or the number of an item or matrix of an assembly, or of an
    /// instance's solid, is below 0.
    #[error("parameter {0} is too far")]
    TooFar(u32),
    /// A length, a radius or a number of items isn't in its range.
    #[error("parameter {0} has a size out of its range")]
    BadSize(u32),
    /// The axis that begins at this index isn't of unit length, or isn't at a right angle to the
    /// first.
    #[error("the axis at parameter {0} is out of its bounds")]
    BadAxis(u32),
    /// The columns of a matrix aren't of unit length and at right angles.
    #[error("the matrix is out of its bounds")]
    BadMatrix,
    /// The items of a Boolean tree aren't one tree in post-order.
    #[error("the items stop being one tree at parameter {0}")]
    BadPostfix(u32),
}

impl From<AllocError> for RowFault {
    ghost use Rattle.iges_parameters.specs.declared.faults.RowFault.TheVariants.{Memory};

    ghost from_gives = { λ e fault. fault ≡ Memory e };

    fn from(e: AllocError) -> RowFault {
        RowFault::Memory(e)
    }
}

impl RowFault {
    /// The number of the fault, from 1 to 10.
    pub fn number(&self) -> u32
        ensures { result ≡ fault_number self.now }
    {
        match self {
            RowFault::Memory(_) => 1,
            RowFault::NotRead => 2,
            RowFault::Token(_) => 3,
            RowFault::Missing(_) => 4,
            RowFault::WrongKind(_) => 5,
            RowFault::TooFar(_) => 6,
            RowFault::BadSize(_) => 7,
            RowFault::BadAxis(_) => 8,
            RowFault::BadMatrix => 9,
            RowFault::BadPostfix(_) => 10,
        }
    }

    /// The fault as it is printed: its name and its index. AllocError when out of memory. Out
    /// of memory itself is never printed.
    pub fn write_fault(&self, alloc: Global) -> Result<Bytes, AllocError>
        requires { IsOfText self.now }
        ensures { IfOk result (λ words. words ≡ fault_words self.now) }
    {
        match self {
            RowFault::Memory(_) => Ok(Bytes::new(alloc)),
            RowFault::NotRead => word(alloc, b"NotRead"),
            RowFault::Token(index) => word_and_number(alloc, b"Token ", *index),
            RowFault::Missing(index) => word_and_number(alloc, b"Missing ", *index),
            RowFault::WrongKind(index) => word_and_number(alloc, b"WrongKind ", *index),
            RowFault::TooFar(index) => word_and_number(alloc, b"TooFar ", *index),
            RowFault::BadSize(index) => word_and_number(alloc, b"BadSize ", *index),
            RowFault::BadAxis(index) => word_and_number(alloc, b"BadAxis ", *index),
            RowFault::BadMatrix => word(alloc, b"BadMatrix"),
            RowFault::BadPostfix(index) => word_and_number(alloc, b"BadPostfix ", *index),
        }
    }
}
