ghost use Rattle.std.specs.Prelude.{◌≡◌, IfOk};
ghost use Rattle.iges_directory.specs.DirectoryFaults.{IsOfText, fault_number, fault_words};

use solid_base::{Bytes, push_decimal, word, word_and_number};
use std::alloc::{AllocError, Global};
use thiserror::Error;

/// Why lines are no directory. An entity is named by the number of its first line, a field by its
/// number in the pair of lines, from 1 to 20.
#[derive(Clone, Copy, Debug, PartialEq, Eq, Error)]
pub enum DirFault {
    /// Out of memory.
    #[error("out of memory")]
    Memory(AllocError),
    /// The number of lines is odd.
    #[error("the number of directory lines is odd")]
    OddLines,
    /// There are more than 200,000 lines.
    #[error("there are too many entities")]
    TooManyEntities,
    /// A field isn't a number in its range.
    #[error("field {1} of entity {0} isn't a number in its range")]
    BadField(u32, u32),
    /// Field 11 isn't blank and differs from field 1.
    #[error("the lines of entity {0} have different types")]
    TypeDiffers(u32),
    /// With this entity the parameter lines of all entities so far are more than 500,000.
    #[error("the parameter lines up to entity {0} are too many")]
    TooMuchText(u32),
}

impl From<AllocError> for DirFault {
    ghost use Rattle.iges_directory.specs.declared.directory_faults.DirFault.TheVariants.{Memory};

    ghost from_gives = { λ e fault. fault ≡ Memory e };

    fn from(e: AllocError) -> DirFault {
        DirFault::Memory(e)
    }
}

impl DirFault {
    /// The number of the fault, from 1 to 6.
    pub fn number(&self) -> u32
        ensures { result ≡ fault_number self.now }
    {
        match self {
            DirFault::Memory(_) => 1,
            DirFault::OddLines => 2,
            DirFault::TooManyEntities => 3,
            DirFault::BadField(_, _) => 4,
            DirFault::TypeDiffers(_) => 5,
            DirFault::TooMuchText(_) => 6,
        }
    }

    /// The fault as it is printed: its name and its numbers. AllocError when out of memory.
    /// Out of memory itself is never printed.
    pub fn write_fault(&self, alloc: Global) -> Result<Bytes, AllocError>
        requires { IsOfText self.now }
        ensures { IfOk result (λ words. words ≡ fault_words self.now) }
    {
        match self {
            DirFault::Memory(_) => Ok(Bytes::new(alloc)),
            DirFault::OddLines => word(alloc, b"OddLines"),
            DirFault::TooManyEntities => word(alloc, b"TooManyEntities"),
            DirFault::BadField(entity, field) => {
                let mut words = word_and_number(alloc, b"BadField ", *entity)?;
                words.extend_from_slice(b" ")?;
                push_decimal(&mut words, *field)?;
                Ok(words)
            }
            DirFault::TypeDiffers(entity) => word_and_number(alloc, b"TypeDiffers ", *entity),
            DirFault::TooMuchText(entity) => word_and_number(alloc, b"TooMuchText ", *entity),
        }
    }
}
