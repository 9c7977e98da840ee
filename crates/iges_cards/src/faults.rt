ghost use Rattle.std.specs.Prelude.{◌≡◌, IfOk};
ghost use Rattle.iges_cards.specs.Words.{IsOfText, fault_number, fault_words};

use solid_base::{Bytes, push_decimal, word, word_and_number};
use std::alloc::{AllocError, Global};
use thiserror::Error;

/// Why bytes are no cards. Lines are counted from 1.
#[derive(Clone, Copy, Debug, PartialEq, Eq, Error)]
pub enum CardFault {
    /// Out of memory.
    #[error("out of memory")]
    Memory(AllocError),
    /// The first line has C or B in column 73.
    #[error("the file isn't of the fixed form")]
    NotFixed,
    /// A line has fewer than 80 columns.
    #[error("line {0} has fewer than 80 columns")]
    ShortLine(u32),
    /// A byte after column 80 isn't a blank.
    #[error("line {0} has more than 80 columns")]
    LongLine(u32),
    /// The letter in column 73 may not follow that of the line before.
    #[error("line {0} has a section letter that may not follow")]
    BadSection(u32),
    /// Columns 74 to 80 aren't the number of the line in its section.
    #[error("line {0} has another sequence number")]
    BadSequence(u32),
    /// The bytes end before a terminate line.
    #[error("there is no terminate line")]
    NoTerminate,
    /// A group of the terminate line has another letter, or no number.
    #[error("the terminate line is faulty")]
    BadTerminate,
    /// The terminate line tells another number of lines of a section than there are.
    #[error("section {section} has {found} lines and not {told}")]
    CountMismatch {
        /// The letter of the section.
        section: u8,
        /// The number in the terminate line.
        told: u32,
        /// How many lines there are.
        found: u32,
    },
}

impl From<AllocError> for CardFault {
    ghost use Rattle.iges_cards.specs.declared.faults.CardFault.TheVariants.{Memory};

    ghost from_gives = { λ e fault. fault ≡ Memory e };

    fn from(e: AllocError) -> CardFault {
        CardFault::Memory(e)
    }
}

impl CardFault {
    /// The number of the fault, from 1 to 9.
    pub fn number(&self) -> u32
        ensures { result ≡ fault_number self.now }
    {
        match self {
            CardFault::Memory(_) => 1,
            CardFault::NotFixed => 2,
            CardFault::ShortLine(_) => 3,
            CardFault::LongLine(_) => 4,
            CardFault::BadSection(_) => 5,
            CardFault::BadSequence(_) => 6,
            CardFault::NoTerminate => 7,
            CardFault::BadTerminate => 8,
            CardFault::CountMismatch { .. } => 9,
        }
    }

    /// The fault as it is printed: its name and its numbers, a section as its letter. AllocError
    /// when out of memory. Out of memory itself is never printed.
    pub fn write_fault(&self, alloc: Global) -> Result<Bytes, AllocError>
        requires { IsOfText self.now }
        ensures { IfOk result (λ words. words ≡ fault_words self.now) }
    {
        match self {
            CardFault::Memory(_) => Ok(Bytes::new(alloc)),
            CardFault::NotFixed => word(alloc, b"NotFixed"),
            CardFault::ShortLine(line) => word_and_number(alloc, b"ShortLine ", *line),
            CardFault::LongLine(line) => word_and_number(alloc, b"LongLine ", *line),
            CardFault::BadSection(line) => word_and_number(alloc, b"BadSection ", *line),
            CardFault::BadSequence(line) => word_and_number(alloc, b"BadSequence ", *line),
            CardFault::NoTerminate => word(alloc, b"NoTerminate"),
            CardFault::BadTerminate => word(alloc, b"BadTerminate"),
            CardFault::CountMismatch {
                section,
                told,
                found,
            } => {
                let mut words = word(alloc, b"CountMismatch ")?;
                words.push(*section)?;
                words.extend_from_slice(b" ")?;
                push_decimal(&mut words, *told)?;
                words.extend_from_slice(b" ")?;
                push_decimal(&mut words, *found)?;
                Ok(words)
            }
        }
    }
}
