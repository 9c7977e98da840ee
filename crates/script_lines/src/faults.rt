ghost use Rattle.std.specs.Prelude.{◌≡◌, ◌++◌, IfOk, OnOk, OnErr};
ghost use mathlib.Core.List.{IsPrefix};
ghost use Rattle.script_lines.specs.Faults.{line_fault_number, line_fault_words};

use solid_base::{Bytes, push_decimal};
use std::alloc::{AllocError, Global};
use thiserror::Error;

/// Why a line of a script is no command.
#[derive(Clone, Copy, Debug, PartialEq, Eq, Error)]
pub enum LineFault {
    /// A word breaks a rule: the column, from 1, of the first word from the left that does, or one
    /// past the line's last byte where a word is missing.
    #[error("the word in column {0} can't stand there")]
    BadLine(u32),
    /// The word after the session's number, or after `live`, is no command of its place.
    #[error("no such command")]
    UnknownCommand,
    /// The session's number is above 8.
    #[error("there are no more than 8 sessions")]
    TooManySessions,
}

impl LineFault {
    /// The number of the fault.
    pub fn number(&self) -> u32
        ensures { result ≡ line_fault_number self.now }
    {
        match self {
            LineFault::BadLine(_) => 2,
            LineFault::UnknownCommand => 3,
            LineFault::TooManySessions => 4,
        }
    }

    /// Writes the words that are printed after a text: the fault's name, and its column. AllocError
    /// when out of memory; what stood in the text then still stands in front of it.
    pub fn push_words(&self, words: &mut Bytes) -> Result<(), AllocError>
        ensures ok { OnOk result (words.new ≡ words.old ++ line_fault_words self.now) }
        ensures front { IsPrefix words.old words.new }
    {
        match self {
            LineFault::BadLine(column) => push_column(words, *column),
            LineFault::UnknownCommand => words.extend_from_slice(b"UnknownCommand"),
            LineFault::TooManySessions => words.extend_from_slice(b"TooManySessions"),
        }
    }

    /// The words that are printed: the fault's name, and its column. AllocError when out of memory.
    pub fn write_fault(&self, alloc: Global) -> Result<Bytes, AllocError>
        ensures { IfOk result (λ words. words ≡ line_fault_words self.now) }
    {
        let mut words = Bytes::new(alloc);
        self.push_words(&mut words)?;
        Ok(words)
    }
}

fn push_column(words: &mut Bytes, column: u32) -> Result<(), AllocError>
    ensures ok { OnOk result (words.new ≡
        words.old ++ line_fault_words (LineFault.BadLine column)) }
    ensures front { IsPrefix words.old words.new }
{
    words.extend_from_slice(b"BadLine ")?;
    push_decimal(words, column)
}
