ghost use Rattle.std.specs.Prelude.{◌≡◌, ◌++◌, ◌∷◌, [], length, IfOk, IfErr, OnOk};
ghost use Rattle.iges_cards.specs.FirstFault.{IsCardFault};
ghost use Rattle.iges_cards.specs.Grammar.{IsFixedForm};
ghost use Rattle.iges_cards.specs.Reading.{keep, no_cards};
ghost use Rattle.iges_cards.specs.Words.{IsOfText};

use crate::checks::{card_in, check_counts};
use crate::faults::CardFault;
use crate::lines::split_line;
use crate::sections::{Counts, Section};
use solid_base::{BorrowedLines, Bytes, Lines};
use std::alloc::{AllocError, Global};

/// What the lines of a file hold, up to the terminate line. Directory and parameter lines stand in
/// the bytes of the file, which they borrow.
#[derive(Debug, Drop)]
pub struct Cards<'a> {
    /// Columns 1 to 72 of each start line.
    pub start: Lines,
    /// Columns 1 to 72 of the global lines, joined.
    pub global: Bytes,
    /// The 80 columns of each directory line.
    pub directory: BorrowedLines<'a>,
    /// Columns 1 to 64 of each parameter line.
    pub params: BorrowedLines<'a>,
    /// The place after the terminate line and its line end.
    pub end: usize,
}

fn push_columns(alloc: Global, lines: &mut Lines, columns: &[u8]) -> Result<(), AllocError>
    ensures { OnOk result (lines.new ≡ lines.old ++ columns.now ∷ []) }
{
    lines.push(Bytes::from_vec(Vec::from_slice(alloc, columns)?))
}

impl<'a> Cards<'a> {
    fn new(alloc: Global) -> Cards<'a>
        ensures { result ≡ no_cards }
    {
        Cards {
            start: Lines::new(alloc),
            global: Bytes::new(alloc),
            directory: BorrowedLines::new(alloc),
            params: BorrowedLines::new(alloc),
            end: 0,
        }
    }

    /// Keeps columns of a line more.
    fn keep(&mut self, alloc: Global, section: Section, kept: &'a [u8]) -> Result<(), AllocError>
        ensures { OnOk result (self.new ≡ keep section kept.now self.old) }
    {
        match section {
            Section::Start => push_columns(alloc, &mut self.start, kept),
            Section::Global => self.global.extend_from_slice(kept),
            Section::Directory => self.directory.push(kept),
            Section::Parameter => self.params.push(kept),
            Section::Terminate => Ok(()),
        }
    }
}

/// Reads lines up to the terminate line. What stands after it isn't read.
///
/// A line has 80 columns and ends with LF or CR LF; blanks alone may stand after column 80, and the
/// terminate line may also end where the bytes end. Column 73 is the section letter: S lines come
/// first, then G, D, P and one T line; D and P lines may be absent. Columns 74 to 80 are the number
/// of the line in its section. Columns 1 to 32 of the T line tell how many lines S, G, D and P
/// have.
///
/// Bytes that aren't so are refused by the first fault, line by line; of one line ShortLine,
/// LongLine, NotFixed, BadSection and BadSequence are looked for in this order, and in the T line
/// then BadTerminate and CountMismatch. NoTerminate comes where no line has a fault and there is no
/// T line. Memory comes when out of memory.
pub fn read_cards<'a>(alloc: Global, bytes: &'a [u8]) -> Result<Cards<'a>, CardFault>
    ensures fixed_form { IfOk result (λ cards. IsFixedForm bytes.now cards) }
    ensures first_fault { IfErr result (λ fault. IsOfText fault → IsCardFault bytes.now fault) }
{
    let mut cards = Cards::new(alloc);
    let mut counts = Counts::new();
    let mut before = None;
    let mut rest = bytes;
    while !rest.is_empty() {
        let (line, after) = split_line(rest);
        rest = after;
        let (section, columns) = card_in(before, counts, line)?;
        if section.is_terminate() {
            check_counts(counts, columns)?;
            cards.end = bytes.len() - rest.len();
            return Ok(cards);
        }
        cards.keep(alloc, section, &columns[..section.width()])?;
        counts = counts.one_more(section);
        before = Some(section);
    }
    Err(CardFault::NoTerminate)
}
