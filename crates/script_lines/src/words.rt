ghost use Rattle.std.specs.Prelude.{◌≡◌, ◌<◌, ◌≤◌, ◌+◌, ◌∷◌, ◌^◌, [], length, drop, not};
ghost use Rattle.std.specs.Prelude.{IfSome, IfNone, slice_range};
ghost use Rattle.std.specs.List.{prefix_len};
ghost use Rattle.solid_base.specs.Spelling.{is_blank};
ghost use Rattle.solid_base.specs.Outcomes.{Gives};
ghost use Rattle.script_lines.specs.Words.{words_from, end_of};
ghost use Rattle.script_lines.specs.Reading.{next_word, no_more, record_at, left_of, placed};

use crate::faults::LineFault;
use itertools::Itertools;
use std::marker::Model;

/// A word of a line, and the column of its first byte, counted from 1.
#[derive(Clone, Copy, Debug)]
pub struct Word<'a> {
    pub column: u32,
    pub text: &'a [u8],
}

/// The words of a line that are still to be read.
#[derive(Debug, Drop)]
pub struct Words<'a> {
    line: &'a [u8],
    at: usize,
}

impl<'a> Model for Words<'a> {
    ghost use Rattle.std.specs.Prelude.{◌≤◌, ◌+◌, ◌^◌, length, drop};
    ghost use Rattle.script_lines.specs.Reading.{Left};
    ghost use Rattle.script_lines.specs.Words.{words_from, end_of};

    ghost Value = { Left };

    ghost view = { λ w. record {
      line = w.line.now;
      words = words_from (w.at + 1) (drop w.at w.line.now);
    } };

    ghost invariant = { λ w. (w.at ≤ length w.line.now) × (length w.line.now ≤ 2 ^ 25) };
}

/// Whether a byte is a space or a tab.
fn is_blank(b: u8) -> bool
    ensures { result ≡ is_blank b }
{
    b == b' ' || b == b'\t'
}

/// How many blanks stand in front of a text.
fn blanks_before(text: &[u8]) -> usize
    ensures within { result ≤ length text.now }
    ensures value { result ≡ prefix_len is_blank text.now }
{
    let mut bytes = text.iter().copied();
    match bytes.find_position(|b: &u8| !is_blank(*b)) {
        Some((place, _)) => place,
        None => text.len(),
    }
}

/// How many bytes stand in front of a text before its first blank.
fn bytes_before_blank(text: &[u8]) -> usize
    ensures within { result ≤ length text.now }
    ensures value { result ≡ prefix_len (λ b. not (is_blank b)) text.now }
{
    let mut bytes = text.iter().copied();
    match bytes.find_position(|b: &u8| is_blank(*b)) {
        Some((place, _)) => place,
        None => text.len(),
    }
}

/// Where the next word from a place on begins and ends.
fn place_of_word(line: &[u8], at: usize) -> Option<(usize, usize)>
    requires { at ≤ length line.now }
    ensures found { IfSome result (λ found. words_from (at + 1) (drop at line.now)
        ≡ record {
          column = found.0 + 1;
          text = slice_range line.now found.0 found.1;
        }
        ∷ words_from (found.1 + 1) (drop found.1 line.now)) }
    ensures inside { IfSome result (λ found. (found.0 < found.1) × (found.1 ≤ length line.now)) }
    ensures none { IfNone result (words_from (at + 1) (drop at line.now) ≡ []) }
{
    let start = at + blanks_before(&line[at..]);
    if start == line.len() {
        return None;
    }
    Some((start, start + bytes_before_blank(&line[start..])))
}

impl<'a> Words<'a> {
    /// All words of a line, of at most 2^25 bytes.
    pub fn new(line: &'a [u8]) -> Words<'a>
        requires { length line.now ≤ 2 ^ 25 }
        ensures { result ≡ left_of line.now }
    {
        Words { line, at: 0 }
    }

    /// The fault of a missing word.
    fn missing(&self) -> LineFault
        ensures { result ≡ LineFault.BadLine (end_of self.now.line) }
    {
        LineFault::BadLine(self.line.len() as u32 + 1)
    }

    /// The next word. BadLine at the line's end where there is none.
    #[tactic(auto, unfolding(crate::specs::Reading::next_word))]
    pub fn next_word(&mut self) -> Result<Word<'a>, LineFault>
        ensures { Gives (λ word. (placed word.column word.text.now, self.new)) result
            (next_word self.old) }
    {
        let Some((start, end)) = place_of_word(self.line, self.at) else {
            return Err(self.missing());
        };
        self.at = end;
        Ok(Word {
            column: start as u32 + 1,
            text: &self.line[start..end],
        })
    }

    /// That no word is left. BadLine at the next word where there is one.
    #[tactic(auto, unfolding(crate::specs::Reading::no_more))]
    pub fn no_more(&self) -> Result<(), LineFault>
        ensures { Gives (λ end. []) result (no_more self.now) }
    {
        match place_of_word(self.line, self.at) {
            Some((start, _)) => Err(LineFault::BadLine(start as u32 + 1)),
            None => Ok(()),
        }
    }

    /// The bytes from the next word to the line's end. BadLine there where no word is left.
    #[tactic(auto, unfolding(crate::specs::Reading::record_at, crate::specs::Reading::next_word))]
    pub fn record(&self) -> Result<&'a [u8], LineFault>
        ensures { Gives (λ text. text.now) result (record_at self.now) }
    {
        match place_of_word(self.line, self.at) {
            Some((start, _)) => Ok(&self.line[start..]),
            None => Err(self.missing()),
        }
    }
}
