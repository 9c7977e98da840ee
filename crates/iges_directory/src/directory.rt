ghost use Rattle.std.specs.Prelude.{◌≡◌, ◌++◌, ◌∷◌, [], length, OnOk, IfOk, IfErr};
ghost use Rattle.std.specs.List.{AllByRecursion};
ghost use Rattle.iges_directory.specs.DirectoryFaults.{IsOfText};
ghost use Rattle.iges_directory.specs.Pairs.{IsDirectory};
ghost use Rattle.iges_directory.specs.FirstFaults.{IsDirectoryFault};

use crate::directory_faults::DirFault;
use crate::pairs::{Pair, pair_in};
use solid_base::BorrowedLines;
use std::alloc::{AllocError, Global};

/// How many lines a directory may have.
const MOST_LINES: usize = 200_000;

fn push_pair(pairs: &mut Vec<Pair>, pair: Pair) -> Result<(), AllocError>
    ensures { OnOk result (pairs.new.items ≡ pairs.old.items ++ pair ∷ []) }
{
    pairs.push(pair)?;
    Ok(())
}

/// Reads the directory lines of a file with so many parameter lines. Each line has 80 columns.
///
/// Two lines are one entry. Its numbers may have blanks on both sides and a sign; a blank field is
/// 0. Fields 1 and 11 give the type, field 2 the first parameter line, field 14 how many there are,
/// field 7 the number of the matrix, field 15 the form. An entry of type 0 is the null entity, of
/// which nothing else is read.
///
/// OddLines comes first, then TooManyEntities, where there are more than 200,000 lines. Then the
/// entries are checked in order, and of one entry: field 1 (0 to 99,999), field 11 (likewise),
/// TypeDiffers, field 2 (a parameter line), field 14 (at least 1, and the lines exist),
/// TooMuchText, where the entries so far have more than 500,000 parameter lines, field 7 (0 to
/// 9,999,999), field 15 (0 to 99,999). A field that isn't a number in its range is BadField. Memory
/// comes when out of memory.
pub fn read_directory(
    alloc: Global,
    lines: &BorrowedLines,
    params: u32,
) -> Result<Vec<Pair>, DirFault>
    requires eighty { AllByRecursion (λ line. length line ≡ 80) lines.now }
    ensures directory { IfOk result (λ pairs. IsDirectory params lines.now pairs.items) }
    ensures first_fault { IfErr result (λ fault. IsOfText fault →
        IsDirectoryFault params lines.now fault) }
{
    if lines.len() % 2 != 0 {
        return Err(DirFault::OddLines);
    }
    if lines.len() > MOST_LINES {
        return Err(DirFault::TooManyEntities);
    }
    let mut pairs = Vec::with_capacity(alloc, lines.len() / 2)?;
    let mut text = 0;
    let mut entity = 1;
    let mut at = 0;
    while at < lines.len() {
        let pair = pair_in(
            alloc,
            params,
            text,
            entity,
            lines.get(at),
            lines.get(at + 1),
        )?;
        text += pair.count;
        entity += 2;
        push_pair(&mut pairs, pair)?;
        at += 2;
    }
    Ok(pairs)
}
