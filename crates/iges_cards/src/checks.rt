ghost use Rattle.std.specs.Prelude.{◌≡◌, ◌≤◌, ◌+◌, length, IfOk};
ghost use Rattle.solid_base.specs.Outcomes.{Gives};
ghost use Rattle.iges_cards.specs.Checks.{columns_in, section_after, card_in, group_in, told_in};
ghost use Rattle.iges_cards.specs.Checks.{same_count, terminated};
ghost use Rattle.iges_cards.specs.Numbers.{number_in, is_same};
ghost use Rattle.iges_cards.specs.Sections.{AreFew};

use crate::faults::CardFault;
use crate::numbers::number_in;
use crate::sections::{Counts, Section};
use solid_base::are_blanks;

/// The 80 columns of a line.
#[tactic(auto, unfolding(crate::specs::Checks::columns_in))]
fn columns_in(number: u32, line: &[u8]) -> Result<&[u8], CardFault>
    ensures value { Gives (λ columns. columns.now) result (columns_in number line.now) }
    ensures eighty { IfOk result (λ columns. length columns.now ≡ 80) }
{
    if line.len() < 80 {
        return Err(CardFault::ShortLine(number));
    }
    let (columns, tail) = line.split_at(80);
    if are_blanks(tail) {
        Ok(columns)
    } else {
        Err(CardFault::LongLine(number))
    }
}

/// The section that a letter names, after a line of another section or in front.
#[tactic(auto, unfolding(crate::specs::Checks::section_after))]
fn section_after(number: u32, before: Option<Section>, letter: u8) -> Result<Section, CardFault>
    ensures { Gives (λ section. section) result (section_after number before letter) }
{
    if before.is_none() && (letter == b'C' || letter == b'B') {
        return Err(CardFault::NotFixed);
    }
    match Section::of_letter(letter) {
        Some(section) if section.follows(before) => Ok(section),
        _ => Err(CardFault::BadSection(number)),
    }
}

/// Whether columns hold this number.
fn is_number(columns: &[u8], number: u32) -> bool
    requires { length columns.now ≤ 7 }
    ensures { result ≡ is_same (number_in columns.now) number }
{
    match number_in(columns) {
        Some(n) => n == number,
        None => false,
    }
}

/// The section and the 80 columns of a line after so many others.
#[tactic(auto, unfolding(crate::specs::Checks::card_in))]
pub fn card_in(
    before: Option<Section>,
    counts: Counts,
    line: &[u8],
) -> Result<(Section, &[u8]), CardFault>
    requires { AreFew counts }
    ensures value { Gives (λ card. (card.0, card.1.now)) result (card_in before counts line.now) }
    ensures eighty { IfOk result (λ card. length card.1.now ≡ 80) }
{
    let number = counts.lines() + 1;
    let columns = columns_in(number, line)?;
    let section = section_after(number, before, columns[72])?;
    let (_, sequence) = columns.split_at(73);
    if is_number(sequence, counts.of(section) + 1) {
        Ok((section, columns))
    } else {
        Err(CardFault::BadSequence(number))
    }
}

/// The number in a group of the terminate line.
fn group_in(letter: u8, columns: &[u8]) -> Option<u32>
    requires { length columns.now ≤ 8 }
    ensures { result ≡ group_in letter columns.now }
{
    match columns {
        [first, rest @ ..] if *first == letter => number_in(rest),
        _ => None,
    }
}

/// The counts that a terminate line tells.
#[tactic(auto, unfolding(crate::specs::Checks::told_in))]
fn told_in(columns: &[u8]) -> Result<Counts, CardFault>
    requires { length columns.now ≡ 80 }
    ensures { Gives (λ told. told) result (told_in columns.now) }
{
    let start = group_in(b'S', &columns[..8]);
    let global = group_in(b'G', &columns[8..16]);
    let directory = group_in(b'D', &columns[16..24]);
    let parameter = group_in(b'P', &columns[24..32]);
    match (start, global, directory, parameter) {
        (Some(start), Some(global), Some(directory), Some(parameter)) => Ok(Counts {
            start,
            global,
            directory,
            parameter,
        }),
        _ => Err(CardFault::BadTerminate),
    }
}

/// Whether the number that is told of a section is that of its lines.
#[tactic(auto, unfolding(crate::specs::Checks::same_count))]
fn same_count(section: Section, found: Counts, told: Counts) -> Result<(), CardFault>
    ensures { Gives (λ _. found) result (same_count section found told) }
{
    let (told, found) = (told.of(section), found.of(section));
    if told == found {
        Ok(())
    } else {
        Err(CardFault::CountMismatch {
            section: section.letter(),
            told,
            found,
        })
    }
}

/// Checks the counts of a terminate line.
#[tactic(auto, unfolding(crate::specs::Checks::terminated))]
pub fn check_counts(found: Counts, columns: &[u8]) -> Result<(), CardFault>
    requires { length columns.now ≡ 80 }
    ensures { Gives (λ _. found) result (terminated found columns.now) }
{
    let told = told_in(columns)?;
    same_count(Section::Start, found, told)?;
    same_count(Section::Global, found, told)?;
    same_count(Section::Directory, found, told)?;
    same_count(Section::Parameter, found, told)
}
