ghost use Rattle.std.specs.Prelude.{◌≡◌, ◌≤◌, ℕ, List, length, min, IfOk, IfErr};
ghost use Rattle.std.specs.List.{AllByRecursion};
ghost use Rattle.solid_base.specs.Ranges.{IsLawfulRow};
ghost use Rattle.iges_fields.specs.Delimiters.{AreDelimiters};
ghost use Rattle.iges_fields.specs.Layout.{AreSpelt, AreLines, laid};
ghost use Rattle.iges_parameters.specs.Accepted.{IsWritable, lines_of};
ghost use Rattle.iges_parameters.specs.Writing.{tokens_of, kept_text, record_text, lines_for};
ghost use Rattle.iges_parameters.specs.WrittenRows.{IsTailOf, most_counted, most_counted_lines};

use crate::writing::RECORD_COLUMNS;
use crate::writing::measured::Measure;
use crate::writing::row_tokens::push_record;
use solid_base::{Entity, Row, Rows};
use std::alloc::{AllocError, Global};

/// The most lines that are counted: as many as 2^64 bytes fill.
pub const MOST_COUNTED_LINES: u64 = 1 << 58;

/// How many lines of 64 columns the records of entities take where they are written, whatever the
/// delimiters; `MOST_COUNTED_LINES` where they take more. It takes no memory. Solidd's own.
pub fn line_count(rows: &Rows) -> u64
    requires { AllByRecursion IsWritable rows.now }
    ensures { (comma semi : ℕ) → result ≡ min (lines_of comma semi rows.now) most_counted_lines }
{
    let mut count: u64 = 0;
    for at in 0..rows.len() {
        count = (count + counted_lines(rows.get(at))).min(MOST_COUNTED_LINES);
    }
    count
}

/// How many lines `row_lines` makes. It takes no memory; AllocError where they are
/// `MOST_COUNTED_LINES` or more.
#[tactic(auto, using(crate::proofs::Rooms::lines_are))]
pub fn row_line_count(
    _alloc: Global,
    entity: &Entity,
    comma: u8,
    semi: u8,
) -> Result<u64, AllocError>
    requires lawful { IsLawfulRow entity.now.row }
    requires spelt { AreSpelt entity.now.tail }
    requires tail { IsTailOf entity.now.row entity.now.tail }
    requires delimiters { AreDelimiters comma semi }
    ensures count { IfOk result (λ n.
        n ≡ lines_for (length (record_text comma semi entity.now.row entity.now.tail))) }
    ensures too_many { IfErr result (λ e. most_counted_lines ≤
        lines_for (length (record_text comma semi entity.now.row entity.now.tail))) }
    ensures agrees { IfOk result (λ n. (lines : List (List ℕ)) →
        AreLines 64 (record_text comma semi entity.now.row entity.now.tail) lines →
        length lines ≡ n) }
{
    let count = counted_lines(entity);
    if count == MOST_COUNTED_LINES {
        return Err(AllocError);
    }
    Ok(count)
}

/// How many lines a record takes, whatever the delimiters.
fn counted_lines(entity: &Entity) -> u64
    requires { IsLawfulRow entity.now.row }
    ensures { (comma semi : ℕ) →
        result ≡ min (lines_for (length (record_text comma semi entity.now.row entity.now.tail)))
        most_counted_lines }
{
    text_size(entity).div_ceil(RECORD_COLUMNS as u64)
}

/// How many bytes the text of a record has.
fn text_size(entity: &Entity) -> u64
    requires { IsLawfulRow entity.now.row }
    ensures { (comma semi : ℕ) →
        result ≡ min (length (record_text comma semi entity.now.row entity.now.tail)) most_counted }
{
    match &entity.row {
        Row::Opaque { text, .. } => kept_size(text.as_slice()),
        _ => laid_size(entity),
    }
}

fn kept_size(text: &[u8]) -> u64
    ensures { result ≡ length (kept_text text.now) }
{
    if text.is_empty() {
        1
    } else {
        text.len() as u64
    }
}

/// How many bytes the tokens of a record take in its lines.
fn laid_size(entity: &Entity) -> u64
    requires { IsLawfulRow entity.now.row }
    ensures { (comma semi : ℕ) →
        result ≡ min (length (laid 64 comma semi 0 (tokens_of entity.now.row entity.now.tail)))
        most_counted }
{
    let mut measure = Measure { used: 0 };
    match push_record(&mut measure, entity) {
        Ok(()) => measure.used,
        Err(never) => match never {},
    }
}
