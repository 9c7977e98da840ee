//! A row's record as it is written: its tokens, laid out in lines or only measured.
//! In reading order: `tokens` says what tokens go into, `number_tokens` and `row_tokens` give the
//! tokens of a row, `laid_text` lays them out in its text, of which `written_rows` makes lines;
//! `measured` only counts their bytes, and `line_counts` how many lines they take.

pub mod laid_text;
pub mod line_counts;
pub mod measured;
pub mod number_tokens;
pub mod row_tokens;
pub mod tokens;
pub mod written_rows;
#[cfg(test)]
mod written_tests;

/// The columns of a parameter line that a record stands in: 1 to 64 (IGES 5.3, 2.2.4.5 (parameter
/// data section)).
pub const RECORD_COLUMNS: usize = 64;
