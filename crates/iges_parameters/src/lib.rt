//! The records of entities, read by tables into rows and written again (IGES 5.3, chapter 4).
//! Contracts see a record's text as the list of its fields, and say of it which row and which
//! fields after the row it is, or its first fault; of a row they see the tokens that it is written
//! with. In reading order: `faults` and `tables`, `prims`, which both ways share, then `reading` up
//! to `records`, and `writing` up to `written_rows`; `laws` says that what is written is read back.
#![tactic(auto)]

mod faults;
pub mod laws;
mod prims;
mod reading;
mod tables;
mod writing;

pub use faults::RowFault;
pub use reading::records::{RecordText, read_known_row, read_row};
pub use tables::is_read;
pub use writing::RECORD_COLUMNS;
pub use writing::laid_text::row_text;
pub use writing::line_counts::{MOST_COUNTED_LINES, line_count, row_line_count};
pub use writing::written_rows::row_lines;
