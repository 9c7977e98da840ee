//! Edits of a model: batches of changes, and the versions that they make. Contracts see a `Batch`
//! as the list of its numbers and changes in their places, and a `Table` as a version: its number,
//! its model, and a stamp for each row. In reading order: `changes` and `batch`, `faults`,
//! `line_totals` and `staged_rows`, `graphs`, `changed` and `copies`, and `table`; `laws` says that
//! a batch comes out in one way, and `version_laws` what holds of versions and stamps by a log.
#![tactic(auto)]

mod batch;
mod changed;
mod changes;
mod copies;
mod faults;
mod graphs;
pub mod laws;
mod line_totals;
mod staged_rows;
mod table;
pub mod version_laws;

pub use batch::Batch;
pub use changes::Change;
pub use faults::EditFault;
pub use table::Table;
