//! The fields of a record's text, read one by one, and the layout of tokens in lines. Contracts see
//! a reader as the text that is left, the two delimiters and whether the last field was read, and
//! say of each field what a reading function on lists finds next.
#![tactic(auto)]

mod faults;
mod filling;
mod kinds;
pub mod laws;
mod layouts;
mod readers;
mod scan;

pub use faults::FieldFault;
pub use filling::{gap, lines_of};
pub use kinds::{Field, FieldKind};
pub use layouts::lay;
pub use readers::Fields;
