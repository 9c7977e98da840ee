//! A whole file in the fixed form, read as a model or refused by its first fault. Contracts see the
//! bytes of a file, and say which model they are read as and where the file ends, or which fault is
//! the first. `laws` says that bytes have one outcome, `write_laws` that what is written is read.
#![tactic(auto)]

mod entities;
mod faults;
pub mod laws;
mod model;
mod rows;
pub mod write_laws;

pub use faults::FileFault;
pub use model::{ReadFile, read_file, read_model};

#[cfg(test)]
mod model_tests;
#[cfg(test)]
mod write_tests;
