//! The global section of a file and its directory: delimiters, parameters, and one entry a pair of
//! lines. Contracts see a text as its bytes and lines as lists of their columns: `read_global` and
//! `read_directory` give what the grammars find there, or the first fault.
#![tactic(auto)]

mod directory;
mod directory_faults;
#[cfg(test)]
mod directory_tests;
mod global_faults;
#[cfg(test)]
mod global_tests;
mod globals;
pub mod laws;
mod numbers;
mod pairs;

pub use directory::read_directory;
pub use directory_faults::DirFault;
pub use global_faults::GlobalFault;
pub use globals::{GlobalText, read_global};
pub use pairs::Pair;
