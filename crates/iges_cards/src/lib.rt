//! The lines of a file in the fixed form of IGES 5.3: their columns, sections and numbers.
//! Contracts see the bytes as a list: `read_cards` gives what the grammar of cards finds there, and
//! refuses bytes by the first fault.
#![tactic(auto)]

mod checks;
mod faults;
mod laws;
mod lines;
mod numbers;
mod reader;
mod sections;
#[cfg(test)]
mod tests;

pub use faults::CardFault;
pub use laws::{kept_lines, one_fault, one_reading};
pub use reader::{Cards, read_cards};
