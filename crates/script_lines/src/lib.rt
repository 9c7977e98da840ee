//! The script: which lines there are, which session each belongs to, and what it asks for.
//! Contracts see a script as the list of its bytes, and each line by its words. The modules are
//! read in this order: `faults`, `commands`, `tables`, `numbers`, `words`, `taking`, `questions`,
//! `names`, `lines`, `reader`, `sessions`, `laws`; `crossing` says what may be sent to a thread.
#![tactic(auto)]

mod commands;
mod crossing;
mod faults;
pub mod laws;
mod lines;
mod names;
mod numbers;
mod questions;
mod reader;
mod sessions;
mod tables;
mod taking;
mod words;

pub use commands::{Command, Commands, Script, ScriptLine, SessionLines};
pub use crossing::{lines_are_shared, lines_cross};
pub use faults::LineFault;
pub use reader::ScriptReader;
pub use sessions::{ScriptSessions, read_order, read_script, read_sessions};

#[cfg(test)]
mod tests;
