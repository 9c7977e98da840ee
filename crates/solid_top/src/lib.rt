//! A whole run of solidd: the input is read, answered and written, and the status says how it
//! ended. Contracts see the bytes that a source gave and a sink took, and say by definitions on
//! whole texts which input is taken, what is answered to it, and why each status comes. The modules
//! are read in this order: `statuses`, `faults`, `outputs`; `report`, `roots` and `checks` for what
//! `check` reports; `sessions` and `replay` for what `replay` answers, `transcripts` and `serve` for
//! what serving side by side does, `generated` and `load` for what `load` answers; `commands`,
//! `streams` and `program` for the run; `laws` and `program_laws`.
#![tactic(auto)]

mod checks;
mod commands;
mod faults;
mod generated;
pub mod laws;
mod load;
mod outputs;
mod program;
pub mod program_laws;
mod replay;
mod report;
mod roots;
mod serve;
mod sessions;
mod statuses;
mod streams;
mod transcripts;

pub use checks::check_run;
pub use commands::Command;
pub use faults::TopFault;
pub use generated::load_input;
pub use load::load_run;
pub use outputs::Output;
pub use program::run;
pub use replay::replay_run;
pub use serve::serve_run;
pub use statuses::Status;

#[cfg(test)]
mod book_tests;
#[cfg(test)]
mod edit_tests;
#[cfg(test)]
mod replay_tests;
#[cfg(test)]
mod serve_tests;
#[cfg(test)]
mod tests;
