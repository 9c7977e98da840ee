//! What a question about a model is answered: evaluated afresh, cell by cell, or in rounds with the
//! memo of a book, which holds the newest version and the log of the commits that made it.
//! Contracts see a model by its rows, an answer as the list of its bytes, a book and a run as their
//! facts, and how many evaluations of primitives an answer takes. What an answer means for places
//! is said by `laws`, why verdicts stay right through commits by `book_laws`, and that rounds end by
//! `run_laws`. The modules are read in this order: `cells`, `answers`, `laws`; `commits`, `books`,
//! `book_laws`; `runs` with `course`, `keys` and `rounds`; `run_laws`; `asking`; `events` and
//! `machine`; then `logged` and `crossing`.
#![tactic(auto)]

mod answers;
mod asking;
pub mod book_laws;
mod books;
mod cells;
mod commits;
mod course;
mod crossing;
mod events;
mod keys;
pub mod laws;
mod logged;
mod machine;
mod rounds;
pub mod run_laws;
mod runs;

pub use answers::push_answer;
pub use books::{Begun, Book};
pub use commits::{Commit, Commits};
pub use crossing::book_crosses;
pub use events::{Event, Outcome};
pub use machine::run_events;
pub use runs::{Progress, Run, Stage};

#[cfg(test)]
mod tests;
