//! The sessions of a run: what each line of a session may come to, what a lawful outcome of a whole
//! run is, whatever order its turns fell in, lines that are done one after another over a book, and
//! sessions that do theirs side by side under a turn. Contracts see a log as the list of its
//! entries, a transcript as that of its replies, and a `Session` by where it stands. The modules
//! are read in this order: `standings`, `versions`, `replies`, `lines`; `asks`, `edits`,
//! `sessions`; `laws`, `run_laws`, `line_laws` and `side_by_side_laws` say what follows of the
//! definitions.
#![tactic(auto)]

mod asks;
mod edits;
pub mod laws;
pub mod line_laws;
mod lines;
mod replies;
pub mod run_laws;
mod sessions;
pub mod side_by_side_laws;
mod standings;
mod versions;

pub use asks::ask;
pub use edits::edit;
pub use lines::do_line;
pub use sessions::session;
pub use standings::Session;
pub use versions::push_version;
