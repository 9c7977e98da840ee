use edit_core::Batch;
use solid_base::List;
use std::marker::Model;

/// A commit that was made: the session that made it, the number of its line among the session's
/// lines, counted from 1, and the batch. Contracts see the entry of a log.
#[derive(Debug, Drop)]
pub struct Commit {
    pub session: u32,
    pub line: u32,
    pub batch: Batch,
}

impl Model for Commit {
    ghost use Rattle.edit_core.specs.Versions.{LogEntry};

    ghost Value = { LogEntry };

    ghost view = { λ c. record { session = c.session; line = c.line; batch = c.batch } };
}

/// The commits of a log, in the order of the versions that they made.
pub type Commits = List<Commit>;
