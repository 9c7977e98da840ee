use crate::commits::Commits;
use edit_core::Batch;
use solid_base::Transcripts;
use solid_questions::Question;

/// What a session, by its number from 1 to 8, does next.
#[derive(Debug, Drop)]
pub enum Event {
    /// It asks a question; void while it has a run.
    Begin {
        session: u32,
        question: Question,
        live: bool,
    },
    /// Its run takes uses; void where no look comes next in it.
    Look {
        session: u32,
    },
    /// Its run evaluates what wasn't found; void where no work comes next in it.
    Work {
        session: u32,
    },
    /// Its run's entries are kept; void where no fill comes next in it.
    Fill {
        session: u32,
    },
    /// It commits a batch, by the line with this number; void while it has a run.
    Commit {
        session: u32,
        line: u32,
        batch: Batch,
    },
    /// It hears of the newest version: a live run of an older one is cancelled.
    Newest {
        session: u32,
    },
}

/// The log of the commits, and the replies of the sessions from 0 on.
#[derive(Debug, Drop)]
pub struct Outcome {
    pub log: Commits,
    pub transcripts: Transcripts,
}
