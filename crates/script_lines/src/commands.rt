use crate::faults::LineFault;
use solid_base::{List, RowText};
use solid_questions::Question;

/// What a line of a script asks for.
#[derive(Debug, Drop, PartialEq, Eq)]
pub enum Command {
    /// A question. A live one may be cancelled by a later commit of another session.
    Ask { question: Question, live: bool },
    /// The row of an entity is to be replaced.
    Replace { de: u32, row: RowText },
    /// A row is to be added with this number.
    Add { de: u32, row: RowText },
    /// The entity with this number is to be dropped.
    Drop { de: u32 },
    /// The staged changes are to be made.
    Commit,
    /// The line is no command.
    Bad(LineFault),
}

/// The commands of one session, in the order of its lines.
pub type Commands = List<Command>;

/// A line of a script that isn't skipped: the number of its session, 0 where it names none, and
/// what it asks for.
#[derive(Debug, Drop, PartialEq, Eq)]
pub struct ScriptLine {
    pub session: u32,
    pub command: Command,
}

/// The lines of a script that aren't skipped, in the order of the input.
pub type Script = List<ScriptLine>;

/// A session with its commands.
#[derive(Debug, Drop, PartialEq, Eq)]
pub struct SessionLines {
    pub session: u32,
    pub commands: Commands,
}
