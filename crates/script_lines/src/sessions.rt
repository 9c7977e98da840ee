ghost use Rattle.std.specs.Prelude.{◌≡◌, ◌<◌, ◌≤◌, ◌^◌, [], List, length, get_or, set};
ghost use Rattle.std.specs.Prelude.{IfOk, OnOk};
ghost use Rattle.std.specs.List.{AllByRecursion, filter};
ghost use Rattle.script_lines.specs.declared.commands.ScriptLine.{ScriptLine};
ghost use Rattle.script_lines.specs.Scripts.{IsLawfulLine, IsScript, HaveRecordsWithin};
ghost use Rattle.script_lines.specs.Sessions.{all_sessions, session_by, sessions_of, order_of};
ghost use Rattle.script_lines.specs.Sessions.{has_line, with_command};

use crate::commands::{Commands, ScriptLine, SessionLines};
use crate::reader::ScriptReader;
use solid_base::Numbers;
use std::alloc::{AllocError, Global};

/// The sessions of a script.
#[derive(Debug, Drop, PartialEq, Eq)]
pub struct ScriptSessions {
    /// Those that have a line, ascending.
    pub sessions: Vec<SessionLines>,
    /// The session of each line that isn't skipped, in the order of the input.
    pub order: Numbers,
}

/// How many sessions there are: that of the lines that name none, and eight others.
const SESSIONS: u32 = 9;

/// All sessions, of which none has a line yet.
fn new_sessions(alloc: Global) -> Result<Vec<SessionLines>, AllocError>
    ensures { IfOk result (λ sessions. sessions.items ≡ all_sessions []) }
{
    let mut sessions = Vec::new(alloc);
    for session in 0..SESSIONS {
        let commands = Commands::new(alloc);
        sessions.push(SessionLines { session, commands })?;
    }
    Ok(sessions)
}

/// Adds the command of a line to those of its session.
fn push_line(sessions: &mut [SessionLines], line: ScriptLine) -> Result<(), AllocError>
    requires { line.session < length sessions.now }
    ensures { OnOk result (sessions.new ≡ set sessions.old line.session
        (with_command (get_or sessions.old line.session (session_by [] 0)) line.command)) }
{
    sessions[line.session as usize].commands.push(line.command)
}

/// Keeps the sessions that have a line.
fn keep_used(sessions: &mut Vec<SessionLines>)
    ensures { sessions.new.items ≡ filter has_line sessions.old.items }
{
    sessions.retain(|s| !s.commands.is_empty());
}

/// Reads a script of at most 2^25 bytes: its sessions that have a line, with their commands, and
/// the session of each line that isn't skipped. A line that is no command is kept as its fault.
/// AllocError when out of memory.
pub fn read_sessions(alloc: Global, bytes: &[u8]) -> Result<ScriptSessions, AllocError>
    requires { length bytes.now ≤ 2 ^ 25 }
    ensures { IfOk result (λ script. (lines : List ScriptLine) × IsScript bytes.now lines ×
        AllByRecursion IsLawfulLine lines × HaveRecordsWithin (length bytes.now) lines ×
        (script.sessions.items ≡ sessions_of lines) × (script.order ≡ order_of lines)) }
{
    let mut sessions = new_sessions(alloc)?;
    let mut order = Numbers::new(alloc);
    let mut reader = ScriptReader::new(bytes);
    while let Some(line) = reader.next(alloc)? {
        order.push(line.session)?;
        push_line(&mut sessions, line)?;
    }
    keep_used(&mut sessions);
    Ok(ScriptSessions { sessions, order })
}

/// The sessions of a script of at most 2^25 bytes that have a line, ascending, with their commands.
/// AllocError when out of memory.
pub fn read_script(alloc: Global, bytes: &[u8]) -> Result<Vec<SessionLines>, AllocError>
    requires { length bytes.now ≤ 2 ^ 25 }
    ensures { IfOk result (λ sessions. (lines : List ScriptLine) × IsScript bytes.now lines ×
        AllByRecursion IsLawfulLine lines × HaveRecordsWithin (length bytes.now) lines ×
        (sessions.items ≡ sessions_of lines)) }
{
    Ok(read_sessions(alloc, bytes)?.sessions)
}

/// The session of each line of a script of at most 2^25 bytes that isn't skipped, in the order of
/// the input. AllocError when out of memory.
pub fn read_order(alloc: Global, bytes: &[u8]) -> Result<Numbers, AllocError>
    requires { length bytes.now ≤ 2 ^ 25 }
    ensures { IfOk result (λ order. (lines : List ScriptLine) × IsScript bytes.now lines ×
        AllByRecursion IsLawfulLine lines × HaveRecordsWithin (length bytes.now) lines ×
        (order ≡ order_of lines)) }
{
    Ok(read_sessions(alloc, bytes)?.order)
}
