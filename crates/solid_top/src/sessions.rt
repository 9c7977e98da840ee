ghost use Rattle.std.specs.Prelude.{◌≡◌, ◌<◌, ◌+◌, ◌++◌, ◌^◌, ℕ, List, length, get_or, set, codes};
ghost use Rattle.std.specs.Prelude.{decimal, replicate, IfOk, OnOk};
ghost use Rattle.solid_base.specs.declared.replies.Reply.{Reply};
ghost use Rattle.script_lines.specs.Grammar.{most_sessions};
ghost use Rattle.solid_top.specs.Output.{entry_text, log_text, output_text, session_text};
ghost use Rattle.solid_top.specs.Sessions.{KeepEach, Keeps, no_replies};

use ask_core::{Commit, Commits};
use solid_base::{Bytes, push_decimal};
use solid_desk::{Session, push_version};
use std::alloc::{AllocError, Global};

/// A session while its lines are done: where it stands, and the replies to the lines that are done:
/// how many, and their text.
#[derive(Debug, Drop)]
pub struct Transcript {
    pub stands: Session,
    pub count: u32,
    pub text: Bytes,
}

/// How many sessions there are: that of the lines that name none, and eight others.
const SESSIONS: u32 = 9;

/// How many bytes are set aside for the line of a commit.
const LOG_LINE: usize = 24;

/// How many bytes are set aside for the line of a session.
const SESSION_LINE: usize = 24;

/// The sessions, of which none has a reply yet.
pub fn new_sessions(alloc: Global) -> Result<Vec<Transcript>, AllocError>
    ensures { IfOk result (λ sessions. sessions.items ≡
        replicate (most_sessions + 1) no_replies) }
{
    let mut sessions = Vec::new(alloc);
    for _ in 0..SESSIONS {
        sessions.push(Transcript {
            stands: Session::new(alloc),
            count: 0,
            text: Bytes::new(alloc),
        })?;
    }
    Ok(sessions)
}

/// Adds the line of a commit, which made this version.
fn push_entry(out: &mut Bytes, version: u64, commit: &Commit) -> Result<(), AllocError>
    ensures { OnOk result (out.new ≡ out.old ++ entry_text version commit.now) }
{
    push_version(out, version)?;
    out.extend_from_slice(b" @")?;
    push_decimal(out, commit.session)?;
    out.extend_from_slice(b" ")?;
    push_decimal(out, commit.line)?;
    out.extend_from_slice(b"\n")
}

/// Adds the number of the commits, and the line of each.
pub fn push_log(out: &mut Bytes, log: &[Commit]) -> Result<(), AllocError>
    ensures { OnOk result (out.new ≡ out.old ++ (codes "LOG " ++ (decimal (length log.now) ++
        (codes "\n" ++ log_text 1 log.now)))) }
{
    out.extend_from_slice(b"LOG ")?;
    push_version(out, log.len() as u64)?;
    out.extend_from_slice(b"\n")?;
    for place in 0..log.len() {
        push_entry(out, place as u64 + 1, &log[place])?;
    }
    Ok(())
}

/// Adds the number of a session, of its replies, and these. Nothing for a session without a line.
fn push_session(out: &mut Bytes, number: u32, session: &Transcript) -> Result<(), AllocError>
    ensures { OnOk result ((replies : List Reply) → Keeps session.now replies →
        out.new ≡ out.old ++ session_text number replies) }
{
    if session.count == 0 {
        return Ok(());
    }
    out.extend_from_slice(b"@")?;
    push_decimal(out, number)?;
    out.extend_from_slice(b" ")?;
    push_decimal(out, session.count)?;
    out.extend_from_slice(b"\n")?;
    out.extend_from_slice(session.text.as_slice())
}

/// How much room is set aside for the text of a run: that of the replies, and some for the lines
/// before them and for each commit.
fn room(log: &[Commit], sessions: &[Transcript]) -> usize {
    let mut room = log
        .len()
        .saturating_mul(LOG_LINE)
        .saturating_add(SESSION_LINE);
    for session in sessions {
        room = room
            .saturating_add(session.text.len())
            .saturating_add(SESSION_LINE);
    }
    room
}

/// The text of a run with this log, and with these replies of the sessions from 0 on.
pub fn output_text(
    alloc: Global,
    log: &Commits,
    sessions: &[Transcript],
) -> Result<Bytes, AllocError>
    requires sessions { length sessions.now < 2 ^ 32 }
    ensures { IfOk result (λ text. (transcripts : List (List Reply)) →
        KeepEach sessions.now transcripts → text ≡ output_text log.now transcripts) }
{
    let commits = log.as_slice();
    let mut text = Bytes::new(alloc);
    text.reserve(room(commits, sessions))?;
    push_log(&mut text, commits)?;
    for number in 0..sessions.len() {
        push_session(&mut text, number as u32, &sessions[number])?;
    }
    text.extend_from_slice(b"END\n")?;
    Ok(text)
}
