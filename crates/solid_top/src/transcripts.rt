//! The text of a run whose sessions were served side by side.
ghost use Rattle.std.specs.Prelude.{◌≡◌, ◌++◌, IfOk, OnOk};
ghost use Rattle.std.specs.List.{flat_map};
ghost use Rattle.solid_desk.specs.Outcomes.{reply_text};
ghost use Rattle.solid_top.specs.Output.{session_text};
ghost use Rattle.solid_top.specs.Serving.{whole_text};

use crate::sessions::push_log;
use ask_core::Commits;
use solid_base::{Bytes, Reply, Transcript, push_decimal};
use solid_desk::push_version;
use std::alloc::{AllocError, Global};

/// A session with the replies to its lines.
#[derive(Debug, Drop)]
pub struct Served {
    pub session: u32,
    pub replies: Transcript,
}

/// Adds a reply.
fn push_reply(out: &mut Bytes, reply: &Reply) -> Result<(), AllocError>
    ensures { OnOk result (out.new ≡ out.old ++ reply_text reply.now) }
{
    match reply.version {
        Some(version) => push_version(out, version)?,
        None => out.extend_from_slice(b"-")?,
    }
    out.extend_from_slice(b" ")?;
    out.extend_from_slice(reply.body.as_slice())?;
    out.extend_from_slice(b"\n")
}

/// Adds the replies of a session.
fn push_replies(out: &mut Bytes, replies: &[Reply]) -> Result<(), AllocError>
    ensures { OnOk result (out.new ≡ out.old ++ flat_map reply_text replies.now) }
{
    for reply in replies {
        push_reply(out, reply)?;
    }
    Ok(())
}

/// Adds the number of a session, of its replies, and these. Nothing for a session without a reply.
fn push_session(out: &mut Bytes, served: &Served) -> Result<(), AllocError>
    ensures { OnOk result (out.new ≡
        out.old ++ session_text served.now.session served.now.replies) }
{
    if served.replies.is_empty() {
        return Ok(());
    }
    out.extend_from_slice(b"@")?;
    push_decimal(out, served.session)?;
    out.extend_from_slice(b" ")?;
    push_version(out, served.replies.len() as u64)?;
    out.extend_from_slice(b"\n")?;
    push_replies(out, served.replies.as_slice())
}

/// The text of a run with this log, and with these replies of some sessions.
pub fn whole_text(alloc: Global, log: &Commits, sessions: &[Served]) -> Result<Bytes, AllocError>
    ensures { IfOk result (λ text. text ≡ whole_text log.now sessions.now) }
{
    let mut text = Bytes::new(alloc);
    push_log(&mut text, log.as_slice())?;
    for served in sessions {
        push_session(&mut text, served)?;
    }
    text.extend_from_slice(b"END\n")?;
    Ok(text)
}
