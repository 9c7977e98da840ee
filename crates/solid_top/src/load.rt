ghost use Rattle.std.specs.Prelude.{◌≡◌, ◌≢◌, ◌≤◌, ◌<◌, ◌+◌, ◌*◌, ◌^◌, ◌==◌, ◌++◌, ℕ, List, []};
ghost use Rattle.std.specs.Prelude.{length, set, cond, codes, decimal, bytes_eq, IfOk, OnOk};
ghost use Rattle.std.specs.List.{count_by, position, starts_with};
ghost use Rattle.solid_base.specs.declared.replies.Reply.{Reply};
ghost use Rattle.script_lines.specs.declared.commands.ScriptLine.{ScriptLine};
ghost use Rattle.script_lines.specs.Grammar.{most_sessions};
ghost use Rattle.script_lines.specs.Scripts.{HasRecordWithin, IsLawfulLine, IsScript};
ghost use Rattle.solid_desk.specs.InOrder.{all_at_start, HadMemory, IsDone, IsRun, standing_of};
ghost use Rattle.solid_desk.specs.Outcomes.{Outcome, no_memory, reply_of, reply_text};
ghost use Rattle.solid_desk.specs.Sessions.{standing_after};
ghost use Rattle.solid_top.specs.declared.statuses.Status.{Status};
ghost use Rattle.solid_top.specs.Load.{IsLoadOutput, begins_with, has_words, inside_words};
ghost use Rattle.solid_top.specs.Load.{load_text, outside_words, undecided_words};

use crate::generated::load_input;
use crate::outputs::Output;
use crate::statuses::Status;
use ask_core::Book;
use iges_file::read_file;
use script_lines::{ScriptLine, ScriptReader};
use solid_base::{Bytes, NoTally, push_decimal};
use solid_desk::{Session, do_line, push_version};
use std::alloc::{AllocError, Global};

/// How many replies say that a point is inside, outside, or neither.
#[derive(Clone, Copy, Debug)]
struct Counts {
    inside: u32,
    outside: u32,
    undecided: u32,
}

impl Counts {
    /// With one reply more, which has this body.
    fn with(self, body: &[u8]) -> Counts
        requires inside { self.inside + 1 < 2 ^ 32 }
        requires outside { self.outside + 1 < 2 ^ 32 }
        requires undecided { self.undecided + 1 < 2 ^ 32 }
        ensures inside { result.inside
            ≡ self.inside + cond (bytes_eq body.now inside_words) 1 0 }
        ensures outside { result.outside
            ≡ self.outside + cond (bytes_eq body.now outside_words) 1 0 }
        ensures undecided { result.undecided
            ≡ self.undecided + cond (starts_with ◌==◌ body.now undecided_words) 1 0 }
    {
        Counts {
            inside: self.inside + u32::from(body == b"INSIDE".as_slice()),
            outside: self.outside + u32::from(body == b"OUTSIDE".as_slice()),
            undecided: self.undecided + u32::from(body.starts_with(b"UNDECIDED ")),
        }
    }
}

/// How many sessions there are: that of the lines that name none, and eight others.
const SESSIONS: u32 = 9;

/// The sessions before their first lines.
fn sessions_at_start(alloc: Global) -> Result<Vec<Session>, AllocError>
    ensures { IfOk result (λ sessions. sessions.items ≡ all_at_start) }
{
    let mut sessions = Vec::new(alloc);
    for _ in 0..SESSIONS {
        sessions.push(Session::new(alloc))?;
    }
    Ok(sessions)
}

/// Where the first blank of a text stands.
fn first_blank(text: &[u8]) -> Option<usize>
    ensures { result ≡ position (λ b. b == 32) text.now }
{
    text.iter().position(|b| *b == b' ')
}

/// The body of a reply: it stands between the first blank of the reply's text and the last byte.
fn body_of(text: &[u8]) -> &[u8]
    ensures { (reply : Reply) → text.now ≡ reply_text reply → result.now ≡ reply.body }
{
    match first_blank(text) {
        Some(at) => match &text[at + 1..] {
            [body @ .., _] => body,
            [] => &[],
        },
        None => &[],
    }
}

/// Does a line over a book, and counts its reply. AllocError also where that is MEMORY.
fn count_line(
    alloc: Global,
    book: &mut Book,
    sessions: &mut [Session],
    line: ScriptLine,
    counts: Counts,
) -> Result<Counts, AllocError>
    requires line { IsLawfulLine line }
    requires record { HasRecordWithin (2 ^ 25) line.command }
    requires size { length sessions.now ≡ most_sessions + 1 }
    requires room { (standing_of sessions.now line.session).line < 2 ^ 32 }
    requires inside { counts.inside + 1 < 2 ^ 32 }
    requires outside { counts.outside + 1 < 2 ^ 32 }
    requires undecided { counts.undecided + 1 < 2 ^ 32 }
    ensures done { IfOk result (λ now. (outcome : Outcome) × (outcome ≢ no_memory)
        × IsDone book.old.opening book.old.log line.session
        (standing_of sessions.old line.session) line.command outcome book.new.log
        × (book.new.opening ≡ book.old.opening)
        × (sessions.new ≡ set sessions.old line.session
        (standing_after (standing_of sessions.old line.session) line.command outcome))
        × (now.inside ≡ counts.inside + cond (has_words inside_words outcome) 1 0)
        × (now.outside ≡ counts.outside + cond (has_words outside_words outcome) 1 0)
        × (now.undecided ≡ counts.undecided + cond (begins_with undecided_words outcome) 1 0)) }
{
    let mut text = Bytes::new(alloc);
    let session = &mut sessions[line.session as usize];
    do_line(
        alloc,
        book,
        line.session,
        session,
        line.command,
        &mut text,
        &mut NoTally,
    )?;
    if text.as_slice() == b"- MEMORY\n".as_slice() {
        return Err(AllocError);
    }
    Ok(counts.with(body_of(text.as_slice())))
}

/// Does the lines of a script over a new book, and counts the replies.
fn count_script(alloc: Global, book: &mut Book, script: &[u8]) -> Result<Counts, AllocError>
    requires start { book.now.log ≡ [] }
    requires few { length script.now ≤ 2 ^ 25 }
    ensures done { IfOk result (λ counts. (lines : List ScriptLine) × (outcomes : List Outcome)
        × IsScript script.now lines × IsRun book.old.opening lines outcomes book.new.log
        × HadMemory outcomes
        × (counts.inside ≡ count_by (has_words inside_words) outcomes)
        × (counts.outside ≡ count_by (has_words outside_words) outcomes)
        × (counts.undecided ≡ count_by (begins_with undecided_words) outcomes)) }
{
    let mut sessions = sessions_at_start(alloc)?;
    let mut reader = ScriptReader::new(script);
    let mut counts = Counts {
        inside: 0,
        outside: 0,
        undecided: 0,
    };
    while let Some(line) = reader.next(alloc)? {
        counts = count_line(alloc, book, &mut sessions, line, counts)?;
    }
    Ok(counts)
}

/// Adds words and a number.
fn push_count(text: &mut Bytes, words: &[u8], count: u32) -> Result<(), AllocError>
    ensures { OnOk result (text.new ≡ text.old ++ (words.now ++ decimal count)) }
{
    text.extend_from_slice(words)?;
    push_decimal(text, count)
}

/// The text of a run: how many spheres there are, the counts of replies, and how many commits.
fn load_text(alloc: Global, n: u32, counts: Counts, commits: u64) -> Result<Bytes, AllocError>
    ensures { IfOk result (λ text. text
        ≡ load_text n counts.inside counts.outside counts.undecided commits) }
{
    let mut text = Bytes::new(alloc);
    push_count(&mut text, b"LOAD ", n)?;
    push_count(&mut text, b" INSIDE ", counts.inside)?;
    push_count(&mut text, b" OUTSIDE ", counts.outside)?;
    push_count(&mut text, b" UNDECIDED ", counts.undecided)?;
    text.extend_from_slice(b" COMMITS ")?;
    push_version(&mut text, commits)?;
    text.extend_from_slice(b"\n")?;
    Ok(text)
}

/// Makes the input of `load` with so many spheres, does its lines in order as `replay_run` does,
/// and tells how many replies say that a point is inside, outside or neither, and how many commits
/// were made.
///
/// AllocError when out of memory, also for a single line.
pub fn load_run(alloc: Global, n: u32) -> Result<Output, AllocError>
    requires { (1 ≤ n) × (n ≤ 1000) }
    ensures { IfOk result (λ out. (out.status ≡ Status.Done) × IsLoadOutput n out.text) }
{
    let input = load_input(alloc, n)?;
    // A written file is read, so that nothing but memory can be wanting.
    let Ok(read) = read_file(alloc, input.as_slice()) else {
        return Err(AllocError);
    };
    let mut book = Book::start_with_graph(alloc, read.model, read.graph, read.lines)?;
    let counts = count_script(alloc, &mut book, &input.as_slice()[read.end..])?;
    Ok(Output {
        status: Status::Done,
        text: load_text(alloc, n, counts, book.log().len() as u64)?,
    })
}
