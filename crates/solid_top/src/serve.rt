//! Serving the sessions of a script side by side.
ghost use Rattle.std.specs.Prelude.{◌≡◌, ◌≤◌, ◌<◌, ◌+◌, ◌^◌, ◌++◌, ℕ, ℤ, List, All, [], suc};
ghost use Rattle.std.specs.Prelude.{codes, decimal, length, map, Some, IfOk};
ghost use Rattle.std.specs.Prelude.{slice_index_or};
ghost use Rattle.std.specs.List.{AllByRecursion};
ghost use Rattle.solid_base.specs.declared.entities.Model.{Model};
ghost use Rattle.solid_base.specs.declared.geometry.Cube.{Cube};
ghost use Rattle.solid_base.specs.declared.geometry.Vec3.{Vec3};
ghost use Rattle.fixed_enclosure.specs.Spans.{BoxHolds, box_of};
ghost use Rattle.csg_primitives.specs.Sharpness.{point_cube};
ghost use Rattle.solid_questions.specs.declared.questions.Question.TheVariants as question;
ghost use Rattle.solid_questions.specs.Bodies.{bounds_words, volume_words};
ghost use Rattle.solid_questions.specs.QuestionCells.{all_cells, section_cell};
ghost use Rattle.script_lines.specs.declared.commands.ScriptLine.{ScriptLine};
ghost use Rattle.script_lines.specs.Scripts.{IsLawfulLine};
ghost use Rattle.iges_parameters.specs.Accepted.{IsAccepted};
ghost use Rattle.ask_core.specs.Meanings.{IsAllInside, IsAllOutside, IsInsideAt, IsOpenAt};
ghost use Rattle.ask_core.specs.Meanings.{AreCounted, IsOutsideAt, byte_at};
ghost use Rattle.edit_core.specs.Versions.{IsLawfulLog};
ghost use Rattle.turn_book.specs.Passes.{IsPassOf, IsIdle};
ghost use Rattle.solid_top.specs.Replay.{IsAnswerIn, IsReplay};
ghost use Rattle.solid_top.specs.Serve.{IsServed};
ghost use Rattle.solid_top.specs.Serving.{AreServedBy, HasRun, IsLawfulSession, IsReady};

use crate::faults::of_file;
use crate::outputs::{Output, refused};
use crate::statuses::Status;
use crate::transcripts::{Served, whole_text};
use ask_core::Book;
use ask_core::laws::{boxes, extents, points, sections, volumes};
use iges_file::read_file;
use script_lines::{SessionLines, read_script};
use solid_base::{NoTally, Transcript};
use solid_desk::session;
use solid_io::Gate;
use std::alloc::{AllocError, Global};
use std::sync::Wait;
use std::thread;
use std::thread::Threads;
use turn_book::{Pass, Turn};

/// A session that is to run: its lines, and a pass of its own.
#[derive(Drop)]
pub struct Job {
    pub lines: SessionLines,
    pub pass: Pass<Book>,
}

/// A session that has run: its lines, its replies, and its pass.
#[derive(Drop)]
pub struct Done {
    pub lines: SessionLines,
    pub replies: Result<Transcript, AllocError>,
    pub pass: Pass<Book>,
}

/// Gives each session a pass of its own.
fn jobs_of(
    alloc: Global,
    turn: &Turn<Book>,
    pass: &mut Pass<Book>,
    sessions: Vec<SessionLines>,
) -> Result<Vec<Job>, AllocError>
    requires of_turn { IsPassOf turn.now pass.old }
    requires idle { IsIdle pass.old }
    requires parts { length sessions.items < pass.old.parts }
    requires lawful { All IsLawfulSession sessions.items }
    ensures of_turn { IsPassOf turn.now pass.new }
    ensures idle { IsIdle pass.new }
    ensures same_made { pass.new.made ≡ pass.old.made }
    ensures parts { IfOk result (λ jobs.
        pass.new.parts + length jobs.items ≡ pass.old.parts) }
    ensures ready { IfOk result (λ jobs. All (IsReady turn.now) jobs.items) }
    ensures lines { IfOk result (λ jobs. map (λ j. j.lines) jobs.items ≡ sessions.items) }
{
    let mut jobs = Vec::with_capacity(alloc, sessions.len())?;
    for lines in sessions {
        let own = turn.split(pass);
        jobs.push(Job { lines, pass: own })?;
    }
    Ok(jobs)
}

/// Runs a session.
fn run_session<R: Wait, G: Gate>(
    rt: &R,
    alloc: Global,
    turn: &Turn<Book>,
    gate: &G,
    job: Job,
) -> Done
    requires ready { IsReady turn.now job }
    ensures ran { HasRun turn.now result }
    ensures lines { result.lines ≡ job.lines }
{
    let Job { lines, mut pass } = job;
    let replies = session(rt, alloc, turn, &mut pass, &lines, gate, &mut NoTally);
    Done {
        lines,
        replies,
        pass,
    }
}

/// Runs the sessions side by side, one thread each where threads can be made.
fn run_all<R: Threads + Wait + Sync, G: Gate>(
    rt: &R,
    alloc: Global,
    turn: &Turn<Book>,
    gate: &G,
    jobs: Vec<Job>,
) -> Result<Vec<Done>, AllocError>
    requires ready { All (IsReady turn.now) jobs.items }
    ensures len { IfOk result (λ done. length done.items ≡ length jobs.items) }
    ensures ran { IfOk result (λ done. All (HasRun turn.now) done.items) }
    ensures lines { IfOk result (λ done. (i : ℕ) (d : _) (j : _) → i < length jobs.items →
        (slice_index_or done.items i d).lines ≡ (slice_index_or jobs.items i j).lines) }
{
    thread::map_vec(
        rt,
        jobs,
        &|job: Job| -> Done
            requires { IsReady turn.now job }
            ensures ran { HasRun turn.entry.now result }
            ensures lines { result.lines ≡ job.lines }
        { run_session(rt, alloc, turn, gate, job) },
    )
}

/// Takes the passes of the sessions in, and gives their replies. AllocError also where a session
/// lacked memory for a reply.
fn meet_all(
    alloc: Global,
    turn: &Turn<Book>,
    pass: &mut Pass<Book>,
    done: Vec<Done>,
) -> Result<Vec<Served>, AllocError>
    requires of_turn { IsPassOf turn.now pass.old }
    requires idle { IsIdle pass.old }
    requires nothing_made { pass.old.made ≡ 0 }
    requires ran { All (HasRun turn.now) done.items }
    ensures of_turn { IsPassOf turn.now pass.new }
    ensures idle { IsIdle pass.new }
    ensures parts { IfOk result (λ served.
        pass.new.parts ≡ pass.old.parts + length done.items) }
    ensures served { IfOk result (λ served. (opening : Model) → turn.now.opening ≡ Some opening →
        AreServedBy opening pass.new.front pass.new.seen pass.new.made
        (map (λ d. d.lines) done.items) served.items) }
{
    let mut served = Vec::with_capacity(alloc, done.len())?;
    for one in done {
        let Done {
            lines,
            replies,
            pass: other,
        } = one;
        turn.meet(pass, other);
        served.push(Served {
            session: lines.session,
            replies: replies?,
        })?;
    }
    Ok(served)
}

/// Serves the sessions over a book at its beginning: the book at the end, and their replies.
fn serve_sessions<R: Threads + Wait + Sync, G: Gate>(
    rt: &R,
    alloc: Global,
    book: Book,
    sessions: Vec<SessionLines>,
    gate: &G,
) -> Result<(Book, Vec<Served>), AllocError>
    requires start { book.log ≡ [] }
    requires few { length sessions.items < 2 ^ 32 }
    requires lawful { All IsLawfulSession sessions.items }
    ensures lawful { IfOk result (λ r. IsLawfulLog book.opening r.0.log) }
    ensures served { IfOk result (λ r. AreServedBy book.opening r.0.log (length r.0.log)
        (length r.0.log) sessions.items r.1.items) }
{
    let (turn, mut pass) = Turn::new(alloc, book)?;
    let jobs = jobs_of(alloc, &turn, &mut pass, sessions)?;
    let done = run_all(rt, alloc, &turn, gate, jobs)?;
    let served = meet_all(alloc, &turn, &mut pass, done)?;
    let last = turn.close(rt, pass);
    last.obeys();
    Ok((last, served))
}

/// What `serve_run` does, with no word on what the replies mean.
fn serve_bytes<R: Threads + Wait + Sync, G: Gate>(
    rt: &R,
    alloc: Global,
    bytes: &[u8],
    gate: &G,
) -> Result<Output, AllocError>
    requires { length bytes.now ≤ 2 ^ 25 }
    ensures served { IfOk result (λ out. IsServed bytes.now out.status out.text) }
    ensures lawful { IfOk result (λ out. (opening : Model) (lines : List ScriptLine) →
        IsReplay bytes.now opening lines →
        IsAccepted opening × AllByRecursion IsLawfulLine lines) }
{
    let read = match read_file(alloc, bytes) {
        Ok(read) => read,
        Err(fault) => return refused(alloc, of_file(fault)?),
    };
    let sessions = read_script(alloc, &bytes[read.end..])?;
    let book = Book::start_with_graph(alloc, read.model, read.graph, read.lines)?;
    let (last, served) = serve_sessions(rt, alloc, book, sessions, gate)?;
    Ok(Output {
        status: Status::Done,
        text: whole_text(alloc, last.log(), &served)?,
    })
}

/// Serves the sessions of the script after a file, of at most 2^25 bytes in all, side by side over
/// one book, one thread for each session that has a line where threads can be made: each session's
/// lines are done in their order, and in which order the sessions' lines fall is not said. A
/// question is answered by the version that is the newest when it begins; a live one may be given
/// up for a later one; a commit makes the next version, or says why it isn't made. A line that is
/// no command is answered by its fault, and one for which there isn't enough memory by `MEMORY`: it
/// does nothing, but that a commit leaves nothing staged. The text has the log of the commits, and
/// the replies of each session that has a line. The gate is reached before each work of a question
/// and after each reply.
///
/// Bytes that are no file are refused with their first fault. AllocError comes when out of memory.
/// The call may wait.
pub fn serve_run<R: Threads + Wait + Sync, G: Gate>(
    rt: &R,
    alloc: Global,
    bytes: &[u8],
    gate: &G,
) -> Result<Output, AllocError>
    requires { length bytes.now ≤ 2 ^ 25 }

    // The text is that of a lawful outcome of the sessions, whatever order their turns fell in.
    ensures served { IfOk result (λ out. IsServed bytes.now out.status out.text) }

    // What the replies to points and boxes mean, by the rows of the version that they name.
    ensures inside { IfOk result (λ out. (model : Model) (e : ℕ) (at : Vec3) →
        IsAnswerIn bytes.now out.text model (question.Point e at)
        (codes "INSIDE") → IsInsideAt model.rows e 1 at) }
    ensures outside { IfOk result (λ out. (model : Model) (e : ℕ) (at : Vec3) →
        IsAnswerIn bytes.now out.text model (question.Point e at)
        (codes "OUTSIDE") → IsOutsideAt model.rows e 1 at) }
    ensures undecided { IfOk result (λ out. (model : Model) (e : ℕ) (at : Vec3)
        (rest : List ℕ) → IsAnswerIn bytes.now out.text model (question.Point e at)
        (codes "UNDECIDED " ++ rest) → (d : ℕ) × (rest ≡ decimal d) ×
        IsOpenAt model.rows e (point_cube at) d) }
    ensures cell_inside { IfOk result (λ out. (model : Model) (e : ℕ) (cube : Cube) →
        IsAnswerIn bytes.now out.text model (question.Cell e cube)
        (codes "INSIDE") → IsAllInside model.rows e cube) }
    ensures cell_outside { IfOk result (λ out. (model : Model) (e : ℕ) (cube : Cube) →
        IsAnswerIn bytes.now out.text model (question.Cell e cube)
        (codes "OUTSIDE") → IsAllOutside model.rows e cube) }
    ensures cell_undecided { IfOk result (λ out. (model : Model) (e : ℕ) (cube : Cube)
        (rest : List ℕ) → IsAnswerIn bytes.now out.text model (question.Cell e cube)
        (codes "UNDECIDED " ++ rest) → (d : ℕ) × (rest ≡ decimal d) ×
        IsOpenAt model.rows e cube d) }

    // What the signs of a section and the counts of a volume mean: `#` is 35, and `.` is 46.
    ensures section_inside { IfOk result (λ out. (model : Model) (e nx ny i j : ℕ)
        (z x0 y0 step : ℤ) (rest : List ℕ) →
        IsAnswerIn bytes.now out.text model (question.Section e z x0 y0 step nx ny)
        (codes "SECTION" ++ rest) →
        i < nx → j < ny → byte_at (codes "SECTION" ++ rest) (suc j) i ≡ Some 35 →
        IsAllInside model.rows e (section_cell z x0 y0 step i j)) }
    ensures section_outside { IfOk result (λ out. (model : Model) (e nx ny i j : ℕ)
        (z x0 y0 step : ℤ) (rest : List ℕ) →
        IsAnswerIn bytes.now out.text model (question.Section e z x0 y0 step nx ny)
        (codes "SECTION" ++ rest) →
        i < nx → j < ny → byte_at (codes "SECTION" ++ rest) (suc j) i ≡ Some 46 →
        IsAllOutside model.rows e (section_cell z x0 y0 step i j)) }
    ensures volume { IfOk result (λ out. (model : Model) (e depth : ℕ) (cube : Cube)
        (rest : List ℕ) → IsAnswerIn bytes.now out.text model
        (question.Volume e cube depth) (codes "VOLUME" ++ rest) →
        (lower : ℕ) × (upper : ℕ) ×
        (codes "VOLUME" ++ rest ≡ volume_words lower upper cube depth) ×
        AreCounted model.rows e (all_cells (question.Volume e cube depth)) lower upper) }

    // What extents mean: no place of the cube outside them, or of one that is EMPTY, is in the
    // entity.
    ensures bounds { IfOk result (λ out. (model : Model) (e depth : ℕ) (cube : Cube)
        (rest : List ℕ) → IsAnswerIn bytes.now out.text model
        (question.Bounds e cube depth) (codes "BOUNDS" ++ rest) →
        (found : Cube) × (codes "BOUNDS" ++ rest ≡ bounds_words found) ×
        ((m : ℕ) (at : Vec3) → 0 < m → BoxHolds m (box_of cube) at →
        ¬ BoxHolds m (box_of found) at → IsOutsideAt model.rows e m at)) }
    ensures empty { IfOk result (λ out. (model : Model) (e depth : ℕ) (cube : Cube) →
        IsAnswerIn bytes.now out.text model (question.Bounds e cube depth)
        (codes "EMPTY") → IsAllOutside model.rows e cube) }
{
    points();
    boxes();
    sections();
    volumes();
    extents();
    serve_bytes(rt, alloc, bytes, gate)
}
