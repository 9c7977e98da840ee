ghost use Rattle.std.specs.Prelude.{◌≡◌, ◌≤◌, ◌*◌, ◌^◌, ◌++◌, ℕ, List, [], length, codes, decimal};
ghost use Rattle.std.specs.Prelude.{◌<◌, ◌+◌, ℤ, suc, get_or, set, Some, IfOk, OnOk};
ghost use Rattle.std.specs.List.{AllByRecursion};
ghost use Rattle.solid_base.specs.Ledgers.{RisesUpTo};
ghost use Rattle.script_lines.specs.declared.commands.ScriptLine.{ScriptLine};
ghost use Rattle.script_lines.specs.Grammar.{most_sessions};
ghost use Rattle.solid_base.specs.declared.entities.Model.{Model};
ghost use Rattle.solid_base.specs.declared.geometry.Cube.{Cube};
ghost use Rattle.solid_base.specs.declared.geometry.Vec3.{Vec3};
ghost use Rattle.fixed_enclosure.specs.Spans.{BoxHolds, box_of};
ghost use Rattle.csg_primitives.specs.Sharpness.{point_cube};
ghost use Rattle.solid_questions.specs.declared.questions.Question.TheVariants as question;
ghost use Rattle.solid_questions.specs.Refusals.{most_evaluations};
ghost use Rattle.ask_core.specs.Meanings.{IsAllInside, IsAllOutside, IsInsideAt, IsOpenAt};
ghost use Rattle.ask_core.specs.Meanings.{AreCounted, IsOutsideAt, byte_at};
ghost use Rattle.solid_questions.specs.Bodies.{bounds_words, volume_words};
ghost use Rattle.solid_questions.specs.QuestionCells.{all_cells, section_cell};
ghost use Rattle.script_lines.specs.Scripts.{HasRecordWithin, IsLawfulLine, IsScript};
ghost use Rattle.iges_parameters.specs.Accepted.{IsAccepted};
ghost use Rattle.ask_core.specs.Books.{IsBook};
ghost use Rattle.solid_desk.specs.InOrder.{IsRun};
ghost use Rattle.solid_desk.specs.Lines.{IsLineDone};
ghost use Rattle.solid_desk.specs.Outcomes.{Outcome};
ghost use Rattle.solid_desk.specs.Sessions.{Standing};
ghost use Rattle.solid_top.specs.declared.statuses.Status.{Status};
ghost use Rattle.solid_top.specs.Replay.{CountsReplay, IsAnswerIn, IsCountedReplay, IsCountedRun};
ghost use Rattle.solid_top.specs.Replay.{IsLawfulText, IsReplay, IsReplayed};
ghost use Rattle.solid_top.specs.Sessions.{KeepAll, no_replies, with_reply};

use crate::faults::of_file;
use crate::outputs::{Output, refused};
use crate::sessions::{Transcript, new_sessions, output_text};
use crate::statuses::Status;
use ask_core::Book;
use ask_core::laws::{boxes, extents, points, sections, volumes};
use iges_file::read_file;
use script_lines::{ScriptLine, ScriptReader};
use solid_base::Ledger;
use solid_desk::do_line;
use std::alloc::{AllocError, Global};

/// Does a line over a book, and keeps its reply with those of its session.
fn do_next<L: Ledger>(
    alloc: Global,
    book: &mut Book,
    sessions: &mut [Transcript],
    line: ScriptLine,
    leaves: &mut L,
) -> Result<(), AllocError>
    requires line { IsLawfulLine line }
    requires record { HasRecordWithin (2 ^ 25) line.command }
    requires size { length sessions.now ≡ most_sessions + 1 }
    requires count { (get_or sessions.now line.session no_replies).count + 1 < 2 ^ 32 }
    requires room { (get_or sessions.now line.session no_replies).stands.line < 2 ^ 32 }
    ensures done { OnOk result ((text : List ℕ) × (after : Standing) ×
        IsLineDone book.old book.new line.session
        (get_or sessions.old line.session no_replies).stands after line.command text
        (L.count leaves.old) (L.count leaves.new) × (sessions.new ≡ set sessions.old line.session
        (with_reply (get_or sessions.old line.session no_replies) after text))) }
    ensures light { RisesUpTo (L.count leaves.old) (L.count leaves.new) most_evaluations }
    ensures valid { IsBook book.old }
{
    book.obeys();
    let session = &mut sessions[line.session as usize];
    do_line(
        alloc,
        book,
        line.session,
        &mut session.stands,
        line.command,
        &mut session.text,
        leaves,
    )?;
    session.count += 1;
    Ok(())
}

/// Does the lines of a script one after the other over a new book, and gives the replies of each
/// session.
fn do_script<L: Ledger>(
    alloc: Global,
    book: &mut Book,
    script: &[u8],
    leaves: &mut L,
) -> Result<Vec<Transcript>, AllocError>
    requires start { book.now.log ≡ [] }
    requires empty { book.now.memo.entries ≡ [] }
    requires few { length script.now ≤ 2 ^ 25 }
    ensures done { IfOk result (λ sessions. (lines : List ScriptLine) ×
        (outcomes : List Outcome) × IsScript script.now lines ×
        AllByRecursion IsLawfulLine lines ×
        IsRun book.old.opening lines outcomes book.new.log ×
        KeepAll sessions.items lines outcomes × IsCountedRun book.old.opening book.new.log lines
        outcomes (L.count leaves.old) (L.count leaves.new) ×
        (length book.new.log ≤ length script.now)) }
    ensures most { (lines : List ScriptLine) → IsScript script.now lines →
        RisesUpTo (L.count leaves.old) (L.count leaves.new) (length lines * most_evaluations) }
{
    let mut sessions = new_sessions(alloc)?;
    let mut reader = ScriptReader::new(script);
    while let Some(line) = reader.next(alloc)? {
        do_next(alloc, book, &mut sessions, line, leaves)?;
    }
    book.obeys();
    Ok(sessions)
}

/// What `replay_run` does, with no word on what the replies mean.
fn answer_bytes<L: Ledger>(
    alloc: Global,
    bytes: &[u8],
    leaves: &mut L,
) -> Result<Output, AllocError>
    requires { length bytes.now ≤ 2 ^ 25 }
    ensures replayed { IfOk result (λ out. IsReplayed bytes.now out.status out.text) }
    ensures counted { IfOk result (λ out. out.status ≡ Status.Done →
        IsCountedReplay bytes.now out.text (L.count leaves.old) (L.count leaves.new)) }
    ensures ledger { CountsReplay bytes.now (L.count leaves.old) (L.count leaves.new) }
    ensures lawful { IfOk result (λ out. (opening : Model) (lines : List ScriptLine) →
        IsReplay bytes.now opening lines →
        IsAccepted opening × AllByRecursion IsLawfulLine lines) }
{
    let read = match read_file(alloc, bytes) {
        Ok(read) => read,
        Err(fault) => return refused(alloc, of_file(fault)?),
    };
    let mut book = Book::start_with_graph(alloc, read.model, read.graph, read.lines)?;
    let sessions = do_script(alloc, &mut book, &bytes[read.end..], leaves)?;
    Ok(Output {
        status: Status::Done,
        text: output_text(alloc, book.log(), &sessions)?,
    })
}

/// Does the lines of the script after a file, of at most 2^25 bytes in all, in the order of the
/// input over one book: each question, live or not, is answered by the newest version; a commit
/// makes the next version, or says why it isn't made. A line that is no command is answered by its
/// fault, and one for which there isn't enough memory by `MEMORY`: it does nothing, but that a
/// commit leaves nothing staged. The text has the log of the commits, and the replies of each
/// session that has a line.
///
/// Bytes that are no file are refused with their first fault. The ledger counts the evaluations of
/// primitives: none for bytes that are no file; for a script at most those of answers afresh, and
/// one alone for each entity, stamp and box where the book's memo has room for all. AllocError
/// comes when out of memory; those of some first lines may then have been made.
pub fn replay_run<L: Ledger>(
    alloc: Global,
    bytes: &[u8],
    leaves: &mut L,
) -> Result<Output, AllocError>
    requires { length bytes.now ≤ 2 ^ 25 }
    ensures replayed { IfOk result (λ out. IsReplayed bytes.now out.status out.text) }
    ensures counted { IfOk result (λ out. out.status ≡ Status.Done →
        IsCountedReplay bytes.now out.text (L.count leaves.old) (L.count leaves.new)) }
    ensures ledger { CountsReplay bytes.now (L.count leaves.old) (L.count leaves.new) }

    // The text is that of a lawful outcome of the sessions, and each line has its reply in it.
    ensures legal { IfOk result (λ out. out.status ≡ Status.Done → (opening : Model)
        (lines : List ScriptLine) → IsReplay bytes.now opening lines →
        IsLawfulText opening lines out.text) }

    // What the replies to points and boxes mean, by the rows of the version that they name.
    ensures inside { IfOk result (λ out. (model : Model) (e : ℕ) (at : Vec3) →
        IsAnswerIn bytes.now out.text model (question.Point e at)
        (codes "INSIDE") → IsInsideAt model.rows e 1 at) }
    ensures outside { IfOk result (λ out. (model : Model) (e : ℕ) (at : Vec3) →
        IsAnswerIn bytes.now out.text model (question.Point e at)
        (codes "OUTSIDE") → IsOutsideAt model.rows e 1 at) }
    ensures undecided { IfOk result (λ out. (model : Model) (e : ℕ) (at : Vec3)
        (rest : List ℕ) → IsAnswerIn bytes.now out.text model (question.Point e at)
        (codes "UNDECIDED " ++ rest) → (d : ℕ) × (rest ≡ decimal d) ×
        IsOpenAt model.rows e (point_cube at) d) }
    ensures cell_inside { IfOk result (λ out. (model : Model) (e : ℕ) (cube : Cube) →
        IsAnswerIn bytes.now out.text model (question.Cell e cube)
        (codes "INSIDE") → IsAllInside model.rows e cube) }
    ensures cell_outside { IfOk result (λ out. (model : Model) (e : ℕ) (cube : Cube) →
        IsAnswerIn bytes.now out.text model (question.Cell e cube)
        (codes "OUTSIDE") → IsAllOutside model.rows e cube) }
    ensures cell_undecided { IfOk result (λ out. (model : Model) (e : ℕ) (cube : Cube)
        (rest : List ℕ) → IsAnswerIn bytes.now out.text model (question.Cell e cube)
        (codes "UNDECIDED " ++ rest) → (d : ℕ) × (rest ≡ decimal d) ×
        IsOpenAt model.rows e cube d) }

    // What the signs of a section and the counts of a volume mean: `#` is 35, and `.` is 46.
    ensures section_inside { IfOk result (λ out. (model : Model) (e nx ny i j : ℕ)
        (z x0 y0 step : ℤ) (rest : List ℕ) →
        IsAnswerIn bytes.now out.text model (question.Section e z x0 y0 step nx ny)
        (codes "SECTION" ++ rest) →
        i < nx → j < ny → byte_at (codes "SECTION" ++ rest) (suc j) i ≡ Some 35 →
        IsAllInside model.rows e (section_cell z x0 y0 step i j)) }
    ensures section_outside { IfOk result (λ out. (model : Model) (e nx ny i j : ℕ)
        (z x0 y0 step : ℤ) (rest : List ℕ) →
        IsAnswerIn bytes.now out.text model (question.Section e z x0 y0 step nx ny)
        (codes "SECTION" ++ rest) →
        i < nx → j < ny → byte_at (codes "SECTION" ++ rest) (suc j) i ≡ Some 46 →
        IsAllOutside model.rows e (section_cell z x0 y0 step i j)) }
    ensures volume { IfOk result (λ out. (model : Model) (e depth : ℕ) (cube : Cube)
        (rest : List ℕ) → IsAnswerIn bytes.now out.text model
        (question.Volume e cube depth) (codes "VOLUME" ++ rest) →
        (lower : ℕ) × (upper : ℕ) ×
        (codes "VOLUME" ++ rest ≡ volume_words lower upper cube depth) ×
        AreCounted model.rows e (all_cells (question.Volume e cube depth)) lower upper) }

    // What extents mean: no place of the cube outside them, or of one that is EMPTY, is in the
    // entity.
    ensures bounds { IfOk result (λ out. (model : Model) (e depth : ℕ) (cube : Cube)
        (rest : List ℕ) → IsAnswerIn bytes.now out.text model
        (question.Bounds e cube depth) (codes "BOUNDS" ++ rest) →
        (found : Cube) × (codes "BOUNDS" ++ rest ≡ bounds_words found) ×
        ((m : ℕ) (at : Vec3) → 0 < m → BoxHolds m (box_of cube) at →
        ¬ BoxHolds m (box_of found) at → IsOutsideAt model.rows e m at)) }
    ensures empty { IfOk result (λ out. (model : Model) (e depth : ℕ) (cube : Cube) →
        IsAnswerIn bytes.now out.text model (question.Bounds e cube depth)
        (codes "EMPTY") → IsAllOutside model.rows e cube) }
{
    points();
    boxes();
    sections();
    volumes();
    extents();
    answer_bytes(alloc, bytes, leaves)
}
