//! Lines that are done one after the other over a book, on one thread.
ghost use Rattle.std.specs.Prelude.{◌≡◌, ◌<◌, ◌++◌, ◌^◌, ℕ, List, Bool, IfOk, OnOk, OnErr};
ghost use mathlib.Core.List.{IsPrefix};
ghost use Rattle.solid_base.specs.Ledgers.{RisesUpTo};
ghost use Rattle.solid_questions.specs.Questions.{IsLawful};
ghost use Rattle.solid_questions.specs.Refusals.{most_evaluations};
ghost use Rattle.script_lines.specs.declared.commands.Command.TheVariants as command;
ghost use Rattle.script_lines.specs.Scripts.{IsLawfulCommand, HasRecordWithin};
ghost use Rattle.solid_desk.specs.LineSteps.{IsCommitDone, without_line};
ghost use Rattle.solid_desk.specs.Lines.{IsLineDone};
ghost use Rattle.solid_desk.specs.Outcomes.{Outcome, named_version, reply_of, reply_text};

use crate::replies::{push_bad_line, push_committed, push_no_memory, push_refused, push_staged};
use crate::standings::Session;
use crate::versions::push_version;
use ask_core::{Book, Commit};
use edit_core::EditFault;
use script_lines::Command;
use solid_base::{Bytes, Ledger};
use solid_questions::Question;
use std::alloc::{AllocError, Global};

/// Does a line that asks a question, live or not: the reply is added, and the session goes on. When
/// out of memory the session stays as it is, and what stood in the text stands in front of it.
fn ask<L: Ledger>(
    alloc: Global,
    book: &mut Book,
    session: &mut Session,
    question: &Question,
    out: &mut Bytes,
    leaves: &mut L,
) -> Result<(), AllocError>
    requires lawful { IsLawful question.now }
    requires line { session.now.line < 2 ^ 32 }
    ensures done { OnOk result ((text : List ℕ) × ((number : ℕ) (live : Bool) →
        IsLineDone book.old book.new number session.old session.new
        (command.Ask question.now live) text (L.count leaves.old) (L.count leaves.new))
        × (out.new ≡ out.old ++ text)) }
    ensures front { IsPrefix out.old out.new }
    ensures opening { book.new.opening ≡ book.old.opening }
    ensures log { book.new.log ≡ book.old.log }
    ensures unchanged { OnErr result (session.new ≡ session.old) }
    ensures light { RisesUpTo (L.count leaves.old) (L.count leaves.new) most_evaluations }
{
    book.obeys();
    let version = book.table().version();
    push_version(out, version)?;
    out.extend_from_slice(b" ")?;
    book.push_answer(alloc, out, question, leaves)?;
    out.extend_from_slice(b"\n")?;
    session.go_on(version);
    Ok(())
}

/// Makes a commit on the newest version, or not, and adds the reply: the version that it names.
/// The reply that it is made stands there before it is. When out of memory nothing is committed,
/// and what stood in the text stands in front of it.
fn make(alloc: Global, book: &mut Book, commit: Commit, out: &mut Bytes) -> Result<u64, AllocError>
    ensures made { IfOk result (λ version. (outcome : Outcome)
        × IsCommitDone book.old book.new commit outcome × (version ≡ named_version outcome)
        × (out.new ≡ out.old ++ reply_text (reply_of outcome))) }
    ensures front { IsPrefix out.old out.new }
    ensures unchanged { OnErr result (book.new ≡ book.old) }
{
    book.obeys();
    book.table().obeys();
    let (start, version) = (out.len(), book.table().version());
    push_committed(out, version + 1)?;
    match book.commit(alloc, commit) {
        Ok(made) => Ok(made),
        Err(EditFault::Memory(fault)) => Err(fault),
        Err(fault) => {
            out.truncate(start);
            push_refused(alloc, out, version, &fault)?;
            Ok(version)
        }
    }
}

/// Does a line that commits what is staged: the reply is added, and the session goes on with
/// nothing staged, whatever the commit comes to. When out of memory nothing is staged either.
fn commit(
    alloc: Global,
    book: &mut Book,
    number: u32,
    session: &mut Session,
    out: &mut Bytes,
) -> Result<(), AllocError>
    requires line { session.now.line < 2 ^ 32 }
    ensures done { OnOk result ((text : List ℕ) × ((count : ℕ) →
        IsLineDone book.old book.new number session.old session.new command.Commit text
        count count) × (out.new ≡ out.old ++ text)) }
    ensures front { IsPrefix out.old out.new }
    ensures unchanged { OnErr result (book.new ≡ book.old) }
    ensures none_staged { OnErr result (session.new ≡ without_line session.old command.Commit) }
{
    let commit = Commit {
        session: number,
        line: session.line(),
        batch: session.take_batch(alloc),
    };
    let version = make(alloc, book, commit, out)?;
    session.go_on(version);
    Ok(())
}

/// Does a line for which there is memory. When out of memory the line does nothing, but that a
/// commit leaves nothing staged; what stood in the text still stands in front of it.
fn try_line<L: Ledger>(
    alloc: Global,
    book: &mut Book,
    number: u32,
    session: &mut Session,
    command: Command,
    out: &mut Bytes,
    leaves: &mut L,
) -> Result<(), AllocError>
    requires command { IsLawfulCommand command }
    requires record_within { HasRecordWithin (2 ^ 25) command }
    requires line { session.now.line < 2 ^ 32 }
    ensures done { OnOk result ((text : List ℕ) × IsLineDone book.old book.new number
        session.old session.new command text (L.count leaves.old) (L.count leaves.new)
        × (out.new ≡ out.old ++ text)) }
    ensures front { IsPrefix out.old out.new }
    ensures opening { OnErr result (book.new.opening ≡ book.old.opening) }
    ensures log { OnErr result (book.new.log ≡ book.old.log) }
    ensures stands { OnErr result (session.new ≡ without_line session.old command) }
    ensures light { RisesUpTo (L.count leaves.old) (L.count leaves.new) most_evaluations }
{
    match command {
        Command::Ask { question, .. } => ask(alloc, book, session, &question, out, leaves),
        Command::Replace { de, row } => {
            push_staged(out, session.staged_with(de))?;
            session.replace(de, row)
        }
        Command::Add { de, row } => {
            push_staged(out, session.staged_with(de))?;
            session.add(de, row)
        }
        Command::Drop { de } => {
            push_staged(out, session.staged_with(de))?;
            session.drop_row(de)
        }
        Command::Commit => commit(alloc, book, number, session, out),
        Command::Bad(fault) => {
            push_bad_line(out, &fault)?;
            session.go_on(0);
            Ok(())
        }
    }
}

/// Does the next line of a session, of which this is the number, over a book: the reply is added to
/// a text.
///
/// A question, live or not, is answered as on the newest version, by rounds over the book's memo. A
/// change is staged in the session. A commit makes the next version of what is staged, or is
/// refused by its first fault; nothing is staged afterwards. A line that is no command is answered
/// by its fault. A line for which there isn't enough memory is answered so and does nothing, but
/// that a commit leaves nothing staged.
///
/// AllocError comes when there is no memory for that reply itself; nothing is promised then of the
/// book, the session and the text. A line counts at most 2^22 evaluations on the ledger, then too.
pub fn do_line<L: Ledger>(
    alloc: Global,
    book: &mut Book,
    number: u32,
    session: &mut Session,
    command: Command,
    out: &mut Bytes,
    leaves: &mut L,
) -> Result<(), AllocError>
    requires command { IsLawfulCommand command }
    requires record_within { HasRecordWithin (2 ^ 25) command }
    requires line { session.now.line < 2 ^ 32 }
    ensures done { OnOk result ((text : List ℕ) × IsLineDone book.old book.new number
        session.old session.new command text (L.count leaves.old) (L.count leaves.new)
        × (out.new ≡ out.old ++ text)) }
    ensures light { RisesUpTo (L.count leaves.old) (L.count leaves.new) most_evaluations }
{
    let start = out.len();
    match try_line(alloc, book, number, session, command, out, leaves) {
        Ok(()) => Ok(()),
        Err(_) => {
            out.truncate(start);
            session.go_on(0);
            push_no_memory(out)
        }
    }
}
