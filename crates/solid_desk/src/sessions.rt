//! A session whose lines are done beside those of others.
ghost use Rattle.std.specs.Prelude.{◌≡◌, ◌<◌, ◌^◌, ◌*◌, suc, [], length, Some, IfOk, OnOk, OnErr};
ghost use Rattle.std.specs.List.{AllByRecursion};
ghost use Rattle.solid_base.specs.Ledgers.{RisesUpTo};
ghost use Rattle.solid_base.specs.declared.entities.Model.{Model as model};
ghost use Rattle.solid_questions.specs.Questions.{IsLawful};
ghost use Rattle.solid_questions.specs.Refusals.{most_evaluations};
ghost use Rattle.script_lines.specs.Scripts.{IsLawfulCommand, HasRecordWithin, IsLineWithin};
ghost use Rattle.script_lines.specs.declared.commands.Command.TheVariants as command;
ghost use Rattle.edit_core.specs.declared.changes.Change.TheVariants as change;
ghost use Rattle.turn_book.specs.Passes.{IsPassOf, IsIdle};
ghost use Rattle.solid_desk.specs.Outcomes.{bad_line, staged, no_memory, reply_of};
ghost use Rattle.solid_desk.specs.Sessions.{after_staging, staged_after};
ghost use Rattle.solid_desk.specs.SessionSteps.{IsLineOver};
ghost use Rattle.solid_desk.specs.Turns.{GoesOn, IsServedOver};

use crate::asks::ask;
use crate::edits::edit;
use crate::standings::Session;
use ask_core::{Book, Commit};
use script_lines::{Command, LineFault, SessionLines};
use solid_base::{Ledger, Reply, RowText, Transcript, push_decimal, word};
use solid_io::{Gate, Spot};
use solid_questions::Question;
use std::alloc::{AllocError, Global};
use std::sync::Wait;
use turn_book::{Pass, Turn};

// ---- replies

/// The reply to a line after which so many changes are staged.
fn staged_reply(alloc: Global, count: u32) -> Result<Reply, AllocError>
    ensures { IfOk result (λ reply. reply ≡ reply_of (staged count)) }
{
    let mut body = word(alloc, b"STAGED ")?;
    push_decimal(&mut body, count)?;
    Ok(Reply {
        version: None,
        body,
    })
}

/// The reply to a line that is no command.
fn bad_reply(alloc: Global, fault: &LineFault) -> Result<Reply, AllocError>
    ensures { IfOk result (λ reply. reply ≡ reply_of (bad_line fault.now)) }
{
    let mut body = word(alloc, b"REFUSED ")?;
    fault.push_words(&mut body)?;
    Ok(Reply {
        version: None,
        body,
    })
}

/// The reply to a line for which there isn't enough memory.
fn no_memory_reply(alloc: Global) -> Result<Reply, AllocError>
    ensures { IfOk result (λ reply. reply ≡ reply_of no_memory) }
{
    Ok(Reply {
        version: None,
        body: word(alloc, b"MEMORY")?,
    })
}

// ---- lines

/// Does a line that stages a row for an entity. When out of memory the session is unchanged.
fn replace(
    alloc: Global,
    session: &mut Session,
    de: u32,
    row: &RowText,
) -> Result<Reply, AllocError>
    requires number { 0 < de }
    requires record { IsLineWithin (2 ^ 25) row.now.text }
    requires line { session.now.line < 2 ^ 32 }
    ensures staged { OnOk result (session.new ≡
        after_staging session.old de (change.Replace row.now)) }
    ensures reply { IfOk result (λ reply. reply ≡ reply_of (staged (length session.new.batch))) }
    ensures unchanged { OnErr result (session.new ≡ session.old) }
{
    let reply = staged_reply(alloc, session.staged_with(de))?;
    session.replace(de, row.clone()?)?;
    Ok(reply)
}

/// Does a line that stages a row for a new entity, as `replace` does.
fn add(alloc: Global, session: &mut Session, de: u32, row: &RowText) -> Result<Reply, AllocError>
    requires number { 0 < de }
    requires record { IsLineWithin (2 ^ 25) row.now.text }
    requires line { session.now.line < 2 ^ 32 }
    ensures staged { OnOk result (session.new ≡
        after_staging session.old de (change.Add row.now)) }
    ensures reply { IfOk result (λ reply. reply ≡ reply_of (staged (length session.new.batch))) }
    ensures unchanged { OnErr result (session.new ≡ session.old) }
{
    let reply = staged_reply(alloc, session.staged_with(de))?;
    session.add(de, row.clone()?)?;
    Ok(reply)
}

/// Does a line that stages that an entity is dropped, as `replace` does.
fn drop_row(alloc: Global, session: &mut Session, de: u32) -> Result<Reply, AllocError>
    requires number { 0 < de }
    requires line { session.now.line < 2 ^ 32 }
    ensures staged { OnOk result (session.new ≡ after_staging session.old de change.Drop) }
    ensures reply { IfOk result (λ reply. reply ≡ reply_of (staged (length session.new.batch))) }
    ensures unchanged { OnErr result (session.new ≡ session.old) }
{
    let reply = staged_reply(alloc, session.staged_with(de))?;
    session.drop_row(de)?;
    Ok(reply)
}

/// Does a line that commits what is staged. Nothing is staged then, whatever it comes to. When out
/// of memory the session stands at the same line.
fn commit<R: Wait>(
    rt: &R,
    alloc: Global,
    turn: &Turn<Book>,
    pass: &mut Pass<Book>,
    number: u32,
    session: &mut Session,
) -> Result<Reply, AllocError>
    requires of_turn { IsPassOf turn.now pass.old }
    requires idle { IsIdle pass.old }
    requires line { session.now.line < 2 ^ 32 }
    ensures goes_on { GoesOn turn.now pass.old pass.new }
    ensures reply { IfOk result (λ reply. (opening : model) → turn.now.opening ≡ Some opening →
        IsLineOver pass.old pass.new opening number session.old session.new command.Commit reply) }
    ensures next_line { OnOk result (session.new.line ≡ suc session.old.line) }
    ensures same_line { OnErr result (session.new.line ≡ session.old.line) }
    ensures none_staged { session.new.batch ≡ [] }
    ensures unmade { OnErr result (pass.new.made ≡ pass.old.made) }
{
    let commit = Commit {
        session: number,
        line: session.line(),
        batch: session.take_batch(alloc),
    };
    let reply = edit(rt, alloc, turn, pass, commit)?;
    session.go_on(0);
    Ok(reply)
}

/// Does a line for which there is memory. When out of memory the line does nothing, but that a
/// commit leaves nothing staged, and the session stands at it. What was shown, the pass keeps.
fn try_line<R: Wait, G: Gate, L: Ledger>(
    rt: &R,
    alloc: Global,
    turn: &Turn<Book>,
    pass: &mut Pass<Book>,
    number: u32,
    session: &mut Session,
    command: &Command,
    gate: &G,
    leaves: &mut L,
) -> Result<Reply, AllocError>
    requires of_turn { IsPassOf turn.now pass.old }
    requires idle { IsIdle pass.old }
    requires command { IsLawfulCommand command.now }
    requires record_within { HasRecordWithin (2 ^ 25) command.now }
    requires line { session.now.line < 2 ^ 32 }
    ensures goes_on { GoesOn turn.now pass.old pass.new }
    ensures reply { IfOk result (λ reply. (opening : model) → turn.now.opening ≡ Some opening →
        IsLineOver pass.old pass.new opening number session.old session.new command.now reply) }
    ensures next_line { OnOk result (session.new.line ≡ suc session.old.line) }
    ensures same_line { OnErr result (session.new.line ≡ session.old.line) }
    ensures batch { OnErr result (session.new.batch ≡
        staged_after session.old.batch command.now no_memory) }
    ensures unmade { OnErr result (pass.new.made ≡ pass.old.made) }
    ensures light { RisesUpTo (L.count leaves.old) (L.count leaves.new) most_evaluations }
{
    match command {
        Command::Ask { question, live } => {
            let reply = ask(rt, alloc, turn, pass, number, question, *live, gate, leaves)?;
            session.go_on(0);
            Ok(reply)
        }
        Command::Replace { de, row } => replace(alloc, session, *de, row),
        Command::Add { de, row } => add(alloc, session, *de, row),
        Command::Drop { de } => drop_row(alloc, session, *de),
        Command::Commit => commit(rt, alloc, turn, pass, number, session),
        Command::Bad(fault) => {
            let reply = bad_reply(alloc, fault)?;
            session.go_on(0);
            Ok(reply)
        }
    }
}

/// Does a line. AllocError where there is no memory for a reply itself.
fn do_line<R: Wait, G: Gate, L: Ledger>(
    rt: &R,
    alloc: Global,
    turn: &Turn<Book>,
    pass: &mut Pass<Book>,
    number: u32,
    session: &mut Session,
    command: &Command,
    gate: &G,
    leaves: &mut L,
) -> Result<Reply, AllocError>
    requires of_turn { IsPassOf turn.now pass.old }
    requires idle { IsIdle pass.old }
    requires command { IsLawfulCommand command.now }
    requires record_within { HasRecordWithin (2 ^ 25) command.now }
    requires line { session.now.line < 2 ^ 32 }
    ensures goes_on { GoesOn turn.now pass.old pass.new }
    ensures reply { IfOk result (λ reply. (opening : model) → turn.now.opening ≡ Some opening →
        IsLineOver pass.old pass.new opening number session.old session.new command.now reply) }
    ensures next_line { OnOk result (session.new.line ≡ suc session.old.line) }
    ensures light { RisesUpTo (L.count leaves.old) (L.count leaves.new) most_evaluations }
{
    match try_line(
        rt, alloc, turn, pass, number, session, command, gate, leaves,
    ) {
        Ok(reply) => Ok(reply),
        Err(AllocError) => {
            session.go_on(0);
            no_memory_reply(alloc)
        }
    }
}

/// Does the lines of a session one after the other, beside other sessions that share the book: the
/// reply to each, in order. A line that lacks memory is answered so and does nothing, but that a
/// commit leaves nothing staged. The gate is reached after each reply, and before each work of a
/// question.
///
/// There are fewer than 2^32 lines; their questions' numbers are in their ranges, each number of a
/// change is at least 1, and each record is one line of at most 2^25 bytes. The pass is of the turn
/// and doesn't hold it, and so it is afterwards, also when out of memory. AllocError where there is
/// no memory for a reply itself. The call may wait.
///
/// A line counts at most 2^22 evaluations on the ledger, also when out of memory.
pub fn session<R: Wait, G: Gate, L: Ledger>(
    rt: &R,
    alloc: Global,
    turn: &Turn<Book>,
    pass: &mut Pass<Book>,
    lines: &SessionLines,
    gate: &G,
    leaves: &mut L,
) -> Result<Transcript, AllocError>
    requires of_turn { IsPassOf turn.now pass.old }
    requires idle { IsIdle pass.old }
    requires lawful { AllByRecursion IsLawfulCommand lines.now.commands }
    requires records_within { AllByRecursion (HasRecordWithin (2 ^ 25)) lines.now.commands }
    requires few { length lines.now.commands < 2 ^ 32 }
    ensures goes_on { GoesOn turn.now pass.old pass.new }
    ensures replies { IfOk result (λ replies. (opening : model) → turn.now.opening ≡ Some opening →
        IsServedOver pass.old pass.new opening lines.now.session lines.now.commands replies) }
    ensures light { RisesUpTo (L.count leaves.old) (L.count leaves.new)
        (length lines.now.commands * most_evaluations) }
{
    let mut stands = Session::new(alloc);
    let mut replies = Transcript::new(alloc);
    for command in lines.commands.as_slice() {
        let reply = do_line(
            rt,
            alloc,
            turn,
            pass,
            lines.session,
            &mut stands,
            command,
            gate,
            leaves,
        )?;
        replies.push(reply)?;
        gate.reach(lines.session, Spot::Answered);
    }
    Ok(replies)
}
