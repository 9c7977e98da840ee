//! Commits of a session that shares its book with others.
ghost use Rattle.std.specs.Prelude.{◌≡◌, length, Some, OnErr, IfOk};
ghost use Rattle.solid_base.specs.declared.entities.Model.{Model as model};
ghost use Rattle.edit_core.specs.EditFaults.{IsOfText};
ghost use Rattle.turn_book.specs.Passes.{IsPassOf, IsIdle};
ghost use Rattle.solid_desk.specs.Outcomes.{Outcome, refused, reply_of};
ghost use Rattle.solid_desk.specs.Holds.{IsCommitUnder};
ghost use Rattle.solid_desk.specs.Turns.{GoesOn, IsEditedOver};

use ask_core::{Book, Commit};
use edit_core::EditFault;
use solid_base::{Reply, word};
use std::alloc::{AllocError, Global};
use std::sync::Wait;
use turn_book::{Logged, Pass, Turn};

/// Makes a commit, or not, under one hold of the turn: the newest version then, and what the commit
/// came to.
fn commit_now<R: Wait>(
    rt: &R,
    alloc: Global,
    turn: &Turn<Book>,
    pass: &mut Pass<Book>,
    commit: Commit,
) -> (u64, Result<(), EditFault>)
    requires of_turn { IsPassOf turn.now pass.old }
    requires idle { IsIdle pass.old }
    ensures goes_on { GoesOn turn.now pass.old pass.new }
    ensures same_heard { pass.new.heard ≡ pass.old.heard }
    ensures shown { pass.new.seen ≡ length pass.new.front }
    ensures version { result.0 ≡ length pass.new.front }
    ensures commit { IsCommitUnder turn.now pass.old pass.new commit result.1 }
{
    let mut book = turn.take(rt, pass);
    book.obeys();
    let made = match book.commit(alloc, commit) {
        Ok(_) => Ok(()),
        Err(fault) => Err(fault),
    };
    let version = book.count();
    turn.give(pass, book);
    (version, made)
}

/// The reply to a commit that isn't made, by the model of a version.
fn refused_reply(alloc: Global, version: u64, fault: &EditFault) -> Result<Reply, AllocError>
    requires { IsOfText fault.now }
    ensures { IfOk result (λ reply. reply ≡ reply_of (refused version fault.now)) }
{
    let mut body = word(alloc, b"REFUSED ")?;
    body.extend_from_slice(fault.write_fault(alloc)?.as_slice())?;
    Ok(Reply {
        version: Some(version),
        body,
    })
}

/// Makes a commit on the newest version, under one hold of the turn, or says why it isn't made.
///
/// The pass is of the turn and doesn't hold it, and so it is afterwards, also when out of memory.
/// AllocError when out of memory; the commit isn't made then. The call may wait.
pub fn edit<R: Wait>(
    rt: &R,
    alloc: Global,
    turn: &Turn<Book>,
    pass: &mut Pass<Book>,
    commit: Commit,
) -> Result<Reply, AllocError>
    requires of_turn { IsPassOf turn.now pass.old }
    requires idle { IsIdle pass.old }
    ensures goes_on { GoesOn turn.now pass.old pass.new }
    ensures reply { IfOk result (λ reply. (opening : model) → turn.now.opening ≡ Some opening →
        (outcome : Outcome) × (reply ≡ reply_of outcome)
        × IsEditedOver pass.old pass.new opening commit outcome) }
    ensures unmade { OnErr result (pass.new.made ≡ pass.old.made) }
    ensures same_heard { pass.new.heard ≡ pass.old.heard }
{
    let body = word(alloc, b"COMMITTED")?;
    let (version, made) = commit_now(rt, alloc, turn, pass, commit);
    match made {
        Ok(()) => Ok(Reply {
            version: Some(version),
            body,
        }),
        Err(EditFault::Memory(fault)) => Err(fault),
        Err(fault) => refused_reply(alloc, version, &fault),
    }
}
