//! Questions of a session that shares its book with others.
ghost use Rattle.std.specs.Prelude.{◌≡◌, ◌<◌, ◌-◌, length, Some, IfOk, IfNone, MatchOption, true};
ghost use Rattle.solid_base.specs.Ledgers.{RisesUpTo, counted};
ghost use Rattle.solid_base.specs.declared.entities.Model.{Model as model};
ghost use Rattle.solid_questions.specs.Questions.{IsLawful};
ghost use Rattle.solid_questions.specs.Refusals.{most_evaluations};
ghost use Rattle.ask_core.specs.Answers.{IsAnswer};
ghost use Rattle.ask_core.specs.Runs.{IsRunning, left_of, settled, worked};
ghost use Rattle.ask_core.specs.declared.runs.Stage.TheVariants as stage;
ghost use Rattle.turn_book.specs.Passes.{IsPassOf, IsIdle};
ghost use Rattle.solid_desk.specs.Outcomes.{Outcome, reply_of};
ghost use Rattle.solid_desk.specs.Holds.{IsBegunUnder, IsRunUnder, IsLook, IsSameRun};
ghost use Rattle.solid_desk.specs.Holds.{IsHeardBy, IsReplyBy};
ghost use Rattle.solid_desk.specs.Turns.{GoesOn, IsAskedOver, LooksOften};

use ask_core::{Begun, Book, Run};
use solid_base::{Ledger, Reply};
use solid_io::{Gate, Spot};
use solid_questions::Question;
use std::alloc::{AllocError, Global};
use std::sync::Wait;
use turn_book::{Pass, Turn};

/// Begins a question on the newest version, under one hold of the turn.
fn begin<R: Wait>(
    rt: &R,
    alloc: Global,
    turn: &Turn<Book>,
    pass: &mut Pass<Book>,
    question: &Question,
    live: bool,
) -> Result<Begun, AllocError>
    requires of_turn { IsPassOf turn.now pass.old }
    requires idle { IsIdle pass.old }
    requires lawful { IsLawful question.now }
    ensures goes_on { GoesOn turn.now pass.old pass.new }
    ensures same { (pass.new.made ≡ pass.old.made) × (pass.new.heard ≡ pass.old.heard) }
    ensures shown { pass.new.seen ≡ length pass.new.front }
    ensures begun { IfOk result (IsBegunUnder turn.now pass.new question.now live) }
{
    let book = turn.take(rt, pass);
    book.obeys();
    let begun = book.begin(alloc, question, live);
    turn.give(pass, book);
    begun
}

/// A look of a run, under one hold of the turn. The uses that it takes are gathered before.
fn look<R: Wait>(rt: &R, turn: &Turn<Book>, pass: &mut Pass<Book>, run: &mut Run)
    requires of_turn { IsPassOf turn.now pass.old }
    requires idle { IsIdle pass.old }
    requires under { IsRunUnder turn.now pass.old run.old }
    requires stage { run.old.stage ≡ stage.Idle }
    ensures goes_on { GoesOn turn.now pass.old pass.new }
    ensures same { (pass.new.made ≡ pass.old.made) × (pass.new.heard ≡ pass.old.heard) }
    ensures look { IsLook run.old run.new }
{
    run.gather();
    let mut book = turn.take(rt, pass);
    book.obeys();
    book.look(run);
    turn.give(pass, book);
}

/// The reply of a run that is given up, where it is live and a later version is there. The newest
/// version is asked for where the run is live.
fn given_up(
    alloc: Global,
    turn: &Turn<Book>,
    pass: &mut Pass<Book>,
    run: &Run,
) -> Result<Option<Reply>, AllocError>
    requires of_turn { IsPassOf turn.now pass.old }
    requires idle { IsIdle pass.old }
    ensures goes_on { GoesOn turn.now pass.old pass.new }
    ensures same { (pass.new.made ≡ pass.old.made) × (pass.new.front ≡ pass.old.front) }
    ensures heard { IsHeardBy pass.old pass.new run.now.live
        (λ more. IfOk result (IsReplyBy run.now pass.new.seen more)) }
{
    if !run.live() {
        return Ok(None);
    }
    let newest = turn.newest(pass);
    run.cancelled(alloc, newest)
}

/// A fill of a run, under one hold of the turn. AllocError where the fill lacks memory; the book
/// is given back and the run has gone on all the same.
fn fill<R: Wait>(
    rt: &R,
    turn: &Turn<Book>,
    pass: &mut Pass<Book>,
    run: &mut Run,
) -> Result<(), AllocError>
    requires of_turn { IsPassOf turn.now pass.old }
    requires idle { IsIdle pass.old }
    requires under { IsRunUnder turn.now pass.old run.old }
    requires worked { run.old.stage ≡ stage.Worked }
    ensures goes_on { GoesOn turn.now pass.old pass.new }
    ensures same { (pass.new.made ≡ pass.old.made) × (pass.new.heard ≡ pass.old.heard) }
    ensures run { run.new ≡ settled run.old }
{
    let mut book = turn.take(rt, pass);
    book.obeys();
    let filled = book.fill(run);
    turn.give(pass, book);
    filled
}

/// The work of a run, with nothing held, and its fill: the answer, where no use is left then.
fn work<R: Wait, L: Ledger>(
    rt: &R,
    alloc: Global,
    turn: &Turn<Book>,
    pass: &mut Pass<Book>,
    run: &mut Run,
    leaves: &mut L,
) -> Result<Option<Reply>, AllocError>
    requires of_turn { IsPassOf turn.now pass.old }
    requires idle { IsIdle pass.old }
    requires under { IsRunUnder turn.now pass.old run.old }
    requires ready { run.old.stage ≡ stage.Ready }
    ensures goes_on { GoesOn turn.now pass.old pass.new }
    ensures same { (pass.new.made ≡ pass.old.made) × (pass.new.heard ≡ pass.old.heard) }
    ensures run { run.new ≡ settled (worked run.old) }
    ensures running { IsRunning (worked run.old) }
    ensures answer { IfOk result (λ reply. MatchOption reply (0 < left_of run.new) (λ r.
        (r.version ≡ Some (length run.new.log))
        × IsAnswer run.new.table.model run.new.question r.body)) }
    ensures counted { L.count leaves.new ≡ counted (L.count leaves.old) (length run.old.wanted) }
{
    run.work(leaves);
    run.obeys();
    fill(rt, turn, pass, run)?;
    run.answer(alloc)
}

/// A round of a run: a look, the gate, the newest version for a live one, the work, and a fill. It
/// gives the reply where the run has come to its end, or is given up.
fn round<R: Wait, G: Gate, L: Ledger>(
    rt: &R,
    alloc: Global,
    turn: &Turn<Book>,
    pass: &mut Pass<Book>,
    session: u32,
    run: &mut Run,
    gate: &G,
    leaves: &mut L,
) -> Result<Option<Reply>, AllocError>
    requires of_turn { IsPassOf turn.now pass.old }
    requires idle { IsIdle pass.old }
    requires under { IsRunUnder turn.now pass.old run.old }
    requires stage { run.old.stage ≡ stage.Idle }
    ensures goes_on { GoesOn turn.now pass.old pass.new }
    ensures made { pass.new.made ≡ pass.old.made }
    ensures running { IsRunning run.old }
    ensures run { IsSameRun run.old run.new }
    ensures fewer { IfOk result (λ reply. IfNone reply
        ((run.new.stage ≡ stage.Idle) × (left_of run.new < left_of run.old))) }
    ensures heard { IsHeardBy pass.old pass.new run.old.live
        (λ more. IfOk result (IsReplyBy run.old pass.new.seen more)) }
    ensures often { run.old.live ≡ true →
        LooksOften pass.old pass.new (L.count leaves.old) (L.count leaves.new) }
    ensures light { RisesUpTo (L.count leaves.old) (L.count leaves.new)
        (left_of run.old - left_of run.new) }
{
    run.obeys();
    look(rt, turn, pass, run);
    gate.reach(session, Spot::Work);
    if let Some(reply) = given_up(alloc, turn, pass, run)? {
        return Ok(Some(reply));
    }
    work(rt, alloc, turn, pass, run, leaves)
}

/// Answers a question of a session, on the newest version when it begins: at once where it is
/// refused or asks about no cells, else by rounds of a look, the work and a fill. A look and a fill
/// are one hold of the turn each; the work holds nothing, and the gate is reached before it. A live
/// question asks for the newest version before each work, and is given up for a later one; so it
/// evaluates at most 64 primitives for each time that it asked.
///
/// The pass is of the turn and doesn't hold it, and so it is afterwards, also when out of memory.
/// The question's numbers are in their ranges. AllocError when out of memory. The call may wait.
pub fn ask<R: Wait, G: Gate, L: Ledger>(
    rt: &R,
    alloc: Global,
    turn: &Turn<Book>,
    pass: &mut Pass<Book>,
    session: u32,
    question: &Question,
    live: bool,
    gate: &G,
    leaves: &mut L,
) -> Result<Reply, AllocError>
    requires of_turn { IsPassOf turn.now pass.old }
    requires idle { IsIdle pass.old }
    requires lawful { IsLawful question.now }
    ensures goes_on { GoesOn turn.now pass.old pass.new }
    ensures made { pass.new.made ≡ pass.old.made }
    ensures answer { IfOk result (λ reply. (opening : model) → turn.now.opening ≡ Some opening →
        (outcome : Outcome) × (reply ≡ reply_of outcome)
        × IsAskedOver pass.old pass.new opening session question.now live outcome) }
    ensures often { live ≡ true →
        LooksOften pass.old pass.new (L.count leaves.old) (L.count leaves.new) }
    ensures light { RisesUpTo (L.count leaves.old) (L.count leaves.new) most_evaluations }
{
    let mut run = match begin(rt, alloc, turn, pass, question, live)? {
        Begun::Answered(reply) => return Ok(reply),
        Begun::Running(run) => run,
    };
    loop {
        if let Some(reply) = round(rt, alloc, turn, pass, session, &mut run, gate, leaves)? {
            return Ok(reply);
        }
    }
}
