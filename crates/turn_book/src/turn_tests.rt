//! The turn over a small book, on one thread and on several.
ghost use Rattle.std.specs.Prelude.{◌≡◌, ◌+◌, ◌<◌, ◌≤◌, ◌^◌, ◌⊎◌, [], ◌∷◌, ◌++◌, length, IfOk};
ghost use Rattle.std.specs.Thread.{IsSync};
ghost use Rattle.turn_book.specs.Passes.{IsPassOf, IsIdle, IsWhole};

use crate::{Logged, Pass, Turn, pass_crosses, turn_crosses, turn_is_shared};
use solid_base::Numbers;
use std::alloc::{AllocError, Global};
use std::sync::Wait;
use std::test::Fail;
use std::thread;
use std::thread::Threads;

/// How often each thread takes the turn.
const ROUNDS: u32 = 1000;

/// A book whose opening is a number, and whose log is a list of numbers.
#[derive(Drop)]
struct Notes {
    title: u32,
    log: Numbers,
}

impl Logged for Notes {
    type Opening = u32;

    type Entry = u32;

    ghost opening = { λ b. b.title };

    ghost log = { λ b. b.log };

    fn count(&self) -> u64 {
        self.log.len() as u64
    }
}

/// A book with these numbers.
fn notes_of(alloc: Global, title: u32, numbers: &[u32]) -> Result<Notes, AllocError> {
    let mut log = Numbers::new(alloc);
    log.extend_from_slice(numbers)?;
    Ok(Notes { title, log })
}

/// A turn for a book with these numbers.
fn turn_of(alloc: Global, numbers: &[u32]) -> Result<(Turn<Notes>, Pass<Notes>), AllocError>
    ensures of_turn { IfOk result (λ t. IsPassOf t.0 t.1) }
    ensures idle { IfOk result (λ t. IsIdle t.1) }
    ensures parts { IfOk result (λ t. IsWhole t.1) }
{
    let book = notes_of(alloc, 7, numbers)?;
    book.count();
    Turn::new(alloc, book)
}

/// Adds a number to the book, and answers how many there are then. When out of memory none is
/// added.
fn add<R: Wait>(rt: &R, turn: &Turn<Notes>, pass: &mut Pass<Notes>, number: u32) -> u64
    requires { IsPassOf turn.now pass.old × IsIdle pass.old }
    ensures { IsPassOf turn.now pass.new × IsIdle pass.new × (pass.new.parts ≡ pass.old.parts) }
{
    let mut book = turn.take(rt, pass);
    let _ = book.log.push(number);
    let count = book.count();
    turn.give(pass, book);
    count
}

/// Takes the turn many times, and adds a number each time.
fn rounds<R: Wait>(rt: &R, turn: &Turn<Notes>, mut pass: Pass<Notes>) -> Pass<Notes>
    requires { IsPassOf turn.now pass × IsIdle pass }
    ensures { IsPassOf turn.now result × IsIdle result × (result.parts ≡ pass.parts) }
{
    for number in 0..ROUNDS {
        add(rt, turn, &mut pass, number);
    }
    pass
}

/// Splits a pass off for each of the other threads, the next one in a thread of its own, and meets
/// them.
fn spread<R: Threads + Wait + Sync>(
    rt: &R,
    turn: &Turn<Notes>,
    mut pass: Pass<Notes>,
    others: u32,
) -> Pass<Notes>
    requires { IsPassOf turn.now pass × IsIdle pass × (others < pass.parts) }
    ensures { IsPassOf turn.now result × IsIdle result × (result.parts ≡ pass.parts) }
{
    if others == 0 {
        return rounds(rt, turn, pass);
    }
    let other = turn.split(&mut pass);
    let (mut first, second) = thread::join(
        rt,
        || -> Pass<Notes>
            requires pass { IsSync R.row × IsPassOf turn.now pass × IsIdle pass }
            requires others { (0 < others) × (others < pass.parts + 1) }
            ensures of_turn { IsPassOf turn.entry.now result × IsIdle result }
            ensures parts { result.parts ≡ pass.parts }
        { spread(rt, turn, pass, others - 1) },
        || -> Pass<Notes>
            requires { IsPassOf turn.now other × IsIdle other }
            ensures of_turn { IsPassOf turn.entry.now result × IsIdle result }
            ensures parts { result.parts ≡ other.parts }
        { rounds(rt, turn, other) },
    );
    turn.meet(&mut first, second);
    first
}

/// Several threads take the turn 1,000 times each and meet again. Answers how many numbers there
/// are then.
fn numbers_of<R: Threads + Wait + Sync>(
    rt: &R,
    alloc: Global,
    threads: u32,
) -> Result<usize, AllocError>
    requires { (0 < threads) × (threads ≤ 8) }
{
    let (turn, pass) = turn_of(alloc, &[])?;
    let pass = spread(rt, &turn, pass, threads - 1);
    Ok(turn.close(rt, pass).log.len())
}

#[test]
fn two_threads_take_turns(rt: HostRuntime) -> Result<(), Fail> {
    assert_eq!(rt; numbers_of(&rt, rt.alloc(), 2)?, 2000);
    Ok(())
}

#[test]
fn passes_split_and_meet_in_several_threads(rt: HostRuntime) -> Result<(), Fail> {
    assert_eq!(rt; numbers_of(&rt, rt.alloc(), 1)?, 1000);
    assert_eq!(rt; numbers_of(&rt, rt.alloc(), 5)?, 5000);
    Ok(())
}

#[test]
fn newest_answers_the_new_count(rt: HostRuntime) -> Result<(), Fail> {
    let (turn, mut first) = turn_of(rt.alloc(), &[4, 5])?;
    let mut second = turn.split(&mut first);
    assert_eq!(rt; turn.newest(&mut second), 2);
    assert_eq!(rt; add(&rt, &turn, &mut first, 6), 3);
    assert_eq!(rt; turn.newest(&mut second), 3);
    // Nobody is waited for while the other pass has the turn, and a book given back as it was adds
    // nothing.
    let book = turn.take(&rt, &mut first);
    assert_eq!(rt; turn.newest(&mut second), 3);
    assert_eq!(rt; turn.newest(&mut first), 3);
    turn.give(&mut first, book);
    assert_eq!(rt; turn.newest(&mut second), 3);
    assert_eq!(rt; add(&rt, &turn, &mut second, 8), 4);
    assert_eq!(rt; turn.newest(&mut first), 4);
    turn.meet(&mut first, second);
    let book = turn.close(&rt, first);
    assert_eq!(rt;
        (book.title, book.log.as_slice()),
        (7, [4, 5, 6, 8].as_slice())
    );
    Ok(())
}

#[test]
fn closes_with_a_part_missing(rt: HostRuntime) -> Result<(), Fail> {
    let (turn, mut pass) = turn_of(rt.alloc(), &[4])?;
    let mut lost = turn.split(&mut pass);
    add(&rt, &turn, &mut lost, 5);
    add(&rt, &turn, &mut pass, 6);
    drop(lost);
    let book = turn.close(&rt, pass);
    assert_eq!(rt;
        (book.title, book.log.as_slice()),
        (7, [4, 5, 6].as_slice())
    );
    Ok(())
}

#[test]
fn crosses_threads(rt: HostRuntime) -> Result<(), Fail> {
    let (turn, pass) = turn_of(rt.alloc(), &[])?;
    let turn = turn_crosses(turn);
    let mut pass = pass_crosses(pass);
    assert_eq!(rt; turn_is_shared(&turn).newest(&mut pass), 0);
    Ok(())
}
