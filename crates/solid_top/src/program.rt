ghost use Rattle.std.specs.Prelude.{◌≡◌, ◌↔◌, ◌≢◌, ◌⊎◌, ℕ, List, Some, true, is_some, IfErr, IfOk, map};
ghost use Rattle.std.specs.Prelude.{◌≤◌, ◌^◌, length};
ghost use Rattle.std.specs.Io.KnownBytes.{Keeps};
ghost use Rattle.solid_io.specs.Causes.{SameKnown};
ghost use Rattle.solid_top.specs.declared.commands.Command.{Command};
ghost use Rattle.solid_top.specs.declared.statuses.Status.{Status};
ghost use Rattle.solid_top.specs.Commands.{Answers, IsCommand, IsLawful, IsReader, Names};
ghost use Rattle.solid_top.specs.Commands.{TakesInput};
ghost use Rattle.solid_top.specs.Run.{EndsDue, EndsServed, Finishes, IsDue, IsInputOf, IsRun};
ghost use Rattle.solid_top.specs.Streams.{IsLongRead, Stopped, count_after_reading, most_bytes};

use crate::checks::check_run;
use crate::commands::{Command, command_of};
use crate::load::load_run;
use crate::outputs::Output;
use crate::replay::replay_run;
use crate::serve::serve_run;
use crate::statuses::Status;
use crate::streams::{ReadError, read_input, write_text};
use solid_base::{Bytes, NoTally};
use solid_io::{Failed, Gate, Sink, Source};
use std::alloc::{AllocError, Global};
use std::sync::Wait;
use std::thread::Threads;

/// What is printed where the words are no command.
const USAGE: &[u8] = b"USAGE: solidd check, replay, serve or load N\n";

/// What is printed where the input has more than 2^25 bytes.
const TOO_LONG: &[u8] = b"TOO LONG\n";

/// What a command answers to an input of at most 2^25 bytes.
fn answer<R: Threads + Wait + Sync, G: Gate>(
    rt: &R,
    alloc: Global,
    command: Command,
    bytes: &[u8],
    gate: &G,
) -> Result<Output, AllocError>
    requires few { length bytes.now ≤ 2 ^ 25 }
    requires lawful { IsLawful command }
    ensures { IfOk result (λ out. Answers command bytes.now out.status out.text) }
{
    match command {
        Command::Check => check_run(alloc, bytes),
        Command::Replay => replay_run(alloc, bytes, &mut NoTally),
        Command::Serve => serve_run(rt, alloc, bytes, gate),
        Command::Load(count) => load_run(alloc, count),
    }
}

/// The input of a command: the source is read to its end, or not at all for `load`.
fn input_for<S: Source>(alloc: Global, command: Command, source: &mut S) -> Result<Bytes, ReadError>
    ensures input { IfOk result (IsInputOf command (S.left source.old) (S.left source.new)) }
    ensures short { IfOk result (λ bytes. length bytes ≤ most_bytes) }
    ensures err { IfErr result (λ error. TakesInput command ×
        Stopped (S.left source.old) (S.left source.new) error) }
    ensures cause { S.faults source.new ≡ count_after_reading (S.faults source.old) result }
    ensures known { SameKnown (S.left source.old) (S.left source.new) }
{
    match command {
        Command::Check | Command::Replay | Command::Serve => read_input(alloc, source),
        Command::Load(_) => Ok(Bytes::new(alloc)),
    }
}

/// Writes the text of a status.
fn finish<K: Sink>(sink: &mut K, status: Status, text: &[u8]) -> Status
    ensures finishes { Finishes (K.held sink.old) (K.held sink.new)
        (K.faults sink.old) (K.faults sink.new) status text.now result }
    ensures known { SameKnown (K.held sink.old) (K.held sink.new) }
{
    match write_text(sink, text) {
        Ok(()) => status,
        Err(Failed) => Status::WriteFault,
    }
}

/// Answers an input that was read, and writes the answer.
fn answer_input<R: Threads + Wait + Sync, K: Sink, G: Gate>(
    rt: &R,
    alloc: Global,
    command: Command,
    bytes: &[u8],
    sink: &mut K,
    gate: &G,
) -> Status
    requires few { length bytes.now ≤ most_bytes }
    requires lawful { IsLawful command }
    ensures answered { ((result ≡ Status.Memory) × (K.faults sink.new ≡ K.faults sink.old)
        × Keeps (K.held sink.old) (K.held sink.new))
        ⊎ ((s : Status) × (text : List ℕ) × Answers command bytes.now s text
        × Finishes (K.held sink.old) (K.held sink.new)
        (K.faults sink.old) (K.faults sink.new) s text result) }
    ensures known { SameKnown (K.held sink.old) (K.held sink.new) }
{
    match answer(rt, alloc, command, bytes, gate) {
        Ok(output) => finish(sink, output.status, output.text.as_slice()),
        Err(_) => Status::Memory,
    }
}

/// What `run` does, in one clause.
fn run_words<R: Threads + Wait + Sync, S: Source, K: Sink, G: Gate>(
    rt: &R,
    alloc: Global,
    words: &[&str],
    source: &mut S,
    sink: &mut K,
    gate: &G,
) -> Status
    ensures { IsRun (map (λ word. word.now) words.now)
        (S.left source.old) (S.left source.new) (S.faults source.old) (S.faults source.new)
        (K.held sink.old) (K.held sink.new) (K.faults sink.old) (K.faults sink.new) result }
{
    let command = match command_of(alloc, words) {
        Ok(Some(command)) => command,
        Ok(None) => return finish(sink, Status::Usage, USAGE),
        Err(_) => return Status::Memory,
    };
    match input_for(alloc, command, source) {
        Ok(bytes) => answer_input(rt, alloc, command, bytes.as_slice(), sink, gate),
        Err(ReadError::Memory) => Status::Memory,
        Err(ReadError::Fault) => Status::ReadFault,
        Err(ReadError::TooLong) => finish(sink, Status::TooLong, TOO_LONG),
    }
}

/// Runs a command, `check`, `replay`, `serve` or `load N`: its words are the command line without
/// the program's name. Reads the source to its end, but not for `load`, answers, and writes the
/// answer to the sink. The first read or write that fails ends the run. Only `serve` may wait and
/// reach the gate.
///
/// The status is `Usage` where the words are no command, and then nothing is read; `ReadFault` or
/// `WriteFault` exactly where a call on the source or the sink failed; `TooLong` where more than
/// 2^25 bytes were read; `Memory` when out of memory, also over the words; else that of the answer,
/// `Done` or `Refused`.
pub fn run<R: Threads + Wait + Sync, S: Source, K: Sink, G: Gate>(
    rt: &R,
    alloc: Global,
    words: &[&str],
    source: &mut S,
    sink: &mut K,
    gate: &G,
) -> Status
    ensures run { IsRun (map (λ word. word.now) words.now)
        (S.left source.old) (S.left source.new) (S.faults source.old) (S.faults source.new)
        (K.held sink.old) (K.held sink.new) (K.faults sink.old) (K.faults sink.new) result }

    // Usage comes exactly where the words are no command, unless a write failed or it was out of
    // memory. Where they are none that reads the input nothing is read, whatever the status.
    ensures usage { result ≢ Status.WriteFault → result ≢ Status.Memory →
        ((result ≡ Status.Usage) ↔ (IsCommand (map (λ word. word.now) words.now) → ⊥)) }
    ensures unread { (IsReader (map (λ word. word.now) words.now) → ⊥) →
        Keeps (S.left source.old) (S.left source.new) }

    ensures unwritten { (result ≡ Status.Memory) ⊎ (result ≡ Status.ReadFault) →
        Keeps (K.held sink.old) (K.held sink.new) }

    // TooLong comes exactly where more than 2^25 bytes were read, unless a write failed.
    ensures too_long { is_some (S.left source.old) ≡ true → result ≢ Status.WriteFault →
        ((result ≡ Status.TooLong) ↔ IsLongRead (S.left source.old) (S.left source.new)) }

    // To words and bytes one status and one text at most are due (program_laws). A run whose lines
    // have memory comes to them.
    ensures due { (bytes : List ℕ) → S.left source.old ≡ Some bytes → (s : Status) (text : List ℕ) →
        IsDue (map (λ word. word.now) words.now) bytes s text →
        EndsDue (map (λ word. word.now) words.now) bytes (K.held sink.old) (K.held sink.new)
        s text result }

    // What `serve` comes to is the output of a lawful outcome of the sessions, in whatever order
    // their turns fell, or the refusal of the file.
    ensures served { (bytes : List ℕ) → S.left source.old ≡ Some bytes →
        length bytes ≤ most_bytes → Names (map (λ word. word.now) words.now) Command.Serve →
        EndsServed bytes (K.held sink.old) (K.held sink.new) result }
{
    run_words(rt, alloc, words, source, sink, gate)
}
