ghost use Rattle.std.specs.Prelude.{◌≡◌, ◌++◌, ℕ, List};
ghost use mathlib.Core.List.{IsPrefix};
ghost use Rattle.solid_base.specs.declared.entities.Model.{Model};
ghost use Rattle.memo_graph.specs.Memos.{Entry};
ghost use Rattle.edit_core.specs.Versions.{LogEntry};
ghost use Rattle.ask_core.specs.Books.{IsRight};
ghost use Rattle.ask_core.specs.Runs.{RunFacts, IsRunning, IsOwn};

/// A law on all entries of a memo: one that is right by a log stays right as commits are added.
pub fn later_versions()
    ensures { (opening : Model) (log rest : List LogEntry) (entry : Entry) →
        IsRight opening log entry → IsRight opening (log ++ rest) entry }
{}

/// A law on all runs: an entry that a run has worked out is right by each log that goes on from the
/// run's own.
pub fn worked_entries()
    ensures { (run : RunFacts) (log : List LogEntry) (entry : Entry) → IsRunning run →
        IsPrefix run.log log → IsOwn run entry → IsRight run.opening log entry }
{}
