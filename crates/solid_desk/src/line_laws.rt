ghost use Rattle.std.specs.Prelude.{◌≡◌, ◌≤◌, ◌+◌, ℕ, List, [], ◌∷◌, ◌++◌, length};
ghost use Rattle.solid_base.specs.declared.entities.Model.{Model};
ghost use Rattle.memo_graph.specs.declared.key.Key.{Key};
ghost use Rattle.script_lines.specs.declared.commands.ScriptLine.{ScriptLine};
ghost use Rattle.edit_core.specs.Versions.{LogEntry};
ghost use Rattle.ask_core.specs.Books.{BookFacts, IsBook, memo_capacity};
ghost use Rattle.solid_desk.specs.InOrder.{HadMemory};
ghost use Rattle.solid_desk.specs.Lines.{IsLineDone, HoldRunUses, AreCountedLines};
ghost use Rattle.solid_desk.specs.Outcomes.{Outcome};
ghost use Rattle.solid_desk.specs.Sessions.{Standing};
ghost use Rattle.solid_desk.specs.Work.{AreWork};

/// A law on all lines that are done one after the other over one book, whose memo is empty at
/// first. Where there was memory for each line, they make no more evaluations than answers afresh
/// take, and no more than there are keys, where the memo has room for all of them.
pub fn counted_lines()
    ensures none { (opening : Model) (count : ℕ) → AreCountedLines opening [] [] [] [] count count }
    ensures one_more { (old new : BookFacts) (lines : List ScriptLine) (outcomes : List Outcome)
        (line : ScriptLine) (at after : Standing) (text : List ℕ) (first before count : ℕ) →
        IsBook old → length lines ≡ length outcomes →
        AreCountedLines old.opening old.log old.memo.entries lines outcomes first before →
        (done : IsLineDone old new line.session at after line.command text before count) →
        AreCountedLines new.opening new.log new.memo.entries (lines ++ line ∷ [])
        (outcomes ++ done.outcome ∷ []) first count }
    ensures most { (book : BookFacts) (lines : List ScriptLine) (outcomes : List Outcome)
        (first count work : ℕ) →
        AreCountedLines book.opening book.log book.memo.entries lines outcomes first count →
        HadMemory outcomes → AreWork book.opening book.log lines outcomes work →
        count ≤ first + work }
    ensures thrifty { (book : BookFacts) (lines : List ScriptLine) (outcomes : List Outcome)
        (first count : ℕ) (keys : List Key) → IsBook book →
        AreCountedLines book.opening book.log book.memo.entries lines outcomes first count →
        HadMemory outcomes → length keys ≤ memo_capacity →
        HoldRunUses book.opening book.log keys lines outcomes → count ≤ first + length keys }
{}
