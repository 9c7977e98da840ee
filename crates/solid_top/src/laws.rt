ghost use Rattle.std.specs.Prelude.{◌≡◌, ◌+◌, ◌*◌, ℕ, List, None, slice_get};
ghost use Rattle.solid_base.specs.References.{at_number};
ghost use Rattle.solid_base.specs.declared.entities.Entity.{Entity};
ghost use Rattle.solid_base.specs.declared.entities.Model.{Model};
ghost use Rattle.script_lines.specs.declared.commands.ScriptLine.{ScriptLine};
ghost use Rattle.solid_top.specs.declared.statuses.Status.{Status};
ghost use Rattle.solid_top.specs.Replay.{IsDueReplay, IsReplay, IsReplayed};

/// Bytes are a file of one model, and a script with one list of lines, at most.
pub fn one_reading()
    ensures { (bytes : List ℕ) (model other : Model) (lines others : List ScriptLine) →
        IsReplay bytes model lines → IsReplay bytes other others
        → (model ≡ other) × (lines ≡ others) }
{}

/// To all bytes one status and one text are due, and one alone: those of a replay in which there
/// is memory for each line. A replay may answer them.
pub fn one_replay()
    ensures some { (bytes : List ℕ) → (s : Status) × (text : List ℕ) × IsDueReplay bytes s text }
    ensures once { (bytes : List ℕ) (s t : Status) (a b : List ℕ) →
        IsDueReplay bytes s a → IsDueReplay bytes t b → (s ≡ t) × (a ≡ b) }
    ensures due { (bytes : List ℕ) (s : Status) (text : List ℕ) →
        IsDueReplay bytes s text → IsReplayed bytes s text }
{}

/// The rows have the odd numbers in order: that at place `i`, counted from 0, has the number 2i +
/// 1. No row has an even number.
pub fn row_numbers()
    ensures { (rows : List Entity) (place : ℕ)
        → (at_number rows (2 * place + 1) ≡ slice_get rows place)
        × (at_number rows (2 * place) ≡ None) }
{}
