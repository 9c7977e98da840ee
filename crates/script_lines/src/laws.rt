ghost use Rattle.std.specs.Prelude.{◌≡◌, ℕ, List, [], ◌∷◌, true, length};
ghost use Rattle.std.specs.List.{AllByRecursion};
ghost use Rattle.script_lines.specs.declared.commands.ScriptLine.{ScriptLine};
ghost use Rattle.script_lines.specs.Grammar.{IsLine};
ghost use Rattle.script_lines.specs.Lines.{is_kept, kept_lines};
ghost use Rattle.script_lines.specs.Scripts.{IsScript, IsLineWithin, HasRecordWithin};
ghost use Rattle.script_lines.specs.Scripts.{HaveRecordsWithin};

/// A law on all texts: a line that isn't skipped has one session, and one command or fault.
pub fn one_line()
    ensures some { (line : List ℕ) → is_kept line ≡ true → (s : ScriptLine) × IsLine line s }
    ensures once { (line : List ℕ) (a b : ScriptLine) → IsLine line a → IsLine line b → a ≡ b }
{}

/// A law on all bytes: they are one script.
pub fn one_script()
    ensures some { (bytes : List ℕ) → (lines : List ScriptLine) × IsScript bytes lines }
    ensures once { (bytes : List ℕ) (a b : List ScriptLine) →
        IsScript bytes a → IsScript bytes b → a ≡ b }
{}

/// A script is read line by line: bytes of which no line is left are the empty script, and a line
/// before those of other bytes stands in front of their script.
pub fn line_by_line()
    ensures none { (bytes : List ℕ) → kept_lines bytes ≡ [] → IsScript bytes [] }
    ensures one_more { (bytes rest text : List ℕ) (line : ScriptLine) (lines : List ScriptLine) →
        kept_lines bytes ≡ text ∷ kept_lines rest → IsLine text line → IsScript rest lines →
        IsScript bytes (line ∷ lines) }
{}

/// A law on all bytes: each line is one line, and no longer than the bytes; and the record of a
/// command is one line that is no longer than its line.
pub fn records_within()
    ensures lines { (bytes : List ℕ) →
        AllByRecursion (IsLineWithin (length bytes)) (kept_lines bytes) }
    ensures one_record { (most : ℕ) (text : List ℕ) (line : ScriptLine) →
        IsLineWithin most text → IsLine text line → HasRecordWithin most line.command }
    ensures script { (bytes : List ℕ) (lines : List ScriptLine) →
        IsScript bytes lines → HaveRecordsWithin (length bytes) lines }
{}
