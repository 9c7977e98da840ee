ghost use Rattle.std.specs.Prelude.{◌≡◌, ◌*◌, ◌<◌, ◌≤◌, ℕ, List, length, Contains, Some};
ghost use Rattle.solid_base.specs.declared.entities.Model.{Model};
ghost use Rattle.solid_base.specs.Graph.{weight_of};
ghost use Rattle.solid_eval.specs.Uses.{Use};
ghost use Rattle.solid_questions.specs.declared.questions.Question.{Question};
ghost use Rattle.solid_questions.specs.Questions.{entity_of};
ghost use Rattle.solid_questions.specs.QuestionCells.{all_cells};
ghost use Rattle.memo_graph.specs.declared.key.Key.{Key};
ghost use Rattle.memo_graph.specs.Memos.{Entry, verdict_of};
ghost use Rattle.edit_core.specs.Versions.{LogEntry, Version};
ghost use Rattle.ask_core.specs.Books.{key_verdict, memo_capacity};
ghost use Rattle.ask_core.specs.Machine.{SessionRun};
ghost use Rattle.ask_core.specs.Runs.{RunFacts, IsRunning, IsTaken, kept_all, left_in_cell, left_of};
ghost use Rattle.ask_core.specs.Runs.{question_uses, settled, with_taken, worked};
ghost use Rattle.ask_core.specs.Timely.{HasLeft, IsAfterRounds, IsDoneAfter};
ghost use Rattle.ask_core.specs.declared.runs.Stage.TheVariants as stage;

/// A law on all runs: rounds of a look, the work and a fill end them. No more uses are left than
/// the cells times the weight of the entity; work lowers how many are left, and a fill doesn't
/// change it, also where it lacks memory. So after as many rounds as cells times weight none is
/// left.
pub fn rounds_end()
    ensures most { (run : RunFacts) → left_of run ≤
        length (all_cells run.question) * weight_of run.table.model.rows (entity_of run.question) }
    ensures fewer { (run : RunFacts) → IsRunning run → run.stage ≡ stage.Ready →
        left_of (worked run) < left_of run }
    ensures same { (run : RunFacts) → left_of (settled run) ≡ left_of run }
    ensures ends { (rounds : ℕ) (run after : RunFacts) → IsAfterRounds rounds run after →
        length (all_cells run.question) * weight_of run.table.model.rows (entity_of run.question)
        ≤ rounds → left_of after ≡ 0 }
{}

/// A law on all fills that have memory: each key that a look didn't find is held afterwards with
/// its verdict, whatever the memo held before.
pub fn kept_keys()
    ensures { (run : RunFacts) (taken : List Use) (found entries : List Entry) (key : Key) →
        IsTaken run.table (left_in_cell run) taken →
        Contains (with_taken run taken found).wanted key →
        verdict_of key
        (kept_all memo_capacity (worked (with_taken run taken found)).fresh entries)
        ≡ Some (key_verdict run.table.model.rows key) }
{}

/// A law on all runs: so many uses are done after so many rounds, and no other number, and so many
/// are left of a session's run.
pub fn one_trace()
    ensures done { (table : Version) (q : Question) (rounds a b : ℕ) →
        IsDoneAfter table q rounds a → IsDoneAfter table q rounds b → a ≡ b }
    ensures within { (table : Version) (q : Question) (rounds done : ℕ) →
        IsDoneAfter table q rounds done → done ≤ length (question_uses table.model.rows q) }
    ensures left { (opening : Model) (log : List LogEntry) (run : SessionRun) (rounds a b : ℕ) →
        HasLeft opening log run rounds a → HasLeft opening log run rounds b → a ≡ b }
{}
