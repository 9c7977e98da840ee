ghost use Rattle.std.specs.Prelude.{◌≡◌, ◌<◌, ◌≤◌, ◌⊎◌, ℕ, List, ◌++◌, length, Bool, false};
ghost use Rattle.std.specs.Prelude.{◌^◌, Some, slice_get, codes, decimal};
ghost use Rattle.std.specs.List.{AllByRecursion};
ghost use Rattle.solid_base.specs.declared.entities.Model.{Model};
ghost use Rattle.solid_base.specs.declared.replies.Reply.{Reply};
ghost use Rattle.solid_questions.specs.declared.questions.Question.{Question};
ghost use Rattle.script_lines.specs.declared.commands.Command.{Command};
ghost use Rattle.script_lines.specs.declared.commands.Command.TheVariants as command;
ghost use Rattle.script_lines.specs.declared.commands.ScriptLine.{ScriptLine};
ghost use Rattle.script_lines.specs.Scripts.{IsLawfulLine, HasRecordWithin, HaveRecordsWithin};
ghost use Rattle.ask_core.specs.Answers.{IsAnswer};
ghost use Rattle.edit_core.specs.Versions.{LogEntry, IsVersion, AreLawfulBatches};
ghost use Rattle.solid_desk.specs.Outcomes.{Outcome, with_version};
ghost use Rattle.solid_desk.specs.Sessions.{sessions_of};
ghost use Rattle.solid_desk.specs.Legal.{IsLegal};
ghost use Rattle.solid_desk.specs.InOrder.{IsRun, HadMemory, transcripts_of};
ghost use Rattle.solid_desk.specs.Work.{IsWork, AreWork};

/// A law on all scripts: the log and the replies of a run whose lines are done in order are a
/// lawful outcome of its sessions.
pub fn runs_are_legal()
    ensures legal { (opening : Model) (lines : List ScriptLine) (outcomes : List Outcome)
        (log : List LogEntry) → AllByRecursion IsLawfulLine lines →
        IsRun opening lines outcomes log →
        IsLegal opening (sessions_of lines) log (transcripts_of lines outcomes) }
{}

/// A law on all scripts: where there is memory for each line, a script has one run: each line
/// comes to one outcome, and the log is one.
pub fn one_run()
    ensures one { (opening : Model) (lines : List ScriptLine) (outcomes others : List Outcome)
        (log rest : List LogEntry) → IsRun opening lines outcomes log →
        IsRun opening lines others rest → HadMemory outcomes → HadMemory others →
        (outcomes ≡ others) × (log ≡ rest) }
{}

/// A law on all lawful outcomes: there is one transcript a session, and in it one reply a line.
pub fn one_reply()
    ensures each_session { (opening : Model) (sessions : List (List Command))
        (log : List LogEntry) (transcripts : List (List Reply)) →
        IsLegal opening sessions log transcripts → length transcripts ≡ length sessions }
    ensures each_line { (opening : Model) (sessions : List (List Command)) (log : List LogEntry)
        (transcripts : List (List Reply)) (session : ℕ) (commands : List Command)
        (replies : List Reply) → IsLegal opening sessions log transcripts →
        slice_get sessions session ≡ Some commands →
        slice_get transcripts session ≡ Some replies → length replies ≡ length commands }
{}

/// A law on all lawful outcomes: where the reply to a question names a version, its body is the
/// answer afresh on that version's model, or says for which later version of the log the question
/// was given up. Only a live one is given up.
pub fn answers()
    ensures question { (opening : Model) (sessions : List (List Command)) (log : List LogEntry)
        (transcripts : List (List Reply)) (session place : ℕ) (commands : List Command)
        (replies : List Reply) (q : Question) (live : Bool) (version : ℕ) (body : List ℕ) →
        IsLegal opening sessions log transcripts →
        slice_get sessions session ≡ Some commands →
        slice_get transcripts session ≡ Some replies →
        slice_get commands place ≡ Some (command.Ask q live) →
        slice_get replies place ≡ Some (with_version version body) →
        ((model : Model) × IsVersion opening log version model × IsAnswer model q body)
        ⊎ ((later : ℕ) × (version < later) × (later ≤ length log)
        × (body ≡ codes "CANCELLED " ++ decimal later)) }
    ensures held { (opening : Model) (sessions : List (List Command)) (log : List LogEntry)
        (transcripts : List (List Reply)) (session place : ℕ) (commands : List Command)
        (replies : List Reply) (q : Question) (version : ℕ) (body : List ℕ) →
        IsLegal opening sessions log transcripts →
        slice_get sessions session ≡ Some commands →
        slice_get transcripts session ≡ Some replies →
        slice_get commands place ≡ Some (command.Ask q false) →
        slice_get replies place ≡ Some (with_version version body) →
        (model : Model) × IsVersion opening log version model × IsAnswer model q body }
{}

/// A law on all scripts and opening models: a script has a run in which there is memory for each
/// line.
pub fn some_run()
    ensures some { (opening : Model) (lines : List ScriptLine) →
        (outcomes : List Outcome) × (log : List LogEntry)
        × IsRun opening lines outcomes log × HadMemory outcomes }
{}

/// A law on all scripts: what the lines of a script came to takes one number of evaluations in all.
pub fn one_work()
    ensures once { (opening : Model) (log : List LogEntry) (lines : List ScriptLine)
        (outcomes : List Outcome) (m n : ℕ) → AreWork opening log lines outcomes m →
        AreWork opening log lines outcomes n → m ≡ n }
{}

/// A law on all runs: the lines of a run take some number of evaluations.
pub fn some_work()
    ensures some { (opening : Model) (lines : List ScriptLine) (outcomes : List Outcome)
        (log : List LogEntry) → IsRun opening lines outcomes log →
        (n : ℕ) × AreWork opening log lines outcomes n }
{}

/// A law on all logs: what a line takes by a log, it takes as entries are added to it.
pub fn longer_work()
    ensures line { (opening : Model) (log rest : List LogEntry) (c : Command) (outcome : Outcome)
        (n : ℕ) → IsWork opening log c outcome n → IsWork opening (log ++ rest) c outcome n }
{}

/// A law on all lawful outcomes: where each record is one line of at most 2^25 bytes, each batch in
/// the log is one that a session can stage.
pub fn lawful_batches()
    ensures sessions { (opening : Model) (sessions : List (List Command)) (log : List LogEntry)
        (transcripts : List (List Reply)) →
        AllByRecursion (AllByRecursion (HasRecordWithin (2 ^ 25))) sessions →
        IsLegal opening sessions log transcripts → AreLawfulBatches log }
    ensures script { (opening : Model) (lines : List ScriptLine) (log : List LogEntry)
        (transcripts : List (List Reply)) → HaveRecordsWithin (2 ^ 25) lines →
        IsLegal opening (sessions_of lines) log transcripts → AreLawfulBatches log }
{}
