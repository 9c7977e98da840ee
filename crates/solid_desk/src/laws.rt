ghost use Rattle.std.specs.Prelude.{◌≡◌, ℕ, List, [], ◌∷◌, ◌++◌, Some, slice_get};
ghost use Rattle.std.specs.List.{AllByRecursion};
ghost use Rattle.solid_base.specs.declared.entities.Model.{Model};
ghost use Rattle.solid_base.specs.declared.replies.Reply.{Reply};
ghost use Rattle.script_lines.specs.declared.commands.Command.{Command};
ghost use Rattle.edit_core.specs.Versions.{LogEntry, IsVersion, IsLawfulLog};
ghost use Rattle.solid_desk.specs.Outcomes.{Outcome, reply_of};
ghost use Rattle.solid_desk.specs.Sessions.{Standing, standing_after, standing_from};
ghost use Rattle.solid_desk.specs.Legal.{IsOutcome, IsSession, AreSessions, IsLegal};
ghost use Rattle.solid_desk.specs.WithoutCommits.{HaveNoCommit, NamesNoLaterVersion};
ghost use Rattle.solid_desk.specs.WithoutCommits.{NamesOnlyTheOpening};

/// A law on all logs: what was true of versions, lines and sessions by a log stays true as entries
/// are added to it.
pub fn longer_log()
    ensures version { (opening : Model) (log rest : List LogEntry) (v : ℕ) (model : Model) →
        IsVersion opening log v model → IsVersion opening (log ++ rest) v model }
    ensures outcome { (opening : Model) (log rest : List LogEntry) (session : ℕ) (at : Standing)
        (c : Command) (outcome : Outcome) → IsOutcome opening log session at c outcome →
        IsOutcome opening (log ++ rest) session at c outcome }
    ensures one_session { (opening : Model) (log rest : List LogEntry) (session : ℕ)
        (at : Standing) (commands : List Command) (outcomes : List Outcome) →
        IsSession opening log session at commands outcomes →
        IsSession opening (log ++ rest) session at commands outcomes }
    ensures all_sessions { (opening : Model) (log rest : List LogEntry) (session : ℕ)
        (sessions : List (List Command)) (outcomes : List (List Outcome)) →
        AreSessions opening log session sessions outcomes →
        AreSessions opening (log ++ rest) session sessions outcomes }
{}

/// A law on all sessions: a session goes on by one line at its end, from where it stands there.
pub fn one_more_line()
    ensures one_more { (opening : Model) (log : List LogEntry) (session : ℕ) (at : Standing)
        (commands : List Command) (outcomes : List Outcome) (c : Command) (outcome : Outcome) →
        IsSession opening log session at commands outcomes →
        IsOutcome opening log session (standing_from at commands outcomes) c outcome →
        IsSession opening log session at (commands ++ c ∷ []) (outcomes ++ outcome ∷ []) }
    ensures stands { (opening : Model) (log : List LogEntry) (session : ℕ) (at : Standing)
        (commands : List Command) (outcomes : List Outcome) (c : Command) (outcome : Outcome) →
        IsSession opening log session at commands outcomes →
        standing_from at (commands ++ c ∷ []) (outcomes ++ outcome ∷ [])
        ≡ standing_after (standing_from at commands outcomes) c outcome }
{}

/// A law on all lawful outcomes: no line of a session stands twice in the log.
pub fn commits_once()
    ensures once { (opening : Model) (sessions : List (List Command)) (log : List LogEntry)
        (transcripts : List (List Reply)) (first second : ℕ) (a b : LogEntry) →
        IsLegal opening sessions log transcripts →
        slice_get log first ≡ Some a → slice_get log second ≡ Some b →
        a.session ≡ b.session → a.line ≡ b.line → first ≡ second }
{}

/// A law on all lawful outcomes: where no line commits, the log is empty, and no outcome of a line
/// nor its reply names a version but 0.
pub fn no_commits()
    ensures empty_log { (opening : Model) (sessions : List (List Command)) (log : List LogEntry)
        (transcripts : List (List Reply)) → IsLegal opening sessions log transcripts →
        HaveNoCommit sessions → log ≡ [] }
    ensures no_version { (opening : Model) (sessions : List (List Command)) (log : List LogEntry)
        (transcripts : List (List Reply)) (legal : IsLegal opening sessions log transcripts) →
        HaveNoCommit sessions →
        AllByRecursion (AllByRecursion NamesNoLaterVersion) legal.outcomes }
    ensures replies { (opening : Model) (sessions : List (List Command))
        (log : List LogEntry) (transcripts : List (List Reply)) →
        IsLegal opening sessions log transcripts → HaveNoCommit sessions →
        AllByRecursion (AllByRecursion NamesOnlyTheOpening) transcripts }
{}

/// A law on all lawful logs: the reply to a line says what the line came to, and so transcripts
/// say what each line of a run came to.
pub fn one_reading()
    ensures line { (opening : Model) (log : List LogEntry) (session : ℕ) (at : Standing)
        (c : Command) (a b : Outcome) → IsLawfulLog opening log →
        IsOutcome opening log session at c a → IsOutcome opening log session at c b →
        reply_of a ≡ reply_of b → a ≡ b }
    ensures run { (opening : Model) (sessions : List (List Command)) (log : List LogEntry)
        (transcripts : List (List Reply)) (a b : IsLegal opening sessions log transcripts) →
        a.outcomes ≡ b.outcomes }
{}
