ghost use Rattle.std.specs.Prelude.{◌≡◌, ◌≤◌, ℕ, List, [], ◌∷◌, ◌++◌, ◌+◌, length, map};
ghost use mathlib.Core.List.{IsPrefix};
ghost use Rattle.solid_base.specs.declared.entities.Model.{Model};
ghost use Rattle.solid_base.specs.declared.replies.Reply.{Reply};
ghost use Rattle.script_lines.specs.declared.commands.Command.{Command};
ghost use Rattle.edit_core.specs.Versions.{LogEntry, IsLawfulLog};
ghost use Rattle.solid_desk.specs.Outcomes.{Outcome, reply_of, named_version};
ghost use Rattle.solid_desk.specs.Sessions.{Standing, at_start, standing_from};
ghost use Rattle.solid_desk.specs.Legal.{AreSessions, IsLegal};
ghost use Rattle.solid_desk.specs.InOrder.{IsDone};
ghost use Rattle.solid_desk.specs.SideBySide.{made_by, committed_count, all_committed_count};
ghost use Rattle.solid_desk.specs.SideBySide.{IsOutcomeBy, IsSessionBy, IsNewEntry};

/// A law on sessions that run side by side: where the lines of each came to what they may by the
/// log at the end, and as many commits were made as the log has entries, the log and the replies
/// are a lawful outcome. In each lawful outcome they are as many.
pub fn legal_by_count()
    ensures legal { (opening : Model) (sessions : List (List Command))
        (outcomes : List (List Outcome)) (log : List LogEntry) → IsLawfulLog opening log →
        AreSessions opening log 0 sessions outcomes →
        all_committed_count outcomes ≡ length log →
        IsLegal opening sessions log (map (map reply_of) outcomes) }
    ensures count { (opening : Model) (sessions : List (List Command)) (log : List LogEntry)
        (transcripts : List (List Reply)) (legal : IsLegal opening sessions log transcripts) →
        all_committed_count legal.outcomes ≡ length log }
{}

/// A law on sessions that run side by side: what a session knows goes on by one line at its end,
/// as its front goes on and it sees more entries.
pub fn one_more_line_by()
    ensures one_more { (opening : Model) (front after : List LogEntry) (seen later session : ℕ)
        (commands : List Command) (outcomes : List Outcome) (c : Command) (outcome : Outcome) →
        IsSessionBy opening front seen session commands outcomes →
        IsPrefix front after → seen ≤ later →
        IsOutcomeBy opening after later session (standing_from at_start commands outcomes) c
        outcome →
        IsSessionBy opening after later session (commands ++ c ∷ []) (outcomes ++ outcome ∷ []) }
    ensures count { (outcomes : List Outcome) (outcome : Outcome) →
        committed_count (outcomes ++ outcome ∷ []) ≡ committed_count outcomes + made_by outcome }
{}

/// A law on all logs: a line that is done on the newest version adds its entry or nothing, and what
/// it came to, it may come to by each log that goes on from there. It names no version that isn't
/// made then, and one that it made is later than those before it.
pub fn done_in_turn()
    ensures outcome { (opening : Model) (log after : List LogEntry) (session : ℕ) (at : Standing)
        (c : Command) (outcome : Outcome) → at.shown ≤ length log →
        IsDone opening log session at c outcome after →
        IsOutcomeBy opening after (length after) session at c outcome }
    ensures goes_on { (opening : Model) (log after : List LogEntry) (session : ℕ) (at : Standing)
        (c : Command) (outcome : Outcome) → IsDone opening log session at c outcome after →
        IsPrefix log after × (length after ≡ length log + made_by outcome) }
    ensures named { (opening : Model) (log after : List LogEntry) (session : ℕ) (at : Standing)
        (c : Command) (outcome : Outcome) → IsDone opening log session at c outcome after →
        named_version outcome ≤ length after }
    ensures new_entry { (opening : Model) (log after : List LogEntry) (session : ℕ)
        (at : Standing) (c : Command) (outcome : Outcome) →
        IsDone opening log session at c outcome after → IsNewEntry log outcome }
{}
