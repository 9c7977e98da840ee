ghost use Rattle.std.specs.Prelude.{◌≡◌, ◌≤◌, ℕ, List, [], ◌∷◌, ◌++◌, length};
ghost use Rattle.solid_base.specs.declared.entities.Model.{Model};
ghost use Rattle.iges_parameters.specs.Accepted.{IsAccepted};
ghost use Rattle.edit_core.specs.Edits.{most_versions};
ghost use Rattle.edit_core.specs.Versions.{LogEntry, IsVersion, IsLawfulLog, AreLawfulBatches};
ghost use Rattle.edit_core.specs.Versions.{IsStampIn, ReachesSame, Version, IsOpening, IsNext};
ghost use Rattle.edit_core.specs.Versions.{IsVersionOf};

/// A law on all logs: a version of a log is one model, and is at most the log's length and 10,000.
pub fn one_version()
    ensures one_model { (opening : Model) (log : List LogEntry) (v : ℕ) (a b : Model) →
        IsVersion opening log v a → IsVersion opening log v b → a ≡ b }
    ensures logged { (opening : Model) (log : List LogEntry) (v : ℕ) (model : Model) →
        IsVersion opening log v model → v ≤ length log }
    ensures few { (opening : Model) (log : List LogEntry) (v : ℕ) (model : Model) →
        IsVersion opening log v model → v ≤ most_versions }
{}

/// A law on all lawful logs: they have each version up to their length, and each version of an
/// opening model that is served is served too.
pub fn lawful_versions()
    ensures some { (opening : Model) (log : List LogEntry) (v : ℕ) →
        IsLawfulLog opening log → v ≤ length log → (model : Model) × IsVersion opening log v model }
    ensures accepted { (opening : Model) (log : List LogEntry) (v : ℕ) (model : Model) →
        IsAccepted opening → AreLawfulBatches log → IsVersion opening log v model →
        IsAccepted model }
{}

/// A law on all logs: an entity has one stamp in each version of a lawful log, which is at most the
/// version's number.
pub fn one_stamp()
    ensures some { (opening : Model) (log : List LogEntry) (e v : ℕ) →
        IsLawfulLog opening log → v ≤ length log → (s : ℕ) × IsStampIn opening log e v s }
    ensures once { (opening : Model) (log : List LogEntry) (e v s t : ℕ) →
        IsStampIn opening log e v s → IsStampIn opening log e v t → s ≡ t }
    ensures not_later { (opening : Model) (log : List LogEntry) (e v s : ℕ) →
        IsStampIn opening log e v s → s ≤ v }
{}

/// A law on all logs: versions and stamps stay as entries are added.
pub fn longer_log()
    ensures version { (opening : Model) (log rest : List LogEntry) (v : ℕ) (model : Model) →
        IsVersion opening log v model → IsVersion opening (log ++ rest) v model }
    ensures stamp { (opening : Model) (log rest : List LogEntry) (e v s : ℕ) →
        IsStampIn opening log e v s → IsStampIn opening (log ++ rest) e v s }
{}

/// The law of stamps: where an entity has the same stamp in two versions of a log, it reaches the
/// same rows in both.
pub fn same_stamp()
    ensures { (opening : Model) (log : List LogEntry) (v w e s : ℕ) (a b : Model) →
        IsVersion opening log v a → IsVersion opening log w b →
        IsStampIn opening log e v s → IsStampIn opening log e w s →
        ReachesSame a.rows b.rows e }
{}

/// A law on all tables: the stamps of a table are those of its log. The opening version is that of
/// the empty log, and the version that an entry's batch makes is that of the log with the entry.
pub fn table_stamps()
    ensures opening { (model : Model) (version : Version) →
        IsOpening model version → IsVersionOf model [] version }
    ensures next { (opening : Model) (log : List LogEntry) (entry : LogEntry)
        (version after : Version) → IsVersionOf opening log version →
        IsNext version entry.batch after → IsVersionOf opening (log ++ entry ∷ []) after }
{}
