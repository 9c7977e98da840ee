ghost use Rattle.std.specs.Prelude.{◌≡◌, ◌↔◌, ◌⊎◌, ◌<◌, ◌++◌, [], ◌∷◌, length, codes, decimal};
ghost use Rattle.std.specs.Prelude.{ℕ, List, IfOk, OnOk, OnErr, MatchOption, Some, take, true};
ghost use mathlib.Core.List.{IsPrefix};
ghost use Rattle.std.specs.Arc.{arc_value};
ghost use Rattle.solid_base.specs.declared.classes.Verdict.{Verdict as verdict};
ghost use Rattle.solid_base.specs.Ledgers.{counted};
ghost use Rattle.iges_parameters.specs.Accepted.{IsAccepted};
ghost use Rattle.solid_questions.specs.Questions.{IsLawful};
ghost use Rattle.memo_graph.specs.declared.key.Key.{Key as key};
ghost use Rattle.memo_graph.specs.Memos.{IsMemo, verdict_of};
ghost use Rattle.edit_core.specs.Versions.{IsVersionOf};
ghost use Rattle.ask_core.specs.Answers.{IsAnswer, cell_verdicts};
ghost use Rattle.ask_core.specs.Books.{AsksCells, IsNotRefused, key_verdict};
ghost use Rattle.ask_core.specs.Replies.{cancelled_reply};
ghost use Rattle.ask_core.specs.RunStates.{AsksOneCell};
ghost use Rattle.ask_core.specs.Runs.{IsTaken, with_taken, worked, settled, looked, use_keys};
ghost use Rattle.ask_core.specs.Runs.{begun, kept_all, next_stage, left_of, left_in_cell};
ghost use Rattle.ask_core.specs.Runs.{IsOwnKey, IsRunning};

use crate::books::Book;
use crate::course::Course;
use crate::rounds::Round;
use edit_core::Table;
use memo_graph::Memo;
use solid_base::{Bytes, Ledger, Reply, Verdict, word};
use solid_questions::{Question, push_body, render};
use std::alloc::{AllocError, Global};
use std::marker::Model;
use std::snapshot::Snapshot;
use std::sync::Arc;

/// How far the round of a run is.
#[derive(Clone, Copy, Debug, PartialEq, Eq)]
pub enum Stage {
    /// A look comes next.
    Idle,
    /// Uses are taken, and work comes next.
    Ready,
    /// The keys that weren't found are evaluated, and a fill comes next.
    Worked,
    /// No use is left: the run has its answer.
    Done,
}

/// Whether a run has uses left after its work.
#[derive(Clone, Copy, Debug, PartialEq, Eq)]
pub enum Progress {
    More,
    Done,
}

/// A question about cells that is answered in rounds, on the version on which it began: a look
/// takes uses of primitives and finds verdicts in the memo, work evaluates those that weren't
/// found, and a fill keeps them. Contracts see the facts of the run. The book on which it began
/// takes no bytes.
#[derive(Drop)]
pub struct Run {
    book: Snapshot<Book>,
    table: Arc<Table>,
    question: Question,
    live: bool,
    course: Course,
    round: Round,
    stage: Stage,
}

impl Model for Run {
    ghost use Rattle.std.specs.Arc.{arc_value};
    ghost use Rattle.ask_core.specs.Runs.{RunFacts};
    ghost use Rattle.ask_core.specs.RunStates.{facts_of, IsRun};

    ghost Value = { RunFacts };

    ghost view = { λ r. facts_of r.book.value (arc_value r.table) r.question r.live r.course
        r.round r.stage };

    ghost invariant = { λ r. IsRun (facts_of r.book.value (arc_value r.table) r.question r.live
        r.course r.round r.stage) r.course r.round };
}

/// The stage after a round, by how many uses are left.
fn stage_after(left: u64) -> Stage
    ensures { result ≡ next_stage left }
{
    match left {
        0 => Stage::Done,
        _ => Stage::Idle,
    }
}

/// Whether so many uses are some.
fn progress_with(left: u64) -> Progress
    ensures { (result ≡ Progress.More) ↔ (0 < left) }
{
    match left {
        0 => Progress::Done,
        _ => Progress::More,
    }
}

/// Whether a question asks about one point or one box.
fn asks_one_cell(question: &Question) -> bool
    ensures { (result ≡ true) ↔ AsksOneCell question.now }
{
    match question {
        Question::Point { .. } | Question::Cell { .. } => true,
        _ => false,
    }
}

/// The verdict that stands alone.
fn only_verdict(verdicts: &[Verdict]) -> Option<Verdict>
    ensures { (v : verdict) → verdicts.now ≡ v ∷ [] → result ≡ Some v }
{
    match verdicts {
        [verdict] => Some(*verdict),
        _ => None,
    }
}

/// The words of a question that is given up, when a later version is there.
fn cancelled_words(alloc: Global, newest: u64) -> Result<Bytes, AllocError>
    ensures { IfOk result (λ text. text ≡ codes "CANCELLED " ++ decimal newest) }
{
    word(alloc, format!(in alloc; "CANCELLED {newest}")?.as_bytes())
}

impl Run {
    /// A run at its beginning, on the newest version of a book, with all memory that it needs
    /// before its answer. AllocError when out of memory.
    pub(crate) fn begin(
        alloc: Global,
        book: Snapshot<Book>,
        table: Arc<Table>,
        question: &Question,
        live: bool,
    ) -> Result<Run, AllocError>
        requires accepted { IsAccepted book.value.opening }
        requires version { IsVersionOf book.value.opening book.value.log (arc_value table) }
        requires newest { arc_value table ≡ book.value.table }
        requires lawful { IsLawful question.now }
        requires cells { AsksCells question.now }
        requires not_refused { IsNotRefused (arc_value table).model.rows question.now }
        ensures begun { IfOk result (λ run. run ≡ begun book.value question.now live) }
    {
        let course = Course::begin(alloc, &table, question)?;
        let round = Round::new(alloc)?;
        Ok(Run {
            book,
            table,
            question: *question,
            live,
            course,
            round,
            stage: Stage::Idle,
        })
    }

    /// Gathers the uses that the next look takes, with their keys, where a look comes next: what a
    /// look would do itself, and needs no book. Contracts see no change. No memory is taken.
    pub fn gather(&mut self)
        ensures { self.new ≡ self.old }
    {
        if let Stage::Idle = self.stage {
            self.round.gather(&self.table, &mut self.course.ahead);
        }
    }

    /// Takes the next uses of the cell, and looks once for each key. What the memo holds under keys
    /// of the run is their verdicts. No memory is taken.
    pub(crate) fn take_uses(&mut self, memo: &mut Memo)
        requires idle { self.old.stage ≡ Stage.Idle }
        requires right { (k : key) (v : verdict) → IsOwnKey self.old k →
            verdict_of k memo.old.entries ≡ Some v →
            v ≡ key_verdict self.old.table.model.rows k }
        ensures taken { IsTaken self.old.table (left_in_cell self.old) self.new.taken }
        ensures run { self.new ≡ with_taken self.old self.new.taken memo.old.entries }
        ensures entries { memo.new.entries ≡
            looked (use_keys self.old.table self.new.taken) memo.old.entries }
        ensures capacity { memo.new.capacity ≡ memo.old.capacity }
        ensures valid { IsMemo memo.new }
    {
        self.round.gather(&self.table, &mut self.course.ahead);
        self.round.look_up(memo);
        self.stage = Stage::Ready;
        // A clause of the length says that the memo is one.
        let _ = memo.len();
    }

    /// Evaluates each key that wasn't found, once, and counts it on the ledger; then the uses that
    /// were taken are done. The run is Ready. No memory is taken.
    pub fn work<L: Ledger>(&mut self, leaves: &mut L) -> Progress
        requires ready { self.old.stage ≡ Stage.Ready }
        ensures run { self.new ≡ worked self.old }
        ensures more { (result ≡ Progress.More) ↔ (0 < left_of self.new) }
        ensures counted { L.count leaves.new ≡
            counted (L.count leaves.old) (length self.old.wanted) }
    {
        let table: &Table = &self.table;
        table.obeys();
        let rows = table.rows();
        self.round.work(rows, &mut self.course.known, leaves);
        self.course.go_on(rows, table.graph(), &self.question);
        self.stage = Stage::Worked;
        progress_with(self.course.left())
    }

    /// Keeps the entries that the run has worked out in a memo, one after the other, up to the
    /// first that lacks memory.
    pub(crate) fn keep(&self, memo: &mut Memo) -> Result<(), AllocError>
        requires valid { IsMemo memo.old }
        requires worked { self.now.stage ≡ Stage.Worked }
        ensures ok { OnOk result (memo.new.entries ≡
            kept_all memo.old.capacity self.now.fresh memo.old.entries) }
        ensures err { OnErr result ((k : ℕ) × (k < length self.now.fresh) × (memo.new.entries ≡
            kept_all memo.old.capacity (take k self.now.fresh) memo.old.entries)) }
        ensures capacity { memo.new.capacity ≡ memo.old.capacity }
        ensures valid { IsMemo memo.new }
    {
        self.round.keep(memo)
    }

    /// Ends a round, after its work.
    pub(crate) fn settle(&mut self)
        requires worked { self.old.stage ≡ Stage.Worked }
        ensures run { self.new ≡ settled self.old }
    {
        self.stage = stage_after(self.course.left());
        self.round.clear();
    }

    /// How many uses of primitives are left.
    pub fn left(&self) -> u64
        ensures { result ≡ left_of self.now }
    {
        self.course.left()
    }

    /// How far the round is.
    pub fn stage(&self) -> Stage
        ensures { result ≡ self.now.stage }
    {
        self.stage
    }

    /// The version on which the run began.
    pub fn version(&self) -> u64
        ensures { result ≡ length self.now.log }
    {
        self.table.version()
    }

    /// Whether the run is given up when a later version is there.
    pub fn live(&self) -> bool
        ensures { result ≡ self.now.live }
    {
        self.live
    }

    /// The verdict on the one cell of a question about a point or a box, when no use is left. None
    /// exactly where uses are left, or the question is another.
    pub fn verdict(&self) -> Option<Verdict>
        ensures { MatchOption result
            ((0 < left_of self.now) ⊎ (¬ AsksOneCell self.now.question))
            (λ v. (left_of self.now ≡ 0) × AsksOneCell self.now.question
            × (cell_verdicts self.now.table.model.rows self.now.question ≡ v ∷ [])) }
    {
        if self.left() > 0 || !asks_one_cell(&self.question) {
            return None;
        }
        only_verdict(self.course.cells.as_slice())
    }

    /// The reply with the answer, when no use is left; None exactly where uses are left. AllocError
    /// when out of memory.
    pub fn answer(&self, alloc: Global) -> Result<Option<Reply>, AllocError>
        ensures { IfOk result (λ reply. MatchOption reply (0 < left_of self.now) (λ r.
            (left_of self.now ≡ 0) × (r.version ≡ Some (length self.now.log))
            × IsAnswer self.now.table.model self.now.question r.body)) }
    {
        if self.left() > 0 {
            return Ok(None);
        }
        Ok(Some(Reply {
            version: Some(self.version()),
            body: render(alloc, &self.question, &self.course.cells)?,
        }))
    }

    /// Adds the answer to a text, when no use is left. When out of memory, what stood in the text
    /// still stands in front of it.
    pub(crate) fn push_answer(&self, alloc: Global, out: &mut Bytes) -> Result<(), AllocError>
        requires done { left_of self.now ≡ 0 }
        ensures answer { OnOk result ((body : List ℕ)
            × IsAnswer self.now.table.model self.now.question body × (out.new ≡ out.old ++ body)) }
        ensures front { IsPrefix out.old out.new }
    {
        push_body(alloc, out, &self.question, None, &self.course.cells)
    }

    /// The reply of a live run that is given up for a later version; None exactly where the run
    /// isn't live, or none is later. AllocError when out of memory.
    pub fn cancelled(&self, alloc: Global, newest: u64) -> Result<Option<Reply>, AllocError>
        ensures { IfOk result (λ reply. MatchOption reply
            (¬ ((self.now.live ≡ true) × (length self.now.log < newest)))
            (λ r. (self.now.live ≡ true) × (length self.now.log < newest)
            × (r ≡ cancelled_reply (length self.now.log) newest))) }
    {
        if !self.live || newest <= self.version() {
            return Ok(None);
        }
        Ok(Some(Reply {
            version: Some(self.version()),
            body: cancelled_words(alloc, newest)?,
        }))
    }

    /// A law on each run.
    pub fn obeys(&self)
        ensures { IsRunning self.now }
    {
        let _ = &self.table;
    }
}
