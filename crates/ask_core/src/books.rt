ghost use Rattle.std.specs.Prelude.{◌≡◌, ◌↔◌, ◌++◌, ◌<◌, ℕ, [], ◌∷◌, length, take};
ghost use Rattle.std.specs.Prelude.{IfOk, IfErr, OnOk, OnErr, IsTrue};
ghost use Rattle.std.specs.Arc.{arc_value};
ghost use Rattle.iges_parameters.specs.Accepted.{IsAccepted, lines_of};
ghost use Rattle.solid_questions.specs.Questions.{IsLawful};
ghost use Rattle.edit_core.specs.EditFaults.{IsOfText, IsOuter};
ghost use Rattle.edit_core.specs.Edits.{IsRefused};
ghost use Rattle.edit_core.specs.Versions.{IsOpening, IsNext};
ghost use Rattle.ask_core.specs.Books.{IsBook, IsAtOnce, AsksCells, IsNotRefused, memo_capacity};
ghost use Rattle.ask_core.specs.Runs.{GoesOnWith, IsTaken, kept_all, left_in_cell, looked, settled};
ghost use Rattle.ask_core.specs.Runs.{begun, use_keys, with_taken};
ghost use Rattle.ask_core.specs.Begins.{IsBegun, IsReplyOn};
ghost use Rattle.ask_core.specs.declared.runs.Stage.TheVariants as stage;

use crate::answers::{push_answer, refusal};
use crate::commits::{Commit, Commits};
use crate::runs::Run;
use edit_core::{EditFault, Table};
use entity_graph::Graph;
use memo_graph::Memo;
use solid_base::{Bytes, Model as SolidModel, NoTally, Reply};
use solid_questions::Question;
use std::alloc::{AllocError, Global};
use std::marker::Model;
use std::snapshot::Snapshot;
use std::sync::Arc;

/// How many entries the memo of a book may hold.
const MEMO_CAPACITY: usize = 65_536;

/// The newest version of a model, the log of the commits that made it, and the memo that all
/// questions share. Contracts see these, and the opening model, which takes no bytes.
#[derive(Drop)]
pub struct Book {
    opening: Snapshot<SolidModel>,
    log: Commits,
    table: Arc<Table>,
    memo: Memo,
}

impl Model for Book {
    ghost use Rattle.std.specs.Arc.{arc_value};
    ghost use Rattle.ask_core.specs.Books.{BookFacts, IsBook, book_of};

    ghost Value = { BookFacts };

    ghost view = { λ b. book_of b.opening.value b.log (arc_value b.table) b.memo };

    ghost invariant = { λ b. IsBook (book_of b.opening.value b.log (arc_value b.table) b.memo) };
}

/// What a question comes to where it begins.
#[derive(Drop)]
pub enum Begun {
    /// It is answered at once: it is refused, or asks about no cells.
    Answered(Reply),
    /// It has a run.
    Running(Run),
}

/// A version that may be shared.
fn shared(alloc: Global, table: Table) -> Result<Arc<Table>, AllocError>
    ensures { IfOk result (λ shared. arc_value shared ≡ table) }
{
    Ok(Arc::new(alloc, table)?)
}

/// Whether a question asks about cells.
fn asks_cells(question: &Question) -> bool
    ensures { IsTrue result ↔ AsksCells question.now }
{
    match question {
        Question::Items { .. } | Question::Export | Question::Newest => false,
        _ => true,
    }
}

/// Whether a question is answered at once: it asks about no cells, or is refused.
pub(crate) fn is_at_once(table: &Table, question: &Question) -> bool
    ensures at_once { IsTrue result ↔ IsAtOnce table.now.model.rows question.now }
    ensures cells { ¬ IsTrue result → AsksCells question.now }
    ensures open { ¬ IsTrue result → IsNotRefused table.now.model.rows question.now }
{
    !asks_cells(question) || refusal(table.rows(), table.graph(), question).is_some()
}

/// The reply to a question on a version, each cell evaluated afresh.
fn reply_afresh(alloc: Global, table: &Table, question: &Question) -> Result<Reply, AllocError>
    requires { IsLawful question.now }
    ensures { IfOk result (IsReplyOn table.now.number table.now.model question.now) }
{
    let mut body = Bytes::new(alloc);
    push_answer(alloc, &mut body, table, question, &mut NoTally)?;
    Ok(Reply {
        version: Some(table.version()),
        body,
    })
}

impl Book {
    /// A book at its beginning: a model that is accepted, no commit and an empty memo. AllocError
    /// when out of memory; the model is then dropped.
    pub fn start(alloc: Global, model: SolidModel) -> Result<Book, AllocError>
        requires accepted { IsAccepted model }
        ensures opening { IfOk result (λ book. book.opening ≡ model) }
        ensures log { IfOk result (λ book. book.log ≡ []) }
        ensures memo { IfOk result (λ book. book.memo.entries ≡ []) }
    {
        let opening = Snapshot::of(&model);
        let table = Table::start(alloc, model)?;
        Book::at_opening(alloc, opening, table)
    }

    /// The same from the graph of the model's rows and how many lines their records take, as a
    /// reader gives them.
    pub fn start_with_graph(
        alloc: Global,
        model: SolidModel,
        graph: Graph,
        lines: u64,
    ) -> Result<Book, AllocError>
        requires accepted { IsAccepted model }
        requires graph { graph ≡ model.rows }
        requires lines { lines ≡ lines_of model.comma model.semi model.rows }
        ensures opening { IfOk result (λ book. book.opening ≡ model) }
        ensures log { IfOk result (λ book. book.log ≡ []) }
        ensures memo { IfOk result (λ book. book.memo.entries ≡ []) }
    {
        let opening = Snapshot::of(&model);
        let table = Table::start_with_graph(alloc, model, graph, lines)?;
        Book::at_opening(alloc, opening, table)
    }

    /// A book at its beginning, from the opening version of its model.
    fn at_opening(
        alloc: Global,
        opening: Snapshot<SolidModel>,
        table: Table,
    ) -> Result<Book, AllocError>
        requires accepted { IsAccepted opening.value }
        requires table { IsOpening opening.value table }
        ensures opening { IfOk result (λ book. book.opening ≡ opening.value) }
        ensures log { IfOk result (λ book. book.log ≡ []) }
        ensures memo { IfOk result (λ book. book.memo.entries ≡ []) }
    {
        Ok(Book {
            opening,
            log: Commits::new(alloc),
            table: shared(alloc, table)?,
            memo: Memo::new(alloc, MEMO_CAPACITY)?,
        })
    }

    /// The commits that were made, in the order of the versions that they made.
    pub fn log(&self) -> &Commits
        ensures { result.now ≡ self.now.log }
    {
        &self.log
    }

    /// The commits of a book that is given up.
    pub fn into_log(self) -> Commits
        ensures { result ≡ self.log }
    {
        self.log
    }

    /// The newest version.
    pub fn table(&self) -> &Table
        ensures { result.now ≡ self.now.table }
    {
        &self.table
    }

    /// A law on each book: its table is the newest version of its log, and each entry of its memo
    /// is right in every version in which its entity has its stamp.
    pub fn obeys(&self)
        ensures { IsBook self.now }
    {
        let _ = &self.log;
    }

    /// Begins a question on the newest version. It is answered at once where it is refused or asks
    /// about no cells; else it has a run, with all memory that it needs before its answer.
    ///
    /// The question's numbers are in their ranges. A question that is answered at once evaluates
    /// nothing. AllocError when out of memory.
    pub fn begin(&self, alloc: Global, question: &Question, live: bool) -> Result<Begun, AllocError>
        requires lawful { IsLawful question.now }
        ensures begun { IfOk result (IsBegun self.now question.now live) }
    {
        if is_at_once(&self.table, question) {
            return Ok(Begun::Answered(reply_afresh(alloc, &self.table, question)?));
        }
        Ok(Begun::Running(self.run(alloc, question, live)?))
    }

    /// The run of a question on the newest version that isn't answered at once.
    pub(crate) fn run(
        &self,
        alloc: Global,
        question: &Question,
        live: bool,
    ) -> Result<Run, AllocError>
        requires lawful { IsLawful question.now }
        requires cells { AsksCells question.now }
        requires open { IsNotRefused self.now.table.model.rows question.now }
        ensures run { IfOk result (λ run. run ≡ begun self.now question.now live) }
    {
        self.obeys();
        let table = self.table.clone()?;
        Run::begin(alloc, Snapshot::of(self), table, question, live)
    }

    /// The run takes its next uses and looks each of their keys up. The run is Idle, and its log is
    /// the front of the book's. It takes no memory.
    pub fn look(&mut self, run: &mut Run)
        requires front { GoesOnWith run.old self.old }
        requires idle { run.old.stage ≡ stage.Idle }
        ensures taken { IsTaken run.old.table (left_in_cell run.old) run.new.taken }
        ensures run { run.new ≡ with_taken run.old run.new.taken self.old.memo.entries }
        ensures entries { self.new.memo.entries ≡
            looked (use_keys run.old.table run.new.taken) self.old.memo.entries }
        ensures opening { self.new.opening ≡ self.old.opening }
        ensures log { self.new.log ≡ self.old.log }
        ensures table { self.new.table ≡ self.old.table }
    {
        run.obeys();
        run.take_uses(&mut self.memo);
    }

    /// Keeps the entries that a run has worked out in the memo, and brings the run to its next
    /// stage. The run is Worked, and its log is the front of the book's.
    ///
    /// AllocError when out of memory: the entries before the first that lacked it are kept, the
    /// others are given up, and the run goes on all the same.
    pub fn fill(&mut self, run: &mut Run) -> Result<(), AllocError>
        requires front { GoesOnWith run.old self.old }
        requires worked { run.old.stage ≡ stage.Worked }
        ensures run { run.new ≡ settled run.old }
        ensures ok { OnOk result (self.new.memo.entries ≡
            kept_all memo_capacity run.old.fresh self.old.memo.entries) }
        ensures err { OnErr result ((k : ℕ) × (k < length run.old.fresh)
            × (self.new.memo.entries ≡
            kept_all memo_capacity (take k run.old.fresh) self.old.memo.entries)) }
        ensures opening { self.new.opening ≡ self.old.opening }
        ensures log { self.new.log ≡ self.old.log }
        ensures table { self.new.table ≡ self.old.table }
    {
        run.obeys();
        let kept = run.keep(&mut self.memo);
        run.settle();
        kept
    }

    /// Makes a commit on the newest version, and answers the version that it made. The commit is
    /// then the last one of the log. The memo stays as it is.
    ///
    /// Where the batch can't be made its first fault is reported, as `Table::commit` does, and
    /// Memory when out of memory; then nothing is changed, and the commit is dropped.
    pub fn commit(&mut self, alloc: Global, commit: Commit) -> Result<u64, EditFault>
        ensures next { IfOk result (λ _. IsNext self.old.table commit.batch self.new.table) }
        ensures log { OnOk result (self.new.log ≡ self.old.log ++ commit ∷ []) }
        ensures version { IfOk result (λ version. version ≡ length self.new.log) }
        ensures first_fault { IfErr result (λ fault. IsOfText fault →
            IsRefused self.old.table.model (length self.old.log) commit.batch fault) }
        ensures outer { IfErr result IsOuter }
        ensures unchanged { OnErr result (self.new ≡ self.old) }
        ensures memo { self.new.memo ≡ self.old.memo }
        ensures opening { self.new.opening ≡ self.old.opening }
    {
        let next = shared(alloc, self.table.commit(alloc, &commit.batch)?)?;
        self.log.push(commit)?;
        self.table = next;
        Ok(self.table.version())
    }
}
