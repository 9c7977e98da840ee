ghost use Rattle.std.specs.Prelude.{◌≡◌, ◌⊎◌, ℕ, ◌+◌, ◌-◌, ◌*◌, ◌<◌, ◌≤◌, List, [], ◌∷◌, length};
ghost use Rattle.std.specs.Prelude.{IfOk, None, ◌^◌};
ghost use Rattle.std.specs.List.{AllByRecursion};
ghost use Rattle.solid_base.specs.Graph.{AreSound};
ghost use Rattle.solid_base.specs.Ranges.{IsLawfulRow};
ghost use Rattle.solid_base.specs.References.{row_at};
ghost use Rattle.fixed_enclosure.specs.Places.{spans_of};
ghost use Rattle.fixed_enclosure.specs.Spans.{IsBox};
ghost use Rattle.entity_graph.specs.Opaque.{ReachesOpaque};
ghost use Rattle.solid_eval.specs.Solids.{solid_of, IsSolidRow};
ghost use Rattle.solid_eval.specs.Uses.{Use, uses};
ghost use Rattle.solid_questions.specs.Questions.{IsLawful, entity_of};
ghost use Rattle.ask_core.specs.Books.{AsksCells, IsNotRefused};
ghost use Rattle.ask_core.specs.Rounds.{uses_at, uses_ahead, IsAhead, IsCourse, IsAheadBy, IsGoing};
ghost use Rattle.ask_core.specs.Rounds.{done_of};

use crate::cells::{count, entity_of};
use edit_core::Table;
use entity_graph::Graph;
use fixed_enclosure::Box3;
use solid_base::{Rows, Verdicts};
use solid_eval::{Walk, combine, weight};
use solid_questions::{Question, cell_at};
use std::alloc::{AllocError, Global};

/// The uses of a cell that are ahead: the number and the box of the next one, drawn from a walk,
/// and those that are left on it. Where there is no next one, the box says nothing.
#[derive(Drop)]
pub(crate) struct Ahead {
    pub(crate) next: Option<u32>,
    pub(crate) at: Box3,
    walk: Walk,
}

impl Ahead {
    /// All uses of an entity over a box. AllocError when out of memory.
    fn new(alloc: Global, rows: &Rows, e: u32, at: &Box3) -> Result<Ahead, AllocError>
        requires rows { AllByRecursion (λ e. IsLawfulRow e.row) rows.now }
        requires sound { AreSound rows.now }
        requires solid { IsSolidRow (row_at rows.now e) }
        requires read { (n : ℕ) → ¬ ReachesOpaque rows.now e n }
        requires at { IsBox at.now }
        ensures all { IfOk result (λ ahead.
            uses_ahead rows.now ahead ≡ uses (solid_of rows.now e) (spans_of at.now)) }
        ensures ahead { IfOk result (IsAhead rows.now) }
    {
        let mut walk = Walk::new(alloc, e, at)?;
        let mut at = *at;
        let next = walk.next(rows, &mut at);
        Ok(Ahead { next, at, walk })
    }

    /// Starts again with all uses of an entity over a box.
    fn restart(&mut self, rows: &Rows, e: u32, at: &Box3)
        requires rows { AllByRecursion (λ e. IsLawfulRow e.row) rows.now }
        requires sound { AreSound rows.now }
        requires solid { IsSolidRow (row_at rows.now e) }
        requires read { (n : ℕ) → ¬ ReachesOpaque rows.now e n }
        requires at { IsBox at.now }
        requires ahead { IsAhead rows.now self.old }
        ensures all { uses_ahead rows.now self.new ≡ uses (solid_of rows.now e) (spans_of at.now) }
        ensures ahead { IsAhead rows.now self.new }
    {
        self.walk.restart(e, at);
        self.next = self.walk.next(rows, &mut self.at);
    }

    /// Passes the next use.
    pub(crate) fn pass(&mut self, rows: &Rows)
        requires rows { AllByRecursion (λ e. IsLawfulRow e.row) rows.now }
        requires sound { AreSound rows.now }
        requires ahead { IsAhead rows.now self.old }
        ensures passed { (u : Use) (rest : List Use) → uses_ahead rows.now self.old ≡ u ∷ rest →
            uses_ahead rows.now self.new ≡ rest }
        ensures ahead { IsAhead rows.now self.new }
    {
        self.next = self.walk.next(rows, &mut self.at);
    }
}

/// Where a run is in the cells of its question: the verdicts on the cells that are finished, those
/// on the uses of the cell that it is in, and the uses ahead. Room is set aside for all of them.
#[derive(Drop)]
pub(crate) struct Course {
    count: u64,
    size: u64,
    pub(crate) cells: Verdicts,
    pub(crate) known: Verdicts,
    room: Verdicts,
    pub(crate) ahead: Ahead,
}

/// No verdicts, with room for so many.
fn room(alloc: Global, size: usize) -> Result<Verdicts, AllocError>
    ensures none { IfOk result (λ verdicts. verdicts.list ≡ []) }
    ensures room { IfOk result (λ verdicts. size ≤ verdicts.spare) }
{
    let mut verdicts = Verdicts::new(alloc);
    verdicts.reserve(size)?;
    Ok(verdicts)
}

impl Course {
    /// The beginning: no cell is finished. AllocError when out of memory.
    pub(crate) fn begin(
        alloc: Global,
        table: &Table,
        question: &Question,
    ) -> Result<Course, AllocError>
        requires lawful { IsLawful question.now }
        requires cells { AsksCells question.now }
        requires open { IsNotRefused table.now.model.rows question.now }
        ensures course { IfOk result (IsCourse table.now.model.rows question.now) }
        ensures ahead { IfOk result (λ course.
            IsAheadBy table.now.model.rows question.now course 0) }
        ensures going { IfOk result IsGoing }
        ensures none { IfOk result (λ course. done_of course ≡ 0) }
    {
        table.obeys();
        let rows = table.rows();
        let e = entity_of(question);
        let count = count(question);
        let size = weight(rows, table.graph(), e);
        let at = Box3::of(&cell_at(question, 0));
        Ok(Course {
            count,
            size: size as u64,
            cells: room(alloc, count as usize)?,
            known: room(alloc, size)?,
            room: room(alloc, size)?,
            ahead: Ahead::new(alloc, rows, e, &at)?,
        })
    }

    /// How many uses are left.
    pub(crate) fn left(&self) -> u64
        requires known { done_of self.now ≤ self.now.count * self.now.size }
        requires few { self.now.count * self.now.size < 2 ^ 32 }
        ensures { result ≡ self.now.count * self.now.size - done_of self.now }
    {
        self.count * self.size - self.cells.len() as u64 * self.size - self.known.len() as u64
    }

    /// Goes on to the next cell where no use of this one is ahead.
    pub(crate) fn go_on(&mut self, rows: &Rows, graph: &Graph, question: &Question)
        requires rows { AllByRecursion (λ e. IsLawfulRow e.row) rows.now }
        requires graph { graph.now ≡ rows.now }
        requires lawful { IsLawful question.now }
        requires cells { AsksCells question.now }
        requires open { IsNotRefused rows.now question.now }
        requires course { IsCourse rows.now question.now self.old }
        requires ahead { IsAheadBy rows.now question.now self.old 0 }
        requires inside { length self.old.cells.list < self.old.count }
        ensures course { IsCourse rows.now question.now self.new }
        ensures ahead { IsAheadBy rows.now question.now self.new 0 }
        ensures going { IsGoing self.new }
        ensures done { done_of self.new ≡ done_of self.old }
        ensures same { (self.new.count ≡ self.old.count) × (self.new.size ≡ self.old.size) }
    {
        if self.ahead.next.is_none() {
            self.finish_cell(rows, graph, question);
            self.next_cell(rows, graph, question);
        }
    }

    /// The verdict on the cell from those on its uses.
    fn finish_cell(&mut self, rows: &Rows, graph: &Graph, question: &Question)
        requires rows { AllByRecursion (λ e. IsLawfulRow e.row) rows.now }
        requires graph { graph.now ≡ rows.now }
        requires course { IsCourse rows.now question.now self.old }
        requires ahead { IsAheadBy rows.now question.now self.old 0 }
        requires inside { length self.old.cells.list < self.old.count }
        requires none { self.old.ahead.next ≡ None }
        ensures course { IsCourse rows.now question.now self.new }
        ensures next { self.new.ahead ≡ self.old.ahead }
        ensures known { self.new.known.list ≡ [] }
        ensures done { done_of self.new ≡ done_of self.old }
        ensures same { (self.new.count ≡ self.old.count) × (self.new.size ≡ self.old.size) }
    {
        let e = entity_of(question);
        let verdict = combine(rows, graph, e, self.known.as_slice(), &mut self.room);
        self.cells.push(verdict).unwrap();
        self.known.clear();
    }

    /// The uses of the next cell, where there is one.
    fn next_cell(&mut self, rows: &Rows, graph: &Graph, question: &Question)
        requires rows { AllByRecursion (λ e. IsLawfulRow e.row) rows.now }
        requires graph { graph.now ≡ rows.now }
        requires lawful { IsLawful question.now }
        requires cells { AsksCells question.now }
        requires open { IsNotRefused rows.now question.now }
        requires course { IsCourse rows.now question.now self.old }
        requires known { self.old.known.list ≡ [] }
        requires none { self.old.ahead.next ≡ None }
        ensures course { IsCourse rows.now question.now self.new }
        ensures ahead { IsAheadBy rows.now question.now self.new 0 }
        ensures going { IsGoing self.new }
        ensures done { done_of self.new ≡ done_of self.old }
        ensures same { (self.new.count ≡ self.old.count) × (self.new.size ≡ self.old.size) }
    {
        graph.obeys();
        let place = self.cells.len() as u64;
        if place < self.count {
            let at = Box3::of(&cell_at(question, place));
            self.ahead.restart(rows, entity_of(question), &at);
        }
    }
}
