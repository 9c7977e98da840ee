ghost use Rattle.std.specs.Prelude.{◌≡◌, ◌++◌, ◌-◌, ◌<◌, ℕ, List, OnOk};
ghost use mathlib.Core.List.{IsPrefix};
ghost use Rattle.solid_base.specs.Ledgers.{RisesUpTo};
ghost use Rattle.solid_questions.specs.Questions.{IsLawful};
ghost use Rattle.solid_questions.specs.Refusals.{most_evaluations};
ghost use Rattle.ask_core.specs.Answers.{IsAnswer, Evaluates};
ghost use Rattle.ask_core.specs.Runs.{GoesOnWith, left_of};
ghost use Rattle.ask_core.specs.Thrift.{IsFurther, IsThrifty};
ghost use Rattle.ask_core.specs.declared.runs.Stage.TheVariants as stage;

use crate::answers::push_answer;
use crate::books::{Book, is_at_once};
use crate::runs::Run;
use solid_base::{Bytes, Ledger, NoTally};
use solid_questions::Question;
use std::alloc::{AllocError, Global};

/// One round of a run: a look, the work, and a fill. AllocError where the fill lacks memory; the
/// run has gone on all the same.
fn round<L: Ledger>(book: &mut Book, run: &mut Run, leaves: &mut L) -> Result<(), AllocError>
    requires front { GoesOnWith run.old book.old }
    requires idle { run.old.stage ≡ stage.Idle }
    ensures further { IsFurther run.old run.new }
    ensures fewer { left_of run.new < left_of run.old }
    ensures light { RisesUpTo (L.count leaves.old) (L.count leaves.new)
        (left_of run.old - left_of run.new) }
    ensures thrifty { OnOk result (IsThrifty run.old.table run.old.question
        book.old.memo.entries book.new.memo.entries (L.count leaves.old) (L.count leaves.new)) }
    ensures opening { book.new.opening ≡ book.old.opening }
    ensures log { book.new.log ≡ book.old.log }
    ensures table { book.new.table ≡ book.old.table }
{
    book.obeys();
    book.look(run);
    run.work(leaves);
    run.obeys();
    book.fill(run)
}

/// Goes round after round until no use is left. AllocError where a fill lacks memory.
fn finish<L: Ledger>(book: &mut Book, run: &mut Run, leaves: &mut L) -> Result<(), AllocError>
    requires front { GoesOnWith run.old book.old }
    requires idle { run.old.stage ≡ stage.Idle }
    ensures done { OnOk result (left_of run.new ≡ 0) }
    ensures further { IsFurther run.old run.new }
    ensures light { RisesUpTo (L.count leaves.old) (L.count leaves.new) (left_of run.old) }
    ensures thrifty { OnOk result (IsThrifty run.old.table run.old.question
        book.old.memo.entries book.new.memo.entries (L.count leaves.old) (L.count leaves.new)) }
    ensures opening { book.new.opening ≡ book.old.opening }
    ensures log { book.new.log ≡ book.old.log }
    ensures table { book.new.table ≡ book.old.table }
{
    run.obeys();
    while run.left() > 0 {
        round(book, run, leaves)?;
    }
    Ok(())
}

impl Book {
    /// Adds the answer to a question on the newest version to a text: at once where it is refused
    /// or asks about no cells, else by rounds of looks, work and fills to the end.
    ///
    /// The question's numbers are in their ranges. Never more than 2^22 primitives are evaluated
    /// for one question, and none for one that is answered at once. AllocError when out of memory;
    /// then what stood in the text still stands in front of it, and the evaluations may have been
    /// made.
    pub fn push_answer<L: Ledger>(
        &mut self,
        alloc: Global,
        out: &mut Bytes,
        question: &Question,
        leaves: &mut L,
    ) -> Result<(), AllocError>
        requires lawful { IsLawful question.now }
        ensures answer { OnOk result ((body : List ℕ)
            × IsAnswer self.old.table.model question.now body × (out.new ≡ out.old ++ body)) }
        ensures front { IsPrefix out.old out.new }
        ensures most { (count : ℕ) × Evaluates self.old.table.model.rows question.now count
            × RisesUpTo (L.count leaves.old) (L.count leaves.new) count }
        ensures light { RisesUpTo (L.count leaves.old) (L.count leaves.new) most_evaluations }
        ensures thrifty { OnOk result (IsThrifty self.old.table question.now
            self.old.memo.entries self.new.memo.entries
            (L.count leaves.old) (L.count leaves.new)) }
        ensures opening { self.new.opening ≡ self.old.opening }
        ensures log { self.new.log ≡ self.old.log }
        ensures table { self.new.table ≡ self.old.table }
    {
        if is_at_once(self.table(), question) {
            return push_answer(alloc, out, self.table(), question, &mut NoTally);
        }
        let mut run = self.run(alloc, question, false)?;
        run.obeys();
        finish(self, &mut run, leaves)?;
        run.push_answer(alloc, out)
    }
}
