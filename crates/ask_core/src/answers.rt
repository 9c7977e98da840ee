ghost use Rattle.std.specs.Prelude.{◌≡◌, ℕ, ◌*◌, ◌++◌, List, [], ◌∷◌, length, codes, OnOk, MatchOption};
ghost use Rattle.std.specs.List.{AllByRecursion};
ghost use mathlib.Core.List.{IsPrefix};
ghost use Rattle.solid_base.specs.Graph.{weight_of};
ghost use Rattle.solid_base.specs.Ledgers.{counted, RisesUpTo};
ghost use Rattle.solid_base.specs.Ranges.{IsLawfulRow};
ghost use Rattle.solid_base.specs.References.{row_at};
ghost use Rattle.entity_graph.specs.Opaque.{IsFirstOpaque};
ghost use Rattle.iges_parameters.specs.Accepted.{IsAccepted};
ghost use Rattle.iges_write.specs.CanonicalFile.{canonical_text};
ghost use Rattle.solid_eval.specs.Solids.{solid_of};
ghost use Rattle.solid_eval.specs.Uses.{leaf_count};
ghost use Rattle.solid_questions.specs.Bodies.{IsBody};
ghost use Rattle.solid_questions.specs.Questions.{IsLawful, IsOfRows, entity_of};
ghost use Rattle.solid_questions.specs.QuestionCells.{all_cells, cell_count};
ghost use Rattle.solid_questions.specs.Refusals.{most_evaluations};
ghost use Rattle.ask_core.specs.Answers.{IsAnswer, IsAnswerOn, IsExport, Evaluates};
ghost use Rattle.ask_core.specs.Answers.{cell_evaluations};
ghost use Rattle.ask_core.specs.Answers.{cell_verdicts, refusal_on};

use crate::cells::{cell_verdicts, entity_of};
use edit_core::Table;
use entity_graph::Graph;
use iges_write::{append_model, file_lines};
use solid_base::{Bytes, Ledger, Model, Rows, push_decimal};
use solid_questions::{Question, Refusal, push_body, refusal_of};
use std::alloc::{AllocError, Global};

/// How many bytes a line of a written file takes.
const LINE_BYTES: usize = 81;

/// Why a question about a model is refused, if it is.
pub(crate) fn refusal(rows: &Rows, graph: &Graph, question: &Question) -> Option<Refusal>
    requires graph { graph.now ≡ rows.now }
    ensures { (unread : ℕ) × IsFirstOpaque rows.now (entity_of question.now) unread
        × (result ≡ refusal_on rows.now question.now unread) }
{
    let e = entity_of(question);
    match rows.row(e) {
        Some(row) => refusal_of(question, Some(row), graph.weight(e), graph.opaque(e)),
        None => refusal_of(question, None, 0, 0),
    }
}

/// Adds the body of the answer to a question that isn't refused, by the verdicts on its cells, each
/// evaluated afresh.
fn push_evaluated<L: Ledger>(
    alloc: Global,
    out: &mut Bytes,
    rows: &Rows,
    graph: &Graph,
    question: &Question,
    leaves: &mut L,
) -> Result<(), AllocError>
    requires rows { AllByRecursion (λ e. IsLawfulRow e.row) rows.now }
    requires graph { graph.now ≡ rows.now }
    requires lawful { IsLawful question.now }
    requires of_rows { IsOfRows question.now }
    requires few { MatchOption (cell_count question.now) ⊥ (λ _. Unit {0}) }
    ensures body { OnOk result ((body : List ℕ) × IsBody question.now
        (row_at rows.now (entity_of question.now)) (cell_verdicts rows.now question.now) body
        × (out.new ≡ out.old ++ body)) }
    ensures front { IsPrefix out.old out.new }
    ensures counted { OnOk result (L.count leaves.new ≡ counted (L.count leaves.old)
        (cell_evaluations rows.now question.now)) }
    ensures most { RisesUpTo (L.count leaves.old) (L.count leaves.new)
        (cell_evaluations rows.now question.now) }
{
    let verdicts = cell_verdicts(alloc, rows, graph, question, leaves)?;
    push_body(
        alloc,
        out,
        question,
        rows.row(entity_of(question)),
        &verdicts,
    )
}

/// Adds the answer to a question that is answered from the rows of a model.
pub(crate) fn push_answer_on<L: Ledger>(
    alloc: Global,
    out: &mut Bytes,
    rows: &Rows,
    graph: &Graph,
    question: &Question,
    leaves: &mut L,
) -> Result<(), AllocError>
    requires rows { AllByRecursion (λ e. IsLawfulRow e.row) rows.now }
    requires graph { graph.now ≡ rows.now }
    requires lawful { IsLawful question.now }
    requires of_rows { IsOfRows question.now }
    ensures answer { OnOk result ((body : List ℕ) × IsAnswerOn rows.now question.now body
        × (out.new ≡ out.old ++ body)) }
    ensures front { IsPrefix out.old out.new }
    ensures counted { OnOk result ((count : ℕ) × Evaluates rows.now question.now count
        × (L.count leaves.new ≡ counted (L.count leaves.old) count)) }
    ensures most { (count : ℕ) × Evaluates rows.now question.now count
        × RisesUpTo (L.count leaves.old) (L.count leaves.new) count }
    ensures weight { RisesUpTo (L.count leaves.old) (L.count leaves.new)
        (length (all_cells question.now) * weight_of rows.now (entity_of question.now)) }
    ensures light { RisesUpTo (L.count leaves.old) (L.count leaves.new) most_evaluations }
{
    match refusal(rows, graph, question) {
        Some(refusal) => refusal.push(out),
        None => push_evaluated(alloc, out, rows, graph, question, leaves),
    }
}

/// Takes the last byte from a text, where it has one.
fn drop_last(text: &mut Bytes)
    ensures { (front : List ℕ) (byte : ℕ) → text.old ≡ front ++ byte ∷ [] → text.new ≡ front }
{
    text.truncate(text.len().saturating_sub(1));
}

/// Adds the file of a model, of which the last line isn't ended.
fn push_file(alloc: Global, out: &mut Bytes, model: &Model) -> Result<(), AllocError>
    requires { IsAccepted model.now }
    ensures file { OnOk result ((front : List ℕ) → canonical_text model.now ≡ front ++ codes "\n" →
        out.new ≡ out.old ++ front) }
    ensures front { IsPrefix out.old out.new }
{
    append_model(alloc, out, model)?;
    drop_last(out);
    Ok(())
}

/// Adds the text of an export: how many lines the file of the model has, and these, of which the
/// last one isn't ended.
fn push_export(alloc: Global, out: &mut Bytes, table: &Table) -> Result<(), AllocError>
    ensures export { OnOk result ((body : List ℕ) × IsExport table.now.model body
        × (out.new ≡ out.old ++ body)) }
    ensures front { IsPrefix out.old out.new }
{
    table.obeys();
    let model = table.model(alloc)?;
    let lines = file_lines(alloc, &model, table.lines())?;
    out.reserve(LINE_BYTES * lines as usize)?;
    out.extend_from_slice(b"EXPORT ")?;
    push_decimal(out, lines)?;
    out.extend_from_slice(b"\n")?;
    push_file(alloc, out, &model)
}

/// Adds the answer to a question about a version of a model to a text: the words of the refusal, or
/// the body by the verdicts on the cells, each evaluated afresh; for an export the model's file.
///
/// The question's numbers are in their ranges. Each primitive is evaluated and counted on the
/// ledger once a cell for each time that it stands in the entity's solid; never more than 2^22 are
/// for one question, and none for one that is refused. AllocError when out of memory; then what
/// stood in the text still stands in front of it, and the evaluations may have been made.
pub fn push_answer<L: Ledger>(
    alloc: Global,
    out: &mut Bytes,
    table: &Table,
    question: &Question,
    leaves: &mut L,
) -> Result<(), AllocError>
    requires lawful { IsLawful question.now }
    ensures answer { OnOk result ((body : List ℕ) × IsAnswer table.now.model question.now body
        × (out.new ≡ out.old ++ body)) }
    ensures front { IsPrefix out.old out.new }
    ensures counted { OnOk result ((count : ℕ) × Evaluates table.now.model.rows question.now count
        × (L.count leaves.new ≡ counted (L.count leaves.old) count)) }
    ensures most { (count : ℕ) × Evaluates table.now.model.rows question.now count
        × RisesUpTo (L.count leaves.old) (L.count leaves.new) count }
    ensures weight { RisesUpTo (L.count leaves.old) (L.count leaves.new)
        (length (all_cells question.now)
        * weight_of table.now.model.rows (entity_of question.now)) }
    ensures light { RisesUpTo (L.count leaves.old) (L.count leaves.new) most_evaluations }
{
    table.obeys();
    match question {
        Question::Export => push_export(alloc, out, table),
        _ => push_answer_on(alloc, out, table.rows(), table.graph(), question, leaves),
    }
}
