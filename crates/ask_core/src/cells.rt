ghost use Rattle.std.specs.Prelude.{◌≡◌, ℕ, ◌<◌, ◌≤◌, ◌+◌, ◌++◌, [], ◌∷◌, map};
ghost use Rattle.std.specs.Prelude.{IfOk, OnOk, OnErr, MatchOption, Some};
ghost use Rattle.std.specs.List.{AllByRecursion, range_with_len};
ghost use Rattle.solid_base.specs.Graph.{weight_of};
ghost use Rattle.solid_base.specs.Ledgers.{counted};
ghost use Rattle.solid_base.specs.Ranges.{IsLawfulRow};
ghost use Rattle.solid_eval.specs.Solids.{solid_of};
ghost use Rattle.solid_eval.specs.Uses.{leaf_count};
ghost use Rattle.solid_questions.specs.Questions.{IsLawful, entity_of};
ghost use Rattle.solid_questions.specs.QuestionCells.{all_cells, cell, cell_count};
ghost use Rattle.ask_core.specs.Answers.{cell_evaluations, cell_verdict, cell_verdicts};

use entity_graph::Graph;
use fixed_enclosure::Box3;
use solid_base::{Ledger, Rows, Verdicts};
use solid_eval::{afresh_in, weight};
use solid_questions::{Question, cell_at, cells};
use std::alloc::{AllocError, Global};

/// The number of the entity that a question is about, 0 where it is about none.
pub(crate) fn entity_of(question: &Question) -> u32
    ensures { result ≡ entity_of question.now }
{
    match question {
        Question::Point { e, .. }
        | Question::Cell { e, .. }
        | Question::Items { e }
        | Question::Section { e, .. }
        | Question::Volume { e, .. }
        | Question::Bounds { e, .. } => *e,
        Question::Export | Question::Newest => 0,
    }
}

/// How many cells a question asks about that aren't too many, else none.
pub(crate) fn count(question: &Question) -> u64
    ensures cells { all_cells question.now ≡ map (cell question.now) (range_with_len 0 result) }
    ensures few { result ≤ 65536 }
    ensures counted { (n : ℕ) → cell_count question.now ≡ Some n → result ≡ n }
    ensures inside { (place : ℕ) → place < result →
        MatchOption (cell_count question.now) ⊥ (λ count. place < count) }
{
    match cells(question) {
        Some(count) => count,
        None => 0,
    }
}

/// No verdicts yet, with room for those on so many cells of an entity, and above them for what
/// their evaluation takes. No cells need no room.
fn room(
    alloc: Global,
    rows: &Rows,
    graph: &Graph,
    e: u32,
    count: u64,
) -> Result<Verdicts, AllocError>
    requires rows { AllByRecursion (λ e. IsLawfulRow e.row) rows.now }
    requires graph { graph.now ≡ rows.now }
    requires few { count ≤ 65536 }
    ensures none { IfOk result (λ verdicts. verdicts.list ≡ []) }
    ensures room { 0 < count →
        IfOk result (λ verdicts. count + weight_of rows.now e ≤ verdicts.spare) }
{
    graph.obeys();
    let mut verdicts = Verdicts::new(alloc);
    if count > 0 {
        verdicts.reserve(count as usize + weight(rows, graph, e))?;
    }
    Ok(verdicts)
}

/// Evaluates the cell of a question at a place, and adds the verdict to those before it. They stand
/// where the evaluation has its room, so that no cell takes memory.
fn push_cell<L: Ledger>(
    rows: &Rows,
    graph: &Graph,
    question: &Question,
    place: u64,
    verdicts: &mut Verdicts,
    leaves: &mut L,
)
    requires rows { AllByRecursion (λ e. IsLawfulRow e.row) rows.now }
    requires graph { graph.now ≡ rows.now }
    requires lawful { IsLawful question.now }
    requires place { MatchOption (cell_count question.now) ⊥ (λ count. place < count) }
    requires room { weight_of rows.now (entity_of question.now) < verdicts.old.spare }
    ensures added { verdicts.new.list ≡ verdicts.old.list
        ++ cell_verdict rows.now (entity_of question.now) (cell question.now place) ∷ [] }
    ensures spare { verdicts.new.spare + 1 ≡ verdicts.old.spare }
    ensures counted { L.count leaves.new ≡ counted (L.count leaves.old)
        (leaf_count (solid_of rows.now (entity_of question.now))) }
{
    let at = Box3::of(&cell_at(question, place));
    let verdict = afresh_in(rows, graph, entity_of(question), &at, verdicts, leaves);
    verdicts.push(verdict).unwrap();
}

/// The verdicts on all cells of a question, in order. All memory is taken before the first
/// evaluation.
pub(crate) fn cell_verdicts<L: Ledger>(
    alloc: Global,
    rows: &Rows,
    graph: &Graph,
    question: &Question,
    leaves: &mut L,
) -> Result<Verdicts, AllocError>
    requires rows { AllByRecursion (λ e. IsLawfulRow e.row) rows.now }
    requires graph { graph.now ≡ rows.now }
    requires lawful { IsLawful question.now }
    ensures verdicts { IfOk result (λ verdicts.
        verdicts.list ≡ cell_verdicts rows.now question.now) }
    ensures counted { OnOk result (L.count leaves.new ≡ counted (L.count leaves.old)
        (cell_evaluations rows.now question.now)) }
    ensures unchanged { OnErr result (L.count leaves.new ≡ L.count leaves.old) }
{
    let count = count(question);
    let mut verdicts = room(alloc, rows, graph, entity_of(question), count)?;
    for place in 0..count {
        push_cell(rows, graph, question, place, &mut verdicts, leaves);
    }
    Ok(verdicts)
}
