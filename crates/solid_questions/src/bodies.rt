ghost use Rattle.std.specs.Prelude.{◌≡◌, ◌<◌, ◌≤◌, ◌++◌, ℕ, List, Some, OnOk, IfOk, IfSome, length};
ghost use Rattle.std.specs.Prelude.{option_copied, codes};
ghost use Rattle.std.specs.List.{flat_map};
ghost use mathlib.Core.List.{IsPrefix};
ghost use Rattle.solid_questions.specs.Questions.{IsLawful, IsOfRows};
ghost use Rattle.solid_base.specs.Range.{IsCube, IsPointWithin, far};
ghost use Rattle.solid_base.specs.declared.solids.Row.{Row};
ghost use Rattle.solid_questions.specs.QuestionCells.{cell_count, grid_cells};
ghost use Rattle.solid_questions.specs.QuestionCells.{most_question_depth};
ghost use Rattle.solid_questions.specs.Refusals.{lent_row};
ghost use Rattle.solid_questions.specs.Bodies.{IsBody, verdict_words, one_verdict, item_words};
ghost use Rattle.solid_questions.specs.Bodies.{items_words, count_words, volume_words, found_words};

use crate::questions::Question;
use crate::sections::push_section;
use crate::volumes::{push_bounds, push_counts, push_found, push_volume};
use crate::words::{push_count, push_number, push_text};
use solid_base::{Bytes, Class, Cube, Placed, Row, Verdict, Verdicts};
use std::alloc::{AllocError, Global};

fn push_verdict(out: &mut Bytes, verdict: &Verdict) -> Result<(), AllocError>
    ensures ok { OnOk result (out.new ≡ out.old ++ verdict_words verdict.now) }
    ensures front { IsPrefix out.old out.new }
{
    match verdict.class {
        Class::Outside => push_text(out, b"OUTSIDE"),
        Class::Mixed => push_number(out, b"UNDECIDED ", verdict.leaf),
        Class::Inside => push_text(out, b"INSIDE"),
    }
}

/// Adds the words for the verdict on the one cell of a question.
fn push_one_verdict(out: &mut Bytes, verdicts: &[Verdict]) -> Result<(), AllocError>
    ensures ok { OnOk result (out.new ≡ out.old ++ one_verdict verdicts.now) }
    ensures front { IsPrefix out.old out.new }
{
    match verdicts {
        [] => Ok(()),
        [verdict, ..] => push_verdict(out, verdict),
    }
}

fn push_item(out: &mut Bytes, placed: &Placed) -> Result<(), AllocError>
    ensures ok { OnOk result (out.new ≡ out.old ++ item_words placed.now) }
    ensures front { IsPrefix out.old out.new }
{
    push_number(out, b" ", placed.item)?;
    match placed.matrix {
        0 => Ok(()),
        matrix => push_number(out, b"/", matrix),
    }
}

fn push_placed_items(out: &mut Bytes, items: &[Placed]) -> Result<(), AllocError>
    ensures ok { OnOk result (out.new ≡ out.old ++ flat_map item_words items.now) }
    ensures front { IsPrefix out.old out.new }
{
    for placed in items {
        push_item(out, placed)?;
    }
    Ok(())
}

fn push_assembly(out: &mut Bytes, items: &[Placed]) -> Result<(), AllocError>
    ensures ok { OnOk result (out.new ≡ out.old ++ (codes "ITEMS" ++ (count_words
        (length items.now) ++ flat_map item_words items.now))) }
    ensures front { IsPrefix out.old out.new }
{
    push_text(out, b"ITEMS")?;
    push_count(out, items.len() as u64)?;
    push_placed_items(out, items)
}

fn push_items(out: &mut Bytes, e: u32, row: Option<&Row>) -> Result<(), AllocError>
    ensures ok { OnOk result (out.new ≡ out.old ++ items_words e
        (lent_row (option_copied row.entry))) }
    ensures front { IsPrefix out.old out.new }
{
    match row {
        Some(Row::Assembly { items, .. }) => push_assembly(out, items.as_slice()),
        Some(Row::Prim { .. }) | Some(Row::Tree { .. }) | Some(Row::Instance { .. }) => {
            push_number(out, b"ITEMS 1 ", e)
        }
        _ => Ok(()),
    }
}

/// Adds the reply body of a question that isn't refused: from the row of its entity, None where
/// it asks about none, and the verdicts on its cells, in their order. The question's numbers are in
/// their ranges, and it isn't an export. When out of memory, what stood in the text still stands in
/// front of it.
pub fn push_body(
    alloc: Global,
    out: &mut Bytes,
    question: &Question,
    row: Option<&Row>,
    verdicts: &Verdicts,
) -> Result<(), AllocError>
    requires lawful { IsLawful question.now }
    requires of_rows { IsOfRows question.now }
    requires cells { cell_count question.now ≡ Some (length verdicts.now.list) }
    ensures body { OnOk result ((body : List ℕ) × IsBody question.now
        (lent_row (option_copied row.entry)) verdicts.now.list body
        × (out.new ≡ out.old ++ body)) }
    ensures front { IsPrefix out.old out.new }
{
    let cells = verdicts.as_slice();
    match question {
        Question::Point { .. } => push_one_verdict(out, cells),
        Question::Cell { .. } => push_one_verdict(out, cells),
        Question::Items { e } => push_items(out, *e, row),
        Question::Section { nx, ny, .. } => push_section(out, *nx, *ny, cells),
        Question::Volume { cube, depth, .. } => push_volume(alloc, out, verdicts, cube, *depth),
        Question::Bounds { cube, depth, .. } => push_bounds(alloc, out, verdicts, cube, *depth),
        Question::Export => Ok(()),
        Question::Newest => push_text(out, b"NEWEST"),
    }
}

/// The reply body of a question about cells, from the verdicts on them in their order.
pub fn render(alloc: Global, question: &Question, verdicts: &Verdicts) -> Result<Bytes, AllocError>
    requires lawful { IsLawful question.now }
    requires cells { cell_count question.now ≡ Some (length verdicts.now.list) }
    requires some { 0 < length verdicts.now.list }
    ensures { IfOk result (λ text. (r : Row) → IsBody question.now r verdicts.now.list text) }
{
    let mut out = Bytes::new(alloc);
    push_body(alloc, &mut out, question, None, verdicts)?;
    Ok(out)
}

/// The reply body of a volume by its counts: how many cells of the cube's grid of a depth of at
/// most 5 lie inside, and how many aren't outside.
pub fn render_counts(
    alloc: Global,
    lower: u64,
    upper: u64,
    cube: &Cube,
    depth: u32,
) -> Result<Bytes, AllocError>
    requires cube { IsCube cube.now }
    requires depth { depth ≤ most_question_depth }
    requires counts { (lower ≤ upper) × (upper ≤ grid_cells depth) }
    ensures { IfOk result (λ text. text ≡ volume_words lower upper cube.now depth) }
{
    let mut out = Bytes::new(alloc);
    push_counts(alloc, &mut out, lower, upper, cube, depth)?;
    Ok(out)
}

/// The reply body of extents: their corners, or `EMPTY` where none were found.
pub fn render_bounds(alloc: Global, found: Option<Cube>) -> Result<Bytes, AllocError>
    requires { IfSome found (λ cube. IsPointWithin far cube.lo × IsPointWithin far cube.hi) }
    ensures { IfOk result (λ text. text ≡ found_words found) }
{
    let mut out = Bytes::new(alloc);
    push_found(alloc, &mut out, found)?;
    Ok(out)
}
