ghost use Rattle.std.specs.Prelude.{◌≡◌, [], ◌∷◌, ◌++◌, OnOk, option_copied};
ghost use mathlib.Core.List.{IsPrefix};
ghost use Rattle.solid_questions.specs.Refusals.{refusal_of, lent_row, first_refusal, no_entity};
ghost use Rattle.solid_questions.specs.Refusals.{not_solid, unread, unsupported, too_large};
ghost use Rattle.solid_questions.specs.Refusals.{cells_refusal};
ghost use Rattle.solid_questions.specs.Refusals.{refused_body, refusal_words};

use crate::question_cells::cells;
use crate::questions::Question;
use crate::words::{push_number, push_text};
use solid_base::{Bytes, Row};
use std::alloc::AllocError;

/// Why a question isn't answered.
#[derive(Clone, Copy, Debug, PartialEq, Eq)]
pub enum Refusal {
    /// No entity has the number, or its row is null.
    NoEntity(u32),
    /// The entity with this number is a matrix.
    NotSolid(u32),
    /// The entity reaches this one, of a type or form that isn't read; no lower number is such.
    Unsupported(u32),
    /// The question asks about too many cells, or its cells take too many evaluations.
    TooLarge,
}

/// The most evaluations of primitives that one question may take.
const MOST_EVALUATIONS: u64 = 4_194_304;

/// Why a question is refused, if it is: by the row of its entity, None where no entity has the
/// number, by the entity's weight, and by the least number of an entity that it reaches and that
/// isn't read, 0 for none. In this order: NoEntity exactly where there is no row or a null one;
/// NotSolid exactly where it is a matrix; Unsupported exactly where that number isn't 0; TooLarge
/// exactly where there are too many cells, or where they take more than 2^22 evaluations. The items
/// of an entity are refused only by the first two, or as Unsupported where the entity itself isn't
/// read. A question about no entity isn't refused.
pub fn refusal_of(
    question: &Question,
    row: Option<&Row>,
    weight: u64,
    least_unread: u32,
) -> Option<Refusal>
    ensures { result ≡ refusal_of question.now (lent_row (option_copied row.entry)) weight
        least_unread }
{
    match question {
        Question::Items { e } => refusal_of_row(*e, row).or(unread(*e, row)),
        Question::Point { e, .. } => cells_refusal(question, *e, row, weight, least_unread),
        Question::Cell { e, .. } => cells_refusal(question, *e, row, weight, least_unread),
        Question::Section { e, .. } => cells_refusal(question, *e, row, weight, least_unread),
        Question::Volume { e, .. } => cells_refusal(question, *e, row, weight, least_unread),
        Question::Bounds { e, .. } => cells_refusal(question, *e, row, weight, least_unread),
        Question::Export | Question::Newest => None,
    }
}

fn cells_refusal(
    question: &Question,
    e: u32,
    row: Option<&Row>,
    weight: u64,
    least_unread: u32,
) -> Option<Refusal>
    ensures { result ≡ cells_refusal question.now e (lent_row (option_copied row.entry)) weight
        least_unread }
{
    refusal_of_row(e, row)
        .or(unsupported(least_unread))
        .or(too_large(cells(question), weight))
}

/// Why an entity isn't a solid, if it isn't.
fn refusal_of_row(e: u32, row: Option<&Row>) -> Option<Refusal>
    ensures { result ≡ first_refusal (no_entity e (lent_row (option_copied row.entry))
        ∷ not_solid e (lent_row (option_copied row.entry)) ∷ []) }
{
    match row {
        None | Some(Row::Null) => Some(Refusal::NoEntity(e)),
        Some(Row::Matrix { .. }) => Some(Refusal::NotSolid(e)),
        Some(_) => None,
    }
}

fn unread(e: u32, row: Option<&Row>) -> Option<Refusal>
    ensures { result ≡ unread e (lent_row (option_copied row.entry)) }
{
    match row {
        Some(Row::Opaque { .. }) => Some(Refusal::Unsupported(e)),
        _ => None,
    }
}

fn unsupported(least_unread: u32) -> Option<Refusal>
    ensures { result ≡ unsupported least_unread }
{
    match least_unread {
        0 => None,
        number => Some(Refusal::Unsupported(number)),
    }
}

fn too_large(count: Option<u64>, weight: u64) -> Option<Refusal>
    ensures { result ≡ too_large count weight }
{
    match count {
        Some(count) if count.saturating_mul(weight) <= MOST_EVALUATIONS => None,
        _ => Some(Refusal::TooLarge),
    }
}

impl Refusal {
    /// Adds the reply body of the refused question: `REFUSED`, and the words of the refusal. When
    /// out of memory, what stood in the text still stands in front of it.
    pub fn push(&self, out: &mut Bytes) -> Result<(), AllocError>
        ensures ok { OnOk result (out.new ≡ out.old ++ refused_body self.now) }
        ensures front { IsPrefix out.old out.new }
    {
        push_text(out, b"REFUSED ")?;
        self.push_words(out)
    }

    /// Adds the words of the refusal alone: its name, and the number of the entity. When out of
    /// memory, what stood in the text still stands in front of it.
    pub fn push_words(&self, out: &mut Bytes) -> Result<(), AllocError>
        ensures ok { OnOk result (out.new ≡ out.old ++ refusal_words self.now) }
        ensures front { IsPrefix out.old out.new }
    {
        match self {
            Refusal::NoEntity(e) => push_number(out, b"NoEntity ", *e),
            Refusal::NotSolid(e) => push_number(out, b"NotSolid ", *e),
            Refusal::Unsupported(e) => push_number(out, b"Unsupported ", *e),
            Refusal::TooLarge => push_text(out, b"TooLarge"),
        }
    }
}
