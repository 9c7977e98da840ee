ghost use Rattle.std.specs.Prelude.{◌≡◌, ℕ, [], ◌∷◌, drop, MatchOption};
ghost use Rattle.std.specs.List.{AllByRecursion};
ghost use Rattle.solid_base.specs.declared.references.Reference.TheVariants as reference;
ghost use Rattle.solid_base.specs.Graph.{AreSound};
ghost use Rattle.solid_base.specs.Ranges.{IsLawfulRow};
ghost use Rattle.solid_base.specs.References.{operands_of};
ghost use Rattle.fixed_enclosure.specs.Places.{spans_of};
ghost use Rattle.fixed_enclosure.specs.Spans.{IsBox};
ghost use Rattle.entity_graph.specs.Opaque.{ReachesOpaque};
ghost use Rattle.solid_eval.specs.Walking.{level_uses, part_spans, IsPart};

use crate::level_stack::Level;
use affine_pull::pull_chain;
use fixed_enclosure::Box3;
use solid_base::{Item, Items, Placed, PlacedList, Row, Rows};

/// An operand, item or child of a level: its number, the matrix of its place, 0 for none, and the
/// place, counted from 0, after it.
#[derive(Clone, Copy, Debug)]
pub struct Part {
    pub number: u32,
    pub matrix: u32,
    pub next: usize,
}

/// The next operand, item or child of a level. None where no use is left on it.
pub fn part_from(rows: &Rows, level: &Level) -> Option<Part>
    requires rows { AllByRecursion (λ e. IsLawfulRow e.row) rows.now }
    requires sound { AreSound rows.now }
    requires read { (n : ℕ) → ¬ ReachesOpaque rows.now level.now.e n }
    ensures { MatchOption result (level_uses rows.now level.now ≡ []) (IsPart rows.now level.now) }
{
    match rows.row(level.e) {
        Some(Row::Tree { items, .. }) => {
            let (number, next) = operand_from(items, level.index)?;
            Some(Part {
                number,
                matrix: 0,
                next,
            })
        }
        Some(Row::Assembly { items, .. }) => {
            let (placed, next) = item_from(items, level.index)?;
            Some(Part {
                number: placed.item,
                matrix: placed.matrix,
                next,
            })
        }
        Some(Row::Instance { child, .. }) => {
            if level.index > 0 {
                return None;
            }
            Some(Part {
                number: *child,
                matrix: 0,
                next: 1,
            })
        }
        None | Some(Row::Null | Row::Opaque { .. } | Row::Matrix { .. } | Row::Prim { .. }) => None,
    }
}

/// Makes a box that of a part of a level, in steps, before the part's own matrix.
#[tactic(auto, using(crate::proofs::NextParts::unmoved))]
pub fn enter_part(rows: &Rows, level: &Level, part: &Part, at: &mut Box3)
    requires rows { AllByRecursion (λ e. IsLawfulRow e.row) rows.now }
    requires level { IsBox level.now.at }
    ensures spans { spans_of at.new ≡ part_spans rows.now level.now part.now }
    ensures at { IsBox at.new }
{
    if part.matrix == 0 {
        *at = level.at;
    } else {
        *at = pull_chain(rows, part.matrix, &level.at);
    }
}

// The next operand from a place on, and the place after it.
fn operand_from(items: &Items, index: usize) -> Option<(u32, usize)>
    ensures { MatchOption result (operands_of (drop index items.now) ≡ [])
        (λ r. operands_of (drop index items.now) ≡
        reference.Solid r.0 ∷ operands_of (drop r.1 items.now)) }
{
    let items = items.as_slice();
    let mut next = index;
    while next < items.len() {
        let item = items[next];
        next += 1;
        if let Item::Operand(number) = item {
            return Some((number, next));
        }
    }
    None
}

// The next item from a place on, and the place after it.
fn item_from(items: &PlacedList, index: usize) -> Option<(Placed, usize)>
    ensures { MatchOption result (drop index items.now ≡ [])
        (λ r. drop index items.now ≡ r.0 ∷ drop r.1 items.now) }
{
    let items = items.as_slice();
    if index < items.len() {
        Some((items[index], index + 1))
    } else {
        None
    }
}
