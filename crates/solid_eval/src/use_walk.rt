ghost use Rattle.std.specs.Prelude.{◌≡◌, ◌+◌, ◌≤◌, ℕ, List, [], ◌∷◌, ◌++◌, length};
ghost use Rattle.std.specs.Prelude.{IfOk, MatchOption};
ghost use Rattle.std.specs.List.{AllByRecursion};
ghost use Rattle.solid_base.specs.declared.entities.Entity.{Entity};
ghost use Rattle.solid_base.specs.Graph.{AreSound, depth_of, weight_of, most_levels};
ghost use Rattle.solid_base.specs.Ranges.{IsLawfulRow};
ghost use Rattle.solid_base.specs.References.{row_at};
ghost use Rattle.fixed_enclosure.specs.Places.{spans_of};
ghost use Rattle.fixed_enclosure.specs.Spans.{IsBox};
ghost use Rattle.entity_graph.specs.Opaque.{ReachesOpaque};
ghost use Rattle.solid_eval.specs.Solids.{solid_of, IsSolidRow};
ghost use Rattle.solid_eval.specs.Uses.{uses};
ghost use Rattle.solid_eval.specs.Walking.{levels_uses, uses_left, IsStack, IsWalk, own_matrix};

use crate::level_stack::{Level, Levels};
use crate::parts::{enter_part, part_from};
use affine_pull::pull_chain;
use fixed_enclosure::Box3;
use solid_base::{MOST_LEVELS, Row, Rows};
use std::alloc::{AllocError, Global};

/// A walk along the uses of the primitives of an entity over a box, in the order in which operands
/// and items stand. It borrows no rows, so that it can be kept between calls: contracts see the
/// uses that are left over rows. Room is set aside for the most levels that a model may have.
#[derive(Debug, Drop)]
pub struct Walk {
    start: Option<(u32, Box3)>,
    levels: Levels,
}

impl Walk {
    /// A walk along all uses of an entity over a box, in steps. It is one of any lawful rows whose
    /// references obey the rules, where the entity is a solid that reaches nothing unread.
    /// AllocError when out of memory.
    pub fn new(alloc: Global, e: u32, at: &Box3) -> Result<Walk, AllocError>
        requires at { IsBox at.now }
        ensures left { (rows : List Entity) →
            IfOk result (λ w. uses_left rows w ≡ uses (solid_of rows e) (spans_of at.now)) }
        ensures walk { (rows : List Entity) → AllByRecursion (λ e. IsLawfulRow e.row) rows →
            AreSound rows → ((n : ℕ) → ¬ ReachesOpaque rows e n) → IsSolidRow (row_at rows e) →
            IfOk result (IsWalk rows) }
    {
        let mut levels = Levels::new(alloc);
        levels.reserve(MOST_LEVELS as usize)?;
        Ok(Walk {
            start: Some((e, *at)),
            levels,
        })
    }

    /// Starts again, along all uses of an entity over a box, in steps, with the room that the walk
    /// has. No memory is taken.
    pub fn restart(&mut self, e: u32, at: &Box3)
        requires at { IsBox at.now }
        ensures left { (rows : List Entity) →
            uses_left rows self.new ≡ uses (solid_of rows e) (spans_of at.now) }
        ensures walk { (rows : List Entity) → AllByRecursion (λ e. IsLawfulRow e.row) rows →
            AreSound rows → ((n : ℕ) → ¬ ReachesOpaque rows e n) → IsSolidRow (row_at rows e) →
            IsWalk rows self.old → IsWalk rows self.new }
    {
        self.start = Some((e, *at));
        self.levels.clear();
    }

    /// The first of the uses that are left: the primitive's number, and in `at` its box before its
    /// own matrix, in steps; the others are left. None where no use is left, and then none is left
    /// afterwards, and `at` is some box. No memory is taken.
    pub fn next(&mut self, rows: &Rows, at: &mut Box3) -> Option<u32>
        requires rows { AllByRecursion (λ e. IsLawfulRow e.row) rows.now }
        requires sound { AreSound rows.now }
        requires walk { IsWalk rows.now self.old }
        requires at { IsBox at.old }
        ensures first { MatchOption result
            ((uses_left rows.now self.old ≡ []) × (uses_left rows.now self.new ≡ [])
            × (at.new ≡ at.old))
            (λ number. uses_left rows.now self.old ≡
            record { number = number; spans = spans_of at.new } ∷ uses_left rows.now self.new) }
        ensures at { IsBox at.new }
        ensures walk { IsWalk rows.now self.new }
    {
        let Some((e, start)) = &self.start else {
            return next_use(rows, &mut self.levels, at);
        };
        let e = *e;
        *at = *start;
        self.start = None;
        Some(first_use(rows, e, at, &mut self.levels))
    }
}

// The first use of an entity over a box: its number, and its box in place of the entity's. Each
// tree, assembly and instance on the way down is pushed, with the place after the part that is
// taken.
fn first_use(rows: &Rows, e: u32, at: &mut Box3, levels: &mut Levels) -> u32
    requires rows { AllByRecursion (λ e. IsLawfulRow e.row) rows.now }
    requires sound { AreSound rows.now }
    requires at { IsBox at.old }
    requires read { (n : ℕ) → ¬ ReachesOpaque rows.now e n }
    requires weighs { 1 ≤ weight_of rows.now e }
    requires deep { depth_of rows.now e + length levels.old.list ≤ most_levels }
    requires stack { IsStack rows.now levels.old }
    ensures first { uses (solid_of rows.now e) (spans_of at.old) ++
        levels_uses rows.now levels.old.list ≡
        record { number = result; spans = spans_of at.new } ∷
        levels_uses rows.now levels.new.list }
    ensures at { IsBox at.new }
    ensures stack { IsStack rows.now levels.new }
{
    let matrix = match matrix_of(rows, e) {
        Some(matrix) => matrix,
        None => return e,
    };
    let mut level = Level {
        e,
        at: pull_chain(rows, matrix, at),
        index: 0,
    };
    match part_from(rows, &level) {
        Some(part) => {
            enter_part(rows, &level, &part, at);
            level.index = part.next;
            levels.push(level);
            first_use(rows, part.number, at, levels)
        }
        None => e,
    }
}

// The matrix of a tree, an assembly or an instance, 0 for none. None for a primitive.
fn matrix_of(rows: &Rows, e: u32) -> Option<u32>
    ensures { result ≡ own_matrix (row_at rows.now e) }
{
    match rows.row(e) {
        Some(Row::Tree { matrix, .. }) => Some(*matrix),
        Some(Row::Assembly { matrix, .. }) => Some(*matrix),
        Some(Row::Instance { matrix, .. }) => Some(*matrix),
        None | Some(Row::Null | Row::Opaque { .. } | Row::Matrix { .. } | Row::Prim { .. }) => None,
    }
}

// The first use that is left on levels: its number, and its box in `at`. A level on which none is
// left is taken off.
fn next_use(rows: &Rows, levels: &mut Levels, at: &mut Box3) -> Option<u32>
    requires rows { AllByRecursion (λ e. IsLawfulRow e.row) rows.now }
    requires sound { AreSound rows.now }
    requires stack { IsStack rows.now levels.old }
    requires at { IsBox at.old }
    ensures first { MatchOption result
        ((levels_uses rows.now levels.old.list ≡ []) × (levels_uses rows.now levels.new.list ≡ [])
        × (at.new ≡ at.old))
        (λ number. levels_uses rows.now levels.old.list ≡
        record { number = number; spans = spans_of at.new } ∷
        levels_uses rows.now levels.new.list) }
    ensures at { IsBox at.new }
    ensures stack { IsStack rows.now levels.new }
{
    while let Some(level) = levels.last() {
        match part_from(rows, level) {
            Some(part) => {
                enter_part(rows, level, &part, at);
                levels.set_index(part.next);
                return Some(first_use(rows, part.number, at, levels));
            }
            None => levels.leave(),
        }
    }
    None
}
