ghost use Rattle.std.specs.Prelude.{◌≡◌, ◌↔◌, ◌<◌, ◌≤◌, IsTrue, pos, ◌+ℤ◌, ◌*ℤ◌, ◌≤ℤ◌};
ghost use Rattle.solid_base.specs.Range.{IsPointWithin, IsWithin, IsCube, far};
ghost use Rattle.volume_bounds.specs.Cells.{IsGridCube, IsGridSide, IsOnGrid};
ghost use Rattle.solid_questions.specs.Questions.{IsLawful, IsEntityNumber, IsLawfulSection, IsRun};
ghost use Rattle.solid_questions.specs.Questions.{most_number};

use crate::questions::Question;
use solid_base::{Cube, Vec3};

/// The greatest length and coordinate, in steps.
const FAR: i128 = 100_000_000_000_000_000;

/// The steps in 10^-5 units: the corners of a grid are multiples of it.
pub(crate) const GRID_STEP: u128 = 10_000_000;

/// The greatest whole number of nine digits.
const MOST_NUMBER: u32 = 999_999_999;

/// Whether the numbers of a question are in their ranges: numbers have at most nine digits and that
/// of an entity is at least 1; coordinates and lengths are within 100,000 units, those of a section
/// up to its last corner; corners are in order; the corners of a cube that is cut into a grid have
/// at most five decimals, and its sides, and those of a section's cells, are above 0.
pub fn is_lawful(question: &Question) -> bool
    ensures { IsTrue result ↔ IsLawful question.now }
{
    match question {
        Question::Point { e, at } => is_entity_number(*e) && is_point_near(at),
        Question::Cell { e, cube } => is_entity_number(*e) && is_cube(cube),
        Question::Items { e } => is_entity_number(*e),
        Question::Section {
            e,
            z,
            x0,
            y0,
            step,
            nx,
            ny,
        } => is_entity_number(*e) && is_lawful_section(*z, *x0, *y0, *step, *nx, *ny),
        Question::Volume { e, cube, depth } | Question::Bounds { e, cube, depth } => {
            is_entity_number(*e) && is_grid_cube(cube) && *depth <= MOST_NUMBER
        }
        Question::Export | Question::Newest => true,
    }
}

fn is_entity_number(e: u32) -> bool
    ensures { IsTrue result ↔ IsEntityNumber e }
{
    is_number(e)
}

fn is_near(z: i128) -> bool
    ensures { IsTrue result ↔ IsWithin far z }
{
    -FAR <= z && z <= FAR
}

fn is_point_near(p: &Vec3) -> bool
    ensures { IsTrue result ↔ IsPointWithin far p.now }
{
    is_near(p.x) && is_near(p.y) && is_near(p.z)
}

fn is_at_most(a: i128, b: i128) -> bool
    ensures { IsTrue result ↔ (a ≤ℤ b) }
{
    a <= b
}

/// Whether no coordinate of the first point is above that of the second.
fn is_below(p: &Vec3, q: &Vec3) -> bool
    requires first { IsPointWithin far p.now }
    requires second { IsPointWithin far q.now }
    ensures { IsTrue result ↔ ((p.now.x ≤ℤ q.now.x) × (p.now.y ≤ℤ q.now.y)
        × (p.now.z ≤ℤ q.now.z)) }
{
    if !is_at_most(p.x, q.x) {
        return false;
    }
    is_at_most(p.y, q.y) && is_at_most(p.z, q.z)
}

fn is_cube(cube: &Cube) -> bool
    ensures { IsTrue result ↔ IsCube cube.now }
{
    if !is_point_near(&cube.lo) {
        return false;
    }
    is_point_near(&cube.hi) && is_below(&cube.lo, &cube.hi)
}

/// The coordinate after so many sides from another on.
pub(crate) fn after(first: i128, step: i128, count: u32) -> i128
    requires first { IsWithin far first }
    requires step { IsWithin far step }
    ensures { result ≡ first +ℤ pos count *ℤ step }
{
    first + i128::from(count) * step
}

fn is_number(count: u32) -> bool
    ensures { IsTrue result ↔ ((0 < count) × (count ≤ most_number)) }
{
    0 < count && count <= MOST_NUMBER
}

fn ends_near(first: i128, step: i128, count: u32) -> bool
    requires first { IsWithin far first }
    requires step { IsWithin far step }
    ensures { IsTrue result ↔ ((first +ℤ pos count *ℤ step) ≤ℤ pos far) }
{
    after(first, step, count) <= FAR
}

/// Whether cells along an axis stay within 100,000 units.
fn is_run(first: i128, step: i128, count: u32) -> bool
    requires step { IsWithin far step }
    ensures { IsTrue result ↔ IsRun first step count }
{
    if !is_near(first) {
        return false;
    }
    is_number(count) && ends_near(first, step, count)
}

fn is_lawful_section(z: i128, x0: i128, y0: i128, step: i128, nx: u32, ny: u32) -> bool
    ensures { IsTrue result ↔ IsLawfulSection z x0 y0 step nx ny }
{
    if !is_near(z) || !is_near(step) {
        return false;
    }
    if step <= 0 {
        return false;
    }
    is_run(x0, step, nx) && is_run(y0, step, ny)
}

fn is_on_grid(z: i128) -> bool
    ensures { IsTrue result ↔ IsOnGrid z }
{
    z.unsigned_abs() % GRID_STEP == 0
}

fn is_grid_side(lo: i128, hi: i128) -> bool
    ensures { IsTrue result ↔ IsGridSide lo hi }
{
    if !is_on_grid(lo) {
        return false;
    }
    is_on_grid(hi) && lo < hi
}

fn is_grid_cube(cube: &Cube) -> bool
    ensures { IsTrue result ↔ IsGridCube cube.now }
{
    if !is_cube(cube) {
        return false;
    }
    if !is_grid_side(cube.lo.x, cube.hi.x) {
        return false;
    }
    is_grid_side(cube.lo.y, cube.hi.y) && is_grid_side(cube.lo.z, cube.hi.z)
}
