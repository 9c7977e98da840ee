ghost use Rattle.std.specs.Prelude.{◌≡◌, ◌<◌, ◌≤◌, ◌+◌, ◌*◌, ◌/◌, ◌%◌, MatchOption, pos};
ghost use Rattle.std.specs.Prelude.{◌+ℤ◌, ◌*ℤ◌};
ghost use Rattle.solid_base.specs.Range.{IsCube};
ghost use Rattle.volume_bounds.specs.Cells.{IsGridCube, cell_of, cube_of, parts_of};
ghost use Rattle.solid_questions.specs.Questions.{IsLawful, IsLawfulSection};
ghost use Rattle.solid_questions.specs.QuestionCells.{cell, cell_count, cells_of_grid};
ghost use Rattle.solid_questions.specs.QuestionCells.{cells_of_section, section_cell, no_cell};

use crate::questions::Question;
use crate::ranges::after;
use solid_base::{Cube, Vec3};
use volume_bounds::grid_cell;

/// The deepest grid that is asked about.
const MOST_DEPTH: u32 = 5;

/// The most cells of a section.
const MOST_SECTION_CELLS: u64 = 65_536;

/// How many cells a question asks about: 1 for a point or a box, 0 for a question about no place.
/// None exactly where a grid is deeper than 5 or a section has more than 65,536 cells.
pub fn cells(question: &Question) -> Option<u64>
    ensures { result ≡ cell_count question.now }
{
    match question {
        Question::Point { .. } | Question::Cell { .. } => Some(1),
        Question::Items { .. } | Question::Export | Question::Newest => Some(0),
        Question::Section { nx, ny, .. } => cells_of_section(*nx, *ny),
        Question::Volume { depth, .. } | Question::Bounds { depth, .. } => cells_of_grid(*depth),
    }
}

fn cells_of_section(nx: u32, ny: u32) -> Option<u64>
    ensures { result ≡ cells_of_section nx ny }
{
    let count = u64::from(nx) * u64::from(ny);
    if count <= MOST_SECTION_CELLS {
        Some(count)
    } else {
        None
    }
}

fn cells_of_grid(depth: u32) -> Option<u64>
    ensures { result ≡ cells_of_grid depth }
{
    if depth <= MOST_DEPTH {
        Some(1 << (3 * depth))
    } else {
        None
    }
}

/// The cell of a question at a place, counted from 0: x fastest, then y, then z. The question's
/// numbers are in their ranges, and it asks about more cells than stand before this one.
pub fn cell_at(question: &Question, place: u64) -> Cube
    requires lawful { IsLawful question.now }
    requires place { MatchOption (cell_count question.now) ⊥ (λ count. place < count) }
    ensures cell { result ≡ cell question.now place }
    ensures near { IsCube result }
{
    match question {
        Question::Point { at, .. } => Cube { lo: *at, hi: *at },
        Question::Cell { cube, .. } => *cube,
        Question::Section {
            z,
            x0,
            y0,
            step,
            nx,
            ny,
            ..
        } => section_cell(*z, *x0, *y0, *step, *nx, *ny, place),
        Question::Volume { cube, depth, .. } => grid_cell(cube, *depth, place),
        Question::Bounds { cube, depth, .. } => grid_cell(cube, *depth, place),
        Question::Items { .. } | Question::Export | Question::Newest => ORIGIN,
    }
}

/// The box of the origin alone.
const ORIGIN: Cube = Cube {
    lo: Vec3 { x: 0, y: 0, z: 0 },
    hi: Vec3 { x: 0, y: 0, z: 0 },
};

/// The flat cell of a section at a place.
fn section_cell(z: i128, x0: i128, y0: i128, step: i128, nx: u32, ny: u32, place: u64) -> Cube
    requires lawful { IsLawfulSection z x0 y0 step nx ny }
    requires place { place < nx * ny }
    ensures cell { result ≡ section_cell z x0 y0 step (place % nx) (place / nx) }
    ensures near { IsCube result }
{
    let column = (place % u64::from(nx)) as u32;
    let line = (place / u64::from(nx)) as u32;
    Cube {
        lo: Vec3 {
            x: after(x0, step, column),
            y: after(y0, step, line),
            z,
        },
        hi: Vec3 {
            x: after(x0, step, column + 1),
            y: after(y0, step, line + 1),
            z,
        },
    }
}
