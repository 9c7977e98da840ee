ghost use Rattle.std.specs.Prelude.{◌≡◌, ◌++◌, ◌*◌, ◌/◌, ◌^◌, ◌≤◌, ℕ, List, OnOk, IfSome};
ghost use Rattle.std.specs.Prelude.{length, codes, pos, unsigned_abs, ◌+◌, ◌-◌};
ghost use mathlib.Core.List.{IsPrefix};
ghost use Rattle.solid_base.specs.Range.{IsCube, IsWithin, IsPointWithin, far};
ghost use Rattle.volume_bounds.specs.Cells.{IsGridCube, parts_of};
ghost use Rattle.volume_bounds.specs.Counts.{inside_count, not_outside_count};
ghost use Rattle.volume_bounds.specs.Extents.{AllOutside, IsExtent};
ghost use Rattle.solid_questions.specs.QuestionCells.{grid_cells, most_question_depth};
ghost use Rattle.solid_questions.specs.Bodies.{side, cube_volume, volume_below, volume_above};
ghost use Rattle.solid_questions.specs.Bodies.{volume_head, volume_words, corner_words};
ghost use Rattle.solid_questions.specs.Bodies.{bounds_words, IsBounds, found_words};

use crate::ranges::GRID_STEP;
use crate::words::{push_count, push_measure, push_text};
use solid_base::{Bytes, Cube, Vec3, Verdicts};
use std::alloc::{AllocError, Global};
use volume_bounds::{bounds_flat, count_flat};

/// A side in steps of 10^-5 units.
fn side(lo: i128, hi: i128) -> u128
    requires near { IsWithin far lo × IsWithin far hi }
    ensures side { result ≡ side lo hi }
    ensures within { result ≤ 2 * 10 ^ 10 }
{
    (hi - lo).unsigned_abs() / GRID_STEP
}

/// The volume of a cube, in 10^-15 cubic units.
fn cube_volume(cube: &Cube) -> u128
    requires { IsCube cube.now }
    ensures volume { result ≡ cube_volume cube.now }
    ensures within { result ≤ 8 * 10 ^ 30 }
{
    let area = side(cube.lo.x, cube.hi.x) * side(cube.lo.y, cube.hi.y);
    area * side(cube.lo.z, cube.hi.z)
}

/// How many cells the grid of a depth has.
fn grid_cells(depth: u32) -> u32
    requires { depth ≤ most_question_depth }
    ensures cells { result ≡ grid_cells depth }
    ensures within { (1 ≤ result) × (result ≤ 32768) }
{
    1 << (3 * depth)
}

/// The volume of so many cells of a cube's grid, in 10^-15 cubic units, rounded down.
fn volume_below(count: u64, volume: u128, cells: u32) -> i128
    requires cells { (1 ≤ cells) × (cells ≤ 32768) }
    requires count { count ≤ cells }
    requires volume { volume ≤ 8 * 10 ^ 30 }
    ensures volume { result ≡ pos (count * volume / cells) }
    ensures within { unsigned_abs result ≤ 10 ^ 37 }
{
    (u128::from(count) * volume / u128::from(cells)) as i128
}

/// That volume rounded up.
fn volume_above(count: u64, volume: u128, cells: u32) -> i128
    requires cells { (1 ≤ cells) × (cells ≤ 32768) }
    requires count { count ≤ cells }
    requires volume { volume ≤ 8 * 10 ^ 30 }
    ensures volume { result ≡ pos ((count * volume + (cells - 1)) / cells) }
    ensures within { unsigned_abs result ≤ 10 ^ 37 }
{
    let cells = u128::from(cells);
    ((u128::from(count) * volume + (cells - 1)) / cells) as i128
}

fn push_head(out: &mut Bytes, lower: u64, upper: u64, cells: u32) -> Result<(), AllocError>
    ensures ok { OnOk result (out.new ≡ out.old ++ volume_head lower upper cells) }
    ensures front { IsPrefix out.old out.new }
{
    push_text(out, b"VOLUME")?;
    push_count(out, lower)?;
    push_count(out, upper)?;
    push_count(out, u64::from(cells))
}

/// Adds the text of a volume by its counts.
pub(crate) fn push_counts(
    alloc: Global,
    out: &mut Bytes,
    lower: u64,
    upper: u64,
    cube: &Cube,
    depth: u32,
) -> Result<(), AllocError>
    requires cube { IsCube cube.now }
    requires depth { depth ≤ most_question_depth }
    requires counts { (lower ≤ upper) × (upper ≤ grid_cells depth) }
    ensures ok { OnOk result (out.new ≡ out.old ++ volume_words lower upper cube.now depth) }
    ensures front { IsPrefix out.old out.new }
{
    let cells = grid_cells(depth);
    let volume = cube_volume(cube);
    push_head(out, lower, upper, cells)?;
    push_measure(alloc, out, volume_below(lower, volume, cells), 15)?;
    push_measure(alloc, out, volume_above(upper, volume, cells), 15)
}

/// Adds the text of a volume from the verdicts on the cells of the cube's grid.
pub(crate) fn push_volume(
    alloc: Global,
    out: &mut Bytes,
    verdicts: &Verdicts,
    cube: &Cube,
    depth: u32,
) -> Result<(), AllocError>
    requires cube { IsCube cube.now }
    requires depth { depth ≤ most_question_depth }
    requires cells { length verdicts.now.list ≡ grid_cells depth }
    ensures ok { OnOk result (out.new ≡ out.old ++ volume_words
        (inside_count verdicts.now.list) (not_outside_count verdicts.now.list) cube.now depth) }
    ensures front { IsPrefix out.old out.new }
{
    let count = count_flat(verdicts);
    push_counts(alloc, out, count.lower, count.upper, cube, depth)
}

fn push_corner(alloc: Global, out: &mut Bytes, corner: &Vec3) -> Result<(), AllocError>
    requires { IsPointWithin far corner.now }
    ensures ok { OnOk result (out.new ≡ out.old ++ corner_words corner.now) }
    ensures front { IsPrefix out.old out.new }
{
    push_measure(alloc, out, corner.x, 12)?;
    push_measure(alloc, out, corner.y, 12)?;
    push_measure(alloc, out, corner.z, 12)
}

/// Adds the text of extents, or of none.
pub(crate) fn push_found(
    alloc: Global,
    out: &mut Bytes,
    found: Option<Cube>,
) -> Result<(), AllocError>
    requires { IfSome found (λ cube. IsPointWithin far cube.lo × IsPointWithin far cube.hi) }
    ensures ok { OnOk result (out.new ≡ out.old ++ found_words found) }
    ensures front { IsPrefix out.old out.new }
{
    match found {
        None => push_text(out, b"EMPTY"),
        Some(cube) => {
            push_text(out, b"BOUNDS")?;
            push_corner(alloc, out, &cube.lo)?;
            push_corner(alloc, out, &cube.hi)
        }
    }
}

/// Adds the text of the extents of the cells of a cube's grid that aren't outside.
pub(crate) fn push_bounds(
    alloc: Global,
    out: &mut Bytes,
    verdicts: &Verdicts,
    cube: &Cube,
    depth: u32,
) -> Result<(), AllocError>
    requires cube { IsGridCube cube.now }
    requires depth { depth ≤ most_question_depth }
    requires cells { length verdicts.now.list ≡ grid_cells depth }
    ensures ok { OnOk result ((body : List ℕ) × IsBounds verdicts.now.list cube.now depth body
        × (out.new ≡ out.old ++ body)) }
    ensures front { IsPrefix out.old out.new }
{
    push_found(alloc, out, bounds_flat(verdicts, cube, depth))
}
