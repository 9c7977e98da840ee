ghost use Rattle.std.specs.Prelude.{◌≡◌, ◌*◌, ◌<◌, ◌≤◌, length, MatchOption, IfSome};
ghost use Rattle.solid_base.specs.Range.{IsPointWithin, far};
ghost use Rattle.volume_bounds.specs.Cells.{parts_of, most_depth, cell_of, cube_of, corner};
ghost use Rattle.volume_bounds.specs.Cells.{IsCell, IsGridCube};
ghost use Rattle.volume_bounds.specs.Extents.{AllOutside, IsExtent};
ghost use Rattle.volume_bounds.specs.Blocks.{with_cell};

use super::cells::{Cell, cell_at, cell_cube, parts};
use solid_base::{Class, Cube, Verdicts};

// A block of cells: its least cell and its greatest.
#[derive(Clone, Copy)]
struct Block {
    first: Cell,
    last: Cell,
}

/// The extents of the cells that aren't outside: the least cube that holds each of them, made of
/// whole cells. None exactly where all cells are outside. The verdicts are those of the cells of
/// the cube's grid of this depth, at most 7, in the order of cells: x fastest, then y, then z. The
/// corners of the cube have at most five decimals of a unit, and each side is above 0.
pub fn bounds_flat(verdicts: &Verdicts, cube: &Cube, depth: u32) -> Option<Cube>
    requires cube { IsGridCube cube.now }
    requires depth { depth ≤ most_depth }
    requires verdicts { length verdicts.now.list
        ≡ parts_of depth * parts_of depth * parts_of depth }
    ensures extent { MatchOption result (AllOutside verdicts.now.list)
        (λ found. IsExtent verdicts.now.list cube.now (parts_of depth) found) }
    ensures near { IfSome result
        (λ found. IsPointWithin far found.lo × IsPointWithin far found.hi) }
{
    let parts = parts(depth);
    let mut found: Option<Block> = None;
    for (place, verdict) in verdicts.as_slice().iter().enumerate() {
        match verdict.class {
            Class::Outside => {}
            Class::Mixed | Class::Inside => {
                found = Some(with_one(found, cell_at(parts, place as u64)));
            }
        }
    }
    let block = found?;
    Some(Cube {
        lo: cell_cube(cube, depth, &block.first).lo,
        hi: cell_cube(cube, depth, &block.last).hi,
    })
}

// The least block that holds the cells of another and one cell more.
fn with_one(found: Option<Block>, cell: Cell) -> Block
    ensures { result ≡ with_cell found cell }
{
    let Some(block) = found else {
        return Block {
            first: cell,
            last: cell,
        };
    };
    Block {
        first: Cell {
            x: block.first.x.min(cell.x),
            y: block.first.y.min(cell.y),
            z: block.first.z.min(cell.z),
        },
        last: Cell {
            x: block.last.x.max(cell.x),
            y: block.last.y.max(cell.y),
            z: block.last.z.max(cell.z),
        },
    }
}
