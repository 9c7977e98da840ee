ghost use Rattle.std.specs.Prelude.{◌≡◌, ◌<◌, ◌≤◌, ◌*◌, ◌≤ℤ◌};
ghost use Rattle.solid_base.specs.Range.{IsCube, IsPointWithin, IsWithin, far};
ghost use Rattle.volume_bounds.specs.Cells.{parts_of, most_depth, cell_of, cube_of, cut, corner};
ghost use Rattle.volume_bounds.specs.Cells.{IsCell, IsGridCube, IsGridSide};

use solid_base::{Cube, Vec3};

/// A cell of a grid, by how many cells stand before it along each axis.
#[derive(Clone, Copy, Debug, PartialEq, Eq)]
pub struct Cell {
    pub x: u32,
    pub y: u32,
    pub z: u32,
}

// How many parts a grid of a depth has along each axis.
pub(crate) fn parts(depth: u32) -> u32
    requires { depth ≤ most_depth }
    ensures { result ≡ parts_of depth }
{
    1 << depth
}

/// The cell at a place in the order of cells, counted from 0: x fastest, then y, then z. The grid
/// has so many parts along each axis.
pub fn cell_at(parts: u32, place: u64) -> Cell
    requires some { 0 < parts }
    requires place { place < parts * parts * parts }
    ensures cell { result ≡ cell_of parts place }
    ensures in_grid { IsCell parts result }
{
    let parts = parts as u64;
    Cell {
        x: (place % parts) as u32,
        y: (place / parts % parts) as u32,
        z: (place / parts / parts) as u32,
    }
}

/// A cell of a cube's grid as a closed cube. The corners of the cube have at most five decimals of
/// a unit and each side is above 0; the grid has the parts of a depth of at most 7.
pub fn cell_cube(cube: &Cube, depth: u32, cell: &Cell) -> Cube
    requires cube { IsGridCube cube.now }
    requires depth { depth ≤ most_depth }
    requires cell { IsCell (parts_of depth) cell.now }
    ensures cell { result ≡ cube_of cube.now (parts_of depth) cell.now }
    ensures near { IsCube result }
{
    Cube {
        lo: grid_corner(cube, depth, cell.x, cell.y, cell.z),
        hi: grid_corner(cube, depth, cell.x + 1, cell.y + 1, cell.z + 1),
    }
}

/// The cell of a cube's grid at a place in the order of cells, as a closed cube. The corners of the
/// cube have at most five decimals of a unit and each side is above 0; the grid has the parts of a
/// depth of at most 7.
pub fn grid_cell(cube: &Cube, depth: u32, place: u64) -> Cube
    requires cube { IsGridCube cube.now }
    requires depth { depth ≤ most_depth }
    requires place { place < parts_of depth * parts_of depth * parts_of depth }
    ensures cell { result ≡ cube_of cube.now (parts_of depth) (cell_of (parts_of depth) place) }
    ensures near { IsCube result }
{
    cell_cube(cube, depth, &cell_at(parts(depth), place))
}

// The corner of the grid of a depth after so many parts along each axis.
fn grid_corner(cube: &Cube, depth: u32, x: u32, y: u32, z: u32) -> Vec3
    requires cube { IsGridCube cube.now }
    requires depth { depth ≤ most_depth }
    requires inside { (x ≤ parts_of depth) × (y ≤ parts_of depth) × (z ≤ parts_of depth) }
    ensures corner { result ≡ corner cube.now (parts_of depth) x y z }
    ensures near { IsPointWithin far result }
{
    Vec3 {
        x: cut(cube.lo.x, cube.hi.x, depth, x),
        y: cut(cube.lo.y, cube.hi.y, depth, y),
        z: cut(cube.lo.z, cube.hi.z, depth, z),
    }
}

// Where a side is cut after the first k of the parts of a depth.
fn cut(lo: i128, hi: i128, depth: u32, k: u32) -> i128
    requires near { IsWithin far lo × IsWithin far hi }
    requires order { lo ≤ℤ hi }
    requires depth { depth ≤ most_depth }
    requires inside { k ≤ parts_of depth }
    ensures cut { result ≡ cut lo hi (parts_of depth) k }
    ensures within { (lo ≤ℤ result) × (result ≤ℤ hi) }
{
    let part = (hi - lo).unsigned_abs() >> depth;
    lo + (part * k as u128) as i128
}
