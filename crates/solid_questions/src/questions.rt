use solid_base::{Cube, Vec3};

/// A question about a model, or about one entity of it by its number `e`. Coordinates and lengths
/// are in steps.
#[derive(Clone, Copy, Debug, PartialEq, Eq)]
pub enum Question {
    /// Where a point lies against an entity.
    Point {
        e: u32,
        at: Vec3,
    },
    /// Where a closed box lies against an entity: all places in it at once.
    Cell {
        e: u32,
        cube: Cube,
    },
    /// Which items an assembly has, each with the matrix that places it.
    Items {
        e: u32,
    },
    /// Where the flat cells of a section lie: squares with sides of `step` at the height `z`, `nx`
    /// of them along x from `x0` on, and `ny` along y from `y0` on.
    Section {
        e: u32,
        z: i128,
        x0: i128,
        y0: i128,
        step: i128,
        nx: u32,
        ny: u32,
    },
    /// Bounds of an entity's volume within a cube: how many cells of the cube's grid of a depth lie
    /// inside, and how many aren't outside.
    Volume {
        e: u32,
        cube: Cube,
        depth: u32,
    },
    /// The extents of an entity within a cube: the least cube of whole cells that holds all cells
    /// of the cube's grid of a depth that aren't outside.
    Bounds {
        e: u32,
        cube: Cube,
        depth: u32,
    },
    /// The canonical file of the model.
    Export,
    /// Which version is the newest.
    Newest,
}
