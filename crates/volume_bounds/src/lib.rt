//! The cells of a grid over a cube: how many of them lie inside, how many aren't outside, and
//! which part of the cube the latter cover. Contracts see the verdicts on the cells as a list, in
//! the order of the cells: x fastest, then y, then z. The modules are read in this order:
//! `cells`, `counts`, `bounds`, `laws`.
#![tactic(auto)]

mod bounds;
mod cells;
mod counts;
pub mod laws;
#[cfg(test)]
mod tests;

pub use bounds::bounds_flat;
pub use cells::{Cell, cell_at, cell_cube, grid_cell};
pub use counts::{Count, count_flat};
