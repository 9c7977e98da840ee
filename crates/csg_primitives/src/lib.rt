//! Where the places of a box lie against one primitive solid, by `leaf`. Contracts see the margins
//! of the primitive, exact whole numbers at a point and spans over a box, and the class that their
//! signs tell.
#![tactic(auto)]

mod balls;
mod ellipsoids;
mod frames;
pub mod laws;
mod leaves;
mod rounds;
mod sides;
mod signs;

pub use leaves::leaf;

#[cfg(test)]
mod tests;
