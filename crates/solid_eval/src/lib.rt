//! The verdict on an entity over a box, by a walk along its references to the primitives.
//! Contracts see the plain tree that an entity unfolds into, and by recursion on it the verdict and
//! how many primitives are evaluated and counted. That the verdict tells the class of each place in
//! the box, and of each box within, are `laws`. A walk along the uses of the primitives is seen as
//! the list of those that are left. Files in reading order: leaves, walk, evaluation, places,
//! level_stack, parts, use_walk, laws, verdict_laws, place_laws, use_laws, unfolding_laws.
#![tactic(auto)]

mod evaluation;
pub mod laws;
mod leaves;
mod level_stack;
mod parts;
pub mod place_laws;
mod places;
pub mod unfolding_laws;
pub mod use_laws;
mod use_walk;
pub mod verdict_laws;
mod walk;

pub use evaluation::{afresh, afresh_in, combine, primitive_verdict, weight};
pub use places::leaf_at;
pub use use_walk::Walk;

#[cfg(test)]
mod tests;
