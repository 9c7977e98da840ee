//! Places carried back through matrices: through one by `pull`, through a chain of them by
//! `pull_chain`. Contracts see a box as its spans and a chain as the list of its matrices. Each
//! call gives the exact spans; that they hold each place carried back, and that boxes within others
//! stay so, are `laws`.
#![tactic(auto)]

mod chains;
pub mod laws;
mod matrices;

pub use chains::pull_chain;
pub use matrices::pull;

#[cfg(test)]
mod tests;
