//! The graph of a model's entities: whether the references obey the rules, the depth and the weight
//! of each row, what it reaches, of that the first that isn't read, and stamps of versions.
//! Contracts see a `Graph` as the list of the rows of which it was made, and `Stamps` and `Marks`
//! as lists with an item for each row.
//!
//! Read `graph`, then `links`, `rules`, `search`, `tables` and `stages` for the check, and `marks`,
//! `reached` and `stamps` for the rest.
#![tactic(auto)]

mod graph;
mod graph_faults;
#[cfg(test)]
mod graph_tests;
pub mod laws;
mod links;
mod marks;
mod reached;
mod rules;
mod search;
mod stages;
mod stamps;
mod tables;

pub use graph::Graph;
pub use graph_faults::GraphFault;
pub use marks::Marks;
pub use stamps::Stamps;
