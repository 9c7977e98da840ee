//! Questions about a model: their ranges, the cells that they ask about, why one is refused, and
//! the texts of the answers. Contracts see a text as the list of its bytes and the verdicts on the
//! cells as a list in the order of the cells. The modules are read in this order: `questions`,
//! `ranges`, `question_cells`, `refusals`, `words`, `sections`, `volumes`, `bodies`, `laws`.
#![tactic(auto)]

mod bodies;
pub mod laws;
mod question_cells;
mod questions;
mod ranges;
mod refusals;
mod sections;
#[cfg(test)]
mod tests;
mod volumes;
mod words;

pub use bodies::{push_body, render, render_bounds, render_counts};
pub use question_cells::{cell_at, cells};
pub use questions::Question;
pub use ranges::is_lawful;
pub use refusals::{Refusal, refusal_of};
