//! Boolean trees of solids (IGES 5.3, type 180): post-order lists of operands and operations.
//! Contracts see the tree that a list spells, or the record's parameter at which it stops to be
//! the list of one tree, and the verdict on that tree by recursion on it. The modules are read in
//! this order: `items`, `operations`, `folds`, `laws`.
#![tactic(auto)]

mod folds;
mod items;
pub mod laws;
mod operations;

pub use folds::{apply, fold, operand_count};
pub use items::check_items;
pub use operations::{join, less, meet, operate};
