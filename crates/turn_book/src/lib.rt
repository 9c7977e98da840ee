//! The turn: one book that many threads share. One pass at a time takes the book, and gives it back
//! with at most one entry more; any pass may ask how many entries there are, and waits for nobody.
//! Contracts see a turn by the book with which it was made, and a pass by what it knows: the
//! entries that it has been shown, the greatest count, what it heard, what was made with it, and
//! its parts. Read `logged`, `turn`, then `view`, `steps`, `rule` and `raw_turn`.
#![tactic(auto)]

mod crossing;
mod logged;
mod pass;
mod raw_pass;
mod raw_turn;
mod rule;
mod steps;
mod turn;
#[cfg(test)]
mod turn_tests;
mod view;

pub use crossing::{pass_crosses, turn_crosses, turn_is_shared};
pub use logged::Logged;
pub use pass::Pass;
pub use turn::Turn;
