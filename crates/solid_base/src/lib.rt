//! The types that all crates of solidd share: lists that contracts see as lists, points in steps,
//! primitives, rows and entities of a model, classes, replies and ledgers, the readers of digits
//! and the writers of words. Contracts see each list as the list of its items, and each other type
//! as the record of its fields.
#![tactic(auto)]

mod borrowed_lines;
mod classes;
mod crossing;
mod entities;
mod geometry;
mod ledger;
mod lists;
mod references;
mod replies;
mod rows;
mod scan;
mod solids;
mod stack;
mod words;

pub use borrowed_lines::BorrowedLines;
pub use classes::{Class, Verdict};
pub use crossing::{list_crosses, model_crosses, rows_cross, stack_crosses, transcripts_cross};
pub use entities::{Entity, Model, RowText, Token, Tokens, blank_attributes};
pub use geometry::{Affine, Cube, Vec3};
pub use ledger::{Ledger, NoTally, Tally};
pub use lists::{Bytes, Lines, List, Numbers};
pub use references::{Reference, reference_list, with_references};
pub use replies::{Reply, Transcript, Transcripts};
pub use rows::Rows;
pub use scan::{
    after_blanks, after_sign, are_blanks, before_blanks, digit_count, digits_in, number_up_to,
    without_blanks_after,
};
pub use solids::{Item, Items, Placed, PlacedList, Primitive as Prim, Row};
pub use stack::{Stack, Verdicts};
pub use words::{push_decimal, word, word_and_number};

/// The steps in one unit: every length and coordinate is a whole number of steps of 10^-12 units.
pub const U: i128 = 1_000_000_000_000;

/// The steps in one unit, as a number without a sign.
pub const STEPS_IN_UNIT: u64 = 1_000_000_000_000;

/// The most levels of references that a model may have.
pub const MOST_LEVELS: u32 = 64;
