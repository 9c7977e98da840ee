//! The file of a model, written in the fixed form of IGES 5.3.
//! Contracts see the file as a function of the model, `canonical_text`: its lines, section by
//! section. In reading order: `cards` writes numbers in columns and single cards, `entities` the
//! directory and the records, `files` the whole file.
#![tactic(auto)]

mod cards;
mod entities;
mod files;

pub use files::{append_model, file_lines, write_model};
