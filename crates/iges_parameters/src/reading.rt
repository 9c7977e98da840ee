//! A record's fields, read by tables into a row and the fields after it. In reading order:
//! `parameters` gives the fields one by one; `whole` and `numbers` make numbers of them by rules;
//! `makers` and `axes`, `counts`, `trees` and `assemblies` make the parts of rows; `rows`, `tails`
//! and `records` make the whole.

pub mod assemblies;
pub mod axes;
pub mod counts;
#[cfg(test)]
mod list_tests;
pub mod makers;
pub mod numbers;
pub mod parameters;
#[cfg(test)]
mod record_tests;
pub mod records;
pub mod rows;
pub mod tails;
pub mod trees;
pub mod whole;
