//! Lengths and areas that are known to lie in a span of whole steps, and what is computed with
//! them. Contracts see an enclosure as its span: every number, or those from a lowest to a highest.
//! Each call gives the exact span; that it holds what its operands hold is a law of spans, in
//! `laws`.
#![tactic(auto)]

mod bounds;
mod enclosures;
pub mod laws;
mod places;
mod products;
mod ratios;
mod roots;
mod signs;
mod sums;
mod units;

pub use enclosures::{Area, Box3, Enc, Sign};
pub use places::{along, dot, offset, point_box, three_sum, turn};
pub use products::{narrow, square, times};
pub use ratios::ratio;
pub use roots::root;
pub use signs::{area_sign, sign_of};
pub use sums::{area_minus, area_sum, minus, sum};

#[cfg(test)]
mod tests;
