//! Reals as steps of 10^-12 units: reading their spellings, and writing them. Contracts see a text
//! as the list of its bytes. What is read compares two exact products, and what is written is the
//! exact text.
#![tactic(auto)]

mod digits;
mod faults;
mod reading;
mod scaling;
mod writing;

pub use faults::RealFault;
pub use reading::read_real;
pub use writing::{push_real, real_length, write_real};

#[cfg(test)]
mod tests;
