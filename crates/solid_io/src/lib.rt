//! Where bytes come from and go to, and the spots at which a run may be held: traits, ends in
//! memory whose failing calls are listed, adapters over std, a gate that is always open, and one
//! with two waits for tests.
//! Contracts see the bytes left and held, known or not, and a count that rises by one at each
//! failure.
#![tactic(auto)]

mod calls;
mod gates;
mod memory;
mod standard;
mod traits;

pub use gates::{HoldGate, OpenGate};
pub use memory::{MemSink, MemSource};
pub use standard::{StdSink, StdSource};
pub use traits::{Failed, Gate, Sink, Source, Spot};
