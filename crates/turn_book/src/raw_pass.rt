//! A pass without a model.
use crate::logged::Logged;
use crate::view::View;
use atomic_table::Seat;

/// A seat at the table of a turn.
#[derive(Drop)]
pub struct RawPass<B: Logged> {
    pub(crate) seat: Seat<Option<B>, View<B::Opening, B::Entry>>,
    /// How many entries the book had when the turn was last taken.
    pub(crate) taken_count: u64,
}
