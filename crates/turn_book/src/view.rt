//! What a pass knows.
use std::collections::LinkedList;

/// The view of a pass. No value of it is made: it exists in contracts and proofs alone.
pub struct View<O, E> {
    /// The opening of the book with which the turn was made; None once the view is spent.
    pub opening: Option<O>,
    /// The length that the log of that book had.
    pub opening_count: u64,
    /// The entries that the pass has been shown.
    pub front: LinkedList<E>,
    /// The greatest count that it has been shown.
    pub seen: u64,
    /// The answers of `newest`, in order.
    pub heard: LinkedList<u64>,
    /// The entries that were added with it, or with passes that it met.
    pub made: u64,
    /// Its share of the right to make passes.
    pub parts: u64,
    /// 1 where it has the turn, else 0.
    pub turns: u64,
    /// The log of the book that it took, while it has the turn.
    pub taken: LinkedList<E>,
    /// The front that it had when it took in another view, until it learns that its front goes on
    /// from it.
    pub old_front: LinkedList<E>,
    /// The front that the other view had.
    pub met_front: LinkedList<E>,
}
