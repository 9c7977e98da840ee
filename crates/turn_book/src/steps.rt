//! The seven kinds of atomic step, each by what it tells its caller or does to the views.
ghost use Rattle.turn_book.specs.Steps.{TellsTake, TellsAdd, TellsGive, TellsCount, TellsFronts};
ghost use Rattle.turn_book.specs.Steps.{without_part, new_part, met, spent_view};

use crate::logged::Logged;
use crate::view::View;
use atomic_table::{Join, Play, Split};
use std::marker::PhantomData;

/// Kind 1: the turn word is exchanged from 0 to 1, if it is 0. The slot goes out with the seat.
pub(crate) struct TakeTurn<B> {
    of: PhantomData<B>,
}

impl<B: Logged> Play<Option<B>, View<B::Opening, B::Entry>> for TakeTurn<B> {
    ghost then = { TellsTake B.opening B.log };
}

/// Kind 2: 1 is added to the count, for the entry with which the book in the slot ends.
pub(crate) struct AddEntry<B> {
    of: PhantomData<B>,
}

impl<B: Logged> Play<Option<B>, View<B::Opening, B::Entry>> for AddEntry<B> {
    ghost then = { TellsAdd B.opening B.log };
}

/// Kind 3: the turn word becomes 0. The slot comes home.
pub(crate) struct GiveTurn;

impl<S, O, E> Play<S, View<O, E>> for GiveTurn {
    ghost then = { TellsGive };
}

/// Kind 4: the count is loaded.
pub(crate) struct LoadCount;

impl<S, O, E> Play<S, View<O, E>> for LoadCount {
    ghost then = { TellsCount };
}

/// Kind 5: a view is cut in two.
pub(crate) struct CutPart;

impl<O, E> Split<View<O, E>> for CutPart {
    ghost left = { without_part };

    ghost right = { new_part };
}

/// Kind 6: a view takes in another, which is spent.
pub(crate) struct TakeIn;

impl<O, E> Join<View<O, E>> for TakeIn {
    ghost both = { met };

    ghost spent = { spent_view };
}

/// Kind 7: the turn word is loaded, and the view learns that its front goes on from both old
/// fronts.
pub(crate) struct LearnFronts;

impl<S, O, E> Play<S, View<O, E>> for LearnFronts {
    ghost then = { TellsFronts };
}
