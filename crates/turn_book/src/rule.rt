//! The rule of the turn, as the table takes it.
ghost use Rattle.turn_book.specs.Steps.{first_view};

use crate::logged::Logged;
use crate::view::View;
use atomic_table::TableRule;
use std::marker::PhantomData;
use std::snapshot::Snapshot;

/// The rule over the words, the slot and the views of a turn that was made with the book of the
/// snapshot.
pub struct Ruled<B> {
    of: PhantomData<B>,
}

impl<B: Logged> TableRule<Option<B>, View<B::Opening, B::Entry>, Snapshot<B>> for Ruled<B> {
    ghost use Rattle.turn_book.specs.TurnRules.{TurnRule};

    ghost holds = { λ first. TurnRule B.opening B.log first.value };

    ghost first = { λ first. first_view B.opening B.log first.value };
}
