//! A pass, as contracts see it.
use crate::logged::Logged;
use crate::raw_pass::RawPass;
use std::marker::Model;

/// The right to take a turn, and what its holder knows. Contracts see its [`Turn`](crate::Turn),
/// the entries that it has been shown (`front`), the greatest count (`seen`), the answers of
/// `newest` (`heard`), how many entries were added with it (`made`), its share of the right to make
/// passes (`parts`), whether it holds the turn, and the log that it then took. At run time it is
/// one number.
#[derive(Drop)]
pub struct Pass<B: Logged> {
    pub(crate) raw: RawPass<B>,
}

impl<B: Logged> Model for Pass<B> {
    ghost use Rattle.std.specs.Prelude.{◌≡◌, ◌<◌, ◌≤◌, nat_eq, [], ◌∷◌, length, None};
    ghost use Rattle.turn_book.specs.Passes.{PassFacts, pass_code};

    ghost Value = { PassFacts B.Opening B.Entry };

    ghost coded = { pass_code B.Opening.code B.Entry.code };

    ghost view = { λ p. record {
      id = p.raw.seat.table_id;
      opening = p.raw.seat.me.0.opening;
      opening_count = p.raw.seat.me.0.opening_count;
      front = p.raw.seat.me.0.front;
      seen = p.raw.seat.me.0.seen;
      heard = p.raw.seat.me.0.heard;
      made = p.raw.seat.me.0.made;
      parts = p.raw.seat.me.0.parts;
      holds = nat_eq p.raw.seat.me.0.turns 1;
      taken = p.raw.seat.me.0.taken;
    } };

    ghost invariant = { λ p.
        (0 < p.raw.seat.me.0.parts) × (p.raw.seat.me.0.turns ≤ 1)
        × (p.raw.seat.me.0.turns ≡ 0 → p.raw.seat.me.1 ≡ [])
        × (p.raw.seat.me.0.turns ≡ 1 →
        (p.raw.seat.me.1 ≡ (0, None) ∷ [])
        × (p.raw.taken_count ≡ length p.raw.seat.me.0.taken))
        × (length p.raw.seat.me.0.front ≤ p.raw.seat.me.0.seen) };
}
