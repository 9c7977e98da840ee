//! The turn, as contracts see it.
ghost use Rattle.std.specs.Prelude.{◌≡◌, ◌+◌, ◌<◌, ◌≤◌, ◌^◌, ◌⊎◌, [], ◌∷◌, ◌++◌, length};
ghost use Rattle.std.specs.Prelude.{max, IfOk, Some};
ghost use mathlib.Core.List.{IsPrefix};
ghost use Rattle.turn_book.specs.Steps.{longer};
ghost use Rattle.turn_book.specs.Passes.{IsPassOf, IsIdle, HoldsTurn, IsWhole};

use crate::logged::Logged;
use crate::pass::Pass;
use crate::raw_turn::RawTurn;
use std::alloc::{AllocError, Global};
use std::marker::Model;
use std::sync::Wait;

/// One book that many threads share: one pass at a time takes it. Contracts see the opening of the
/// book with which it was made, and the length that its log then had.
#[derive(Drop)]
pub struct Turn<B: Logged> {
    raw: RawTurn<B>,
}

impl<B: Logged> Model for Turn<B> {
    ghost use Rattle.std.specs.Prelude.{Some, length};
    ghost use Rattle.turn_book.specs.Passes.{TurnFacts, turn_code};

    ghost Value = { TurnFacts B.Opening };

    ghost coded = { turn_code B.Opening.code };

    ghost view = { λ t. record {
      id = t.raw.table.shared.table_id;
      opening = Some (B.opening t.raw.table.shared.key.value);
      opening_count = length (B.log t.raw.table.shared.key.value);
    } };
}

impl<B: Logged> Turn<B> {
    /// A turn for this book, and the one pass of it, which has been shown the whole log and has all
    /// parts. The log must have fewer than 2^64 entries. AllocError is the only refusal.
    pub fn new(alloc: Global, book: B) -> Result<(Turn<B>, Pass<B>), AllocError>
    where
        B: Drop,
        requires room { length (B.log book) < 2 ^ 64 }
        ensures opening { IfOk result (λ t. t.0.opening ≡ Some (B.opening book)) }
        ensures opening_count { IfOk result (λ t. t.0.opening_count ≡ length (B.log book)) }
        ensures of_turn { IfOk result (λ t. IsPassOf t.0 t.1) }
        ensures idle { IfOk result (λ t. IsIdle t.1) }
        ensures front { IfOk result (λ t. t.1.front ≡ B.log book) }
        ensures seen { IfOk result (λ t. t.1.seen ≡ length (B.log book)) }
        ensures nothing_made { IfOk result (λ t. (t.1.made ≡ 0) × (t.1.taken ≡ [])) }
        ensures nothing_heard { IfOk result (λ t. t.1.heard ≡ []) }
        ensures parts { IfOk result (λ t. IsWhole t.1) }
    {
        let (raw, pass) = RawTurn::new(alloc, book)?;
        Ok((Turn { raw }, Pass { raw: pass }))
    }

    /// Waits for the turn and takes the book. A thread that waits sleeps. The pass must be of this
    /// turn and not hold it.
    pub fn take<R: Wait>(&self, rt: &R, pass: &mut Pass<B>) -> B
        requires of_turn { IsPassOf self.now pass.old }
        requires idle { IsIdle pass.old }
        ensures of_turn { IsPassOf self.now pass.new }
        ensures holds { HoldsTurn pass.new }
        ensures taken { pass.new.taken ≡ B.log result }
        ensures opening { Some (B.opening result) ≡ self.now.opening }
        ensures front { IsPrefix pass.old.front (B.log result) }
        ensures seen { pass.old.seen ≤ length (B.log result) }
        ensures same_front { (pass.new.front ≡ pass.old.front) × (pass.new.seen ≡ pass.old.seen) }
        ensures same_heard { pass.new.heard ≡ pass.old.heard }
        ensures same_made { (pass.new.made ≡ pass.old.made) × (pass.new.parts ≡ pass.old.parts) }
    {
        self.raw.take(rt, &mut pass.raw)
    }

    /// Gives the book back and the turn up. The pass must hold the turn; the book must have the
    /// turn's opening and the log that was taken, or that with one entry more, of fewer than 2^64
    /// entries. It waits for nobody.
    pub fn give(&self, pass: &mut Pass<B>, book: B)
        requires of_turn { IsPassOf self.now pass.old }
        requires holds { HoldsTurn pass.old }
        requires opening { Some (B.opening book) ≡ self.now.opening }
        requires log { (B.log book ≡ pass.old.taken)
            ⊎ ((entry : B.Entry) × (B.log book ≡ pass.old.taken ++ entry ∷ [])) }
        requires room { length (B.log book) < 2 ^ 64 }
        ensures of_turn { IsPassOf self.now pass.new }
        ensures idle { IsIdle pass.new }
        ensures taken { pass.new.taken ≡ [] }
        ensures front { pass.new.front ≡ B.log book }
        ensures seen { pass.new.seen ≡ length (B.log book) }
        ensures made { pass.new.made + length pass.old.taken ≡ pass.old.made + length (B.log book) }
        ensures same_heard { pass.new.heard ≡ pass.old.heard }
        ensures same_parts { pass.new.parts ≡ pass.old.parts }
    {
        self.raw.give(&mut pass.raw, book);
    }

    /// How many entries there are at one moment of this call. While a pass holds the turn these are
    /// the entries of the book that it took, until it gives the book back. The pass must be of this
    /// turn. It waits for nobody, also while another pass holds the turn.
    pub fn newest(&self, pass: &mut Pass<B>) -> u64
        requires of_turn { IsPassOf self.now pass.old }
        ensures of_turn { IsPassOf self.now pass.new }
        ensures no_less { pass.old.seen ≤ result }
        ensures seen { pass.new.seen ≡ result }
        ensures heard { pass.new.heard ≡ pass.old.heard ++ result ∷ [] }
        ensures same_front { pass.new.front ≡ pass.old.front }
        ensures same_made { (pass.new.made ≡ pass.old.made) × (pass.new.parts ≡ pass.old.parts) }
        ensures same_turn { (pass.new.holds ≡ pass.old.holds) × (pass.new.taken ≡ pass.old.taken) }
    {
        self.raw.newest(&mut pass.raw)
    }

    /// A second pass, which gets one part and has been shown as much. The pass must be of this
    /// turn, not hold it, and have at least two parts. It waits for nobody.
    pub fn split(&self, pass: &mut Pass<B>) -> Pass<B>
        requires of_turn { IsPassOf self.now pass.old }
        requires idle { IsIdle pass.old }
        requires parts { 2 ≤ pass.old.parts }
        ensures of_turn { IsPassOf self.now pass.new }
        ensures idle { IsIdle pass.new }
        ensures parts { pass.new.parts + 1 ≡ pass.old.parts }
        ensures same_front { (pass.new.front ≡ pass.old.front) × (pass.new.seen ≡ pass.old.seen) }
        ensures same_heard { pass.new.heard ≡ pass.old.heard }
        ensures same_made { (pass.new.made ≡ pass.old.made) × (pass.new.taken ≡ pass.old.taken) }
        ensures second_of_turn { IsPassOf self.entry.now result }
        ensures second_idle { IsIdle result }
        ensures second_front { (result.front ≡ pass.old.front) × (result.seen ≡ pass.old.seen) }
        ensures second_nothing_made { (result.made ≡ 0) × (result.taken ≡ []) }
        ensures second_nothing_heard { result.heard ≡ [] }
        ensures second_parts { result.parts ≡ 1 }
    {
        let raw = self.raw.split(&mut pass.raw);
        Pass { raw }
    }

    /// The pass takes in the other pass: the longer of the two fronts, which goes on from the
    /// shorter, the greater count, and what was made with both and their parts. Both must be of
    /// this turn and not hold it. It waits for nobody.
    pub fn meet(&self, pass: &mut Pass<B>, other: Pass<B>)
        requires of_turn { IsPassOf self.now pass.old }
        requires idle { IsIdle pass.old }
        requires other_of_turn { IsPassOf self.now other }
        requires other_idle { IsIdle other }
        ensures of_turn { IsPassOf self.now pass.new }
        ensures idle { IsIdle pass.new }
        ensures front { pass.new.front ≡ longer pass.old.front other.front }
        ensures goes_on { IsPrefix pass.old.front pass.new.front }
        ensures goes_on_from_other { IsPrefix other.front pass.new.front }
        ensures seen { pass.new.seen ≡ max pass.old.seen other.seen }
        ensures made { pass.new.made ≡ pass.old.made + other.made }
        ensures parts { pass.new.parts ≡ pass.old.parts + other.parts }
        ensures same_heard { pass.new.heard ≡ pass.old.heard }
        ensures same_taken { pass.new.taken ≡ pass.old.taken }
    {
        let Pass { raw } = other;
        self.raw.meet(&mut pass.raw, raw);
    }
}

impl<B: Logged + Drop> Turn<B> {
    /// Waits for the turn, takes it for good and gives the book out. The pass must be of this turn
    /// and not hold it. Where it has all parts, the log is as long as the opening count and all
    /// that was made.
    pub fn close<R: Wait>(self, rt: &R, pass: Pass<B>) -> B
        requires of_turn { IsPassOf self pass }
        requires idle { IsIdle pass }
        ensures opening { Some (B.opening result) ≡ self.opening }
        ensures front { IsPrefix pass.front (B.log result) }
        ensures seen { pass.seen ≤ length (B.log result) }
        ensures all_made { IsWhole pass → length (B.log result) ≡ self.opening_count + pass.made }
    {
        let Turn { raw } = self;
        let Pass { raw: pass } = pass;
        raw.close(rt, pass)
    }
}
