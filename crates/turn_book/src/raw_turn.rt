//! The turn without a model: the clauses are equations of views.
ghost use Rattle.std.specs.Prelude.{◌≡◌, ◌+◌, ◌<◌, ◌≤◌, ◌^◌, ◌⊎◌, [], ◌∷◌, ◌++◌, length};
ghost use Rattle.std.specs.Prelude.{IfOk, Some, None, true, false};
ghost use mathlib.Core.List.{IsPrefix};
ghost use Rattle.turn_book.specs.Steps.{with_turn, with_entry, without_turn, with_count, met};
ghost use Rattle.turn_book.specs.Steps.{without_part, new_part, without_old_fronts};
ghost use Rattle.turn_book.specs.Steps.{all_parts, first_view, TakesBook};
ghost use Rattle.turn_book.specs.Seats.{IsSeatOf, IsAside, HasTurn, IsGiven};

use crate::logged::Logged;
use crate::raw_pass::RawPass;
use crate::rule::Ruled;
use crate::steps::{AddEntry, CutPart, GiveTurn, LearnFronts, LoadCount, TakeIn, TakeTurn};
use crate::view::View;
use atomic_table::Table;
use std::alloc::{AllocError, Global};
use std::hint::spin_loop;
use std::snapshot::Snapshot;
use std::sync::Wait;
use std::time::Duration;

/// The word that is 1 while a pass has the turn, and else 0.
const TURN: usize = 0;

/// The word that counts the entries.
const COUNT: usize = 1;

/// The slot that has the book, or nothing while it is out.
const BOOK: usize = 0;

/// How often a thread tries for the turn before it sleeps, and how often the processor pauses after
/// each try: together somewhat longer than a look or a fill holds the turn. No clause reads these
/// and the times below.
const QUICK_TRIES: usize = 16;

const PAUSES: usize = 16;

/// How long a thread sleeps at first, and at most, in microseconds.
const SHORTEST_SLEEP: u64 = 50;

const LONGEST_SLEEP: u64 = 200;

/// The processor pauses.
fn pause() {
    for _ in 0..PAUSES {
        spin_loop();
    }
}

/// A table of two words and one slot, under the rule.
#[derive(Drop)]
pub struct RawTurn<B: Logged> {
    pub(crate) table: Table<Option<B>, View<B::Opening, B::Entry>, Snapshot<B>, Ruled<B>, Global>,
    ghost counts: { (table.shared.table_id.words ≡ 2) × (table.shared.table_id.slots ≡ 1) },
}

impl<B: Logged> RawTurn<B> {
    /// A turn for the book, and the seat that knows it.
    pub(crate) fn new(alloc: Global, book: B) -> Result<(RawTurn<B>, RawPass<B>), AllocError>
    where
        B: Drop,
        requires { length (B.log book) < 2 ^ 64 }
        ensures seat { IfOk result (λ t.
            IsSeatOf B.opening B.log t.0.table.shared.table_id book t.1.seat
            × IsAside t.1.seat) }
        ensures first { IfOk result (λ t. t.0.table.shared.key.value ≡ book) }
        ensures view { IfOk result (λ t. t.1.seat.me.0 ≡ first_view B.opening B.log book) }
    {
        let count = book.count();
        let first = Snapshot::of(&book);
        let mut slots = Vec::with_capacity(alloc, 1)?;
        slots.push(Some(book))?;
        let Ok((table, seat)) = Table::new(alloc, &[0, count], slots, &first) else {
            return Err(AllocError);
        };
        Ok((
            RawTurn { table },
            RawPass {
                seat,
                taken_count: 0,
            },
        ))
    }

    /// Tries some times whether the turn word is 0, with a pause after each.
    fn try_win(&self, pass: &mut RawPass<B>) -> bool
        requires seat { IsSeatOf B.opening B.log self.now.table.shared.table_id
            self.now.table.shared.key.value pass.old.seat }
        requires aside { IsAside pass.old.seat }
        ensures table { pass.new.seat.table_id ≡ pass.old.seat.table_id }
        ensures count { pass.new.taken_count ≡ pass.old.taken_count }
        ensures taken { result ≡ true →
            TakesBook B.opening B.log pass.old.seat.me pass.new.seat.me }
        ensures unchanged { result ≡ false → pass.new.seat.me ≡ pass.old.seat.me }
    {
        let table = &self.table.shared;
        for _ in 0..QUICK_TRIES {
            let found = table.compare_exchange::<TakeTurn<B>>(&mut pass.seat, TURN, 0, 1);
            if found == 0 {
                return true;
            }
            pause();
        }
        false
    }

    /// Tries until the turn word was 0, and sleeps while it is 1, for longer and longer. Nobody
    /// wakes a sleeper: whoever gives the turn up mostly takes it again soon, and then finds the
    /// book where it was used last.
    fn win<R: Wait>(&self, rt: &R, pass: &mut RawPass<B>)
        requires seat { IsSeatOf B.opening B.log self.now.table.shared.table_id
            self.now.table.shared.key.value pass.old.seat }
        requires aside { IsAside pass.old.seat }
        ensures table { pass.new.seat.table_id ≡ pass.old.seat.table_id }
        ensures count { pass.new.taken_count ≡ pass.old.taken_count }
        ensures taken { TakesBook B.opening B.log pass.old.seat.me pass.new.seat.me }
    {
        let mut sleep = SHORTEST_SLEEP;
        for _ in rt.forever() {
            if self.try_win(pass) {
                return;
            }
            let micros = Duration::from_micros(sleep);
            self.table.shared.park_timeout(rt, TURN, 1, micros);
            sleep = sleep.saturating_mul(2).min(LONGEST_SLEEP);
        }
        unreachable!()
    }

    /// Waits for the turn and takes the book.
    pub(crate) fn take<R: Wait>(&self, rt: &R, pass: &mut RawPass<B>) -> B
        requires seat { IsSeatOf B.opening B.log self.now.table.shared.table_id
            self.now.table.shared.key.value pass.old.seat }
        requires aside { IsAside pass.old.seat }
        ensures seat { (pass.new.seat.table_id ≡ pass.old.seat.table_id)
            × (pass.new.seat.me ≡ (with_turn pass.old.seat.me.0 (B.log result), (0, None) ∷ [])) }
        ensures count { pass.new.taken_count ≡ length (B.log result) }
        ensures opening { B.opening result ≡ B.opening self.entry.now.table.shared.key.value }
        ensures front { IsPrefix pass.old.seat.me.0.front (B.log result) }
        ensures seen { pass.old.seat.me.0.seen ≤ length (B.log result) }
    {
        self.win(rt, pass);
        let Some(book) = self.table.shared.exchange(&mut pass.seat, BOOK, None) else {
            unreachable!()
        };
        pass.taken_count = book.count();
        book
    }

    /// Gives the book back as it was taken.
    fn give_same(&self, pass: &mut RawPass<B>, book: B)
        requires seat { IsSeatOf B.opening B.log self.now.table.shared.table_id
            self.now.table.shared.key.value pass.old.seat }
        requires turn { HasTurn pass.old.seat }
        requires opening { B.opening book ≡ B.opening self.now.table.shared.key.value }
        requires log { B.log book ≡ pass.old.seat.me.0.taken }
        ensures seat { (pass.new.seat.table_id ≡ pass.old.seat.table_id)
            × (pass.new.seat.me ≡ (without_turn pass.old.seat.me.0, [])) }
    {
        let table = &self.table.shared;
        let vacant = table.exchange(&mut pass.seat, BOOK, Some(book));
        let None = vacant else { unreachable!() };
        table.swap::<GiveTurn>(&mut pass.seat, TURN, 0);
    }

    /// Gives the book back with one entry more. The book goes into its slot first, so that the step
    /// that raises the count knows which entry was added.
    fn give_longer(&self, pass: &mut RawPass<B>, book: B)
        requires seat { IsSeatOf B.opening B.log self.now.table.shared.table_id
            self.now.table.shared.key.value pass.old.seat }
        requires turn { HasTurn pass.old.seat }
        requires opening { B.opening book ≡ B.opening self.now.table.shared.key.value }
        requires log { (entry : B.Entry) × (B.log book ≡ pass.old.seat.me.0.taken ++ entry ∷ []) }
        requires room { length (B.log book) < 2 ^ 64 }
        ensures seat { (pass.new.seat.table_id ≡ pass.old.seat.table_id)
            × (pass.new.seat.me
            ≡ (without_turn (with_entry pass.old.seat.me.0 (B.log book)), [])) }
    {
        let table = &self.table.shared;
        let vacant = table.exchange(&mut pass.seat, BOOK, Some(book));
        let None = vacant else { unreachable!() };
        table.fetch_add::<AddEntry<B>>(&mut pass.seat, COUNT, 1);
        table.swap::<GiveTurn>(&mut pass.seat, TURN, 0);
    }

    /// Gives the book back, with at most one entry more.
    pub(crate) fn give(&self, pass: &mut RawPass<B>, book: B)
        requires seat { IsSeatOf B.opening B.log self.now.table.shared.table_id
            self.now.table.shared.key.value pass.old.seat }
        requires turn { HasTurn pass.old.seat }
        requires count { pass.old.taken_count ≡ length pass.old.seat.me.0.taken }
        requires opening { B.opening book ≡ B.opening self.now.table.shared.key.value }
        requires log { (B.log book ≡ pass.old.seat.me.0.taken)
            ⊎ ((entry : B.Entry) × (B.log book ≡ pass.old.seat.me.0.taken ++ entry ∷ [])) }
        requires room { length (B.log book) < 2 ^ 64 }
        ensures table { pass.new.seat.table_id ≡ pass.old.seat.table_id }
        ensures view { IsGiven pass.old.seat.me.0 (B.log book) pass.new.seat.me.0 }
        ensures slot { pass.new.seat.me.1 ≡ [] }
    {
        if book.count() > pass.taken_count {
            self.give_longer(pass, book);
        } else {
            self.give_same(pass, book);
        }
    }

    /// The count.
    pub(crate) fn newest(&self, pass: &mut RawPass<B>) -> u64
        requires seat { IsSeatOf B.opening B.log self.now.table.shared.table_id
            self.now.table.shared.key.value pass.old.seat }
        ensures seat { (pass.new.seat.table_id ≡ pass.old.seat.table_id)
            × (pass.new.seat.me ≡ (with_count pass.old.seat.me.0 result, pass.old.seat.me.1)) }
        ensures count { pass.new.taken_count ≡ pass.old.taken_count }
        ensures seen { pass.old.seat.me.0.seen ≤ result }
    {
        self.table.shared.load::<LoadCount>(&mut pass.seat, COUNT)
    }

    /// Cuts one part off.
    pub(crate) fn split(&self, pass: &mut RawPass<B>) -> RawPass<B>
        requires seat { IsSeatOf B.opening B.log self.now.table.shared.table_id
            self.now.table.shared.key.value pass.old.seat }
        requires aside { IsAside pass.old.seat }
        requires parts { 2 ≤ pass.old.seat.me.0.parts }
        ensures table { pass.new.seat.table_id ≡ pass.old.seat.table_id }
        ensures same_table { result.seat.table_id ≡ pass.old.seat.table_id }
        ensures kept { pass.new.seat.me ≡ (without_part pass.old.seat.me.0, []) }
        ensures cut { result.seat.me ≡ (new_part pass.old.seat.me.0, []) }
    {
        let seat = self.table.shared.split_seat::<CutPart>(&mut pass.seat);
        RawPass {
            seat,
            taken_count: 0,
        }
    }

    /// Takes in the other pass.
    pub(crate) fn meet(&self, pass: &mut RawPass<B>, other: RawPass<B>)
        requires seat { IsSeatOf B.opening B.log self.now.table.shared.table_id
            self.now.table.shared.key.value pass.old.seat }
        requires aside { IsAside pass.old.seat }
        requires other { IsSeatOf B.opening B.log self.now.table.shared.table_id
            self.now.table.shared.key.value other.seat }
        requires other_aside { IsAside other.seat }
        ensures seat { (pass.new.seat.table_id ≡ pass.old.seat.table_id)
            × (pass.new.seat.me
            ≡ (without_old_fronts (met pass.old.seat.me.0 other.seat.me.0), [])) }
        ensures old_front { IsPrefix pass.old.seat.me.0.front pass.new.seat.me.0.front }
        ensures met_front { IsPrefix other.seat.me.0.front pass.new.seat.me.0.front }
    {
        let RawPass {
            seat,
            taken_count: _,
        } = other;
        self.table.shared.join_seat::<TakeIn>(&mut pass.seat, seat);
        self.table.shared.load::<LearnFronts>(&mut pass.seat, TURN);
    }
}

impl<B: Logged + Drop> RawTurn<B> {
    /// Takes the turn for good, and gives the book out.
    pub(crate) fn close<R: Wait>(self, rt: &R, mut pass: RawPass<B>) -> B
        requires seat { IsSeatOf B.opening B.log self.table.shared.table_id
            self.table.shared.key.value pass.seat }
        requires aside { IsAside pass.seat }
        ensures opening { B.opening result ≡ B.opening self.table.shared.key.value }
        ensures front { IsPrefix pass.seat.me.0.front (B.log result) }
        ensures seen { pass.seat.me.0.seen ≤ length (B.log result) }
        ensures all { pass.seat.me.0.parts ≡ all_parts →
            length (B.log result)
            ≡ length (B.log self.table.shared.key.value) + pass.seat.me.0.made }
    {
        let book = self.take(rt, &mut pass);
        let RawPass {
            seat,
            taken_count: _,
        } = pass;
        let RawTurn { table } = self;
        let mut closed = table.close_with(seat);
        drop(closed.take(BOOK));
        closed.free();
        book
    }
}
