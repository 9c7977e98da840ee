ghost use Rattle.std.specs.Prelude.{◌≡◌, ◌≢◌, ◌↔◌, ℕ, ◌+◌, ◌<◌, ◌≤◌, List, [], ◌∷◌, ◌++◌};
ghost use Rattle.std.specs.Prelude.{length, map};
ghost use Rattle.std.specs.Prelude.{MatchOption, Some, Contains, IfOk, OnOk, OnErr, take, true, false};
ghost use Rattle.std.specs.List.{AllByRecursion};
ghost use Rattle.solid_base.specs.declared.entities.Entity.{Entity};
ghost use Rattle.solid_base.specs.Ledgers.{counted};
ghost use Rattle.solid_base.specs.Ranges.{IsLawfulRow};
ghost use Rattle.solid_base.specs.References.{row_at};
ghost use Rattle.solid_eval.specs.Solids.{IsPrimitiveRow};
ghost use Rattle.solid_eval.specs.Uses.{Use};
ghost use Rattle.memo_graph.specs.Memos.{IsMemo, verdict_of};
ghost use Rattle.edit_core.specs.Versions.{Version};
ghost use Rattle.ask_core.specs.Books.{key_verdict};
ghost use Rattle.ask_core.specs.Runs.{use_key, use_keys, looked, kept_all, most_keys, most_uses};
ghost use Rattle.ask_core.specs.Runs.{IsTaken, Stops};
ghost use Rattle.ask_core.specs.Rounds.{uses_ahead, IsAhead, IsPrimitiveKey, unfound, AreRight};
ghost use Rattle.ask_core.specs.Rounds.{picked, fresh_entries, HasRoom, IsRoundOf, HasTaken};
ghost use Rattle.ask_core.specs.Rounds.{IsEmpty};

use crate::course::Ahead;
use crate::keys::Keys;
use edit_core::Table;
use memo_graph::{HashedKey, Memo};
use solid_base::{Ledger, Rows, Stack, Verdict, Verdicts};
use solid_eval::primitive_verdict;
use std::alloc::{AllocError, Global};

/// How many distinct keys one round takes at most.
const MOST_KEYS: usize = 64;

/// How many uses one round takes at most.
const MOST_USES: usize = 256;

/// A round of a run: the distinct keys of the uses that are taken, of each what was found and what
/// its verdict is, and of each use that isn't done yet the place of its key.
#[derive(Drop)]
pub(crate) struct Round {
    pub(crate) places: Stack<u8>,
    pub(crate) keys: Keys,
    pub(crate) found: Stack<Option<Verdict>>,
    pub(crate) values: Verdicts,
}

impl Round {
    /// A round that has nothing, with room for as much as it may take. AllocError when out of
    /// memory.
    pub(crate) fn new(alloc: Global) -> Result<Round, AllocError>
        ensures empty { IfOk result IsEmpty }
        ensures room { IfOk result HasRoom }
    {
        let mut round = Round {
            places: Stack::new(alloc),
            keys: Keys::new(alloc),
            found: Stack::new(alloc),
            values: Verdicts::new(alloc),
        };
        round.places.reserve(MOST_USES)?;
        round.keys.reserve(MOST_KEYS)?;
        round.found.reserve(MOST_KEYS)?;
        round.values.reserve(MOST_KEYS)?;
        Ok(round)
    }

    /// Adds a new key, and answers its place.
    fn add(&mut self, key: &HashedKey) -> u8
        requires room { HasRoom self.old }
        requires few { length self.old.keys.list < most_keys }
        ensures place { result ≡ length self.old.keys.list }
        ensures keys { self.new.keys.list ≡ self.old.keys.list ++ key.now ∷ [] }
        ensures places { self.new.places ≡ self.old.places }
        ensures rest { (self.new.found ≡ self.old.found) × (self.new.values ≡ self.old.values) }
        ensures room { HasRoom self.new }
    {
        let place = self.keys.len() as u8;
        self.keys.push(key);
        place
    }

    /// Takes a use by its key, unless that is one key too many.
    fn take(&mut self, key: &HashedKey) -> bool
        requires room { HasRoom self.old }
        requires few { length self.old.places.list < most_uses }
        requires few_keys { length self.old.keys.list ≤ most_keys }
        ensures taken { (version : Version) (taken : List Use) (u : Use) →
            use_key version u ≡ key.now → IsPrimitiveKey version.model.rows key.now →
            IsRoundOf version taken self.old → result ≡ true →
            IsRoundOf version (taken ++ u ∷ []) self.new }
        ensures full { (version : Version) (taken : List Use) (u : Use) →
            use_key version u ≡ key.now → IsRoundOf version taken self.old → result ≡ false →
            most_keys < length (use_keys version (taken ++ u ∷ [])) }
        ensures unchanged { result ≡ false → self.new ≡ self.old }
        ensures one { result ≡ true →
            length self.new.places.list ≡ length self.old.places.list + 1 }
        ensures rest { (self.new.found ≡ self.old.found) × (self.new.values ≡ self.old.values) }
        ensures room { HasRoom self.new }
    {
        let place = match self.keys.place_of(key) {
            Some(place) => place,
            None if self.keys.len() < MOST_KEYS => self.add(key),
            None => return false,
        };
        self.places.push(place).unwrap();
        true
    }

    /// Takes the next use of a cell, unless there is none, the round has the most uses, or its key
    /// is one too many.
    fn take_next(&mut self, table: &Table, ahead: &mut Ahead) -> bool
        requires room { HasRoom self.old }
        requires few { length self.old.places.list ≤ most_uses }
        requires few_keys { length self.old.keys.list ≤ most_keys }
        requires ahead { IsAhead table.now.model.rows ahead.old }
        requires primitives { AllByRecursion (λ u. IsPrimitiveRow
            (row_at table.now.model.rows u.number)) (uses_ahead table.now.model.rows ahead.old) }
        ensures taken { (left : List Use) → HasTaken table.now left ahead.old self.old →
            result ≡ true → HasTaken table.now left ahead.new self.new }
        ensures stops { (taken : List Use) → IsRoundOf table.now taken self.old →
            result ≡ false → Stops table.now taken (uses_ahead table.now.model.rows ahead.old) }
        ensures unchanged { result ≡ false →
            (self.new ≡ self.old) × (ahead.new ≡ ahead.old) }
        ensures one { result ≡ true →
            length self.new.places.list ≡ length self.old.places.list + 1 }
        ensures few { length self.new.places.list ≤ most_uses }
        ensures rest { (self.new.found ≡ self.old.found) × (self.new.values ≡ self.old.values) }
        ensures room { HasRoom self.new }
        ensures ahead { IsAhead table.now.model.rows ahead.new }
        ensures primitives { AllByRecursion (λ u. IsPrimitiveRow
            (row_at table.now.model.rows u.number)) (uses_ahead table.now.model.rows ahead.new) }
    {
        let Some(de) = ahead.next else {
            return false;
        };
        if self.places.len() == MOST_USES {
            return false;
        }
        table.obeys();
        let key = HashedKey::new(de, table.stamp(de), &ahead.at);
        let taken = self.take(&key);
        if taken {
            ahead.pass(table.rows());
        }
        taken
    }

    /// Takes uses of a cell, in order, with their keys.
    fn take_uses(&mut self, table: &Table, ahead: &mut Ahead)
        requires room { HasRoom self.old }
        requires empty { IsEmpty self.old }
        requires ahead { IsAhead table.now.model.rows ahead.old }
        requires primitives { AllByRecursion (λ u. IsPrimitiveRow
            (row_at table.now.model.rows u.number)) (uses_ahead table.now.model.rows ahead.old) }
        requires some { uses_ahead table.now.model.rows ahead.old ≢ [] }
        ensures taken { (taken : List Use) ×
            IsTaken table.now (uses_ahead table.now.model.rows ahead.old) taken
            × IsRoundOf table.now taken self.new
            × (uses_ahead table.now.model.rows ahead.old
            ≡ taken ++ uses_ahead table.now.model.rows ahead.new) }
        ensures rest { (self.new.found ≡ self.old.found) × (self.new.values ≡ self.old.values) }
        ensures room { HasRoom self.new }
        ensures ahead { IsAhead table.now.model.rows ahead.new }
    {
        while self.take_next(table, ahead) {}
    }

    /// Takes uses of a cell, unless the round has some.
    pub(crate) fn gather(&mut self, table: &Table, ahead: &mut Ahead)
        requires room { HasRoom self.old }
        requires empty { self.old.places.list ≡ [] → IsEmpty self.old }
        requires ahead { IsAhead table.now.model.rows ahead.old }
        requires primitives { AllByRecursion (λ u. IsPrimitiveRow
            (row_at table.now.model.rows u.number)) (uses_ahead table.now.model.rows ahead.old) }
        requires some { self.old.places.list ≡ [] →
            uses_ahead table.now.model.rows ahead.old ≢ [] }
        ensures taken { self.old.places.list ≡ [] → (taken : List Use) ×
            IsTaken table.now (uses_ahead table.now.model.rows ahead.old) taken
            × IsRoundOf table.now taken self.new
            × (uses_ahead table.now.model.rows ahead.old
            ≡ taken ++ uses_ahead table.now.model.rows ahead.new) }
        ensures kept { self.old.places.list ≢ [] →
            (self.new ≡ self.old) × (ahead.new ≡ ahead.old) }
        ensures rest { (self.new.found ≡ self.old.found) × (self.new.values ≡ self.old.values) }
        ensures room { HasRoom self.new }
        ensures ahead { IsAhead table.now.model.rows ahead.new }
    {
        if self.places.is_empty() {
            self.take_uses(table, ahead);
        }
    }

    /// Looks each key up in a memo, one after the other.
    pub(crate) fn look_up(&mut self, memo: &mut Memo)
        requires room { HasRoom self.old }
        requires few { length self.old.keys.list ≤ most_keys }
        requires none { self.old.found.list ≡ [] }
        ensures found { self.new.found.list
            ≡ map (λ key. verdict_of key memo.old.entries) self.old.keys.list }
        ensures entries { memo.new.entries ≡ looked self.old.keys.list memo.old.entries }
        ensures capacity { memo.new.capacity ≡ memo.old.capacity }
        ensures keys { (self.new.keys ≡ self.old.keys) × (self.new.places ≡ self.old.places) }
        ensures values { self.new.values ≡ self.old.values }
        ensures room { HasRoom self.new }
    {
        look_up(memo, self.keys.as_slice(), &mut self.found);
    }

    /// Evaluates each key that wasn't found, and adds the verdicts on the uses.
    pub(crate) fn work<L: Ledger>(&mut self, rows: &Rows, known: &mut Verdicts, leaves: &mut L)
        requires rows { AllByRecursion (λ e. IsLawfulRow e.row) rows.now }
        requires primitives { AllByRecursion (IsPrimitiveKey rows.now) self.old.keys.list }
        requires right { AreRight rows.now self.old.keys.list self.old.found.list }
        requires few { length self.old.keys.list ≤ most_keys }
        requires values { self.old.values.list ≡ [] }
        requires inside { AllByRecursion (λ place. place < length self.old.keys.list)
            self.old.places.list }
        requires room { HasRoom self.old }
        requires known_room { length self.old.places.list ≤ known.old.spare }
        ensures known { map Some known.new.list ≡ map Some known.old.list
            ++ picked (map (key_verdict rows.now) self.old.keys.list) self.old.places.list }
        ensures known_kept { length known.new.list + known.new.spare
            ≡ length known.old.list + known.old.spare }
        ensures values { self.new.values.list ≡ map (key_verdict rows.now) self.old.keys.list }
        ensures places { self.new.places.list ≡ [] }
        ensures rest { (self.new.keys ≡ self.old.keys) × (self.new.found ≡ self.old.found) }
        ensures room { HasRoom self.new }
        ensures counted { L.count leaves.new ≡ counted (L.count leaves.old)
            (length (unfound self.old.keys.list self.old.found.list)) }
    {
        evaluate(
            rows,
            self.keys.as_slice(),
            self.found.as_slice(),
            &mut self.values,
            leaves,
        );
        spread(self.values.as_slice(), self.places.as_slice(), known);
        self.places.clear();
    }

    /// Keeps the verdicts that weren't found in a memo, up to the first that lacks memory.
    pub(crate) fn keep(&self, memo: &mut Memo) -> Result<(), AllocError>
        requires valid { IsMemo memo.old }
        requires found { length self.now.found.list ≡ length self.now.keys.list }
        requires values { length self.now.values.list ≡ length self.now.keys.list }
        ensures ok { OnOk result (memo.new.entries ≡ kept_all memo.old.capacity
            (fresh_entries self.now.values.list self.now.keys.list self.now.found.list)
            memo.old.entries) }
        ensures err { OnErr result ((k : ℕ)
            × (k < length (fresh_entries self.now.values.list self.now.keys.list self.now.found.list))
            × (memo.new.entries ≡ kept_all memo.old.capacity (take k
            (fresh_entries self.now.values.list self.now.keys.list self.now.found.list))
            memo.old.entries)) }
        ensures capacity { memo.new.capacity ≡ memo.old.capacity }
        ensures valid { IsMemo memo.new }
    {
        keep(
            memo,
            self.values.as_slice(),
            self.keys.as_slice(),
            self.found.as_slice(),
        )
    }

    /// Takes off what the round has. No memory is taken.
    pub(crate) fn clear(&mut self)
        requires room { HasRoom self.old }
        requires places { self.old.places.list ≡ [] }
        ensures empty { IsEmpty self.new }
        ensures room { HasRoom self.new }
    {
        self.keys.clear();
        self.found.clear();
        self.values.clear();
    }
}

/// Looks keys up in a memo, one after the other, and adds what is found.
fn look_up(memo: &mut Memo, keys: &[HashedKey], found: &mut Stack<Option<Verdict>>)
    requires room { length keys.now ≤ found.old.spare }
    ensures found { found.new.list
        ≡ found.old.list ++ map (λ key. verdict_of key memo.old.entries) keys.now }
    ensures kept { length found.new.list + found.new.spare
        ≡ length found.old.list + found.old.spare }
    ensures entries { memo.new.entries ≡ looked keys.now memo.old.entries }
    ensures capacity { memo.new.capacity ≡ memo.old.capacity }
{
    for place in 0..keys.len() {
        found.push(memo.look(&keys[place])).unwrap();
    }
}

/// The verdict on a key: as it was found, or evaluated.
fn verdict_on<L: Ledger>(
    rows: &Rows,
    key: &HashedKey,
    found: Option<Verdict>,
    leaves: &mut L,
) -> Verdict
    requires rows { AllByRecursion (λ e. IsLawfulRow e.row) rows.now }
    requires primitive { IsPrimitiveKey rows.now key.now }
    requires right { MatchOption found (Unit {0}) (λ verdict.
        verdict ≡ key_verdict rows.now key.now) }
    ensures verdict { result ≡ key_verdict rows.now key.now }
    ensures counted { L.count leaves.new ≡ counted (L.count leaves.old)
        (length (unfound (key.now ∷ []) (found ∷ []))) }
{
    match found {
        Some(verdict) => verdict,
        None => primitive_verdict(rows, key.de(), &key.at(), leaves),
    }
}

/// The verdicts on keys.
fn evaluate<L: Ledger>(
    rows: &Rows,
    keys: &[HashedKey],
    found: &[Option<Verdict>],
    values: &mut Verdicts,
    leaves: &mut L,
)
    requires rows { AllByRecursion (λ e. IsLawfulRow e.row) rows.now }
    requires primitives { AllByRecursion (IsPrimitiveKey rows.now) keys.now }
    requires right { AreRight rows.now keys.now found.now }
    requires room { length keys.now ≤ values.old.spare }
    ensures values { values.new.list ≡ values.old.list ++ map (key_verdict rows.now) keys.now }
    ensures kept { length values.new.list + values.new.spare
        ≡ length values.old.list + values.old.spare }
    ensures counted { L.count leaves.new ≡ counted (L.count leaves.old)
        (length (unfound keys.now found.now)) }
{
    for place in 0..keys.len() {
        let value = verdict_on(rows, &keys[place], found[place], leaves);
        values.push(value).unwrap();
    }
}

/// Keeps the verdict on each key that wasn't found in a memo, one after the other, up to the first
/// that lacks memory.
fn keep(
    memo: &mut Memo,
    values: &[Verdict],
    keys: &[HashedKey],
    found: &[Option<Verdict>],
) -> Result<(), AllocError>
    requires valid { IsMemo memo.old }
    requires found { length found.now ≡ length keys.now }
    requires values { length values.now ≡ length keys.now }
    ensures ok { OnOk result (memo.new.entries ≡ kept_all memo.old.capacity
        (fresh_entries values.now keys.now found.now) memo.old.entries) }
    ensures err { OnErr result ((k : ℕ) × (k < length (fresh_entries values.now keys.now found.now))
        × (memo.new.entries ≡ kept_all memo.old.capacity
        (take k (fresh_entries values.now keys.now found.now)) memo.old.entries)) }
    ensures capacity { memo.new.capacity ≡ memo.old.capacity }
    ensures valid { IsMemo memo.new }
{
    for place in 0..keys.len() {
        if found[place].is_none() {
            memo.fill(&keys[place], values[place])?;
        }
    }
    Ok(())
}

/// Adds the verdict on each use, by the place of its key.
fn spread(values: &[Verdict], places: &[u8], known: &mut Verdicts)
    requires inside { AllByRecursion (λ place. place < length values.now) places.now }
    requires room { length places.now ≤ known.old.spare }
    ensures known { map Some known.new.list
        ≡ map Some known.old.list ++ picked values.now places.now }
    ensures kept { length known.new.list + known.new.spare
        ≡ length known.old.list + known.old.spare }
{
    for place in places {
        known.push(values[*place as usize]).unwrap();
    }
}
