ghost use Rattle.std.specs.Prelude.{◌≡◌, ◌↔◌, ◌<◌, ◌≤◌, ◌+◌, ◌++◌, [], ◌∷◌, length};
ghost use Rattle.std.specs.Prelude.{OnOk, OnErr, MatchOption, Some, Contains, max, true};
ghost use Rattle.ask_core.specs.KeyMarks.{mark_of, most_marks};
ghost use Rattle.ask_core.specs.Rounds.{picked};
ghost use Rattle.ask_core.specs.Runs.{most_keys};

use memo_graph::HashedKey;
use solid_base::Stack;
use std::alloc::{AllocError, Global};
use std::marker::Model;

/// How many marks there are.
const MARKS: usize = 256;

/// Keys, with room that was set aside, and with marks by which most keys that aren't among them
/// are known without a search. Contracts see the keys and the spare room.
#[derive(Drop)]
pub(crate) struct Keys {
    keys: Stack<HashedKey>,
    marks: [bool; MARKS],
}

impl Model for Keys {
    ghost use Rattle.solid_base.specs.Stack.{Stack as stack};
    ghost use Rattle.memo_graph.specs.declared.key.Key.{Key as key};
    ghost use Rattle.ask_core.specs.KeyMarks.{AreMarked};

    ghost Value = { stack key };

    ghost view = { λ k. k.keys };

    ghost invariant = { λ k. AreMarked k.marks k.keys.list };
}

/// No mark is set.
fn no_marks() -> [bool; MARKS] {
    [false; MARKS]
}

/// The place of a key's mark.
fn mark_of(key: &HashedKey) -> usize
    ensures mark { result ≡ mark_of key.now }
    ensures within { result < most_marks }
{
    key.de() as usize / 2 % MARKS
}

/// Whether two keys are the same.
fn is_same(a: &HashedKey, b: &HashedKey) -> bool
    ensures { (result ≡ true) ↔ (a.now ≡ b.now) }
{
    a == b
}

/// The place of a key among others.
fn place_of(keys: &[HashedKey], key: &HashedKey) -> Option<u8>
    requires few { length keys.now ≤ most_keys }
    ensures { MatchOption result (¬ Contains keys.now key.now)
        (λ place. picked keys.now (place ∷ []) ≡ Some key.now ∷ []) }
{
    for place in 0..keys.len() {
        if is_same(&keys[place], key) {
            return Some(place as u8);
        }
    }
    None
}

impl Keys {
    /// No keys and no room, which take no memory yet.
    pub(crate) fn new(alloc: Global) -> Keys
        ensures list { result.list ≡ [] }
        ensures spare { result.spare ≡ 0 }
    {
        Keys {
            keys: Stack::new(alloc),
            marks: no_marks(),
        }
    }

    /// Makes the spare room at least `n`. When out of memory nothing is changed.
    pub(crate) fn reserve(&mut self, n: usize) -> Result<(), AllocError>
        ensures list { self.new.list ≡ self.old.list }
        ensures ok { OnOk result (self.new.spare ≡ max self.old.spare n) }
        ensures err { OnErr result (self.new ≡ self.old) }
    {
        self.keys.reserve(n)
    }

    /// The keys, in order.
    pub(crate) fn as_slice(&self) -> &[HashedKey]
        ensures { result.now ≡ self.now.list }
    {
        self.keys.as_slice()
    }

    /// How many keys there are.
    pub(crate) fn len(&self) -> usize
        ensures { result ≡ length self.now.list }
    {
        self.keys.len()
    }

    /// The place of a key among these, None where it isn't among them.
    pub(crate) fn place_of(&self, key: &HashedKey) -> Option<u8>
        requires few { length self.now.list ≤ most_keys }
        ensures { MatchOption result (¬ Contains self.now.list key.now)
            (λ place. picked self.now.list (place ∷ []) ≡ Some key.now ∷ []) }
    {
        if !self.marks[mark_of(key)] {
            return None;
        }
        place_of(self.keys.as_slice(), key)
    }

    /// Adds a key at the end, where there is room.
    pub(crate) fn push(&mut self, key: &HashedKey)
        requires room { 0 < self.old.spare }
        ensures list { self.new.list ≡ self.old.list ++ key.now ∷ [] }
        ensures spare { self.new.spare + 1 ≡ self.old.spare }
    {
        self.keys.push(*key).unwrap();
        self.marks[mark_of(key)] = true;
    }

    /// Takes all keys off, and there is room for as many more. No memory is taken.
    pub(crate) fn clear(&mut self)
        ensures list { self.new.list ≡ [] }
        ensures spare { self.new.spare ≡ self.old.spare + length self.old.list }
    {
        self.keys.clear();
        self.marks = no_marks();
    }
}
