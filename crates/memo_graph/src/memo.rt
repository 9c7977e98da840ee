ghost use Rattle.std.specs.Prelude.{◌≡◌, ◌<◌, [], length, IfOk, OnOk, OnErr, IsSome, IsOk};
ghost use Rattle.memo_graph.specs.Memos.{MemoFacts, IsMemo, verdict_of, promoted, filled};

use crate::hashed_key::HashedKey;
use crate::recent::{keep, recall};
use lru::LruCache;
use solid_base::Verdict;
use std::alloc::{AllocError, Global};
use std::marker::Model;
use std::num::NonZeroUsize;

/// Verdicts that were worked out once, each under its key. Contracts see the list of the entries,
/// the most recently used first, each key once, and the capacity.
#[derive(Drop)]
pub struct Memo {
    cache: LruCache<HashedKey, Verdict>,
}

impl Model for Memo {
    ghost use Rattle.memo_graph.specs.Memos.{MemoFacts, memo_facts, IsMemo};

    ghost Value = { MemoFacts };

    ghost view = { λ m. memo_facts m.cache.entries m.cache.cap };

    ghost invariant = { λ m. IsMemo (memo_facts m.cache.entries m.cache.cap) };
}

impl Memo {
    /// A memo that holds no entry, and may hold so many, at least one. Its table takes its memory
    /// here, each entry its own when it comes. AllocError is the only refusal.
    pub fn new(alloc: Global, capacity: usize) -> Result<Memo, AllocError>
        requires some { 0 < capacity }
        ensures empty { IfOk result (λ memo. memo.entries ≡ []) }
        ensures capacity { IfOk result (λ memo. memo.capacity ≡ capacity) }
        ensures valid { IfOk result (λ memo. IsMemo memo) }
    {
        let Some(capacity) = NonZeroUsize::new(capacity) else {
            unreachable!();
        };
        let cache = LruCache::new(alloc, capacity)?;
        Ok(Memo { cache })
    }

    /// The verdict that is held under the key, whose entry becomes the most recently used; None
    /// exactly where the key isn't held. It takes no memory.
    pub fn look(&mut self, key: &HashedKey) -> Option<Verdict>
        ensures verdict { result ≡ verdict_of key.now self.old.entries }
        ensures entries { self.new.entries ≡ promoted key.now self.old.entries }
        ensures capacity { self.new.capacity ≡ self.old.capacity }
        ensures valid { IsMemo self.new }
    {
        recall(&mut self.cache, key)
    }

    /// Keeps the verdict under the key, as the most recently used entry. Where the key wasn't held
    /// and the memo is full, the entry that was used the longest ago is dropped. AllocError is the
    /// only refusal: it changes nothing, and never comes where the key is held.
    pub fn fill(&mut self, key: &HashedKey, verdict: Verdict) -> Result<(), AllocError>
        ensures entries { OnOk result
            (self.new.entries ≡ filled self.old.capacity key.now verdict self.old.entries) }
        ensures err { OnErr result (self.new ≡ self.old) }
        ensures capacity { self.new.capacity ≡ self.old.capacity }
        ensures held { IsSome (verdict_of key.now self.old.entries) → IsOk result }
        ensures valid { IsMemo self.new }
    {
        keep(&mut self.cache, key, verdict)
    }

    /// How many entries the memo holds.
    pub fn len(&self) -> usize
        ensures len { result ≡ length self.now.entries }
        ensures valid { IsMemo self.now }
    {
        self.cache.len()
    }
}
