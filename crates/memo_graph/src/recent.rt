//! The steps of a look and of a fill on the kept entries, in the words of `lru`.
ghost use Rattle.std.specs.Prelude.{◌≡◌, OnOk, OnErr, IsSome, IsOk, slice_get, option_map};
ghost use Rattle.std.specs.Map.{lookup};
ghost use Rattle.lru.specs.LruCache.{lru_cache, promoted, put_entries};
ghost use Rattle.memo_graph.specs.Memos.{same_key};

use crate::hashed_key::HashedKey;
use lru::LruCache;
use solid_base::Verdict;
use std::alloc::AllocError;

// The verdict of the key, whose entry becomes the most recently used.
pub(crate) fn recall(cache: &mut LruCache<HashedKey, Verdict>, key: &HashedKey) -> Option<Verdict>
    ensures verdict { result ≡ lookup (same_key key.now) cache.old.entries }
    ensures order { cache.new ≡ lru_cache
        (promoted (same_key key.now) cache.old.entries) cache.old.cap }
{
    if !cache.promote(key) {
        return None;
    }
    first_verdict(cache)
}

// The verdict of the most recently used entry: the key isn't sought a second time.
fn first_verdict(cache: &LruCache<HashedKey, Verdict>) -> Option<Verdict>
    ensures { result ≡ option_map (λ e. e.1) (slice_get cache.now.entries 0) }
{
    let (_, verdict) = cache.peek_mru()?;
    Some(*verdict)
}

// Keeps the verdict under the key, as the most recently used entry.
pub(crate) fn keep(
    cache: &mut LruCache<HashedKey, Verdict>,
    key: &HashedKey,
    verdict: Verdict,
) -> Result<(), AllocError>
    ensures entries { OnOk result (cache.new ≡ lru_cache
        (put_entries same_key cache.old key.now verdict) cache.old.cap) }
    ensures err { OnErr result (cache.new ≡ cache.old) }
    ensures held { IsSome (lookup (same_key key.now) cache.old.entries) →
        IsOk result }
{
    match cache.put(*key, verdict) {
        Ok(_) => Ok(()),
        Err(_) => Err(AllocError),
    }
}
