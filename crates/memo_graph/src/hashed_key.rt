ghost use Rattle.std.specs.Prelude.{◌≡◌};
ghost use Rattle.std.specs.Cmp.{partial_equiv_from_equiv};
ghost use Rattle.std.proofs.Common.{ap};
ghost use Rattle.std.specs.Hash as fed;
ghost use Rattle.memo_graph.specs.Digests.{key_digest};
ghost use Rattle.memo_graph.specs.Memos.{same_key};
ghost use Rattle.memo_graph.specs.KeyLaws.{same_key_exact, same_key_equiv};
ghost use Rattle.fixed_enclosure.specs.Spans.{IsBox};

use crate::digest::of_key;
use crate::packed_key::PackedKey;
use fixed_enclosure::Box3;
use std::hash::{Hash, Hasher};
use std::marker::Model;

/// A key with its digest, by which a memo finds it: the digest is worked out once. Contracts see
/// the key.
#[derive(Clone, Copy, Debug)]
pub struct HashedKey {
    digest: u64,
    packed: PackedKey,
}

impl Model for HashedKey {
    ghost use Rattle.std.specs.Prelude.{◌≡◌};
    ghost use Rattle.std.proofs.Common.{sym};
    ghost use Rattle.memo_graph.specs.declared.key.Key.{Key};
    ghost use Rattle.memo_graph.specs.Digests.{key_digest};
    ghost use Rattle.memo_graph.specs.PackedKeys.{key_of, packed_of, packed_again};

    ghost Value = { Key };

    ghost view = { λ h. key_of h.packed };

    ghost invariant = { λ h. h.digest ≡ key_digest (key_of h.packed) };

    ghost inverse = { λ key. record { digest = key_digest key; packed = packed_of key } };

    ghost inverse_ok = { λ h valid i. record {
      digest = sym valid i;
      packed = packed_again h.packed i;
    } };
}

impl HashedKey {
    /// The key of an entity's number, its stamp and a box, with its digest.
    pub fn new(de: u32, stamp: u64, at: &Box3) -> HashedKey
        requires at { IsBox at.now }
        ensures { result ≡ record { de = de; stamp = stamp; at = at.now } }
    {
        HashedKey {
            digest: of_key(de, stamp, at),
            packed: PackedKey::new(de, stamp, at),
        }
    }

    /// The number of the entity.
    pub fn de(&self) -> u32
        ensures { result ≡ self.now.de }
    {
        self.packed.de
    }

    /// The entity's stamp.
    pub fn stamp(&self) -> u64
        ensures { result ≡ self.now.stamp }
    {
        self.packed.stamp
    }

    /// The box, in steps.
    pub fn at(&self) -> Box3
        ensures { result ≡ self.now.at }
    {
        self.packed.at()
    }
}

impl PartialEq for HashedKey {
    ghost eq = { same_key };

    ghost laws = { partial_equiv_from_equiv same_key_equiv };

    // Keys that differ mostly differ in their digests.
    fn eq(&self, other: &HashedKey) -> bool {
        self.digest == other.digest && self.packed == other.packed
    }
}

impl Eq for HashedKey {
    ghost laws = { same_key_equiv };
}

impl Hash for HashedKey {
    ghost hash_input = { λ key. fed.u64 (key_digest key) };

    ghost respects_eq = { λ a b same. ap (λ key. fed.u64 (key_digest key))
        ((same_key_exact a b).0 same) };

    fn hash<H: Hasher>(&self, state: &mut H) {
        state.write_u64(self.digest);
    }
}
