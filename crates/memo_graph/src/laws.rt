//! What a look-up and a fill keep, as laws over all entries.
ghost use Rattle.std.specs.Prelude.{◌≡◌, ◌≢◌, ◌+◌, ◌<◌, ◌≤◌, ℕ, List, ◌∷◌, ◌++◌, [], length};
ghost use Rattle.std.specs.Prelude.{None, Some, IsSome, Contains, ◌⊎◌, ◌↔◌, true};
ghost use Rattle.solid_base.specs.declared.classes.Verdict.{Verdict};
ghost use Rattle.memo_graph.specs.declared.key.Key.{Key};
ghost use Rattle.memo_graph.specs.Memos.{Entry, EachOnce, same_key, verdict_of, promoted, filled};

/// Two keys are the same exactly where the entity, the stamp and the box are.
pub fn same_keys()
    ensures { (a b : Key) → (same_key a b ≡ true) ↔ (a ≡ b) }
{}

/// A look-up loses nothing: each key that was held is held with its verdict, and no other is.
pub fn looks()
    ensures verdicts { (key other : Key) (entries : List Entry) →
        verdict_of other (promoted key entries) ≡ verdict_of other entries }
    ensures length { (key : Key) (entries : List Entry) → EachOnce entries →
        length (promoted key entries) ≡ length entries }
    ensures none_new { (key : Key) (entries : List Entry) (entry : Entry) →
        Contains (promoted key entries) entry → Contains entries entry }
{}

/// After a fill the key is held with its verdict.
pub fn fills()
    ensures there { (capacity : ℕ) (key : Key) (verdict : Verdict) (entries : List Entry) →
        0 < capacity → verdict_of key (filled capacity key verdict entries) ≡ Some verdict }
    ensures one_new { (capacity : ℕ) (key : Key) (verdict : Verdict) (entries : List Entry)
        (entry : Entry) → Contains (filled capacity key verdict entries) entry →
        (entry ≡ (key, verdict)) ⊎ Contains entries entry }
    ensures no_other { (capacity : ℕ) (key other : Key) (verdict found : Verdict)
        (entries : List Entry) → key ≢ other →
        verdict_of other (filled capacity key verdict entries) ≡ Some found →
        verdict_of other entries ≡ Some found }
{}

/// A fill drops an entry exactly where the key wasn't held and the memo is full: the last one.
pub fn drops()
    ensures room { (capacity : ℕ) (key other : Key) (verdict : Verdict) (entries : List Entry) →
        key ≢ other → length entries < capacity →
        verdict_of other (filled capacity key verdict entries) ≡ verdict_of other entries }
    ensures held { (capacity : ℕ) (key other : Key) (verdict : Verdict) (entries : List Entry) →
        EachOnce entries → length entries ≤ capacity → IsSome (verdict_of key entries) →
        key ≢ other →
        verdict_of other (filled capacity key verdict entries) ≡ verdict_of other entries }
    ensures full { (capacity : ℕ) (key : Key) (verdict : Verdict) (front : List Entry)
        (last : Entry) → length front + 1 ≡ capacity →
        verdict_of key (front ++ last ∷ []) ≡ None →
        filled capacity key verdict (front ++ last ∷ []) ≡ (key, verdict) ∷ front }
{}
