ghost use Rattle.std.specs.Prelude.{◌≡◌, ◌≤◌, ℕ, List, length, map};
ghost use Rattle.std.specs.List.{AllByRecursion};
ghost use Rattle.solid_base.specs.declared.entities.Entity.{Entity};
ghost use Rattle.solid_base.specs.Graph.{AreSound, weight_of};
ghost use Rattle.solid_base.specs.Ranges.{IsLawfulRow};
ghost use Rattle.solid_base.specs.References.{row_at};
ghost use Rattle.fixed_enclosure.specs.Places.{Span3};
ghost use Rattle.entity_graph.specs.Opaque.{ReachesOpaque};
ghost use Rattle.solid_eval.specs.Solids.{Solid, solid_of, IsSolidRow, IsPrimitiveRow};
ghost use Rattle.solid_eval.specs.Uses.{leaf_count, uses, use_verdict, verdict_from};
ghost use Rattle.solid_eval.specs.Written.{written};

/// A solid has a use for each of its primitives, as often as it stands: exactly as many as its
/// entity weighs where that reaches nothing unread. Each is one of a primitive's row.
pub fn uses_of_solids()
    ensures counted { (solid : Solid) (s : Span3) → length (uses solid s) ≡ leaf_count solid }
    ensures weighed { (rows : List Entity) (e : ℕ) (s : Span3) →
        AllByRecursion (λ e. IsLawfulRow e.row) rows → ((k : ℕ) → ¬ ReachesOpaque rows e k) →
        length (uses (solid_of rows e) s) ≡ weight_of rows e }
    ensures primitives { (rows : List Entity) (e : ℕ) (s : Span3) →
        AllByRecursion (λ u. IsPrimitiveRow (row_at rows u.number)) (uses (solid_of rows e) s) }
{}

/// The verdict on an entity is that from the verdicts on its uses, each of which is the verdict on
/// its primitive's entity.
pub fn verdicts_of_uses()
    ensures { (rows : List Entity) (e : ℕ) (s : Span3) → written (solid_of rows e) s ≡
        verdict_from (solid_of rows e) (map (use_verdict rows) (uses (solid_of rows e) s)) }
{}

/// Each solid weighs at least 1, where the references obey the rules.
pub fn weights()
    ensures { (rows : List Entity) (e : ℕ) → AllByRecursion (λ e. IsLawfulRow e.row) rows →
        AreSound rows → IsSolidRow (row_at rows e) → 1 ≤ weight_of rows e }
{}
