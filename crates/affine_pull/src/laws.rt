ghost use Rattle.std.specs.Prelude.{◌≡◌, ◌<◌, ◌*◌, ℕ, List, [], ◌∷◌};
ghost use Rattle.std.specs.List.{AllByRecursion};
ghost use Rattle.solid_base.specs.declared.entities.Entity.{Entity};
ghost use Rattle.solid_base.specs.declared.geometry.Affine.{Affine};
ghost use Rattle.solid_base.specs.declared.geometry.Vec3.{Vec3};
ghost use Rattle.solid_base.specs.declared.solids.Row.TheVariants as row;
ghost use Rattle.solid_base.specs.Graph.{AreSound};
ghost use Rattle.solid_base.specs.Ranges.{IsLawfulMatrix, IsLawfulRow};
ghost use Rattle.solid_base.specs.References.{row_at};
ghost use Rattle.fixed_enclosure.specs.Places.{Span3, SpansHold, AreNested};
ghost use Rattle.fixed_enclosure.specs.Values.{unit};
ghost use Rattle.affine_pull.specs.Matrices.{moved, pulled, pulled_spans, IsExact, finer};
ghost use Rattle.affine_pull.specs.Chains.{chain_step, chain_of, parts_through, moved_through};
ghost use Rattle.affine_pull.specs.Chains.{pulled_through, spans_through};

/// The spans carried back hold each place carried back that the spans held: a place whose
/// coordinates are counted in parts, of which `m` are one step. Parts stay parts of a step.
pub fn enclosure()
    ensures matrix { (m : ℕ) (a : Affine) (s : Span3) (p : Vec3) → SpansHold m s p →
        SpansHold (unit * m) (pulled_spans a s) (pulled m a p) }
    ensures chain { (m : ℕ) (chain : List Affine) (s : Span3) (p : Vec3) → SpansHold m s p →
        SpansHold (parts_through m chain) (spans_through chain s) (pulled_through m chain p) }
    ensures parts { (m : ℕ) (chain : List Affine) → 0 < m → 0 < parts_through m chain }
{}

/// Carrying back undoes the move, by a matrix or by a chain of them, where the rotations are exact:
/// it gives the very place that was moved, in finer parts.
pub fn undoing()
    ensures matrix { (m : ℕ) (a : Affine) (p : Vec3) → IsExact a →
        pulled (unit * m) a (moved m a p) ≡ finer (unit * unit) p }
    ensures chain { (m : ℕ) (chain : List Affine) (p : Vec3) → AllByRecursion IsExact chain →
        pulled_through (parts_through m chain) chain (moved_through m chain p) ≡
        finer (parts_through 1 chain * parts_through 1 chain) p }
{}

/// A place that is carried back is the same however finely its coordinates are counted: in parts,
/// of which `m` are one step, or in parts that are `n` times finer.
pub fn scale()
    ensures matrix { (m n : ℕ) (a : Affine) (p : Vec3) →
        pulled (n * m) a (finer n p) ≡ finer n (pulled m a p) }
    ensures chain { (m n : ℕ) (chain : List Affine) (p : Vec3) →
        pulled_through (n * m) chain (finer n p) ≡ finer n (pulled_through m chain p) }
    ensures parts { (m n : ℕ) (chain : List Affine) →
        parts_through (n * m) chain ≡ n * parts_through m chain }
{}

/// Spans in range that lie in others do so when both are carried back, through matrices whose
/// parameters are in their ranges; so are those of the chains of lawful rows.
pub fn nesting()
    ensures matrix { (a : Affine) (inner outer : Span3) → IsLawfulMatrix a →
        AreNested inner outer → AreNested (pulled_spans a inner) (pulled_spans a outer) }
    ensures chain { (chain : List Affine) (inner outer : Span3) →
        AllByRecursion IsLawfulMatrix chain →
        AreNested inner outer → AreNested (spans_through chain inner) (spans_through chain outer) }
    ensures lawful { (rows : List Entity) (m : ℕ) →
        AllByRecursion (λ e. IsLawfulRow e.row) rows →
        AllByRecursion IsLawfulMatrix (chain_of rows m) }
{}

/// Where the references obey the rules no level is counted: the chain of a matrix is the matrix in
/// front of the chain of the one that it names, and all else has no matrices in its chain.
pub fn chains()
    ensures step { (rows : List Entity) (m : ℕ) → AreSound rows →
        chain_of rows m ≡ chain_step (chain_of rows) (row_at rows m) }
    ensures matrix { (rows : List Entity) (m form next : ℕ) (a : Affine) → AreSound rows →
        row_at rows m ≡ row.Matrix form a next → chain_of rows m ≡ a ∷ chain_of rows next }
    ensures none { (rows : List Entity) → chain_of rows 0 ≡ [] }
{}
