ghost use Rattle.std.specs.Prelude.{◌≡◌, ◌≢◌, ◌↔◌, ℕ, pos, List};
ghost use Rattle.std.specs.List.{All, Any};
ghost use Rattle.solid_base.specs.declared.classes.Class.{Class};
ghost use Rattle.solid_base.specs.declared.entities.Entity.{Entity};
ghost use Rattle.solid_base.specs.declared.geometry.Vec3.{Vec3};
ghost use Rattle.solid_base.specs.declared.solids.Primitive.{Primitive};
ghost use Rattle.solid_base.specs.declared.solids.Row.TheVariants as row;
ghost use Rattle.solid_base.specs.Classes.{IsVerdict};
ghost use Rattle.solid_base.specs.Range.{IsPointWithin, far};
ghost use Rattle.solid_base.specs.Ranges.{IsLawfulPrim};
ghost use Rattle.solid_base.specs.References.{row_at};
ghost use Rattle.fixed_enclosure.specs.declared.enclosures.Box3.{Box3};
ghost use Rattle.fixed_enclosure.specs.declared.enclosures.Sign.{Sign};
ghost use Rattle.fixed_enclosure.specs.Places.{Span3, spans_of};
ghost use Rattle.fixed_enclosure.specs.Spans.{box_of, Holds};
ghost use Rattle.fixed_enclosure.specs.Values.{sign_of};
ghost use Rattle.csg_primitives.specs.Sharpness.{IsSharp, point_cube};
ghost use Rattle.csg_primitives.specs.WrittenMargins.{written_margins};
ghost use Rattle.affine_pull.specs.Chains.{chain_of, spans_through};
ghost use Rattle.solid_eval.specs.Solids.{solid_of, HasPrimitive};
ghost use Rattle.solid_eval.specs.Causes.{HasCause};
ghost use Rattle.solid_eval.specs.Classes.{place_class};
ghost use Rattle.solid_eval.specs.Written.{written};

/// The leaf of a verdict is 0 exactly where the class isn't `Mixed`, and else the number of one of
/// the primitives of which the entity is made.
pub fn leaves()
    ensures verdict { (rows : List Entity) (e : ℕ) (s : Span3) →
        IsVerdict (written (solid_of rows e) s) }
    ensures none { (rows : List Entity) (e : ℕ) (s : Span3) →
        ((written (solid_of rows e) s).leaf ≡ 0) ↔
        ((written (solid_of rows e) s).class ≢ Class.Mixed) }
    ensures own { (rows : List Entity) (e : ℕ) (s : Span3) →
        (written (solid_of rows e) s).class ≡ Class.Mixed →
        HasPrimitive (solid_of rows e) (written (solid_of rows e) s).leaf }
{}

/// The cause of an open verdict: its leaf is a primitive with a use over whose spans it is
/// open itself, since one of its own margins may be 0 there. A primitive is open exactly where none
/// of its margins is negative and one may be 0.
pub fn causes()
    ensures open_use { (rows : List Entity) (e : ℕ) (s : Span3) →
        HasCause rows e s (written (solid_of rows e) s) }
    ensures primitive { (rows : List Entity) (e matrix : ℕ) (p : Primitive) (s : Span3) →
        row_at rows e ≡ row.Prim p matrix →
        let margins = written_margins p (spans_through (chain_of rows matrix) s) in
        (((written (solid_of rows e) s).class ≡ Class.Mixed) ↔
        (All (λ m. sign_of m ≢ Sign.Negative) margins × Any (λ m. Holds 1 m (pos 0)) margins)) }
{}

/// A block, wedge, sphere or cylinder that no matrix moves, with axes along the coordinates, is
/// exact at each point: the verdict over the box of the point alone has the class of the point, and
/// so is open exactly on the boundary.
pub fn sharpness()
    ensures exact { (rows : List Entity) (e : ℕ) (p : Primitive) (at : Vec3) →
        row_at rows e ≡ row.Prim p 0 → IsLawfulPrim p → IsSharp p → IsPointWithin far at →
        (written (solid_of rows e) (spans_of (box_of (point_cube at)))).class ≡
        place_class 1 (solid_of rows e) at }
    ensures boundary { (rows : List Entity) (e : ℕ) (p : Primitive) (at : Vec3) →
        row_at rows e ≡ row.Prim p 0 → IsLawfulPrim p → IsSharp p → IsPointWithin far at →
        (((written (solid_of rows e) (spans_of (box_of (point_cube at)))).class ≡ Class.Mixed) ↔
        (place_class 1 (solid_of rows e) at ≡ Class.Mixed)) }
{}

/// Different boxes have different spans, so that a box and its spans may stand for each other: a
/// verdict that is kept for a box is that over its spans and over no others.
pub fn boxes()
    ensures one_to_one { (a b : Box3) → spans_of a ≡ spans_of b → a ≡ b }
{}
