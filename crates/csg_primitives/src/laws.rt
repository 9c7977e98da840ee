ghost use Rattle.std.specs.Prelude.{◌≡◌, ◌≢◌, ◌↔◌, ◌<◌, ◌*◌, ℕ, pos};
ghost use Rattle.std.specs.List.{All, Any};
ghost use Rattle.solid_base.specs.declared.geometry.Vec3.{Vec3};
ghost use Rattle.solid_base.specs.declared.classes.Class.{Class};
ghost use Rattle.solid_base.specs.declared.solids.Primitive.{Primitive};
ghost use Rattle.solid_base.specs.Range.{IsPointWithin, far};
ghost use Rattle.solid_base.specs.Ranges.{IsLawfulPrim};
ghost use Rattle.fixed_enclosure.specs.declared.enclosures.Box3.{Box3};
ghost use Rattle.fixed_enclosure.specs.declared.enclosures.Sign.{Sign};
ghost use Rattle.fixed_enclosure.specs.Spans.{Span, Holds, BoxHolds, IsBox, IsBoxIn, box_of};
ghost use Rattle.fixed_enclosure.specs.Values.{sign_of};
ghost use Rattle.csg_primitives.specs.ExactMargins.{primitive_class};
ghost use Rattle.csg_primitives.specs.Neighbours.{IsNear, Around};
ghost use Rattle.csg_primitives.specs.Sharpness.{IsSharp, point_cube};
ghost use Rattle.fixed_enclosure.specs.Places.{spans_of};
ghost use Rattle.csg_primitives.specs.WrittenMargins.{written_margins, written_class};

/// The class that a box shows is that of each place in it: a place whose coordinates are counted in
/// parts, of which `m` are one step.
pub fn soundness()
    ensures inside { (m : ℕ) (p : Primitive) (box : Box3) (at : Vec3) → 0 < m → IsLawfulPrim p →
        BoxHolds m box at → written_class p box ≡ Class.Inside →
        primitive_class m p at ≡ Class.Inside }
    ensures outside { (m : ℕ) (p : Primitive) (box : Box3) (at : Vec3) → 0 < m → IsLawfulPrim p →
        BoxHolds m box at → written_class p box ≡ Class.Outside →
        primitive_class m p at ≡ Class.Outside }
{}

/// The cause of each class. `Mixed` comes exactly where no written margin is negative, and one may
/// be 0; a margin has no sign exactly where it may be 0.
pub fn causes()
    ensures inside { (p : Primitive) (box : Box3) → (written_class p box ≡ Class.Inside) ↔
        All (λ s. sign_of s ≡ Sign.Positive) (written_margins p (spans_of box)) }
    ensures outside { (p : Primitive) (box : Box3) → (written_class p box ≡ Class.Outside) ↔
        Any (λ s. sign_of s ≡ Sign.Negative) (written_margins p (spans_of box)) }
    ensures mixed { (p : Primitive) (box : Box3) → (written_class p box ≡ Class.Mixed) ↔
        (All (λ s. sign_of s ≢ Sign.Negative) (written_margins p (spans_of box)) ×
        Any (λ s. Holds 1 s (pos 0)) (written_margins p (spans_of box))) }
    ensures no_sign { (s : Span) → (sign_of s ≡ Sign.Open) ↔ Holds 1 s (pos 0) }
{}

/// A class other than `Mixed` is that of each box within.
pub fn nesting()
    ensures isotone { (p : Primitive) (inner outer : Box3) → IsLawfulPrim p → IsBox inner →
        IsBoxIn inner outer → written_class p outer ≢ Class.Mixed →
        written_class p inner ≡ written_class p outer }
{}

/// At a single point, with axes along the coordinates, the class of a block, a wedge, a cylinder or
/// a sphere is exact.
pub fn sharpness()
    ensures exact { (p : Primitive) (at : Vec3) → IsLawfulPrim p → IsSharp p
        → IsPointWithin far at →
        written_class p (box_of (point_cube at)) ≡ primitive_class 1 p at }
{}

/// A place lies inside a primitive exactly where all places in a neighbourhood of it do, at every
/// finer scale, and outside exactly where all these lie outside. The place is counted in parts, of
/// which `m` are one step, and each place near it in parts that are `n` times finer.
pub fn interior()
    ensures inside { (m : ℕ) (p : Primitive) (at : Vec3) →
        (primitive_class m p at ≡ Class.Inside) ↔
        Around at (λ n near. primitive_class (n * m) p near ≡ Class.Inside) }
    ensures outside { (m : ℕ) (p : Primitive) (at : Vec3) →
        (primitive_class m p at ≡ Class.Outside) ↔
        Around at (λ n near. primitive_class (n * m) p near ≡ Class.Outside) }
{}

/// The class of a place is the same however finely its coordinates are counted: in parts, of which
/// `m` are one step, or in parts that are `n` times finer.
pub fn scale()
    ensures { (m n : ℕ) (p : Primitive) (at same : Vec3) → 0 < n → IsNear n 0 at same →
        primitive_class (n * m) p same ≡ primitive_class m p at }
{}
