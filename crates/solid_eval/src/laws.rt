ghost use Rattle.std.specs.Prelude.{◌≡◌, ◌≢◌, ◌↔◌, ◌<◌, ℕ, List};
ghost use Rattle.std.specs.List.{AllByRecursion};
ghost use Rattle.solid_base.specs.declared.classes.Class.{Class};
ghost use Rattle.solid_base.specs.declared.entities.Entity.{Entity};
ghost use Rattle.solid_base.specs.declared.geometry.Vec3.{Vec3};
ghost use Rattle.solid_base.specs.Ranges.{IsLawfulRow};
ghost use Rattle.solid_base.specs.References.{Reaches};
ghost use Rattle.fixed_enclosure.specs.declared.enclosures.Box3.{Box3};
ghost use Rattle.fixed_enclosure.specs.Places.{Span3, spans_of};
ghost use Rattle.fixed_enclosure.specs.Spans.{BoxHolds, IsBox, IsBoxIn, box_of};
ghost use Rattle.csg_primitives.specs.Sharpness.{point_cube};
ghost use Rattle.solid_eval.specs.Solids.{solid_of};
ghost use Rattle.solid_eval.specs.Classes.{place_class};
ghost use Rattle.solid_eval.specs.Interior.{IsInterior, IsExterior};
ghost use Rattle.solid_eval.specs.Written.{written};
ghost use Rattle.solid_eval.specs.Locality.{Agree};

/// The class that the verdict over a box shows is that of each place in the box: a place whose
/// coordinates are counted in parts, of which `m` are one step.
pub fn enclosure()
    ensures inside { (m : ℕ) (rows : List Entity) (e : ℕ) (box : Box3) (at : Vec3) → 0 < m →
        AllByRecursion (λ e. IsLawfulRow e.row) rows → BoxHolds m box at →
        (written (solid_of rows e) (spans_of box)).class ≡ Class.Inside →
        place_class m (solid_of rows e) at ≡ Class.Inside }
    ensures outside { (m : ℕ) (rows : List Entity) (e : ℕ) (box : Box3) (at : Vec3) → 0 < m →
        AllByRecursion (λ e. IsLawfulRow e.row) rows → BoxHolds m box at →
        (written (solid_of rows e) (spans_of box)).class ≡ Class.Outside →
        place_class m (solid_of rows e) at ≡ Class.Outside }
{}

/// A verdict whose class isn't `Mixed` is that over each box within.
pub fn isotone()
    ensures within { (rows : List Entity) (e : ℕ) (inner outer : Box3) →
        AllByRecursion (λ e. IsLawfulRow e.row) rows → IsBox inner → IsBoxIn inner outer →
        (written (solid_of rows e) (spans_of outer)).class ≢ Class.Mixed →
        written (solid_of rows e) (spans_of inner) ≡ written (solid_of rows e) (spans_of outer) }
{}

/// An entity depends on nothing but the rows that it reaches: in two models that have the same
/// rows at all that it reaches in the first, it reaches the same rows and has the same solid, so
/// the same verdict over each box, and each place has the same class.
pub fn local()
    ensures reached { (rows others : List Entity) (e k : ℕ) → Agree rows others e →
        (Reaches rows e k ↔ Reaches others e k) }
    ensures solid { (rows others : List Entity) (e : ℕ) → Agree rows others e →
        solid_of rows e ≡ solid_of others e }
    ensures verdict { (rows others : List Entity) (e : ℕ) (s : Span3) → Agree rows others e →
        written (solid_of rows e) s ≡ written (solid_of others e) s }
    ensures class { (rows others : List Entity) (e m : ℕ) (at : Vec3) → Agree rows others e →
        place_class m (solid_of rows e) at ≡ place_class m (solid_of others e) at }
{}

/// A place is inside an entity exactly where it lies in its interior, and outside exactly where it
/// lies in its exterior: where all places in a neighbourhood of it are so, at every finer scale.
/// Where the verdict over a box is `Inside`, each place in the box lies in the interior, and where
/// it is `Outside`, in the exterior; and so does the point of a box that is a single point.
pub fn interior()
    ensures inside { (m : ℕ) (rows : List Entity) (e : ℕ) (at : Vec3) →
        (place_class m (solid_of rows e) at ≡ Class.Inside) ↔
        IsInterior m (solid_of rows e) at }
    ensures outside { (m : ℕ) (rows : List Entity) (e : ℕ) (at : Vec3) →
        (place_class m (solid_of rows e) at ≡ Class.Outside) ↔
        IsExterior m (solid_of rows e) at }
    ensures inside_box { (m : ℕ) (rows : List Entity) (e : ℕ) (box : Box3) (at : Vec3) → 0 < m →
        AllByRecursion (λ e. IsLawfulRow e.row) rows → BoxHolds m box at →
        (written (solid_of rows e) (spans_of box)).class ≡ Class.Inside →
        IsInterior m (solid_of rows e) at }
    ensures outside_box { (m : ℕ) (rows : List Entity) (e : ℕ) (box : Box3) (at : Vec3) → 0 < m →
        AllByRecursion (λ e. IsLawfulRow e.row) rows → BoxHolds m box at →
        (written (solid_of rows e) (spans_of box)).class ≡ Class.Outside →
        IsExterior m (solid_of rows e) at }
    ensures inside_point { (rows : List Entity) (e : ℕ) (at : Vec3) →
        AllByRecursion (λ e. IsLawfulRow e.row) rows →
        (written (solid_of rows e) (spans_of (box_of (point_cube at)))).class ≡ Class.Inside →
        IsInterior 1 (solid_of rows e) at }
    ensures outside_point { (rows : List Entity) (e : ℕ) (at : Vec3) →
        AllByRecursion (λ e. IsLawfulRow e.row) rows →
        (written (solid_of rows e) (spans_of (box_of (point_cube at)))).class ≡ Class.Outside →
        IsExterior 1 (solid_of rows e) at }
{}
