ghost use Rattle.std.specs.Prelude.{◌≡◌, ◌<◌, ◌*◌, ℕ, List};
ghost use Rattle.solid_base.specs.declared.entities.Entity.{Entity};
ghost use Rattle.solid_base.specs.declared.geometry.Vec3.{Vec3};
ghost use Rattle.affine_pull.specs.Matrices.{finer};
ghost use Rattle.solid_eval.specs.Solids.{solid_of};
ghost use Rattle.solid_eval.specs.Classes.{place_class};

/// The class of a place is the same however finely its coordinates are counted: in parts, of which
/// `m` are one step, or in parts that are `n` times finer.
pub fn scale()
    ensures { (m n : ℕ) (rows : List Entity) (e : ℕ) (at : Vec3) → 0 < n →
        place_class (n * m) (solid_of rows e) (finer n at) ≡
        place_class m (solid_of rows e) at }
{}
