ghost use Rattle.std.specs.Prelude.{◌≡◌, ◌++◌, ◌<◌, ℕ, suc, ℤ, List, Some, codes, decimal};
ghost use Rattle.std.specs.List.{AllByRecursion};
ghost use Rattle.solid_base.specs.declared.entities.Entity.{Entity};
ghost use Rattle.solid_base.specs.declared.entities.Model.{Model};
ghost use Rattle.solid_base.specs.declared.geometry.Cube.{Cube};
ghost use Rattle.solid_base.specs.declared.geometry.Vec3.{Vec3};
ghost use Rattle.solid_base.specs.Ranges.{IsLawfulRow};
ghost use Rattle.fixed_enclosure.specs.Spans.{BoxHolds, box_of};
ghost use Rattle.csg_primitives.specs.Sharpness.{point_cube};
ghost use Rattle.solid_questions.specs.declared.questions.Question.{Question};
ghost use Rattle.solid_questions.specs.declared.questions.Question.TheVariants as question;
ghost use Rattle.solid_questions.specs.Bodies.{bounds_words, volume_words};
ghost use Rattle.solid_questions.specs.Questions.{IsLawful};
ghost use Rattle.solid_questions.specs.QuestionCells.{all_cells, section_cell};
ghost use Rattle.ask_core.specs.Answers.{IsAnswer, Evaluates};
ghost use Rattle.ask_core.specs.Meanings.{IsInsideAt, IsOutsideAt, IsAllInside, IsAllOutside};
ghost use Rattle.ask_core.specs.Meanings.{IsOpenAt, AreCounted, byte_at};

/// A point that is answered `INSIDE` is inside the entity by the exact inequalities of the rows,
/// and lies in its interior; one answered `OUTSIDE` is outside and lies in its exterior.
/// `UNDECIDED` is followed by the number of a primitive of which some use is open at the point.
pub fn points()
    ensures inside { (model : Model) (e : ℕ) (at : Vec3) (text : List ℕ) →
        AllByRecursion (λ e. IsLawfulRow e.row) model.rows →
        IsAnswer model (question.Point e at) text →
        text ≡ codes "INSIDE" → IsInsideAt model.rows e 1 at }
    ensures outside { (model : Model) (e : ℕ) (at : Vec3) (text : List ℕ) →
        AllByRecursion (λ e. IsLawfulRow e.row) model.rows →
        IsAnswer model (question.Point e at) text →
        text ≡ codes "OUTSIDE" → IsOutsideAt model.rows e 1 at }
    ensures undecided { (model : Model) (e : ℕ) (at : Vec3) (text rest : List ℕ) →
        IsAnswer model (question.Point e at) text → text ≡ codes "UNDECIDED " ++ rest →
        (d : ℕ) × (rest ≡ decimal d) × IsOpenAt model.rows e (point_cube at) d }
{}

/// Of a box that is answered `INSIDE`, each place of the closed box, at any finer scale, is inside
/// the entity and lies in its interior; of one answered `OUTSIDE`, each is outside and lies in its
/// exterior. `UNDECIDED` is followed by the number of a primitive of which some use is open over
/// the box.
pub fn boxes()
    ensures inside { (model : Model) (e : ℕ) (cube : Cube) (text : List ℕ) →
        AllByRecursion (λ e. IsLawfulRow e.row) model.rows →
        IsAnswer model (question.Cell e cube) text →
        text ≡ codes "INSIDE" → IsAllInside model.rows e cube }
    ensures outside { (model : Model) (e : ℕ) (cube : Cube) (text : List ℕ) →
        AllByRecursion (λ e. IsLawfulRow e.row) model.rows →
        IsAnswer model (question.Cell e cube) text →
        text ≡ codes "OUTSIDE" → IsAllOutside model.rows e cube }
    ensures undecided { (model : Model) (e : ℕ) (cube : Cube) (text rest : List ℕ) →
        IsAnswer model (question.Cell e cube) text → text ≡ codes "UNDECIDED " ++ rest →
        (d : ℕ) × (rest ≡ decimal d) × IsOpenAt model.rows e cube d }
{}

/// A volume is answered by two counts of the cells of the cube's grid: each cell that is counted
/// in `lower` holds only places that are inside the entity and in its interior, and each that isn't
/// counted in `upper` only places that are outside and in its exterior.
pub fn volumes()
    ensures counts { (model : Model) (e : ℕ) (cube : Cube) (depth : ℕ) (text rest : List ℕ) →
        AllByRecursion (λ e. IsLawfulRow e.row) model.rows →
        IsAnswer model (question.Volume e cube depth) text → text ≡ codes "VOLUME" ++ rest →
        (lower : ℕ) × (upper : ℕ) × (text ≡ volume_words lower upper cube depth)
        × AreCounted model.rows e (all_cells (question.Volume e cube depth)) lower upper }
{}

/// Where the sign in a column of a line of a section is `#`, each place of that whole flat cell, at
/// any finer scale, is inside the entity and lies in its interior; where it is `.`, each is outside
/// and lies in its exterior. Lines and columns are counted from 0, and the first line of the text
/// is its head.
pub fn sections()
    ensures inside { (model : Model) (e nx ny i j : ℕ) (z x0 y0 step : ℤ)
        (text rest : List ℕ) → AllByRecursion (λ e. IsLawfulRow e.row) model.rows →
        IsLawful (question.Section e z x0 y0 step nx ny) →
        IsAnswer model (question.Section e z x0 y0 step nx ny) text →
        text ≡ codes "SECTION" ++ rest → i < nx → j < ny → byte_at text (suc j) i ≡ Some 35 →
        IsAllInside model.rows e (section_cell z x0 y0 step i j) }
    ensures outside { (model : Model) (e nx ny i j : ℕ) (z x0 y0 step : ℤ)
        (text rest : List ℕ) → AllByRecursion (λ e. IsLawfulRow e.row) model.rows →
        IsLawful (question.Section e z x0 y0 step nx ny) →
        IsAnswer model (question.Section e z x0 y0 step nx ny) text →
        text ≡ codes "SECTION" ++ rest → i < nx → j < ny → byte_at text (suc j) i ≡ Some 46 →
        IsAllOutside model.rows e (section_cell z x0 y0 step i j) }
{}

/// Where the extents of an entity within a cube are answered by two corners, each place of the cube
/// that doesn't lie between them, at any finer scale, is outside the entity and lies in its
/// exterior. Where the answer is `EMPTY`, each place of the cube does.
pub fn extents()
    ensures outside { (model : Model) (e : ℕ) (cube : Cube) (depth : ℕ)
        (text rest : List ℕ) → AllByRecursion (λ e. IsLawfulRow e.row) model.rows →
        IsLawful (question.Bounds e cube depth) →
        IsAnswer model (question.Bounds e cube depth) text → text ≡ codes "BOUNDS" ++ rest →
        (found : Cube) × (text ≡ bounds_words found) × ((m : ℕ) (at : Vec3) → 0 < m →
        BoxHolds m (box_of cube) at → ¬ BoxHolds m (box_of found) at →
        IsOutsideAt model.rows e m at) }
    ensures empty { (model : Model) (e : ℕ) (cube : Cube) (depth : ℕ) (text : List ℕ) →
        AllByRecursion (λ e. IsLawfulRow e.row) model.rows →
        IsLawful (question.Bounds e cube depth) →
        IsAnswer model (question.Bounds e cube depth) text → text ≡ codes "EMPTY" →
        IsAllOutside model.rows e cube }
{}

/// Each question has one answer on a model, and one alone, which takes one number of evaluations.
pub fn one_answer()
    ensures some { (model : Model) (q : Question) →
        (text : List ℕ) × IsAnswer model q text }
    ensures once { (model : Model) (q : Question) (a b : List ℕ) →
        IsAnswer model q a → IsAnswer model q b → a ≡ b }
    ensures some_count { (rows : List Entity) (q : Question) → (n : ℕ) × Evaluates rows q n }
    ensures count_once { (rows : List Entity) (q : Question) (m n : ℕ) →
        Evaluates rows q m → Evaluates rows q n → m ≡ n }
{}
