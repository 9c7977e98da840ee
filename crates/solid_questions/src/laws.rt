//! Laws about the cells and the counts of questions, by functions that do nothing.
ghost use Rattle.std.specs.Prelude.{◌≡◌, ◌<◌, ◌≤◌, ◌+◌, ◌*◌, ℕ, List, Some};
ghost use Rattle.std.specs.Prelude.{length, slice_get};
ghost use Rattle.std.specs.List.{AllByRecursion};
ghost use Rattle.solid_base.specs.declared.classes.Verdict.{Verdict};
ghost use Rattle.solid_base.specs.declared.geometry.Cube.{Cube};
ghost use Rattle.solid_base.specs.declared.solids.Row.{Row};
ghost use Rattle.solid_base.specs.Range.{IsCube};
ghost use Rattle.volume_bounds.specs.Counts.{inside_count, not_outside_count};
ghost use Rattle.solid_questions.specs.declared.questions.Question.{Question};
ghost use Rattle.solid_questions.specs.Bodies.{IsBody, class_sign, section_line};
ghost use Rattle.solid_questions.specs.Bodies.{volume_below, volume_above};
ghost use Rattle.solid_questions.specs.Questions.{IsLawful, IsOfRows};
ghost use Rattle.solid_questions.specs.QuestionCells.{all_cells, cell, cell_count};

/// A question's cells are as many as it has, and each stands at its place.
pub fn cell_order()
    ensures count { (q : Question) (n : ℕ) → cell_count q ≡ Some n → length (all_cells q) ≡ n }
    ensures cell { (q : Question) (n place : ℕ) → cell_count q ≡ Some n → place < n →
        slice_get (all_cells q) place ≡ Some (cell q place) }
{}

/// A question that is answered has one text by the row of its entity and the verdicts on its cells,
/// and one alone.
pub fn one_body()
    ensures some { (q : Question) (r : Row) (verdicts : List Verdict) → IsOfRows q →
        (text : List ℕ) × IsBody q r verdicts text }
    ensures once { (q : Question) (r : Row) (verdicts : List Verdict) (a b : List ℕ) →
        IsBody q r verdicts a → IsBody q r verdicts b → a ≡ b }
{}

/// The signs of a section: in the line of the text with `j` lines before it after the head
/// (`section_line`), the sign with `i` signs before it is that of the verdict at the place
/// `i + nx * j`, and there are as many signs as columns.
pub fn section_sign()
    ensures sign { (nx j i : ℕ) (verdicts : List Verdict) (v : Verdict) → i < nx →
        slice_get verdicts (i + nx * j) ≡ Some v →
        slice_get (section_line nx verdicts j) i ≡ Some (class_sign v.class) }
    ensures columns { (nx ny j : ℕ) (verdicts : List Verdict) → length verdicts ≡ nx * ny →
        j < ny → length (section_line nx verdicts j) ≡ nx }
{}

/// The volume that is rounded down is no greater than that rounded up.
pub fn volumes_in_order()
    ensures { (lower upper depth : ℕ) (cube : Cube) → lower ≤ upper →
        volume_below lower cube depth ≤ volume_above upper cube depth }
{}

/// Each cell of a question whose numbers are in their ranges is a box within 100,000 units, with
/// its corners in order.
pub fn cells_near()
    ensures { (q : Question) → IsLawful q → AllByRecursion IsCube (all_cells q) }
{}

/// No more cells lie inside than aren't outside, and no more aren't outside than there are.
pub fn counts_in_order()
    ensures inside { (verdicts : List Verdict) →
        inside_count verdicts ≤ not_outside_count verdicts }
    ensures all { (verdicts : List Verdict) → not_outside_count verdicts ≤ length verdicts }
{}
