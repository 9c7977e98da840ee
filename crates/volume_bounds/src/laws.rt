ghost use Rattle.std.specs.Prelude.{◌≡◌, ◌⊎◌, ◌*◌, ◌<◌, ◌≤◌, ℕ};
ghost use Rattle.std.specs.Prelude.{List};
ghost use Rattle.solid_base.specs.declared.geometry.Cube.{Cube};
ghost use Rattle.solid_base.specs.declared.classes.Verdict.{Verdict};
ghost use Rattle.volume_bounds.specs.declared.cells.Cell.{Cell};
ghost use Rattle.volume_bounds.specs.Cells.{parts_of, most_depth, cell_of, place_of, corner};
ghost use Rattle.volume_bounds.specs.Cells.{IsCell, IsGridCube};
ghost use Rattle.volume_bounds.specs.Extents.{AllOutside, IsExtent};

/// Each cell of a grid stands once in the order of cells, and each place is that of a cell.
pub fn order()
    ensures there { (parts : ℕ) (c : Cell) → IsCell parts c →
        place_of parts c < parts * parts * parts }
    ensures cell { (parts : ℕ) (c : Cell) → IsCell parts c → cell_of parts (place_of parts c) ≡ c }
    ensures place { (parts place : ℕ) → 0 < parts → place < parts * parts * parts →
        place_of parts (cell_of parts place) ≡ place }
{}

/// The cells of a grid fill the cube: its first corner is the cube's, and its last one too.
pub fn filling()
    ensures first { (cube : Cube) (parts : ℕ) → corner cube parts 0 0 0 ≡ cube.lo }
    ensures last { (cube : Cube) (depth : ℕ) → IsGridCube cube → depth ≤ most_depth →
        corner cube (parts_of depth) (parts_of depth) (parts_of depth) (parts_of depth) ≡ cube.hi }
{}

/// The cells have one extent, or all are outside, and never both.
pub fn one_extent()
    ensures some { (verdicts : List Verdict) (cube : Cube) (parts : ℕ) →
        ((found : Cube) × IsExtent verdicts cube parts found) ⊎ AllOutside verdicts }
    ensures once { (verdicts : List Verdict) (cube a b : Cube) (parts : ℕ) →
        IsExtent verdicts cube parts a → IsExtent verdicts cube parts b → a ≡ b }
    ensures apart { (verdicts : List Verdict) (cube found : Cube) (parts : ℕ) →
        IsExtent verdicts cube parts found → AllOutside verdicts → ⊥ }
{}
