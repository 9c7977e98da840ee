ghost use Rattle.std.specs.Prelude.{◌≡◌, ◌⊎◌, ℕ, List};
ghost use Rattle.solid_base.specs.declared.entities.Model.{Model};
ghost use Rattle.iges_file.specs.declared.faults.FileFault.{FileFault};
ghost use Rattle.iges_file.specs.Files.{Reads, Refused};

/// A law on all bytes: they are a file that is read as one model and ends at one place, or they
/// have one first fault, and never both.
pub fn one_outcome()
    ensures one_of_both { (bytes : List ℕ) →
        ((model : Model) × (end : ℕ) × Reads bytes model end)
        ⊎ ((fault : FileFault) × Refused bytes fault) }
    ensures once { (bytes : List ℕ) (a b : Model) (m n : ℕ) →
        Reads bytes a m → Reads bytes b n → (a ≡ b) × (m ≡ n) }
    ensures first { (bytes : List ℕ) (f g : FileFault) → Refused bytes f → Refused bytes g → f ≡ g }
    ensures apart { (bytes : List ℕ) (model : Model) (end : ℕ) (fault : FileFault) →
        Reads bytes model end → Refused bytes fault → ⊥ }
{}
