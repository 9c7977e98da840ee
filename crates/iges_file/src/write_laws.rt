ghost use Rattle.std.specs.Prelude.{◌≡◌, ◌+◌, ◌*◌, ◌++◌, ℕ, List, length};
ghost use Rattle.solid_base.specs.declared.entities.Model.{Model};
ghost use Rattle.iges_parameters.specs.Accepted.{IsAccepted};
ghost use Rattle.iges_write.specs.CanonicalFile.{canonical_text, directory_lines, global_lines};
ghost use Rattle.iges_write.specs.CanonicalFile.{parameter_lines};
ghost use Rattle.iges_file.specs.Files.{Reads};

/// A law on all models that are served: the file that is written of one is read as that very model
/// and no other, and it ends where the text ends. So what `write_model` of iges_write gives, where
/// it has at most 2^25 bytes, `read_model` reads as the same model.
pub fn written_models_read_back()
    ensures read_back { (model : Model) → IsAccepted model →
        Reads (canonical_text model) model (length (canonical_text model)) }
    ensures only { (model other : Model) (end : ℕ) → IsAccepted model →
        Reads (canonical_text model) other end →
        (other ≡ model) × (end ≡ length (canonical_text model)) }
    // Whatever stands after it: nothing after the terminate line is read.
    ensures before { (model : Model) (after : List ℕ) → IsAccepted model →
        Reads (canonical_text model ++ after) model (length (canonical_text model)) }
{}

/// A law on all models that are served: each line of a written file takes 81 bytes.
pub fn written_sizes()
    ensures { (model : Model) → IsAccepted model → length (canonical_text model)
        ≡ 81 * (length model.start + length (global_lines model)
        + length (directory_lines model) + length (parameter_lines model) + 1) }
{}
