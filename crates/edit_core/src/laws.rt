ghost use Rattle.std.specs.Prelude.{◌≡◌, ◌⊎◌, ℕ, List};
ghost use Rattle.solid_base.specs.declared.entities.Model.{Model};
ghost use Rattle.iges_parameters.specs.Accepted.{IsAccepted};
ghost use Rattle.edit_core.specs.Batches.{Staged, AreApart, AreLawful};
ghost use Rattle.edit_core.specs.Edits.{IsRefused, IsEdited};

use crate::faults::EditFault;

/// A law on all models, versions and batches in which no number is staged twice: a batch makes one
/// model, or is refused by one first fault, and never both.
pub fn one_outcome()
    ensures some { (model : Model) (v : ℕ) (batch : List Staged) → AreApart batch →
        ((f : EditFault) × IsRefused model v batch f)
        ⊎ ((after : Model) × IsEdited model v batch after) }
    ensures one_fault { (model : Model) (v : ℕ) (batch : List Staged) (f g : EditFault) →
        IsRefused model v batch f → IsRefused model v batch g → f ≡ g }
    ensures one_model { (model : Model) (v : ℕ) (batch : List Staged) (a b : Model) →
        IsEdited model v batch a → IsEdited model v batch b → a ≡ b }
    ensures apart { (model : Model) (v : ℕ) (batch : List Staged) (f : EditFault) (a : Model) →
        IsRefused model v batch f → ¬ IsEdited model v batch a }
{}

/// A law on all models that are served, versions and batches: what an edit makes of such a model is
/// served too.
pub fn accepted_edit()
    ensures { (model : Model) (v : ℕ) (batch : List Staged) (after : Model) →
        IsAccepted model → AreLawful batch → IsEdited model v batch after → IsAccepted after }
{}
