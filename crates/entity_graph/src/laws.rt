ghost use Rattle.std.specs.Prelude.{◌≡◌, ◌⊎◌, ℕ, List};
ghost use Rattle.solid_base.specs.declared.entities.Entity.{Entity};
ghost use Rattle.solid_base.specs.Graph.{AreSound};
ghost use Rattle.entity_graph.specs.declared.graph_faults.GraphFault.{GraphFault};
ghost use Rattle.entity_graph.specs.FirstFaults.{IsFault};
ghost use Rattle.entity_graph.specs.Levels.{HasNoLevels};
ghost use Rattle.entity_graph.specs.Stamps.{IsStamp};

/// A law on all rows: their references obey the rules, or have one first fault, and never both.
pub fn one_outcome()
    ensures one_of_both { (rows : List Entity) →
        AreSound rows ⊎ ((f : GraphFault) × IsFault rows f) }
    ensures once { (rows : List Entity) (f g : GraphFault) →
        IsFault rows f → IsFault rows g → f ≡ g }
    ensures apart { (rows : List Entity) (f : GraphFault) → IsFault rows f → ¬ AreSound rows }
{}

/// A law on rows whose references obey the rules: that levels are counted changes no depth and no
/// weight.
pub fn without_levels()
    ensures { (rows : List Entity) → AreSound rows → (e : ℕ) → HasNoLevels rows e }
{}

/// A law on all rows and changes: an entity has one stamp after a change, and no other.
pub fn one_stamp()
    ensures { (rows : List Entity) (changed : List ℕ) (version : ℕ) (old : List ℕ) (e s t : ℕ) →
        IsStamp rows changed version old e s → IsStamp rows changed version old e t → s ≡ t }
{}
