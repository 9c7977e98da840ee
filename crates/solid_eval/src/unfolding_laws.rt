ghost use Rattle.std.specs.Prelude.{◌≡◌, ◌≤◌, ℕ, List};
ghost use Rattle.std.specs.List.{AllByRecursion};
ghost use Rattle.solid_base.specs.declared.entities.Entity.{Entity};
ghost use Rattle.solid_base.specs.Graph.{AreSound, weight_of};
ghost use Rattle.solid_base.specs.Ranges.{IsLawfulRow};
ghost use Rattle.solid_base.specs.References.{row_at};
ghost use Rattle.solid_base.specs.Trees.{Tree, post_order};
ghost use Rattle.affine_pull.specs.Chains.{chain_of};
ghost use Rattle.entity_graph.specs.Opaque.{ReachesOpaque};
ghost use Rattle.solid_eval.specs.Solids.{Solid, solid_of_items, tree_solid};
ghost use Rattle.solid_eval.specs.Solids.{row_solid, solid_of};
ghost use Rattle.solid_eval.specs.Uses.{leaf_count};

/// Where the references obey the rules no level is counted: the solid of an entity is made of those
/// of the entities that it names.
pub fn levels()
    ensures { (rows : List Entity) (e : ℕ) → AreSound rows →
        solid_of rows e ≡ row_solid (chain_of rows) (solid_of rows) e (row_at rows e) }
{}

/// The solid that a tree's own list spells is that of the tree.
pub fn spelling()
    ensures { (child : ℕ → Solid) (tree : Tree) →
        solid_of_items child (post_order tree) ≡ tree_solid child tree }
{}

/// An entity's solid is made of at most as many primitives as the entity weighs, and of exactly so
/// many where it reaches nothing unread.
pub fn counts()
    ensures most { (rows : List Entity) (e : ℕ) → leaf_count (solid_of rows e) ≤ weight_of rows e }
    ensures exact { (rows : List Entity) (e : ℕ) → AllByRecursion (λ e. IsLawfulRow e.row) rows →
        ((k : ℕ) → ¬ ReachesOpaque rows e k) → leaf_count (solid_of rows e) ≡ weight_of rows e }
{}
