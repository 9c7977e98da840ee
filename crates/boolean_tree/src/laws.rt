ghost use Rattle.std.specs.Prelude.{◌≡◌, ◌↔◌, ◌-◌, ℕ, max, min};
ghost use Rattle.std.specs.Prelude.{List, [], ◌∷◌, ◌++◌, length, take};
ghost use Rattle.std.specs.List.{AllByRecursion};
ghost use Rattle.solid_base.specs.declared.classes.Class.{Class};
ghost use Rattle.solid_base.specs.declared.classes.Verdict.{Verdict};
ghost use Rattle.solid_base.specs.declared.solids.Item.{Item};
ghost use Rattle.solid_base.specs.Classes.{IsVerdict};
ghost use Rattle.solid_base.specs.Trees.{Operation, Tree, post_order, IsPostOrder, IsFront};
ghost use Rattle.boolean_tree.specs.Faults.{LacksOperands, LeavesOthers};
ghost use Rattle.boolean_tree.specs.Spelling.{trees_of_items};
ghost use Rattle.boolean_tree.specs.Stacks.{StackBecomes};
ghost use Rattle.boolean_tree.specs.Verdicts.{rank, join_of, meet_of, reversed, class_of, Decides};
ghost use Rattle.boolean_tree.specs.Verdicts.{verdict_of, operand_count, folded};

/// A list is the post-order of at most one tree.
pub fn spells_one_tree()
    ensures { (tree other : Tree) → post_order tree ≡ post_order other → tree ≡ other }
{}

/// An operation that lacks operands is the first item after which no tree is possible: some tree
/// begins with the items before it, and none with these and the operation.
pub fn ends_the_last_front()
    ensures { (n : ℕ) (items : List Item) → LacksOperands n items →
        IsFront (take (n - 2) items) × (¬ IsFront (take (n - 1) items)) }
{}

/// A list that leaves no tree or several is no tree, but some tree begins with its items.
pub fn ends_too_early()
    ensures { (items : List Item) → LeavesOthers items → IsFront items × (¬ IsPostOrder items) }
{}

/// In their order a union has the greater of two classes and an intersection the lesser; what a
/// solid leaves out has the class at the other end.
pub fn order()
    ensures join { (a b : Class) → rank (join_of a b) ≡ max (rank a) (rank b) }
    ensures meet { (a b : Class) → rank (meet_of a b) ≡ min (rank a) (rank b) }
    ensures reversed { (a : Class) → rank (reversed a) ≡ 2 - rank a }
{}

/// Classes that decide others decide them through each operation too.
pub fn deciding()
    ensures { (o : Operation) (k l c d : Class) → Decides k c → Decides l d →
        Decides (class_of o k l) (class_of o c d) }
{}

/// Where each operand of a tree's list pushes its verdict and each operation takes the last two, a
/// stack gains exactly the verdict on the tree, at its end.
pub fn gains_one_verdict()
    ensures { (tree : Tree) (leaves stack after : List Verdict) →
        length leaves ≡ operand_count tree →
        StackBecomes after (post_order tree) leaves stack ↔
        (after ≡ stack ++ folded tree leaves ∷ []) }
{}

/// The trees that a tree's own list spells are that tree alone.
pub fn spelling()
    ensures { (tree : Tree) → trees_of_items (post_order tree) ≡ tree ∷ [] }
{}

/// The leaf of an operation's result, and of a tree, names a primitive exactly where its class is
/// mixed, where those of its sides and operands do.
pub fn leaves()
    ensures operation { (o : Operation) (a b : Verdict) → IsVerdict a → IsVerdict b →
        IsVerdict (verdict_of o a b) }
    ensures tree { (tree : Tree) (leaves : List Verdict) → AllByRecursion IsVerdict leaves →
        IsVerdict (folded tree leaves) }
{}
