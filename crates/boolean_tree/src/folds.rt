ghost use Rattle.std.specs.Prelude.{◌≡◌, ◌+◌, ◌≤◌, List, [], ◌∷◌, ◌++◌, length};
ghost use Rattle.std.specs.List.{AllByRecursion};
ghost use Rattle.solid_base.specs.declared.classes.Verdict.{Verdict};
ghost use Rattle.solid_base.specs.Classes.{IsVerdict};
ghost use Rattle.solid_base.specs.Trees.{Operation, Tree, item_of, post_order, IsPostOrder};
ghost use Rattle.solid_base.specs.References.{operands_of};
ghost use Rattle.boolean_tree.specs.Verdicts.{verdict_of, folded, IsOperation};

use crate::operations::operate;
use solid_base::{Item, Items, Verdict, Verdicts};

/// Replaces the last two verdicts of the stack by that on the result of an operation on them, which
/// leaves room for one verdict more. Where the verdict on each operand of a tree's list is pushed
/// and each operation applied, in their order, the stack gains exactly the verdict that `fold`
/// answers: the law `laws::gains_one_verdict`.
pub fn apply(item: &Item, stack: &mut Verdicts)
    requires operation { IsOperation item.now }
    requires two { 2 ≤ length stack.old.list }
    ensures verdict { (o : Operation) (below : List Verdict) (a b : Verdict) →
        item.now ≡ item_of o → stack.old.list ≡ below ++ a ∷ b ∷ [] →
        stack.new.list ≡ below ++ verdict_of o a b ∷ [] }
    ensures leaves { AllByRecursion IsVerdict stack.old.list →
        AllByRecursion IsVerdict stack.new.list }
    ensures spare { stack.new.spare ≡ stack.old.spare + 1 }
{
    let b = stack.pop().unwrap();
    let a = stack.pop().unwrap();
    stack.push(operate(item, &a, &b)).unwrap();
}

/// How many operands a list has: a fold of it takes so many verdicts.
pub fn operand_count(items: &Items) -> usize
    ensures { result ≡ length (operands_of items.now) }
{
    let mut count: usize = 0;
    for item in items.as_slice() {
        if let Item::Operand(_) = item {
            count += 1;
        }
    }
    count
}

/// The verdict on the tree that a list spells, from those on its operands in order. No memory is
/// taken.
pub fn fold(items: &Items, leaves: &[Verdict], stack: &mut Verdicts) -> Verdict
    requires tree { IsPostOrder items.now }
    requires leaves { length leaves.now ≡ length (operands_of items.now) }
    requires room { length leaves.now ≤ stack.old.spare }
    ensures verdict { (tree : Tree) → items.now ≡ post_order tree →
        result ≡ folded tree leaves.now }
    ensures leaf { AllByRecursion IsVerdict leaves.now → IsVerdict result }
    ensures kept { stack.new ≡ stack.old }
{
    let mut next: usize = 0;
    for item in items.as_slice() {
        match item {
            Item::Operand(_) => {
                stack.push(leaves[next]).unwrap();
                next += 1;
            }
            Item::Join | Item::Meet | Item::Less => apply(item, stack),
        }
    }
    stack.pop().unwrap()
}

#[cfg(test)]
mod tests {
    use super::*;
    use crate::items::check_items;
    use solid_base::Class;
    use std::alloc::AllocError;

    const OUTSIDE: Verdict = Verdict {
        class: Class::Outside,
        leaf: 0,
    };

    const INSIDE: Verdict = Verdict {
        class: Class::Inside,
        leaf: 0,
    };

    const ONE: Verdict = Verdict {
        class: Class::Mixed,
        leaf: 1,
    };

    const TWO: Verdict = Verdict {
        class: Class::Mixed,
        leaf: 3,
    };

    #[test]
    fn folds_three_operands(rt: HostRuntime) -> Result<(), AllocError> {
        let operand = Item::Operand(1);
        // Operations, and the verdicts on three operands: a - (b + c), then (a * b) - c.
        let cases = [
            ([Item::Join, Item::Less], [INSIDE, OUTSIDE, OUTSIDE], INSIDE),
            ([Item::Join, Item::Less], [INSIDE, OUTSIDE, INSIDE], OUTSIDE),
            ([Item::Join, Item::Less], [INSIDE, TWO, ONE], TWO),
            ([Item::Join, Item::Less], [ONE, TWO, OUTSIDE], ONE),
            ([Item::Meet, Item::Less], [INSIDE, ONE, OUTSIDE], ONE),
            ([Item::Meet, Item::Less], [ONE, OUTSIDE, TWO], OUTSIDE),
        ];
        let mut stack = Verdicts::new(rt.alloc());
        stack.push(TWO)?;
        for (operations, leaves, want) in cases {
            let [first, second] = operations;
            let list = if first == Item::Join {
                [operand, operand, operand, first, second]
            } else {
                [operand, operand, first, operand, second]
            };
            let items = Items::from_vec(Vec::from_slice(rt.alloc(), list.as_slice())?);
            assert!(rt; items.len() < 100);
            assert!(rt; check_items(&items).is_none() && operand_count(&items) == 3);
            stack.reserve(3)?;
            assert_eq!(rt;
                fold(&items, leaves.as_slice(), &mut stack),
                want,
                "{operations:?} on {leaves:?}"
            );
        }
        assert_eq!(rt; stack.as_slice(), [TWO].as_slice());
        Ok(())
    }
}
