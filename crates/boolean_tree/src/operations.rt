ghost use Rattle.std.specs.Prelude.{◌≡◌};
ghost use Rattle.solid_base.specs.Classes.{IsVerdict};
ghost use Rattle.solid_base.specs.Trees.{Operation, item_of};
ghost use Rattle.boolean_tree.specs.Verdicts.{join_of, meet_of, reversed, class_of};
ghost use Rattle.boolean_tree.specs.Verdicts.{verdict_of, IsOperation};

use solid_base::{Class, Item, Verdict};

/// The class of a union: the greater of two classes.
pub fn join(a: Class, b: Class) -> Class
    ensures { result ≡ join_of a b }
{
    match (a, b) {
        (Class::Inside, _) | (_, Class::Inside) => Class::Inside,
        (Class::Outside, Class::Outside) => Class::Outside,
        _ => Class::Mixed,
    }
}

/// The class of an intersection: the lesser of two classes.
pub fn meet(a: Class, b: Class) -> Class
    ensures { result ≡ meet_of a b }
{
    match (a, b) {
        (Class::Outside, _) | (_, Class::Outside) => Class::Outside,
        (Class::Inside, Class::Inside) => Class::Inside,
        _ => Class::Mixed,
    }
}

// The class of what a solid leaves out.
fn reverse(class: Class) -> Class
    ensures { result ≡ reversed class }
{
    match class {
        Class::Outside => Class::Inside,
        Class::Mixed => Class::Mixed,
        Class::Inside => Class::Outside,
    }
}

/// The class of a difference: the lesser of a class and what the other one is reversed.
pub fn less(a: Class, b: Class) -> Class
    ensures { result ≡ meet_of a (reversed b) }
{
    meet(a, reverse(b))
}

// The class of an operation's result. An operand makes nothing of its sides.
fn class_after(item: &Item, a: Class, b: Class) -> Class
    ensures { (o : Operation) → item.now ≡ item_of o → result ≡ class_of o a b }
{
    match item {
        Item::Operand(_) => Class::Mixed,
        Item::Join => join(a, b),
        Item::Meet => meet(a, b),
        Item::Less => less(a, b),
    }
}

/// The verdict on an operation's result, from those on its two sides.
pub fn operate(item: &Item, a: &Verdict, b: &Verdict) -> Verdict
    requires { IsOperation item.now }
    ensures verdict { (o : Operation) → item.now ≡ item_of o →
        result ≡ verdict_of o a.now b.now }
    ensures leaf { IsVerdict a.now → IsVerdict b.now → IsVerdict result }
{
    let class = class_after(item, a.class, b.class);
    let leaf = match (class, a.class) {
        (Class::Mixed, Class::Mixed) => a.leaf,
        (Class::Mixed, _) => b.leaf,
        _ => 0,
    };
    Verdict { class, leaf }
}

#[cfg(test)]
mod tests {
    use super::*;

    const OUTSIDE: Class = Class::Outside;

    const MIXED: Class = Class::Mixed;

    const INSIDE: Class = Class::Inside;

    #[test]
    fn classes_of_results(rt: HostRuntime) {
        // Two classes, and those of their union, their intersection and their difference.
        let cases = [
            (OUTSIDE, OUTSIDE, OUTSIDE, OUTSIDE, OUTSIDE),
            (OUTSIDE, MIXED, MIXED, OUTSIDE, OUTSIDE),
            (OUTSIDE, INSIDE, INSIDE, OUTSIDE, OUTSIDE),
            (MIXED, OUTSIDE, MIXED, OUTSIDE, MIXED),
            (MIXED, MIXED, MIXED, MIXED, MIXED),
            (MIXED, INSIDE, INSIDE, MIXED, OUTSIDE),
            (INSIDE, OUTSIDE, INSIDE, OUTSIDE, INSIDE),
            (INSIDE, MIXED, INSIDE, MIXED, MIXED),
            (INSIDE, INSIDE, INSIDE, INSIDE, OUTSIDE),
        ];
        for (a, b, union, intersection, difference) in cases {
            assert_eq!(rt; join(a, b), union, "{a:?} joined with {b:?}");
            assert_eq!(rt; meet(a, b), intersection, "{a:?} met with {b:?}");
            assert_eq!(rt; less(a, b), difference, "{a:?} less {b:?}");
        }
    }
}
