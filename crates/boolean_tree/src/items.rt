ghost use Rattle.std.specs.Prelude.{◌≡◌, ◌↔◌, ◌≤◌, ◌-◌, ◌^◌, ℕ, length};
ghost use Rattle.solid_base.specs.Trees.{IsPostOrder};
ghost use Rattle.boolean_tree.specs.Faults.{IsFault};

use solid_base::{Item, Items};

/// The parameter that says how many items there are.
const NUMBER_OF_ITEMS: u32 = 1;

/// The parameter of the first item.
const FIRST_ITEM: u32 = 2;

/// Tells whether a list is the post-order of one tree: None where it is. Else the index of the
/// record's parameter that is at fault, where parameter 1 is the number of items and the items
/// stand from parameter 2 on: the first operation with fewer than two trees before it, or
/// parameter 1 where the whole list leaves no tree or more than one.
pub fn check_items(items: &Items) -> Option<u32>
    requires { length items.now ≤ 2 ^ 32 - 2 }
    ensures tree { (result ≡ None) ↔ IsPostOrder items.now }
    ensures fault { (n : ℕ) → (result ≡ Some n) ↔ IsFault n items.now }
{
    let mut trees: u32 = 0;
    for (at, item) in items.as_slice().iter().enumerate() {
        match item {
            Item::Operand(_) => trees += 1,
            Item::Join | Item::Meet | Item::Less => {
                if trees < 2 {
                    return Some(at as u32 + FIRST_ITEM);
                }
                trees -= 1;
            }
        }
    }
    if trees == 1 {
        None
    } else {
        Some(NUMBER_OF_ITEMS)
    }
}

#[cfg(test)]
mod tests {
    use super::*;
    use std::alloc::AllocError;

    const A: Item = Item::Operand(1);

    const B: Item = Item::Operand(3);

    const C: Item = Item::Operand(5);

    const JOIN: Item = Item::Join;

    const MEET: Item = Item::Meet;

    const LESS: Item = Item::Less;

    #[test]
    fn finds_where_a_list_stops_to_be_one_tree(rt: HostRuntime) -> Result<(), AllocError> {
        let cases: [(&[Item], Option<u32>); 15] = [
            (&[A], None),
            (&[A, B, LESS], None),
            (&[A, A, MEET], None),
            (&[A, B, C, JOIN, LESS], None),
            (&[A, B, JOIN, C, LESS], None),
            (&[A, B, JOIN, C, A, MEET, LESS], None),
            // Nothing, or several trees, at the end.
            (&[], Some(1)),
            (&[A, B], Some(1)),
            (&[A, B, JOIN, C], Some(1)),
            // An operation before which none or one tree stands.
            (&[JOIN], Some(2)),
            (&[LESS, A, B], Some(2)),
            (&[A, MEET], Some(3)),
            (&[A, B, JOIN, MEET], Some(5)),
            (&[A, B, C, JOIN, LESS, JOIN], Some(7)),
            // The first of several faults.
            (&[A, B, JOIN, MEET, LESS, C, A], Some(5)),
        ];
        for (list, want) in cases {
            let items = Items::from_vec(Vec::from_slice(rt.alloc(), list)?);
            assert!(rt; items.len() < 100);
            assert_eq!(rt; check_items(&items), want, "items {list:?}");
        }
        Ok(())
    }
}
