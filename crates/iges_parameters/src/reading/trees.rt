ghost use Rattle.std.specs.Prelude.{◌≡◌, ◌<◌, ◌≤◌, ◌+◌, ◌-◌, ◌^◌, ◌++◌, ◌∷◌, [], List, length};
ghost use Rattle.std.specs.Prelude.{IfOk, unsigned_abs};
ghost use Rattle.std.specs.List.{AllByRecursion};
ghost use Rattle.solid_base.specs.declared.solids.Item.{Item};
ghost use Rattle.solid_base.specs.Trees.{IsPostOrder};
ghost use Rattle.solid_base.specs.Ranges.{IsLawfulItem};
ghost use Rattle.solid_base.specs.Outcomes.{Gives};
ghost use Rattle.iges_parameters.specs.Faults.{GivesOrMemory};
ghost use Rattle.iges_parameters.specs.Rules.{Moves};
ghost use Rattle.boolean_tree.specs.Spelling.{trees_of_items};
ghost use Rattle.iges_parameters.specs.Lists.{item_with, item_at, items_from, tree_at};

use crate::faults::RowFault;
use crate::reading::counts::count;
use crate::reading::parameters::Parameters;
use crate::reading::whole::whole_of;
use solid_base::{Item, Items};
use std::alloc::Global;

/// The parameter that says how many items there are.
const NUMBER_OF_ITEMS: u32 = 1;

/// The item with this number after items that are so many trees, and how many trees there are with
/// it. BadPostfix where a number from 0 on is no operation, or fewer than two trees stand before
/// it.
#[tactic(auto, unfolding(crate::specs::Lists::item_with))]
fn item_with(index: u32, trees: u32, number: i128) -> Result<(Item, u32), RowFault>
    requires trees { trees < 2 ^ 32 - 1 }
    requires within { unsigned_abs number ≤ 9999999 }
    ensures value { (before : List Item) → trees ≡ length (trees_of_items before) →
        Gives (λ x. x.0) result (item_with index before number) }
    ensures trees { IfOk result (λ x. (before : List Item) →
        trees ≡ length (trees_of_items before) →
        x.1 ≡ length (trees_of_items (before ++ x.0 ∷ []))) }
    ensures within { IfOk result (λ x. x.1 ≤ trees + 1) }
{
    if number < 0 {
        return Ok((Item::Operand(number.unsigned_abs() as u32), trees + 1));
    }
    if trees < 2 {
        return Err(RowFault::BadPostfix(index));
    }
    let item = match number {
        1 => Item::Join,
        2 => Item::Meet,
        3 => Item::Less,
        _ => return Err(RowFault::BadPostfix(index)),
    };
    Ok((item, trees - 1))
}

/// The next item after items that are so many trees, and how many trees there are with it.
#[tactic(auto, unfolding(crate::specs::Lists::item_at))]
fn next_item(parameters: &mut Parameters, trees: u32) -> Result<(Item, u32), RowFault>
    requires index { parameters.now.index < 2 ^ 32 - 1 }
    requires trees { trees < 2 ^ 32 - 1 }
    ensures value { (before : List Item) → trees ≡ length (trees_of_items before) →
        Gives (λ x. (x.0, parameters.new)) result (item_at before parameters.old) }
    ensures trees { IfOk result (λ x. (before : List Item) →
        trees ≡ length (trees_of_items before) →
        x.1 ≡ length (trees_of_items (before ++ x.0 ∷ []))) }
    ensures within { IfOk result (λ x. x.1 ≤ trees + 1) }
    ensures moves { IfOk result (λ x. Moves 1 parameters.old parameters.new) }
{
    let index = parameters.index();
    let field = parameters.token()?;
    let number = whole_of(index, &field)?;
    item_with(index, trees, number)
}

/// So many items in post-order. BadPostfix 1 where they leave other than one tree.
fn items(alloc: Global, parameters: &mut Parameters, count: u32) -> Result<Items, RowFault>
    requires count { count ≤ 9999999 }
    requires near { parameters.now.index < 2 ^ 31 }
    ensures value { GivesOrMemory (λ items. (items, parameters.new)) result
        (items_from count [] parameters.old) }
    ensures moves { IfOk result (λ items. Moves (length items) parameters.old parameters.new) }
    ensures long { IfOk result (λ items. length items ≡ count) }
    ensures lawful { IfOk result (λ items. AllByRecursion IsLawfulItem items) }
    ensures tree { IfOk result (λ items. IsPostOrder items) }
{
    let mut items = Items::new(alloc);
    let mut trees = 0;
    for _ in 0..count {
        let (item, after) = next_item(parameters, trees)?;
        items.push(item)?;
        trees = after;
    }
    if trees != 1 {
        return Err(RowFault::BadPostfix(NUMBER_OF_ITEMS));
    }
    Ok(items)
}

/// The items of a Boolean tree in post-order (IGES 5.3, type 180): their number, and each item,
/// which is the number of an entity below 0 for an operand, and 1, 2 or 3 for the union, the
/// intersection and the difference of the two trees before it.
///
/// BadSize comes where the number of items isn't above 0, BadPostfix with its index at an item that
/// is another number, and at an operation with fewer than two trees before it. The faults of an
/// item come in the order of its index, and then BadPostfix 1 where the items leave other than one
/// tree.
#[tactic(auto, unfolding(crate::specs::Lists::tree_at))]
pub fn tree(alloc: Global, parameters: &mut Parameters) -> Result<Items, RowFault>
    requires near { parameters.now.index < 2 ^ 30 }
    ensures value { GivesOrMemory (λ items. (items, parameters.new)) result
        (tree_at parameters.old) }
    ensures moves { IfOk result (λ items. Moves (length items + 1) parameters.old parameters.new) }
    ensures long { IfOk result (λ items. length items ≤ 9999999) }
    ensures lawful { IfOk result (λ items. AllByRecursion IsLawfulItem items) }
    ensures tree { IfOk result (λ items. IsPostOrder items) }
{
    let count = count(parameters)?;
    items(alloc, parameters, count)
}
