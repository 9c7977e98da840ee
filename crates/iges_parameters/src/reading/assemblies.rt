ghost use Rattle.std.specs.Prelude.{◌≡◌, ◌⊎◌, ◌<◌, ◌≤◌, ◌+◌, ◌-◌, ◌*◌, ◌^◌, map, replicate};
ghost use Rattle.std.specs.Prelude.{length, IfOk, pos};
ghost use Rattle.std.specs.List.{AllByRecursion};
ghost use Rattle.solid_base.specs.Ranges.{IsLawfulPlaced};
ghost use Rattle.iges_parameters.specs.Faults.{GivesOrMemory};
ghost use Rattle.iges_parameters.specs.Rules.{Moves, numbers_by};
ghost use Rattle.iges_parameters.specs.Tables.{number, number_or_none};
ghost use Rattle.iges_parameters.specs.Lists.{placed_all, placed_at, assembly_at};

use crate::faults::RowFault;
use crate::reading::counts::count;
use crate::reading::numbers::parameter;
use crate::reading::parameters::Parameters;
use crate::tables::{NUMBER, NUMBER_OR_NONE, Rule};
use solid_base::{Numbers, Placed, PlacedList};
use std::alloc::{AllocError, Global};

/// So many numbers of entities by one rule.
fn numbers(
    alloc: Global,
    parameters: &mut Parameters,
    count: u32,
    rule: &Rule,
) -> Result<Numbers, RowFault>
    requires near { parameters.now.index + count < 2 ^ 32 - 1 }
    requires rule { (rule.now ≡ number) ⊎ (rule.now ≡ number_or_none) }
    ensures value { GivesOrMemory (λ ns. (map (λ n. pos n) ns, parameters.new)) result
        (numbers_by (replicate count rule.now) parameters.old) }
    ensures moves { IfOk result (λ ns. Moves count parameters.old parameters.new) }
    ensures long { IfOk result (λ ns. length ns ≡ count) }
    ensures within { IfOk result (λ ns. AllByRecursion (λ n. n ≤ 9999999) ns) }
{
    let mut numbers = Numbers::new(alloc);
    for _ in 0..count {
        let number = parameter(parameters, rule, &[])?;
        numbers.push(number.unsigned_abs() as u32)?;
    }
    Ok(numbers)
}

/// Items and their matrices, one by one.
fn placed_all(alloc: Global, items: &[u32], matrices: &[u32]) -> Result<PlacedList, AllocError>
    ensures { IfOk result (λ placed. placed
        ≡ placed_all (map (λ n. pos n) items.now) (map (λ n. pos n) matrices.now)) }
{
    let mut placed = PlacedList::new(alloc);
    for (item, matrix) in items.iter().zip(matrices) {
        placed.push(Placed {
            item: *item,
            matrix: *matrix,
        })?;
    }
    Ok(placed)
}

/// So many items and then so many matrices.
#[tactic(auto, unfolding(crate::specs::Lists::placed_at))]
fn placed(alloc: Global, parameters: &mut Parameters, count: u32) -> Result<PlacedList, RowFault>
    requires count { count ≤ 9999999 }
    requires near { parameters.now.index < 2 ^ 31 }
    ensures value { GivesOrMemory (λ items. (items, parameters.new)) result
        (placed_at count parameters.old) }
    ensures moves { IfOk result (λ items. Moves (length items * 2) parameters.old parameters.new) }
    ensures long { IfOk result (λ items. length items ≡ count) }
    ensures lawful { IfOk result (λ items. AllByRecursion IsLawfulPlaced items) }
{
    let items = numbers(alloc, parameters, count, &NUMBER)?;
    let matrices = numbers(alloc, parameters, count, &NUMBER_OR_NONE)?;
    Ok(placed_all(alloc, items.as_slice(), matrices.as_slice())?)
}

/// The items of an assembly (IGES 5.3, type 184): their number, the number of each item's entity,
/// and then the number of each item's matrix, 0 where it is empty.
///
/// BadSize comes where the number of items isn't above 0, Missing where the number of an item is
/// empty, TooFar where the number of an item or a matrix is below 0 or above 9,999,999. The faults
/// come in the order of the indexes.
#[tactic(auto, unfolding(crate::specs::Lists::assembly_at))]
pub fn assembly(alloc: Global, parameters: &mut Parameters) -> Result<PlacedList, RowFault>
    requires near { parameters.now.index < 2 ^ 30 }
    ensures value { GivesOrMemory (λ items. (items, parameters.new)) result
        (assembly_at parameters.old) }
    ensures moves { IfOk result (λ items.
        Moves (length items * 2 + 1) parameters.old parameters.new) }
    ensures some { IfOk result (λ items. 0 < length items) }
    ensures long { IfOk result (λ items. length items ≤ 9999999) }
    ensures lawful { IfOk result (λ items. AllByRecursion IsLawfulPlaced items) }
{
    let count = count(parameters)?;
    placed(alloc, parameters, count)
}
