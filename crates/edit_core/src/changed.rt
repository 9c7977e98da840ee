ghost use Rattle.std.specs.Prelude.{◌≡◌, ◌≤◌, map, length, IfOk};
ghost use Rattle.edit_core.specs.Versions.{changed_numbers};

use crate::batch::Batch;
use solid_base::Numbers;
use std::alloc::{AllocError, Global};

/// The numbers that are staged, in the places of a batch.
fn staged_numbers(alloc: Global, batch: &Batch) -> Result<Numbers, AllocError>
    ensures { IfOk result (λ numbers. numbers ≡ map (λ s. s.0) batch.now) }
{
    let mut numbers = Numbers::new(alloc);
    for at in 0..batch.len() {
        let (number, _) = batch.get(at);
        numbers.push(number)?;
    }
    Ok(numbers)
}

/// The numbers that an edit changes: those that are staged, and those that are new, by how many
/// rows there are before and after.
pub fn changed_numbers(
    alloc: Global,
    batch: &Batch,
    before: usize,
    after: usize,
) -> Result<Numbers, AllocError>
    requires { after ≤ 100000 }
    ensures { IfOk result (λ numbers. numbers ≡ changed_numbers batch.now before after) }
{
    let mut numbers = staged_numbers(alloc, batch)?;
    for place in before..after {
        numbers.push(place as u32 * 2 + 1)?;
    }
    Ok(numbers)
}
