ghost use Rattle.std.specs.Prelude.{◌≡◌, ◌↔◌, ◌≤◌, ℕ, length, drop, IfOk};
ghost use Rattle.solid_base.specs.References.{references_of, row_at};
ghost use Rattle.entity_graph.specs.FirstFaults.{ArePresent};
ghost use Rattle.entity_graph.specs.Links.{places};
ghost use Rattle.entity_graph.specs.Marks.{IsMarked, IsReached, ReachesMarked};
ghost use Rattle.entity_graph.specs.Order.{IsWhole};

use crate::links::Links;
use crate::marks::Marks;
use crate::tables::number_at;
use solid_base::{List, Reference, Rows, with_references};
use std::alloc::{AllocError, Global};

/// The references after the first ones.
fn after(references: &[Reference], first: usize) -> &[Reference]
    requires { first ≤ length references.now }
    ensures { result.now ≡ drop first references.now }
{
    &references[first..]
}

/// Marks all that the marked rows reach, by an order in which what a row names comes before it.
pub fn mark_reached(
    alloc: Global,
    rows: &Rows,
    order: &[u32],
    marked: Marks,
) -> Result<Marks, AllocError>
    requires few { length rows.now ≤ 100000 }
    requires present { ArePresent rows.now }
    requires whole { IsWhole (places rows.now) order.now }
    requires size { length marked ≡ length rows.now }
    ensures size { IfOk result (λ marks. length marks ≡ length rows.now) }
    ensures reached { IfOk result (λ marks. (k : ℕ) →
        IsMarked marks k ↔ IsReached rows.now marked k) }
{
    let mut marks = marked;
    let mut read = List::new(alloc);
    for left in (0..order.len()).rev() {
        let place = order[left];
        if marks.has(number_at(place)) {
            let before = read.len();
            read = with_references(read, &rows.get(place as usize).row)?;
            marks.mark_references(after(read.as_slice(), before));
        }
    }
    Ok(marks)
}

/// Marks all rows that reach a marked one, by an order in which what a row names comes before it.
/// It takes no memory.
pub fn mark_reaching(links: &Links<'_>, order: &[u32], marked: Marks) -> Marks
    requires few { length links.now ≤ 100000 }
    requires present { ArePresent links.now }
    requires whole { IsWhole (places links.now) order.now }
    requires size { length marked ≡ length links.now }
    ensures size { length result ≡ length links.now }
    ensures reaching { (e : ℕ) → IsMarked result e ↔ ReachesMarked links.now marked e }
{
    let mut marks = marked;
    for place in order {
        if marks.has_any(links.row(*place as usize)) {
            marks.mark(number_at(*place));
        }
    }
    marks
}
