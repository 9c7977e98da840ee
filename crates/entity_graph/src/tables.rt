ghost use Rattle.std.specs.Prelude.{◌≡◌, ℕ, suc, ◌+◌, ◌*◌, ◌<◌, ◌≤◌, map, min, sum_by, length};
ghost use Rattle.std.specs.Prelude.{slice_index_or, IfOk, MatchOption};
ghost use Rattle.solid_base.specs.References.{HasNumber, target, row_at, operands_of, items_of};
ghost use Rattle.solid_base.specs.Graph.{greatest, row_weight, most_levels, most_weight};
ghost use Rattle.entity_graph.specs.FirstFaults.{ArePresent};
ghost use Rattle.entity_graph.specs.Links.{places};
ghost use Rattle.entity_graph.specs.Order.{IsWhole};
ghost use Rattle.entity_graph.specs.Tables.{entry};
ghost use Rattle.entity_graph.specs.Measures.{least, lesser, number_unread, step, IsReady, Right};

use crate::links::Links;
use solid_base::{Item, MOST_LEVELS, Placed, Reference, Row};
use std::alloc::{AllocError, Global};

/// The greatest weight that an entity may have.
pub const MOST_WEIGHT: u32 = 1 << 20;

/// What a table holds of each row: its depth, but one more than may be where it is greater than
/// that; its weight, likewise; or the first row that it reaches and that isn't read.
#[derive(Clone, Copy, Debug)]
pub enum Measure {
    Depth,
    Weight,
    Opaque,
}

/// The entry of the row with a number, 0 where the table has none.
fn entry(table: &[u32], number: u32) -> u32
    ensures { result ≡ entry table.now number }
{
    match table.get((number / 2) as usize) {
        Some(value) => *value,
        None => 0,
    }
}

/// The greatest entry of the rows that some references name.
fn greatest_entry(table: &[u32], references: &[Reference]) -> u32
    ensures { result ≡ greatest (entry table.now) (map target references.now) }
{
    let mut most = 0;
    for reference in references {
        let next = entry(table, reference.number());
        if next > most {
            most = next;
        }
    }
    most
}

/// The lesser of two numbers of which 0 is none.
fn lesser(a: u32, b: u32) -> u32
    ensures { result ≡ lesser a b }
{
    if a == 0 || (b != 0 && b < a) { b } else { a }
}

/// The least entry but 0 of the rows that some references name.
fn least_entry(table: &[u32], references: &[Reference]) -> u32
    ensures { result ≡ least (entry table.now) (map target references.now) }
{
    let mut first = 0;
    for reference in references {
        first = lesser(first, entry(table, reference.number()));
    }
    first
}

/// A sum of weights, but one more than may be where it is greater than that.
fn plus(total: u32, weight: u32) -> u32
    ensures { result ≡ min (suc most_weight) (total + weight) }
{
    total.saturating_add(weight).min(MOST_WEIGHT + 1)
}

fn operand_weight(table: &[u32], items: &[Item]) -> u32
    ensures { result ≡ min (suc most_weight)
        (sum_by (entry table.now) (map target (operands_of items.now))) }
{
    let mut total = 0;
    for item in items {
        if let Item::Operand(number) = item {
            total = plus(total, entry(table, *number));
        }
    }
    total
}

fn item_weight(table: &[u32], items: &[Placed]) -> u32
    ensures { result ≡ min (suc most_weight)
        (sum_by (entry table.now) (map target (items_of items.now))) }
{
    let mut total = 0;
    for placed in items {
        total = plus(total, entry(table, placed.item));
    }
    total
}

/// The weight of a row, from the entries of those that it names.
fn weight_of_row(table: &[u32], row: &Row) -> u32
    ensures { result ≡ min (suc most_weight) (row_weight (entry table.now) row.now) }
{
    match row {
        Row::Null | Row::Matrix { .. } => 0,
        Row::Opaque { .. } | Row::Prim { .. } => 1,
        Row::Tree { items, .. } => operand_weight(table, items.as_slice()),
        Row::Assembly { items, .. } => item_weight(table, items.as_slice()),
        Row::Instance { child, .. } => plus(0, entry(table, *child)),
    }
}

/// One level more than those below, but one more than may be where it is greater than that.
fn deeper(most: u32) -> u32
    ensures { result ≡ min (suc most_levels) (suc most) }
{
    if most < MOST_LEVELS {
        most + 1
    } else {
        MOST_LEVELS + 1
    }
}

/// The number of the row at a place.
pub fn number_at(place: u32) -> u32
    requires { place < 100000 }
    ensures { result ≡ 2 * place + 1 }
{
    2 * place + 1
}

/// The number of a row that isn't read, 0 where it is read.
fn number_unread(row: &Row, number: u32) -> u32
    ensures { result ≡ number_unread number row.now }
{
    match row {
        Row::Opaque { .. } => number,
        _ => 0,
    }
}

impl Measure {
    /// The entry of the row at a place, from the entries of those that it names.
    fn entry_of(self, table: &[u32], links: &Links<'_>, place: u32) -> u32
        requires few { length links.now ≤ 100000 }
        requires inside { place < length links.now }
        ensures { result ≡
            step self links.now (entry table.now) (2 * place + 1) }
    {
        let at = place as usize;
        let row = &links.rows().get(at).row;
        match self {
            Measure::Depth => deeper(greatest_entry(table, links.row(at))),
            Measure::Weight => weight_of_row(table, row),
            Measure::Opaque => lesser(
                number_unread(row, number_at(place)),
                least_entry(table, links.row(at)),
            ),
        }
    }

    /// The entries of all rows, by an order in which what a row names comes before it.
    pub fn table(
        self,
        alloc: Global,
        links: &Links<'_>,
        order: &[u32],
    ) -> Result<Vec<u32>, AllocError>
        requires few { length links.now ≤ 100000 }
        requires present { ArePresent links.now }
        requires ready { IsReady self links.now }
        requires whole { IsWhole (places links.now) order.now }
        ensures size { IfOk result (λ table. length table.items ≡ length links.now) }
        ensures right { IfOk result (λ table. (e : ℕ) → HasNumber links.now e →
            Right self links.now e (entry table.items e)) }
    {
        let mut table = Vec::from_elem(alloc, 0, links.len())?;
        for place in order {
            table[*place as usize] = self.entry_of(&table, links, *place);
        }
        Ok(table)
    }
}

/// The first place with an entry above a bound.
pub fn first_above(table: &[u32], most: u32) -> Option<u32>
    requires { length table.now ≤ 100000 }
    ensures { MatchOption result
        ((i : ℕ) → i < length table.now → slice_index_or table.now i 0 ≤ most)
        (λ at. (at < length table.now) × (most < slice_index_or table.now at 0) ×
        ((i : ℕ) → i < at → slice_index_or table.now i 0 ≤ most)) }
{
    for at in 0..table.len() {
        if table[at] > most {
            return Some(at as u32);
        }
    }
    None
}
