ghost use Rattle.std.specs.Prelude.{◌≡◌, ◌<◌, ◌≤◌, ◌+◌, ◌-◌, ◌^◌, length, take, drop, slice_get};
ghost use Rattle.std.specs.Prelude.{IfOk, IfSome};
ghost use Rattle.entity_graph.specs.Links.{references_at, places, start_of};
ghost use Rattle.entity_graph.specs.Order.{refs_at};

use solid_base::{List, Reference, Rows, with_references};
use std::alloc::{AllocError, Global};
use std::marker::Model;

/// Where the references of the row at a place begin, by where those of each row end.
fn start_at(ends: &[usize], place: usize) -> usize
    requires { place ≤ length ends.now }
    ensures { result ≡ start_of 0 ends.now place }
{
    if place == 0 { 0 } else { ends[place - 1] }
}

fn part(items: &[Reference], start: usize, end: usize) -> &[Reference]
    requires ordered { start ≤ end }
    requires within { end ≤ length items.now }
    ensures { result.now ≡ take (end - start) (drop start items.now) }
{
    &items[start..end]
}

/// Rows and the references of all of them, one row after another. Contracts see the rows.
#[derive(Debug, Drop)]
pub struct Links<'a> {
    rows: &'a Rows,
    items: List<Reference>,
    ends: Vec<usize>,
}

impl<'a> Model for Links<'a> {
    ghost use Rattle.std.specs.Prelude.{List};
    ghost use Rattle.solid_base.specs.declared.entities.Entity.{Entity};

    ghost Value = { List Entity };

    ghost use Rattle.entity_graph.specs.Links.{AreLinks};

    ghost view = { λ l. l.rows.now };

    ghost invariant = { λ l. AreLinks l.rows.now l.items l.ends.items };
}

impl<'a> Links<'a> {
    /// Reads the references of rows.
    pub fn read(alloc: Global, rows: &'a Rows) -> Result<Links<'a>, AllocError>
        ensures { IfOk result (λ links. links ≡ rows.now) }
    {
        let mut items = List::from_vec(Vec::with_capacity(alloc, rows.len())?);
        let mut ends = Vec::with_capacity(alloc, rows.len())?;
        for place in 0..rows.len() {
            items = with_references(items, &rows.get(place).row)?;
            ends.push(items.len())?;
        }
        Ok(Links { rows, items, ends })
    }

    /// The rows.
    pub fn rows(&self) -> &Rows
        ensures { result.now ≡ self.now }
    {
        self.rows
    }

    /// How many rows there are.
    pub fn len(&self) -> usize
        ensures { result ≡ length self.now }
    {
        self.rows.len()
    }

    /// The references of the row at a place.
    pub fn row(&self, place: usize) -> &[Reference]
        requires { place < length self.now }
        ensures { result.now ≡ references_at self.now place }
    {
        part(
            self.items.as_slice(),
            start_at(&self.ends, place),
            self.ends[place],
        )
    }

    /// The place that a reference of the row at a place names; None after its last.
    pub fn named(&self, place: u32, next: usize) -> Option<u32>
        requires { place < length self.now }
        ensures place { result ≡ slice_get (refs_at (places self.now) place) next }
        ensures more { IfSome result (λ _. next + 1 < 2 ^ 64) }
    {
        match self.row(place as usize).get(next) {
            None => None,
            Some(reference) => Some(reference.number() / 2),
        }
    }
}
