ghost use Rattle.std.specs.Prelude.{◌≡◌, ◌≤◌, length, map, replicate, false, IfOk};
ghost use Rattle.std.specs.List.{list_any};
ghost use Rattle.solid_base.specs.References.{target};
ghost use Rattle.entity_graph.specs.Marks.{has_mark, with_mark, with_marks, numbers_marked};

use crate::tables::number_at;
use solid_base::{Numbers, Reference};
use std::alloc::{AllocError, Global};
use std::marker::Model;

/// Marks on rows, one for each row. Contracts see them as a list.
#[derive(Debug, Drop)]
pub struct Marks {
    places: Vec<bool>,
}

impl Model for Marks {
    ghost use Rattle.std.specs.Prelude.{List, Bool};

    ghost Value = { List Bool };

    ghost view = { λ m. m.places.items };
}

impl Marks {
    /// No marks on some rows.
    pub fn none(alloc: Global, rows: usize) -> Result<Marks, AllocError>
        ensures { IfOk result (λ marks. marks ≡ replicate rows false) }
    {
        let places = Vec::from_elem(alloc, false, rows)?;
        Ok(Marks { places })
    }

    /// How many rows there are.
    pub fn len(&self) -> usize
        ensures { result ≡ length self.now }
    {
        self.places.len()
    }

    /// Whether the row with a number is marked. Where no row has the number it isn't.
    #[tactic(auto, unfolding(crate::specs::Marks::has_mark))]
    pub fn has(&self, number: u32) -> bool
        ensures { result ≡ has_mark self.now number }
    {
        match self.places.get((number / 2) as usize) {
            Some(mark) => number % 2 == 1 && *mark,
            None => false,
        }
    }

    /// Whether a row is marked of those that some references name.
    pub fn has_any(&self, references: &[Reference]) -> bool
        ensures { result ≡ list_any (has_mark self.now) (map target references.now) }
    {
        for reference in references {
            if self.has(reference.number()) {
                return true;
            }
        }
        false
    }

    /// Marks the row with a number, where there is one.
    #[tactic(auto, unfolding(crate::specs::Marks::with_mark))]
    pub fn mark(&mut self, number: u32)
        ensures { self.new ≡ with_mark self.old number }
    {
        let place = (number / 2) as usize;
        if number % 2 == 1 && place < self.places.len() {
            self.places[place] = true;
        }
    }

    /// Marks the rows with some numbers.
    pub fn mark_numbers(&mut self, numbers: &[u32])
        ensures { self.new ≡ with_marks self.old numbers.now }
    {
        for number in numbers {
            self.mark(*number);
        }
    }

    /// Marks the rows that some references name.
    pub fn mark_references(&mut self, references: &[Reference])
        ensures { self.new ≡ with_marks self.old (map target references.now) }
    {
        for reference in references {
            self.mark(reference.number());
        }
    }

    /// The numbers of the marked rows, in ascending order.
    pub fn numbers(&self, alloc: Global) -> Result<Numbers, AllocError>
        requires { length self.now ≤ 100000 }
        ensures { IfOk result (λ numbers. numbers ≡ numbers_marked 0 self.now) }
    {
        let mut numbers = Numbers::new(alloc);
        for place in 0..self.places.len() {
            if self.places[place] {
                numbers.push(number_at(place as u32))?;
            }
        }
        Ok(numbers)
    }
}
