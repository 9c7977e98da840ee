ghost use Rattle.std.specs.Prelude.{◌≡◌, ◌⊎◌, ◌≤◌, ℕ, [], length, Some, IfOk};
ghost use Rattle.solid_base.specs.References.{HasNumber, at_number};
ghost use Rattle.entity_graph.specs.Marks.{IsMarked, IsRenewed};

use crate::marks::Marks;
use crate::tables::number_at;
use std::alloc::{AllocError, Global};
use std::marker::Model;

/// The stamps of rows: of each the last version in which it, or a row that it reaches, was changed.
/// Contracts see them as a list, in the order of the rows.
#[derive(Debug, Drop)]
pub struct Stamps {
    versions: Vec<u64>,
}

impl Model for Stamps {
    ghost use Rattle.std.specs.Prelude.{List, ℕ};

    ghost Value = { List ℕ };

    ghost view = { λ s. s.versions.items };
}

impl Stamps {
    /// No stamps, which take no memory yet.
    pub fn new(alloc: Global) -> Stamps
        ensures { result ≡ [] }
    {
        Stamps {
            versions: Vec::new(alloc),
        }
    }

    /// The stamp of the row with a number.
    pub fn of(&self, e: u32) -> u64
        requires { HasNumber self.now e }
        ensures { at_number self.now e ≡ Some result }
    {
        self.versions[(e / 2) as usize]
    }

    /// The version where the row with a number is marked, else its old stamp.
    fn renewed_at(&self, marks: &Marks, version: u64, number: u32) -> u64
        requires { ¬ IsMarked marks.now number → HasNumber self.now number }
        ensures { IsRenewed marks.now version self.now number result }
    {
        if marks.has(number) {
            version
        } else {
            self.of(number)
        }
    }

    /// The version for each marked row, and for each other its old stamp.
    pub(crate) fn renewed(
        &self,
        alloc: Global,
        marks: &Marks,
        version: u64,
    ) -> Result<Stamps, AllocError>
        requires few { length marks.now ≤ 100000 }
        requires known { (e : ℕ) →
            HasNumber marks.now e → ¬ IsMarked marks.now e → HasNumber self.now e }
        ensures one_each { IfOk result (λ stamps. length stamps ≡ length marks.now) }
        ensures renewed { IfOk result (λ stamps. (e s : ℕ) → at_number stamps e ≡ Some s →
            IsRenewed marks.now version self.now e s) }
    {
        let mut versions = Vec::with_capacity(alloc, marks.len())?;
        for place in 0..marks.len() {
            versions.push(self.renewed_at(marks, version, number_at(place as u32)))?;
        }
        Ok(Stamps { versions })
    }
}
