ghost use Rattle.std.specs.Prelude.{◌≡◌, ◌<◌, ◌≤◌, [], length, slice_get, Some, OnOk, OnErr};
ghost use Rattle.std.specs.List.{AllByRecursion};
ghost use Rattle.edit_core.specs.declared.changes.Change.{Change};
ghost use Rattle.edit_core.specs.declared.changes.Change.TheVariants as change;
ghost use Rattle.edit_core.specs.Batches.{stage, IsStageable, IsLawfulChange, AreApart};

use crate::changes::Change;
use indexmap::IndexMap;
use solid_base::RowText;
use std::alloc::{AllocError, Global};
use std::marker::Model;

/// Changes that are staged for numbers. Contracts see the list of the numbers and their changes, in
/// their places.
#[derive(Debug, Drop)]
pub struct Batch {
    changes: IndexMap<u32, Change>,
}

impl Model for Batch {
    ghost use Rattle.std.specs.Prelude.{List};
    ghost use Rattle.edit_core.specs.Batches.{Staged, AreLawful};

    ghost Value = { List Staged };

    ghost view = { λ b. b.changes.entries };

    ghost invariant = { λ b. AreLawful b.changes.entries };
}

impl Batch {
    /// A batch without a change, which takes no memory yet.
    pub fn new(alloc: Global) -> Batch
        ensures { result ≡ [] }
    {
        Batch {
            changes: IndexMap::new(alloc),
        }
    }

    /// Stages a change. A number that is staged again keeps its place and takes the new change.
    /// When out of memory nothing is changed.
    fn stage(&mut self, de: u32, change: Change) -> Result<(), AllocError>
        requires number { 1 ≤ de }
        requires lawful { IsLawfulChange change }
        ensures ok { OnOk result (self.new ≡ stage self.old de change) }
        ensures err { OnErr result (self.new ≡ self.old) }
    {
        self.changes.insert(de, change)?;
        Ok(())
    }

    /// Stages that the entity with a number, from 1 on, takes the row of a record of one line and
    /// at most 2^25 bytes. A number that is staged again keeps its place and takes the new change.
    /// When out of memory nothing is changed.
    pub fn replace(&mut self, de: u32, row: RowText) -> Result<(), AllocError>
        requires number { 1 ≤ de }
        requires record { IsStageable row }
        ensures ok { OnOk result (self.new ≡ stage self.old de (change.Replace row)) }
        ensures err { OnErr result (self.new ≡ self.old) }
    {
        self.stage(de, Change::Replace(row))
    }

    /// Stages that a new entity with a number, from 1 on, takes the row of such a record, as
    /// `replace` does.
    pub fn add(&mut self, de: u32, row: RowText) -> Result<(), AllocError>
        requires number { 1 ≤ de }
        requires record { IsStageable row }
        ensures ok { OnOk result (self.new ≡ stage self.old de (change.Add row)) }
        ensures err { OnErr result (self.new ≡ self.old) }
    {
        self.stage(de, Change::Add(row))
    }

    /// Stages that the entity with a number, from 1 on, becomes a null one, as `replace` does.
    pub fn drop_row(&mut self, de: u32) -> Result<(), AllocError>
        requires number { 1 ≤ de }
        ensures ok { OnOk result (self.new ≡ stage self.old de change.Drop) }
        ensures err { OnErr result (self.new ≡ self.old) }
    {
        self.stage(de, Change::Drop)
    }

    /// How many numbers are staged.
    pub fn len(&self) -> usize
        ensures { result ≡ length self.now }
    {
        self.changes.len()
    }

    /// How many numbers are staged after a change for a number.
    pub fn len_with(&self, de: u32) -> usize
        ensures { (c : Change) → result ≡ length (stage self.now de c) }
    {
        self.changes.len() + usize::from(!self.changes.contains_key(&de))
    }

    /// The number and the change at a place, counted from 0.
    pub fn get(&self, at: usize) -> (u32, &Change)
        requires { at < length self.now }
        ensures staged { slice_get self.now at ≡ Some (result.0, result.1.now) }
        ensures lawful { IsLawfulChange result.1.now }
    {
        let (number, change) = self.changes.get_index(at).unwrap();
        (*number, change)
    }

    /// A law on each batch: no number is staged twice.
    pub fn is_apart(&self)
        ensures { AreApart self.now }
    {
        let _ = &self.changes;
    }
}

#[cfg(test)]
mod tests {
    use super::*;
    use solid_base::Bytes;

    fn sphere(alloc: Global, matrix: u32) -> RowText
        ensures { IsStageable result }
    {
        RowText {
            kind: 158,
            form: 0,
            matrix,
            text: Bytes::new(alloc),
        }
    }

    #[test]
    fn keeps_the_place_of_a_number_that_is_staged_again(rt: HostRuntime) -> Result<(), AllocError> {
        let alloc = rt.alloc();
        let mut batch = Batch::new(alloc);
        assert_eq!(rt; batch.len_with(9), 1);
        batch.add(9, sphere(alloc, 0))?;
        batch.drop_row(3)?;
        batch.replace(9, sphere(alloc, 7))?;
        batch.replace(5, sphere(alloc, 1))?;
        batch.drop_row(5)?;
        assert_eq!(rt; batch.len(), 3);
        assert_eq!(rt; batch.len_with(5), 3);
        assert_eq!(rt; batch.len_with(7), 4);
        let wanted = [
            (9, Change::Replace(sphere(alloc, 7))),
            (3, Change::Drop),
            (5, Change::Drop),
        ];
        for at in 0..3 {
            if at < batch.len() {
                let (number, change) = batch.get(at);
                assert_eq!(rt; number, wanted[at].0);
                assert!(rt; *change == wanted[at].1, "place {at}");
            }
        }
        Ok(())
    }
}
