ghost use Rattle.std.specs.Prelude.{◌≡◌, ◌<◌, ◌≤◌, ◌+◌, ◌^◌, suc, max, [], length};
ghost use Rattle.std.specs.Prelude.{OnOk, OnErr};
ghost use Rattle.edit_core.specs.declared.changes.Change.{Change};
ghost use Rattle.edit_core.specs.declared.changes.Change.TheVariants as change;
ghost use Rattle.edit_core.specs.Batches.{stage, IsStageable};
ghost use Rattle.solid_desk.specs.Sessions.{at_start, after_staging};

use edit_core::Batch;
use solid_base::RowText;
use std::alloc::{AllocError, Global};
use std::marker::Model;
use std::mem;

/// Where a session stands before a line. Contracts see the line's number, the staged changes, and
/// the greatest version that was named to it.
#[derive(Debug, Drop)]
pub struct Session {
    /// How many lines are done.
    done: u32,
    batch: Batch,
    shown: u64,
}

impl Model for Session {
    ghost use Rattle.std.specs.Prelude.{◌≤◌, suc, length};
    ghost use Rattle.solid_desk.specs.Sessions.{Standing};

    ghost Value = { Standing };

    ghost view = { λ s. record { line = suc s.done; batch = s.batch; shown = s.shown } };

    // a line stages one change at most
    ghost invariant = { λ s. length s.batch ≤ s.done };
}

impl Session {
    /// A session before its first line.
    pub fn new(alloc: Global) -> Session
        ensures { result ≡ at_start }
    {
        Session {
            done: 0,
            batch: Batch::new(alloc),
            shown: 0,
        }
    }

    /// The number of the next line. It is lower than 2^32.
    pub(crate) fn line(&self) -> u32
        requires { self.now.line < 2 ^ 32 }
        ensures { result ≡ self.now.line }
    {
        self.done + 1
    }

    /// How many changes are staged after one for an entity. The next line is below 2^32.
    pub(crate) fn staged_with(&self, de: u32) -> u32
        requires line { self.now.line < 2 ^ 32 }
        ensures { (c : Change) → result ≡ length (stage self.now.batch de c) }
    {
        self.batch.len_with(de) as u32
    }

    /// Does a line that stages the row of a record of one line and at most 2^25 bytes for the
    /// entity with a number, from 1 on. The line is below 2^32. When out of memory the session is
    /// unchanged.
    #[tactic(auto, using(crate::proofs::Staging::stage_length))]
    pub(crate) fn replace(&mut self, de: u32, row: RowText) -> Result<(), AllocError>
        requires number { 1 ≤ de }
        requires record { IsStageable row }
        requires line { self.now.line < 2 ^ 32 }
        ensures staged { OnOk result (self.new ≡ after_staging self.old de (change.Replace row)) }
        ensures unchanged { OnErr result (self.new ≡ self.old) }
    {
        self.batch.replace(de, row)?;
        self.done += 1;
        Ok(())
    }

    /// Does a line that stages such a row for a new entity, as `replace` does.
    #[tactic(auto, using(crate::proofs::Staging::stage_length))]
    pub(crate) fn add(&mut self, de: u32, row: RowText) -> Result<(), AllocError>
        requires number { 1 ≤ de }
        requires record { IsStageable row }
        requires line { self.now.line < 2 ^ 32 }
        ensures staged { OnOk result (self.new ≡ after_staging self.old de (change.Add row)) }
        ensures unchanged { OnErr result (self.new ≡ self.old) }
    {
        self.batch.add(de, row)?;
        self.done += 1;
        Ok(())
    }

    /// Does a line that stages that an entity is dropped, as `replace` does.
    #[tactic(auto, using(crate::proofs::Staging::stage_length))]
    pub(crate) fn drop_row(&mut self, de: u32) -> Result<(), AllocError>
        requires number { 1 ≤ de }
        requires line { self.now.line < 2 ^ 32 }
        ensures staged { OnOk result (self.new ≡ after_staging self.old de change.Drop) }
        ensures unchanged { OnErr result (self.new ≡ self.old) }
    {
        self.batch.drop_row(de)?;
        self.done += 1;
        Ok(())
    }

    /// Takes the staged changes. None is staged then.
    pub(crate) fn take_batch(&mut self, alloc: Global) -> Batch
        ensures taken { result ≡ self.old.batch }
        ensures none_left { self.new ≡ record {
          line = self.old.line;
          batch = [];
          shown = self.old.shown;
        } }
    {
        mem::replace(&mut self.batch, Batch::new(alloc))
    }

    /// Goes on to the next line, after one below 2^32 whose reply named this version, 0 for none.
    pub(crate) fn go_on(&mut self, version: u64)
        requires { self.now.line < 2 ^ 32 }
        ensures { self.new ≡ record {
          line = suc self.old.line;
          batch = self.old.batch;
          shown = max self.old.shown version;
        } }
    {
        self.done += 1;
        self.shown = self.shown.max(version);
    }
}

#[cfg(test)]
mod tests {
    use super::*;

    #[test]
    fn stages_and_takes_its_batch(rt: HostRuntime) -> Result<(), AllocError> {
        let alloc = rt.alloc();
        let mut session = Session::new(alloc);
        assert_eq!(rt; session.staged_with(3), 1);
        session.drop_row(3)?;
        assert_eq!(rt; session.staged_with(5), 2);
        session.drop_row(5)?;
        assert_eq!(rt; session.staged_with(3), 2);
        session.drop_row(3)?;
        assert_eq!(rt; session.take_batch(alloc).len(), 2);
        session.go_on(1);
        assert_eq!(rt; session.line(), 5);
        assert_eq!(rt; session.take_batch(alloc).len(), 0);
        Ok(())
    }
}
