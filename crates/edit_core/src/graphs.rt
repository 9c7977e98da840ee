ghost use Rattle.std.specs.Prelude.{◌≡◌, ◌≤◌, ◌↔◌, ℕ, length, Contains, Some};
ghost use Rattle.std.specs.Prelude.{IsTrue, IfOk, IfErr, MatchOption};
ghost use Rattle.std.specs.List.{AllByRecursion};
ghost use Rattle.solid_base.specs.Graph.{AreSound};
ghost use Rattle.solid_base.specs.References.{HasNumber, at_number, references};
ghost use Rattle.entity_graph.specs.GraphFaults as graphs;
ghost use Rattle.entity_graph.specs.FirstFaults.{IsFault};
ghost use Rattle.entity_graph.specs.Stamps.{IsStamp};
ghost use Rattle.edit_core.specs.EditFaults.{IsOfText, IsOuter};
ghost use Rattle.edit_core.specs.Edits.{IsUnused, IsFirstInUse};
ghost use Rattle.edit_core.specs.Placing.{IsFirstNaming, NoneNames, AreNamed};
ghost use Rattle.edit_core.specs.Placing.{IsReferenceFault};

use crate::batch::Batch;
use crate::changes::Change;
use crate::faults::EditFault;
use entity_graph::{Graph, GraphFault, Marks, Stamps};
use solid_base::{List, Numbers, Row, Rows, reference_list, with_references};
use std::alloc::{AllocError, Global};

/// Whether a row names a number.
fn names(alloc: Global, row: &Row, number: u32) -> Result<bool, AllocError>
    ensures { IfOk result (λ named. IsTrue named ↔ Contains (references row.now) number) }
{
    Ok(reference_list(alloc, row)?.as_slice().contains(&number))
}

/// The least number of a row that names a number.
fn first_naming(alloc: Global, rows: &Rows, number: u32) -> Result<Option<u32>, AllocError>
    requires { length rows.now ≤ 100000 }
    ensures { IfOk result (λ found. MatchOption found (NoneNames rows.now number)
        (IsFirstNaming rows.now number)) }
{
    for place in 0..rows.len() {
        if names(alloc, &rows.get(place).row, number)? {
            return Ok(Some(place as u32 * 2 + 1));
        }
    }
    Ok(None)
}

/// Marks on the rows that some row names.
fn named_rows(alloc: Global, rows: &Rows) -> Result<Marks, AllocError>
    ensures { IfOk result (AreNamed rows.now) }
{
    let mut named = Marks::none(alloc, rows.len())?;
    let mut references = List::new(alloc);
    for place in 0..rows.len() {
        references = with_references(references, &rows.get(place).row)?;
        named.mark_references(references.as_slice());
        references.truncate(0);
    }
    Ok(named)
}

/// Whether there is a row with a number, and no mark on it.
fn is_unnamed(rows: &Rows, named: &Marks, number: u32) -> bool
    requires { AreNamed rows.now named.now }
    ensures { IsTrue result → NoneNames rows.now number }
{
    rows.entity(number).is_some() && !named.has(number)
}

/// The least number of a row that names a number for which there is a change, where it is dropped.
/// The rows are looked through only where the number may be named.
fn least_use(
    alloc: Global,
    rows: &Rows,
    named: &Marks,
    number: u32,
    change: &Change,
) -> Result<Option<u32>, AllocError>
    requires few { length rows.now ≤ 100000 }
    requires named { AreNamed rows.now named.now }
    ensures { IfOk result (λ found. MatchOption found (IsUnused rows.now (number, change.now))
        (λ by. (change.now ≡ Change.Drop) × IsFirstNaming rows.now number by)) }
{
    match change {
        Change::Drop if is_unnamed(rows, named, number) => Ok(None),
        Change::Drop => first_naming(alloc, rows, number),
        _ => Ok(None),
    }
}

/// The first dropped number, in the places of a batch, that the rows name, and the least that names
/// it.
fn first_in_use(alloc: Global, rows: &Rows, batch: &Batch) -> Result<Option<(u32, u32)>, AllocError>
    requires { length rows.now ≤ 100000 }
    ensures { IfOk result (λ found. MatchOption found
        (AllByRecursion (IsUnused rows.now) batch.now)
        (λ p. IsFirstInUse batch.now rows.now p.0 p.1)) }
{
    let named = named_rows(alloc, rows)?;
    for at in 0..batch.len() {
        let (de, change) = batch.get(at);
        if let Some(by) = least_use(alloc, rows, &named, de, change)? {
            return Ok(Some((de, by)));
        }
    }
    Ok(None)
}

/// Why the references of the rows after a batch are refused, where they have this fault: a dropped
/// number that is still named comes first.
fn reference_fault(alloc: Global, rows: &Rows, batch: &Batch, fault: GraphFault) -> EditFault
    requires few { length rows.now ≤ 100000 }
    requires first { graphs.IsOfText fault → IsFault rows.now fault }
    ensures first_fault { IsOfText result → IsReferenceFault batch.now rows.now result }
    ensures outer { IsOuter result }
{
    match first_in_use(alloc, rows, batch) {
        Ok(Some((de, by))) => EditFault::InUse(de, by),
        Ok(None) => EditFault::from(fault),
        Err(e) => EditFault::Memory(e),
    }
}

/// The graph of the rows after a batch and their stamps, from the old ones and the numbers that
/// the batch changes. InUse where a dropped number is still named, else the first fault of the
/// references.
pub fn graph_after(
    alloc: Global,
    rows: &Rows,
    batch: &Batch,
    old: &Stamps,
    changed: &Numbers,
    version: u64,
) -> Result<(Graph, Stamps), EditFault>
    requires few { length rows.now ≤ 100000 }
    requires known { (e : ℕ) →
        HasNumber rows.now e → ¬ Contains changed.now e → HasNumber old.now e }
    ensures graph { IfOk result (λ made. made.0 ≡ rows.now) }
    ensures sound { IfOk result (λ _. AreSound rows.now) }
    ensures one_each { IfOk result (λ made. length made.1 ≡ length rows.now) }
    ensures stamps { IfOk result (λ made. (e s : ℕ) → at_number made.1 e ≡ Some s →
        IsStamp rows.now changed.now version old.now e s) }
    ensures first_fault { IfErr result (λ fault. IsOfText fault →
        IsReferenceFault batch.now rows.now fault) }
    ensures outer { IfErr result IsOuter }
{
    match Graph::check_stamped(alloc, rows, old, changed, version) {
        Ok(made) => Ok(made),
        Err(fault) => Err(reference_fault(alloc, rows, batch, fault)),
    }
}
