ghost use Rattle.std.specs.Prelude.{◌≡◌, ◌↔◌, ◌<◌, ◌≤◌, ◌^◌, [], ◌∷◌, ◌++◌, length, map, Some};
ghost use Rattle.std.specs.Prelude.{IsTrue, IfOk, IfErr, OnOk};
ghost use Rattle.std.specs.List.{AllByRecursion};
ghost use Rattle.std.specs.Arc.{arc_value};
ghost use Rattle.solid_base.specs.declared.entities.Entity.{Entity};
ghost use Rattle.solid_base.specs.declared.solids.Row.TheVariants as row;
ghost use Rattle.solid_base.specs.References.{at_number, row_at};
ghost use Rattle.solid_base.specs.Texts.{IsOneLine};
ghost use Rattle.iges_fields.specs.Delimiters.{AreDelimiters};
ghost use Rattle.iges_parameters.specs.Accepted.{IsAcceptedEntity, most_entities};
ghost use Rattle.edit_core.specs.declared.changes.Change.TheVariants as change;
ghost use Rattle.edit_core.specs.Batches.{IsStageable, IsLawfulChange};
ghost use Rattle.edit_core.specs.EditFaults.{IsOfText, IsOuter, of_record};
ghost use Rattle.edit_core.specs.Edits.{null_entity, IsOfStaged, IsMade, IsChangeFault};
ghost use Rattle.edit_core.specs.Edits.{AreAfter, IsFirstChangeFault};
ghost use Rattle.edit_core.specs.Placing.{filled, put, counted_of, IsReady, HasBadRecord};

use crate::batch::Batch;
use crate::changes::Change;
use crate::faults::EditFault;
use crate::line_totals::lines_with;
use crate::table::Frame;
use iges_parameters::{RowFault, read_row};
use solid_base::{Bytes, Entity, Row, RowText, Rows, Tokens, blank_attributes};
use std::alloc::{AllocError, Global};
use std::sync::Arc;

/// The greatest number that an entity may have.
const MOST_NUMBER: u32 = 199_999;

/// Whether no entity has the number, or a null one.
fn is_null(rows: &Rows, number: u32) -> bool
    ensures { IsTrue result ↔ (row_at rows.now number ≡ row.Null) }
{
    matches!(rows.row(number), None | Some(Row::Null))
}

/// The null entity.
#[tactic(auto, unfolding(crate::specs::Edits::null_entity))]
fn null_entity(alloc: Global) -> Result<Entity, AllocError>
    ensures made { IfOk result (λ e. e ≡ null_entity) }
{
    Ok(Entity {
        row: Row::Null,
        attrs: blank_attributes(alloc)?,
        tail: Tokens::new(alloc),
    })
}

/// The fault of a staged record as a fault of the edit.
fn of_record(number: u32, fault: RowFault) -> EditFault
    ensures value { result ≡ of_record number fault }
    ensures outer { IsOuter result }
{
    match fault {
        RowFault::Memory(e) => EditFault::Memory(e),
        other => EditFault::BadRecord(number, other),
    }
}

/// The entity with these attributes that a staged record for a number is read as.
fn read_entity(
    alloc: Global,
    number: u32,
    source: &RowText,
    attrs: Bytes,
) -> Result<Entity, EditFault>
    requires record { IsStageable source.now }
    requires size { length attrs ≡ 96 }
    requires in_line { IsOneLine attrs }
    ensures read { IfOk result (IsOfStaged source.now) }
    ensures attributes { IfOk result (λ e. e.attrs ≡ attrs) }
    ensures ready { IfOk result IsReady }
    ensures first_fault { IfErr result (λ fault. IsOfText fault →
        HasBadRecord source.now number fault) }
    ensures outer { IfErr result IsOuter }
{
    match read_row(alloc, source, b',', b';') {
        Ok((row, tail)) => Ok(Entity { row, attrs, tail }),
        Err(fault) => Err(of_record(number, fault)),
    }
}

/// A copy of the attributes of the entity with a number; nothing where no entity has it.
fn attributes(alloc: Global, rows: &Rows, number: u32) -> Result<Bytes, AllocError>
    ensures kept { IfOk result (λ attrs. (old : Entity) → at_number rows.now number ≡ Some old →
        attrs ≡ old.attrs) }
{
    match rows.entity(number) {
        Some(old) => old.attrs.clone(),
        None => Ok(Bytes::new(alloc)),
    }
}

/// A replaced entity, which keeps its attributes.
fn replaced(alloc: Global, rows: &Rows, number: u32, source: &RowText) -> Result<Entity, EditFault>
    requires accepted { AllByRecursion IsAcceptedEntity rows.now }
    requires record { IsStageable source.now }
    ensures made { IfOk result (IsMade rows.now number (change.Replace source.now)) }
    ensures ready { IfOk result IsReady }
    ensures first_fault { IfErr result (λ fault. IsOfText fault →
        IsChangeFault rows.now number (change.Replace source.now) fault) }
    ensures outer { IfErr result IsOuter }
{
    if is_null(rows, number) {
        return Err(EditFault::NoEntity(number));
    }
    let attrs = attributes(alloc, rows, number)?;
    read_entity(alloc, number, source, attrs)
}

/// An added entity, which has no attributes of its own.
fn added(alloc: Global, rows: &Rows, number: u32, source: &RowText) -> Result<Entity, EditFault>
    requires record { IsStageable source.now }
    ensures made { IfOk result (IsMade rows.now number (change.Add source.now)) }
    ensures ready { IfOk result IsReady }
    ensures first_fault { IfErr result (λ fault. IsOfText fault →
        IsChangeFault rows.now number (change.Add source.now) fault) }
    ensures outer { IfErr result IsOuter }
{
    if !is_null(rows, number) {
        return Err(EditFault::Taken(number));
    }
    if number % 2 == 0 || number > MOST_NUMBER {
        return Err(EditFault::BadNumber(number));
    }
    read_entity(alloc, number, source, blank_attributes(alloc)?)
}

/// What a dropped entity leaves.
fn dropped(alloc: Global, rows: &Rows, number: u32) -> Result<Entity, EditFault>
    ensures made { IfOk result (IsMade rows.now number change.Drop) }
    ensures ready { IfOk result IsReady }
    ensures first_fault { IfErr result (λ fault. IsOfText fault →
        IsChangeFault rows.now number change.Drop fault) }
    ensures outer { IfErr result IsOuter }
{
    if is_null(rows, number) {
        return Err(EditFault::NoEntity(number));
    }
    Ok(null_entity(alloc)?)
}

/// The entity that a change for a number makes, by the rows before the edit.
fn changed_entity(
    alloc: Global,
    rows: &Rows,
    number: u32,
    change: &Change,
) -> Result<Entity, EditFault>
    requires accepted { AllByRecursion IsAcceptedEntity rows.now }
    requires lawful { IsLawfulChange change.now }
    ensures made { IfOk result (IsMade rows.now number change.now) }
    ensures ready { IfOk result IsReady }
    ensures first_fault { IfErr result (λ fault. IsOfText fault →
        IsChangeFault rows.now number change.now fault) }
    ensures outer { IfErr result IsOuter }
{
    match change {
        Change::Replace(source) => replaced(alloc, rows, number, source),
        Change::Add(source) => added(alloc, rows, number, source),
        Change::Drop => dropped(alloc, rows, number),
    }
}

/// Adds a null entity at the end, shared.
fn push_null(items: &mut Vec<Arc<Entity>>, null: &Arc<Entity>) -> Result<(), AllocError>
    requires { arc_value null.now ≡ null_entity }
    ensures { OnOk result
        (map arc_value items.new.items ≡ map arc_value items.old.items ++ null_entity ∷ []) }
{
    items.push(null.clone()?)?;
    Ok(())
}

/// Adds null entities at the end, up to so many.
fn fill(alloc: Global, items: &mut Vec<Arc<Entity>>, size: usize) -> Result<(), AllocError>
    ensures { OnOk result
        (map arc_value items.new.items ≡ filled (map arc_value items.old.items) size) }
{
    if items.len() < size {
        let null = Arc::new(alloc, null_entity(alloc)?)?;
        for _ in items.len()..size {
            push_null(items, &null)?;
        }
    }
    Ok(())
}

/// Puts an entity at a place, and null ones between the end and the place.
fn put(
    alloc: Global,
    items: &mut Vec<Arc<Entity>>,
    place: usize,
    entity: Entity,
) -> Result<(), AllocError>
    requires { place < 2 ^ 32 }
    ensures { OnOk result
        (map arc_value items.new.items ≡ put (map arc_value items.old.items) place entity) }
{
    fill(alloc, items, place + 1)?;
    items[place] = Arc::new(alloc, entity)?;
    Ok(())
}

/// The same entities, shared.
fn shared(alloc: Global, rows: &Rows) -> Result<Vec<Arc<Entity>>, AllocError>
    ensures { IfOk result (λ items. map arc_value items.items ≡ rows.now) }
{
    let mut items = Vec::with_capacity(alloc, rows.len())?;
    for item in rows.as_slice() {
        items.push(item.clone()?)?;
    }
    Ok(items)
}

/// The rows after a batch, and how many lines they take, each record counted up to 300,001, from
/// how many the rows before take; or the fault of its first change that can't be made.
pub fn rows_after(
    alloc: Global,
    frame: &Frame,
    rows: &Rows,
    lines: u64,
    batch: &Batch,
) -> Result<(Rows, u64), EditFault>
    requires accepted { AllByRecursion IsAcceptedEntity rows.now }
    requires few { length rows.now ≤ most_entities }
    requires delimiters { AreDelimiters frame.now.comma frame.now.semi }
    requires counted { lines ≡ counted_of frame.now.comma frame.now.semi rows.now }
    ensures after { IfOk result (λ made. AreAfter rows.now batch.now made.0) }
    ensures ready { IfOk result (λ made. AllByRecursion IsReady made.0) }
    ensures counted { IfOk result (λ made.
        made.1 ≡ counted_of frame.now.comma frame.now.semi made.0) }
    ensures first_fault { IfErr result (λ fault. IsOfText fault →
        IsFirstChangeFault rows.now batch.now fault) }
    ensures outer { IfErr result IsOuter }
{
    batch.is_apart();
    let mut items = shared(alloc, rows)?;
    let mut total = lines;
    for at in 0..batch.len() {
        let (number, change) = batch.get(at);
        let entity = changed_entity(alloc, rows, number, change)?;
        let place = (number / 2) as usize;
        total = lines_with(alloc, frame, items.as_slice(), total, place, &entity);
        put(alloc, &mut items, place, entity)?;
    }
    Ok((Rows::from_vec(items), total))
}
