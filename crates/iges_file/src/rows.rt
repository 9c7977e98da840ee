ghost use Rattle.std.specs.Prelude.{◌≡◌, ℕ, ◌<◌, ◌≤◌, ◌+◌, ◌*◌, ◌^◌, ◌++◌, ◌∷◌, [], length, map};
ghost use Rattle.std.specs.Prelude.{Ok, Err, IfOk, IfErr, OnOk};
ghost use Rattle.std.specs.List.{AllByRecursion};
ghost use Rattle.std.specs.Arc.{arc_value};
ghost use Rattle.iges_cards.specs.Kept.{AreWide, NoneHasFeed};
ghost use Rattle.iges_fields.specs.Delimiters.{AreDelimiters};
ghost use Rattle.iges_directory.specs.Kept.{IsKept};
ghost use Rattle.iges_parameters.specs.Accepted.{IsAcceptedEntity, lines_of, most_lines};
ghost use Rattle.iges_file.specs.Entities.{AreEntities, HasLines, IsRowsFault};
ghost use Rattle.iges_file.specs.Faults.{of_row, IsOuter};

use crate::entities::read_entity;
use crate::faults::FileFault;
use iges_directory::Pair;
use iges_parameters::{RowFault, line_count};
use solid_base::{BorrowedLines, Entity, Rows};
use std::alloc::{AllocError, Global};
use std::sync::Arc;

/// How many lines the records of a model may take.
const MOST_LINES: u64 = 300_000;

/// The fault of an entity's record as a fault of the file.
fn of_row(entity: u32, fault: RowFault) -> FileFault
    ensures value { result ≡ of_row entity fault }
    ensures outer { IsOuter result }
{
    match fault {
        RowFault::Memory(e) => FileFault::Memory(e),
        other => FileFault::BadRow(entity, other),
    }
}

/// Shares an entity after the others.
fn push_entity(alloc: Global, rows: &mut Vec<Arc<Entity>>, entity: Entity) -> Result<(), AllocError>
    ensures { OnOk result
        (map arc_value rows.new.items ≡ map arc_value rows.old.items ++ entity ∷ []) }
{
    rows.push(Arc::new(alloc, entity)?)?;
    Ok(())
}

/// The entities of a file's entries, with these parameter lines. BadRow where a record has a fault,
/// with the first entity of which it has.
pub fn read_rows(
    alloc: Global,
    comma: u8,
    semi: u8,
    params: &BorrowedLines,
    pairs: Vec<Pair>,
) -> Result<Rows, FileFault>
    requires few { length pairs.items ≤ 100000 }
    requires entries { AllByRecursion IsKept pairs.items }
    requires lines { AllByRecursion (HasLines (length params.now)) pairs.items }
    requires wide { AreWide 64 params.now }
    requires plain { NoneHasFeed params.now }
    requires delimiters { AreDelimiters comma semi }
    ensures found { IfOk result (AreEntities comma semi params.now pairs.items) }
    ensures first_fault { IfErr result (IsRowsFault comma semi params.now pairs.items) }
    ensures accepted { IfOk result (AllByRecursion IsAcceptedEntity) }
    ensures outer { IfErr result IsOuter }
{
    let mut rows = Vec::with_capacity(alloc, pairs.len())?;
    let mut buffer = Vec::new(alloc);
    let mut number = 1;
    for pair in pairs {
        match read_entity(alloc, &mut buffer, comma, semi, params, pair) {
            Ok(entity) => push_entity(alloc, &mut rows, entity)?,
            Err(fault) => return Err(of_row(number, fault)),
        }
        number += 2;
    }
    Ok(Rows::from_vec(rows))
}

/// How many lines the records of entities take, whatever the delimiters; TooManyLines exactly where
/// they are more than 300,000. It takes no memory.
pub fn checked_lines(rows: &Rows) -> Result<u64, FileFault>
    requires { AllByRecursion IsAcceptedEntity rows.now }
    ensures count { IfOk result (λ lines. (comma semi : ℕ) →
        lines ≡ lines_of comma semi rows.now) }
    ensures few { IfOk result (λ lines. lines ≤ most_lines) }
    ensures many { IfErr result (λ fault. (fault ≡ FileFault.TooManyLines) ×
        ((comma semi : ℕ) → most_lines < lines_of comma semi rows.now)) }
{
    let lines = line_count(rows);
    if lines > MOST_LINES {
        return Err(FileFault::TooManyLines);
    }
    Ok(lines)
}
