ghost use Rattle.std.specs.Prelude.{◌≡◌, ◌<◌, ◌≤◌, map, length, IfOk, IfErr};
ghost use Rattle.std.specs.List.{AllByRecursion};
ghost use Rattle.std.specs.Arc.{arc_value};
ghost use Rattle.iges_fields.specs.Delimiters.{AreDelimiters};
ghost use Rattle.iges_parameters.specs.Accepted.{IsWritable, most_entities, most_lines};
ghost use Rattle.edit_core.specs.Placing.{put, counted, counted_of};

use crate::faults::EditFault;
use crate::table::Frame;
use iges_parameters::row_line_count;
use solid_base::Entity;
use std::alloc::Global;
use std::sync::Arc;

/// How many lines the records of a model may take.
const MOST_LINES: u64 = 300_000;

/// How many lines the record of an entity takes where it is written; 300,001 where it takes more,
/// so that no sum is too large.
fn counted_lines(alloc: Global, frame: &Frame, entity: &Entity) -> u64
    requires writable { IsWritable entity.now }
    requires delimiters { AreDelimiters frame.now.comma frame.now.semi }
    ensures { result ≡ counted frame.now.comma frame.now.semi entity.now }
{
    match row_line_count(alloc, entity, frame.comma, frame.semi) {
        Ok(lines) => lines.min(MOST_LINES + 1),
        Err(_) => MOST_LINES + 1,
    }
}

/// How many lines the rows take once an entity is put at a place, from how many they take now. Each
/// null entity between the end and the place takes one.
pub fn lines_with(
    alloc: Global,
    frame: &Frame,
    items: &[Arc<Entity>],
    lines: u64,
    place: usize,
    entity: &Entity,
) -> u64
    requires delimiters { AreDelimiters frame.now.comma frame.now.semi }
    requires few { length (map arc_value items.now) ≤ most_entities }
    requires within { place < most_entities }
    requires rows { AllByRecursion IsWritable (map arc_value items.now) }
    requires new { IsWritable entity.now }
    requires counted { lines ≡ counted_of frame.now.comma frame.now.semi
        (map arc_value items.now) }
    ensures { result ≡ counted_of frame.now.comma frame.now.semi
        (put (map arc_value items.now) place entity.now) }
{
    let added = counted_lines(alloc, frame, entity);
    if place < items.len() {
        lines - counted_lines(alloc, frame, &items[place]) + added
    } else {
        lines + (place - items.len()) as u64 + added
    }
}

/// TooManyLines exactly where there are more than 300,000 lines.
pub fn check_lines(lines: u64) -> Result<(), EditFault>
    ensures few { IfOk result (λ _. lines ≤ most_lines) }
    ensures many { IfErr result (λ fault. (fault ≡ EditFault.TooManyLines) ×
        (most_lines < lines)) }
{
    if lines > MOST_LINES {
        return Err(EditFault::TooManyLines);
    }
    Ok(())
}
