ghost use Rattle.std.specs.Prelude.{◌≡◌, ◌<◌, ◌^◌, length, IfOk, Ok};
ghost use Rattle.std.specs.List.{concat};
ghost use Rattle.solid_base.specs.Ranges.{IsLawfulRow};
ghost use Rattle.iges_fields.specs.Delimiters.{AreDelimiters};
ghost use Rattle.iges_fields.specs.Layout.{AreSpelt, AreLines};
ghost use Rattle.iges_parameters.specs.RecordFields.{fields_of};
ghost use Rattle.iges_parameters.specs.Records.{record_of};
ghost use Rattle.iges_parameters.specs.Writing.{record_text, IsOfRecord};
ghost use Rattle.iges_parameters.specs.Writing.{type_of_row, form_of_row, matrix_of_row};
ghost use Rattle.iges_parameters.specs.WrittenRows.{IsTailOf};

use crate::writing::RECORD_COLUMNS;
use crate::writing::laid_text::row_text;
use iges_fields::lines_of;
use solid_base::{Bytes, Entity, Lines};
use std::alloc::{AllocError, Global};

/// The lines of 64 columns in which an entity's record is written: the type's number, the
/// parameters, those with a default too, and the fields after them, each with `comma` after it and
/// the last with `semi`. A record that isn't read stands as it was, in one line at least.
/// AllocError when out of memory. Solidd's own choice among the layouts of IGES 5.3, 2.2.4.5
/// (parameter data section).
pub fn row_lines(alloc: Global, entity: &Entity, comma: u8, semi: u8) -> Result<Lines, AllocError>
    requires lawful { IsLawfulRow entity.now.row }
    requires spelt { AreSpelt entity.now.tail }
    requires tail { IsTailOf entity.now.row entity.now.tail }
    requires delimiters { AreDelimiters comma semi }
    ensures lines { IfOk result
        (AreLines 64 (record_text comma semi entity.now.row entity.now.tail)) }

    // A record that is read is read back as the row and the fields after it.
    ensures reads_back { IfOk result (λ lines. IsOfRecord entity.now.row →
        record_of (type_of_row entity.now.row) (form_of_row entity.now.row)
        (matrix_of_row entity.now.row) (fields_of comma semi (concat lines))
        ≡ Ok (entity.now.row, entity.now.tail)) }
{
    let text = row_text(Bytes::new(alloc), entity, comma, semi)?;
    cut(alloc, text.as_slice())
}

/// A record's text in lines, the last one filled up with blanks.
fn cut(alloc: Global, text: &[u8]) -> Result<Lines, AllocError>
    ensures lines { IfOk result (AreLines 64 text.now) }
    ensures held { length text.now < 2 ^ 64 }
{
    lines_of(alloc, text, RECORD_COLUMNS)
}
