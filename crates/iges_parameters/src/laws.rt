ghost use Rattle.std.specs.List.{AllByRecursion, concat};
ghost use Rattle.std.specs.Prelude.{◌≡◌, ◌↔◌, ℕ, List, map, Option, Some, Ok, Err};
ghost use Rattle.solid_base.specs.declared.entities.Token.{Token};
ghost use Rattle.solid_base.specs.declared.solids.Row.{Row};
ghost use Rattle.solid_base.specs.declared.entities.Model.{Model};
ghost use Rattle.solid_base.specs.Ranges.{IsLawfulRow};
ghost use Rattle.solid_base.specs.Spelling.{before_blanks};
ghost use Rattle.iges_fields.specs.Delimiters.{AreDelimiters};
ghost use Rattle.iges_fields.specs.Layout.{Reads, AreLines};
ghost use Rattle.iges_parameters.specs.Accepted.{IsAccepted, IsWritable};
ghost use Rattle.iges_parameters.specs.RecordFields.{fields_of};
ghost use Rattle.iges_parameters.specs.Records.{record_of};
ghost use Rattle.iges_parameters.specs.RecordFaults.{IsRecordFault};
ghost use Rattle.iges_parameters.specs.Writing.{tokens_of, kept_text, IsOfRecord, type_of_row};
ghost use Rattle.iges_parameters.specs.Writing.{form_of_row, matrix_of_row};

use crate::faults::RowFault;

/// A row in its ranges, and whatever fields stand after it, are read back from the tokens that they
/// are written with.
pub fn rows_read_back()
    ensures { (row : Row) (tail : List Token) → IsOfRecord row → IsLawfulRow row →
        record_of (type_of_row row) (form_of_row row) (matrix_of_row row) (map Some
        (tokens_of row tail)) ≡ Ok (row, tail) }
{}

/// A text that reads as tokens has them as its fields.
pub fn tokens_are_fields()
    ensures { (comma semi : ℕ) (text : List ℕ) (tokens : List Token) →
        Reads comma semi text tokens →
        fields_of comma semi text ≡ map Some tokens }
{}

/// A record is refused exactly with its first fault, and it has one at most: of a type that isn't
/// read; else of the first field that has one, where the table says what is wanted of each; else of
/// the parameters together; else of the first place after them where no field stands.
pub fn one_fault()
    ensures refused { (kind form matrix : ℕ) (fields : List (Option Token)) (fault : RowFault) →
        (record_of kind form matrix fields ≡ Err fault) ↔ IsRecordFault kind form fields fault }
    ensures unique { (kind form : ℕ) (fields : List (Option Token)) (fault other : RowFault) →
        IsRecordFault kind form fields fault → IsRecordFault kind form fields other →
        fault ≡ other }
{}

/// The rows of an accepted model can be written with its delimiters: what `row_lines` asks holds of
/// each.
pub fn accepted_rows_can_be_written()
    ensures { (model : Model) → IsAccepted model →
        AreDelimiters model.comma model.semi × AllByRecursion IsWritable model.rows }
{}

/// A record that isn't read is kept without blanks after it, and so it is read back from its lines.
pub fn kept_records_read_back()
    ensures { (text : List ℕ) (lines : List (List ℕ)) → before_blanks text ≡ text →
        AreLines 64 (kept_text text) lines → before_blanks (concat lines) ≡ text }
{}
