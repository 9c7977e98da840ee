ghost use Rattle.std.specs.Prelude.{◌≡◌, ◌<◌, ◌≤◌, ◌+◌, ◌*◌, ◌^◌, length, Ok, Err, IfOk, IfErr};
ghost use Rattle.std.specs.Prelude.{true};
ghost use Rattle.solid_base.specs.Ranges.{IsLawfulRow};
ghost use Rattle.iges_fields.specs.Delimiters.{AreDelimiters};
ghost use Rattle.solid_base.specs.Texts.{IsOneLine};
ghost use Rattle.iges_fields.specs.Layout.{AreSpelt, AreOneLine};
ghost use Rattle.iges_parameters.specs.Faults.{GivesOrMemory, IsOfText};
ghost use Rattle.iges_parameters.specs.Rules.{MovesUpTo};
ghost use Rattle.iges_parameters.specs.Tables.{is_read};
ghost use Rattle.iges_parameters.specs.Records.{tree_row, assembly_row, row_at, record_of};
ghost use Rattle.iges_parameters.specs.Records.{record_in};
ghost use Rattle.iges_parameters.specs.RecordFaults.{IsRecordFaultIn, IsBorrowedRecordFault};
ghost use Rattle.iges_parameters.specs.RecordFields.{fields_of};

use crate::faults::RowFault;
use crate::reading::assemblies::assembly;
use crate::reading::parameters::Parameters;
use crate::reading::rows::{instance_row, matrix_row, prim_row, read_type};
use crate::reading::tails::read_tail;
use crate::reading::trees::tree;
use crate::tables::is_read;
use solid_base::{Row, RowText, Tokens};
use std::alloc::Global;

/// The type, form and matrix of an entity that is to be read, and its record, which it borrows. The
/// record is one line of at most 2^25 bytes.
#[derive(Clone, Copy, Debug)]
pub struct RecordText<'a> {
    pub kind: u32,
    pub form: u32,
    pub matrix: u32,
    pub text: &'a [u8],
}

/// The row of a Boolean tree.
#[tactic(auto, unfolding(crate::specs::Records::tree_row))]
fn tree_row(alloc: Global, matrix: u32, parameters: &mut Parameters) -> Result<Row, RowFault>
    requires near { parameters.now.index < 2 ^ 30 }
    ensures value { GivesOrMemory (λ row. (row, parameters.new)) result
        (tree_row matrix parameters.old) }
    ensures moves { IfOk result (λ row. MovesUpTo (2 * 10 ^ 7) parameters.old parameters.new) }
    ensures lawful { IfOk result IsLawfulRow }
{
    let items = tree(alloc, parameters)?;
    Ok(Row::Tree { items, matrix })
}

/// The row of an assembly.
#[tactic(auto, unfolding(crate::specs::Records::assembly_row))]
fn assembly_row(alloc: Global, matrix: u32, parameters: &mut Parameters) -> Result<Row, RowFault>
    requires near { parameters.now.index < 2 ^ 30 }
    ensures value { GivesOrMemory (λ row. (row, parameters.new)) result
        (assembly_row matrix parameters.old) }
    ensures moves { IfOk result (λ row. MovesUpTo (2 * 10 ^ 7) parameters.old parameters.new) }
    ensures lawful { IfOk result IsLawfulRow }
{
    let items = assembly(alloc, parameters)?;
    Ok(Row::Assembly { items, matrix })
}

/// The row of a type, form and matrix.
#[tactic(auto, unfolding(crate::specs::Records::row_at))]
fn row_of(
    alloc: Global,
    kind: u32,
    form: u32,
    matrix: u32,
    parameters: &mut Parameters,
) -> Result<Row, RowFault>
    requires form { kind ≡ 124 → form ≤ 1 }
    requires near { parameters.now.index < 2 ^ 30 }
    ensures value { GivesOrMemory (λ row. (row, parameters.new)) result
        (row_at kind form matrix parameters.old) }
    ensures moves { IfOk result (λ row. MovesUpTo (2 * 10 ^ 7) parameters.old parameters.new) }
    ensures lawful { IfOk result IsLawfulRow }
{
    match kind {
        124 => matrix_row(form, matrix, parameters),
        180 => tree_row(alloc, matrix, parameters),
        184 => assembly_row(alloc, matrix, parameters),
        430 => instance_row(matrix, parameters),
        _ => prim_row(kind, matrix, parameters),
    }
}

/// Reads the record of an entity: its row, and the fields after the row's parameters as they are
/// spelt.
///
/// Field 0 is the type's number, and the parameters have the indexes from 1 on. A whole number may
/// stand where a real is wanted. Where the record ends early, the parameters that don't stand there
/// are empty; an empty parameter has its default or, without one, is missing. The record has at
/// most 2^25 bytes.
///
/// NotRead comes first, where `is_read` is false, and then what `read_known_row` answers. The
/// delimiters are lawful and differ.
#[tactic(auto, using(crate::proofs::RecordFaultsRead::record_fault_in), unfolding(crate::specs::Records::record_of))]
pub fn read_row(
    alloc: Global,
    source: &RowText,
    comma: u8,
    semi: u8,
) -> Result<(Row, Tokens), RowFault>
    requires text { length source.now.text ≤ 2 ^ 25 }
    requires delimiters { AreDelimiters comma semi }
    ensures found { IfOk result (λ read. record_in comma semi source.now ≡ Ok (read.0, read.1)) }
    ensures first_fault { IfErr result (λ fault. IsOfText fault →
        IsRecordFaultIn comma semi source.now fault) }
    ensures as_read { IfErr result (λ fault. IsOfText fault → record_in comma semi source.now
        ≡ Err fault) }
    ensures lawful { IfOk result (λ read. IsLawfulRow read.0) }
    ensures spelt { IfOk result (λ read. AreSpelt read.1) }
    ensures one_line { IfOk result (λ read. IsOneLine source.now.text → AreOneLine read.1) }
{
    if is_read(source.kind, source.form) {
        let record = RecordText {
            kind: source.kind,
            form: source.form,
            matrix: source.matrix,
            text: source.text.as_slice(),
        };
        read_known_row(alloc, &record, comma, semi)
    } else {
        Err(RowFault::NotRead)
    }
}

/// Reads the record of an entity of a type and form for which `is_read` is true, as `read_row`
/// does.
///
/// The parameters are checked by their indexes, and at one index: Token, where no field stands;
/// Missing; WrongKind, where a whole number is wanted and another kind stands, or a real and a
/// text, and where field 0 isn't the type; TooFar, a magnitude above 100,000 units, or above
/// 9,999,999 in a whole number, or below 0 the number of an item or matrix of an assembly or of an
/// instance's solid; BadSize, a size that isn't above 0, an LTX or R2 out of its range, or a number
/// of items below 1; BadPostfix, an item that is 0 or above 3, or an operation before which fewer
/// than two trees stand. After the last item comes BadPostfix 1, where other than one tree is left;
/// after all parameters BadAxis and BadMatrix; last, Token of a field after the parameters. Memory
/// comes when out of memory.
#[tactic(auto, using(crate::proofs::RecordFaultsRead::borrowed_record_fault), unfolding(crate::specs::Records::record_of))]
pub fn read_known_row(
    alloc: Global,
    source: &RecordText,
    comma: u8,
    semi: u8,
) -> Result<(Row, Tokens), RowFault>
    requires known { is_read source.now.kind source.now.form ≡ true }
    requires text { length source.now.text.now ≤ 2 ^ 25 }
    requires delimiters { AreDelimiters comma semi }
    ensures found { IfOk result (λ read.
        record_of source.now.kind source.now.form source.now.matrix
        (fields_of comma semi source.now.text.now) ≡ Ok (read.0, read.1)) }
    ensures first_fault { IfErr result (λ fault. IsOfText fault →
        IsBorrowedRecordFault comma semi source.now fault) }
    ensures as_read { IfErr result (λ fault. IsOfText fault →
        record_of source.now.kind source.now.form source.now.matrix
        (fields_of comma semi source.now.text.now) ≡ Err fault) }
    ensures lawful { IfOk result (λ read. IsLawfulRow read.0) }
    ensures spelt { IfOk result (λ read. AreSpelt read.1) }
    ensures one_line { IfOk result (λ read. IsOneLine source.now.text.now → AreOneLine read.1) }
{
    let mut parameters = Parameters::new(source.text, comma, semi);
    read_type(source.kind, &mut parameters)?;
    let row = row_of(
        alloc,
        source.kind,
        source.form,
        source.matrix,
        &mut parameters,
    )?;
    let tail = read_tail(alloc, &mut parameters)?;
    Ok((row, tail))
}
