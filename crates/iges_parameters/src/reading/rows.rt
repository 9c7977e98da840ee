ghost use Rattle.std.specs.Prelude.{◌≡◌, ◌<◌, ◌≤◌, ◌^◌, IfOk, unsigned_abs};
ghost use Rattle.solid_base.specs.Ranges.{IsLawfulRow};
ghost use Rattle.iges_fields.specs.Layout.{IsSpelt};
ghost use Rattle.solid_base.specs.Outcomes.{Gives};
ghost use Rattle.iges_parameters.specs.RecordFields.{token_of};
ghost use Rattle.iges_parameters.specs.Rules.{MovesUpTo, parameter};
ghost use Rattle.iges_parameters.specs.Records.{type_of, type_at, prim_row, matrix_row};
ghost use Rattle.iges_parameters.specs.Records.{instance_row};

use crate::faults::RowFault;
use crate::prims::read_prim;
use crate::reading::axes::checked_affine;
use crate::reading::makers::affine;
use crate::reading::numbers::numbers_of;
use crate::reading::parameters::Parameters;
use crate::reading::whole::spells;
use crate::tables::{INSTANCE_TABLE, MATRIX_TABLE};
use iges_fields::{Field, FieldKind};
use solid_base::Row;

/// The row of a primitive.
pub fn prim_row(kind: u32, matrix: u32, parameters: &mut Parameters) -> Result<Row, RowFault>
    requires near { parameters.now.index < 2 ^ 31 }
    ensures value { Gives (λ row. (row, parameters.new)) result
        (prim_row kind matrix parameters.old) }
    ensures moves { IfOk result (λ row. MovesUpTo 13 parameters.old parameters.new) }
    ensures lawful { IfOk result IsLawfulRow }
{
    let prim = read_prim(kind, parameters)?;
    Ok(Row::Prim { prim, matrix })
}

/// The row of a transformation matrix.
#[tactic(auto, unfolding(crate::specs::Records::matrix_row, crate::specs::Tables::matrix_rules))]
pub fn matrix_row(form: u32, matrix: u32, parameters: &mut Parameters) -> Result<Row, RowFault>
    requires form { form ≤ 1 }
    requires near { parameters.now.index < 2 ^ 31 }
    ensures value { Gives (λ row. (row, parameters.new)) result
        (matrix_row form matrix parameters.old) }
    ensures moves { IfOk result (λ row. MovesUpTo 12 parameters.old parameters.new) }
    ensures lawful { IfOk result IsLawfulRow }
{
    let numbers = numbers_of(&MATRIX_TABLE, parameters)?;
    let affine = checked_affine(affine(&numbers))?;
    Ok(Row::Matrix {
        form,
        affine,
        next: matrix,
    })
}

/// The number of an entity.
fn entity_number(numbers: &[i128; 1]) -> u32
    requires { unsigned_abs (parameter numbers.now 1) < 2 ^ 32 }
    ensures { result ≡ unsigned_abs (parameter numbers.now 1) }
{
    numbers[0].unsigned_abs() as u32
}

/// The row of a solid instance.
#[tactic(auto, unfolding(crate::specs::Records::instance_row, crate::specs::Tables::instance_rules))]
pub fn instance_row(matrix: u32, parameters: &mut Parameters) -> Result<Row, RowFault>
    requires near { parameters.now.index < 2 ^ 31 }
    ensures value { Gives (λ row. (row, parameters.new)) result
        (instance_row matrix parameters.old) }
    ensures moves { IfOk result (λ row. MovesUpTo 1 parameters.old parameters.new) }
    ensures lawful { IfOk result IsLawfulRow }
{
    let numbers = numbers_of(&INSTANCE_TABLE, parameters)?;
    Ok(Row::Instance {
        child: entity_number(&numbers),
        matrix,
    })
}

/// Compares field 0 with the type's number. Missing where it is empty, WrongKind where it is
/// another number or none.
#[tactic(auto, unfolding(crate::specs::Records::type_of))]
fn type_of(kind: u32, field: &Field) -> Result<u32, RowFault>
    requires spelt { IsSpelt (token_of field.now.kind field.now.text.now) }
    requires kind { kind ≤ 9999999 }
    ensures { Gives (λ k. k) result (type_of kind (token_of field.now.kind field.now.text.now)) }
{
    match field.kind {
        FieldKind::Empty => Err(RowFault::Missing(0)),
        FieldKind::Whole if spells(field.text, kind) => Ok(kind),
        _ => Err(RowFault::WrongKind(0)),
    }
}

/// Takes field 0, which is the type's number.
#[tactic(auto, unfolding(crate::specs::Records::type_at))]
pub fn read_type(kind: u32, parameters: &mut Parameters) -> Result<u32, RowFault>
    requires near { parameters.now.index < 2 ^ 31 }
    requires kind { kind ≤ 9999999 }
    ensures value { Gives (λ k. parameters.new) result (type_at kind parameters.old) }
    ensures moves { IfOk result (λ k. MovesUpTo 1 parameters.old parameters.new) }
{
    let field = parameters.token()?;
    type_of(kind, &field)
}
