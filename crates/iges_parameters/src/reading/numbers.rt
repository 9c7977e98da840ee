ghost use Rattle.std.specs.Prelude.{◌≡◌, ◌<◌, ◌+◌, ◌-◌, ◌≤◌, ◌^◌, length, IfOk, IfErr, []};
ghost use Rattle.std.specs.Prelude.{unsigned_abs};
ghost use Rattle.iges_fields.specs.Layout.{IsSpelt};
ghost use Rattle.solid_base.specs.Outcomes.{Gives};
ghost use Rattle.iges_parameters.specs.RecordFields.{token_of};
ghost use Rattle.iges_parameters.specs.Rules.{near_steps, real_of, has_size, sized, not_below_0};
ghost use Rattle.iges_parameters.specs.Rules.{number_by, value_of, given, default_of, parameter};
ghost use Rattle.iges_parameters.specs.Rules.{parameter_at, numbers_from, Moves};

use crate::faults::RowFault;
use crate::reading::parameters::Parameters;
use crate::reading::whole::whole_of;
use crate::tables::{ParamTable, Rule, Values};
use decimal_scale::{RealFault, read_real};
use iges_fields::{Field, FieldKind};

/// The greatest magnitude of a length or coordinate, in steps: 100,000 units.
const FAR: u128 = 100_000_000_000_000_000;

/// The steps of a real that was read. TooFar where they are more than 100,000 units.
fn near_steps(index: u32, read: Result<i128, RealFault>) -> Result<i128, RowFault>
    ensures { Gives (λ n. n) result (near_steps index read) }
{
    match read {
        Ok(steps) if steps.unsigned_abs() <= FAR => Ok(steps),
        _ => Err(RowFault::TooFar(index)),
    }
}

/// The steps that a field gives where a real is wanted; a whole number is one too.
fn real_of(index: u32, field: &Field) -> Result<i128, RowFault>
    ensures { Gives (λ n. n) result (real_of index (token_of field.now.kind field.now.text.now)) }
{
    match field.kind {
        FieldKind::Empty => Err(RowFault::Missing(index)),
        FieldKind::Whole | FieldKind::Real => near_steps(index, read_real(field.text)),
        FieldKind::Text => Err(RowFault::WrongKind(index)),
    }
}

/// The parameter with this index, counted from 1, among those before; 0 where there is none.
fn other(before: &[i128], index: usize) -> i128
    ensures { result ≡ parameter before.now index }
{
    before.get(index.saturating_sub(1)).copied().unwrap_or(0)
}

/// Whether a number has the size that is wanted, where these parameters stand before it.
#[tactic(auto, unfolding(crate::specs::Rules::has_size))]
fn has_size(values: &Values, n: i128, before: &[i128]) -> bool
    ensures { result ≡ has_size values.now n before.now }
{
    match values {
        Values::Real | Values::Number => true,
        Values::Size | Values::Count => n > 0,
        Values::SizeBelow(index) => n > 0 && n < other(before, *index),
        Values::Below(index) => n >= 0 && n < other(before, *index),
    }
}

/// A whole number that isn't below 0.
fn not_below_0(index: u32, n: i128) -> Result<i128, RowFault>
    ensures { Gives (λ m. m) result (not_below_0 index n) }
{
    if n < 0 {
        Err(RowFault::TooFar(index))
    } else {
        Ok(n)
    }
}

/// The number that a field gives by the kind of number that is wanted.
#[tactic(auto, unfolding(crate::specs::Rules::number_by))]
fn number_by(values: &Values, index: u32, field: &Field) -> Result<i128, RowFault>
    requires spelt { IsSpelt (token_of field.now.kind field.now.text.now) }
    ensures { Gives (λ n. n) result
        (number_by values.now index (token_of field.now.kind field.now.text.now)) }
{
    match values {
        Values::Real | Values::Size | Values::SizeBelow(_) | Values::Below(_) => {
            real_of(index, field)
        }
        Values::Count => whole_of(index, field),
        Values::Number => {
            let n = whole_of(index, field)?;
            not_below_0(index, n)
        }
    }
}

/// The number of a field that isn't empty, of the size that is wanted.
fn given(rule: &Rule, index: u32, before: &[i128], field: &Field) -> Result<i128, RowFault>
    requires spelt { IsSpelt (token_of field.now.kind field.now.text.now) }
    ensures { Gives (λ n. n) result
        (given rule.now index before.now (token_of field.now.kind field.now.text.now)) }
{
    let n = number_by(&rule.values, index, field)?;
    if has_size(&rule.values, n, before) {
        Ok(n)
    } else {
        Err(RowFault::BadSize(index))
    }
}

/// The number of a field by a rule.
#[tactic(auto, unfolding(crate::specs::Rules::value_of))]
fn value_of(rule: &Rule, index: u32, before: &[i128], field: &Field) -> Result<i128, RowFault>
    requires spelt { IsSpelt (token_of field.now.kind field.now.text.now) }
    ensures { Gives (λ n. n) result
        (value_of rule.now index before.now (token_of field.now.kind field.now.text.now)) }
{
    match field.kind {
        FieldKind::Empty => rule.default.ok_or(RowFault::Missing(index)),
        FieldKind::Whole | FieldKind::Real | FieldKind::Text => given(rule, index, before, field),
    }
}

/// The next parameter by a rule, where these stand before it.
#[tactic(auto, unfolding(crate::specs::Rules::parameter_at))]
pub fn parameter(
    parameters: &mut Parameters,
    rule: &Rule,
    before: &[i128],
) -> Result<i128, RowFault>
    requires { parameters.now.index < 2 ^ 32 - 1 }
    ensures value { Gives (λ n. (n, parameters.new)) result
        (parameter_at rule.now before.now parameters.old) }
    ensures moves { IfOk result (λ n. Moves 1 parameters.old parameters.new) }
{
    let index = parameters.index();
    let field = parameters.token()?;
    value_of(rule, index, before, &field)
}

/// The parameters of a table, from left to right.
pub fn numbers_of<const N: usize>(
    table: &ParamTable<N>,
    parameters: &mut Parameters,
) -> Result<[i128; N], RowFault>
    requires few { N < 100 }
    requires near { parameters.now.index < 2 ^ 31 }
    ensures value { Gives (λ ns. (ns, parameters.new)) result
        (numbers_from table.now.rules [] parameters.old) }
    ensures moves { IfOk result (λ ns. Moves N parameters.old parameters.new) }
{
    let mut numbers = [0; N];
    for at in 0..N {
        numbers[at] = parameter(parameters, &table.rules[at], &numbers[..at])?;
    }
    Ok(numbers)
}
