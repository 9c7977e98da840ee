ghost use Rattle.std.specs.Prelude.{◌≡◌, ◌≤◌, ◌<◌, [], ◌∷◌, pos, OnOk, unsigned_abs};
ghost use Rattle.std.specs.List.{AllByRecursion};
ghost use Rattle.solid_base.specs.Range.{far};
ghost use Rattle.iges_parameters.specs.Writing.{token_by, tokens_by, whole};

use crate::tables::{ParamTable, Values};
use crate::writing::tokens::TokenSink;

/// Writes a type's number, and its parameters by the rules of its table.
pub fn push_numbers<S: TokenSink, const N: usize>(
    tokens: &mut S,
    kind: u32,
    table: &ParamTable<N>,
    numbers: &[i128; N],
) -> Result<(), S::Error>
    requires few { N < 100 }
    requires near { AllByRecursion (λ n. unsigned_abs n ≤ far) numbers.now }
    ensures { OnOk result (tokens.new ≡
        S.with tokens.old (whole (pos kind) ∷ tokens_by table.now.rules numbers.now)) }
{
    tokens.push_whole(i64::from(kind))?;
    for at in 0..N {
        push_number(tokens, table.rules[at].values, numbers[at])?;
    }
    Ok(())
}

fn push_number<S: TokenSink>(tokens: &mut S, values: Values, number: i128) -> Result<(), S::Error>
    requires { unsigned_abs number ≤ far }
    ensures { OnOk result (tokens.new ≡ S.with tokens.old (token_by values number ∷ [])) }
{
    match values {
        Values::Real | Values::Size | Values::SizeBelow(_) | Values::Below(_) => {
            tokens.push_real(number)
        }
        Values::Count | Values::Number => tokens.push_whole(number as i64),
    }
}
