ghost use Rattle.std.specs.Prelude.{◌≡◌, ◌≤◌, IfOk, pos, unsigned_abs};
ghost use Rattle.std.specs.Ordering.{int_eq};
ghost use Rattle.solid_base.specs.Spelling.{IsWhole, sign_of};
ghost use Rattle.solid_base.specs.Decimal.{with_sign};
ghost use Rattle.iges_fields.specs.Layout.{IsSpelt};
ghost use Rattle.solid_base.specs.Outcomes.{Gives};
ghost use Rattle.iges_parameters.specs.RecordFields.{token_of};
ghost use Rattle.iges_parameters.specs.Rules.{integer_of, short_integer, whole_of};

use crate::faults::RowFault;
use iges_fields::{Field, FieldKind};
use solid_base::{after_sign, number_up_to};

/// The greatest whole number in a record.
const MOST_WHOLE: u64 = 9_999_999;

/// A number with the sign of this text.
fn signed(text: &[u8], size: u64) -> i128
    ensures { result ≡ with_sign (sign_of text.now) size }
{
    match text {
        [b'-', ..] => -i128::from(size),
        _ => i128::from(size),
    }
}

/// The whole number that a text spells. TooFar above 9,999,999 in magnitude.
fn integer(index: u32, text: &[u8]) -> Result<i128, RowFault>
    requires spelt { IsWhole text.now }
    ensures value { Gives (λ n. n) result (short_integer index (integer_of text.now)) }
    ensures within { IfOk result (λ n. unsigned_abs n ≤ 9999999) }
{
    let size = number_up_to(after_sign(text), MOST_WHOLE + 1);
    if size > MOST_WHOLE {
        return Err(RowFault::TooFar(index));
    }
    Ok(signed(text, size))
}

/// The whole number that a field gives. Missing where the field is empty, WrongKind where it is a
/// real number or a text, TooFar where the number is above 9,999,999 in magnitude.
#[tactic(auto, unfolding(crate::specs::Rules::whole_of))]
pub fn whole_of(index: u32, field: &Field) -> Result<i128, RowFault>
    requires spelt { IsSpelt (token_of field.now.kind field.now.text.now) }
    ensures value { Gives (λ n. n) result
        (whole_of index (token_of field.now.kind field.now.text.now)) }
    ensures within { IfOk result (λ n. unsigned_abs n ≤ 9999999) }
{
    match field.kind {
        FieldKind::Empty => Err(RowFault::Missing(index)),
        FieldKind::Whole => integer(index, field.text),
        FieldKind::Real | FieldKind::Text => Err(RowFault::WrongKind(index)),
    }
}

/// Whether a text spells this number; a plus and zeros before it make no difference.
pub fn spells(text: &[u8], number: u32) -> bool
    requires spelt { IsWhole text.now }
    requires number { number ≤ 9999999 }
    ensures { result ≡ int_eq (integer_of text.now) (pos number) }
{
    let size = number_up_to(after_sign(text), MOST_WHOLE + 1);
    signed(text, size) == i128::from(number)
}
