ghost use Rattle.std.specs.Prelude.{◌≡◌, ℕ, ℤ, ◌+◌, ◌^◌, ◌<◌, ◌≤◌, ◌∷◌, ◌++◌, ◌↔◌, min, length};
ghost use Rattle.std.specs.Prelude.{cond, unsigned_abs};
ghost use Rattle.solid_base.specs.Digits.{number_of};
ghost use Rattle.solid_base.specs.Spelling.{Sign, IsNumeral, sign_of, after_sign, is_whole};
ghost use Rattle.solid_base.specs.Spelling.{is_exponent, class_with_rest, exponent_of};
ghost use Rattle.solid_base.specs.Spelling.{number_with_rest};
ghost use Rattle.solid_base.specs.Decimal.{IsReading, nearest, raised_by, lowered_by, with_sign};
ghost use Rattle.decimal_scale.specs.Reading.{past, is_minus, in_range, sized, reading_of};
ghost use Rattle.decimal_scale.specs.Reading.{AllDigits};

use crate::digits::{PAST, power};
use crate::faults::RealFault;
use crate::scaling::magnitude;
use solid_base::{after_sign, digit_count};

/// The steps, of 10^-12 units, that a whole or real number is read as (IGES 5.3, 2.2.2 (constants)
/// (constants), and solidd's own small letters `e` and `d`): its exact value in steps, rounded to
/// the nearest whole number, ties away from zero. It takes no memory, and work by the length of the
/// text alone.
///
/// `BadReal` exactly where the text is neither a whole nor a real number; `TooBig` exactly where
/// the rounded magnitude exceeds 10^18.
pub fn read_real(text: &[u8]) -> Result<i128, RealFault>
    ensures bad { (result ≡ Err RealFault.BadReal) ↔ (¬ IsNumeral text.now) }
    ensures big { (result ≡ Err RealFault.TooBig)
        ↔ ((steps : ℤ) × IsReading text.now steps × (10 ^ 18 < unsigned_abs steps)) }
    ensures steps { (steps : ℤ) → (result ≡ Ok steps)
        ↔ (IsReading text.now steps × (unsigned_abs steps ≤ 10 ^ 18)) }
    ensures value { result ≡ reading_of text.now }
{
    read(text)
}

fn read(text: &[u8]) -> Result<i128, RealFault>
    ensures { result ≡ reading_of text.now }
{
    let digits = after_sign(text);
    let (whole, rest) = digits.split_at(digit_count(digits));
    let size = read_size(whole, rest)?;
    Ok(with_sign(is_negative(text), size))
}

/// A magnitude, of this sign.
fn with_sign(is_negative: bool, size: u64) -> i128
    ensures { (sign : Sign) → is_negative ≡ is_minus sign → result ≡ with_sign sign size }
{
    if is_negative {
        -i128::from(size)
    } else {
        i128::from(size)
    }
}

/// Whether the sign in front of a text is a minus.
fn is_negative(text: &[u8]) -> bool
    ensures { result ≡ is_minus (sign_of text.now) }
{
    matches!(text, [b'-', ..])
}

/// The magnitude of a number, of which these are the whole digits and the text after them.
fn read_size(whole: &[u8], rest: &[u8]) -> Result<u64, RealFault>
    requires { AllDigits whole.now }
    ensures { (sign : Sign) → result
        ≡ sized (class_with_rest (length whole.now) rest.now)
        (number_with_rest sign whole.now rest.now) }
{
    match rest {
        [] if whole.len() == 0 => Err(RealFault::BadReal),
        [] => in_range(magnitude(whole, &[], false, 0)),
        [b'.', rest @ ..] => read_fraction(whole, rest),
        _ if whole.len() == 0 => Err(RealFault::BadReal),
        _ => read_end(whole, &[], rest),
    }
}

/// The magnitude of a number, of which these are the whole digits and the text after the point.
fn read_fraction(whole: &[u8], rest: &[u8]) -> Result<u64, RealFault>
    requires { AllDigits whole.now }
    ensures { (sign : Sign) → result
        ≡ sized (class_with_rest (length whole.now) (46 ∷ rest.now))
        (number_with_rest sign whole.now (46 ∷ rest.now)) }
{
    let count = digit_count(rest);
    if whole.len() == 0 && count == 0 {
        return Err(RealFault::BadReal);
    }
    let (decimals, end) = rest.split_at(count);
    read_end(whole, decimals, end)
}

/// The magnitude of a number, of which these are the digits before and after the point and the text
/// after them.
fn read_end(whole: &[u8], decimals: &[u8], end: &[u8]) -> Result<u64, RealFault>
    requires whole { AllDigits whole.now }
    requires decimals { AllDigits decimals.now }
    ensures { let exponent = exponent_of end.now in
        let up = 12 + raised_by exponent in
        let down = length decimals.now + lowered_by exponent in
        let size = nearest (number_of (whole.now ++ decimals.now)) up down in
        result ≡ cond (is_exponent end.now) (in_range size) (Err RealFault.BadReal) }
{
    match end {
        [] => in_range(magnitude(whole, decimals, false, 0)),
        [b'D' | b'E' | b'd' | b'e', exponent @ ..] => match power(exponent) {
            Some(size) => in_range(magnitude(whole, decimals, is_negative(exponent), size)),
            None => Err(RealFault::BadReal),
        },
        _ => Err(RealFault::BadReal),
    }
}

/// A magnitude, where it is not too big.
fn in_range(size: u64) -> Result<u64, RealFault>
    ensures { (n : ℕ) → size ≡ min n past → result ≡ in_range n }
{
    if size < PAST {
        Ok(size)
    } else {
        Err(RealFault::TooBig)
    }
}
