ghost use Rattle.std.specs.Prelude.{◌≡◌, ◌≤◌, min, cond};
ghost use Rattle.solid_base.specs.Digits.{number_of};
ghost use Rattle.solid_base.specs.Spelling.{after_sign, is_whole};
ghost use Rattle.decimal_scale.specs.Reading.{past, number_after, AllDigits};

use solid_base::{after_sign, digit_count, number_up_to};

/// The least magnitude in steps that is too big.
pub const PAST: u64 = 1_000_000_000_000_000_001;

/// The number that digits spell after the digits of a number, or `PAST` where it is larger.
pub fn continued(start: u64, digits: &[u8]) -> u64
    requires start { start ≤ past }
    requires digits { AllDigits digits.now }
    ensures { result ≡ min (number_after start digits.now) past }
{
    let mut number = start;
    for b in digits {
        number = (number * 10 + u64::from(*b - b'0')).min(PAST);
    }
    number
}

/// The size of a power of ten: the number after a sign or none, or the greatest `u64` where it is
/// larger. None where anything else stands there.
pub fn power(text: &[u8]) -> Option<u64>
    ensures { result ≡ cond (is_whole text.now)
        (Some (min (number_of (after_sign text.now)) u64.MAX)) None }
{
    let digits = after_sign(text);
    let count = digit_count(digits);
    if count == 0 || count != digits.len() {
        return None;
    }
    Some(number_up_to(digits, u64::MAX))
}
