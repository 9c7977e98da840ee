ghost use Rattle.std.specs.Prelude.{◌≡◌, ℕ, List, ◌+◌, ◌-◌, ◌*◌, ◌^◌, ◌<◌, ◌≤◌, ◌++◌, min, length};
ghost use Rattle.solid_base.specs.Digits.{AreDigits, number_of};
ghost use Rattle.solid_base.specs.Spelling.{Sign};
ghost use Rattle.solid_base.specs.Decimal.{if_minus, unless_minus};
ghost use Rattle.decimal_scale.specs.Reading.{past, capped, is_minus, AllDigits};

use crate::digits::{PAST, continued};

/// A power of ten.
pub fn power_of_ten(exponent: u64) -> u64
    requires { exponent ≤ 18 }
    ensures value { result ≡ 10 ^ exponent }
    ensures bounds { (1 ≤ result) × (result ≤ 10 ^ 18) }
{
    POWERS[exponent as usize]
}

/// A number times a power of ten, or `PAST` where that is larger.
fn scaled(number: u64, exponent: u64) -> u64
    requires { number ≤ past }
    ensures { (n e : ℕ) → number ≡ min n past → min exponent 19 ≡ min e 19
        → result ≡ min (n * 10 ^ e) past }
{
    if number == 0 {
        0
    } else if exponent > 18 {
        PAST
    } else {
        number.saturating_mul(power_of_ten(exponent)).min(PAST)
    }
}

/// The number that the first digits spell, `keep` of them, after those of `start`, rounded by the
/// digit that follows; or `PAST` where it is larger. No digit after that one counts.
fn rounded(start: u64, digits: &[u8], keep: usize) -> u64
    requires start { start ≤ past }
    requires digits { AllDigits digits.now }
    requires kept { keep < length digits.now }
    ensures { (before rest : List ℕ) → start ≡ min (number_of before) past → AreDigits rest
        → result ≡ capped (number_of (before ++ (digits.now ++ rest))) 0
        (length digits.now - keep + length rest) }
{
    let number = continued(start, &digits[..keep]);
    if digits[keep] >= b'5' {
        (number + 1).min(PAST)
    } else {
        number
    }
}

/// The number with these digits before and after its point, times a power of ten, rounded; or
/// `PAST` where it is larger.
fn raised(whole: &[u8], decimals: &[u8], exponent: u64) -> u64
    requires whole { AllDigits whole.now }
    requires decimals { AllDigits decimals.now }
    ensures { (e : ℕ) → exponent ≡ min e u64.MAX
        → result ≡ capped (number_of (whole.now ++ decimals.now)) e (length decimals.now) }
{
    let start = continued(0, whole);
    let count = decimals.len() as u64;
    if exponent < count {
        rounded(start, decimals, exponent as usize)
    } else {
        scaled(continued(start, decimals), exponent - count)
    }
}

/// The number with these digits before its point, divided by a power of ten, rounded; or `PAST`
/// where it is larger. Its decimals don't count.
fn lowered(whole: &[u8], exponent: u64) -> u64
    requires whole { AllDigits whole.now }
    requires some { 0 < exponent }
    ensures { (decimals : List ℕ) (e : ℕ) → AreDigits decimals
        → min exponent (length whole.now + 1) ≡ min e (length whole.now + 1)
        → result ≡ capped (number_of (whole.now ++ decimals)) 0 (length decimals + e) }
{
    let count = whole.len() as u64;
    if exponent > count {
        0
    } else {
        rounded(0, whole, (count - exponent) as usize)
    }
}

/// The magnitude in steps of the number with these digits before and after its point and this
/// exponent; or `PAST` where it is larger.
pub fn magnitude(whole: &[u8], decimals: &[u8], is_negative: bool, exponent: u64) -> u64
    requires whole { AllDigits whole.now }
    requires decimals { AllDigits decimals.now }
    ensures { (sign : Sign) (e : ℕ) → is_negative ≡ is_minus sign → exponent ≡ min e u64.MAX
        → result ≡ capped (number_of (whole.now ++ decimals.now))
        (12 + unless_minus sign e) (length decimals.now + if_minus sign e) }
{
    if !is_negative {
        raised(whole, decimals, exponent.saturating_add(12))
    } else if exponent <= 12 {
        raised(whole, decimals, 12 - exponent)
    } else {
        lowered(whole, exponent - 12)
    }
}

const POWERS: [u64; 19] = [
    1,
    10,
    100,
    1_000,
    10_000,
    100_000,
    1_000_000,
    10_000_000,
    100_000_000,
    1_000_000_000,
    10_000_000_000,
    100_000_000_000,
    1_000_000_000_000,
    10_000_000_000_000,
    100_000_000_000_000,
    1_000_000_000_000_000,
    10_000_000_000_000_000,
    100_000_000_000_000_000,
    1_000_000_000_000_000_000,
];
