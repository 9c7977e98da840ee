ghost use Rattle.std.specs.Prelude.{◌≡◌, ◌≤◌, ◌<◌, ◌+◌, ◌-◌, ◌*◌, ◌/◌, ◌^◌, ◌*ℤ◌, ◌≤ℤ◌, pos};
ghost use Rattle.solid_base.specs.Range.{IsWithin, far};
ghost use Rattle.fixed_enclosure.specs.Spans.{enc_span, enc_bound, IsEnc};
ghost use Rattle.fixed_enclosure.specs.Values.{cut, floor_over, ceil_over, ratio_of, unit};

use super::enclosures::Enc;
use solid_base::{STEPS_IN_UNIT, U};

/// The numbers of 64 bits.
const WORD: u128 = 18_446_744_073_709_551_616;

/// What an end of a length has more than a ratio is divided in 64 bits, where it is less than this.
const NEAR: i128 = 4_000_000_000_000_000_000;

/// The ratio of a length to a size in steps, which is above 0, as a number of 10^-12, rounded
/// outward. A ratio past 2 or -2 is taken as 2 or -2.
#[tactic(auto, unfolding(crate::specs::Values::ratio_of))]
pub fn ratio(a: Enc, size: i128) -> Enc
    requires a_within { IsEnc a }
    requires size_above_zero { pos 1 ≤ℤ size }
    requires size_within { size ≤ℤ pos far }
    ensures value { enc_span result ≡ ratio_of size (enc_span a) }
    ensures within { IsEnc result }
{
    match a {
        Enc::All => Enc::All,
        Enc::Span { lo, hi } => {
            let low = ratio_down(lo, size);
            Enc::Span {
                lo: low,
                hi: ratio_up(hi, size, low),
            }
        }
    }
}

// The ratio of a number to a size, rounded down. A number past twice the size needs no division.
fn ratio_down(z: i128, size: i128) -> i128
    requires z_within { IsWithin enc_bound z }
    requires size_above_zero { pos 1 ≤ℤ size }
    requires size_within { size ≤ℤ pos far }
    ensures value { result ≡ cut (pos (2 * unit)) (floor_over (z *ℤ pos unit) size) }
    ensures within { IsWithin (2 * unit) result }
{
    let twice = size + size;
    if z >= twice {
        2 * U
    } else if z <= -twice {
        -2 * U
    } else {
        over_size((z + twice) as u64, size as u64) as i128 - 2 * U
    }
}

// The ratio of a number to a size, rounded up. `low` is a ratio that is mostly no more than it, and
// near.
fn ratio_up(z: i128, size: i128, low: i128) -> i128
    requires z_within { IsWithin enc_bound z }
    requires size_above_zero { pos 1 ≤ℤ size }
    requires size_within { size ≤ℤ pos far }
    requires low_within { IsWithin (2 * unit) low }
    ensures value { result ≡ cut (pos (2 * unit)) (ceil_over (z *ℤ pos unit) size) }
    ensures within { IsWithin (2 * unit) result }
{
    let rest = z * U - low * size;
    if 0 <= rest && rest < NEAR {
        (low + sizes_above(rest as u64, size as u64) as i128).min(2 * U)
    } else {
        far_ratio_up(z, size)
    }
}

// The ratio of a number to a size, rounded up.
fn far_ratio_up(z: i128, size: i128) -> i128
    requires z_within { IsWithin enc_bound z }
    requires size_above_zero { pos 1 ≤ℤ size }
    requires size_within { size ≤ℤ pos far }
    ensures value { result ≡ cut (pos (2 * unit)) (ceil_over (z *ℤ pos unit) size) }
    ensures within { IsWithin (2 * unit) result }
{
    -ratio_down(-z, size)
}

// A number over a size, in parts of a unit, rounded down.
fn over_size(z: u64, size: u64) -> u64
    requires size_above_zero { 0 < size }
    requires size_within { size ≤ far }
    requires z_small { z ≤ 4 * size }
    ensures value { result ≡ z * unit / size }
    ensures small { result ≤ 4 * unit }
{
    let (parts, divisor) = (product(z, STEPS_IN_UNIT), size as u128);
    let near = near_over_size(z, size);
    let taken = product(near, size);
    if taken <= parts && parts - taken < 2 * divisor {
        if parts - taken < divisor {
            near
        } else {
            near + 1
        }
    } else {
        (parts / divisor) as u64
    }
}

// What a number over a size is, in parts of a unit. It is mostly right or one too low, so the
// caller tests it. Both are scaled until the size has 62 bits, and 64 bits find 2^94 over the size.
// The number is multiplied by that, and then what the first product leaves of it.
fn near_over_size(z: u64, size: u64) -> u64
    requires size_above_zero { 0 < size }
    requires size_within { size ≤ far }
{
    let shift = (4 * size).leading_zeros();
    let (number, divisor) = (z << shift, size << shift);
    let inverse = u64::MAX / ((divisor >> 30) + 1);
    let first = bits_from(
        61,
        product(bits_from(33, product(number, inverse)), STEPS_IN_UNIT),
    );
    let rest = product(number, STEPS_IN_UNIT).wrapping_sub(product(first, divisor));
    first.wrapping_add(bits_from(82, product(bits_from(12, rest), inverse)))
}

// The product of two numbers of 64 bits.
fn product(a: u64, b: u64) -> u128
    ensures { result ≡ a * b }
{
    a as u128 * b as u128
}

// The 64 bits of a number from one place on.
fn bits_from(place: u32, n: u128) -> u64
    requires { place < 128 }
{
    ((n >> place) % WORD) as u64
}

// The sizes that a number reaches into.
fn sizes_above(rest: u64, size: u64) -> u64
    requires size_above_zero { 0 < size }
    requires size_within { size ≤ far }
    requires rest_small { rest ≤ 4 * 10 ^ 18 }
    ensures value { result ≡ (rest + (size - 1)) / size }
    ensures small { result ≤ rest }
{
    if rest <= size {
        rest.min(1)
    } else {
        (rest + (size - 1)) / size
    }
}
