ghost use Rattle.std.specs.Prelude.{◌≡◌, ◌≤◌, ◌<◌, ◌+◌, ◌-◌, ◌≤ℤ◌, ◌*◌, ◌*ℤ◌, ◌/◌, ◌^◌, pos};
ghost use Rattle.solid_base.specs.Range.{IsWithin};
ghost use Rattle.fixed_enclosure.specs.Spans.{enc_bound};
ghost use Rattle.fixed_enclosure.specs.Values.{floor_over, ceil_over, unit};

use super::bounds::ENC_BOUND;
use solid_base::{STEPS_IN_UNIT, U};

/// The greatest area that is a length in range over a unit.
pub(crate) const WIDEST: i128 = 1_000_000_000_000_000_000_000_000_000_000;

/// A unit has the factors 2^12 and 5^12.
const TWOS: u128 = 4096;

const FIVES: u64 = 244_140_625;

/// The parts into which a number is cut for division have 36 bits.
const PART: u64 = 68_719_476_736;

/// Ends of an area that are nearer than this are counted in 64 bits.
const NEAR: i128 = 4_000_000_000_000_000_000;

/// An end of an area over a unit, rounded down.
pub(crate) fn floor_unit(z: i128) -> i128
    requires { IsWithin (10 ^ 30) z }
    ensures value { result ≡ floor_over z (pos unit) }
    ensures within { IsWithin enc_bound result }
{
    over_unit((z + WIDEST) as u128) as i128 - ENC_BOUND
}

/// An end of an area over a unit, rounded up. `low` is a number of whole units that are no more
/// than it, and mostly near.
pub(crate) fn ceil_unit(z: i128, low: i128) -> i128
    requires z_within { IsWithin (10 ^ 30) z }
    requires low_within { IsWithin enc_bound low }
    requires low_below { (low *ℤ pos unit) ≤ℤ z }
    ensures value { result ≡ ceil_over z (pos unit) }
    ensures within { IsWithin enc_bound result }
{
    let rest = z - low * U;
    if rest < NEAR {
        low + units_above(rest as u64) as i128
    } else {
        -floor_unit(-z)
    }
}

// The units that a number reaches into.
fn units_above(rest: u64) -> u64
    requires { rest ≤ 4 * 10 ^ 18 }
    ensures { result ≡ (rest + (unit - 1)) / unit }
{
    (rest + (STEPS_IN_UNIT - 1)) / STEPS_IN_UNIT
}

// A number over a unit, rounded down: long division by parts, since 64 bits are divided by a
// constant in a tenth of the time of 128 bits.
fn over_unit(n: u128) -> u64
    requires { n < 2 ^ 101 }
    ensures { result ≡ n / unit }
{
    let halves = n / TWOS;
    let part = PART as u128;
    let high = (halves / part) as u64;
    let low = high % FIVES * PART + (halves % part) as u64;
    high / FIVES * PART + low / FIVES
}
