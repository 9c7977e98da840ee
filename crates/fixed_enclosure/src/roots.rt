ghost use Rattle.std.specs.Prelude.{◌≡◌, ◌≤◌, ◌<◌, ◌≤ℤ◌, ◌+◌, ◌*◌, ◌/◌, ◌^◌, pos};
ghost use Rattle.solid_base.specs.Range.{IsWithin};
ghost use Rattle.fixed_enclosure.specs.Spans.{enc_span, area_span, area_bound, IsEnc, IsArea};
ghost use Rattle.fixed_enclosure.specs.Roots.{floor_root, ceil_root};
ghost use Rattle.fixed_enclosure.specs.Values.{root_of};

use super::bounds::enc_bounded;
use super::enclosures::{Area, Enc};

// Where the steps to the root of 61 or 62 bits start: between the least such root and the greatest.
const MIDDLE: u64 = 1_610_612_736;

/// The gaps that are divided in 64 bits.
const NEAR: i128 = 4_000_000_000_000_000_000;

/// The square root of an area, rounded outward to whole steps. The root of a negative area is 0.
#[tactic(auto, unfolding(crate::specs::Values::root_of))]
pub fn root(a: Area) -> Enc
    requires a_within { IsArea a }
    ensures value { enc_span result ≡ root_of (area_span a) }
    ensures within { IsEnc result }
{
    match a {
        Area::All => Enc::All,
        Area::Span { lo, hi } => {
            let low = floor_root(lo);
            enc_bounded(low, ceil_root(hi, low))
        }
    }
}

// The root, rounded down; that of a negative number is 0.
fn floor_root(z: i128) -> i128
    requires { IsWithin area_bound z }
    ensures value { result ≡ floor_root z }
    ensures within { IsWithin (4 * 10 ^ 18) result }
    ensures from_zero { pos 0 ≤ℤ result }
{
    if z <= 0 {
        0
    } else {
        whole_root(z as u128) as i128
    }
}

// The root, rounded up; that of a negative number is 0. `near` is mostly near to it.
fn ceil_root(z: i128, near: i128) -> i128
    requires z_within { IsWithin area_bound z }
    requires near_from_zero { pos 0 ≤ℤ near }
    requires near_within { near ≤ℤ pos (4 * 10 ^ 18) }
    ensures value { result ≡ ceil_root z }
    ensures within { IsWithin (4 * 10 ^ 18 + 1) result }
{
    let root = tangent_root(z, near);
    if 0 < root && (root - 1) * (root - 1) < z && z <= root * root {
        root
    } else {
        far_ceil_root(z)
    }
}

// Where the tangent of the square at `near` reaches `z`, rounded up: the root, where they are near.
fn tangent_root(z: i128, near: i128) -> i128
    requires z_within { IsWithin area_bound z }
    requires near_from_zero { pos 0 ≤ℤ near }
    requires near_within { near ≤ℤ pos (4 * 10 ^ 18) }
    ensures from_zero { pos 0 ≤ℤ result }
    ensures within { result ≤ℤ pos (9 * 10 ^ 18) }
{
    let gap = z - near * near;
    if 0 < near && 0 < gap && gap < NEAR {
        near + steps_along(gap as u64, near as u64) as i128
    } else {
        near
    }
}

// The steps on the tangent of the square at `near` that reach a gap.
fn steps_along(gap: u64, near: u64) -> u64
    requires gap_above_zero { 0 < gap }
    requires near_above_zero { 0 < near }
    requires near_small { near ≤ 4 * 10 ^ 18 }
    ensures { result ≤ gap }
{
    (gap - 1) / (2 * near) + 1
}

// The root, rounded up; that of a negative number is 0.
fn far_ceil_root(z: i128) -> i128
    requires { IsWithin area_bound z }
    ensures value { result ≡ ceil_root z }
    ensures within { IsWithin (4 * 10 ^ 18 + 1) result }
{
    let root = floor_root(z);
    if root * root < z { root + 1 } else { root }
}

// The greatest number whose square is at most `z`. The root of the leading bits, 61 or 62 of them,
// is so near to it that mostly no more steps are taken.
fn whole_root(z: u128) -> u128
    requires { z < 2 ^ 124 }
    ensures below { result * result ≤ z }
    ensures above { z < (result + 1) * (result + 1) }
{
    let bits = 128 - z.leading_zeros();
    if bits <= 62 {
        return short_root(z as u64) as u128;
    }
    let shift = (bits - 61) / 2;
    let leading = short_root((z >> (2 * shift)) as u64);
    root_below(z, nearer(z, leading, shift))
}

// One of Newton's steps from the next number after the root of the leading bits, and one less where
// that is not below the root. What the square of the start has too much is so little that 64 bits
// are divided.
fn nearer(z: u128, leading: u64, shift: u32) -> u128
    requires below { leading * leading ≤ z / 2 ^ (2 * shift) }
    requires above { z / 2 ^ (2 * shift) < (leading + 1) * (leading + 1) }
    requires leading_small { leading < 2 ^ 31 }
    requires shift_small { shift ≤ 31 }
    ensures from_above { z < (result + 1) * (result + 1) }
    ensures small { result < 2 ^ 63 }
{
    let start = ((leading + 1) as u128) << shift;
    let excess = ((start * start - z) >> shift) as u64;
    let root = start - (excess / (2 * (leading + 1))) as u128;
    if z < root * root { root - 1 } else { root }
}

// The greatest number whose square is at most `z`, by Newton's steps from one that is no less.
fn root_below(z: u128, start: u128) -> u128
    requires from_above { z < (start + 1) * (start + 1) }
    requires small { start < 2 ^ 63 }
    ensures below { result * result ≤ z }
    ensures above { z < (result + 1) * (result + 1) }
{
    let mut root = start;
    while root * root > z {
        root = (root + z / root) / 2;
    }
    root
}

// The greatest number whose square is at most `z`. For 61 or 62 bits three steps reach it, mostly.
fn short_root(z: u64) -> u64
    requires { z < 2 ^ 62 }
    ensures below { result * result ≤ z }
    ensures above { z < (result + 1) * (result + 1) }
{
    let first = (MIDDLE + z / MIDDLE) / 2;
    let second = short_step(z, first);
    short_root_below(z, short_step(z, second))
}

// One of Newton's steps.
fn short_step(z: u64, root: u64) -> u64
    requires above_zero { 0 < root }
    requires from_above { z < (root + 1) * (root + 1) }
    requires small { root < 2 ^ 32 }
    ensures from_above { z < (result + 1) * (result + 1) }
    ensures half { root ≤ 2 * result + 1 }
    ensures small { result ≤ root + 1 }
{
    (root + z / root) / 2
}

// The greatest number whose square is at most `z`, by Newton's steps from one that is no less.
fn short_root_below(z: u64, start: u64) -> u64
    requires from_above { z < (start + 1) * (start + 1) }
    requires small { start < 2 ^ 32 }
    ensures below { result * result ≤ z }
    ensures above { z < (result + 1) * (result + 1) }
{
    let mut root = start;
    while root * root > z {
        root = (root + z / root) / 2;
    }
    root
}
