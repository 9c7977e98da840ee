ghost use Rattle.std.specs.Prelude.{◌≡◌, ◌≤ℤ◌, ◌<ℤ◌, ◌*ℤ◌, ◌^◌, pos};
ghost use Rattle.solid_base.specs.Range.{IsWithin};
ghost use Rattle.fixed_enclosure.specs.Spans.{Between, enc_span, area_span, enc_bound, area_bound};
ghost use Rattle.fixed_enclosure.specs.Spans.{IsSpan, IsEnc, IsArea};
ghost use Rattle.fixed_enclosure.specs.Values.{bounded, point_of, least, greatest, times_of};
ghost use Rattle.fixed_enclosure.specs.Values.{square_of, narrow_of};

use super::bounds::area_bounded;
use super::enclosures::{Area, Enc};
use super::units::{WIDEST, ceil_unit, floor_unit};

/// The product of two lengths.
#[tactic(auto, unfolding(crate::specs::Values::times_of))]
pub fn times(a: Enc, b: Enc) -> Area
    requires a_within { IsEnc a }
    requires b_within { IsEnc b }
    ensures value { area_span result ≡ times_of (enc_span a) (enc_span b) }
    ensures within { IsArea result }
{
    match (a, b) {
        (Enc::Span { lo: a_lo, hi: a_hi }, Enc::Span { lo: b_lo, hi: b_hi }) => {
            product_span(a_lo, a_hi, b_lo, b_hi)
        }
        _ => Area::All,
    }
}

// The products of the numbers from `a_lo` to `a_hi` with those from `b_lo` to `b_hi`. One of the
// two is mostly one number, so that two products will do.
fn product_span(a_lo: i128, a_hi: i128, b_lo: i128, b_hi: i128) -> Area
    requires a_lo_within { IsWithin enc_bound a_lo }
    requires a_hi_within { IsWithin enc_bound a_hi }
    requires b_lo_within { IsWithin enc_bound b_lo }
    requires b_hi_within { IsWithin enc_bound b_hi }
    ensures value { area_span result ≡ times_of (Between a_lo a_hi) (Between b_lo b_hi) }
    ensures within { IsArea result }
{
    if b_lo == b_hi {
        multiples(a_lo, a_hi, b_lo)
    } else if a_lo == a_hi {
        multiples(b_lo, b_hi, a_lo)
    } else {
        corners(a_lo, a_hi, b_lo, b_hi)
    }
}

// The products of the numbers from `lo` to `hi` with one factor.
fn multiples(lo: i128, hi: i128, factor: i128) -> Area
    requires lo_within { IsWithin enc_bound lo }
    requires hi_within { IsWithin enc_bound hi }
    requires factor_within { IsWithin enc_bound factor }
    ensures value { area_span result ≡ times_of (Between lo hi) (point_of factor) }
    ensures within { IsArea result }
{
    let (p, q) = (product(lo, factor), product(hi, factor));
    Area::Span {
        lo: p.min(q),
        hi: p.max(q),
    }
}

// The products of the numbers of two spans, from those of their ends.
#[tactic(auto, unfolding(crate::specs::Values::times_of))]
fn corners(a_lo: i128, a_hi: i128, b_lo: i128, b_hi: i128) -> Area
    requires a_lo_within { IsWithin enc_bound a_lo }
    requires a_hi_within { IsWithin enc_bound a_hi }
    requires b_lo_within { IsWithin enc_bound b_lo }
    requires b_hi_within { IsWithin enc_bound b_hi }
    ensures value { area_span result ≡ times_of (Between a_lo a_hi) (Between b_lo b_hi) }
    ensures within { IsArea result }
{
    spanning(
        product(a_lo, b_lo),
        product(a_lo, b_hi),
        product(a_hi, b_lo),
        product(a_hi, b_hi),
    )
}

// The area from the least to the greatest of four numbers.
fn spanning(p: i128, q: i128, r: i128, s: i128) -> Area
    ensures value { area_span result ≡ bounded area_bound (least p q r s) (greatest p q r s) }
    ensures within { IsArea result }
{
    area_bounded(p.min(q).min(r.min(s)), p.max(q).max(r.max(s)))
}

// The product of two ends of lengths. They fit in 64 bits, whose product is one instruction.
fn product(a: i128, b: i128) -> i128
    requires a_within { IsWithin enc_bound a }
    requires b_within { IsWithin enc_bound b }
    ensures value { result ≡ a *ℤ b }
    ensures within { IsWithin area_bound result }
{
    (a as i64 as i128) * (b as i64 as i128)
}

/// The products of a length with one number. Three of them have a sum in range.
#[tactic(auto, unfolding(crate::specs::Values::times_of))]
pub(crate) fn multiple(a: Enc, factor: i128) -> Area
    requires a_within { IsEnc a }
    requires factor_within { IsWithin enc_bound factor }
    ensures value { area_span result ≡ times_of (enc_span a) (point_of factor) }
    ensures near { IsSpan (10 ^ 36) (area_span result) }
{
    match a {
        Enc::All => Area::All,
        Enc::Span { lo, hi } => multiple_span(lo, hi, factor),
    }
}

// The products of the numbers from `lo` to `hi` with one factor, whose sign says which end gives
// the least of them.
fn multiple_span(lo: i128, hi: i128, factor: i128) -> Area
    requires in_order { lo ≤ℤ hi }
    requires lo_within { IsWithin enc_bound lo }
    requires hi_within { IsWithin enc_bound hi }
    requires factor_within { IsWithin enc_bound factor }
    ensures value { area_span result ≡ times_of (Between lo hi) (point_of factor) }
    ensures near { IsSpan (10 ^ 36) (area_span result) }
{
    Area::Span {
        lo: product_by_sign(lo, hi, factor),
        hi: product_by_sign(hi, lo, factor),
    }
}

// The product of the factor with `upright`, or with `turned` where the factor is below 0.
fn product_by_sign(upright: i128, turned: i128, factor: i128) -> i128
    requires upright_within { IsWithin enc_bound upright }
    requires turned_within { IsWithin enc_bound turned }
    requires factor_within { IsWithin enc_bound factor }
    ensures from_zero { pos 0 ≤ℤ factor → result ≡ upright *ℤ factor }
    ensures below_zero { factor <ℤ pos 0 → result ≡ turned *ℤ factor }
{
    if factor < 0 {
        product(turned, factor)
    } else {
        product(upright, factor)
    }
}

/// The square of a length: never negative, and from 0 where the length may be 0.
#[tactic(auto, unfolding(crate::specs::Values::square_of))]
pub fn square(a: Enc) -> Area
    requires a_within { IsEnc a }
    ensures value { area_span result ≡ square_of (enc_span a) }
    ensures within { IsArea result }
{
    match a {
        Enc::All => Area::All,
        Enc::Span { lo, hi } => square_span(lo, hi),
    }
}

// The squares of the numbers from `lo` to `hi`.
#[tactic(auto, unfolding(crate::specs::Values::square_of))]
fn square_span(lo: i128, hi: i128) -> Area
    requires lo_within { IsWithin enc_bound lo }
    requires hi_within { IsWithin enc_bound hi }
    ensures value { area_span result ≡ square_of (Between lo hi) }
    ensures within { IsArea result }
{
    let (low, high) = (product(lo, lo), product(hi, hi));
    if lo <= 0 && 0 <= hi {
        area_bounded(0, low.max(high))
    } else {
        area_bounded(low.min(high), low.max(high))
    }
}

/// An area over one unit, as a length, rounded outward to whole steps.
#[tactic(auto, unfolding(crate::specs::Values::narrow_of))]
pub fn narrow(a: Area) -> Enc
    requires a_within { IsArea a }
    ensures value { enc_span result ≡ narrow_of (area_span a) }
    ensures within { IsEnc result }
{
    match a {
        Area::All => Enc::All,
        Area::Span { lo, hi } => narrow_span(lo, hi),
    }
}

// The numbers from `lo` to `hi` over one unit.
fn narrow_span(lo: i128, hi: i128) -> Enc
    requires in_order { lo ≤ℤ hi }
    ensures value { enc_span result ≡ narrow_of (Between lo hi) }
    ensures within { IsEnc result }
{
    if lo < -WIDEST || WIDEST < hi {
        return Enc::All;
    }
    let low = floor_unit(lo);
    Enc::Span {
        lo: low,
        hi: ceil_unit(hi, low),
    }
}
