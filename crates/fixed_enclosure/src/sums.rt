ghost use Rattle.std.specs.Prelude.{◌≡◌, ◌^◌};
ghost use Rattle.fixed_enclosure.specs.Spans.{enc_span, area_span, enc_bound, area_bound, IsSpan};
ghost use Rattle.fixed_enclosure.specs.Spans.{IsEnc, IsArea};
ghost use Rattle.fixed_enclosure.specs.Values.{sum_of, minus_of};
ghost use Rattle.fixed_enclosure.specs.Places.{three_sum};

use super::bounds::{area_bounded, enc_bounded};
use super::enclosures::{Area, Enc};

/// The sum of two lengths.
#[tactic(auto, unfolding(crate::specs::Values::sum_of))]
pub fn sum(a: Enc, b: Enc) -> Enc
    requires a_within { IsEnc a }
    requires b_within { IsEnc b }
    ensures value { enc_span result ≡ sum_of enc_bound (enc_span a) (enc_span b) }
    ensures within { IsEnc result }
{
    match (a, b) {
        (Enc::Span { lo: a_lo, hi: a_hi }, Enc::Span { lo: b_lo, hi: b_hi }) => {
            enc_bounded(a_lo + b_lo, a_hi + b_hi)
        }
        _ => Enc::All,
    }
}

/// The difference of two lengths.
#[tactic(auto, unfolding(crate::specs::Values::minus_of))]
pub fn minus(a: Enc, b: Enc) -> Enc
    requires a_within { IsEnc a }
    requires b_within { IsEnc b }
    ensures value { enc_span result ≡ minus_of enc_bound (enc_span a) (enc_span b) }
    ensures within { IsEnc result }
{
    match (a, b) {
        (Enc::Span { lo: a_lo, hi: a_hi }, Enc::Span { lo: b_lo, hi: b_hi }) => {
            enc_bounded(a_lo - b_hi, a_hi - b_lo)
        }
        _ => Enc::All,
    }
}

/// The sum of two areas.
#[tactic(auto, unfolding(crate::specs::Values::sum_of))]
pub fn area_sum(a: Area, b: Area) -> Area
    requires a_within { IsArea a }
    requires b_within { IsArea b }
    ensures value { area_span result ≡ sum_of area_bound (area_span a) (area_span b) }
    ensures within { IsArea result }
{
    match (a, b) {
        (Area::Span { lo: a_lo, hi: a_hi }, Area::Span { lo: b_lo, hi: b_hi }) => {
            area_bounded(a_lo + b_lo, a_hi + b_hi)
        }
        _ => Area::All,
    }
}

/// The difference of two areas.
#[tactic(auto, unfolding(crate::specs::Values::minus_of))]
pub fn area_minus(a: Area, b: Area) -> Area
    requires a_within { IsArea a }
    requires b_within { IsArea b }
    ensures value { area_span result ≡ minus_of area_bound (area_span a) (area_span b) }
    ensures within { IsArea result }
{
    match (a, b) {
        (Area::Span { lo: a_lo, hi: a_hi }, Area::Span { lo: b_lo, hi: b_hi }) => {
            area_bounded(a_lo - b_hi, a_hi - b_lo)
        }
        _ => Area::All,
    }
}

/// The sum of three areas, from left to right, that are near enough for it to be in range.
#[tactic(auto, unfolding(crate::specs::Places::three_sum, crate::specs::Values::sum_of))]
pub(crate) fn near_sum(a: Area, b: Area, c: Area) -> Area
    requires a_near { IsSpan (10 ^ 36) (area_span a) }
    requires b_near { IsSpan (10 ^ 36) (area_span b) }
    requires c_near { IsSpan (10 ^ 36) (area_span c) }
    ensures value { area_span result ≡ three_sum (area_span a) (area_span b) (area_span c) }
    ensures within { IsArea result }
{
    match (a, b, c) {
        (
            Area::Span { lo: a_lo, hi: a_hi },
            Area::Span { lo: b_lo, hi: b_hi },
            Area::Span { lo: c_lo, hi: c_hi },
        ) => Area::Span {
            lo: a_lo + b_lo + c_lo,
            hi: a_hi + b_hi + c_hi,
        },
        _ => Area::All,
    }
}

/// The difference of two areas that are near enough for it to be in range.
#[tactic(auto, unfolding(crate::specs::Values::minus_of))]
pub(crate) fn near_minus(a: Area, b: Area) -> Area
    requires a_near { IsSpan (10 ^ 36) (area_span a) }
    requires b_near { IsSpan (10 ^ 36) (area_span b) }
    ensures value { area_span result ≡ minus_of area_bound (area_span a) (area_span b) }
    ensures within { IsArea result }
{
    match (a, b) {
        (Area::Span { lo: a_lo, hi: a_hi }, Area::Span { lo: b_lo, hi: b_hi }) => Area::Span {
            lo: a_lo - b_hi,
            hi: a_hi - b_lo,
        },
        _ => Area::All,
    }
}
