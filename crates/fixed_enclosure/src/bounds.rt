ghost use Rattle.std.specs.Prelude.{◌≡◌, ◌≤ℤ◌};
ghost use Rattle.fixed_enclosure.specs.Spans.{enc_span, area_span, enc_bound, area_bound, IsEnc};
ghost use Rattle.fixed_enclosure.specs.Spans.{IsArea};
ghost use Rattle.fixed_enclosure.specs.Values.{bounded};

use super::enclosures::{Area, Enc};

/// The greatest end of a length, in steps.
pub(crate) const ENC_BOUND: i128 = 1_000_000_000_000_000_000;

/// The greatest end of an area, in square steps.
const AREA_BOUND: i128 = 10_000_000_000_000_000_000_000_000_000_000_000_000;

/// The length from `lo` to `hi`, or `All` where an end passes the bound.
pub(crate) fn enc_bounded(lo: i128, hi: i128) -> Enc
    requires in_order { lo ≤ℤ hi }
    ensures value { enc_span result ≡ bounded enc_bound lo hi }
    ensures within { IsEnc result }
{
    if lo < -ENC_BOUND || ENC_BOUND < hi {
        Enc::All
    } else {
        Enc::Span { lo, hi }
    }
}

/// The area from `lo` to `hi`, or `All` where an end passes the bound.
pub(crate) fn area_bounded(lo: i128, hi: i128) -> Area
    requires in_order { lo ≤ℤ hi }
    ensures value { area_span result ≡ bounded area_bound lo hi }
    ensures within { IsArea result }
{
    if lo < -AREA_BOUND || AREA_BOUND < hi {
        Area::All
    } else {
        Area::Span { lo, hi }
    }
}
