ghost use Rattle.std.specs.Prelude.{◌≡◌};
ghost use Rattle.fixed_enclosure.specs.Spans.{Between, enc_span, area_span};
ghost use Rattle.fixed_enclosure.specs.Values.{sign_of};

use super::enclosures::{Area, Enc, Sign};

/// The sign of each length that `a` holds.
#[tactic(auto, unfolding(crate::specs::Values::sign_of))]
pub fn sign_of(a: Enc) -> Sign
    ensures { result ≡ sign_of (enc_span a) }
{
    match a {
        Enc::All => Sign::Open,
        Enc::Span { lo, hi } => sign_between(lo, hi),
    }
}

/// The sign of each area that `a` holds.
#[tactic(auto, unfolding(crate::specs::Values::sign_of))]
pub fn area_sign(a: Area) -> Sign
    ensures { result ≡ sign_of (area_span a) }
{
    match a {
        Area::All => Sign::Open,
        Area::Span { lo, hi } => sign_between(lo, hi),
    }
}

// The sign of each number from `lo` to `hi`.
#[tactic(auto, unfolding(crate::specs::Values::sign_of))]
fn sign_between(lo: i128, hi: i128) -> Sign
    ensures { result ≡ sign_of (Between lo hi) }
{
    if hi < 0 {
        Sign::Negative
    } else if 0 < lo {
        Sign::Positive
    } else {
        Sign::Open
    }
}
