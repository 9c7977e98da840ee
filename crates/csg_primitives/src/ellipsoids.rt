ghost use Rattle.std.specs.Prelude.{◌≡◌, ◌^◌, ◌+ℤ◌, ◌||◌, pos, neg_ℤ, int_le, true};
ghost use Rattle.solid_base.specs.Ranges.{IsSize, AreSizes};
ghost use Rattle.fixed_enclosure.specs.Spans.{enc_span, area_span, IsEnc, IsArea, IsBox};
ghost use Rattle.fixed_enclosure.specs.declared.enclosures.Sign.TheVariants.{Negative};
ghost use Rattle.fixed_enclosure.specs.Places.{spans_of};
ghost use Rattle.fixed_enclosure.specs.Values.{sign_of};
ghost use Rattle.csg_primitives.specs.WrittenMargins.{span_class, less_ratio, ellipsoid_span};
ghost use Rattle.csg_primitives.specs.WrittenMargins.{ellipsoid_spans};

use super::signs::class_of;
use fixed_enclosure::{Area, Box3, Enc, area_minus, area_sign, ratio, square};
use solid_base::{Class, U, Vec3};

/// The class of an ellipsoid over a box in its local axes (IGES 5.3, type 168).
pub(crate) fn ellipsoid_class(size: &Vec3, at: &Box3) -> Class
    requires sizes { AreSizes size.now }
    requires at_within { IsBox at.now }
    ensures { result ≡ span_class (ellipsoid_spans size.now (spans_of at.now)) }
{
    if is_beyond(size, at) {
        // No ratio is taken beyond a semi-axis.
        Class::Outside
    } else {
        class_of(area_sign(ellipsoid_margin(size, at)))
    }
}

// Whether something is known of each coordinate, and one of them is far enough beyond its semi-axis
// for the margin to be negative, whatever the others are.
fn is_beyond(size: &Vec3, at: &Box3) -> bool
    requires sizes { AreSizes size.now }
    requires at_within { IsBox at.now }
    ensures { result ≡ true → sign_of (ellipsoid_span size.now (spans_of at.now)) ≡ Negative }
{
    match (at.x, at.y, at.z) {
        (
            Enc::Span { lo: x_lo, hi: x_hi },
            Enc::Span { lo: y_lo, hi: y_hi },
            Enc::Span { lo: z_lo, hi: z_hi },
        ) => {
            is_past(size.x, x_lo, x_hi)
                || is_past(size.y, y_lo, y_hi)
                || is_past(size.z, z_lo, z_hi)
        }
        _ => false,
    }
}

// Whether numbers lie beyond a size by so much that their ratios, rounded, are beyond 1: a size has
// at most 100,000 units.
fn is_past(size: i128, lo: i128, hi: i128) -> bool
    requires size_within { IsSize size }
    ensures { result ≡
        (int_le (size +ℤ pos (10 ^ 5)) lo || int_le hi (neg_ℤ (size +ℤ pos (10 ^ 5)))) }
{
    let reach = size + 100_000;
    reach <= lo || hi <= -reach
}

// One square unit less the squares of the ratios of the coordinates to the semi-axes.
#[tactic(auto, unfolding(crate::specs::WrittenMargins::ellipsoid_span))]
fn ellipsoid_margin(size: &Vec3, at: &Box3) -> Area
    requires sizes { AreSizes size.now }
    requires at_within { IsBox at.now }
    ensures value { area_span result ≡ ellipsoid_span size.now (spans_of at.now) }
    ensures within { IsArea result }
{
    let less_x = less_ratio(square(Enc::point(U)), size.x, at.x);
    less_ratio(less_ratio(less_x, size.y, at.y), size.z, at.z)
}

// An area less the square of the ratio of a coordinate to a semi-axis.
#[tactic(auto, unfolding(crate::specs::WrittenMargins::less_ratio))]
fn less_ratio(rest: Area, size: i128, x: Enc) -> Area
    requires rest_within { IsArea rest }
    requires size_within { IsSize size }
    requires x_within { IsEnc x }
    ensures value { area_span result ≡ less_ratio (area_span rest) size (enc_span x) }
    ensures within { IsArea result }
{
    area_minus(rest, square(ratio(x, size)))
}
