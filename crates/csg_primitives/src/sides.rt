ghost use Rattle.std.specs.Prelude.{◌≡◌, ◌≤ℤ◌, ◌<ℤ◌, pos, true};
ghost use Rattle.solid_base.specs.Range.{IsPointWithin, far};
ghost use Rattle.solid_base.specs.Ranges.{IsSize, AreSizes};
ghost use Rattle.fixed_enclosure.specs.Spans.{enc_span, area_span, IsEnc, IsArea, IsBox};
ghost use Rattle.fixed_enclosure.specs.declared.enclosures.Sign.TheVariants.{Negative};
ghost use Rattle.fixed_enclosure.specs.Values.{sign_of};
ghost use Rattle.fixed_enclosure.specs.Places.{spans_of, point_spans, dot_span};
ghost use Rattle.csg_primitives.specs.WrittenFrames.{local_spans};
ghost use Rattle.csg_primitives.specs.WrittenMargins.{both_signs, span_class, below_span};
ghost use Rattle.csg_primitives.specs.WrittenMargins.{slant_span, block_spans, wedge_spans};

use super::frames::{in_frame, is_along_z, reach};
use super::signs::{both, class_of};
use fixed_enclosure::{
    Area, Box3, Enc, Sign, area_minus, area_sign, minus, offset, sign_of, times,
};
use solid_base::{Class, Vec3};

/// The class of a block over a box (IGES 5.3, type 150). The other local axes are found only where
/// places don't lie beyond the faces along the local Z axis.
#[tactic(auto, unfolding(crate::specs::WrittenFrames::local_spans))]
pub(crate) fn block_over(size: &Vec3, corner: &Vec3, u: &Vec3, w: &Vec3, at: &Box3) -> Class
    requires sizes { AreSizes size.now }
    requires corner_within { IsPointWithin far corner.now }
    requires u_within { IsPointWithin far u.now }
    requires w_within { IsPointWithin far w.now }
    requires at_within { IsBox at.now }
    ensures { result ≡
        span_class (block_spans size.now (local_spans corner.now u.now w.now (spans_of at.now))) }
{
    let d = offset(at, corner);
    if is_beyond_faces(size.z, &d, w) {
        Class::Outside
    } else {
        block_class(size, &in_frame(&d, u, w))
    }
}

/// The class of a wedge over a box (IGES 5.3, type 152), with its local axes found as for a block.
#[tactic(auto, unfolding(crate::specs::WrittenFrames::local_spans))]
pub(crate) fn wedge_over(
    size: &Vec3,
    ltx: i128,
    corner: &Vec3,
    u: &Vec3,
    w: &Vec3,
    at: &Box3,
) -> Class
    requires sizes { AreSizes size.now }
    requires ltx_from_zero { pos 0 ≤ℤ ltx }
    requires ltx_below { ltx <ℤ size.now.x }
    requires corner_within { IsPointWithin far corner.now }
    requires u_within { IsPointWithin far u.now }
    requires w_within { IsPointWithin far w.now }
    requires at_within { IsBox at.now }
    ensures { result ≡
        span_class
        (wedge_spans size.now ltx (local_spans corner.now u.now w.now (spans_of at.now))) }
{
    let d = offset(at, corner);
    if is_beyond_faces(size.z, &d, w) {
        Class::Outside
    } else {
        wedge_class(size, ltx, &in_frame(&d, u, w))
    }
}

/// Whether a way ends beyond a face at its start or at a length along an axis. Not asked along the
/// model's Z axis, where local coordinates cost nothing.
pub(crate) fn is_beyond_faces(size: i128, d: &Box3, w: &Vec3) -> bool
    requires size_within { IsSize size }
    requires d_within { IsBox d.now }
    requires w_within { IsPointWithin far w.now }
    ensures { result ≡ true →
        both_signs (sign_of (dot_span (spans_of d.now) (point_spans w.now)))
        (sign_of (below_span size (dot_span (spans_of d.now) (point_spans w.now)))) ≡ Negative }
{
    if is_along_z(w) {
        return false;
    }
    match between(size, reach(d, w)) {
        Sign::Negative => true,
        _ => false,
    }
}

// The class of a block over a box in its local axes.
fn block_class(size: &Vec3, at: &Box3) -> Class
    requires sizes { AreSizes size.now }
    requires at_within { IsBox at.now }
    ensures { result ≡ span_class (block_spans size.now (spans_of at.now)) }
{
    let xy = both(between(size.x, at.x), between(size.y, at.y));
    class_of(both(xy, between(size.z, at.z)))
}

// The class of a wedge over a box in its local axes.
fn wedge_class(size: &Vec3, ltx: i128, at: &Box3) -> Class
    requires sizes { AreSizes size.now }
    requires ltx_from_zero { pos 0 ≤ℤ ltx }
    requires ltx_below { ltx <ℤ size.now.x }
    requires at_within { IsBox at.now }
    ensures { result ≡ span_class (wedge_spans size.now ltx (spans_of at.now)) }
{
    let xy = both(sign_of(at.x), between(size.y, at.y));
    let xyz = both(xy, between(size.z, at.z));
    class_of(both(xyz, slant_sign(size, ltx, at)))
}

/// The sign of a coordinate above 0 and below a length.
pub(crate) fn between(size: i128, x: Enc) -> Sign
    requires size_within { IsSize size }
    requires x_within { IsEnc x }
    ensures { result ≡ both_signs (sign_of (enc_span x)) (sign_of (below_span size (enc_span x))) }
{
    both(sign_of(x), sign_of(below(size, x)))
}

// How far a coordinate lies below a length.
#[tactic(auto, unfolding(crate::specs::WrittenMargins::below_span))]
fn below(size: i128, x: Enc) -> Enc
    requires size_within { IsSize size }
    requires x_within { IsEnc x }
    ensures value { enc_span result ≡ below_span size (enc_span x) }
    ensures within { IsEnc result }
{
    minus(Enc::point(size), x)
}

// The sign of the slanted side.
fn slant_sign(size: &Vec3, ltx: i128, at: &Box3) -> Sign
    requires sizes { AreSizes size.now }
    requires ltx_from_zero { pos 0 ≤ℤ ltx }
    requires ltx_below { ltx <ℤ size.now.x }
    requires at_within { IsBox at.now }
    ensures { result ≡ sign_of (slant_span size.now ltx (spans_of at.now)) }
{
    area_sign(slant_margin(size, ltx, at))
}

// How far places lie within the slanted side, times LY.
#[tactic(auto, unfolding(crate::specs::WrittenMargins::slant_span))]
fn slant_margin(size: &Vec3, ltx: i128, at: &Box3) -> Area
    requires sizes { AreSizes size.now }
    requires ltx_from_zero { pos 0 ≤ℤ ltx }
    requires ltx_below { ltx <ℤ size.now.x }
    requires at_within { IsBox at.now }
    ensures value { area_span result ≡ slant_span size.now ltx (spans_of at.now) }
    ensures within { IsArea result }
{
    let reach = times(Enc::point(size.y), below(size.x, at.x));
    area_minus(reach, times(Enc::point(size.x - ltx), at.y))
}
