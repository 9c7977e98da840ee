ghost use Rattle.std.specs.Prelude.{◌≡◌, true};
ghost use Rattle.solid_base.specs.Range.{IsPointWithin, far};
ghost use Rattle.fixed_enclosure.specs.Spans.{enc_span, area_span, area_bound, IsEnc, IsArea};
ghost use Rattle.fixed_enclosure.specs.Spans.{IsBox};
ghost use Rattle.fixed_enclosure.specs.Values.{sum_of, square_of};
ghost use Rattle.fixed_enclosure.specs.Places.{spans_of, point_spans, dot_span};
ghost use Rattle.csg_primitives.specs.WrittenFrames.{cross_spans, squared_length_span, height_span};
ghost use Rattle.csg_primitives.specs.WrittenFrames.{squared_radius_span, local_spans, frame_spans};
ghost use Rattle.csg_primitives.specs.WrittenFrames.{along_x, along_z, AreKnown};

use fixed_enclosure::{Area, Box3, Enc, area_sum, dot, offset, point_box, square, three_sum, turn};
use solid_base::{U, Vec3};

/// The coordinates of places along the local axes `u`, `w` × `u` and `w`, from a corner or centre
/// on.
#[tactic(auto, unfolding(crate::specs::WrittenFrames::local_spans))]
pub(crate) fn local_box(at: &Box3, from: &Vec3, u: &Vec3, w: &Vec3) -> Box3
    requires at_within { IsBox at.now }
    requires from_within { IsPointWithin far from.now }
    requires u_within { IsPointWithin far u.now }
    requires w_within { IsPointWithin far w.now }
    ensures value { spans_of result ≡ local_spans from.now u.now w.now (spans_of at.now) }
    ensures within { IsBox result }
{
    in_frame(&offset(at, from), u, w)
}

/// The coordinates of a way along the local axes: the way itself, where these are the model's axes.
pub(crate) fn in_frame(d: &Box3, u: &Vec3, w: &Vec3) -> Box3
    requires d_within { IsBox d.now }
    requires u_within { IsPointWithin far u.now }
    requires w_within { IsPointWithin far w.now }
    ensures value { spans_of result ≡ frame_spans u.now w.now (spans_of d.now) }
    ensures within { IsBox result }
{
    if is_known(d) && is_along_x(u) && is_along_z(w) {
        *d
    } else {
        framed(d, u, w)
    }
}

/// How far a way goes along an axis.
pub(crate) fn reach(d: &Box3, axis: &Vec3) -> Enc
    requires d_within { IsBox d.now }
    requires axis_within { IsPointWithin far axis.now }
    ensures value { enc_span result ≡ dot_span (spans_of d.now) (point_spans axis.now) }
    ensures within { IsEnc result }
{
    fixed_enclosure::along(d, axis)
}

// The coordinates of a way along any local axes.
fn framed(d: &Box3, u: &Vec3, w: &Vec3) -> Box3
    requires d_within { IsBox d.now }
    requires u_within { IsPointWithin far u.now }
    requires w_within { IsPointWithin far w.now }
    ensures value { spans_of result ≡ frame_spans u.now w.now (spans_of d.now) }
    ensures within { IsBox result }
{
    Box3 {
        x: reach(d, u),
        y: dot(d, &cross(&point_box(w), u)),
        z: reach(d, w),
    }
}

/// How far places lie along an axis, and the squares of their distances from it.
#[derive(Clone, Copy, Debug, PartialEq, Eq)]
pub(crate) struct Axial {
    pub(crate) height: Enc,
    pub(crate) squared_radius: Area,
}

/// The places of a box about the axis `w` from a foot or centre on.
#[tactic(auto, unfolding(crate::specs::WrittenFrames::height_span, crate::specs::WrittenFrames::squared_radius_span))]
pub(crate) fn about_axis(at: &Box3, foot: &Vec3, w: &Vec3) -> Axial
    requires at_within { IsBox at.now }
    requires foot_within { IsPointWithin far foot.now }
    requires w_within { IsPointWithin far w.now }
    ensures height { enc_span result.height ≡ height_span foot.now w.now (spans_of at.now) }
    ensures height_within { IsEnc result.height }
    ensures radius { area_span result.squared_radius ≡
        squared_radius_span foot.now w.now (spans_of at.now) }
    ensures radius_within { IsArea result.squared_radius }
{
    along(&offset(at, foot), w)
}

/// The height and the distance of a way: by its coordinates, where the axis is the model's Z axis.
pub(crate) fn along(d: &Box3, w: &Vec3) -> Axial
    requires d_within { IsBox d.now }
    requires w_within { IsPointWithin far w.now }
    ensures height { enc_span result.height ≡ dot_span (spans_of d.now) (point_spans w.now) }
    ensures height_within { IsEnc result.height }
    ensures radius { area_span result.squared_radius ≡
        squared_length_span (cross_spans (spans_of d.now) (point_spans w.now)) }
    ensures radius_within { IsArea result.squared_radius }
{
    if is_known(d) && is_along_z(w) {
        about_z(d)
    } else {
        turned(d, w)
    }
}

// The places about the Z axis of the model.
fn about_z(d: &Box3) -> Axial
    requires { IsBox d.now }
    ensures height { result.height ≡ d.now.z }
    ensures radius { area_span result.squared_radius ≡
        sum_of area_bound (square_of (enc_span d.now.y)) (square_of (enc_span d.now.x)) }
    ensures radius_within { IsArea result.squared_radius }
{
    Axial {
        height: d.z,
        squared_radius: area_sum(square(d.y), square(d.x)),
    }
}

// The places about any axis.
fn turned(d: &Box3, w: &Vec3) -> Axial
    requires d_within { IsBox d.now }
    requires w_within { IsPointWithin far w.now }
    ensures height { enc_span result.height ≡ dot_span (spans_of d.now) (point_spans w.now) }
    ensures height_within { IsEnc result.height }
    ensures radius { area_span result.squared_radius ≡
        squared_length_span (cross_spans (spans_of d.now) (point_spans w.now)) }
    ensures radius_within { IsArea result.squared_radius }
{
    Axial {
        height: reach(d, w),
        squared_radius: squared_length(&cross(d, w)),
    }
}

// Whether something is known of each coordinate.
fn is_known(d: &Box3) -> bool
    ensures { result ≡ true → AreKnown (spans_of d.now) }
{
    match (d.x, d.y, d.z) {
        (Enc::Span { .. }, Enc::Span { .. }, Enc::Span { .. }) => true,
        _ => false,
    }
}

// Whether a direction is the X axis of the model.
fn is_along_x(direction: &Vec3) -> bool
    ensures { result ≡ true → direction.now ≡ along_x }
{
    direction.x == U && direction.y == 0 && direction.z == 0
}

/// Whether a direction is the Z axis of the model.
pub(crate) fn is_along_z(direction: &Vec3) -> bool
    ensures { result ≡ true → direction.now ≡ along_z }
{
    direction.x == 0 && direction.y == 0 && direction.z == U
}

// The vector product with an axis, over a unit.
#[tactic(auto, unfolding(crate::specs::WrittenFrames::cross_spans, crate::specs::WrittenFrames::turn_span))]
fn cross(d: &Box3, w: &Vec3) -> Box3
    requires d_within { IsBox d.now }
    requires w_within { IsPointWithin far w.now }
    ensures value { spans_of result ≡ cross_spans (spans_of d.now) (point_spans w.now) }
    ensures within { IsBox result }
{
    Box3 {
        x: turn(d.y, w.z, d.z, w.y),
        y: turn(d.z, w.x, d.x, w.z),
        z: turn(d.x, w.y, d.y, w.x),
    }
}

/// The square of a length.
#[tactic(auto, unfolding(crate::specs::WrittenFrames::squared_length_span))]
pub(crate) fn squared_length(d: &Box3) -> Area
    requires { IsBox d.now }
    ensures value { area_span result ≡ squared_length_span (spans_of d.now) }
    ensures within { IsArea result }
{
    three_sum(square(d.x), square(d.y), square(d.z))
}
