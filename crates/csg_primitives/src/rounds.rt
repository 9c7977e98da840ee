ghost use Rattle.std.specs.Prelude.{◌≡◌, ◌≤ℤ◌, ◌<ℤ◌, pos};
ghost use Rattle.solid_base.specs.Range.{IsPointWithin, far};
ghost use Rattle.solid_base.specs.Ranges.{IsSize};
ghost use Rattle.fixed_enclosure.specs.Spans.{enc_span, area_span, IsEnc, IsArea, IsBox};
ghost use Rattle.fixed_enclosure.specs.Places.{spans_of};
ghost use Rattle.csg_primitives.specs.WrittenFrames.{height_span, squared_radius_span};
ghost use Rattle.csg_primitives.specs.WrittenMargins.{span_class, cone_span, torus_span};
ghost use Rattle.csg_primitives.specs.WrittenMargins.{torus_sum_span, cylinder_spans, cone_spans};
ghost use Rattle.csg_primitives.specs.WrittenMargins.{torus_spans};

use super::balls::within_radius;
use super::frames::{Axial, along};
use super::sides::{between, is_beyond_faces};
use super::signs::{both, class_of};
use fixed_enclosure::{
    Area, Box3, Enc, Sign, area_minus, area_sign, area_sum, offset, root, square, times,
};
use solid_base::{Class, Vec3};

/// The class of a cylinder over a box (IGES 5.3, type 154). The distance from the axis is found
/// only where places don't lie beyond a face.
#[tactic(auto, unfolding(crate::specs::WrittenFrames::height_span, crate::specs::WrittenFrames::squared_radius_span))]
pub(crate) fn cylinder_over(h: i128, r: i128, foot: &Vec3, w: &Vec3, at: &Box3) -> Class
    requires h_within { IsSize h }
    requires r_within { IsSize r }
    requires foot_within { IsPointWithin far foot.now }
    requires w_within { IsPointWithin far w.now }
    requires at_within { IsBox at.now }
    ensures { result ≡
        span_class (cylinder_spans h r (height_span foot.now w.now (spans_of at.now))
        (squared_radius_span foot.now w.now (spans_of at.now))) }
{
    let d = offset(at, foot);
    if is_beyond_faces(h, &d, w) {
        Class::Outside
    } else {
        cylinder_class(h, r, &along(&d, w))
    }
}

/// The class of a cone over a box (IGES 5.3, type 156), with the distance from the axis found as
/// for a cylinder.
#[tactic(auto, unfolding(crate::specs::WrittenFrames::height_span, crate::specs::WrittenFrames::squared_radius_span))]
pub(crate) fn cone_over(h: i128, r1: i128, r2: i128, foot: &Vec3, w: &Vec3, at: &Box3) -> Class
    requires h_within { IsSize h }
    requires r1_within { IsSize r1 }
    requires r2_from_zero { pos 0 ≤ℤ r2 }
    requires r2_below { r2 <ℤ r1 }
    requires foot_within { IsPointWithin far foot.now }
    requires w_within { IsPointWithin far w.now }
    requires at_within { IsBox at.now }
    ensures { result ≡
        span_class (cone_spans h r1 r2 (height_span foot.now w.now (spans_of at.now))
        (squared_radius_span foot.now w.now (spans_of at.now))) }
{
    let d = offset(at, foot);
    if is_beyond_faces(h, &d, w) {
        Class::Outside
    } else {
        cone_class(h, r1, r2, &along(&d, w))
    }
}

// The class of a cylinder over places about its axis.
fn cylinder_class(h: i128, r: i128, at: &Axial) -> Class
    requires h_within { IsSize h }
    requires r_within { IsSize r }
    requires height_within { IsEnc at.now.height }
    requires radius_within { IsArea at.now.squared_radius }
    ensures { result ≡
        span_class (cylinder_spans h r (enc_span at.now.height) (area_span at.now.squared_radius)) }
{
    let faces = between(h, at.height);
    class_of(both(faces, area_sign(within_radius(r, at.squared_radius))))
}

// The class of a cone over places about its axis.
fn cone_class(h: i128, r1: i128, r2: i128, at: &Axial) -> Class
    requires h_within { IsSize h }
    requires r1_within { IsSize r1 }
    requires r2_from_zero { pos 0 ≤ℤ r2 }
    requires r2_below { r2 <ℤ r1 }
    requires height_within { IsEnc at.now.height }
    requires radius_within { IsArea at.now.squared_radius }
    ensures { result ≡
        span_class (cone_spans h r1 r2 (enc_span at.now.height) (area_span at.now.squared_radius)) }
{
    match between(h, at.height) {
        // No root is taken beyond a face.
        Sign::Negative => Class::Outside,
        faces => class_of(both(faces, area_sign(cone_margin(h, r1, r2, at)))),
    }
}

// How far places lie within the slanted side of a cone, times its height.
#[tactic(auto, unfolding(crate::specs::WrittenMargins::cone_span))]
fn cone_margin(h: i128, r1: i128, r2: i128, at: &Axial) -> Area
    requires h_within { IsSize h }
    requires r1_within { IsSize r1 }
    requires r2_from_zero { pos 0 ≤ℤ r2 }
    requires r2_below { r2 <ℤ r1 }
    requires height_within { IsEnc at.now.height }
    requires radius_within { IsArea at.now.squared_radius }
    ensures value { area_span result ≡
        cone_span h r1 r2 (enc_span at.now.height) (area_span at.now.squared_radius) }
    ensures within { IsArea result }
{
    let foot = times(Enc::point(r1), Enc::point(h));
    let reach = area_minus(foot, times(Enc::point(r1 - r2), at.height));
    area_minus(reach, times(Enc::point(h), root(at.squared_radius)))
}

/// The class of a torus over places about its axis (IGES 5.3, type 160).
pub(crate) fn torus_class(r1: i128, r2: i128, at: &Axial) -> Class
    requires r1_within { IsSize r1 }
    requires r2_within { IsSize r2 }
    requires height_within { IsEnc at.now.height }
    requires radius_within { IsArea at.now.squared_radius }
    ensures { result ≡
        span_class (torus_spans r1 r2 (enc_span at.now.height) (area_span at.now.squared_radius)) }
{
    class_of(area_sign(torus_margin(r1, r2, at)))
}

// 2 R1 r less the sum that equals it on the surface of a torus.
#[tactic(auto, unfolding(crate::specs::WrittenMargins::torus_span))]
fn torus_margin(r1: i128, r2: i128, at: &Axial) -> Area
    requires r1_within { IsSize r1 }
    requires r2_within { IsSize r2 }
    requires height_within { IsEnc at.now.height }
    requires radius_within { IsArea at.now.squared_radius }
    ensures value { area_span result ≡
        torus_span r1 r2 (enc_span at.now.height) (area_span at.now.squared_radius) }
    ensures within { IsArea result }
{
    let reach = times(Enc::point(2 * r1), root(at.squared_radius));
    area_minus(reach, torus_sum(r1, r2, at))
}

// The square of the distance from the centre, and that of R1 less that of R2.
#[tactic(auto, unfolding(crate::specs::WrittenMargins::torus_sum_span))]
fn torus_sum(r1: i128, r2: i128, at: &Axial) -> Area
    requires r1_within { IsSize r1 }
    requires r2_within { IsSize r2 }
    requires height_within { IsEnc at.now.height }
    requires radius_within { IsArea at.now.squared_radius }
    ensures value { area_span result ≡
        torus_sum_span r1 r2 (enc_span at.now.height) (area_span at.now.squared_radius) }
    ensures within { IsArea result }
{
    let distance = area_sum(at.squared_radius, square(at.height));
    area_minus(
        area_sum(distance, square(Enc::point(r1))),
        square(Enc::point(r2)),
    )
}
