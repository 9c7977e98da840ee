ghost use Rattle.std.specs.Prelude.{◌≡◌};
ghost use Rattle.solid_base.specs.Range.{IsWithin, IsPointWithin, far};
ghost use Rattle.fixed_enclosure.specs.Spans.{enc_span, area_span, enc_bound, area_bound, IsEnc};
ghost use Rattle.fixed_enclosure.specs.Spans.{IsArea, IsBox};
ghost use Rattle.fixed_enclosure.specs.Values.{point_of, minus_of, times_of, narrow_of};
ghost use Rattle.fixed_enclosure.specs.Places.{spans_of, point_spans, offset_spans, three_sum};
ghost use Rattle.fixed_enclosure.specs.Places.{dot_span};

use super::enclosures::{Area, Box3, Enc};
use super::products::{multiple, narrow, times};
use super::sums::{area_sum, minus, near_minus, near_sum};
use solid_base::Vec3;

/// The way from a corner, a foot or a centre to the places of a box: each coordinate less that of
/// `from`, which is within 100,000 units.
#[tactic(auto, unfolding(crate::specs::Places::offset_spans))]
pub fn offset(at: &Box3, from: &Vec3) -> Box3
    requires at_within { IsBox at.now }
    requires from_within { IsPointWithin far from.now }
    ensures value { spans_of result ≡ offset_spans (spans_of at.now) from.now }
    ensures within { IsBox result }
{
    Box3 {
        x: gap(at.x, from.x),
        y: gap(at.y, from.y),
        z: gap(at.z, from.z),
    }
}

// The way from one coordinate to those that are enclosed.
fn gap(x: Enc, from: i128) -> Enc
    requires x_within { IsEnc x }
    requires from_within { IsWithin far from }
    ensures value { enc_span result ≡ minus_of enc_bound (enc_span x) (point_of from) }
    ensures within { IsEnc result }
{
    minus(x, Enc::point(from))
}

/// The box of one point or one direction, within 100,000 units.
pub fn point_box(direction: &Vec3) -> Box3
    requires { IsPointWithin far direction.now }
    ensures value { spans_of result ≡ point_spans direction.now }
    ensures within { IsBox result }
{
    Box3 {
        x: Enc::point(direction.x),
        y: Enc::point(direction.y),
        z: Enc::point(direction.z),
    }
}

/// The scalar product of two directions, over a unit: a length, rounded outward to whole steps.
#[tactic(auto, unfolding(crate::specs::Places::dot_span))]
pub fn dot(a: &Box3, b: &Box3) -> Enc
    requires a_within { IsBox a.now }
    requires b_within { IsBox b.now }
    ensures value { enc_span result ≡ dot_span (spans_of a.now) (spans_of b.now) }
    ensures within { IsEnc result }
{
    narrow(three_sum(times(a.x, b.x), times(a.y, b.y), times(a.z, b.z)))
}

/// How far a way goes along one direction: the scalar product, where nothing of the direction is
/// open.
#[tactic(auto, unfolding(crate::specs::Places::dot_span))]
pub fn along(way: &Box3, axis: &Vec3) -> Enc
    requires way_within { IsBox way.now }
    requires axis_within { IsPointWithin far axis.now }
    ensures value { enc_span result ≡ dot_span (spans_of way.now) (point_spans axis.now) }
    ensures within { IsEnc result }
{
    narrow(near_sum(
        multiple(way.x, axis.x),
        multiple(way.y, axis.y),
        multiple(way.z, axis.z),
    ))
}

/// The difference of two lengths' products with one number each, over a unit.
pub fn turn(a: Enc, b: i128, c: Enc, d: i128) -> Enc
    requires a_within { IsEnc a }
    requires b_within { IsWithin far b }
    requires c_within { IsEnc c }
    requires d_within { IsWithin far d }
    ensures value { enc_span result ≡ narrow_of (minus_of area_bound
        (times_of (enc_span a) (point_of b)) (times_of (enc_span c) (point_of d))) }
    ensures within { IsEnc result }
{
    narrow(near_minus(multiple(a, b), multiple(c, d)))
}

/// The sum of three areas, from left to right.
#[tactic(auto, unfolding(crate::specs::Places::three_sum))]
pub fn three_sum(a: Area, b: Area, c: Area) -> Area
    requires a_within { IsArea a }
    requires b_within { IsArea b }
    requires c_within { IsArea c }
    ensures value { area_span result ≡ three_sum (area_span a) (area_span b) (area_span c) }
    ensures within { IsArea result }
{
    area_sum(area_sum(a, b), c)
}
