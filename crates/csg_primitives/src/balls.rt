ghost use Rattle.std.specs.Prelude.{◌≡◌};
ghost use Rattle.solid_base.specs.Ranges.{IsSize};
ghost use Rattle.fixed_enclosure.specs.Spans.{area_span, IsArea, IsBox};
ghost use Rattle.fixed_enclosure.specs.Places.{spans_of};
ghost use Rattle.csg_primitives.specs.WrittenMargins.{span_class, within_span, ball_spans};

use super::frames::squared_length;
use super::signs::class_of;
use fixed_enclosure::{Area, Box3, Enc, area_minus, area_sign, square};
use solid_base::Class;

/// The class of a sphere over a box of ways from its centre (IGES 5.3, type 158).
pub(crate) fn ball_class(r: i128, way: &Box3) -> Class
    requires r_within { IsSize r }
    requires way_within { IsBox way.now }
    ensures { result ≡ span_class (ball_spans r (spans_of way.now)) }
{
    class_of(area_sign(within_radius(r, squared_length(way))))
}

/// The square of a radius less a squared distance.
#[tactic(auto, unfolding(crate::specs::WrittenMargins::within_span))]
pub(crate) fn within_radius(r: i128, squared_distance: Area) -> Area
    requires r_within { IsSize r }
    requires distance_within { IsArea squared_distance }
    ensures value { area_span result ≡ within_span r (area_span squared_distance) }
    ensures within { IsArea result }
{
    area_minus(square(Enc::point(r)), squared_distance)
}
