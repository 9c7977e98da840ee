ghost use Rattle.std.specs.Prelude.{◌≡◌};
ghost use Rattle.solid_base.specs.Ledgers.{counted};
ghost use Rattle.solid_base.specs.Ranges.{IsLawfulPrim};
ghost use Rattle.fixed_enclosure.specs.Spans.{IsBox};
ghost use Rattle.csg_primitives.specs.WrittenMargins.{written_class};

use super::balls::ball_class;
use super::ellipsoids::ellipsoid_class;
use super::frames::{about_axis, local_box};
use super::rounds::{cone_over, cylinder_over, torus_class};
use super::sides::{block_over, wedge_over};
use fixed_enclosure::{Box3, offset};
use solid_base::{Class, Ledger, Prim};

/// The class of a primitive over a box: exactly one tick a call.
pub fn leaf<L: Ledger>(prim: &Prim, at: &Box3, leaves: &mut L) -> Class
    requires prim { IsLawfulPrim prim.now }
    requires at { IsBox at.now }
    ensures written { result ≡ written_class prim.now at.now }
    ensures tick { L.count leaves.new ≡ counted (L.count leaves.old) 1 }
{
    leaves.tick();
    class_over(prim, at)
}

// The class of a primitive over a box.
#[tactic(auto, unfolding(crate::specs::WrittenMargins::written_margins))]
fn class_over(prim: &Prim, at: &Box3) -> Class
    requires prim { IsLawfulPrim prim.now }
    requires at { IsBox at.now }
    ensures { result ≡ written_class prim.now at.now }
{
    match prim {
        Prim::Block { size, corner, u, w } => block_over(size, corner, u, w, at),
        Prim::Wedge {
            size,
            ltx,
            corner,
            u,
            w,
        } => { wedge_over(size, *ltx, corner, u, w, at) }
        Prim::Cylinder { h, r, foot, w } => cylinder_over(*h, *r, foot, w, at),
        Prim::Cone { h, r1, r2, foot, w } => cone_over(*h, *r1, *r2, foot, w, at),
        Prim::Sphere { r, centre } => ball_class(*r, &offset(at, centre)),
        Prim::Torus { r1, r2, centre, w } => torus_class(*r1, *r2, &about_axis(at, centre, w)),
        Prim::Ellipsoid { size, centre, u, w } => {
            ellipsoid_class(size, &local_box(at, centre, u, w))
        }
    }
}
