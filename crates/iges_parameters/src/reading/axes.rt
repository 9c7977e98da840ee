ghost use Rattle.std.specs.Prelude.{◌≡◌, ◌<◌, ◌↔◌, ◌^◌, ◌*◌, ◌*ℤ◌, IsTrue, IfOk};
ghost use Rattle.solid_base.specs.Range.{IsWithin, IsPointWithin};
ghost use Rattle.solid_base.specs.Ranges.{dot};
ghost use Rattle.solid_base.specs.Outcomes.{Gives};
ghost use Rattle.iges_parameters.specs.Rows.{is_small, is_unit, is_right_angle, are_orthonormal};
ghost use Rattle.iges_parameters.specs.Rows.{with_axis, with_axes, checked_prim, checked_affine};

use crate::faults::RowFault;
use solid_base::{Affine, Prim, U, Vec3};

/// A square unit, in steps squared.
const SQUARE_UNIT: i128 = U * U;

/// A thousandth of a square unit, in steps squared.
const THOUSANDTH: u128 = 1_000_000_000_000_000_000_000;

/// Two units: no direction of about unit length has a longer component, and products up to it fit.
const LONG: u128 = 2_000_000_000_000;

fn is_short(a: &Vec3) -> bool
    ensures { IsTrue result ↔ IsPointWithin (2 * 10 ^ 12) a.now }
{
    a.x.unsigned_abs() <= LONG && a.y.unsigned_abs() <= LONG && a.z.unsigned_abs() <= LONG
}

fn product(a: i128, b: i128) -> i128
    requires first { IsWithin (2 * 10 ^ 12) a }
    requires second { IsWithin (2 * 10 ^ 12) b }
    ensures value { result ≡ a *ℤ b }
    ensures within { IsWithin (4 * 10 ^ 24) result }
{
    a * b
}

fn dot(a: &Vec3, b: &Vec3) -> i128
    requires first { IsPointWithin (2 * 10 ^ 12) a.now }
    requires second { IsPointWithin (2 * 10 ^ 12) b.now }
    ensures value { result ≡ dot a.now b.now }
    ensures within { IsWithin (12 * 10 ^ 24) result }
{
    product(a.x, b.x) + product(a.y, b.y) + product(a.z, b.z)
}

fn is_small(n: i128) -> bool
    ensures { result ≡ is_small n }
{
    n.unsigned_abs() <= THOUSANDTH
}

/// Whether a direction has unit length: its squared length is within a thousandth of 1.
fn is_unit(a: &Vec3) -> bool
    ensures value { result ≡ is_unit a.now }
    ensures short { IsTrue result → IsPointWithin (2 * 10 ^ 12) a.now }
{
    is_short(a) && is_small(dot(a, a) - SQUARE_UNIT)
}

/// Whether two directions are at a right angle: their scalar product is within a thousandth of 0.
fn is_right_angle(a: &Vec3, b: &Vec3) -> bool
    requires first { IsPointWithin (2 * 10 ^ 12) a.now }
    requires second { IsPointWithin (2 * 10 ^ 12) b.now }
    ensures { result ≡ is_right_angle a.now b.now }
{
    is_small(dot(a, b))
}

fn with_axis(prim: Prim, index: u32, w: &Vec3) -> Result<Prim, RowFault>
    ensures { Gives (λ p. p) result (with_axis prim index w.now) }
{
    if is_unit(w) {
        Ok(prim)
    } else {
        Err(RowFault::BadAxis(index))
    }
}

fn with_axes(prim: Prim, index: u32, u: &Vec3, w: &Vec3) -> Result<Prim, RowFault>
    requires { index < 100 }
    ensures { Gives (λ p. p) result (with_axes prim index u.now w.now) }
{
    if !is_unit(u) {
        return Err(RowFault::BadAxis(index));
    }
    if is_unit(w) && is_right_angle(u, w) {
        Ok(prim)
    } else {
        Err(RowFault::BadAxis(index + 3))
    }
}

/// A primitive whose axes are in their bounds: of unit length, and at a right angle where there are
/// two. BadAxis with the index of the first that isn't.
#[tactic(auto, unfolding(crate::specs::Rows::checked_prim))]
pub fn checked_prim(prim: Prim) -> Result<Prim, RowFault>
    ensures { Gives (λ p. p) result (checked_prim prim) }
{
    match prim {
        Prim::Block { u, w, .. } | Prim::Ellipsoid { u, w, .. } => with_axes(prim, 7, &u, &w),
        Prim::Wedge { u, w, .. } => with_axes(prim, 8, &u, &w),
        Prim::Cylinder { w, .. } | Prim::Torus { w, .. } => with_axis(prim, 6, &w),
        Prim::Cone { w, .. } => with_axis(prim, 7, &w),
        Prim::Sphere { .. } => Ok(prim),
    }
}

fn are_orthonormal(a: &Vec3, b: &Vec3, c: &Vec3) -> bool
    ensures { result ≡ are_orthonormal a.now b.now c.now }
{
    is_unit(a)
        && is_unit(b)
        && is_unit(c)
        && is_right_angle(a, b)
        && is_right_angle(a, c)
        && is_right_angle(b, c)
}

/// A matrix whose columns are of unit length and at right angles. Else BadMatrix.
#[tactic(auto, unfolding(crate::specs::Rows::checked_affine))]
pub fn checked_affine(affine: Affine) -> Result<Affine, RowFault>
    ensures { Gives (λ a. a) result (checked_affine affine) }
{
    if are_orthonormal(&affine.column1(), &affine.column2(), &affine.column3()) {
        Ok(affine)
    } else {
        Err(RowFault::BadMatrix)
    }
}
