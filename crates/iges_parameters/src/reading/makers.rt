ghost use Rattle.std.specs.Prelude.{◌≡◌, ◌<◌, ◌≤◌, ◌+◌, length};
ghost use Rattle.iges_parameters.specs.Rows.{point_at, block_of, wedge_of, cylinder_of, cone_of};
ghost use Rattle.iges_parameters.specs.Rows.{sphere_of, torus_of, ellipsoid_of, affine_of};

use solid_base::{Affine, Prim, Vec3};

/// The three numbers from this place on, counted from 0.
fn point(numbers: &[i128], place: usize) -> Vec3
    requires { place + 2 < length numbers.now }
    ensures { result ≡ point_at numbers.now (place + 1) }
{
    Vec3 {
        x: numbers[place],
        y: numbers[place + 1],
        z: numbers[place + 2],
    }
}

#[tactic(auto, unfolding(crate::specs::Rows::block_of))]
pub fn block(n: &[i128; 12]) -> Prim
    ensures { result ≡ block_of n.now }
{
    Prim::Block {
        size: point(n, 0),
        corner: point(n, 3),
        u: point(n, 6),
        w: point(n, 9),
    }
}

#[tactic(auto, unfolding(crate::specs::Rows::wedge_of))]
pub fn wedge(n: &[i128; 13]) -> Prim
    ensures { result ≡ wedge_of n.now }
{
    Prim::Wedge {
        size: point(n, 0),
        ltx: n[3],
        corner: point(n, 4),
        u: point(n, 7),
        w: point(n, 10),
    }
}

#[tactic(auto, unfolding(crate::specs::Rows::cylinder_of))]
pub fn cylinder(n: &[i128; 8]) -> Prim
    ensures { result ≡ cylinder_of n.now }
{
    Prim::Cylinder {
        h: n[0],
        r: n[1],
        foot: point(n, 2),
        w: point(n, 5),
    }
}

#[tactic(auto, unfolding(crate::specs::Rows::cone_of))]
pub fn cone(n: &[i128; 9]) -> Prim
    ensures { result ≡ cone_of n.now }
{
    Prim::Cone {
        h: n[0],
        r1: n[1],
        r2: n[2],
        foot: point(n, 3),
        w: point(n, 6),
    }
}

#[tactic(auto, unfolding(crate::specs::Rows::sphere_of))]
pub fn sphere(n: &[i128; 4]) -> Prim
    ensures { result ≡ sphere_of n.now }
{
    Prim::Sphere {
        r: n[0],
        centre: point(n, 1),
    }
}

#[tactic(auto, unfolding(crate::specs::Rows::torus_of))]
pub fn torus(n: &[i128; 8]) -> Prim
    ensures { result ≡ torus_of n.now }
{
    Prim::Torus {
        r1: n[0],
        r2: n[1],
        centre: point(n, 2),
        w: point(n, 5),
    }
}

#[tactic(auto, unfolding(crate::specs::Rows::ellipsoid_of))]
pub fn ellipsoid(n: &[i128; 12]) -> Prim
    ensures { result ≡ ellipsoid_of n.now }
{
    Prim::Ellipsoid {
        size: point(n, 0),
        centre: point(n, 3),
        u: point(n, 6),
        w: point(n, 9),
    }
}

/// A matrix of its rows, of which each has the rotation in columns 1 to 3 and the shift in column
/// 4.
#[tactic(auto, unfolding(crate::specs::Rows::affine_of))]
pub fn affine(n: &[i128; 12]) -> Affine
    ensures { result ≡ affine_of n.now }
{
    Affine {
        row1: point(n, 0),
        row2: point(n, 4),
        row3: point(n, 8),
        shift: Vec3 {
            x: n[3],
            y: n[7],
            z: n[11],
        },
    }
}
