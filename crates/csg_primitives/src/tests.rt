//! Worked places of each kind of primitive, in tenths of a unit.
ghost use Rattle.solid_base.specs.Range.{IsWithin};
ghost use Rattle.solid_base.specs.Ranges.{IsSize, AreSizes, IsLawfulPrim};
ghost use Rattle.fixed_enclosure.specs.Spans.{IsEnc, IsBox, enc_bound};

use super::*;
use fixed_enclosure::{Box3, Enc};
use solid_base::{Class, NoTally, Prim, Tally, U, Vec3};
use std::process::Abort;

const TENTH: i128 = 100_000_000_000;

const ORIGIN: Vec3 = Vec3 { x: 0, y: 0, z: 0 };

const ALONG_X: Vec3 = Vec3 { x: U, y: 0, z: 0 };

const ALONG_Y: Vec3 = Vec3 { x: 0, y: U, z: 0 };

const ALONG_Z: Vec3 = Vec3 { x: 0, y: 0, z: U };

// A length in tenths of a unit.
fn size(rt: &impl Abort, tenths: i128) -> i128
    ensures { IsSize result }
{
    assert!(rt; 0 < tenths && tenths <= 1_000_000);
    tenths * TENTH
}

fn sizes(rt: &impl Abort, x: i128, y: i128, z: i128) -> Vec3
    ensures { AreSizes result }
{
    Vec3 {
        x: size(rt, x),
        y: size(rt, y),
        z: size(rt, z),
    }
}

// A coordinate, in tenths of a unit.
fn coordinate(rt: &impl Abort, tenths: i128) -> Enc
    ensures { IsEnc result }
{
    Enc::point(steps(rt, tenths))
}

fn place(rt: &impl Abort, at: (i128, i128, i128)) -> Box3
    ensures { IsBox result }
{
    Box3 {
        x: coordinate(rt, at.0),
        y: coordinate(rt, at.1),
        z: coordinate(rt, at.2),
    }
}

// The class at each place, and that each call ticks once.
fn check(rt: &impl Abort, prim: &Prim, cases: &[((i128, i128, i128), Class)])
    requires { IsLawfulPrim prim.now }
{
    for (at, want) in cases {
        let mut leaves = Tally { count: 41 };
        let class = leaf(prim, &place(rt, *at), &mut leaves);
        assert_eq!(rt; class, *want, "{prim:?} at {at:?}");
        assert_eq!(rt; leaves.count, 42);
        assert_eq!(rt; leaf(prim, &place(rt, *at), &mut NoTally), *want);
    }
}

#[test]
fn block_and_wedge(rt: HostRuntime) {
    let block = Prim::Block {
        size: sizes(&rt, 10, 10, 10),
        corner: ORIGIN,
        u: ALONG_X,
        w: ALONG_Z,
    };
    let cases = [
        ((5, 5, 5), Class::Inside),
        ((1, 9, 1), Class::Inside),
        ((0, 5, 5), Class::Mixed),
        ((5, 10, 5), Class::Mixed),
        ((10, 10, 10), Class::Mixed),
        ((11, 5, 5), Class::Outside),
        ((5, 5, -1), Class::Outside),
        // A negative margin decides, whatever the others are.
        ((0, 11, 5), Class::Outside),
    ];
    check(&rt, &block, &cases);
    let (lengths, ltx) = (sizes(&rt, 20, 10, 10), size(&rt, 10));
    assert!(rt; ltx < lengths.x);
    let wedge = Prim::Wedge {
        size: lengths,
        ltx,
        corner: ORIGIN,
        u: ALONG_X,
        w: ALONG_Z,
    };
    let cases = [
        ((15, 5, 5), Class::Mixed),
        ((14, 5, 5), Class::Inside),
        ((16, 5, 5), Class::Outside),
        ((19, 1, 5), Class::Mixed),
        ((5, 10, 5), Class::Mixed),
        ((5, 5, 11), Class::Outside),
    ];
    check(&rt, &wedge, &cases);
}

#[test]
fn cylinder_and_cone(rt: HostRuntime) {
    let cylinder = Prim::Cylinder {
        h: size(&rt, 20),
        r: size(&rt, 10),
        foot: ORIGIN,
        w: ALONG_Z,
    };
    let cases = [
        ((0, 0, 10), Class::Inside),
        ((6, 7, 10), Class::Inside),
        ((0, 0, 0), Class::Mixed),
        ((10, 0, 10), Class::Mixed),
        ((6, -8, 10), Class::Mixed),
        ((0, 0, 30), Class::Outside),
        ((0, 0, -1), Class::Outside),
        ((8, 8, 10), Class::Outside),
    ];
    check(&rt, &cylinder, &cases);
    // A cone to an apex, and one between two faces.
    let apex = Prim::Cone {
        h: size(&rt, 10),
        r1: size(&rt, 10),
        r2: 0,
        foot: ORIGIN,
        w: ALONG_Z,
    };
    let cases = [
        ((0, 0, 5), Class::Inside),
        ((3, 0, 5), Class::Inside),
        ((5, 0, 5), Class::Mixed),
        ((0, 0, 10), Class::Mixed),
        ((6, 0, 5), Class::Outside),
        ((0, 0, 11), Class::Outside),
        ((9, 0, 15), Class::Outside),
    ];
    check(&rt, &apex, &cases);
    let (r1, r2) = (size(&rt, 30), size(&rt, 10));
    assert!(rt; r2 < r1);
    let cut = Prim::Cone {
        h: size(&rt, 20),
        r1,
        r2,
        foot: ORIGIN,
        w: ALONG_Z,
    };
    let cases = [
        ((0, 0, 10), Class::Inside),
        ((19, 0, 10), Class::Inside),
        ((20, 0, 10), Class::Mixed),
        ((12, 16, 10), Class::Mixed),
        ((21, 0, 10), Class::Outside),
        ((5, 0, 20), Class::Mixed),
    ];
    check(&rt, &cut, &cases);
}

#[test]
fn sphere_and_torus(rt: HostRuntime) {
    let sphere = Prim::Sphere {
        r: size(&rt, 10),
        centre: ORIGIN,
    };
    let cases = [
        ((0, 0, 0), Class::Inside),
        ((5, -5, 5), Class::Inside),
        ((0, 6, -8), Class::Mixed),
        ((0, 0, 11), Class::Outside),
    ];
    check(&rt, &sphere, &cases);
    let (r1, r2) = (size(&rt, 30), size(&rt, 10));
    assert!(rt; r2 < r1);
    let torus = Prim::Torus {
        r1,
        r2,
        centre: ORIGIN,
        w: ALONG_Z,
    };
    let cases = [
        ((30, 0, 0), Class::Inside),
        ((0, -30, 5), Class::Inside),
        ((0, 0, 0), Class::Outside),
        ((20, 0, 0), Class::Mixed),
        ((40, 0, 0), Class::Mixed),
        ((24, 32, 0), Class::Mixed),
        ((30, 0, -10), Class::Mixed),
        ((30, 0, 11), Class::Outside),
        ((41, 0, 0), Class::Outside),
    ];
    check(&rt, &torus, &cases);
}

#[test]
fn ellipsoid(rt: HostRuntime) {
    let ellipsoid = Prim::Ellipsoid {
        size: sizes(&rt, 20, 10, 10),
        centre: ORIGIN,
        u: ALONG_X,
        w: ALONG_Z,
    };
    let cases = [
        ((10, 5, 0), Class::Inside),
        ((20, 0, 0), Class::Mixed),
        ((12, 8, 0), Class::Mixed),
        ((0, 0, -10), Class::Mixed),
        ((0, 20, 0), Class::Outside),
        ((21, 0, 0), Class::Outside),
        ((12, 8, 1), Class::Outside),
        // A coordinate of more than twice the semi-axis.
        ((0, 0, 90), Class::Outside),
    ];
    check(&rt, &ellipsoid, &cases);
}

// The class over a box, from its least to its greatest corner in tenths of a unit.
fn over(rt: &impl Abort, prim: &Prim, lo: (i128, i128, i128), hi: (i128, i128, i128)) -> Class
    requires { IsLawfulPrim prim.now }
{
    let at = Box3 {
        x: side(rt, lo.0, hi.0),
        y: side(rt, lo.1, hi.1),
        z: side(rt, lo.2, hi.2),
    };
    leaf(prim, &at, &mut NoTally)
}

fn side(rt: &impl Abort, lo: i128, hi: i128) -> Enc
    ensures { IsEnc result }
{
    let (lo, hi) = (steps(rt, lo), steps(rt, hi));
    assert!(rt; lo <= hi);
    Enc::Span { lo, hi }
}

fn steps(rt: &impl Abort, tenths: i128) -> i128
    ensures { IsWithin enc_bound result }
{
    assert!(rt; -1_000_000 <= tenths && tenths <= 1_000_000);
    tenths * TENTH
}

#[test]
fn turned_axes(rt: HostRuntime) {
    // The local axes X, Y and Z are the model's Y, Z and X.
    let block = Prim::Block {
        size: sizes(&rt, 10, 20, 30),
        corner: ORIGIN,
        u: ALONG_Y,
        w: ALONG_X,
    };
    let cases = [
        ((29, 9, 19), Class::Inside),
        ((30, 5, 5), Class::Mixed),
        ((5, 10, 5), Class::Mixed),
        ((5, 5, 20), Class::Mixed),
        ((9, 19, 29), Class::Outside),
        ((-1, 5, 5), Class::Outside),
    ];
    check(&rt, &block, &cases);
    let cylinder = Prim::Cylinder {
        h: size(&rt, 20),
        r: size(&rt, 10),
        foot: ALONG_X,
        w: ALONG_Y,
    };
    let cases = [
        ((10, 10, 0), Class::Inside),
        ((4, 1, 7), Class::Inside),
        ((4, 1, -8), Class::Mixed),
        ((10, 20, 0), Class::Mixed),
        ((10, 21, 0), Class::Outside),
        ((-1, 10, 0), Class::Outside),
    ];
    check(&rt, &cylinder, &cases);
}

#[test]
fn boxes_of_places(rt: HostRuntime) {
    // A cylinder whose axis leans: from the origin through (0.6, 0, 0.8).
    let leaning = Prim::Cylinder {
        h: size(&rt, 100),
        r: size(&rt, 10),
        foot: ORIGIN,
        w: Vec3 {
            x: 600_000_000_000,
            y: 0,
            z: 800_000_000_000,
        },
    };
    let cases = [
        ((29, -1, 39), (31, 1, 41), Class::Inside),
        ((29, -1, 39), (31, 11, 41), Class::Mixed),
        ((-5, 0, -5), (5, 0, 5), Class::Mixed),
        ((0, 12, 0), (10, 20, 10), Class::Outside),
        ((30, 0, -60), (40, 0, -50), Class::Outside),
    ];
    for (lo, hi, want) in cases {
        assert_eq!(rt; over(&rt, &leaning, lo, hi), want, "{lo:?} to {hi:?}");
    }
    let (r1, r2) = (size(&rt, 30), size(&rt, 10));
    assert!(rt; r2 < r1);
    let torus = Prim::Torus {
        r1,
        r2,
        centre: ORIGIN,
        w: ALONG_Z,
    };
    let cases = [
        ((30, -1, -2), (30, 1, 2), Class::Inside),
        ((-5, -5, -5), (5, 5, 5), Class::Outside),
        ((-50, -50, -50), (50, 50, 50), Class::Mixed),
        ((18, -1, -1), (22, 1, 1), Class::Mixed),
    ];
    for (lo, hi, want) in cases {
        assert_eq!(rt; over(&rt, &torus, lo, hi), want, "{lo:?} to {hi:?}");
    }
    // Where nothing is known of a coordinate, another one may still decide.
    let unknown = Box3 {
        x: Enc::All,
        y: side(&rt, 0, 0),
        z: side(&rt, 0, 0),
    };
    assert_eq!(rt; leaf(&torus, &unknown, &mut NoTally), Class::Mixed);
}
