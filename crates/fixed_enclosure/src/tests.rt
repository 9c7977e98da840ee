//! Values of each call, at the bounds and round 0.
ghost use Rattle.std.specs.Prelude.{◌≡◌, ◌≤ℤ◌, pos, true};
ghost use Rattle.solid_base.specs.Range.{IsCube, far};
ghost use Rattle.fixed_enclosure.specs.Spans.{enc_bound, IsEnc, IsArea};

use super::*;
use solid_base::{Cube, U, Vec3};
use std::process::Abort;

/// The greatest end of a length, and that of an area.
const END: i128 = 1_000_000_000_000_000_000;

const AREA_END: i128 = 10_000_000_000_000_000_000_000_000_000_000_000_000;

/// The square of the greatest end of a length.
const SQUARE: i128 = 1_000_000_000_000_000_000_000_000_000_000_000_000;

/// The greatest end of a length, as an area over one unit.
const WIDE: i128 = 1_000_000_000_000_000_000_000_000_000_000;

const FAR: i128 = 100_000_000_000_000_000;

const ANY: Enc = Enc::All;

const ANY_AREA: Area = Area::All;

fn enc(lo: i128, hi: i128) -> Enc {
    Enc::Span { lo, hi }
}

fn area(lo: i128, hi: i128) -> Area {
    Area::Span { lo, hi }
}

fn is_length(e: Enc) -> bool
    ensures { result ≡ true → IsEnc e }
{
    match e {
        Enc::All => true,
        Enc::Span { lo, hi } => lo <= hi && -END <= lo && hi <= END,
    }
}

fn length(rt: &impl Abort, e: Enc) -> Enc
    ensures { IsEnc result }
{
    assert!(rt; is_length(e));
    e
}

fn is_area(a: Area) -> bool
    ensures { result ≡ true → IsArea a }
{
    match a {
        Area::All => true,
        Area::Span { lo, hi } => lo <= hi && -AREA_END <= lo && hi <= AREA_END,
    }
}

fn surface(rt: &impl Abort, a: Area) -> Area
    ensures { IsArea result }
{
    assert!(rt; is_area(a));
    a
}

#[test]
fn adds_and_takes_away_lengths(rt: HostRuntime) {
    let cases = [
        (enc(1, 2), enc(10, 20), enc(11, 22), enc(-19, -8)),
        (enc(-3, 5), enc(-7, 2), enc(-10, 7), enc(-5, 12)),
        (enc(4, 4), enc(4, 4), enc(8, 8), enc(0, 0)),
        (ANY, enc(0, 0), ANY, ANY),
        (enc(0, 0), ANY, ANY, ANY),
        (ANY, ANY, ANY, ANY),
        // At the bound, and one step past it, at either end.
        (enc(-END, END), enc(0, 0), enc(-END, END), enc(-END, END)),
        (enc(END, END), enc(1, 1), ANY, enc(END - 1, END - 1)),
        (enc(0, END - 1), enc(-1, 1), enc(-1, END), enc(-1, END)),
        (enc(0, END), enc(0, 1), ANY, enc(-1, END)),
        (enc(-END, 0), enc(-1, 0), ANY, enc(-END, 1)),
        (enc(-END, 0), enc(0, 1), enc(-END, 1), ANY),
    ];
    for (a, b, total, rest) in cases {
        let (a, b) = (length(&rt, a), length(&rt, b));
        assert_eq!(rt; sum(a, b), total, "{a:?} and {b:?}");
        assert_eq!(rt; minus(a, b), rest, "{a:?} less {b:?}");
    }
}

#[test]
fn adds_and_takes_away_areas(rt: HostRuntime) {
    let cases = [
        (area(1, 2), area(10, 20), area(11, 22), area(-19, -8)),
        (ANY_AREA, area(0, 0), ANY_AREA, ANY_AREA),
        (area(0, 0), ANY_AREA, ANY_AREA, ANY_AREA),
        (
            area(0, AREA_END),
            area(0, 0),
            area(0, AREA_END),
            area(0, AREA_END),
        ),
        (area(0, AREA_END), area(0, 1), ANY_AREA, area(-1, AREA_END)),
        (area(-AREA_END, 0), area(0, 1), area(-AREA_END, 1), ANY_AREA),
        (
            area(-AREA_END, 0),
            area(-1, 0),
            ANY_AREA,
            area(-AREA_END, 1),
        ),
        (
            area(AREA_END, AREA_END),
            area(AREA_END, AREA_END),
            ANY_AREA,
            area(0, 0),
        ),
    ];
    for (a, b, total, rest) in cases {
        let (a, b) = (surface(&rt, a), surface(&rt, b));
        assert_eq!(rt; area_sum(a, b), total, "{a:?} and {b:?}");
        assert_eq!(rt; area_minus(a, b), rest, "{a:?} less {b:?}");
    }
}

#[test]
fn multiplies_lengths(rt: HostRuntime) {
    let cases = [
        (enc(2, 3), enc(4, 5), area(8, 15)),
        (enc(-3, -2), enc(-5, -4), area(8, 15)),
        (enc(-3, -2), enc(4, 5), area(-15, -8)),
        (enc(-2, 3), enc(4, 5), area(-10, 15)),
        (enc(-2, 3), enc(-5, 4), area(-15, 12)),
        (enc(-2, 3), enc(0, 0), area(0, 0)),
        (enc(-1, 1), enc(-1, 1), area(-1, 1)),
        (ANY, enc(0, 0), ANY_AREA),
        (enc(0, 0), ANY, ANY_AREA),
        (enc(END, END), enc(END, END), area(SQUARE, SQUARE)),
        (enc(-END, END), enc(-END, END), area(-SQUARE, SQUARE)),
    ];
    for (a, b, want) in cases {
        let (a, b) = (length(&rt, a), length(&rt, b));
        assert_eq!(rt; times(a, b), want, "{a:?} by {b:?}");
    }
}

#[test]
fn squares_lengths(rt: HostRuntime) {
    let cases = [
        (ANY, ANY_AREA),
        (enc(2, 3), area(4, 9)),
        (enc(-3, -2), area(4, 9)),
        // Round 0, and up to it.
        (enc(-3, 2), area(0, 9)),
        (enc(-2, 3), area(0, 9)),
        (enc(0, 3), area(0, 9)),
        (enc(-3, 0), area(0, 9)),
        (enc(0, 0), area(0, 0)),
        (enc(-END, END), area(0, SQUARE)),
        (enc(END, END), area(SQUARE, SQUARE)),
    ];
    for (a, want) in cases {
        assert_eq!(rt; square(length(&rt, a)), want, "{a:?}");
    }
}

#[test]
fn narrows_areas_outward(rt: HostRuntime) {
    let cases = [
        (ANY_AREA, ANY),
        (area(0, 0), enc(0, 0)),
        (area(U, U), enc(1, 1)),
        (area(-U, -U), enc(-1, -1)),
        (area(1, 1), enc(0, 1)),
        (area(-1, -1), enc(-1, 0)),
        (area(U - 1, U + 1), enc(0, 2)),
        (area(-U - 1, -U + 1), enc(-2, 0)),
        // At the bound of lengths, and past it.
        (area(-WIDE, WIDE), enc(-END, END)),
        (area(0, WIDE + 1), ANY),
        (area(-WIDE - 1, 0), ANY),
        (area(AREA_END, AREA_END), ANY),
        (area(WIDE - 1, WIDE - 1), enc(END - 1, END)),
    ];
    for (a, want) in cases {
        assert_eq!(rt; narrow(surface(&rt, a)), want, "{a:?}");
    }
}

#[test]
fn takes_roots_outward(rt: HostRuntime) {
    let cases = [
        (ANY_AREA, ANY),
        (area(0, 0), enc(0, 0)),
        (area(1, 1), enc(1, 1)),
        (area(2, 2), enc(1, 2)),
        (area(3, 4), enc(1, 2)),
        (area(8, 9), enc(2, 3)),
        (area(99, 101), enc(9, 11)),
        // A negative area has the root 0.
        (area(-9, -4), enc(0, 0)),
        (area(-9, 2), enc(0, 2)),
        // One square unit, round the squares of 64 bits, and at the bound of lengths.
        (area(U * U, U * U), enc(U, U)),
        (
            area(18446744065119617025, 18446744065119617026),
            enc(4294967295, 4294967296),
        ),
        (
            area(18446744073709551615, 18446744073709551616),
            enc(4294967295, 4294967296),
        ),
        (area(SQUARE - 1, SQUARE), enc(END - 1, END)),
        (area(0, SQUARE + 1), ANY),
        (area(AREA_END, AREA_END), ANY),
    ];
    for (a, want) in cases {
        assert_eq!(rt; root(surface(&rt, a)), want, "{a:?}");
    }
}

fn size(rt: &impl Abort, steps: i128) -> i128
    ensures least { pos 1 ≤ℤ result }
    ensures greatest { result ≤ℤ pos far }
{
    assert!(rt; 1 <= steps && steps <= FAR);
    steps
}

#[test]
fn takes_ratios_outward_and_cuts_them(rt: HostRuntime) {
    let cases = [
        (ANY, 1, ANY),
        (enc(0, 0), FAR, enc(0, 0)),
        (enc(U, U), U, enc(U, U)),
        (enc(-5, 5), 10, enc(-U / 2, U / 2)),
        (enc(1, 1), 3, enc(333_333_333_333, 333_333_333_334)),
        (enc(-1, -1), 3, enc(-333_333_333_334, -333_333_333_333)),
        (enc(1, 1), FAR, enc(0, 1)),
        (enc(-1, -1), FAR, enc(-1, 0)),
        // Up to 2, and past it.
        (enc(-2, 2), 1, enc(-2 * U, 2 * U)),
        (enc(-3, 3), 1, enc(-2 * U, 2 * U)),
        (enc(2, 2), 1, enc(2 * U, 2 * U)),
        (enc(-2, -2), 1, enc(-2 * U, -2 * U)),
        // Ends that are far from each other.
        (enc(-1, FAR), FAR, enc(-1, U)),
        (enc(-FAR, 1), FAR, enc(-U, 1)),
        (enc(3, END), 1, enc(2 * U, 2 * U)),
        (enc(-END, -3), 1, enc(-2 * U, -2 * U)),
        (enc(1, FAR), FAR / 2, enc(0, 2 * U)),
    ];
    for (a, steps, want) in cases {
        let ratio = ratio(length(&rt, a), size(&rt, steps));
        assert_eq!(rt; ratio, want, "{a:?} to {steps}");
    }
}

#[test]
fn tells_signs(rt: HostRuntime) {
    let cases = [
        (1, 5, Sign::Positive),
        (0, 5, Sign::Open),
        (-5, -1, Sign::Negative),
        (-5, 0, Sign::Open),
        (-1, 1, Sign::Open),
        (0, 0, Sign::Open),
    ];
    for (lo, hi, want) in cases {
        assert_eq!(rt; sign_of(enc(lo, hi)), want, "from {lo} to {hi}");
        assert_eq!(rt; area_sign(area(lo, hi)), want, "from {lo} to {hi}");
    }
    assert_eq!(rt; sign_of(ANY), Sign::Open);
    assert_eq!(rt; area_sign(ANY_AREA), Sign::Open);
}

fn cube() -> Cube
    ensures { IsCube result }
{
    Cube {
        lo: Vec3 {
            x: -FAR,
            y: 0,
            z: 7,
        },
        hi: Vec3 { x: FAR, y: 1, z: 7 },
    }
}

#[test]
fn encloses_points_and_boxes(rt: HostRuntime) {
    for v in [0, 1, -1, END, -END] {
        assert!(rt; -END <= v && v <= END);
        assert_eq!(rt; Enc::point(v), enc(v, v));
    }
    let want = Box3 {
        x: enc(-FAR, FAR),
        y: enc(0, 1),
        z: enc(7, 7),
    };
    assert_eq!(rt; Box3::of(&cube()), want);
}
