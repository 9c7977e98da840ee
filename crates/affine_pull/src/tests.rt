//! Places carried back by hand: through one matrix, and through a chain of two.
ghost use Rattle.std.specs.Prelude.{IfOk};
ghost use Rattle.std.specs.List.{AllByRecursion};
ghost use Rattle.std.specs.Arc.{arc_value};
ghost use Rattle.solid_base.specs.Ranges.{IsLawfulRow};
ghost use Rattle.fixed_enclosure.specs.Spans.{IsEnc, IsBox};

use super::*;
use fixed_enclosure::{Box3, Enc};
use solid_base::{Affine, Bytes, Entity, List, Row, Rows, U, Vec3};
use std::alloc::{AllocError, Global};
use std::process::Abort;
use std::sync::Arc;

const TEN: i128 = 10 * U;

// Without a shift.
const NONE: Vec3 = Vec3 { x: 0, y: 0, z: 0 };

const BY_TEN: Vec3 = Vec3 { x: TEN, y: 0, z: 0 };

const ALONG_X: Vec3 = Vec3 { x: U, y: 0, z: 0 };

const ALONG_Y: Vec3 = Vec3 { x: 0, y: U, z: 0 };

const ALONG_Z: Vec3 = Vec3 { x: 0, y: 0, z: U };

const AGAINST_Y: Vec3 = Vec3 { x: 0, y: -U, z: 0 };

// Moves by 10 along X.
const SLIDE: Affine = Affine {
    row1: ALONG_X,
    row2: ALONG_Y,
    row3: ALONG_Z,
    shift: BY_TEN,
};

// Turns X to Y about Z, and moves by 10 along X.
const TURN_AND_SLIDE: Affine = Affine {
    row1: AGAINST_Y,
    row2: ALONG_X,
    row3: ALONG_Z,
    shift: BY_TEN,
};

// Turns X to Y about Z.
const TURN: Affine = Affine {
    row1: AGAINST_Y,
    row2: ALONG_X,
    row3: ALONG_Z,
    shift: NONE,
};

// A coordinate, in units.
fn coordinate(rt: &impl Abort, units: i128) -> Enc
    ensures { IsEnc result }
{
    assert!(rt; -1000 <= units && units <= 1000);
    Enc::point(units * U)
}

// A place, in units.
fn place(rt: &impl Abort, at: (i128, i128, i128)) -> Box3
    ensures { IsBox result }
{
    Box3 {
        x: coordinate(rt, at.0),
        y: coordinate(rt, at.1),
        z: coordinate(rt, at.2),
    }
}

#[test]
fn one_matrix(rt: HostRuntime) {
    let at = place(&rt, (6, 3, 5));
    // (3, 4, 5) is turned to (-4, 3, 5), and then moved to (6, 3, 5).
    assert_eq!(rt; pull(&TURN_AND_SLIDE, &at), place(&rt, (3, 4, 5)));
    assert_eq!(rt; pull(&SLIDE, &at), place(&rt, (-4, 3, 5)));
}

fn entity(alloc: Global, row: Row) -> Result<Arc<Entity>, AllocError>
    requires { IsLawfulRow row }
    ensures { IfOk result (λ e. IsLawfulRow (arc_value e).row) }
{
    let (attrs, tail) = (Bytes::new(alloc), List::new(alloc));
    Ok(Arc::new(alloc, Entity { row, attrs, tail })?)
}

// A null row, number 3 that slides and then names number 5, and number 5 that turns.
fn rows(alloc: Global) -> Result<Rows, AllocError>
    ensures { IfOk result (AllByRecursion (λ e. IsLawfulRow e.row)) }
{
    let null = entity(alloc, Row::Null)?;
    let slide = Row::Matrix {
        form: 0,
        affine: SLIDE,
        next: 5,
    };
    let slide = entity(alloc, slide)?;
    let turn = Row::Matrix {
        form: 0,
        affine: TURN,
        next: 0,
    };
    let turn = entity(alloc, turn)?;
    Ok(Rows::from_vec(vec![in alloc; null, slide, turn]?))
}

#[test]
fn a_chain_of_two(rt: HostRuntime) -> Result<(), AllocError> {
    let rows = rows(rt.alloc())?;
    let cases = [
        (3, (0, 10, 0), (0, 0, 0)),
        (3, (10, 0, 0), (-10, -10, 0)),
        (5, (0, 10, 0), (10, 0, 0)),
        // No matrix: 0, a null row, an even number, and none of the rows.
        (0, (1, 2, 3), (1, 2, 3)),
        (1, (1, 2, 3), (1, 2, 3)),
        (4, (1, 2, 3), (1, 2, 3)),
        (7, (1, 2, 3), (1, 2, 3)),
    ];
    for (matrix, at, want) in cases {
        let back = pull_chain(&rows, matrix, &place(&rt, at));
        assert_eq!(rt; back, place(&rt, want), "{matrix} {at:?}");
    }
    Ok(())
}
