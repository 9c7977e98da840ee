//! Counts and extents of small grids.
ghost use Rattle.std.specs.Prelude.{◌≡◌, length, IfOk};
ghost use Rattle.volume_bounds.specs.Cells.{IsGridCube};

use crate::{Count, bounds_flat, count_flat};
use solid_base::{Class, Cube, U, Vec3, Verdict, Verdicts};
use std::alloc::{AllocError, Global};

const OUT: Verdict = Verdict {
    class: Class::Outside,
    leaf: 0,
};

const MIX: Verdict = Verdict {
    class: Class::Mixed,
    leaf: 1,
};

const IN: Verdict = Verdict {
    class: Class::Inside,
    leaf: 0,
};

fn units(x: i8, y: i8, z: i8) -> Vec3 {
    Vec3 {
        x: x as i128 * U,
        y: y as i128 * U,
        z: z as i128 * U,
    }
}

// The cube from -1 to 1 along each axis.
fn middle() -> Cube
    ensures { IsGridCube result }
{
    Cube {
        lo: Vec3 {
            x: -U,
            y: -U,
            z: -U,
        },
        hi: Vec3 { x: U, y: U, z: U },
    }
}

fn eight(alloc: Global, cells: &[Verdict; 8]) -> Result<Verdicts, AllocError>
    ensures { IfOk result (λ verdicts. length verdicts.list ≡ 8) }
{
    Ok(Verdicts::from_vec(Vec::from_array(alloc, *cells)?))
}

#[test]
fn cells_are_counted(rt: HostRuntime) -> Result<(), AllocError> {
    let cases = [
        ([OUT; 8], 0, 0),
        ([MIX; 8], 0, 8),
        ([IN; 8], 8, 8),
        ([IN, OUT, MIX, OUT, OUT, IN, MIX, MIX], 2, 5),
    ];
    for (cells, lower, upper) in cases.iter() {
        let count = count_flat(&eight(rt.alloc(), cells)?);
        assert_eq!(rt;
            count,
            Count {
                lower: *lower,
                upper: *upper,
                total: 8
            }
        );
    }
    Ok(())
}

#[test]
fn what_is_not_outside_is_covered(rt: HostRuntime) -> Result<(), AllocError> {
    let cases = [
        ([OUT; 8], None),
        ([IN; 8], Some((units(-1, -1, -1), units(1, 1, 1)))),
        (
            [MIX, OUT, OUT, OUT, OUT, OUT, OUT, OUT],
            Some((units(-1, -1, -1), units(0, 0, 0))),
        ),
        (
            [OUT, MIX, OUT, OUT, OUT, OUT, OUT, OUT],
            Some((units(0, -1, -1), units(1, 0, 0))),
        ),
        (
            [OUT, OUT, IN, OUT, OUT, OUT, OUT, OUT],
            Some((units(-1, 0, -1), units(0, 1, 0))),
        ),
        (
            [OUT, OUT, OUT, OUT, IN, OUT, OUT, OUT],
            Some((units(-1, -1, 0), units(0, 0, 1))),
        ),
        (
            [OUT, OUT, OUT, OUT, OUT, OUT, OUT, MIX],
            Some((units(0, 0, 0), units(1, 1, 1))),
        ),
        (
            [OUT, IN, OUT, OUT, OUT, OUT, MIX, OUT],
            Some((units(-1, -1, -1), units(1, 1, 1))),
        ),
        (
            [OUT, IN, OUT, IN, OUT, OUT, OUT, OUT],
            Some((units(0, -1, -1), units(1, 1, 0))),
        ),
    ];
    for (cells, found) in cases.iter() {
        let bounds = bounds_flat(&eight(rt.alloc(), cells)?, &middle(), 1);
        assert_eq!(rt; bounds.map(|cube| (cube.lo, cube.hi)), *found);
    }
    Ok(())
}
