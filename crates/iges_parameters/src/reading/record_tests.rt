ghost use Rattle.std.specs.Prelude.{◌≤◌, length};

use crate::{RowFault, read_row};
use solid_base::{
    Affine, Bytes, Item, Items, Placed, PlacedList, Prim, Row, RowText, Token, Tokens, U, Vec3,
};
use std::alloc::{AllocError, Global};
use std::process::Abort;

const ORIGIN: Vec3 = Vec3 { x: 0, y: 0, z: 0 };

const X: Vec3 = Vec3 { x: U, y: 0, z: 0 };

const Y: Vec3 = Vec3 { x: 0, y: U, z: 0 };

const Z: Vec3 = Vec3 { x: 0, y: 0, z: U };

fn read(
    rt: &impl Abort,
    alloc: Global,
    kind: u32,
    form: u32,
    record: &[u8],
) -> Result<(Row, Tokens), RowFault> {
    assert!(rt; record.len() <= 1000);
    let text = Bytes::from_vec(Vec::from_slice(alloc, record)?);
    let source = RowText {
        kind,
        form,
        matrix: 7,
        text,
    };
    read_row(alloc, &source, b',', b';')
}

#[test]
fn gives_the_first_fault(rt: HostRuntime) -> Result<(), AllocError> {
    let cases: [(u32, u32, &[u8], RowFault); 58] = [
        (180, 1, b"180,1,-1;", RowFault::NotRead),
        (124, 2, b"124;", RowFault::NotRead),
        (162, 0, b"x", RowFault::NotRead),
        // Field 0.
        (158, 0, b"x,1.;", RowFault::Token(0)),
        (158, 0, b"", RowFault::Token(0)),
        (158, 0, b";", RowFault::Missing(0)),
        (158, 0, b",1.;", RowFault::Missing(0)),
        (158, 0, b"150,1.;", RowFault::WrongKind(0)),
        (158, 0, b"158.,1.;", RowFault::WrongKind(0)),
        (158, 0, b"3H158,1.;", RowFault::WrongKind(0)),
        (158, 0, b"-158,1.;", RowFault::WrongKind(0)),
        (
            158,
            0,
            b"10000000000000000000158,1.;",
            RowFault::WrongKind(0),
        ),
        // Sizes and coordinates.
        (158, 0, b"158;", RowFault::Missing(1)),
        (158, 0, b"158,,1.;", RowFault::Missing(1)),
        (158, 0, b"158,1H1;", RowFault::WrongKind(1)),
        (158, 0, b"158,1H12;", RowFault::Token(1)),
        (158, 0, b"158,1.", RowFault::Token(1)),
        (158, 0, b"158,100000.000000000001;", RowFault::TooFar(1)),
        (158, 0, b"158,1.E9;", RowFault::TooFar(1)),
        (158, 0, b"158,0.;", RowFault::BadSize(1)),
        (158, 0, b"158,-1.;", RowFault::BadSize(1)),
        (158, 0, b"158,4.9D-13;", RowFault::BadSize(1)),
        (158, 0, b"158,0.,x;", RowFault::BadSize(1)),
        (
            158,
            0,
            b"158,1.,0.,-100000.000000000001;",
            RowFault::TooFar(3),
        ),
        // LTX, R2 of a cone and of a torus.
        (152, 0, b"152,2.,1.,1.;", RowFault::Missing(4)),
        (152, 0, b"152,2.,1.,1.,2.;", RowFault::BadSize(4)),
        (152, 0, b"152,2.,1.,1.,-1.;", RowFault::BadSize(4)),
        (156, 0, b"156,1.,2.,2.;", RowFault::BadSize(3)),
        (156, 0, b"156,1.,2.,-1.;", RowFault::BadSize(3)),
        (160, 0, b"160,3.,3.;", RowFault::BadSize(2)),
        (160, 0, b"160,3.,0.;", RowFault::BadSize(2)),
        // Axes, which come after all parameters and before the tail.
        (150, 0, b"150,1.,1.,1.,,,,2.;", RowFault::BadAxis(7)),
        (
            150,
            0,
            b"150,1.,1.,1.,,,,,,,1.,0.,0.;",
            RowFault::BadAxis(10),
        ),
        (
            150,
            0,
            b"150,1.,1.,1.,,,,2.,,,,,1.E6;",
            RowFault::TooFar(12),
        ),
        (152, 0, b"152,2.,1.,1.,1.,,,,,1.;", RowFault::BadAxis(8)),
        (154, 0, b"154,1.,1.,,,,1.;", RowFault::BadAxis(6)),
        (154, 0, b"154,1.,1.,,,,,,1.001,x;", RowFault::BadAxis(6)),
        (156, 0, b"156,1.,1.,,,,,,,0.;", RowFault::BadAxis(7)),
        (
            168,
            0,
            b"168,1.,1.,1.,,,,1.,,,0.002,0.,1.;",
            RowFault::BadAxis(10),
        ),
        // Matrices.
        (
            124,
            0,
            b"124,1.,0.,0.,0.,0.,1.,0.,0.,0.,0.,1.;",
            RowFault::Missing(12),
        ),
        (
            124,
            0,
            b"124,1.,0.,0.,0.,1.,0.,0.,0.,0.,0.,1.,0.;",
            RowFault::BadMatrix,
        ),
        (
            124,
            1,
            b"124,1.,0.,0.,0.,0.,1.,0.1,0.,0.,0.,1.,0.;",
            RowFault::BadMatrix,
        ),
        // Boolean trees.
        (180, 0, b"180;", RowFault::Missing(1)),
        (180, 0, b"180,1.,-1;", RowFault::WrongKind(1)),
        (180, 0, b"180,10000000;", RowFault::TooFar(1)),
        (180, 0, b"180,0;", RowFault::BadSize(1)),
        (180, 0, b"180,-1;", RowFault::BadSize(1)),
        (180, 0, b"180,2,-1;", RowFault::Missing(3)),
        (180, 0, b"180,1,1;", RowFault::BadPostfix(2)),
        (180, 0, b"180,1,0;", RowFault::BadPostfix(2)),
        (180, 0, b"180,3,-1,-3,4;", RowFault::BadPostfix(4)),
        (180, 0, b"180,5,-1,-3,1,2,x;", RowFault::BadPostfix(5)),
        (180, 0, b"180,2,-1,-3,x;", RowFault::BadPostfix(1)),
        // Assemblies and instances.
        (184, 0, b"184,0;", RowFault::BadSize(1)),
        (184, 0, b"184,1,1,-1;", RowFault::TooFar(3)),
        (430, 0, b"430;", RowFault::Missing(1)),
        (430, 0, b"430,-5;", RowFault::TooFar(1)),
        // The tail.
        (158, 0, b"158,1.,,,,7,x;", RowFault::Token(6)),
    ];
    for (kind, form, record, want) in cases {
        match read(&rt, rt.alloc(), kind, form, record) {
            Ok(_) => assert!(rt; false, "record {record:?}"),
            Err(fault) => assert_eq!(rt; fault, want, "record {record:?}"),
        }
    }
    Ok(())
}

#[test]
fn reads_primitives_and_matrices(rt: HostRuntime) -> Result<(), AllocError> {
    let size = Vec3 {
        x: 2 * U,
        y: U,
        z: U,
    };
    let cases: [(u32, &[u8], Prim); 10] = [
        (
            150,
            b"150,2.,1.,1.;",
            Prim::Block {
                size,
                corner: ORIGIN,
                u: X,
                w: Z,
            },
        ),
        (
            150,
            b"150,2,1,1,,,,0.,1.,0.,1.,0.,0.;",
            Prim::Block {
                size,
                corner: ORIGIN,
                u: Y,
                w: X,
            },
        ),
        (
            152,
            b"152,2.,1.,1.,0.;",
            Prim::Wedge {
                size,
                ltx: 0,
                corner: ORIGIN,
                u: X,
                w: Z,
            },
        ),
        (
            154,
            b"154,2.,1.,1.,,;",
            Prim::Cylinder {
                h: 2 * U,
                r: U,
                foot: X,
                w: Z,
            },
        ),
        (
            156,
            b"156,2.,1.;",
            Prim::Cone {
                h: 2 * U,
                r1: U,
                r2: 0,
                foot: ORIGIN,
                w: Z,
            },
        ),
        (
            156,
            b"156,2.,1.,0.999999999999,,1.;",
            Prim::Cone {
                h: 2 * U,
                r1: U,
                r2: U - 1,
                foot: Y,
                w: Z,
            },
        ),
        (
            158,
            b"158,5.E-13;",
            Prim::Sphere {
                r: 1,
                centre: ORIGIN,
            },
        ),
        (
            158,
            b"+0158,100000.,,,1.;",
            Prim::Sphere {
                r: 100_000 * U,
                centre: Z,
            },
        ),
        (
            160,
            b"160,2.,1.,,,,,1.,0.;",
            Prim::Torus {
                r1: 2 * U,
                r2: U,
                centre: ORIGIN,
                w: Y,
            },
        ),
        (
            168,
            b"168,2.,1.,1.;rest",
            Prim::Ellipsoid {
                size,
                centre: ORIGIN,
                u: X,
                w: Z,
            },
        ),
    ];
    for (kind, record, want) in cases {
        match read(&rt, rt.alloc(), kind, 0, record) {
            Ok((row, tail)) => {
                assert_eq!(rt;
                    row,
                    Row::Prim {
                        prim: want,
                        matrix: 7
                    },
                    "record {record:?}"
                );
                assert!(rt; tail.is_empty(), "record {record:?}");
            }
            Err(fault) => assert!(rt; false, "record {record:?} {fault:?}"),
        }
    }
    let shift = Vec3 {
        x: 5 * U,
        y: 6 * U,
        z: 7 * U,
    };
    let affine = Affine {
        row1: X,
        row2: Y,
        row3: Z,
        shift,
    };
    match read(&rt, rt.alloc(), 124, 1, b"124,1,0,0,5,0,1,0,6,0,0,1,7;") {
        Ok((row, _rest)) => assert_eq!(rt;
            row,
            Row::Matrix {
                form: 1,
                affine,
                next: 7
            }
        ),
        Err(fault) => assert!(rt; false, "{fault:?}"),
    }
    Ok(())
}

#[test]
fn reads_lists_and_tails(rt: HostRuntime) -> Result<(), AllocError> {
    let alloc = rt.alloc();
    let items: &[Item] = &[Item::Operand(1), Item::Operand(3), Item::Less];
    let items = Items::from_vec(Vec::from_slice(alloc, items)?);
    let placed: &[Placed] = &[Placed { item: 1, matrix: 3 }, Placed { item: 5, matrix: 0 }];
    let placed = PlacedList::from_vec(Vec::from_slice(alloc, placed)?);
    let cases: [(u32, &[u8], Row, usize); 5] = [
        (180, b"180,3,-1,-3,3;", Row::Tree { items, matrix: 7 }, 0),
        (
            184,
            b"184,2,1,5,3,,0,0;",
            Row::Assembly {
                items: placed,
                matrix: 7,
            },
            2,
        ),
        (
            430,
            b"430,5;",
            Row::Instance {
                child: 5,
                matrix: 7,
            },
            0,
        ),
        (
            430,
            b"430, +005 ,;",
            Row::Instance {
                child: 5,
                matrix: 7,
            },
            1,
        ),
        (
            158,
            b"158,1.,,,,;",
            Row::Prim {
                prim: Prim::Sphere {
                    r: U,
                    centre: ORIGIN,
                },
                matrix: 7,
            },
            1,
        ),
    ];
    for (kind, record, want, tail) in cases {
        match read(&rt, alloc, kind, 0, record) {
            Ok((row, found)) => {
                assert_eq!(rt; row, want, "record {record:?}");
                assert_eq!(rt; found.len(), tail, "record {record:?}");
            }
            Err(fault) => assert!(rt; false, "record {record:?} {fault:?}"),
        }
    }
    Ok(())
}

#[test]
fn keeps_the_tail_as_it_is_spelt(rt: HostRuntime) -> Result<(), AllocError> {
    let alloc = rt.alloc();
    let mut want = Tokens::new(alloc);
    want.push(Token::Whole(Bytes::from_vec(Vec::from_slice(alloc, b"+01")?)))?;
    want.push(Token::Empty)?;
    want.push(Token::Real(Bytes::from_vec(Vec::from_slice(alloc, b"1.50")?)))?;
    want.push(Token::Text(Bytes::from_vec(Vec::from_slice(alloc, b"a,;")?)))?;
    match read(&rt, alloc, 430, 0, b"430,5, +01 ,,1.50,3Ha,; ;after") {
        Ok((_row, tail)) => assert!(rt; tail == want),
        Err(fault) => assert!(rt; false, "{fault:?}"),
    }
    Ok(())
}
