ghost use Rattle.solid_base.specs.Ranges.{IsLawfulPrim, IsLawfulRow};
ghost use Rattle.std.specs.Prelude.{IfOk};
ghost use Rattle.iges_fields.specs.Layout.{IsSpelt, AreSpelt};
ghost use Rattle.iges_parameters.specs.WrittenRows.{IsTailOf};

use crate::{row_line_count, row_lines};
use solid_base::{
    Affine, Bytes, Entity, Item, Items, Placed, PlacedList, Prim, Row, Token, Tokens, U, Vec3,
};
use std::alloc::{AllocError, Global};

const ORIGIN: Vec3 = Vec3 { x: 0, y: 0, z: 0 };

const X: Vec3 = Vec3 { x: U, y: 0, z: 0 };

const Y: Vec3 = Vec3 { x: 0, y: U, z: 0 };

const Z: Vec3 = Vec3 { x: 0, y: 0, z: U };

/// Whether the lines of a row with these fields after it are these, with blanks after each, and are
/// counted.
fn has_lines(alloc: Global, row: Row, tail: Tokens, want: &[&str]) -> Result<bool, AllocError>
    requires lawful { IsLawfulRow row }
    requires spelt { AreSpelt tail }
    requires tail { IsTailOf row tail }
{
    let entity = Entity {
        row,
        attrs: Bytes::new(alloc),
        tail,
    };
    let lines = row_lines(alloc, &entity, b',', b';')?;
    let count = row_line_count(alloc, &entity, b',', b';')?;
    let alike = lines.len() == want.len()
        && lines
            .as_slice()
            .iter()
            .zip(want)
            .all(|(line, text)| is_line(line.as_slice(), text.as_bytes()));
    Ok(alike && count == want.len() as u64)
}

/// Whether a line of 64 columns is this text with blanks after it.
fn is_line(line: &[u8], text: &[u8]) -> bool {
    line.len() == 64
        && line.starts_with(text)
        && line.iter().skip(text.len()).all(|byte| *byte == b' ')
}

fn prim_has_line(alloc: Global, prim: Prim, want: &str) -> Result<bool, AllocError>
    requires { IsLawfulPrim prim }
{
    has_lines(
        alloc,
        Row::Prim { prim, matrix: 0 },
        Tokens::new(alloc),
        &[want],
    )
}

#[test]
fn writes_solids_with_a_frame(rt: HostRuntime) -> Result<(), AllocError> {
    let alloc = rt.alloc();
    let size = Vec3 {
        x: 4 * U,
        y: 2 * U,
        z: U / 2,
    };
    let corner = Vec3 { x: -U, y: 0, z: 1 };
    let block = Prim::Block {
        size,
        corner,
        u: X,
        w: Z,
    };
    let wedge = Prim::Wedge {
        size,
        ltx: U,
        corner: ORIGIN,
        u: Y,
        w: Z,
    };
    let ellipsoid = Prim::Ellipsoid {
        size,
        centre: ORIGIN,
        u: X,
        w: Y,
    };
    assert!(rt;
        prim_has_line(
            alloc,
            block,
            "150,4.0,2.0,0.5,-1.0,0.0,0.000000000001,1.0,0.0,0.0,0.0,0.0,1.0;"
        )?
    );
    assert!(rt;
        prim_has_line(
            alloc,
            wedge,
            "152,4.0,2.0,0.5,1.0,0.0,0.0,0.0,0.0,1.0,0.0,0.0,0.0,1.0;"
        )?
    );
    assert!(rt;
        prim_has_line(
            alloc,
            ellipsoid,
            "168,4.0,2.0,0.5,0.0,0.0,0.0,1.0,0.0,0.0,0.0,1.0,0.0;"
        )?
    );
    Ok(())
}

#[test]
fn writes_round_solids(rt: HostRuntime) -> Result<(), AllocError> {
    let alloc = rt.alloc();
    let sphere = Prim::Sphere {
        r: 100_000 * U,
        centre: Vec3 {
            x: -100_000 * U,
            y: 12 * U / 10,
            z: 0,
        },
    };
    let cone = Prim::Cone {
        h: 3 * U,
        r1: 2 * U,
        r2: 0,
        foot: ORIGIN,
        w: Z,
    };
    let torus = Prim::Torus {
        r1: 2 * U,
        r2: 1,
        centre: ORIGIN,
        w: X,
    };
    assert!(rt; prim_has_line(alloc, sphere, "158,100000.0,-100000.0,1.2,0.0;")?);
    assert!(rt; prim_has_line(alloc, cone, "156,3.0,2.0,0.0,0.0,0.0,0.0,0.0,0.0,1.0;")?);
    assert!(rt;
        prim_has_line(
            alloc,
            torus,
            "160,2.0,0.000000000001,0.0,0.0,0.0,1.0,0.0,0.0;"
        )?
    );
    Ok(())
}

#[test]
fn goes_on_where_a_number_does_not_fit(rt: HostRuntime) -> Result<(), AllocError> {
    let alloc = rt.alloc();
    let prim = Prim::Cylinder {
        h: 123_456_789_012,
        r: 2_000_000_000_001,
        foot: Vec3 {
            x: -12_345_123_456_789_012,
            y: 199_999 * U / 2,
            z: 5 * U / 4,
        },
        w: Z,
    };
    let lines = [
        "154,0.123456789012,2.000000000001,-12345.123456789012,99999.5,",
        "1.25,0.0,0.0,1.0;",
    ];
    let row = Row::Prim { prim, matrix: 9 };
    assert!(rt; has_lines(alloc, row, Tokens::new(alloc), &lines)?);
    Ok(())
}

#[test]
fn writes_other_rows(rt: HostRuntime) -> Result<(), AllocError> {
    let alloc = rt.alloc();
    let affine = Affine {
        row1: X,
        row2: Y,
        row3: Z,
        shift: Vec3 {
            x: 10 * U,
            y: -20 * U,
            z: 1,
        },
    };
    let matrix = Row::Matrix {
        form: 0,
        affine,
        next: 0,
    };
    assert!(rt; has_lines(alloc, Row::Null, Tokens::new(alloc), &["0;"])?);
    assert!(rt;
        has_lines(
            alloc,
            matrix,
            Tokens::new(alloc),
            &[
                "124,1.0,0.0,0.0,10.0,0.0,1.0,0.0,-20.0,0.0,0.0,1.0,",
                "0.000000000001;"
            ]
        )?
    );
    Ok(())
}

#[test]
fn writes_trees_and_assemblies(rt: HostRuntime) -> Result<(), AllocError> {
    let alloc = rt.alloc();
    let items = Vec::from_slice(
        alloc,
        &[Item::Operand(1), Item::Operand(9_999_999), Item::Less],
    )?;
    let tree = Row::Tree {
        items: Items::from_vec(items),
        matrix: 0,
    };
    let placed = [Placed { item: 1, matrix: 0 }, Placed { item: 3, matrix: 5 }];
    let assembly = Row::Assembly {
        items: PlacedList::from_vec(Vec::from_slice(alloc, &placed)?),
        matrix: 0,
    };
    assert!(rt; has_lines(alloc, tree, Tokens::new(alloc), &["180,3,-1,-9999999,3;"])?);
    assert!(rt; has_lines(alloc, assembly, Tokens::new(alloc), &["184,2,1,3,0,5;"])?);
    Ok(())
}

/// A whole number as no number of a row is written.
fn padded(alloc: Global) -> Result<Token, AllocError>
    ensures { IfOk result IsSpelt }
{
    Ok(Token::Whole(Bytes::from_vec(Vec::from_slice(alloc, b"007")?)))
}

#[test]
fn writes_the_fields_after(rt: HostRuntime) -> Result<(), AllocError> {
    let alloc = rt.alloc();
    let text = Bytes::from_vec(Vec::from_slice(alloc, b"a;b")?);
    let mut tail = Tokens::new(alloc);
    tail.push(Token::Empty)?;
    tail.push(Token::Text(text))?;
    tail.push(padded(alloc)?)?;
    let row = Row::Instance {
        child: 7,
        matrix: 0,
    };
    assert!(rt; has_lines(alloc, row, tail, &["430,7,,3Ha;b,007;"])?);
    Ok(())
}

#[test]
fn keeps_what_is_not_read(rt: HostRuntime) -> Result<(), AllocError> {
    let alloc = rt.alloc();
    // The size of a record, how many lines it has, and how many of its bytes stand on the last.
    for (size, count, columns) in [(0, 1, 0), (1, 1, 1), (64, 1, 64), (65, 2, 1), (128, 2, 64)] {
        let mut text = Vec::new(alloc);
        text.resize(size, b'x')?;
        let entity = Entity {
            row: Row::Opaque {
                kind: 110,
                form: 0,
                matrix: 0,
                text: Bytes::from_vec(text),
            },
            attrs: Bytes::new(alloc),
            tail: Tokens::new(alloc),
        };
        let lines = row_lines(alloc, &entity, b',', b';')?;
        assert_eq!(rt; lines.len(), count, "at {size}");
        assert_eq!(rt;
            row_line_count(alloc, &entity, b',', b';')?,
            count as u64,
            "at {size}"
        );
        let Some(last) = lines.as_slice().last() else {
            return Ok(());
        };
        let marks = last.as_slice().iter().filter(|byte| **byte == b'x').count();
        assert_eq!(rt; (last.len(), marks), (64, columns), "at {size}");
    }
    Ok(())
}
