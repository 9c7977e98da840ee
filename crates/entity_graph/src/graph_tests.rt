ghost use Rattle.std.specs.Prelude.{◌≡◌, ◌≤◌, ℕ, length, Contains, IfOk};
ghost use Rattle.solid_base.specs.References.{HasNumber};

use crate::{Graph, GraphFault, Stamps};
use solid_base::{Affine, Bytes, Entity, Item, List, Numbers, Placed, Prim, Row, Rows, Vec3};
use std::alloc::{AllocError, Global};
use std::sync::Arc;

const ORIGIN: Vec3 = Vec3 { x: 0, y: 0, z: 0 };

/// A row in few words: what it names, with its own matrix last.
#[derive(Clone, Copy, Debug)]
enum Draft {
    Null,
    Unread(u32),
    Matrix(u32),
    Ball(u32),
    Join(&'static [u32], u32),
    Parts(&'static [(u32, u32)], u32),
    Use(u32, u32),
}

fn assembly(alloc: Global, parts: &[(u32, u32)], matrix: u32) -> Result<Row, AllocError> {
    let mut items = List::new(alloc);
    for (item, matrix) in parts {
        items.push(Placed {
            item: *item,
            matrix: *matrix,
        })?;
    }
    Ok(Row::Assembly { items, matrix })
}

fn tree(alloc: Global, operands: &[u32], matrix: u32) -> Result<Row, AllocError> {
    let mut items = List::new(alloc);
    for operand in operands {
        items.push(Item::Operand(*operand))?;
    }
    Ok(Row::Tree { items, matrix })
}

/// The row of a draft. What isn't read has a matrix that no entity is.
fn row(alloc: Global, draft: Draft) -> Result<Row, AllocError> {
    let affine = Affine {
        row1: ORIGIN,
        row2: ORIGIN,
        row3: ORIGIN,
        shift: ORIGIN,
    };
    let prim = Prim::Sphere {
        r: 1,
        centre: ORIGIN,
    };
    Ok(match draft {
        Draft::Null => Row::Null,
        Draft::Unread(kind) => Row::Opaque {
            kind,
            form: 0,
            matrix: 98,
            text: Bytes::new(alloc),
        },
        Draft::Matrix(next) => Row::Matrix {
            form: 0,
            affine,
            next,
        },
        Draft::Ball(matrix) => Row::Prim { prim, matrix },
        Draft::Join(operands, matrix) => tree(alloc, operands, matrix)?,
        Draft::Parts(items, matrix) => assembly(alloc, items, matrix)?,
        Draft::Use(child, matrix) => Row::Instance { child, matrix },
    })
}

fn push(alloc: Global, rows: &mut Rows, row: Row) -> Result<(), AllocError> {
    let entity = Entity {
        row,
        attrs: Bytes::new(alloc),
        tail: List::new(alloc),
    };
    rows.push(Arc::new(alloc, entity)?)
}

fn rows_of(alloc: Global, drafts: &[Draft]) -> Result<Rows, AllocError> {
    let mut rows = Rows::new(alloc);
    for draft in drafts {
        push(alloc, &mut rows, row(alloc, *draft)?)?;
    }
    Ok(rows)
}

#[test]
fn names_the_first_fault(rt: HostRuntime) -> Result<(), AllocError> {
    use Draft::{Ball, Join, Matrix, Null, Parts, Unread, Use};
    let cases: [(&[Draft], Option<GraphFault>); 24] = [
        (&[], None),
        (&[Null], None),
        (&[Use(3, 0), Ball(5), Matrix(0)], None),
        // What isn't read names nothing, and may be a matrix by its type.
        (&[Unread(124), Ball(1)], None),
        (&[Unread(314), Use(1, 0)], None),
        // A number past the rows, an even one, that of a null row, and 0.
        (&[Use(5, 0), Ball(0)], Some(GraphFault::Dangling(1, 5))),
        (&[Use(2, 0), Ball(0)], Some(GraphFault::Dangling(1, 2))),
        (&[Null, Use(1, 0)], Some(GraphFault::Dangling(3, 1))),
        (&[Use(0, 0)], Some(GraphFault::Dangling(1, 0))),
        // The own matrix first, then the items, and their matrices after them.
        (&[Join(&[7, 9], 11)], Some(GraphFault::Dangling(1, 11))),
        (&[Join(&[7, 9], 0)], Some(GraphFault::Dangling(1, 7))),
        (
            &[Parts(&[(3, 7), (9, 0)], 0), Ball(0)],
            Some(GraphFault::Dangling(1, 9)),
        ),
        (
            &[Parts(&[(3, 7)], 0), Ball(0)],
            Some(GraphFault::Dangling(1, 7)),
        ),
        // A solid where a matrix is wanted, and the other way round.
        (&[Ball(3), Ball(0)], Some(GraphFault::WrongTarget(1, 3))),
        (&[Unread(126), Ball(1)], Some(GraphFault::WrongTarget(3, 1))),
        (&[Matrix(0), Use(1, 0)], Some(GraphFault::WrongTarget(3, 1))),
        (
            &[Unread(124), Use(1, 0)],
            Some(GraphFault::WrongTarget(3, 1)),
        ),
        // A kind is looked for in all rows before the next.
        (
            &[Ball(3), Ball(0), Use(9, 0)],
            Some(GraphFault::Dangling(5, 9)),
        ),
        (&[Use(1, 0), Ball(1)], Some(GraphFault::WrongTarget(3, 1))),
        // Itself, through a matrix's next, through others, and a row that leads to a cycle.
        (&[Use(1, 0)], Some(GraphFault::Cycle(1))),
        (&[Ball(0), Matrix(5), Matrix(3)], Some(GraphFault::Cycle(3))),
        (&[Ball(3), Matrix(5), Matrix(3)], Some(GraphFault::Cycle(1))),
        (
            &[Ball(0), Join(&[1, 5], 0), Use(3, 0)],
            Some(GraphFault::Cycle(3)),
        ),
        (
            &[Ball(0), Use(5, 0), Use(7, 0), Use(7, 0)],
            Some(GraphFault::Cycle(3)),
        ),
    ];
    let alloc = rt.alloc();
    for (drafts, want) in cases {
        let rows = rows_of(alloc, drafts)?;
        assert!(rt; rows.len() <= 100_000);
        assert_eq!(rt; Graph::check(alloc, &rows).err(), want, "{drafts:?}");
    }
    Ok(())
}

#[test]
fn measures_each_row(rt: HostRuntime) -> Result<(), AllocError> {
    use Draft::{Ball, Join, Matrix, Null, Parts, Unread, Use};
    // With each row its weight, its depth and its first row that isn't read.
    let cases: [(Draft, u64, u64, u32); 11] = [
        (Null, 0, 1, 0),
        (Matrix(0), 0, 1, 0),
        (Matrix(3), 0, 2, 0),
        (Ball(5), 1, 3, 0),
        (Unread(314), 1, 1, 9),
        (Unread(124), 1, 1, 11),
        (Use(9, 11), 1, 2, 9),
        (Join(&[7, 7, 13], 0), 3, 4, 9),
        (Parts(&[(15, 3), (7, 11)], 5), 4, 5, 9),
        (Ball(11), 1, 2, 11),
        (Use(7, 0), 1, 4, 0),
    ];
    let alloc = rt.alloc();
    let mut rows = Rows::new(alloc);
    for (draft, _, _, _) in cases {
        push(alloc, &mut rows, row(alloc, draft)?)?;
    }
    assert!(rt; rows.len() == 11);
    match Graph::check(alloc, &rows) {
        Err(fault) => assert!(rt; false, "{fault:?}"),
        Ok(graph) => {
            for (place, (_, weight, depth, opaque)) in cases.iter().enumerate() {
                assert!(rt; place < 11);
                let e = 2 * place as u32 + 1;
                assert_eq!(rt; graph.weight(e), *weight, "weight of {e}");
                assert_eq!(rt; graph.depth(e), *depth, "depth of {e}");
                assert_eq!(rt; graph.opaque(e), *opaque, "first of {e} that isn't read");
            }
        }
    }
    Ok(())
}

/// Rows of which each names the one after it, and a ball at the end.
fn chain(alloc: Global, len: u32) -> Result<Rows, AllocError>
    requires { len ≤ 1000 }
{
    let mut rows = Rows::new(alloc);
    for place in 1..len {
        push(alloc, &mut rows, row(alloc, Draft::Use(2 * place + 1, 0))?)?;
    }
    push(alloc, &mut rows, row(alloc, Draft::Ball(0))?)?;
    Ok(rows)
}

#[test]
fn bounds_the_levels(rt: HostRuntime) -> Result<(), AllocError> {
    let alloc = rt.alloc();
    let cases = [
        (1, None),
        (64, None),
        (65, Some(GraphFault::TooDeep(1))),
        (66, Some(GraphFault::TooDeep(1))),
        (1000, Some(GraphFault::TooDeep(1))),
    ];
    for (len, want) in cases {
        assert!(rt; len <= 1000);
        let rows = chain(alloc, len)?;
        assert!(rt; rows.len() <= 100_000);
        assert_eq!(rt; Graph::check(alloc, &rows).err(), want, "{len} rows");
    }
    Ok(())
}

const fn placed(item: u32) -> Placed {
    Placed { item, matrix: 0 }
}

/// A ball, and rows of which each names the one before it twice: the last weighs 2^(len - 1). Then
/// a row that names the last, and as often as is wanted the ball.
fn doubles(alloc: Global, len: u32, more: u32) -> Result<Rows, AllocError>
    requires at_least { 1 ≤ len }
    requires at_most { len ≤ 1000 }
{
    let mut rows = Rows::new(alloc);
    push(alloc, &mut rows, row(alloc, Draft::Ball(0))?)?;
    for place in 1..len {
        let before = 2 * place - 1;
        push(alloc, &mut rows, tree(alloc, &[before, before], 0)?)?;
    }
    let mut items = List::new(alloc);
    items.push(placed(2 * len - 1))?;
    for _ in 0..more {
        items.push(placed(1))?;
    }
    push(alloc, &mut rows, Row::Assembly { items, matrix: 0 })?;
    Ok(rows)
}

#[test]
fn bounds_the_weight(rt: HostRuntime) -> Result<(), AllocError> {
    let alloc = rt.alloc();
    let cases = [
        (21, 0, None),
        (21, 1, Some(GraphFault::TooHeavy(43))),
        (22, 0, Some(GraphFault::TooHeavy(43))),
        (60, 3, Some(GraphFault::TooHeavy(43))),
        // Depth comes before weight.
        (65, 0, Some(GraphFault::TooDeep(129))),
        (1, 1000, None),
    ];
    for (len, more, want) in cases {
        assert!(rt; len >= 1 && len <= 1000);
        let rows = doubles(alloc, len, more)?;
        assert!(rt; rows.len() <= 100_000);
        assert_eq!(rt; Graph::check(alloc, &rows).err(), want, "{len} rows");
    }
    Ok(())
}

/// A row that names many, each of which names the same ball.
#[test]
fn weighs_a_star(rt: HostRuntime) -> Result<(), AllocError> {
    let alloc = rt.alloc();
    let mut rows = Rows::new(alloc);
    let mut items = List::new(alloc);
    push(alloc, &mut rows, row(alloc, Draft::Ball(0))?)?;
    for place in 1..=1000 {
        push(alloc, &mut rows, row(alloc, Draft::Use(1, 0))?)?;
        items.push(placed(2 * place + 1))?;
    }
    push(alloc, &mut rows, Row::Assembly { items, matrix: 0 })?;
    assert!(rt; rows.len() == 1002);
    match Graph::check(alloc, &rows) {
        Err(fault) => assert!(rt; false, "{fault:?}"),
        Ok(graph) => {
            assert_eq!(rt; graph.weight(2003), 1000);
            assert_eq!(rt; graph.depth(2003), 3);
            assert_eq!(rt; graph.opaque(2003), 0);
        }
    }
    Ok(())
}

#[test]
fn lists_what_each_row_reaches(rt: HostRuntime) -> Result<(), AllocError> {
    use Draft::{Ball, Join, Matrix, Null, Parts, Unread, Use};
    // With each row the numbers that it reaches.
    let cases: [(Draft, &[u32]); 12] = [
        (Null, &[1]),
        (Matrix(0), &[3]),
        (Matrix(3), &[3, 5]),
        (Ball(5), &[3, 5, 7]),
        (Unread(314), &[9]),
        (Unread(124), &[11]),
        (Use(9, 11), &[9, 11, 13]),
        (Join(&[7, 7, 13], 0), &[3, 5, 7, 9, 11, 13, 15]),
        (Parts(&[(7, 11), (9, 0)], 3), &[3, 5, 7, 9, 11, 17]),
        // What is named may stand after the row.
        (Use(23, 0), &[3, 5, 7, 19, 23]),
        (Join(&[19], 5), &[3, 5, 7, 19, 21, 23]),
        (Use(7, 0), &[3, 5, 7, 23]),
    ];
    let alloc = rt.alloc();
    let mut rows = Rows::new(alloc);
    for (draft, _) in cases {
        push(alloc, &mut rows, row(alloc, draft)?)?;
    }
    assert!(rt; rows.len() == 12);
    match Graph::check(alloc, &rows) {
        Err(fault) => assert!(rt; false, "{fault:?}"),
        Ok(graph) => {
            for (place, (_, want)) in cases.iter().enumerate() {
                assert!(rt; place < 12);
                let e = 2 * place as u32 + 1;
                let reached = graph.reach(alloc, &rows, e)?;
                assert_eq!(rt; reached.as_slice(), *want, "reached from {e}");
            }
        }
    }
    Ok(())
}

/// The numbers of all rows.
fn numbers(alloc: Global, rows: &Rows) -> Result<Numbers, AllocError>
    requires { length rows.now ≤ 1000 }
    ensures { IfOk result (λ numbers. (e : ℕ) → HasNumber rows.now e → Contains numbers e) }
{
    let mut numbers = Numbers::new(alloc);
    for place in 0..rows.len() {
        numbers.push(2 * place as u32 + 1)?;
    }
    Ok(numbers)
}

/// The stamps that rows without a fault get from one reading; AllocError where they have one.
fn stamped(
    alloc: Global,
    rows: &Rows,
    old: &Stamps,
    changed: &Numbers,
    version: u64,
) -> Result<Stamps, AllocError>
    requires few { length rows.now ≤ 100000 }
    requires known { (e : ℕ) → HasNumber rows.now e → HasNumber old.now e }
    ensures { IfOk result (λ stamps. length stamps ≡ length rows.now) }
{
    match Graph::check_stamped(alloc, rows, old, changed, version) {
        Ok((_, stamps)) => Ok(stamps),
        Err(_) => Err(AllocError),
    }
}

#[test]
fn stamps_what_reaches_a_change(rt: HostRuntime) -> Result<(), AllocError> {
    use Draft::{Ball, Join, Matrix, Null, Unread, Use};
    let drafts = [
        Matrix(0),
        Ball(1),
        Ball(0),
        Join(&[3, 5], 0),
        Use(13, 0),
        Null,
        Use(7, 0),
        Unread(314),
    ];
    // One after another: what is changed, in which version, and the stamps of all rows then.
    let cases: [(&[u32], u64, [u64; 8]); 7] = [
        (&[1], 1, [1, 1, 0, 1, 1, 0, 1, 0]),
        (&[5], 2, [1, 1, 2, 2, 2, 0, 2, 0]),
        (&[], 3, [1, 1, 2, 2, 2, 0, 2, 0]),
        (&[15, 11, 15], 4, [1, 1, 2, 2, 2, 4, 2, 4]),
        // Numbers that no row has.
        (&[0, 2, 17, 4_294_967_295], 5, [1, 1, 2, 2, 2, 4, 2, 4]),
        (&[9], 6, [1, 1, 2, 2, 6, 4, 2, 4]),
        // A version need not be greater than the stamps before.
        (&[3, 15], 0, [1, 0, 2, 0, 0, 4, 0, 0]),
    ];
    let alloc = rt.alloc();
    let rows = rows_of(alloc, &drafts)?;
    assert!(rt; rows.len() == 8);
    match Graph::check(alloc, &rows) {
        Err(fault) => assert!(rt; false, "{fault:?}"),
        Ok(graph) => {
            let all = numbers(alloc, &rows)?;
            let mut stamps = graph.stamps(alloc, &rows, &Stamps::new(alloc), &all, 0)?;
            for (changed, version, want) in cases {
                let changed = Numbers::from_vec(Vec::from_slice(alloc, changed)?);
                stamps = stamped(alloc, &rows, &stamps, &changed, version)?;
                for place in 0..8 {
                    let e = 2 * place as u32 + 1;
                    assert_eq!(rt; stamps.of(e), want[place], "stamp of {e} in {version}");
                }
            }
        }
    }
    Ok(())
}

#[test]
fn writes_each_fault(rt: HostRuntime) -> Result<(), AllocError> {
    let alloc = rt.alloc();
    let cases: [(GraphFault, u32, &[u8]); 5] = [
        (GraphFault::Dangling(11, 13), 2, b"Dangling 11 13"),
        (GraphFault::WrongTarget(1, 0), 3, b"WrongTarget 1 0"),
        (GraphFault::Cycle(5), 4, b"Cycle 5"),
        (GraphFault::TooDeep(129), 5, b"TooDeep 129"),
        (
            GraphFault::TooHeavy(4_294_967_295),
            6,
            b"TooHeavy 4294967295",
        ),
    ];
    for (fault, number, words) in cases {
        assert_eq!(rt; fault.number(), number);
        assert!(rt; fault.number() != 1);
        assert_eq!(rt; fault.write_fault(alloc)?.as_slice(), words);
    }
    Ok(())
}
