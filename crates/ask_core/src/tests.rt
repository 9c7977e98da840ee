//! Answers about a ball about the origin, with ample memory.
ghost use Rattle.std.specs.Prelude.{IfOk};
ghost use Rattle.std.specs.List.{AllByRecursion};
ghost use Rattle.solid_base.specs.Ranges.{IsLawfulRow};

use crate::answers::push_answer_on;
use entity_graph::{Graph, GraphFault};
use fixed_enclosure::Box3;
use solid_base::{Bytes, Class, Cube, Entity, List, Prim, Row, Rows, Tally, U, Vec3};
use solid_eval::afresh;
use solid_questions::{Question, cell_at, is_lawful, render_counts};
use std::alloc::{AllocError, Global};
use std::sync::Arc;

const ORIGIN: Vec3 = Vec3 { x: 0, y: 0, z: 0 };

const BALL: Prim = Prim::Sphere {
    r: U,
    centre: ORIGIN,
};

const AROUND: Cube = Cube {
    lo: Vec3 {
        x: -2 * U,
        y: -2 * U,
        z: -2 * U,
    },
    hi: Vec3 {
        x: 2 * U,
        y: 2 * U,
        z: 2 * U,
    },
};

fn ball(alloc: Global) -> Result<Rows, AllocError>
    ensures { IfOk result (AllByRecursion (λ e. IsLawfulRow e.row)) }
{
    let row = Row::Prim {
        prim: BALL,
        matrix: 0,
    };
    let (attrs, tail) = (Bytes::new(alloc), List::new(alloc));
    let entity = Arc::new(alloc, Entity { row, attrs, tail })?;
    Ok(Rows::from_vec(vec![in alloc; entity]?))
}

#[test]
fn questions_are_answered(rt: HostRuntime) -> Result<(), GraphFault> {
    let alloc = rt.alloc();
    let rows = ball(alloc)?;
    assert!(rt; rows.len() < 100);
    let graph = Graph::check(alloc, &rows)?;
    let section = Question::Section {
        e: 1,
        z: 0,
        x0: -2 * U,
        y0: -2 * U,
        step: U,
        nx: 4,
        ny: 4,
    };
    let cases: [(Question, &[u8], u64); 8] = [
        (Question::Point { e: 1, at: ORIGIN }, b"INSIDE", 1),
        (Question::Cell { e: 1, cube: AROUND }, b"UNDECIDED 1", 1),
        (Question::Items { e: 1 }, b"ITEMS 1 1", 0),
        (section, b"SECTION 4 4\n.??.\n????\n????\n.??.", 16),
        (
            Question::Bounds {
                e: 1,
                cube: AROUND,
                depth: 0,
            },
            b"BOUNDS -2.0 -2.0 -2.0 2.0 2.0 2.0",
            1,
        ),
        (Question::Newest, b"NEWEST", 0),
        (
            Question::Point { e: 3, at: ORIGIN },
            b"REFUSED NoEntity 3",
            0,
        ),
        (
            Question::Volume {
                e: 1,
                cube: AROUND,
                depth: 6,
            },
            b"REFUSED TooLarge",
            0,
        ),
    ];
    for (question, want, count) in cases {
        let mut out = Bytes::new(alloc);
        let mut leaves = Tally { count: 0 };
        assert!(rt; is_lawful(&question));
        push_answer_on(alloc, &mut out, &rows, &graph, &question, &mut leaves)?;
        assert_eq!(rt; out.as_slice(), want);
        assert_eq!(rt; leaves.count, count);
    }
    Ok(())
}

#[test]
fn a_volume_counts_each_cell_afresh(rt: HostRuntime) -> Result<(), GraphFault> {
    let alloc = rt.alloc();
    let rows = ball(alloc)?;
    assert!(rt; rows.len() < 100);
    let graph = Graph::check(alloc, &rows)?;
    let question = Question::Volume {
        e: 1,
        cube: AROUND,
        depth: 3,
    };
    let mut leaves = Tally { count: 0 };
    let (mut lower, mut upper) = (0, 0);
    for place in 0..512 {
        assert!(rt; is_lawful(&question) && lower < 512 && upper < 512);
        let at = Box3::of(&cell_at(&question, place));
        let class = afresh(alloc, &rows, &graph, 1, &at, &mut leaves)?.class;
        if class == Class::Inside {
            lower += 1;
        }
        if class != Class::Outside {
            upper += 1;
        }
    }
    assert_eq!(rt; leaves.count, 512);
    assert!(rt; lower <= upper && upper <= 512);
    assert!(rt; is_lawful(&question));
    let want = render_counts(alloc, lower, upper, &AROUND, 3)?;
    let mut out = Bytes::new(alloc);
    push_answer_on(alloc, &mut out, &rows, &graph, &question, &mut leaves)?;
    assert_eq!(rt; out.as_slice(), want.as_slice());
    assert_eq!(rt; leaves.count, 1024);
    Ok(())
}
