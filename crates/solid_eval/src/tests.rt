//! Verdicts at points, by hand: balls that are moved, cut, placed and shown again.
ghost use Rattle.std.specs.Prelude.{◌≡◌, ◌<◌, ◌≤◌, ℕ, IfOk};
ghost use Rattle.std.specs.List.{AllByRecursion};
ghost use Rattle.std.specs.Arc.{arc_value};
ghost use Rattle.solid_base.specs.declared.solids.Row.TheVariants as row;
ghost use Rattle.solid_base.specs.Graph.{weight_of};
ghost use Rattle.solid_base.specs.Ranges.{IsLawfulRow};
ghost use Rattle.solid_base.specs.References.{HasNumber, row_at};
ghost use Rattle.entity_graph.specs.Opaque.{ReachesOpaque};
ghost use Rattle.fixed_enclosure.specs.Spans.{IsEnc, IsBox};
ghost use Rattle.solid_eval.specs.Solids.{IsSolidRow};

use super::*;
use boolean_tree::check_items;
use entity_graph::{Graph, GraphFault};
use fixed_enclosure::{Box3, Enc};
use solid_base::{
    Affine, Bytes, Class, Entity, Item, Items, List, Placed, Prim, Row, Rows, Tally, U, Vec3,
    Verdict, Verdicts,
};
use std::alloc::{AllocError, Global};
use std::process::Abort;
use std::sync::Arc;

const NONE: Vec3 = Vec3 { x: 0, y: 0, z: 0 };

const BY_TWENTY: Vec3 = Vec3 {
    x: 20 * U,
    y: 0,
    z: 0,
};

const ALONG_X: Vec3 = Vec3 { x: U, y: 0, z: 0 };

const ALONG_Y: Vec3 = Vec3 { x: 0, y: U, z: 0 };

const ALONG_Z: Vec3 = Vec3 { x: 0, y: 0, z: U };

const AGAINST_Y: Vec3 = Vec3 { x: 0, y: -U, z: 0 };

// Moves by 20 along X.
const SLIDE: Affine = Affine {
    row1: ALONG_X,
    row2: ALONG_Y,
    row3: ALONG_Z,
    shift: BY_TWENTY,
};

// Turns X to Y about Z.
const TURN: Affine = Affine {
    row1: AGAINST_Y,
    row2: ALONG_X,
    row3: ALONG_Z,
    shift: NONE,
};

const BALL: Prim = Prim::Sphere {
    r: 10 * U,
    centre: NONE,
};

const SMALL_BALL: Prim = Prim::Sphere {
    r: 4 * U,
    centre: NONE,
};

// A coordinate, in units.
fn coordinate(rt: &impl Abort, units: i128) -> Enc
    ensures { IsEnc result }
{
    assert!(rt; -1000 <= units && units <= 1000);
    Enc::point(units * U)
}

// A place, in units.
fn place(rt: &impl Abort, at: (i128, i128, i128)) -> Box3
    ensures { IsBox result }
{
    Box3 {
        x: coordinate(rt, at.0),
        y: coordinate(rt, at.1),
        z: coordinate(rt, at.2),
    }
}

fn entity(alloc: Global, row: Row) -> Result<Arc<Entity>, AllocError>
    requires { IsLawfulRow row }
    ensures { IfOk result (λ e. IsLawfulRow (arc_value e).row) }
{
    let (attrs, tail) = (Bytes::new(alloc), List::new(alloc));
    Ok(Arc::new(alloc, Entity { row, attrs, tail })?)
}

fn matrix(alloc: Global, affine: Affine) -> Result<Arc<Entity>, AllocError>
    requires { IsLawfulRow (row.Matrix 0 affine 0) }
    ensures { IfOk result (λ e. IsLawfulRow (arc_value e).row) }
{
    let matrix = Row::Matrix {
        form: 0,
        affine,
        next: 0,
    };
    entity(alloc, matrix)
}

fn ball(alloc: Global, prim: Prim, matrix: u32) -> Result<Arc<Entity>, AllocError>
    requires { IsLawfulRow (row.Prim prim matrix) }
    ensures { IfOk result (λ e. IsLawfulRow (arc_value e).row) }
{
    entity(alloc, Row::Prim { prim, matrix })
}

// A solid less another one.
fn difference(
    rt: &impl Abort,
    alloc: Global,
    left: u32,
    right: u32,
) -> Result<Arc<Entity>, AllocError>
    requires { (0 < left) × (left ≤ 99) × (0 < right) × (right ≤ 99) }
    ensures { IfOk result (λ e. IsLawfulRow (arc_value e).row) }
{
    let items = Items::from_vec(vec![in alloc;
        Item::Operand(left),
        Item::Operand(right),
        Item::Less,
    ]?);
    assert!(rt; items.len() < 100 && check_items(&items).is_none());
    entity(alloc, Row::Tree { items, matrix: 0 })
}

fn assembly(alloc: Global, placed: Placed, matrix: u32) -> Result<Arc<Entity>, AllocError>
    requires { (placed.item ≤ 99) × (placed.matrix ≤ 99) }
    ensures { IfOk result (λ e. IsLawfulRow (arc_value e).row) }
{
    let items = List::from_vec(vec![in alloc; placed]?);
    entity(alloc, Row::Assembly { items, matrix })
}

fn rows(rt: &impl Abort, alloc: Global) -> Result<Rows, AllocError>
    ensures { IfOk result (AllByRecursion (λ e. IsLawfulRow e.row)) }
{
    let placed = Placed { item: 7, matrix: 5 };
    let again = Row::Instance {
        child: 7,
        matrix: 3,
    };
    Ok(Rows::from_vec(vec![in alloc;
        ball(alloc, BALL, 0)?,
        matrix(alloc, SLIDE)?,
        matrix(alloc, TURN)?,
        ball(alloc, SMALL_BALL, 3)?,
        difference(rt, alloc, 1, 7)?,
        difference(rt, alloc, 1, 1)?,
        assembly(alloc, placed, 3)?,
        entity(alloc, again)?,
    ]?))
}

#[test]
fn verdicts_at_points(rt: HostRuntime) -> Result<(), GraphFault> {
    let rows = rows(&rt, rt.alloc())?;
    assert!(rt; rows.len() < 100);
    let graph = Graph::check(rt.alloc(), &rows)?;
    let cases = [
        // Number 1 is a ball about the origin, number 7 a small one about (20, 0, 0).
        (1, (0, 0, 9), Class::Inside, 0, 1),
        (1, (6, 0, 8), Class::Mixed, 1, 1),
        (1, (10, 1, 0), Class::Outside, 0, 1),
        (7, (20, 3, 0), Class::Inside, 0, 1),
        (7, (24, 0, 0), Class::Mixed, 7, 1),
        (7, (0, 0, 0), Class::Outside, 0, 1),
        // Number 9 is the ball less the small one, number 11 the ball less itself.
        (9, (0, 0, 9), Class::Inside, 0, 2),
        (9, (0, 10, 0), Class::Mixed, 1, 2),
        (9, (20, 0, 0), Class::Outside, 0, 2),
        (11, (0, 0, 0), Class::Outside, 0, 2),
        (11, (0, 10, 0), Class::Mixed, 1, 2),
        // Number 13 turns the small ball to (0, 20, 0), and then moves it to (20, 20, 0).
        (13, (20, 20, 0), Class::Inside, 0, 1),
        (13, (20, 20, 4), Class::Mixed, 7, 1),
        (13, (0, 40, 0), Class::Outside, 0, 1),
        // Number 15 shows the small ball at (40, 0, 0).
        (15, (40, 0, 0), Class::Inside, 0, 1),
        (15, (20, 0, 0), Class::Outside, 0, 1),
        // A matrix, an even number, and a number that no entity has.
        (3, (0, 0, 0), Class::Outside, 0, 0),
        (2, (0, 0, 0), Class::Outside, 0, 0),
        (17, (0, 0, 0), Class::Outside, 0, 0),
    ];
    for (e, at, class, leaf, count) in cases {
        let mut leaves = Tally { count: 0 };
        let verdict = afresh(rt.alloc(), &rows, &graph, e, &place(&rt, at), &mut leaves)?;
        assert_eq!(rt; verdict, Verdict { class, leaf }, "{e} at {at:?}");
        assert_eq!(rt; leaves.count, count, "{e} at {at:?}");
    }
    Ok(())
}

// Some entity has the number, it reaches nothing unread, and weighs more than k.
#[tactic(auto, using(crate::proofs::PassedParts::none_unread))]
fn has_use(rt: &impl Abort, rows: &Rows, graph: &Graph, e: u32, k: u64)
    requires { graph.now ≡ rows.now }
    ensures number { HasNumber rows.now e }
    ensures read { (n : ℕ) → ¬ ReachesOpaque rows.now e n }
    ensures within { k < weight_of rows.now e }
{
    assert!(rt; e % 2 == 1 && ((e / 2) as usize) < rows.len());
    assert!(rt; graph.opaque(e) == 0 && k < graph.weight(e));
}

#[test]
fn uses_at_places(rt: HostRuntime) -> Result<(), GraphFault> {
    let rows = rows(&rt, rt.alloc())?;
    assert!(rt; rows.len() < 100);
    let graph = Graph::check(rt.alloc(), &rows)?;
    let cases = [
        // An operand's use is where the tree is asked.
        (9, (20, 3, 0), 0, 1, (20, 3, 0)),
        (9, (20, 3, 0), 1, 7, (20, 3, 0)),
        (11, (0, 0, 0), 1, 1, (0, 0, 0)),
        // Number 13 turns its item from X to Y, and moves it by 20 along X.
        (13, (20, 23, 0), 0, 7, (23, 0, 0)),
        // Number 15 moves its child by 20 along X.
        (15, (43, 0, 0), 0, 7, (23, 0, 0)),
        // A primitive is asked before its own matrix.
        (7, (23, 0, 0), 0, 7, (23, 0, 0)),
    ];
    for (e, at, k, number, before) in cases {
        has_use(&rt, &rows, &graph, e, k);
        let found = leaf_at(&rows, &graph, e, &place(&rt, at), k);
        assert_eq!(rt; found, (number, place(&rt, before)), "use {k} of {e}");
    }
    Ok(())
}

#[test]
fn verdicts_from_given_verdicts(rt: HostRuntime) -> Result<(), GraphFault> {
    let rows = rows(&rt, rt.alloc())?;
    assert!(rt; rows.len() < 100);
    let graph = Graph::check(rt.alloc(), &rows)?;
    let inside = Verdict {
        class: Class::Inside,
        leaf: 0,
    };
    let outside = Verdict {
        class: Class::Outside,
        leaf: 0,
    };
    let open = Verdict {
        class: Class::Mixed,
        leaf: 7,
    };
    let cases = [
        (9, [inside, outside], inside),
        (9, [inside, inside], outside),
        (9, [inside, open], open),
        (9, [outside, open], outside),
        // One verdict is enough here.
        (13, [inside, outside], inside),
        (15, [open, outside], open),
    ];
    for (e, leaves, want) in cases {
        has_use(&rt, &rows, &graph, e, 0);
        let mut stack = Verdicts::new(rt.alloc());
        stack.push(open)?;
        stack.reserve(graph.weight(e) as usize)?;
        let verdict = combine(&rows, &graph, e, leaves.as_slice(), &mut stack);
        assert_eq!(rt; verdict, want, "{e} from {leaves:?}");
        assert_eq!(rt; stack.as_slice(), [open].as_slice());
    }
    Ok(())
}

fn pair(alloc: Global, left: Placed, right: Placed, matrix: u32) -> Result<Arc<Entity>, AllocError>
    requires left { (left.item ≤ 99) × (left.matrix ≤ 99) }
    requires right { (right.item ≤ 99) × (right.matrix ≤ 99) }
    ensures { IfOk result (λ e. IsLawfulRow (arc_value e).row) }
{
    let items = List::from_vec(vec![in alloc; left, right]?);
    entity(alloc, Row::Assembly { items, matrix })
}

// An assembly and its instance stand in a tree, which stands in another tree.
fn nested_rows(rt: &impl Abort, alloc: Global) -> Result<Rows, AllocError>
    ensures { IfOk result (AllByRecursion (λ e. IsLawfulRow e.row)) }
{
    let turned = Placed { item: 1, matrix: 5 };
    let moved = Placed { item: 7, matrix: 3 };
    let again = Row::Instance {
        child: 9,
        matrix: 5,
    };
    Ok(Rows::from_vec(vec![in alloc;
        ball(alloc, BALL, 0)?,
        matrix(alloc, SLIDE)?,
        matrix(alloc, TURN)?,
        ball(alloc, SMALL_BALL, 3)?,
        pair(alloc, turned, moved, 3)?,
        entity(alloc, again)?,
        difference(rt, alloc, 9, 11)?,
        difference(rt, alloc, 13, 1)?,
    ]?))
}

fn is_solid(rt: &impl Abort, rows: &Rows, e: u32)
    ensures { IsSolidRow (row_at rows.now e) }
{
    match rows.row(e) {
        Some(Row::Prim { .. } | Row::Tree { .. } | Row::Assembly { .. } | Row::Instance { .. }) =>
            {}
        _ => panic!(rt; "{e} is no solid"),
    }
}

// A walk along an entity gives the uses at all places, one after the other.
fn walk_is_by_places(
    rt: &impl Abort,
    alloc: Global,
    rows: &Rows,
    graph: &Graph,
    e: u32,
    at: &Box3,
) -> Result<(), AllocError>
    requires rows { AllByRecursion (λ e. IsLawfulRow e.row) rows.now }
    requires graph { graph.now ≡ rows.now }
    requires at { IsBox at.now }
{
    graph.obeys();
    has_use(rt, rows, graph, e, 0);
    is_solid(rt, rows, e);
    let mut walk = Walk::new(alloc, e, at)?;
    let mut there = *at;
    for k in 0..graph.weight(e) {
        has_use(rt, rows, graph, e, k);
        let (number, found) = leaf_at(rows, graph, e, at, k);
        let next = walk.next(rows, &mut there);
        assert_eq!(rt; (next, there), (Some(number), found), "use {k} of {e}");
    }
    let end = walk.next(rows, &mut there);
    assert_eq!(rt; end, None, "after the last use of {e}");
    let again = walk.next(rows, &mut there);
    assert_eq!(rt; again, None, "once more after the last use of {e}");
    Ok(())
}

#[test]
fn walks_along_uses(rt: HostRuntime) -> Result<(), GraphFault> {
    let rows = nested_rows(&rt, rt.alloc())?;
    assert!(rt; rows.len() < 100);
    let graph = Graph::check(rt.alloc(), &rows)?;
    let at = place(&rt, (1, 2, 3));
    // Number 9 is an assembly of two balls, number 11 its instance, number 13 the one less the
    // other, and number 15 that less a ball.
    for (e, weight) in [(1, 1), (7, 1), (9, 2), (11, 2), (13, 4), (15, 5)] {
        has_use(&rt, &rows, &graph, e, 0);
        assert_eq!(rt; graph.weight(e), weight, "the weight of {e}");
        walk_is_by_places(&rt, rt.alloc(), &rows, &graph, e, &at)?;
    }
    Ok(())
}
