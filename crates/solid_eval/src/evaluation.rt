ghost use Rattle.std.specs.Prelude.{◌≡◌, ◌≤◌, map, IfOk, OnOk, OnErr};
ghost use Rattle.std.specs.List.{AllByRecursion};
ghost use Rattle.solid_base.specs.declared.classes.Class.{Class};
ghost use Rattle.solid_base.specs.declared.geometry.Vec3.{Vec3};
ghost use Rattle.solid_base.specs.declared.solids.Primitive.{Primitive};
ghost use Rattle.solid_base.specs.declared.solids.Row.TheVariants as row;
ghost use Rattle.solid_base.specs.Classes.{IsVerdict};
ghost use Rattle.solid_base.specs.Graph.{weight_of, most_weight};
ghost use Rattle.solid_base.specs.Ledgers.{counted, RisesUpTo};
ghost use Rattle.solid_base.specs.Range.{IsPointWithin, far};
ghost use Rattle.solid_base.specs.Ranges.{IsLawfulRow};
ghost use Rattle.solid_base.specs.References.{row_at};
ghost use Rattle.fixed_enclosure.specs.Places.{Span3, spans_of};
ghost use Rattle.fixed_enclosure.specs.Spans.{IsBox, box_of};
ghost use Rattle.csg_primitives.specs.Sharpness.{IsSharp, point_cube};
ghost use Rattle.solid_eval.specs.Solids.{solid_of, IsPrimitiveRow};
ghost use Rattle.solid_eval.specs.Uses.{leaf_count, uses, use_verdict, verdict_from};
ghost use Rattle.solid_eval.specs.Classes.{place_class, IsOfPlaces};
ghost use Rattle.solid_eval.specs.Interior.{IsInterior, IsExterior};
ghost use Rattle.solid_eval.specs.Written.{written};
ghost use Rattle.solid_eval.specs.Causes.{HasCause};

use crate::leaves::{Anywhere, Evaluated, Given, OUTSIDE, evaluate};
use crate::walk::entity_verdict;
use affine_pull::pull_chain;
use entity_graph::Graph;
use fixed_enclosure::Box3;
use solid_base::{Ledger, MOST_LEVELS, Row, Rows, Verdict, Verdicts};
use std::alloc::{AllocError, Global};

/// The verdict on an entity over a box. A class that isn't `Mixed` is that of each place in the
/// box, and over the box of a point that of all places in a neighbourhood of the point. Where it is
/// `Mixed`, the leaf is a primitive that is open itself over one of its uses. Of a sharp primitive
/// that no matrix moves, the class over the box of a point is that of the point.
///
/// Each primitive is evaluated and counted on the ledger once for each time that it stands in the
/// entity's solid: as often as the entity weighs where it reaches nothing unread, and never more
/// often, so at most 2^20 times. The graph is that of the rows. AllocError when out of memory,
/// which comes before the first evaluation.
pub fn afresh<L: Ledger>(
    alloc: Global,
    rows: &Rows,
    graph: &Graph,
    e: u32,
    at: &Box3,
    leaves: &mut L,
) -> Result<Verdict, AllocError>
    requires rows { AllByRecursion (λ e. IsLawfulRow e.row) rows.now }
    requires graph { graph.now ≡ rows.now }
    requires at { IsBox at.now }
    ensures verdict { IfOk result (λ v. v ≡ written (solid_of rows.now e) (spans_of at.now)) }
    ensures leaf { IfOk result IsVerdict }
    ensures places { IfOk result (λ v. IsOfPlaces (solid_of rows.now e) at.now v.class) }
    ensures interior { (point : Vec3) → at.now ≡ box_of (point_cube point) → IfOk result (λ v.
        v.class ≡ Class.Inside → IsInterior 1 (solid_of rows.now e) point) }
    ensures exterior { (point : Vec3) → at.now ≡ box_of (point_cube point) → IfOk result (λ v.
        v.class ≡ Class.Outside → IsExterior 1 (solid_of rows.now e) point) }
    ensures cause { IfOk result (HasCause rows.now e (spans_of at.now)) }
    ensures sharp { (p : Primitive) (point : Vec3) → row_at rows.now e ≡ row.Prim p 0 →
        IsSharp p → IsPointWithin far point → at.now ≡ box_of (point_cube point) →
        IfOk result (λ v. v.class ≡ place_class 1 (solid_of rows.now e) point) }
    ensures counted { OnOk result (L.count leaves.new ≡
        counted (L.count leaves.old) (leaf_count (solid_of rows.now e))) }
    ensures unchanged { OnErr result (L.count leaves.new ≡ L.count leaves.old) }
    ensures most { RisesUpTo (L.count leaves.old) (L.count leaves.new)
        (leaf_count (solid_of rows.now e)) }
    ensures ledger { RisesUpTo (L.count leaves.old) (L.count leaves.new) (weight_of rows.now e) }
    ensures light { RisesUpTo (L.count leaves.old) (L.count leaves.new) most_weight }
{
    let mut stack = Verdicts::new(alloc);
    stack.reserve(weight(rows, graph, e))?;
    Ok(afresh_in(rows, graph, e, at, &mut stack, leaves))
}

/// The verdict on an entity over a box, as [`afresh`] gives it, with room that is lent: the stack
/// has room for as many verdicts as the entity weighs, and is afterwards what it was. No memory is
/// taken.
#[tactic(auto, unfolding(crate::specs::Solids::solid_of))]
pub fn afresh_in<L: Ledger>(
    rows: &Rows,
    graph: &Graph,
    e: u32,
    at: &Box3,
    stack: &mut Verdicts,
    leaves: &mut L,
) -> Verdict
    requires rows { AllByRecursion (λ e. IsLawfulRow e.row) rows.now }
    requires graph { graph.now ≡ rows.now }
    requires at { IsBox at.now }
    requires room { weight_of rows.now e ≤ stack.old.spare }
    ensures verdict { result ≡ written (solid_of rows.now e) (spans_of at.now) }
    ensures leaf { IsVerdict result }
    ensures places { IsOfPlaces (solid_of rows.now e) at.now result.class }
    ensures interior { (point : Vec3) → at.now ≡ box_of (point_cube point) →
        result.class ≡ Class.Inside → IsInterior 1 (solid_of rows.now e) point }
    ensures exterior { (point : Vec3) → at.now ≡ box_of (point_cube point) →
        result.class ≡ Class.Outside → IsExterior 1 (solid_of rows.now e) point }
    ensures cause { HasCause rows.now e (spans_of at.now) result }
    ensures sharp { (p : Primitive) (point : Vec3) → row_at rows.now e ≡ row.Prim p 0 →
        IsSharp p → IsPointWithin far point → at.now ≡ box_of (point_cube point) →
        result.class ≡ place_class 1 (solid_of rows.now e) point }
    ensures counted { L.count leaves.new ≡
        counted (L.count leaves.old) (leaf_count (solid_of rows.now e)) }
    ensures most { RisesUpTo (L.count leaves.old) (L.count leaves.new)
        (leaf_count (solid_of rows.now e)) }
    ensures ledger { RisesUpTo (L.count leaves.old) (L.count leaves.new) (weight_of rows.now e) }
    ensures light { RisesUpTo (L.count leaves.old) (L.count leaves.new) most_weight }
    ensures kept { stack.new ≡ stack.old }
{
    graph.obeys();
    entity_verdict::<Evaluated<L>>(rows, MOST_LEVELS, e, at, stack, leaves)
}

/// How much a number weighs: 0 where no entity has it.
pub fn weight(rows: &Rows, graph: &Graph, e: u32) -> usize
    requires rows { AllByRecursion (λ e. IsLawfulRow e.row) rows.now }
    requires graph { graph.now ≡ rows.now }
    ensures { result ≡ weight_of rows.now e }
{
    graph.obeys();
    match rows.row(e) {
        Some(_) => graph.weight(e) as usize,
        None => 0,
    }
}

/// The verdict on an entity from verdicts on its primitives, in the order in which they stand in
/// its solid: where these are the verdicts on the entity's uses over some spans, that on the entity
/// over the spans. What is missing of them is taken to be outside. The stack has room for as many
/// verdicts as the entity weighs, and is afterwards what it was. No memory is taken.
#[tactic(auto, unfolding(crate::specs::Solids::solid_of))]
pub fn combine(
    rows: &Rows,
    graph: &Graph,
    e: u32,
    leaves: &[Verdict],
    stack: &mut Verdicts,
) -> Verdict
    requires rows { AllByRecursion (λ e. IsLawfulRow e.row) rows.now }
    requires graph { graph.now ≡ rows.now }
    requires room { weight_of rows.now e ≤ stack.old.spare }
    ensures verdict { result ≡ verdict_from (solid_of rows.now e) leaves.now }
    ensures of_uses { (s : Span3) →
        leaves.now ≡ map (use_verdict rows.now) (uses (solid_of rows.now e) s) →
        result ≡ written (solid_of rows.now e) s }
    ensures kept { stack.new ≡ stack.old }
{
    graph.obeys();
    let mut given = Given {
        verdicts: leaves,
        next: 0,
    };
    entity_verdict::<Given<'_>>(rows, MOST_LEVELS, e, &Anywhere, stack, &mut given)
}

/// The verdict on the entity of a primitive over a box before its own matrix, which is evaluated
/// and counted on the ledger. No memory is taken.
pub fn primitive_verdict<L: Ledger>(rows: &Rows, e: u32, at: &Box3, leaves: &mut L) -> Verdict
    requires rows { AllByRecursion (λ e. IsLawfulRow e.row) rows.now }
    requires primitive { IsPrimitiveRow (row_at rows.now e) }
    requires at { IsBox at.now }
    ensures verdict { result ≡ written (solid_of rows.now e) (spans_of at.now) }
    ensures leaf { IsVerdict result }
    ensures counted { L.count leaves.new ≡ counted (L.count leaves.old) 1 }
{
    match rows.row(e) {
        Some(Row::Prim { prim, matrix }) => {
            let back = pull_chain(rows, *matrix, at);
            evaluate(e, prim, &back, leaves)
        }
        _ => OUTSIDE,
    }
}
