ghost use Rattle.std.specs.Prelude.{◌≡◌, ◌≤◌, map, sum_by, IfOk, OnOk, OnErr};
ghost use Rattle.std.specs.List.{AllByRecursion};
ghost use Rattle.solid_base.specs.Classes.{IsVerdict};
ghost use Rattle.solid_base.specs.Graph.{AreSound, weight_of};
ghost use Rattle.solid_base.specs.Ranges.{IsLawfulRow};
ghost use Rattle.solid_base.specs.References.{target, operands_of, items_of};
ghost use Rattle.solid_base.specs.Trees.{IsPostOrder};
ghost use Rattle.fixed_enclosure.specs.Places.{Span3};
ghost use Rattle.affine_pull.specs.Chains.{chain_of};
ghost use Rattle.solid_eval.specs.Solids.{nothing, solid_of_items, united, solid_within};
ghost use Rattle.solid_eval.specs.Taking.{Takes};

use crate::leaves::{Leaves, OUTSIDE};
use boolean_tree::{apply, operate};
use solid_base::{Item, Items, PlacedList, Row, Rows, Verdict, Verdicts};

/// The verdict on an entity at a place, of which so many levels are counted, where those on its
/// primitives are taken from a state, one after the other. The stack has room for as many verdicts
/// as the entity weighs, and is afterwards what it was.
#[tactic(auto, unfolding(crate::specs::Solids::solid_within))]
#[cycle(entity_verdict)]
pub fn entity_verdict<S: Leaves>(
    rows: &Rows,
    levels: u32,
    e: u32,
    at: &S::Place,
    stack: &mut Verdicts,
    state: &mut S::State,
) -> Verdict
    requires rows { AllByRecursion (λ e. IsLawfulRow e.row) rows.now }
    requires sound { AreSound rows.now }
    requires at { S.can_ask at.now }
    requires room { weight_of rows.now e ≤ stack.old.spare }
    ensures takes { (s : Span3) → S.is_at at.now s → Takes S.take (solid_within levels rows.now e) s
        (S.seen state.old) result (S.seen state.new) }
    ensures kept { stack.new ≡ stack.old }
{
    if levels == 0 {
        return OUTSIDE;
    }
    let below = levels - 1;
    match rows.row(e) {
        None | Some(Row::Null | Row::Opaque { .. } | Row::Matrix { .. }) => OUTSIDE,
        Some(Row::Prim { prim, matrix }) => S::verdict(rows, e, prim, *matrix, at, state),
        Some(Row::Tree { items, matrix }) => {
            let back = S::back(rows, *matrix, at);
            tree_verdict::<S>(rows, below, items, &back, stack, state)
        }
        Some(Row::Assembly { items, matrix }) => {
            let back = S::back(rows, *matrix, at);
            assembly_verdict::<S>(rows, below, items, &back, stack, state)
        }
        Some(Row::Instance { child, matrix }) => {
            let back = S::back(rows, *matrix, at);
            entity_verdict::<S>(rows, below, *child, &back, stack, state)
        }
    }
}

// The verdict on what a Boolean tree's items spell.
#[cycle(entity_verdict)]
fn tree_verdict<S: Leaves>(
    rows: &Rows,
    levels: u32,
    items: &Items,
    at: &S::Place,
    stack: &mut Verdicts,
    state: &mut S::State,
) -> Verdict
    requires rows { AllByRecursion (λ e. IsLawfulRow e.row) rows.now }
    requires sound { AreSound rows.now }
    requires tree { IsPostOrder items.now }
    requires at { S.can_ask at.now }
    requires heavy { AllByRecursion (λ n. 1 ≤ weight_of rows.now n)
        (map target (operands_of items.now)) }
    requires room { sum_by (weight_of rows.now) (map target (operands_of items.now)) ≤
        stack.old.spare }
    ensures takes { (s : Span3) → S.is_at at.now s →
        Takes S.take (solid_of_items (solid_within levels rows.now) items.now) s
        (S.seen state.old) result (S.seen state.new) }
    ensures kept { stack.new ≡ stack.old }
{
    for item in items.as_slice() {
        match item {
            Item::Operand(number) => {
                let verdict = entity_verdict::<S>(rows, levels, *number, at, stack, state);
                stack.push(verdict).unwrap();
            }
            Item::Join | Item::Meet | Item::Less => apply(item, stack),
        }
    }
    stack.pop().unwrap()
}

// The verdict on the union of an assembly's items.
#[cycle(entity_verdict)]
fn assembly_verdict<S: Leaves>(
    rows: &Rows,
    levels: u32,
    items: &PlacedList,
    at: &S::Place,
    stack: &mut Verdicts,
    state: &mut S::State,
) -> Verdict
    requires rows { AllByRecursion (λ e. IsLawfulRow e.row) rows.now }
    requires sound { AreSound rows.now }
    requires at { S.can_ask at.now }
    requires room { sum_by (weight_of rows.now) (map target (items_of items.now)) ≤
        stack.old.spare }
    ensures takes { (s : Span3) → S.is_at at.now s →
        Takes S.take (united (chain_of rows.now) (solid_within levels rows.now) nothing items.now)
        s (S.seen state.old) result (S.seen state.new) }
    ensures kept { stack.new ≡ stack.old }
{
    let mut all = OUTSIDE;
    for placed in items.as_slice() {
        let back = S::back(rows, placed.matrix, at);
        let verdict = entity_verdict::<S>(rows, levels, placed.item, &back, stack, state);
        all = operate(&Item::Join, &all, &verdict);
    }
    all
}
