ghost use Rattle.std.specs.Prelude.{◌≡◌, ◌<◌, ◌≤◌, ℕ, map, sum_by};
ghost use Rattle.std.specs.List.{AllByRecursion};
ghost use Rattle.solid_base.specs.Graph.{depth_of, weight_of};
ghost use Rattle.solid_base.specs.Ranges.{IsLawfulRow};
ghost use Rattle.solid_base.specs.References.{HasNumber, target, operands_of};
ghost use Rattle.fixed_enclosure.specs.Places.{spans_of};
ghost use Rattle.fixed_enclosure.specs.Spans.{IsBox};
ghost use Rattle.entity_graph.specs.Opaque.{ReachesOpaque};
ghost use Rattle.solid_eval.specs.Passing.{Passes, item_weight, NamesEntity};
ghost use Rattle.solid_eval.specs.Solids.{solid_of};
ghost use Rattle.solid_eval.specs.Uses.{IsUseAt};

use affine_pull::pull_chain;
use entity_graph::Graph;
use fixed_enclosure::Box3;
use solid_base::{Item, Items, MOST_LEVELS, Placed, PlacedList, Row, Rows};

/// The use of a primitive at place k, counted from 0, among the uses of an entity over a box: the
/// primitive's number, and the box before the primitive's own matrix. Whole operands and items are
/// passed over by their weights. The entity reaches nothing unread and weighs more than k. No
/// memory is taken.
pub fn leaf_at(rows: &Rows, graph: &Graph, e: u32, at: &Box3, k: u64) -> (u32, Box3)
    requires rows { AllByRecursion (λ e. IsLawfulRow e.row) rows.now }
    requires graph { graph.now ≡ rows.now }
    requires at { IsBox at.now }
    requires read { (n : ℕ) → ¬ ReachesOpaque rows.now e n }
    requires within { k < weight_of rows.now e }
    ensures found { IsUseAt (solid_of rows.now e) (spans_of at.now) k result.0 (spans_of result.1) }
    ensures at { IsBox result.1 }
{
    graph.obeys();
    use_at(rows, graph, MOST_LEVELS, e, at, k)
}

// The same of an entity that has at most so many levels.
fn use_at(rows: &Rows, graph: &Graph, levels: u32, e: u32, at: &Box3, k: u64) -> (u32, Box3)
    requires rows { AllByRecursion (λ e. IsLawfulRow e.row) rows.now }
    requires graph { graph.now ≡ rows.now }
    requires at { IsBox at.now }
    requires deep { depth_of rows.now e ≤ levels }
    requires read { (n : ℕ) → ¬ ReachesOpaque rows.now e n }
    requires within { k < weight_of rows.now e }
    ensures found { IsUseAt (solid_of rows.now e) (spans_of at.now) k result.0 (spans_of result.1) }
    ensures at { IsBox result.1 }
{
    graph.obeys();
    if levels == 0 {
        return (e, *at);
    }
    let below = levels - 1;
    match rows.row(e) {
        Some(Row::Tree { items, matrix }) => {
            let back = pull_chain(rows, *matrix, at);
            let (number, rest) = operand_at(graph, items, k);
            use_at(rows, graph, below, number, &back, rest)
        }
        Some(Row::Assembly { items, matrix }) => {
            let back = pull_chain(rows, *matrix, at);
            let (placed, rest) = item_at(graph, items, k);
            let there = pull_chain(rows, placed.matrix, &back);
            use_at(rows, graph, below, placed.item, &there, rest)
        }
        Some(Row::Instance { child, matrix }) => {
            let back = pull_chain(rows, *matrix, at);
            use_at(rows, graph, below, *child, &back, k)
        }
        Some(Row::Prim { .. }) => (e, *at),
        None | Some(Row::Null | Row::Opaque { .. } | Row::Matrix { .. }) => (e, *at),
    }
}

// The operand in which place k stands, and how many places of its own are before that.
fn operand_at(graph: &Graph, items: &Items, k: u64) -> (u32, u64)
    requires numbers { AllByRecursion (HasNumber graph.now) (map target (operands_of items.now)) }
    requires within { k < sum_by (weight_of graph.now) (map target (operands_of items.now)) }
    ensures { Passes (weight_of graph.now) (map target (operands_of items.now)) k
        result.0 result.1 }
{
    let mut rest = k;
    for item in items.as_slice() {
        if let Item::Operand(number) = item {
            let weight = graph.weight(*number);
            if rest < weight {
                return (*number, rest);
            }
            rest -= weight;
        }
    }
    (0, rest)
}

// The item in which place k stands, and how many places of its own are before that.
fn item_at(graph: &Graph, items: &PlacedList, k: u64) -> (Placed, u64)
    requires numbers { AllByRecursion (NamesEntity graph.now) items.now }
    requires within { k < sum_by (item_weight graph.now) items.now }
    ensures { Passes (item_weight graph.now) items.now k result.0 result.1 }
{
    let mut rest = k;
    for placed in items.as_slice() {
        let weight = graph.weight(placed.item);
        if rest < weight {
            return (*placed, rest);
        }
        rest -= weight;
    }
    (Placed { item: 0, matrix: 0 }, rest)
}
