ghost use Rattle.std.specs.Prelude.{◌≡◌, ◌<◌, ◌≤◌, ◌+◌, ◌*◌, ℕ, suc, length, min, Ok, Err, IfOk};
ghost use Rattle.std.specs.Prelude.{IfErr, MatchResult};
ghost use Rattle.solid_base.specs.References.{HasNumber};
ghost use Rattle.solid_base.specs.Graph.{depth_of, weight_of, most_weight};
ghost use Rattle.entity_graph.specs.GraphFaults.{IsOfText};
ghost use Rattle.entity_graph.specs.declared.graph_faults.GraphFault.TheVariants as fault;
ghost use Rattle.entity_graph.specs.FirstFaults.{ArePresent, AreDirected, AreAcyclic, AreShallow};
ghost use Rattle.entity_graph.specs.FirstFaults.{IsFault};
ghost use Rattle.entity_graph.specs.Links.{places};
ghost use Rattle.entity_graph.specs.Order.{IsWhole};
ghost use Rattle.entity_graph.specs.Tables.{entry, AreLight};

use crate::graph_faults::GraphFault;
use crate::links::Links;
use crate::search::find_order;
use crate::tables::{MOST_WEIGHT, Measure, first_above, number_at};
use solid_base::MOST_LEVELS;
use std::alloc::Global;

/// The order that a search found, or Cycle at the first row that leads to one. It takes no memory.
fn order_found(found: Result<Vec<u32>, u32>) -> Result<Vec<u32>, GraphFault>
    requires { IfErr found (λ root. root < 100000) }
    ensures { MatchResult found
        (λ order. result ≡ Ok order)
        (λ root. result ≡ Err (fault.Cycle (2 * root + 1))) }
{
    match found {
        Ok(order) => Ok(order),
        Err(root) => Err(GraphFault::Cycle(number_at(root))),
    }
}

/// The places of rows in an order in which what a row names comes before it. Cycle where there is
/// none, Memory when out of memory.
pub fn find_places(alloc: Global, links: &Links<'_>) -> Result<Vec<u32>, GraphFault>
    requires few { length links.now ≤ 100000 }
    requires present { ArePresent links.now }
    requires directed { AreDirected links.now }
    ensures whole { IfOk result (λ order. IsWhole (places links.now) order.items) }
    ensures acyclic { IfOk result (λ _. AreAcyclic links.now) }
    ensures first_fault { IfErr result (λ fault. IsOfText fault → IsFault links.now fault) }
{
    order_found(find_order(alloc, links)?)
}

/// Whether no row has more levels than it may have. TooDeep where one has. It takes no memory.
fn check_depths(links: &Links<'_>, depths: &[u32]) -> Result<(), GraphFault>
    requires few { length links.now ≤ 100000 }
    requires present { ArePresent links.now }
    requires directed { AreDirected links.now }
    requires acyclic { AreAcyclic links.now }
    requires size { length depths.now ≡ length links.now }
    requires depths { (e : ℕ) → HasNumber links.now e → entry depths.now e ≡ depth_of links.now e }
    ensures shallow { IfOk result (λ _. AreShallow links.now) }
    ensures first_fault { IfErr result (λ fault. IsFault links.now fault) }
{
    match first_above(depths, MOST_LEVELS) {
        None => Ok(()),
        Some(place) => Err(GraphFault::TooDeep(number_at(place))),
    }
}

/// The depth of each row, none of which is more than may be. TooDeep where one is, Memory when out
/// of memory.
pub fn find_depths(alloc: Global, links: &Links<'_>, order: &[u32]) -> Result<Vec<u32>, GraphFault>
    requires few { length links.now ≤ 100000 }
    requires present { ArePresent links.now }
    requires directed { AreDirected links.now }
    requires acyclic { AreAcyclic links.now }
    requires whole { IsWhole (places links.now) order.now }
    ensures size { IfOk result (λ depths. length depths.items ≡ length links.now) }
    ensures depths { IfOk result (λ depths. (e : ℕ) → HasNumber links.now e →
        entry depths.items e ≡ depth_of links.now e) }
    ensures shallow { IfOk result (λ _. AreShallow links.now) }
    ensures first_fault { IfErr result (λ fault. IsOfText fault → IsFault links.now fault) }
{
    let depths = Measure::Depth.table(alloc, links, order)?;
    check_depths(links, &depths)?;
    Ok(depths)
}

/// Whether no row weighs more than it may. TooHeavy where one does. It takes no memory.
fn check_weights(links: &Links<'_>, weights: &[u32]) -> Result<(), GraphFault>
    requires few { length links.now ≤ 100000 }
    requires present { ArePresent links.now }
    requires directed { AreDirected links.now }
    requires acyclic { AreAcyclic links.now }
    requires shallow { AreShallow links.now }
    requires size { length weights.now ≡ length links.now }
    requires weights { (e : ℕ) → HasNumber links.now e →
        entry weights.now e ≡ min (suc most_weight) (weight_of links.now e) }
    ensures light { IfOk result (λ _. AreLight links.now) }
    ensures first_fault { IfErr result (λ fault. IsFault links.now fault) }
{
    match first_above(weights, MOST_WEIGHT) {
        None => Ok(()),
        Some(place) => Err(GraphFault::TooHeavy(number_at(place))),
    }
}

/// The weight of each row, none of which is more than may be. TooHeavy where one is, Memory when
/// out of memory.
pub fn find_weights(alloc: Global, links: &Links<'_>, order: &[u32]) -> Result<Vec<u32>, GraphFault>
    requires few { length links.now ≤ 100000 }
    requires present { ArePresent links.now }
    requires directed { AreDirected links.now }
    requires acyclic { AreAcyclic links.now }
    requires shallow { AreShallow links.now }
    requires whole { IsWhole (places links.now) order.now }
    ensures size { IfOk result (λ weights. length weights.items ≡ length links.now) }
    ensures weights { IfOk result (λ weights. (e : ℕ) → HasNumber links.now e →
        entry weights.items e ≡ weight_of links.now e) }
    ensures light { IfOk result (λ _. AreLight links.now) }
    ensures first_fault { IfErr result (λ fault. IsOfText fault → IsFault links.now fault) }
{
    let weights = Measure::Weight.table(alloc, links, order)?;
    check_weights(links, &weights)?;
    Ok(weights)
}
