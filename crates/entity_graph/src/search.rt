ghost use Rattle.std.specs.Prelude.{◌≡◌, ◌⊎◌, ℕ, ◌<◌, ◌≤◌, length, IfOk, MatchBool, MatchResult};
ghost use Rattle.entity_graph.specs.declared.search.Mark.TheVariants as mark;
ghost use Rattle.entity_graph.specs.Links.{places};
ghost use Rattle.entity_graph.specs.Order.{Names, Rings, Idle, IsWhole, mark_at};

use crate::links::Links;
use std::alloc::{AllocError, Global};

/// How far the search has come with a row.
#[derive(Clone, Copy, Debug)]
pub enum Mark {
    Unseen,
    OnWay,
    Done,
}

/// A row on the way, and how many of its references were taken.
#[derive(Clone, Copy, Debug)]
struct Step {
    node: u32,
    next: usize,
}

/// Goes on from a row that wasn't seen until it and all that it reaches stand in the order. False
/// where it reaches a cycle.
fn visit(
    alloc: Global,
    links: &Links<'_>,
    root: u32,
    marks: &mut [Mark],
    order: &mut Vec<u32>,
) -> Result<bool, AllocError>
    requires idle { Idle (places links.now) marks.old order.old.items }
    requires root { root < length links.now }
    requires unseen { mark_at marks.old root ≡ mark.Unseen }
    requires within { (e c : ℕ) → Names (places links.now) e c → c < length links.now }
    ensures seen { (e : ℕ) → (e ≡ root) ⊎ (¬ (mark_at marks.old e ≡ mark.Unseen)) →
        ¬ (mark_at marks.new e ≡ mark.Unseen) }
    ensures done { IfOk result (λ done. MatchBool done
        (Idle (places links.now) marks.new order.new.items)
        (Rings (places links.now) root)) }
{
    let mut path: Vec<Step> = Vec::new(alloc);
    let mut node = root;
    let mut next: usize = 0;
    marks[root as usize] = Mark::OnWay;
    loop {
        match links.named(node, next) {
            Some(c) => {
                next += 1;
                match marks[c as usize] {
                    Mark::Done => {}
                    Mark::OnWay => return Ok(false),
                    Mark::Unseen => {
                        marks[c as usize] = Mark::OnWay;
                        path.push(Step { node, next })?;
                        node = c;
                        next = 0;
                    }
                }
            }
            None => {
                marks[node as usize] = Mark::Done;
                order.push(node)?;
                match path.pop() {
                    None => return Ok(true),
                    Some(step) => {
                        node = step.node;
                        next = step.next;
                    }
                }
            }
        }
    }
}

/// The places of all rows in an order in which what a row names comes before it, or the first place
/// of a row that reaches a cycle.
pub fn find_order(alloc: Global, links: &Links<'_>) -> Result<Result<Vec<u32>, u32>, AllocError>
    requires size { length links.now ≤ 100000 }
    requires within { (e c : ℕ) → Names (places links.now) e c → c < length links.now }
    ensures order { IfOk result (λ r. MatchResult r
        (λ order. IsWhole (places links.now) order.items)
        (λ root. root < length links.now)) }
    ensures rings { IfOk result (λ r. MatchResult r
        (λ _. (e : ℕ) → ¬ Rings (places links.now) e)
        (λ root. Rings (places links.now) root ×
        ((e : ℕ) → e < root → ¬ Rings (places links.now) e))) }
{
    let mut marks = Vec::from_elem(alloc, Mark::Unseen, links.len())?;
    let mut order = Vec::with_capacity(alloc, links.len())?;
    for root in 0..links.len() {
        if let Mark::Unseen = marks[root] {
            if !visit(alloc, links, root as u32, &mut marks, &mut order)? {
                return Ok(Err(root as u32));
            }
        }
    }
    Ok(Ok(order))
}
