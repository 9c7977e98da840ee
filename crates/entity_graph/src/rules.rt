ghost use Rattle.std.specs.Prelude.{◌≡◌, ◌↔◌, ℕ, ◌≤◌, length, IsTrue, MatchOption, IfOk, IfErr};
ghost use Rattle.solid_base.specs.declared.solids.Row.TheVariants as row;
ghost use Rattle.solid_base.specs.References.{row_at};
ghost use Rattle.solid_base.specs.Graph.{IsMatrix};
ghost use Rattle.entity_graph.specs.FirstFaults.{HasNo, IsFirst, ArePresent, AreDirected, IsFault};
ghost use Rattle.entity_graph.specs.Rules.{Breaks, HoldsOfNone, IsFirstIn};

use crate::graph_faults::GraphFault;
use crate::links::Links;
use solid_base::{Reference, Row, Rows};

/// A rule on single references: the entity that is named stands there, or it is of the kind that is
/// wanted.
#[derive(Clone, Copy, Debug)]
pub enum Rule {
    Present,
    Directed,
}

/// Whether no entity has the number, or a null one.
fn is_null(rows: &Rows, number: u32) -> bool
    ensures { IsTrue result ↔ (row_at rows.now number ≡ row.Null) }
{
    matches!(rows.row(number), None | Some(Row::Null))
}

/// Whether the entity with the number is a matrix, read or not.
fn is_matrix(rows: &Rows, number: u32) -> bool
    ensures { IsTrue result ↔ IsMatrix (row_at rows.now number) }
{
    match rows.row(number) {
        Some(Row::Matrix { .. }) => true,
        Some(Row::Opaque { kind, .. }) => *kind == 124,
        _ => false,
    }
}

impl Rule {
    fn is_broken(self, rows: &Rows, reference: Reference) -> bool
        ensures { IsTrue result ↔ Breaks rows.now self reference }
    {
        match (self, reference) {
            (Rule::Present, _) => is_null(rows, reference.number()),
            (Rule::Directed, Reference::Matrix(number)) => !is_matrix(rows, number),
            (Rule::Directed, Reference::Solid(number)) => is_matrix(rows, number),
        }
    }

    /// The number that is named by the first of some references that breaks the rule.
    fn first_in(self, rows: &Rows, references: &[Reference]) -> Option<u32>
        ensures { MatchOption result
            (HoldsOfNone (Breaks rows.now self) references.now)
            (λ to. IsFirstIn (Breaks rows.now self) references.now to) }
    {
        for reference in references {
            if self.is_broken(rows, *reference) {
                return Some(reference.number());
            }
        }
        None
    }

    /// The row and the number that it names, of the first reference of all rows that breaks the
    /// rule.
    fn first_of(self, links: &Links<'_>) -> Option<(u32, u32)>
        requires { length links.now ≤ 100000 }
        ensures { MatchOption result
            ((e : ℕ) → HasNo (Breaks links.now self) links.now e)
            (λ p. IsFirst (Breaks links.now self) links.now p.0 p.1) }
    {
        for place in 0..links.len() {
            if let Some(to) = self.first_in(links.rows(), links.row(place)) {
                return Some((place as u32 * 2 + 1, to));
            }
        }
        None
    }
}

/// Whether each reference names an entity of the kind that is wanted. Dangling where the first that
/// names none does, else WrongTarget where the first of the wrong kind does. It takes no memory.
pub fn check_references(links: &Links<'_>) -> Result<(), GraphFault>
    requires { length links.now ≤ 100000 }
    ensures present { IfOk result (λ _. ArePresent links.now) }
    ensures directed { IfOk result (λ _. AreDirected links.now) }
    ensures first_fault { IfErr result (λ fault. IsFault links.now fault) }
{
    if let Some((de, to)) = Rule::Present.first_of(links) {
        return Err(GraphFault::Dangling(de, to));
    }
    if let Some((de, to)) = Rule::Directed.first_of(links) {
        return Err(GraphFault::WrongTarget(de, to));
    }
    Ok(())
}
