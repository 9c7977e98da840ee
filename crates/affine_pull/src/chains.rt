ghost use Rattle.std.specs.Prelude.{◌≡◌};
ghost use Rattle.std.specs.List.{AllByRecursion};
ghost use Rattle.solid_base.specs.Ranges.{IsLawfulRow};
ghost use Rattle.fixed_enclosure.specs.Spans.{IsBox};
ghost use Rattle.fixed_enclosure.specs.Places.{spans_of};
ghost use Rattle.affine_pull.specs.Chains.{chain_within, chain_of, spans_through};

use super::matrices::pull;
use fixed_enclosure::Box3;
use solid_base::{MOST_LEVELS, Row, Rows};

/// The places of a box, in steps, carried back through the chain of matrices that begins at the row
/// with the number `matrix`, from its last one to its first. 0, or a row that is no matrix, is the
/// chain without matrices, and gives the box itself. Each row's parameters are in their ranges.
#[tactic(auto, unfolding(crate::specs::Chains::chain_of))]
pub fn pull_chain(rows: &Rows, matrix: u32, at: &Box3) -> Box3
    requires rows { AllByRecursion (λ e. IsLawfulRow e.row) rows.now }
    requires at { IsBox at.now }
    ensures value { spans_of result ≡ spans_through (chain_of rows.now matrix) (spans_of at.now) }
    ensures within { IsBox result }
{
    pull_within(rows, MOST_LEVELS, matrix, at)
}

// The same of a chain of which at most so many matrices are counted.
#[tactic(auto, unfolding(crate::specs::Chains::chain_within))]
fn pull_within(rows: &Rows, levels: u32, matrix: u32, at: &Box3) -> Box3
    requires rows { AllByRecursion (λ e. IsLawfulRow e.row) rows.now }
    requires at { IsBox at.now }
    ensures value { spans_of result ≡
        spans_through (chain_within levels rows.now matrix) (spans_of at.now) }
    ensures within { IsBox result }
{
    if levels == 0 {
        return *at;
    }
    let Some(Row::Matrix { affine, next, .. }) = rows.row(matrix) else {
        return *at;
    };
    if *next == 0 {
        return pull(affine, at);
    }
    let before = pull_within(rows, levels - 1, *next, at);
    pull(affine, &before)
}
