ghost use Rattle.std.specs.Prelude.{◌≡◌, ◌<◌, ◌≤◌, ◌<ℤ◌, ◌≤ℤ◌, ◌*ℤ◌, ◌+ℤ◌, pos, IfSome};
ghost use Rattle.solid_base.specs.Range.{far, IsWithin};
ghost use Rattle.solid_base.specs.Outcomes.{Gives};
ghost use Rattle.solid_questions.specs.Questions.{IsEntityNumber, most_number};
ghost use Rattle.volume_bounds.specs.Cells.{IsOnGrid};
ghost use Rattle.script_lines.specs.Reading.{whole_of, coordinate_of, entity_of, at_least_of};
ghost use Rattle.script_lines.specs.Reading.{grid_of, grid_above_of, step_of, extent_of};
ghost use Rattle.script_lines.specs.Reading.{is_on_grid, is_extent};

use decimal_scale::read_real;
use solid_base::{digit_count, number_up_to};

/// The greatest magnitude of a coordinate, in steps: 100,000 units.
const FAR: i128 = 100_000_000_000_000_000;

/// Steps with five decimals of a unit.
const GRID: u64 = 10_000_000;

/// The whole number that one to nine digits are.
#[tactic(auto, unfolding(crate::specs::Reading::whole_of))]
pub fn whole(text: &[u8]) -> Option<u32>
    ensures value { result ≡ whole_of text.now }
    ensures few { IfSome result (λ n. n ≤ most_number) }
{
    match text.len() {
        1..=9 if digit_count(text) == text.len() => Some(number_up_to(text, 999_999_999) as u32),
        _ => None,
    }
}

/// The number of an entity: a whole number above 0.
#[tactic(auto, unfolding(crate::specs::Reading::entity_of))]
pub fn entity(text: &[u8]) -> Option<u32>
    ensures value { result ≡ entity_of text.now }
    ensures lawful { IfSome result IsEntityNumber }
{
    match whole(text) {
        Some(number) if number > 0 => Some(number),
        _ => None,
    }
}

/// The steps of a whole or a real number of at most 100,000 units.
#[tactic(auto, unfolding(crate::specs::Reading::coordinate_of))]
pub fn coordinate(text: &[u8]) -> Option<i128>
    ensures value { result ≡ coordinate_of text.now }
    ensures near { IfSome result (λ steps. IsWithin far steps) }
{
    match read_real(text) {
        Ok(steps) if -FAR <= steps && steps <= FAR => Some(steps),
        _ => None,
    }
}

/// A coordinate that isn't below `low`.
#[tactic(auto, unfolding(crate::specs::Reading::at_least_of))]
pub fn at_least(low: i128, text: &[u8]) -> Option<i128>
    ensures value { result ≡ at_least_of low text.now }
    ensures near { IfSome result (λ steps. IsWithin far steps) }
    ensures order { IfSome result (λ steps. low ≤ℤ steps) }
{
    match coordinate(text) {
        Some(steps) if low <= steps => Some(steps),
        _ => None,
    }
}

/// Whether steps have at most five decimals of a unit.
fn is_on_grid(steps: i128) -> bool
    requires { IsWithin far steps }
    ensures { result ≡ is_on_grid steps }
{
    steps.unsigned_abs() as u64 % GRID == 0
}

/// A coordinate with at most five decimals.
#[tactic(auto, unfolding(crate::specs::Reading::grid_of))]
pub fn grid(text: &[u8]) -> Option<i128>
    ensures value { result ≡ grid_of text.now }
    ensures near { IfSome result (λ steps. IsWithin far steps) }
    ensures on_grid { IfSome result IsOnGrid }
{
    match coordinate(text) {
        Some(steps) if is_on_grid(steps) => Some(steps),
        _ => None,
    }
}

/// A coordinate with at most five decimals that is above `low`.
#[tactic(auto, unfolding(crate::specs::Reading::grid_above_of))]
pub fn grid_above(low: i128, text: &[u8]) -> Option<i128>
    ensures value { result ≡ grid_above_of low text.now }
    ensures near { IfSome result (λ steps. IsWithin far steps) }
    ensures on_grid { IfSome result IsOnGrid }
    ensures order { IfSome result (λ steps. low <ℤ steps) }
{
    match grid(text) {
        Some(steps) if low < steps => Some(steps),
        _ => None,
    }
}

/// A side of a section's cells: a coordinate above 0.
#[tactic(auto, unfolding(crate::specs::Reading::step_of))]
pub fn step(text: &[u8]) -> Option<i128>
    ensures value { result ≡ step_of text.now }
    ensures near { IfSome result (λ steps. IsWithin far steps) }
    ensures positive { IfSome result (λ steps. pos 0 <ℤ steps) }
{
    match coordinate(text) {
        Some(steps) if steps > 0 => Some(steps),
        _ => None,
    }
}

/// Whether so many steps, of which there is at least one, end within 100,000 units.
fn is_extent(first: i128, step: i128, count: u32) -> bool
    requires first { IsWithin far first }
    requires step { IsWithin far step }
    requires few { count ≤ most_number }
    ensures { result ≡ is_extent first step count }
{
    count > 0 && first + i128::from(count) * step <= FAR
}

/// How many cells a section has along an axis, at least 1: from `first` on, with sides of `step`,
/// they end within 100,000 units.
#[tactic(auto, unfolding(crate::specs::Reading::extent_of))]
pub fn extent(first: i128, step: i128, text: &[u8]) -> Option<u32>
    requires first { IsWithin far first }
    requires step { IsWithin far step }
    ensures value { result ≡ extent_of first step text.now }
    ensures some { IfSome result (λ n. (0 < n) × (n ≤ most_number)) }
    ensures last { IfSome result (λ n. (first +ℤ pos n *ℤ step) ≤ℤ pos far) }
{
    match whole(text) {
        Some(count) if is_extent(first, step, count) => Some(count),
        _ => None,
    }
}
