ghost use Rattle.std.specs.Prelude.{◌≡◌, ◌<◌, ◌≤◌, ◌<ℤ◌, ◌≤ℤ◌, ◌*ℤ◌, ◌+ℤ◌, pos, IfOk};
ghost use Rattle.solid_base.specs.Range.{far, IsWithin};
ghost use Rattle.solid_base.specs.Outcomes.{Gives};
ghost use Rattle.solid_questions.specs.Questions.{IsEntityNumber, most_number};
ghost use Rattle.volume_bounds.specs.Cells.{IsOnGrid};
ghost use Rattle.script_lines.specs.Reading.{taken, entity_by, whole_by, coordinate_of};
ghost use Rattle.script_lines.specs.Reading.{at_least_of, grid_of, grid_above_of, step_of};
ghost use Rattle.script_lines.specs.Reading.{extent_by};

use crate::faults::LineFault;
use crate::numbers;
use crate::words::Words;

// Each takes the next word as a number. BadLine at the word where it is no such number, or at the
// line's end where there is no word.
impl<'a> Words<'a> {
    /// The number of an entity.
    #[tactic(auto, unfolding(crate::specs::Reading::taken, crate::specs::Reading::entity_by))]
    pub fn entity(&mut self) -> Result<u32, LineFault>
        ensures value { Gives (λ n. (pos n, self.new)) result (taken entity_by self.old) }
        ensures lawful { IfOk result IsEntityNumber }
    {
        let word = self.next_word()?;
        numbers::entity(word.text).ok_or(LineFault::BadLine(word.column))
    }

    /// A whole number.
    #[tactic(auto, unfolding(crate::specs::Reading::taken, crate::specs::Reading::whole_by))]
    pub fn whole(&mut self) -> Result<u32, LineFault>
        ensures value { Gives (λ n. (pos n, self.new)) result (taken whole_by self.old) }
        ensures few { IfOk result (λ n. n ≤ most_number) }
    {
        let word = self.next_word()?;
        numbers::whole(word.text).ok_or(LineFault::BadLine(word.column))
    }

    /// A coordinate, in steps.
    #[tactic(auto, unfolding(crate::specs::Reading::taken))]
    pub fn coordinate(&mut self) -> Result<i128, LineFault>
        ensures value { Gives (λ n. (n, self.new)) result (taken coordinate_of self.old) }
        ensures near { IfOk result (λ n. IsWithin far n) }
    {
        let word = self.next_word()?;
        numbers::coordinate(word.text).ok_or(LineFault::BadLine(word.column))
    }

    /// A coordinate that isn't below `low`.
    #[tactic(auto, unfolding(crate::specs::Reading::taken))]
    pub fn at_least(&mut self, low: i128) -> Result<i128, LineFault>
        ensures value { Gives (λ n. (n, self.new)) result (taken (at_least_of low) self.old) }
        ensures near { IfOk result (λ n. IsWithin far n) }
        ensures order { IfOk result (λ n. low ≤ℤ n) }
    {
        let word = self.next_word()?;
        numbers::at_least(low, word.text).ok_or(LineFault::BadLine(word.column))
    }

    /// A coordinate with at most five decimals.
    #[tactic(auto, unfolding(crate::specs::Reading::taken))]
    pub fn grid(&mut self) -> Result<i128, LineFault>
        ensures value { Gives (λ n. (n, self.new)) result (taken grid_of self.old) }
        ensures near { IfOk result (λ n. IsWithin far n) }
        ensures on_grid { IfOk result IsOnGrid }
    {
        let word = self.next_word()?;
        numbers::grid(word.text).ok_or(LineFault::BadLine(word.column))
    }

    /// A coordinate with at most five decimals that is above `low`.
    #[tactic(auto, unfolding(crate::specs::Reading::taken))]
    pub fn grid_above(&mut self, low: i128) -> Result<i128, LineFault>
        ensures value { Gives (λ n. (n, self.new)) result (taken (grid_above_of low) self.old) }
        ensures near { IfOk result (λ n. IsWithin far n) }
        ensures on_grid { IfOk result IsOnGrid }
        ensures order { IfOk result (λ n. low <ℤ n) }
    {
        let word = self.next_word()?;
        numbers::grid_above(low, word.text).ok_or(LineFault::BadLine(word.column))
    }

    /// The side of a section's cells.
    #[tactic(auto, unfolding(crate::specs::Reading::taken))]
    pub fn step(&mut self) -> Result<i128, LineFault>
        ensures value { Gives (λ n. (n, self.new)) result (taken step_of self.old) }
        ensures near { IfOk result (λ n. IsWithin far n) }
        ensures positive { IfOk result (λ n. pos 0 <ℤ n) }
    {
        let word = self.next_word()?;
        numbers::step(word.text).ok_or(LineFault::BadLine(word.column))
    }

    /// How many cells a section has along an axis.
    #[tactic(auto, unfolding(crate::specs::Reading::taken, crate::specs::Reading::extent_by))]
    pub fn extent(&mut self, first: i128, step: i128) -> Result<u32, LineFault>
        requires first { IsWithin far first }
        requires step { IsWithin far step }
        ensures value { Gives (λ n. (pos n, self.new)) result
            (taken (extent_by first step) self.old) }
        ensures some { IfOk result (λ n. (0 < n) × (n ≤ most_number)) }
        ensures last { IfOk result (λ n. (first +ℤ pos n *ℤ step) ≤ℤ pos far) }
    {
        let word = self.next_word()?;
        numbers::extent(first, step, word.text).ok_or(LineFault::BadLine(word.column))
    }
}
