ghost use Rattle.std.specs.Prelude.{◌≡◌, ◌≤◌, length};
ghost use Rattle.volume_bounds.specs.Counts.{inside_count, not_outside_count};

use solid_base::{Class, Verdicts};

/// Counts of the cells of a grid.
#[derive(Clone, Copy, Debug, PartialEq, Eq)]
pub struct Count {
    /// How many cells lie inside.
    pub lower: u64,
    /// How many cells aren't outside.
    pub upper: u64,
    /// How many cells there are.
    pub total: u64,
}

/// Counts the cells of a grid by their verdicts, each of them.
pub fn count_flat(verdicts: &Verdicts) -> Count
    ensures lower { result.lower ≡ inside_count verdicts.now.list }
    ensures upper { result.upper ≡ not_outside_count verdicts.now.list }
    ensures total { result.total ≡ length verdicts.now.list }
{
    let mut lower: u64 = 0;
    let mut upper: u64 = 0;
    for verdict in verdicts.as_slice() {
        match verdict.class {
            Class::Outside => {}
            Class::Mixed => upper += 1,
            Class::Inside => {
                lower += 1;
                upper += 1;
            }
        }
    }
    Count {
        lower,
        upper,
        total: verdicts.len() as u64,
    }
}
