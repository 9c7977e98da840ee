ghost use Rattle.std.specs.Prelude.{◌≡◌, ◌<◌, ◌≤◌, ◌+◌, ◌^◌, IfOk};
ghost use Rattle.solid_base.specs.Outcomes.{Gives};
ghost use Rattle.iges_parameters.specs.Rules.{Moves};
ghost use Rattle.iges_parameters.specs.Lists.{count_at};

use crate::faults::RowFault;
use crate::reading::numbers::numbers_of;
use crate::reading::parameters::Parameters;
use crate::tables::LIST_TABLE;

/// How many items a record says. BadSize where the number isn't above 0.
#[tactic(auto, unfolding(crate::specs::Lists::count_at, crate::specs::Tables::list_rules))]
pub fn count(parameters: &mut Parameters) -> Result<u32, RowFault>
    requires { parameters.now.index < 2 ^ 31 }
    ensures value { Gives (λ n. (n, parameters.new)) result (count_at parameters.old) }
    ensures within { IfOk result (λ n. (0 < n) × (n ≤ 9999999)) }
    ensures moves { IfOk result (λ n. Moves 1 parameters.old parameters.new) }
{
    let [count] = numbers_of(&LIST_TABLE, parameters)?;
    Ok(count.unsigned_abs() as u32)
}
