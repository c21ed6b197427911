// Running with only one domain's log, in a buffer as long as one part.
ghost use Rattle.std.specs.Prelude.{◌≡◌};
ghost use Rattle.machine.specs.View.{world_with};
ghost use Rattle.engine.specs.Answers.{run_with};
ghost use Rattle.engine.specs.Keeping.{kept_call_of};

use crate::running::run_lent;
use crate::{Answer, LentLog};
use plan::Plan;
use refusal::Refusal;
use state::State;

// Running with a limit, where only the named domain's records are stored. `part` is the number of
// records that a part holds.
pub fn run_kept(
    plan: Plan,
    scripts: &[u32],
    state: &mut State,
    cache: &mut [u16],
    boxes: &mut [u32],
    kept: &mut [u8],
    domain: u32,
    part: u64,
    limit: u64,
) -> Result<Answer, Refusal>
    ensures { run_with result state.new cache.new boxes.new kept.new
        ≡ kept_call_of plan scripts.now domain part
        (world_with state.old cache.old boxes.old kept.old) limit }
{
    run_lent(
        LentLog::Part(domain, part),
        plan,
        scripts,
        state,
        cache,
        boxes,
        kept,
        limit,
    )
}
