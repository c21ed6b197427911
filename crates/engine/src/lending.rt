// A single step.
ghost use Rattle.std.specs.Prelude.{◌≡◌};
ghost use Rattle.machine.specs.View.{world_with};
ghost use Rattle.engine.specs.Running.{step_call_of};
ghost use Rattle.engine.specs.Answers.{run_with};

use crate::Answer;
use crate::running::run;
use plan::Plan;
use refusal::Refusal;
use state::State;

// A single step: running with limit 1.
#[tactic(auto, unfolding(crate::specs::Running::step_call_of))]
pub fn step(
    plan: Plan,
    scripts: &[u32],
    state: &mut State,
    cache: &mut [u16],
    boxes: &mut [u32],
    log: &mut [u8],
) -> Result<Answer, Refusal>
    ensures { run_with result state.new cache.new boxes.new log.new
        ≡ step_call_of plan scripts.now
        (world_with state.old cache.old boxes.old log.old) }
{
    run(plan, scripts, state, cache, boxes, log, 1)
}
