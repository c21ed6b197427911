// A fresh start: the state, the cache table and the boxes zeroed.
ghost use Rattle.std.specs.Prelude.{◌≡◌};
ghost use Rattle.state.specs.declared.State.{State};
ghost use Rattle.engine.specs.Answers.{fresh_with};
ghost use Rattle.engine.specs.FreshStart.{fresh_start_of};

use crate::checks::check_fresh;
use plan::Plan;
use refusal::Refusal;
use state::{State, fresh_state};

// A fresh start, and the state that it leaves, or a refusal that changes nothing, whatever the
// state was.
pub fn fresh_start(plan: Plan, cache: &mut [u16], boxes: &mut [u32]) -> Result<State, Refusal>
    ensures { (state : State)
        → fresh_with result state cache.new boxes.new
        ≡ fresh_start_of plan state cache.old boxes.old }
{
    check_fresh(plan, cache, boxes)?;
    cache.fill(0);
    boxes.fill(0);
    Ok(fresh_state())
}
