// Running with a number of steps as its limit.
ghost use Rattle.std.specs.Prelude.{◌≡◌, ◌≤◌};
ghost use Rattle.plan.specs.Limits.{most_run, most_windows};
ghost use Rattle.state.specs.World.{ended_of};
ghost use Rattle.machine.specs.View.{world_with};
ghost use Rattle.engine.specs.LentLog.{keep_of, lent_call_of};
ghost use Rattle.engine.specs.Running.{ending_of, run_call_of};
ghost use Rattle.engine.specs.Answers.{run_with};

use crate::checks::{check_run, quota_of};
use crate::{Answer, Ending, LentLog};
use machine::stepping::run_steps;
use plan::Plan;
use plan::timing::windows_total;
use records::Keep;
use refusal::Refusal;
use state::State;

// Whether a run is over.
fn ending_of(plan: Plan, state: State) -> Ending
    requires { (plan.run ≤ most_run) × (plan.windows ≤ most_windows) }
    ensures { result ≡ ending_of (ended_of plan state) }
{
    if windows_total(plan) <= state.windows {
        Ending::Ended
    } else {
        Ending::Stopped
    }
}

// Whose records a run keeps.
impl From<LentLog> for Keep {
    ghost from_gives = { λ lent keep. keep ≡ keep_of lent };

    fn from(lent: LentLog) -> Keep {
        match lent {
            LentLog::Whole => Keep::Every,
            LentLog::Part(domain, _) => Keep::One(u64::from(domain)),
        }
    }
}

// Running with a limit, by the log that is lent; the state is rewritten where it lies. All runs go
// through here, so that there is one copy of the machine, and checks and steps stand in one
// function, where the tables' lengths are known.
pub fn run_lent(
    lent: LentLog,
    plan: Plan,
    scripts: &[u32],
    state: &mut State,
    cache: &mut [u16],
    boxes: &mut [u32],
    log: &mut [u8],
    limit: u64,
) -> Result<Answer, Refusal>
    ensures { run_with result state.new cache.new boxes.new log.new
        ≡ lent_call_of lent plan scripts.now
        (world_with state.old cache.old boxes.old log.old) limit }
{
    check_run(lent, plan, scripts, *state, cache, boxes, log)?;
    let keep = Keep::from(lent);
    let quota = quota_of(lent, plan, log.len());
    let advance = run_steps(plan, scripts, keep, quota, limit, *state, cache, boxes, log);
    *state = advance.state;
    Ok(Answer {
        steps: advance.steps,
        ending: ending_of(plan, advance.state),
    })
}

// Running with a limit.
pub fn run(
    plan: Plan,
    scripts: &[u32],
    state: &mut State,
    cache: &mut [u16],
    boxes: &mut [u32],
    log: &mut [u8],
    limit: u64,
) -> Result<Answer, Refusal>
    ensures { run_with result state.new cache.new boxes.new log.new
        ≡ run_call_of plan scripts.now
        (world_with state.old cache.old boxes.old log.old) limit }
{
    run_lent(
        LentLog::Whole,
        plan,
        scripts,
        state,
        cache,
        boxes,
        log,
        limit,
    )
}
