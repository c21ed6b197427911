// A single step, and running with a limit, over numbers and slices.
ghost use Rattle.std.specs.Prelude.{◌≡◌};
ghost use Rattle.plan.specs.declared.Plan.{Plan};
ghost use Rattle.state.specs.World.{World};
ghost use Rattle.engine.specs.LentLog.{lent_call_of};
ghost use Rattle.pirkvezo.specs.Running.{host_run, host_run_by, host_run_with, host_step};

use crate::answers::{all_fit, ending_number, put_answer, refuse, refuse_length};
use crate::plans::load_plan;
use crate::states::{load_state, store_state};
use engine::LentLog;
use engine::running::run_lent;

// At most `limit` steps, by the log that is lent. The answer's third number is how many were done,
// its fourth 1 for ended and 0 for stopped.
pub fn run_numbers(
    lent: LentLog,
    plan: &[u32],
    scripts: &[u32],
    state: &mut [u64],
    cache: &mut [u16],
    boxes: &mut [u32],
    log: &mut [u8],
    limit: u64,
    answer: &mut [u64],
) -> u32
    ensures { host_run_with result state.new cache.new boxes.new log.new
        answer.new
        ≡ host_run_by
        (λ (handed : Plan) (world : World). lent_call_of lent handed scripts.now world limit)
        plan.now state.old cache.old boxes.old
        log.old answer.old }
{
    if !all_fit(plan, state, answer) {
        return refuse_length(answer);
    }
    let handed = load_plan(plan);
    let mut held = load_state(state);
    let ran = run_lent(lent, handed, scripts, &mut held, cache, boxes, log, limit);
    store_state(state, held);
    match ran {
        Ok(done) => {
            let ended = ending_number(done.ending);
            put_answer(answer, Ok(()), done.steps, ended)
        }
        Err(refusal) => refuse(answer, refusal),
    }
}

// At most `limit` steps.
#[unsafe(no_mangle)]
pub extern "C" fn pirkvezo_run(
    plan: &[u32],
    scripts: &[u32],
    state: &mut [u64],
    cache: &mut [u16],
    boxes: &mut [u32],
    log: &mut [u8],
    limit: u64,
    answer: &mut [u64],
) -> u32
    ensures { host_run_with result state.new cache.new boxes.new log.new
        answer.new
        ≡ host_run plan.now scripts.now state.old
        cache.old boxes.old log.old limit answer.old }
{
    run_numbers(
        LentLog::Whole,
        plan,
        scripts,
        state,
        cache,
        boxes,
        log,
        limit,
        answer,
    )
}

// A single step: running with limit 1.
#[unsafe(no_mangle)]
pub extern "C" fn pirkvezo_step(
    plan: &[u32],
    scripts: &[u32],
    state: &mut [u64],
    cache: &mut [u16],
    boxes: &mut [u32],
    log: &mut [u8],
    answer: &mut [u64],
) -> u32
    ensures { host_run_with result state.new cache.new boxes.new log.new
        answer.new
        ≡ host_step plan.now scripts.now state.old
        cache.old boxes.old log.old answer.old }
{
    run_numbers(
        LentLog::Whole,
        plan,
        scripts,
        state,
        cache,
        boxes,
        log,
        1,
        answer,
    )
}
