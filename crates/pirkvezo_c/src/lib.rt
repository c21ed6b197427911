// The library for C and other languages: each function of include/pirkvezo.h, under its name. Each
// calls the function of the crate pirkvezo that has that name, and promises the same.
#![tactic(auto)]

ghost use Rattle.std.specs.Prelude.{◌≡◌};
ghost use Rattle.pirkvezo.specs.Bounding.{host_bound, host_bound_with};
ghost use Rattle.pirkvezo.specs.Finishing.{host_latest, host_latest_with};
ghost use Rattle.pirkvezo.specs.Framing.{host_frame, host_frame_with};
ghost use Rattle.pirkvezo.specs.Keeping.{host_run_kept};
ghost use Rattle.pirkvezo.specs.LogQuery.{host_log, host_log_with};
ghost use Rattle.pirkvezo.specs.Reading.{host_read, host_read_with};
ghost use Rattle.pirkvezo.specs.Running.{host_run, host_run_with, host_step};
ghost use Rattle.pirkvezo.specs.Starting.{host_fresh_start, host_fresh_with};
ghost use Rattle.pirkvezo.specs.Writing.{host_write, host_write_with};

use pirkvezo::{
    bounding, finishing, framing, keeping, log_query, reading, running, starting, writing,
};

// Reads a text into a script store and a plan. A refusal leaves the store, and the plan is zeros.
#[unsafe(no_mangle)]
pub extern "C" fn pirkvezo_read_plan(
    text: &[u8],
    scripts: &mut [u32],
    plan: &mut [u32],
    answer: &mut [u64],
) -> u32
    ensures { host_read_with result scripts.new plan.new answer.new
        ≡ host_read text.now scripts.old plan.old
        answer.old }
{
    reading::pirkvezo_read_plan(text, scripts, plan, answer)
}

// Zeroes the state, the cache table and the boxes; a refusal leaves them.
#[unsafe(no_mangle)]
pub extern "C" fn pirkvezo_fresh_start(
    plan: &[u32],
    state: &mut [u64],
    cache: &mut [u16],
    boxes: &mut [u32],
    answer: &mut [u64],
) -> u32
    ensures { host_fresh_with result state.new cache.new boxes.new
        answer.new
        ≡ host_fresh_start plan.now state.old cache.old
        boxes.old answer.old }
{
    starting::pirkvezo_fresh_start(plan, state, cache, boxes, answer)
}

// A single step: running with limit 1.
#[unsafe(no_mangle)]
pub extern "C" fn pirkvezo_step(
    plan: &[u32],
    scripts: &[u32],
    state: &mut [u64],
    cache: &mut [u16],
    boxes: &mut [u32],
    log: &mut [u8],
    answer: &mut [u64],
) -> u32
    ensures { host_run_with result state.new cache.new boxes.new log.new
        answer.new
        ≡ host_step plan.now scripts.now state.old
        cache.old boxes.old log.old answer.old }
{
    running::pirkvezo_step(plan, scripts, state, cache, boxes, log, answer)
}

// At most `limit` steps.
#[unsafe(no_mangle)]
pub extern "C" fn pirkvezo_run(
    plan: &[u32],
    scripts: &[u32],
    state: &mut [u64],
    cache: &mut [u16],
    boxes: &mut [u32],
    log: &mut [u8],
    limit: u64,
    answer: &mut [u64],
) -> u32
    ensures { host_run_with result state.new cache.new boxes.new log.new
        answer.new
        ≡ host_run plan.now scripts.now state.old
        cache.old boxes.old log.old limit answer.old }
{
    running::pirkvezo_run(plan, scripts, state, cache, boxes, log, limit, answer)
}

// The offset of the log's first byte within the lent log, and how many bytes it has.
#[unsafe(no_mangle)]
pub extern "C" fn pirkvezo_log(
    plan: &[u32],
    state: &[u64],
    log: &[u8],
    domain: u32,
    answer: &mut [u64],
) -> u32
    ensures { host_log_with result answer.new
        ≡ host_log plan.now state.now log.now domain
        answer.old }
{
    log_query::pirkvezo_log(plan, state, log, domain, answer)
}

// The domain of each of `count` windows, by the weights of eight domains. 15 leaves zeros, 11 the
// frame as it was.
#[unsafe(no_mangle)]
pub extern "C" fn pirkvezo_frame(
    count: u32,
    weights: &[u32],
    frame: &mut [u32],
    answer: &mut [u64],
) -> u32
    ensures { host_frame_with result frame.new answer.new
        ≡ host_frame count weights.now frame.old answer.old }
{
    framing::pirkvezo_frame(count, weights, frame, answer)
}

// The bound of a plan and a script store, as the answer's third number. Nothing but the answer is
// written.
#[unsafe(no_mangle)]
pub extern "C" fn pirkvezo_step_bound(plan: &[u32], scripts: &[u32], answer: &mut [u64]) -> u32
    ensures { host_bound_with result answer.new
        ≡ host_bound plan.now scripts.now answer.old }
{
    bounding::pirkvezo_step_bound(plan, scripts, answer)
}

// Writes the canonical text of a plan and a script store to the start of a buffer, and the number
// of its bytes as the answer's third number. A refusal leaves the buffer.
#[unsafe(no_mangle)]
pub extern "C" fn pirkvezo_write_plan(
    plan: &[u32],
    scripts: &[u32],
    out: &mut [u8],
    answer: &mut [u64],
) -> u32
    ensures { host_write_with result out.new answer.new
        ≡ host_write plan.now scripts.now out.old
        answer.old }
{
    writing::pirkvezo_write_plan(plan, scripts, out, answer)
}

// The latest finish of a domain, as the answer's third number, and a script that reaches it, in a
// buffer for one script. A refusal leaves the buffer.
#[unsafe(no_mangle)]
pub extern "C" fn pirkvezo_latest(
    plan: &[u32],
    domain: u32,
    script: &mut [u32],
    answer: &mut [u64],
) -> u32
    ensures { host_latest_with result script.new answer.new
        ≡ host_latest plan.now domain script.old answer.old }
{
    finishing::pirkvezo_latest(plan, domain, script, answer)
}

// At most `limit` steps, of which only the named domain's records are stored, in a buffer of as
// many records as a part holds.
#[unsafe(no_mangle)]
pub extern "C" fn pirkvezo_run_kept(
    plan: &[u32],
    scripts: &[u32],
    state: &mut [u64],
    cache: &mut [u16],
    boxes: &mut [u32],
    kept: &mut [u8],
    domain: u32,
    part: u64,
    limit: u64,
    answer: &mut [u64],
) -> u32
    ensures { host_run_with result state.new cache.new boxes.new kept.new
        answer.new
        ≡ host_run_kept plan.now scripts.now state.old
        cache.old boxes.old kept.old domain part limit
        answer.old }
{
    keeping::pirkvezo_run_kept(
        plan, scripts, state, cache, boxes, kept, domain, part, limit, answer,
    )
}
