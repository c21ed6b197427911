// The calls that run the machine. They hand on each table by itself, as C lends it. A plan's and a
// state's length are asked for, since load_plan and load_state ask for them.
ghost use Rattle.std.specs.Prelude.{◌≡◌, length};
ghost use Rattle.pirkvezo.specs.Numbers.{plan_length, state_length};

use engine::lending::step;
use pirkvezo::answers::{ending_number, put_answer, refuse};
use pirkvezo::keeping::pirkvezo_run_kept;
use pirkvezo::plans::load_plan;
use pirkvezo::running::pirkvezo_run;
use pirkvezo::states::{load_state, store_state};

// A call that runs the machine: a single step; a run with a limit; a run that keeps one domain's
// log, with the domain, how many records a part holds, and the limit.
#[derive(Clone, Copy)]
pub(crate) enum Call {
    Step,
    Run(u64),
    Kept(u32, u64, u64),
}

// A single step, by the engine's own entry point: what it answers and leaves, in numbers.
fn advance_once(
    plan: &[u32],
    scripts: &[u32],
    state: &mut [u64],
    cache: &mut [u16],
    boxes: &mut [u32],
    log: &mut [u8],
    answer: &mut [u64],
)
    requires { (length plan.now ≡ plan_length) × (length state.old ≡ state_length) }
{
    let lent = load_plan(plan);
    let mut held = load_state(state);
    let ran = step(lent, scripts, &mut held, cache, boxes, log);
    store_state(state, held);
    match ran {
        Ok(done) => {
            put_answer(answer, Ok(()), done.steps, ending_number(done.ending));
        }
        Err(refusal) => {
            refuse(answer, refusal);
        }
    }
}

// A single step, by the engine's own entry point, or a run by the library's. A match, and no
// closure: each of the three would name the seven tables that are lent.
pub(crate) fn advance(
    call: Call,
    plan: &[u32],
    scripts: &[u32],
    state: &mut [u64],
    cache: &mut [u16],
    boxes: &mut [u32],
    log: &mut [u8],
    answer: &mut [u64],
)
    requires { (length plan.now ≡ plan_length) × (length state.old ≡ state_length) }
{
    match call {
        Call::Step => {
            advance_once(plan, scripts, state, cache, boxes, log, answer);
        }
        Call::Run(limit) => {
            pirkvezo_run(plan, scripts, state, cache, boxes, log, limit, answer);
        }
        Call::Kept(domain, part, limit) => {
            pirkvezo_run_kept(
                plan, scripts, state, cache, boxes, log, domain, part, limit, answer,
            );
        }
    }
}
