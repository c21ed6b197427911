// A fresh start, over numbers and slices.
ghost use Rattle.std.specs.Prelude.{◌≡◌};
ghost use Rattle.pirkvezo.specs.Starting.{host_fresh_with, host_fresh_start};

use crate::answers::{all_fit, put_answer, refuse, refuse_length};
use crate::plans::load_plan;
use crate::states::{load_state, store_state};
use engine::starting::fresh_start;

// Zeroes the state, the cache table and the boxes; a refusal leaves them.
#[unsafe(no_mangle)]
pub extern "C" fn pirkvezo_fresh_start(
    plan: &[u32],
    state: &mut [u64],
    cache: &mut [u16],
    boxes: &mut [u32],
    answer: &mut [u64],
) -> u32
    ensures { host_fresh_with result state.new cache.new boxes.new
        answer.new
        ≡ host_fresh_start plan.now state.old cache.old
        boxes.old answer.old }
{
    if !all_fit(plan, state, answer) {
        return refuse_length(answer);
    }
    let lent = load_plan(plan);
    let before = load_state(state);
    match fresh_start(lent, cache, boxes) {
        Ok(fresh) => {
            store_state(state, fresh);
            put_answer(answer, Ok(()), 0, 0)
        }
        Err(refusal) => {
            store_state(state, before);
            refuse(answer, refusal)
        }
    }
}
