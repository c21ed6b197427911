// How many steps a run from a fresh start can take at most, over numbers and slices.
ghost use Rattle.std.specs.Prelude.{◌≡◌};
ghost use Rattle.pirkvezo.specs.Bounding.{host_bound, host_bound_with};

use crate::answers::{plan_fits, put_answer, refuse, refuse_length};
use crate::plans::load_plan;
use bound::step_bound;

// The bound of a plan and a script store, as the answer's third number. Nothing but the answer is
// written.
#[unsafe(no_mangle)]
pub extern "C" fn pirkvezo_step_bound(plan: &[u32], scripts: &[u32], answer: &mut [u64]) -> u32
    ensures { host_bound_with result answer.new
        ≡ host_bound plan.now scripts.now answer.old }
{
    if !plan_fits(plan, answer) {
        return refuse_length(answer);
    }
    let lent = load_plan(plan);
    match step_bound(lent, scripts) {
        Ok(steps) => put_answer(answer, Ok(()), steps, 0),
        Err(refusal) => refuse(answer, refusal),
    }
}
