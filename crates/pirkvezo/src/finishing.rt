// The latest that a domain can finish a window, over numbers and slices.
ghost use Rattle.std.specs.Prelude.{◌≡◌};
ghost use Rattle.pirkvezo.specs.Finishing.{host_latest, host_latest_with};

use crate::answers::{plan_fits, put_answer, refuse, refuse_length};
use crate::plans::load_plan;
use latest::latest;

// The latest finish of a domain, as the answer's third number, and a script that reaches it, in a
// buffer for one script. A refusal leaves the buffer.
#[unsafe(no_mangle)]
pub extern "C" fn pirkvezo_latest(
    plan: &[u32],
    domain: u32,
    script: &mut [u32],
    answer: &mut [u64],
) -> u32
    ensures { host_latest_with result script.new answer.new
        ≡ host_latest plan.now domain script.old answer.old }
{
    if !plan_fits(plan, answer) {
        return refuse_length(answer);
    }
    let lent = load_plan(plan);
    match latest(lent, domain, script) {
        Ok(ticks) => put_answer(answer, Ok(()), ticks, 0),
        Err(refusal) => refuse(answer, refusal),
    }
}
