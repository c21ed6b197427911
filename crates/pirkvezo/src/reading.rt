// Reading a plan text, over numbers and slices.
ghost use Rattle.std.specs.Prelude.{◌≡◌};
ghost use Rattle.pirkvezo.specs.Reading.{host_read, host_read_with};

use crate::answers::{plan_fits, put_answer, refuse, refuse_length};
use crate::plans::store_plan;
use plan::no_plan;
use reader::read_plan;

// Reads a text into a script store and a plan. A refusal leaves the store, and the plan is zeros.
#[unsafe(no_mangle)]
pub extern "C" fn pirkvezo_read_plan(
    text: &[u8],
    scripts: &mut [u32],
    plan: &mut [u32],
    answer: &mut [u64],
) -> u32
    ensures { host_read_with result scripts.new plan.new answer.new
        ≡ host_read text.now scripts.old plan.old
        answer.old }
{
    if !plan_fits(plan, answer) {
        return refuse_length(answer);
    }
    match read_plan(text, scripts) {
        Ok(read) => {
            store_plan(plan, read);
            put_answer(answer, Ok(()), 0, 0)
        }
        Err(refusal) => {
            store_plan(plan, no_plan());
            refuse(answer, refusal)
        }
    }
}
