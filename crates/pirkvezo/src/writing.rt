// A plan and its scripts as their canonical text, over numbers and slices.
ghost use Rattle.std.specs.Prelude.{◌≡◌};
ghost use Rattle.pirkvezo.specs.Writing.{host_write, host_write_with};

use crate::answers::{plan_fits, put_answer, refuse, refuse_length};
use crate::plans::load_plan;
use writer::write_plan;

// Writes the canonical text of a plan and a script store to the start of a buffer, and the number
// of its bytes as the answer's third number. A refusal leaves the buffer.
#[unsafe(no_mangle)]
pub extern "C" fn pirkvezo_write_plan(
    plan: &[u32],
    scripts: &[u32],
    out: &mut [u8],
    answer: &mut [u64],
) -> u32
    ensures { host_write_with result out.new answer.new
        ≡ host_write plan.now scripts.now out.old
        answer.old }
{
    if !plan_fits(plan, answer) {
        return refuse_length(answer);
    }
    let lent = load_plan(plan);
    match write_plan(lent, scripts, out) {
        Ok(bytes) => put_answer(answer, Ok(()), bytes as u64, 0),
        Err(refusal) => refuse(answer, refusal),
    }
}
