// Running with only one domain's log, over numbers and slices.
ghost use Rattle.std.specs.Prelude.{◌≡◌};
ghost use Rattle.pirkvezo.specs.Keeping.{host_run_kept};
ghost use Rattle.pirkvezo.specs.Running.{host_run_with};

use crate::running::run_numbers;
use engine::LentLog;

// At most `limit` steps, of which only the named domain's records are stored, in a buffer of as
// many records as a part holds.
#[unsafe(no_mangle)]
pub extern "C" fn pirkvezo_run_kept(
    plan: &[u32],
    scripts: &[u32],
    state: &mut [u64],
    cache: &mut [u16],
    boxes: &mut [u32],
    kept: &mut [u8],
    domain: u32,
    part: u64,
    limit: u64,
    answer: &mut [u64],
) -> u32
    ensures { host_run_with result state.new cache.new boxes.new kept.new
        answer.new
        ≡ host_run_kept plan.now scripts.now state.old
        cache.old boxes.old kept.old domain part limit
        answer.old }
{
    run_numbers(
        LentLog::Part(domain, part),
        plan,
        scripts,
        state,
        cache,
        boxes,
        kept,
        limit,
        answer,
    )
}
