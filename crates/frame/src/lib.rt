// A frame by weights: the windows of a plan, shared out among the domains in proportion to weights
// and laid in turns.
#![tactic(auto)]

mod limits;
mod quotas;
mod turns;
mod validity;

ghost use Rattle.std.specs.Prelude.{◌≡◌};
ghost use Rattle.frame.specs.Frame.{frame_answer, frame_answer_of};

use plan::limits::{DOMAIN_ENTRIES, WINDOW_ENTRIES};
use quotas::windows_of;
use refusal::Refusal;
use turns::lay_turns;
use validity::is_valid;

// The frame of `count` windows by the weights of eight domains: the domain of each window. Entries
// behind the last window are 0. Count and weights stay two parameters throughout, as a caller in C
// hands them and as the definitions take them.
pub fn make_frame(
    count: u32,
    weights: [u32; DOMAIN_ENTRIES],
) -> Result<[u32; WINDOW_ENTRIES], Refusal>
    ensures { frame_answer result ≡ frame_answer_of count weights }
{
    if !is_valid(count, weights) {
        return Err(Refusal::FrameOutOfLimits);
    }
    let windows = windows_of(count, weights);
    let frame = lay_turns(windows, count);
    Ok(frame)
}
