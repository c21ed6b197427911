// A frame by weights, over numbers and slices.
ghost use Rattle.std.specs.Prelude.{◌≡◌};
ghost use Rattle.pirkvezo.specs.Framing.{host_frame, host_frame_with};

use crate::answers::{put_answer, refuse, refuse_length};
use crate::offsets::ANSWER_LENGTH;
use frame::make_frame;
use plan::limits::{DOMAIN_ENTRIES, WINDOW_ENTRIES};

// The domain of each of `count` windows, by the weights of eight domains. 15 leaves zeros, 11 the
// frame as it was.
#[unsafe(no_mangle)]
pub extern "C" fn pirkvezo_frame(
    count: u32,
    weights: &[u32],
    frame: &mut [u32],
    answer: &mut [u64],
) -> u32
    ensures { host_frame_with result frame.new answer.new
        ≡ host_frame count weights.now frame.old answer.old }
{
    if !((weights.len() == DOMAIN_ENTRIES)
        & ((frame.len() == WINDOW_ENTRIES) & (answer.len() == ANSWER_LENGTH)))
    {
        return refuse_length(answer);
    }
    let mut handed = [0u32; DOMAIN_ENTRIES];
    handed.copy_from_slice(weights);
    match make_frame(count, handed) {
        Ok(windows) => {
            frame[..WINDOW_ENTRIES].copy_from_slice(&windows[..WINDOW_ENTRIES]);
            put_answer(answer, Ok(()), 0, 0)
        }
        Err(refusal) => {
            frame.fill(0);
            refuse(answer, refusal)
        }
    }
}
