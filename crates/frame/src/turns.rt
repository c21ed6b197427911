// Windows laid in turns.
ghost use Rattle.std.specs.Prelude.{◌≡◌, ◌+◌, ◌≤◌, length};
ghost use Rattle.std.proofs.lemmas.List.Edits.{sets};
ghost use Rattle.plan.specs.Limits.{most_domains, most_windows};
ghost use Rattle.frame.specs.Quotas.{entry_of};
ghost use Rattle.frame.specs.Turns.{first_turns, turn_windows, zero_filled};

use plan::limits::{DOMAIN_ENTRIES, WINDOW_ENTRIES};

// Lays a turn's windows from an index on, and answers the index behind the last: the frame has a
// fixed length, so that the index is told beside it. The domains are counted, for their numbers are
// laid.
fn lay_turn(
    frame: &mut [u32; WINDOW_ENTRIES],
    first: usize,
    windows: &[u32; DOMAIN_ENTRIES],
    turn: u32,
) -> usize
    requires { first + length (turn_windows (entry_of windows.now) turn most_domains)
        ≤ most_windows }
    ensures { (result ≡ first + length (turn_windows (entry_of windows.now) turn most_domains))
        × (frame.new ≡ sets frame.old first
        (turn_windows (entry_of windows.now) turn most_domains)) }
{
    let mut next = first;
    for domain in 0..DOMAIN_ENTRIES {
        if turn < windows[domain] {
            frame[next] = domain as u32;
            next += 1;
        }
    }
    next
}

// A frame with the first `turns` turns, and zeros behind them.
pub fn lay_turns(windows: [u32; DOMAIN_ENTRIES], turns: u32) -> [u32; WINDOW_ENTRIES]
    requires { length (first_turns (entry_of windows) turns) ≤ most_windows }
    ensures { result ≡ zero_filled most_windows (first_turns (entry_of windows) turns) }
{
    let mut frame = [0u32; WINDOW_ENTRIES];
    let mut next: usize = 0;
    for turn in 0..turns {
        next = lay_turn(&mut frame, next, &windows, turn);
    }
    frame
}
