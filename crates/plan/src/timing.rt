// Windows: whose they are, how long, when they start, and the run's total. Functions take a plan
// and a window, as the definitions window_owner, window_length and window_start do.
ghost use Rattle.std.specs.Prelude.{◌≡◌, true, ℕ, ◌≤◌, ◌<◌, get_or};
ghost use Rattle.plan.specs.Bounds.{TicksBounded};
ghost use Rattle.plan.specs.Validity.{plan_valid};
ghost use Rattle.plan.specs.Sums.{sum_to};
ghost use Rattle.plan.specs.Windows.{padded_length, ticks_total, window_length};
ghost use Rattle.plan.specs.Windows.{window_owner, window_start, windows_total};
ghost use Rattle.plan.specs.Limits.{most_length, most_pad, most_run, most_windows};

use crate::Plan;

// The ticks of the first declared windows with their pads, once through.
fn padded_lengths(plan: Plan, count: usize) -> u64
    requires { (count ≤ most_windows) × (plan.pad ≤ most_pad)
        × ((slot : ℕ) → slot < count → get_or plan.lengths slot 0 ≤ most_length) }
    ensures { result ≡ sum_to (padded_length plan) count }
{
    // The lengths alone: an index into the plan copies all of it, 5 ns for each call in a step.
    let lengths = plan.lengths;
    let pad = u64::from(plan.pad);
    (0..count).map(|slot| u64::from(lengths[slot]) + pad).sum()
}

// The run's total of ticks.
pub fn ticks_total(plan: Plan) -> u64
    requires { TicksBounded plan }
    ensures { result ≡ ticks_total plan }
{
    let frame = padded_lengths(plan, plan.windows as usize);
    plan.run as u64 * frame
}

// The number of windows of the whole run.
pub fn windows_total(plan: Plan) -> u64
    requires { (plan.run ≤ most_run) × (plan.windows ≤ most_windows) }
    ensures { result ≡ windows_total plan }
{
    plan.run as u64 * plan.windows as u64
}

// The domain whose window it is. Not one function with window_length, of an array: it would need
// the array beside the plan, and be as long.
pub fn window_owner(plan: Plan, window: u64) -> u32
    requires { plan_valid plan ≡ true }
    ensures { result ≡ window_owner plan window }
{
    // The owners alone, for the same reason as the lengths in `padded_lengths`.
    let owners = plan.owners;
    let slot = (window % plan.windows as u64) as usize;
    owners[slot]
}

// How long a window is.
pub fn window_length(plan: Plan, window: u64) -> u32
    requires { plan_valid plan ≡ true }
    ensures { result ≡ window_length plan window }
{
    // The lengths alone, for the same reason as in `padded_lengths`.
    let lengths = plan.lengths;
    let slot = (window % plan.windows as u64) as usize;
    lengths[slot]
}

// When a window starts: whole repeats, and the windows of this repeat before it.
pub fn window_start(plan: Plan, window: u64) -> u64
    requires { (plan_valid plan ≡ true) × (window ≤ windows_total plan) }
    ensures { result ≡ window_start plan window }
{
    let windows = plan.windows as u64;
    let slot = (window % windows) as usize;
    let before = padded_lengths(plan, slot);
    let frame = padded_lengths(plan, plan.windows as usize);
    let repeats = window / windows;
    repeats * frame + before
}
