// The ticks from a window's end until the switch has touched the kernel's entry line, at the most.
ghost use Rattle.std.specs.Prelude.{◌≡◌, ◌<◌, ◌≤◌, min};
ghost use Rattle.plan.specs.Limits.{dearest_op, most_domains};
ghost use Rattle.cache.specs.Lines.{kernel_entries, l1_length, ways_per_set};
ghost use Rattle.latest.specs.Bounds.{Fitting};
ghost use Rattle.latest.specs.Latest.{box_indices, late_by, latest_first, latest_later};
ghost use Rattle.latest.specs.Latest.{latest_ticks};
ghost use Rattle.latest.specs.Reach.{box_count};

use crate::reach::{box_count, has_box, meets_kernel, own_indices, starts_run};
use cache::limits::{DIRTY_LINE_TICKS, DIRTY_TICKS, FLUSH_TICKS, MISS_TICKS, WAYS_PER_SET};
use plan::Plan;
use plan::limits::DEAREST_OP;
use script::limits::MOST_TICKS;

// The ways of the set that all boxes' lines have.
const BOX_WAYS: u32 = WAYS_PER_SET as u32;

// The ticks of an op past the window's end, of both flushes, and of the touch, which misses.
fn late_by(overrun: u64, valid: u64, dirty: u64) -> u64
    requires { (overrun < dearest_op) × (valid ≤ kernel_entries) × (dirty ≤ l1_length) }
    ensures { result ≡ late_by overrun valid dirty }
{
    overrun + (FLUSH_TICKS + valid) + (FLUSH_TICKS + DIRTY_LINE_TICKS * dirty) + MISS_TICKS
}

// The latest finish of the run's first window: without a box, the longest compute after a denied
// message; with one, the window's first message, whose two lines replace own dirty ones or add to
// them.
fn latest_first(plan: Plan, domain: u32) -> u64
    requires { Fitting plan domain }
    ensures { result ≡ latest_first plan domain }
{
    let own = own_indices(plan, domain) as u64;
    if !has_box(plan, domain) {
        return late_by(MOST_TICKS as u64 - 1, 1, own);
    }
    if meets_kernel(plan, domain) {
        return late_by(DEAREST_OP - 1, 2, own - 1);
    }
    late_by(DEAREST_OP - 2 * DIRTY_TICKS - 1, 2, own + 1)
}

// The dirty lines that boxes add to own ones: all boxes' lines have one L1 index, which own lines
// take back where they have it too.
fn box_indices(plan: Plan, domain: u32) -> u32
    requires { Fitting plan domain }
    ensures { result ≡ box_indices plan domain }
{
    if !has_box(plan, domain) {
        return 0;
    }
    let met = meets_kernel(plan, domain);
    u32::from(!met)
}

// How many boxes' lines their set can hold at once.
fn box_lines(plan: Plan, domain: u32) -> u32
    requires { domain < most_domains }
    ensures { result ≡ min ways_per_set (box_count plan domain) }
{
    box_count(plan, domain).min(BOX_WAYS)
}

// The latest finish of any other window: a message finds the entry line, so the longest compute is
// the dearest op, after messages that brought the boxes' lines in.
fn latest_later(plan: Plan, domain: u32) -> u64
    requires { Fitting plan domain }
    ensures { result ≡ latest_later plan domain }
{
    let own = own_indices(plan, domain) as u64;
    let added = box_indices(plan, domain) as u64;
    let lines = box_lines(plan, domain) as u64;
    late_by(MOST_TICKS as u64 - 1, 1 + lines, own + added)
}

// The latest finish of a domain's windows: where the run begins with one of them, that one can
// finish latest.
pub fn latest_ticks(plan: Plan, domain: u32) -> u64
    requires { Fitting plan domain }
    ensures { result ≡ latest_ticks plan domain }
{
    if starts_run(plan, domain) {
        return latest_first(plan, domain);
    }
    latest_later(plan, domain)
}
