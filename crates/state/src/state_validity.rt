// State validity (14). Parameters are those of the definitions state_valid and domain_counts_valid,
// in their order.
ghost use Rattle.std.specs.Prelude.{◌≡◌, true, ◌<◌};
ghost use Rattle.plan.specs.Limits.{most_domains};
ghost use Rattle.plan.specs.Validity.{plan_valid};
ghost use Rattle.state.specs.StateValidity.{clock_valid, domain_counts_valid, state_valid};

use crate::State;
use plan::Plan;
use plan::limits::{DEAREST_OP, DOMAIN_ENTRIES};
use plan::timing::{ticks_total, window_length, window_start, windows_total};
use script::limits::MOST_OPS;

// Whether a state's clock is valid beside its window count.
fn clock_valid(plan: Plan, state: State) -> bool
    requires { plan_valid plan ≡ true }
    ensures { result ≡ clock_valid plan state }
{
    let total = windows_total(plan);
    let windows = state.windows;
    let clock = state.clock;
    if windows < total {
        let start = window_start(plan, windows);
        let end = start + u64::from(window_length(plan, windows));
        (start <= clock) & (clock <= end + (DEAREST_OP - 1))
    } else {
        let ticks = ticks_total(plan);
        (windows == total) & (clock == ticks)
    }
}

// Whether a domain's position and record count are valid.
fn domain_counts_valid(plan: Plan, quota: u64, state: State, domain: usize) -> bool
    requires { domain < most_domains }
    ensures { result ≡ domain_counts_valid plan quota state domain }
{
    let positions = state.positions;
    let records = state.records;
    let position = positions[domain];
    let count = records[domain];
    let domains = plan.domains as usize;
    if domain < domains {
        (position <= MOST_OPS as u64) & (count <= quota)
    } else {
        (position == 0) & (count == 0)
    }
}

// Whether a state is valid beside a log whose parts hold `quota` records.
pub fn state_valid(plan: Plan, quota: u64, state: State) -> bool
    requires { plan_valid plan ≡ true }
    ensures { result ≡ state_valid plan quota state }
{
    clock_valid(plan, state)
        && (0..DOMAIN_ENTRIES).all(|domain| domain_counts_valid(plan, quota, state, domain))
}
