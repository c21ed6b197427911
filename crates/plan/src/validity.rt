// Plan validity (12): whether the reader could give a plan value.
ghost use Rattle.std.specs.Prelude.{◌≡◌, true, ℕ, ◌≤◌, ◌<◌, ltb, get_or};
ghost use Rattle.plan.specs.Bounds.{ColoursBounded};
ghost use Rattle.plan.specs.Validity.{counts_valid, declared_valid, domain_valid, mask_valid};
ghost use Rattle.plan.specs.Validity.{plan_valid, window_valid, within};
ghost use Rattle.plan.specs.Sums.{all_below};
ghost use Rattle.plan.specs.Limits.{most_domains, most_windows};

use crate::Plan;
use crate::limits::{
    DOMAIN_COLOURS, DOMAIN_ENTRIES, LEAST_DOMAINS, LEAST_LENGTH, LEAST_PAD, LEAST_RUN, LEAST_SHARE,
    LEAST_WINDOWS, MOST_DOMAINS, MOST_LENGTH, MOST_PAD, MOST_RUN, MOST_RUN_TICKS, MOST_SHARE,
    MOST_SHARES, MOST_WINDOWS, WINDOW_ENTRIES,
};
use crate::sharing::{colours_of, colours_total, has_bit, masks_of, shares_total};
use crate::timing::ticks_total;

// Whether a number is within limits, both included. Not `contains` of a range, which has a way out
// before its second test: here both are made.
fn is_within(low: u32, high: u32, number: u32) -> bool
    ensures { result ≡ within low high number }
{
    (low <= number) & (number <= high)
}

// Whether the four counts are valid.
fn counts_valid(plan: Plan) -> bool
    ensures { result ≡ counts_valid plan }
{
    let pad = is_within(LEAST_PAD, MOST_PAD, plan.pad);
    let run = is_within(LEAST_RUN, MOST_RUN, plan.run);
    let domains = is_within(LEAST_DOMAINS, MOST_DOMAINS, plan.domains);
    let windows = is_within(LEAST_WINDOWS, MOST_WINDOWS, plan.windows);
    pad & run & domains & windows
}

// Whether a declared domain's share and recipients are valid.
fn declared_valid(plan: Plan, domain: usize) -> bool
    requires { (domain < most_domains) × (plan.domains ≤ most_domains) }
    ensures { result ≡ declared_valid plan domain }
{
    let share = plan.shares[domain];
    let right = plan.rights[domain];
    if !is_within(LEAST_SHARE, MOST_SHARE, share) {
        return false;
    }
    let colours = colours_of(share);
    let own = has_bit(right, domain as u32);
    (1 <= colours) & (right < (1u32 << plan.domains)) & !own
}

// Whether an entry for a domain is valid, but for its mask.
fn domain_valid(plan: Plan, domain: usize) -> bool
    requires { (domain < most_domains) × (plan.domains ≤ most_domains) }
    ensures { result ≡ domain_valid plan domain }
{
    if domain < plan.domains as usize {
        return declared_valid(plan, domain);
    }
    (plan.shares[domain] == 0) & (plan.rights[domain] == 0)
}

// Whether every entry for a domain is valid, but for its mask.
fn domains_valid(plan: Plan) -> bool
    requires { plan.domains ≤ most_domains }
    ensures { result ≡ all_below (domain_valid plan) most_domains }
{
    (0..DOMAIN_ENTRIES).all(|domain| domain_valid(plan, domain))
}

// Whether every entry for a mask is valid.
fn masks_valid(plan: Plan) -> bool
    requires { ColoursBounded plan }
    ensures { result ≡ all_below (mask_valid plan) most_domains }
{
    plan.masks == masks_of(plan)
}

// Whether an entry for a window is valid, by its numbers and by whether a window is declared there.
fn window_valid(owner: u32, length: u32, domains: u32, declared: bool) -> bool
    ensures { (plan : Plan) (slot : ℕ) → get_or plan.owners slot 0 ≡ owner
        → get_or plan.lengths slot 0 ≡ length → plan.domains ≡ domains
        → ltb slot plan.windows ≡ declared → result ≡ window_valid plan slot }
{
    let within = is_within(LEAST_LENGTH, MOST_LENGTH, length);
    let used = (owner < domains) & within;
    let unused = (owner == 0) & (length == 0);
    if declared { used } else { unused }
}

// Whether every entry for a window is valid. All are looked at, with no way out before, which the
// compiler turns into few instructions. By the number of a slot: it tells whether the slot is
// declared.
fn windows_valid(plan: Plan) -> bool
    ensures { result ≡ all_below (window_valid plan) most_windows }
{
    let windows = plan.windows as usize;
    let mut valid = true;
    for slot in 0..WINDOW_ENTRIES {
        let owner = plan.owners[slot];
        let length = plan.lengths[slot];
        valid &= window_valid(owner, length, plan.domains, slot < windows);
    }
    valid
}

// Whether the reader could give this plan.
pub fn is_valid(plan: Plan) -> bool
    ensures { result ≡ plan_valid plan }
{
    if !counts_valid(plan) {
        return false;
    }
    if !domains_valid(plan) {
        return false;
    }
    if MOST_SHARES < shares_total(plan) {
        return false;
    }
    if DOMAIN_COLOURS < colours_total(plan) {
        return false;
    }
    if !masks_valid(plan) {
        return false;
    }
    if !windows_valid(plan) {
        return false;
    }
    ticks_total(plan) <= MOST_RUN_TICKS
}
