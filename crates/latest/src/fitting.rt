// Whether a domain has a latest finish to be told.
ghost use Rattle.std.specs.Prelude.{◌≡◌, ℕ, ◌≤◌, get_or};
ghost use Rattle.plan.specs.Limits.{most_windows};
ghost use Rattle.plan.specs.Sums.{all_below};
ghost use Rattle.latest.specs.Answer.{domain_fits, window_fits};

use crate::limits::{LEAST_LATEST_LENGTH, MOST_LATEST_LENGTH};
use crate::searches::first_window;
use plan::Plan;

// Whether a declared window is another domain's or within the limits, by its numbers.
fn window_fits(owner: u32, length: u32, domain: u32) -> bool
    ensures { (plan : Plan) (slot : ℕ) → get_or plan.owners slot 0 ≡ owner
        → get_or plan.lengths slot 0 ≡ length → result ≡ window_fits plan domain slot }
{
    let within = (LEAST_LATEST_LENGTH <= length) & (length <= MOST_LATEST_LENGTH);
    (owner != domain) | within
}

// Whether that holds of every declared window. Owners and lengths are taken out of the plan first:
// an index into the plan would copy all of it in every turn.
fn windows_fit(plan: Plan, domain: u32) -> bool
    requires { plan.windows ≤ most_windows }
    ensures { result ≡ all_below (window_fits plan domain) plan.windows }
{
    let owners = plan.owners;
    let lengths = plan.lengths;
    (0..plan.windows as usize).all(|slot| window_fits(owners[slot], lengths[slot], domain))
}

// Whether a domain is declared, has a window, and has none outside the limits.
pub fn domain_fits(plan: Plan, domain: u32) -> bool
    requires { plan.windows ≤ most_windows }
    ensures { result ≡ domain_fits plan domain }
{
    let first = first_window(plan, domain);
    let within = windows_fit(plan, domain);
    (domain < plan.domains) & (first < plan.windows) & within
}
