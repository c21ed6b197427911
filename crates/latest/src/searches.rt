// Searches from index 0 upwards, for the lowest index that passes a test.
ghost use Rattle.std.specs.Prelude.{◌≡◌, Bool, ℕ, ◌<◌, ◌≤◌};
ghost use Rattle.plan.specs.Colours.{has_bit};
ghost use Rattle.plan.specs.Limits.{domain_colours, most_domains, most_windows};
ghost use Rattle.latest.specs.Lowest.{lowest_below};
ghost use Rattle.latest.specs.Reach.{first_window, lowest_sender};

use plan::Plan;
use plan::limits::MOST_DOMAINS;
use plan::sharing::has_bit;

// The lowest index below a count that passes a test; `count` where none does, and no Option: so the
// definition lowest_below answers, and those that it serves here and in reach.
fn lowest_below<F: Fn(u32) -> bool>(count: u32, test: F) -> u32
    requires { (index : ℕ) → index < count → F.pre test index }
    ensures { (rule : ℕ → Bool)
        → ((index : ℕ) (passes : Bool) → index < count → F.post test index passes
        → passes ≡ rule index)
        → result ≡ lowest_below rule count }
{
    for index in 0..count {
        if test(index) {
            return index;
        }
    }
    count
}

// The lowest of a mask's first `count` bits that is set; `count` where none is.
pub fn lowest_bit(mask: u32, count: u32) -> u32
    requires { count ≤ domain_colours }
    ensures { result ≡ lowest_below (has_bit mask) count }
{
    lowest_below(count, |bit| has_bit(mask, bit))
}

// The lowest domain that may send to a domain; `MOST_DOMAINS` where none may.
pub fn lowest_sender(plan: Plan, domain: u32) -> u32
    requires { domain < most_domains }
    ensures { result ≡ lowest_sender plan domain }
{
    let rights = plan.rights;
    lowest_below(
        MOST_DOMAINS,
        |sender| has_bit(rights[sender as usize], domain),
    )
}

// The first declared window of a domain; the number of windows where it has none.
pub fn first_window(plan: Plan, domain: u32) -> u32
    requires { plan.windows ≤ most_windows }
    ensures { result ≡ first_window plan domain }
{
    let owners = plan.owners;
    lowest_below(plan.windows, |slot| owners[slot as usize] == domain)
}
