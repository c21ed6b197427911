// How many windows each domain gets.
ghost use Rattle.std.specs.Prelude.{◌≡◌, true, ℕ, ◌-◌, ◌<◌, ◌≤◌};
ghost use Rattle.plan.specs.Limits.{most_domains};
ghost use Rattle.plan.specs.Sums.{sum_to};
ghost use Rattle.frame.specs.Frame.{inputs_valid, weights_within};
ghost use Rattle.frame.specs.Quotas.{ahead_of, entry_of, is_ahead, remainder_of};
ghost use Rattle.frame.specs.Quotas.{total_weight, whole_part, window_count};

use plan::limits::DOMAIN_ENTRIES;

// Each domain's quota, as its whole part and its remainder: two arrays, for each is read on its
// own, the wholes for their sum.
#[derive(Drop)]
struct Quotas {
    wholes: [u32; DOMAIN_ENTRIES],
    remainders: [u32; DOMAIN_ENTRIES],
}

// The total of all weights.
pub fn total_weight(weights: [u32; DOMAIN_ENTRIES]) -> u32
    requires { weights_within weights ≡ true }
    ensures { result ≡ total_weight weights }
{
    weights.iter().sum()
}

// Every domain's quota of `count` windows. By index, since two arrays are filled from a third.
fn quotas_of(count: u32, weights: [u32; DOMAIN_ENTRIES]) -> Quotas
    requires { inputs_valid count weights ≡ true }
    ensures { (domain : ℕ) → domain < most_domains
        → (entry_of result.wholes domain ≡ whole_part count weights domain)
        × (entry_of result.remainders domain ≡ remainder_of count weights domain) }
{
    let total = total_weight(weights);
    let mut wholes = [0u32; DOMAIN_ENTRIES];
    let mut remainders = [0u32; DOMAIN_ENTRIES];
    for domain in 0..DOMAIN_ENTRIES {
        let parts = count * weights[domain];
        wholes[domain] = parts / total;
        remainders[domain] = parts % total;
    }
    Quotas { wholes, remainders }
}

// The windows that no whole part has.
fn leftover_of(count: u32, wholes: [u32; DOMAIN_ENTRIES]) -> u32
    requires { sum_to (entry_of wholes) most_domains ≤ count }
    ensures { result ≡ count - sum_to (entry_of wholes) most_domains }
{
    let given: u32 = wholes.iter().sum();
    count - given
}

// Whether another domain is ahead of a domain when leftover windows are given out: its remainder is
// larger, or they are equal and its number is lower. Not `<` of two pairs: with it a frame takes up
// to twice as long. The remainders are lent: taken by value all eight would be copied each time.
fn is_ahead(remainders: &[u32; DOMAIN_ENTRIES], other: usize, domain: usize) -> bool
    requires { (other < most_domains) × (domain < most_domains) }
    ensures { result ≡ is_ahead (entry_of remainders.now) other domain }
{
    let own = remainders[domain];
    let its = remainders[other];
    (own < its) | ((its == own) & (other < domain))
}

// How many domains are ahead of a domain.
fn ahead_of(remainders: [u32; DOMAIN_ENTRIES], domain: usize) -> u32
    requires { domain < most_domains }
    ensures { result ≡ ahead_of (entry_of remainders) domain }
{
    (0..DOMAIN_ENTRIES)
        .map(|other| u32::from(is_ahead(&remainders, other, domain)))
        .sum()
}

// The number of windows that each domain gets: its whole part, and one more where fewer domains are
// ahead of it than windows are left over. By index, since the order of domains is one of their
// numbers.
pub fn windows_of(count: u32, weights: [u32; DOMAIN_ENTRIES]) -> [u32; DOMAIN_ENTRIES]
    requires { inputs_valid count weights ≡ true }
    ensures { (domain : ℕ) → domain < most_domains
        → entry_of result domain ≡ window_count count weights domain }
{
    let quotas = quotas_of(count, weights);
    let left = leftover_of(count, quotas.wholes);
    let mut windows = [0u32; DOMAIN_ENTRIES];
    for domain in 0..DOMAIN_ENTRIES {
        let ahead = ahead_of(quotas.remainders, domain);
        windows[domain] = quotas.wholes[domain] + u32::from(ahead < left);
    }
    windows
}
