// Shares of the cache, the colours that they give, and masks of bits.
ghost use Rattle.std.specs.Prelude.{◌≡◌, ◌+◌, ◌≤◌, ◌<◌};
ghost use Rattle.plan.specs.Bounds.{ColoursBounded, SharesBounded};
ghost use Rattle.plan.specs.Colours.{colours_of, colours_total, has_bit, holding_of};
ghost use Rattle.plan.specs.Colours.{mask_from, masks_from, shares_total};
ghost use Rattle.plan.specs.Limits.{domain_colours, most_domains, most_share};

use crate::Plan;
use crate::limits::{DOMAIN_COLOURS, DOMAIN_ENTRIES, MOST_SHARES};

// Whether a bit of a mask is set.
pub fn has_bit(mask: u32, bit: u32) -> bool
    requires { bit < 32 }
    ensures { result ≡ has_bit mask bit }
{
    (mask >> bit) % 2 == 1
}

// How many colours a share gives: the nearest number, an exact half going up.
pub fn colours_of(share: u32) -> u32
    requires { share ≤ most_share }
    ensures { result ≡ colours_of share }
{
    (share * DOMAIN_COLOURS + MOST_SHARES / 2) / MOST_SHARES
}

// The mask of `count` adjacent colours from a first one on.
fn mask_from(first: u32, count: u32) -> u16
    requires { first + count ≤ domain_colours }
    ensures { result ≡ mask_from first count }
{
    let ones = (1u32 << count) - 1;
    let mask = ones << first;
    mask as u16
}

// How many colours a domain's mask holds: document 01's holding.
pub fn holding(plan: Plan, domain: usize) -> u32
    ensures { result ≡ holding_of plan domain }
{
    if domain < DOMAIN_ENTRIES {
        return plan.masks[domain].count_ones();
    }
    0
}

// The total of the declared domains' shares.
pub fn shares_total(plan: Plan) -> u32
    requires { SharesBounded plan }
    ensures { result ≡ shares_total plan plan.domains }
{
    // The shares alone: an index into the plan copies all of it, and a step takes 6 ns longer.
    let shares = plan.shares;
    shares[..plan.domains as usize].iter().sum()
}

// The total of the colours that the declared domains' shares give.
pub fn colours_total(plan: Plan) -> u32
    requires { SharesBounded plan }
    ensures { result ≡ colours_total plan }
{
    // The shares alone: an index into the plan copies all of it, and a step takes 6 ns longer.
    let shares = plan.shares;
    let domains = plan.domains as usize;
    (0..domains).map(|domain| colours_of(shares[domain])).sum()
}

// The mask of each declared domain, and 0 for the others. A for: each mask begins where the one
// before it ended.
pub fn masks_of(plan: Plan) -> [u16; DOMAIN_ENTRIES]
    requires { ColoursBounded plan }
    ensures { result ≡ masks_from plan most_domains 0 }
{
    // The shares alone: an index into the plan copies all of it, and a step takes 6 ns longer.
    let shares = plan.shares;
    let domains = plan.domains as usize;
    let mut masks = [0u16; DOMAIN_ENTRIES];
    let mut first: u32 = 0;
    for i in 0..domains {
        let count = colours_of(shares[i]);
        masks[i] = mask_from(first, count);
        first += count;
    }
    masks
}
