// What can make a window of a domain finish late: its own lines in L1, and the boxes that it may
// use.
ghost use Rattle.std.specs.Prelude.{◌≡◌, cond, ◌+◌, ◌<◌};
ghost use Rattle.plan.specs.Limits.{most_domains};
ghost use Rattle.plan.specs.Rights.{may_send};
ghost use Rattle.latest.specs.Bounds.{Fitting};
ghost use Rattle.latest.specs.Reach.{box_count, has_box, lowest_colour, lowest_recipient};
ghost use Rattle.latest.specs.Reach.{meets_kernel, own_indices, starts_run};

use crate::searches::{lowest_bit, lowest_sender};
use cache::limits::{KERNEL_COLOUR, L1_LENGTH, SETS_PER_COLOUR};
use plan::Plan;
use plan::limits::{DOMAIN_COLOURS, MOST_DOMAINS};
use plan::sharing::{has_bit, holding};

// The sets of a colour, each of which has an L1 index of its own, and how many colours in a row
// have all indices of L1.
pub const COLOUR_SETS: u32 = SETS_PER_COLOUR as u32;

const L1_COLOURS: u32 = (L1_LENGTH / SETS_PER_COLOUR) as u32;

// The first of the kernel's L1 indices, counted in colours.
const KERNEL_INDICES: u32 = KERNEL_COLOUR as u32 % L1_COLOURS;

// Whether the run begins with a window of a domain: no switch comes before that one, so the
// kernel's entry line is in neither cache at its start.
pub fn starts_run(plan: Plan, domain: u32) -> bool
    ensures { result ≡ starts_run plan domain }
{
    plan.owners[0] == domain
}

// The lowest of a domain's colours.
pub fn lowest_colour(plan: Plan, domain: u32) -> u32
    requires { domain < most_domains }
    ensures { result ≡ lowest_colour plan domain }
{
    let masks = plan.masks;
    lowest_bit(masks[domain as usize] as u32, DOMAIN_COLOURS)
}

// The lowest domain that a domain may send to; `MOST_DOMAINS` where there is none.
pub fn lowest_recipient(plan: Plan, domain: u32) -> u32
    requires { domain < most_domains }
    ensures { result ≡ lowest_recipient plan domain }
{
    let rights = plan.rights;
    lowest_bit(rights[domain as usize], MOST_DOMAINS)
}

// Whether there is a box that a domain may fill or empty.
pub fn has_box(plan: Plan, domain: u32) -> bool
    requires { domain < most_domains }
    ensures { result ≡ has_box plan domain }
{
    let recipient = lowest_recipient(plan, domain);
    let sender = lowest_sender(plan, domain);
    (recipient < MOST_DOMAINS) | (sender < MOST_DOMAINS)
}

// How many boxes between a domain and another it may use: one that it may fill, and one that it may
// empty.
fn boxes_with(plan: Plan, domain: u32, other: u32) -> u32
    requires { (domain < most_domains) × (other < most_domains) }
    ensures { result
        ≡ cond (may_send plan domain other) 1 0 + cond (may_send plan other domain) 1 0 }
{
    let rights = plan.rights;
    let filled = u32::from(has_bit(rights[domain as usize], other));
    let emptied = u32::from(has_bit(rights[other as usize], domain));
    filled + emptied
}

// How many boxes a domain may fill or empty.
pub fn box_count(plan: Plan, domain: u32) -> u32
    requires { domain < most_domains }
    ensures { result ≡ box_count plan domain }
{
    (0..MOST_DOMAINS)
        .map(|other| boxes_with(plan, domain, other))
        .sum()
}

// How many L1 indices a domain's own lines have.
pub fn own_indices(plan: Plan, domain: u32) -> u32
    ensures { result ≡ own_indices plan domain }
{
    COLOUR_SETS * holding(plan, domain as usize).min(L1_COLOURS)
}

// Whether the L1 indices of the kernel's lines are among them.
pub fn meets_kernel(plan: Plan, domain: u32) -> bool
    requires { Fitting plan domain }
    ensures { result ≡ meets_kernel plan domain }
{
    let lowest = lowest_colour(plan, domain);
    let held = holding(plan, domain as usize);
    KERNEL_INDICES < lowest % L1_COLOURS + held
}
