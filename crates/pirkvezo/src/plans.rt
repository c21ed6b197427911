// A plan as numbers, each list of them at its offset. The functions here ask for slices of
// plan_length numbers, since the definitions plan_fits and all_fit test the lengths together.
ghost use Rattle.std.specs.Prelude.{◌≡◌, true, ◌+◌, length};
ghost use Rattle.plan.specs.Limits.{most_domains};
ghost use Rattle.pirkvezo.specs.Numbers.{handed_plan, masks_fit, masks_offset, numbers_from};
ghost use Rattle.pirkvezo.specs.Numbers.{plan_length, plan_numbers};

use crate::offsets::{
    DOMAINS_OFFSET, LENGTHS_OFFSET, MASKS_OFFSET, MOST_MASK, OWNERS_OFFSET, PAD_OFFSET,
    RIGHTS_OFFSET, RUN_OFFSET, SHARES_OFFSET, WINDOWS_OFFSET,
};
use plan::limits::{DOMAIN_ENTRIES, WINDOW_ENTRIES};
use plan::{Plan, no_plan};

// Whether the lent colour masks have at most 16 bits.
fn masks_fit(numbers: &[u32]) -> bool
    requires { length numbers.now ≡ plan_length }
    ensures { result ≡ masks_fit numbers.now }
{
    (0..DOMAIN_ENTRIES).all(|domain| numbers[MASKS_OFFSET + domain] <= MOST_MASK)
}

// The eight colour masks, where they fit. By index: what masks_fit says of each index is what lets
// its cast be made, and a `map` would ask it of each item of a list that is made only for it.
fn take_masks(numbers: &[u32]) -> [u16; DOMAIN_ENTRIES]
    requires { (length numbers.now ≡ plan_length) × (masks_fit numbers.now ≡ true) }
    ensures { result ≡ numbers_from numbers.now masks_offset most_domains }
{
    let mut taken = [0u16; DOMAIN_ENTRIES];
    for domain in 0..DOMAIN_ENTRIES {
        taken[domain] = numbers[MASKS_OFFSET + domain] as u16;
    }
    taken
}

// The plan that lent numbers stand for. With a mask that does not fit it is no valid plan: then
// another that is not valid stands for it.
pub fn load_plan(numbers: &[u32]) -> Plan
    requires { length numbers.now ≡ plan_length }
    ensures { result ≡ handed_plan numbers.now }
{
    if !masks_fit(numbers) {
        return no_plan();
    }
    let mut shares = [0u32; DOMAIN_ENTRIES];
    let mut rights = [0u32; DOMAIN_ENTRIES];
    let mut owners = [0u32; WINDOW_ENTRIES];
    let mut lengths = [0u32; WINDOW_ENTRIES];
    shares.copy_from_slice(&numbers[SHARES_OFFSET..SHARES_OFFSET + DOMAIN_ENTRIES]);
    rights.copy_from_slice(&numbers[RIGHTS_OFFSET..RIGHTS_OFFSET + DOMAIN_ENTRIES]);
    owners.copy_from_slice(&numbers[OWNERS_OFFSET..OWNERS_OFFSET + WINDOW_ENTRIES]);
    lengths.copy_from_slice(&numbers[LENGTHS_OFFSET..LENGTHS_OFFSET + WINDOW_ENTRIES]);
    let masks = take_masks(numbers);
    Plan {
        pad: numbers[PAD_OFFSET],
        run: numbers[RUN_OFFSET],
        domains: numbers[DOMAINS_OFFSET],
        windows: numbers[WINDOWS_OFFSET],
        shares,
        rights,
        owners,
        lengths,
        masks,
    }
}

// Writes a plan's numbers.
pub fn store_plan(numbers: &mut [u32], plan: Plan)
    requires { length numbers.old ≡ plan_length }
    ensures { numbers.new ≡ plan_numbers plan }
{
    numbers[PAD_OFFSET] = plan.pad;
    numbers[RUN_OFFSET] = plan.run;
    numbers[DOMAINS_OFFSET] = plan.domains;
    numbers[WINDOWS_OFFSET] = plan.windows;
    numbers[SHARES_OFFSET..SHARES_OFFSET + DOMAIN_ENTRIES].copy_from_slice(&plan.shares);
    numbers[RIGHTS_OFFSET..RIGHTS_OFFSET + DOMAIN_ENTRIES].copy_from_slice(&plan.rights);
    numbers[OWNERS_OFFSET..OWNERS_OFFSET + WINDOW_ENTRIES].copy_from_slice(&plan.owners);
    numbers[LENGTHS_OFFSET..LENGTHS_OFFSET + WINDOW_ENTRIES].copy_from_slice(&plan.lengths);
    numbers[MASKS_OFFSET..MASKS_OFFSET + DOMAIN_ENTRIES].copy_from_slice(
        &plan.masks.map(u32::from),
    );
}
