// A plan: what the reader hands on to the machine.
#![tactic(auto)]

pub mod limits;
pub mod sharing;
pub mod timing;
pub mod validity;

ghost use Rattle.std.specs.Prelude.{◌≡◌};
ghost use Rattle.plan.specs.Zeros.{no_plan};

use limits::{DOMAIN_ENTRIES, WINDOW_ENTRIES};

// A plan as it was read: its numbers, and the colours that its shares give. There is no heap: the
// arrays have a fixed length, and beside them stands how much of each is used; plan_valid asks for
// zeros behind it. No invariant holds of a plan, since a caller may lend any numbers: a function
// that needs one within limits, or a valid one, asks for it. Nor is there a type for a valid one:
// theorems take a Plan and plan_valid of it. The arrays stand beside one another, since ops is lent
// two of them whole, as rights and as masks.
#[derive(Clone, Copy)]
pub struct Plan {
    // ticks from a window's end to the next window's start
    pub pad: u32,
    // how many times the windows repeat
    pub run: u32,
    // how many domains are declared
    pub domains: u32,
    // how many windows are declared
    pub windows: u32,
    // each domain's share of the cache, in thousandths
    pub shares: [u32; DOMAIN_ENTRIES],
    // each domain's recipients, bit b for domain b
    pub rights: [u32; DOMAIN_ENTRIES],
    // the domain of each window
    pub owners: [u32; WINDOW_ENTRIES],
    // the ticks of each window
    pub lengths: [u32; WINDOW_ENTRIES],
    // each domain's colours, bit c for colour c
    pub masks: [u16; DOMAIN_ENTRIES],
}

// The plan of zeros alone, which no text gives: a refused reading hands it out, and a draft starts
// from it.
pub fn no_plan() -> Plan
    ensures { result ≡ no_plan }
{
    Plan {
        pad: 0,
        run: 0,
        domains: 0,
        windows: 0,
        shares: [0; DOMAIN_ENTRIES],
        rights: [0; DOMAIN_ENTRIES],
        owners: [0; WINDOW_ENTRIES],
        lengths: [0; WINDOW_ENTRIES],
        masks: [0; DOMAIN_ENTRIES],
    }
}
