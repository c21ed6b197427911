// The latest that a domain can finish a window, and a script that finishes its first window then.
// Each function takes a plan and a domain, in the order in which its definition does, and says what
// it asks of them: some need a domain of the plan's eight, others one that fits.
#![tactic(auto)]

mod figure;
mod fitting;
pub mod limits;
mod reach;
mod searches;
mod witness;

ghost use Rattle.std.specs.Prelude.{◌≡◌};
ghost use Rattle.latest.specs.Answer.{latest_of, latest_with};

use figure::latest_ticks;
use fitting::domain_fits;
use plan::Plan;
use plan::validity::is_valid;
use refusal::Refusal;
use script::limits::MOST_OPS;
use witness::{late_script_of, write_script};

// A script that finishes as late as can be, by its parts.
#[derive(Clone, Copy)]
pub struct LateScript {
    // how many messages come before the writes
    pub opening: u32,
    // how many writes, and the first one's line
    pub writes: u32,
    pub line: u32,
    // how many of the longest computes, and the ticks of the one after them
    pub waits: u32,
    pub rest: u32,
    // the stored number of the last op, as the definition late_script_of has it, and no Op
    pub last: u32,
}

// The latest finish of a domain, in ticks after the window's end, and a script that reaches it,
// written to a buffer for one script: 11, then 12, then 18. A refusal leaves the buffer.
pub fn latest(plan: Plan, domain: u32, script: &mut [u32]) -> Result<u64, Refusal>
    ensures { latest_with result script.new
        ≡ latest_of plan domain script.old }
{
    if script.len() != MOST_OPS {
        return Err(Refusal::WrongLength);
    }
    if !is_valid(plan) {
        return Err(Refusal::ImpossiblePlan);
    }
    if !domain_fits(plan, domain) {
        return Err(Refusal::LatestOutOfLimits(domain as usize));
    }
    let ticks = latest_ticks(plan, domain);
    let parts = late_script_of(plan, domain);
    write_script(parts, script);
    Ok(ticks)
}
