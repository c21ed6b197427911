// How many steps a run from a fresh start can take at most.
#![tactic(auto)]

ghost use Rattle.std.specs.Prelude.{◌≡◌, length};
ghost use Rattle.script.specs.Limits.{scripts_length};
ghost use Rattle.bound.specs.Bound.{bound_answer, bound_answer_of, ops_stored};

use plan::Plan;
use plan::limits::DOMAIN_ENTRIES;
use plan::timing::windows_total;
use plan::validity::is_valid;
use refusal::Refusal;
use script::limits::SCRIPTS_LENGTH;
use script::stored_ops;

// The ops stored in all scripts together.
fn ops_stored(scripts: &[u32]) -> u64
    requires { length scripts.now ≡ scripts_length }
    ensures { result ≡ ops_stored scripts.now }
{
    (0..DOMAIN_ENTRIES)
        .map(|domain| stored_ops(scripts, domain))
        .sum()
}

// The bound of a plan and a script store: 11, then 12, then the steps of both kinds.
pub fn step_bound(plan: Plan, scripts: &[u32]) -> Result<u64, Refusal>
    ensures { bound_answer result ≡ bound_answer_of plan scripts.now }
{
    if scripts.len() != SCRIPTS_LENGTH {
        return Err(Refusal::WrongLength);
    }
    if !is_valid(plan) {
        return Err(Refusal::ImpossiblePlan);
    }
    let ops = ops_stored(scripts);
    let switches = windows_total(plan);
    Ok(ops + switches)
}
