// A query for one domain's log, and its status query.
ghost use Rattle.std.specs.Prelude.{◌≡◌, ◌+◌};
ghost use Rattle.engine.specs.LogQuery.{log_offset_of, log_query_of, log_status_of};

use crate::checks::check_log;
use plan::Plan;
use records::part_records;
use refusal::Refusal;
use state::State;

// One domain's records so far: the part of the lent log itself, empty where the query is refused.
// No Result: document 01 has a status query beside it, which is the next function.
pub fn log_of(plan: Plan, state: State, log: &[u8], domain: u32) -> &[u8]
    ensures { (result.now ≡ log_query_of plan state log.now domain)
        × (result.ref_ptr.0 ≡ log.entry.ref_ptr.0)
        × (result.ref_ptr.1 ≡ log.entry.ref_ptr.1 + log_offset_of plan state log.now domain) }
{
    match check_log(plan, state, log, domain) {
        Err(_) => &log[..0],
        Ok(()) => {
            let quota = part_records(plan.domains, log.len());
            let at = domain as usize;
            let from = 8 * (quota as usize * at);
            let to = from + 8 * (state.records[at] as usize);
            &log[from..to]
        }
    }
}

// The status query: why a log query is refused, if it is.
pub fn log_refusal(plan: Plan, state: State, log: &[u8], domain: u32) -> Result<(), Refusal>
    ensures { result ≡ log_status_of plan state log.now domain }
{
    check_log(plan, state, log, domain)
}
