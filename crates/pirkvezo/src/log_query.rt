// The log query for one domain, over numbers and slices.
ghost use Rattle.std.specs.Prelude.{◌≡◌};
ghost use Rattle.pirkvezo.specs.LogQuery.{host_log, host_log_with, log_answer, log_answer_of};

use crate::LogPart;
use crate::answers::{all_fit, put_answer, refuse, refuse_length};
use crate::plans::load_plan;
use crate::states::load_state;
use engine::log_query::{log_of, log_refusal};
use plan::Plan;
use records::part_records;
use refusal::Refusal;
use state::State;

// The log query and its status query.
fn query_log(plan: Plan, state: State, log: &[u8], domain: u32) -> Result<LogPart, Refusal>
    ensures { log_answer result ≡ log_answer_of plan state log.now domain }
{
    log_refusal(plan, state, log, domain)?;
    let quota = part_records(plan.domains, log.len());
    let part = log_of(plan, state, log, domain);
    Ok(LogPart {
        offset: 8 * (quota * domain as u64),
        length: part.len() as u64,
    })
}

// The offset of the log's first byte within the lent log, and how many bytes it has.
#[unsafe(no_mangle)]
pub extern "C" fn pirkvezo_log(
    plan: &[u32],
    state: &[u64],
    log: &[u8],
    domain: u32,
    answer: &mut [u64],
) -> u32
    ensures { host_log_with result answer.new
        ≡ host_log plan.now state.now log.now domain
        answer.old }
{
    if !all_fit(plan, state, answer) {
        return refuse_length(answer);
    }
    let lent = load_plan(plan);
    let held = load_state(state);
    match query_log(lent, held, log, domain) {
        Ok(part) => put_answer(answer, Ok(()), part.offset, part.length),
        Err(refusal) => refuse(answer, refusal),
    }
}
