// The refusals of the entry points: 11, 12, 13, 14, in this order, each only where the call takes
// that thing.
ghost use Rattle.std.specs.Prelude.{◌≡◌, true, ◌*◌, eqb, Ok};
ghost use Rattle.plan.specs.Validity.{plan_valid};
ghost use Rattle.records.specs.Records.{part_records, record_size};
ghost use Rattle.state.specs.StateValidity.{state_valid};
ghost use Rattle.machine.specs.View.{world_with};
ghost use Rattle.engine.specs.Checks.{fresh_verdict, lent_verdict, log_verdict};
ghost use Rattle.engine.specs.LentLog.{domain_fits, lent_log_verdict, log_fits, quota_of};

use crate::LentLog;
use cache::limits::TABLE_LENGTH;
use ops::limits::BOXES_LENGTH;
use plan::Plan;
use plan::validity::is_valid;
use records::limits::RECORD_SIZE;
use records::part_records;
use refusal::Refusal;
use script::limits::SCRIPTS_LENGTH;
use state::State;
use state::state_validity::state_valid;
use state::table_validity::tables_valid;

// State validity (14), beside a log.
fn state_fits(plan: Plan, state: State, log_length: usize) -> bool
    requires { plan_valid plan ≡ true }
    ensures { result ≡ state_valid plan (part_records plan log_length) state }
{
    let quota = part_records(plan.domains, log_length);
    state_valid(plan, quota, state)
}

// A fresh start: 11 and 12.
pub fn check_fresh(plan: Plan, cache: &[u16], boxes: &[u32]) -> Result<(), Refusal>
    ensures { result ≡ fresh_verdict plan cache.now boxes.now }
{
    if (cache.len() == TABLE_LENGTH) & (boxes.len() == BOXES_LENGTH) {
        if is_valid(plan) {
            Ok(())
        } else {
            Err(Refusal::ImpossiblePlan)
        }
    } else {
        Err(Refusal::WrongLength)
    }
}

// What a step and a run are lent beside their log: 11, 12, 13.
fn check_lent(
    plan: Plan,
    scripts: &[u32],
    state: State,
    cache: &[u16],
    boxes: &[u32],
) -> Result<(), Refusal>
    ensures { result ≡ lent_verdict plan scripts.now state cache.now
        boxes.now (Ok tt) }
{
    if !((scripts.len() == SCRIPTS_LENGTH)
        & ((cache.len() == TABLE_LENGTH) & (boxes.len() == BOXES_LENGTH)))
    {
        return Err(Refusal::WrongLength);
    }
    if !is_valid(plan) {
        return Err(Refusal::ImpossiblePlan);
    }
    if !tables_valid(plan, state, cache, boxes) {
        return Err(Refusal::DamagedTable);
    }
    Ok(())
}

// Whether a buffer is as long as some records. The length is divided, since the records' bytes may
// be more than a number holds.
fn is_part(length: usize, records: u64) -> bool
    ensures { result ≡ eqb «length» (record_size * records) }
{
    let bytes = length as u64;
    (bytes / RECORD_SIZE == records) & (bytes % RECORD_SIZE == 0)
}

// Whether a log has a length that it may have. This match and the two that follow stand apart, as
// their definitions do: `lent_log_verdict` asks them at three places.
fn log_fits(lent: LentLog, length: usize) -> bool
    ensures { result ≡ log_fits lent «length» }
{
    match lent {
        LentLog::Whole => true,
        LentLog::Part(_, quota) => is_part(length, quota),
    }
}

// Whether the domain is declared whose part is lent.
fn domain_fits(lent: LentLog, domains: u32) -> bool
    ensures { result ≡ domain_fits lent domains }
{
    match lent {
        LentLog::Whole => true,
        LentLog::Part(domain, _) => domain < domains,
    }
}

// How many records each domain has room for.
pub fn quota_of(lent: LentLog, plan: Plan, log_length: usize) -> u64
    requires { plan_valid plan ≡ true }
    ensures { result ≡ quota_of lent plan log_length }
{
    match lent {
        LentLog::Whole => part_records(plan.domains, log_length),
        LentLog::Part(_, quota) => quota,
    }
}

// A step and a run: 11, 12, 13, 14, and for one domain's log last 4.
pub fn check_run(
    lent: LentLog,
    plan: Plan,
    scripts: &[u32],
    state: State,
    cache: &[u16],
    boxes: &[u32],
    log: &[u8],
) -> Result<(), Refusal>
    ensures { result ≡ lent_log_verdict lent plan scripts.now
        (world_with state cache.now boxes.now log.now) }
{
    if !log_fits(lent, log.len()) {
        return Err(Refusal::WrongLength);
    }
    check_lent(plan, scripts, state, cache, boxes)?;
    if !state_valid(plan, quota_of(lent, plan, log.len()), state) {
        return Err(Refusal::ImpossibleState);
    }
    if domain_fits(lent, plan.domains) {
        Ok(())
    } else {
        Err(Refusal::WrongDomain(0))
    }
}

// A log query: 12, 14, then 4.
pub fn check_log(plan: Plan, state: State, log: &[u8], domain: u32) -> Result<(), Refusal>
    ensures { result ≡ log_verdict plan state log.now domain }
{
    if !is_valid(plan) {
        return Err(Refusal::ImpossiblePlan);
    }
    if !state_fits(plan, state, log.len()) {
        return Err(Refusal::ImpossibleState);
    }
    if domain < plan.domains {
        Ok(())
    } else {
        Err(Refusal::WrongDomain(0))
    }
}
