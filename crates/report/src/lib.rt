// The printed lines: a run's and a refusal's, written into a buffer that the caller lends. What has
// no room there is left out.
#![tactic(auto)]

mod fields;
pub mod limits;
pub mod lines;
pub mod program;

ghost use Rattle.std.specs.Prelude.{◌≡◌, true, ◌+◌, ◌*◌, ◌^◌, ◌/◌, ◌<◌, ◌≤◌, length};
ghost use Rattle.plan.specs.Validity.{plan_valid};
ghost use Rattle.records.specs.Records.{part_records, record_size};
ghost use Rattle.state.specs.StateValidity.{state_valid};
ghost use Rattle.report.specs.Limits.{most_seen_line};
ghost use Rattle.report.specs.Lines.{domain_lines, refusal_line, run_lines, seen_lines};
ghost use Rattle.lists.specs.Writing.{Wrote};

use engine::log_query::log_of;
use limits::RECORD_SIZE;
use lines::{write_end, write_pair, write_seen};
use plan::Plan;
use refusal::Code;
use state::State;

// Writes the lines of a domain's log. A range: the definition record_lines has each record by its
// number, and chunks_exact would give a list for each instead.
fn write_domain(out: &mut [u8], at: usize, domain: u32, log: &[u8]) -> usize
    requires { at + most_seen_line * (length log.now / record_size) < 2 ^ 64 }
    ensures { Wrote out.old at (domain_lines domain log.now)
        out.new result }
{
    let mut next = at;
    for number in 0..log.len() / RECORD_SIZE {
        next = write_seen(out, next, u64::from(domain), log, RECORD_SIZE * number);
    }
    next
}

// Writes the lines of every declared domain's log. What is asked here and by write_run, a valid
// plan and state and the log's length, keeps the end of the lines below 2 ^ 64.
fn write_domains(out: &mut [u8], plan: Plan, state: State, log: &[u8]) -> usize
    requires { (plan_valid plan ≡ true)
        × (state_valid plan (part_records plan (length log.now)) state ≡ true)
        × (length log.now ≤ 2 ^ 32) }
    ensures { Wrote out.old 0 (seen_lines plan state log.now plan.domains)
        out.new result }
{
    let mut next = 0;
    for domain in 0..plan.domains {
        let own = log_of(plan, state, log, domain);
        next = write_domain(out, next, domain, own);
    }
    next
}

// Writes the lines of a run.
fn write_run(plan: Plan, state: State, log: &[u8], out: &mut [u8]) -> usize
    requires { (plan_valid plan ≡ true)
        × (state_valid plan (part_records plan (length log.now)) state ≡ true)
        × (length log.now ≤ 2 ^ 32) }
    ensures { Wrote out.old 0 (run_lines plan state log.now)
        out.new result }
{
    let next = write_domains(out, plan, state, log);
    write_end(out, next, state)
}

// Writes the line of a refusal.
fn write_refusal(code: Code, out: &mut [u8]) -> usize
    ensures { Wrote out.old 0 (refusal_line code) out.new result }
{
    write_pair(
        out,
        0,
        b"(refused ",
        u64::from(code.number),
        code.companion as u64,
    )
}
