// One step, an op or a switch, and n of them.
ghost use Rattle.std.specs.Prelude.{◌≡◌, true, ℕ, Option, ◌+◌, ◌%◌, ◌-◌, ◌<◌, ◌≤◌, max, min, length};
ghost use Rattle.plan.specs.Limits.{dearest_op, least_pad, most_domains, most_pad};
ghost use Rattle.plan.specs.Validity.{plan_valid};
ghost use Rattle.script.specs.Limits.{OpWithinLimits, most_ops, scripts_length};
ghost use Rattle.cache.specs.Lines.{table_length};
ghost use Rattle.records.specs.Records.{place_end, places_of};
ghost use Rattle.ops.specs.Ops.{boxes_length};
ghost use Rattle.ops.specs.View.{view_of};
ghost use Rattle.state.specs.StateValidity.{state_valid};
ghost use Rattle.machine.specs.Steps.{next_step_of, run_keeping};
ghost use Rattle.machine.specs.Switch.{is_last, padded_clock, switched_cache};
ghost use Rattle.machine.specs.Switch.{touched_clock};
ghost use Rattle.machine.specs.View.{InTurn, OpRan, RunsTo, TurnRan, WindowRan, clock_bound};
ghost use Rattle.machine.specs.View.{ops_allowed, ran_with, turn_after, turn_moved, turned};
ghost use Rattle.machine.specs.View.{world_with};

use crate::{Advance, Turn, WindowProgress};
use cache::access;
use cache::flush::{empty_line, flush_kernel, flush_l1};
use ops::limits::KERNEL_ENTRY_LINE;
use ops::operate;
use plan::Plan;
use plan::timing::{window_start, windows_total};
use records::{Keep, place_of, store_record};
use script::limits::MOST_OPS;
use script::{Op, fetch};
use state::State;

// The switch: the clock raised to the window's end if lower, both flushes, the touch of the return
// path, which the run's last switch empties again, and the pad. Answers the clock at the next
// window's start.
fn switch(cache: &mut [u16], clock: u64, end: u64, pad: u64, last: bool) -> u64
    requires { (length cache.old ≡ table_length) × (clock ≤ end + (dearest_op - 1)) × (end ≤ clock_bound) × (pad ≤ most_pad) }
    ensures { (result ≡ padded_clock end pad (touched_clock clock end cache.old))
        × (cache.new ≡ switched_cache last cache.old) }
{
    let begun = clock.max(end);
    let kernel = flush_kernel(cache);
    let l1 = flush_l1(cache);
    let touch = access(cache, KERNEL_ENTRY_LINE, false);
    if last {
        empty_line(cache, KERNEL_ENTRY_LINE);
    }
    (begun + kernel + l1 + touch.ticks).max(end + pad)
}

// How many ops more limit, log and positions allow; clock and stored numbers may end it sooner.
fn ops_allowed(limit: u64, first: Turn) -> u64
    ensures { result ≡ ops_allowed limit first }
{
    let records = first.quota.saturating_sub(first.records);
    let positions = (MOST_OPS as u64).saturating_sub(first.position);
    limit.min(records).min(positions)
}

// The next step after some ops of a window, which end at a clock, where one op more is allowed.
fn next_step(scripts: &[u32], first: Turn, steps: u64, clock: u64) -> Option<Op>
    requires { (first.owner < most_domains) × (length scripts.now ≡ scripts_length)
        × (first.records + steps < first.quota) × (first.position + steps < most_ops) }
    ensures { result ≡ next_step_of scripts.now (turn_after first steps clock) }
{
    if first.end <= clock {
        return None;
    }
    fetch(scripts, first.owner, first.position + steps)
}

// One op of the running domain, with its record stored at its place. Answers the clock after it.
fn op_step(
    rights: &[u32; 8],
    masks: &[u16; 8],
    op: Op,
    place: Option<u64>,
    first: Turn,
    steps: u64,
    clock: u64,
    cache: &mut [u16],
    boxes: &mut [u32],
    log: &mut [u8],
) -> u64
    requires { (first.owner < most_domains) × OpWithinLimits op × (clock ≤ clock_bound)
        × (length cache.old ≡ table_length) × (length boxes.old ≡ boxes_length)
        × (first.records + steps < first.quota) × (place_end place first.quota ≤ length log.old) }
    ensures { OpRan place (view_of rights.now masks.now) op
        (turn_after first steps clock) result
        cache.old boxes.old log.old
        cache.new boxes.new log.new }
{
    let owner = first.owner;
    let done = operate(rights, masks, owner, op, cache, boxes);
    let after = clock + done.ticks;
    let seen = done.seen;
    store_record(log, place, first.records + steps, seen, after);
    after
}

// The ops of a window, at most `limit` of them, until a switch is due. State and turn are left as
// they are meanwhile: the number of ops done gives the domain's position and its number of records.
fn run_window(
    rights: &[u32; 8],
    masks: &[u16; 8],
    scripts: &[u32],
    limit: u64,
    place: Option<u64>,
    first: Turn,
    cache: &mut [u16],
    boxes: &mut [u32],
    log: &mut [u8],
) -> WindowProgress
    requires { (first.owner < most_domains) × (first.clock ≤ first.end + (dearest_op - 1)) × (first.end ≤ clock_bound)
        × (length scripts.now ≡ scripts_length) × (length cache.old ≡ table_length) × (length boxes.old ≡ boxes_length)
        × (place_end place first.quota ≤ length log.old) }
    ensures { (result.steps ≤ limit) × (result.turn ≡ turn_moved first result.turn)
        × (result.turn.clock ≤ first.end + (dearest_op - 1))
        × ((places : ℕ → Option ℕ) (plan : Plan) (state : State)
        → places first.owner ≡ place
        → InTurn plan rights.now masks.now state first
        → WindowRan places plan scripts.now first.quota limit result.steps
        (world_with state cache.old boxes.old log.old)
        (world_with (turned state result.turn) cache.new boxes.new log.new)) }
{
    let most = ops_allowed(limit, first);
    let mut steps: u64 = 0;
    let mut clock = first.clock;
    // No `for`: the number of ops done is what the window answers, and an op that is none ends it.
    while steps < most {
        let Some(op) = next_step(scripts, first, steps, clock) else {
            break;
        };
        clock = op_step(
            rights, masks, op, place, first, steps, clock, cache, boxes, log,
        );
        steps += 1;
    }
    WindowProgress {
        steps,
        turn: Turn {
            clock,
            position: first.position + steps,
            records: first.records + steps,
            ..first
        },
    }
}

// The ops of a window, and its switch where the limit allows one step more.
fn run_turn(
    rights: &[u32; 8],
    masks: &[u16; 8],
    scripts: &[u32],
    pad: u64,
    last: bool,
    limit: u64,
    place: Option<u64>,
    first: Turn,
    cache: &mut [u16],
    boxes: &mut [u32],
    log: &mut [u8],
) -> WindowProgress
    requires { (least_pad ≤ pad) × (pad ≤ most_pad) × (0 < limit) × (first.windows ≤ clock_bound)
        × (first.owner < most_domains) × (first.clock ≤ first.end + (dearest_op - 1)) × (first.end ≤ clock_bound)
        × (length scripts.now ≡ scripts_length) × (length cache.old ≡ table_length) × (length boxes.old ≡ boxes_length)
        × (place_end place first.quota ≤ length log.old) }
    ensures { TurnRan limit pad first result
        × ((places : ℕ → Option ℕ) (plan : Plan) (state : State)
        → places first.owner ≡ place
        → InTurn plan rights.now masks.now state first
        → plan.pad ≡ pad
        → is_last plan first.windows ≡ last
        → RunsTo places plan scripts.now first.quota result.steps
        (world_with state cache.old boxes.old log.old)
        (world_with (turned state result.turn) cache.new boxes.new log.new)) }
{
    let ran = run_window(
        rights, masks, scripts, limit, place, first, cache, boxes, log,
    );
    if limit <= ran.steps {
        return ran;
    }
    let done = ran.turn;
    let clock = switch(cache, done.clock, done.end, pad, last);
    WindowProgress {
        steps: ran.steps + 1,
        turn: Turn {
            windows: done.windows + 1,
            clock,
            ..done
        },
    }
}

// The declared window that follows one: after the last comes the first. A test in place of `%`, so
// that no window takes a division.
fn next_slot(slot: usize, declared: usize) -> usize
    requires { slot < declared }
    ensures { result ≡ (slot + 1) % declared }
{
    let next = slot + 1;
    if next < declared { next } else { 0 }
}

// Steps up to a limit, or to the run's end, window by window. Only the first window's start is
// worked out, and which declared window it is: a switch leaves the clock at the next one's start,
// and declared windows follow in order. Where a domain's records go is looked up once a window.
pub fn run_steps(
    plan: Plan,
    scripts: &[u32],
    keep: Keep,
    quota: u64,
    limit: u64,
    state: State,
    cache: &mut [u16],
    boxes: &mut [u32],
    log: &mut [u8],
) -> Advance
    requires { (plan_valid plan ≡ true) × (state_valid plan quota state ≡ true)
        × (length scripts.now ≡ scripts_length) × (length cache.old ≡ table_length) × (length boxes.old ≡ boxes_length)
        × ((domain : ℕ)
        → domain < plan.domains
        → place_end (places_of keep quota domain) quota ≤ length log.old) }
    ensures { ran_with result.steps (world_with result.state cache.new boxes.new log.new)
        ≡ run_keeping keep plan scripts.now quota limit
        (world_with state cache.old boxes.old log.old) }
{
    let rights = plan.rights;
    let masks = plan.masks;
    let declared = plan.windows as usize;
    let pad = plan.pad as u64;
    let total = windows_total(plan);
    let mut steps: u64 = 0;
    let mut present = state;
    let mut start = window_start(plan, state.windows);
    let mut slot = (state.windows % declared as u64) as usize;
    // No `for`: a turn adds as many steps as its window took.
    while (steps < limit) & (present.windows < total) {
        let owner = plan.owners[slot] as usize;
        let place = place_of(keep, quota, owner as u64);
        let turn = Turn {
            windows: present.windows,
            owner,
            end: start + plan.lengths[slot] as u64,
            quota,
            clock: present.clock,
            position: present.positions[owner],
            records: present.records[owner],
        };
        let ran = run_turn(
            &rights,
            &masks,
            scripts,
            pad,
            total <= present.windows + 1,
            limit - steps,
            place,
            turn,
            cache,
            boxes,
            log,
        );
        present.windows = ran.turn.windows;
        present.clock = ran.turn.clock;
        present.positions[owner] = ran.turn.position;
        present.records[owner] = ran.turn.records;
        start = ran.turn.clock;
        slot = next_slot(slot, declared);
        steps += ran.steps;
    }
    Advance {
        steps,
        state: present,
    }
}
