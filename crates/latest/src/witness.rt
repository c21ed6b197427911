// A script that finishes a domain's first window as late as can be.
ghost use Rattle.std.specs.Prelude.{◌≡◌, ◌+◌, ◌*◌, ◌-◌, ◌<◌, ◌≤◌, length};
ghost use Rattle.plan.specs.Limits.{most_domains};
ghost use Rattle.script.specs.Limits.{most_ops};
ghost use Rattle.cache.specs.Access.{dirty_ticks, miss_ticks};
ghost use Rattle.latest.specs.Bounds.{Fitting, PartsBounded};
ghost use Rattle.latest.specs.Script.{all_messages, first_message, last_op, late_number};
ghost use Rattle.latest.specs.Script.{late_numbers, late_script_of, message_at, opening_ops};
ghost use Rattle.latest.specs.Script.{opening_ticks, replacing_ticks, waiting_ticks};
ghost use Rattle.latest.specs.Script.{written_ticks};

use crate::LateScript;
use crate::reach::{
    COLOUR_SETS, box_count, has_box, lowest_colour, lowest_recipient, meets_kernel, own_indices,
    starts_run,
};
use crate::searches::{first_window, lowest_sender};
use cache::limits::{DIRTY_TICKS, HIT1_TICKS, MISS_TICKS};
use ops::limits::MESSAGE_TICKS;
use plan::Plan;
use plan::limits::MOST_DOMAINS;
use script::limits::{MOST_OPS, MOST_TICKS};
use script::{Op, stored};

// How many messages there are: to each domain, and from each.
const ALL_MESSAGES: u32 = 2 * MOST_DOMAINS;

// The ticks of a denied message whose entry line misses, and of one whose entry line L1 holds.
const DENIED_TICKS: u32 = (MESSAGE_TICKS + MISS_TICKS) as u32;

const FOUND_TICKS: u32 = (MESSAGE_TICKS + HIT1_TICKS) as u32;

// The ticks of a line that misses, and those of the dirty line that it replaces in L1.
const LINE_TICKS: u32 = MISS_TICKS as u32;

const REPLACED_TICKS: u32 = DIRTY_TICKS as u32;

// The ticks of the longest compute, as wide as an op's.
const LONGEST: u8 = MOST_TICKS as u8;

// The message at an index among all: first those to each domain, then those from each.
fn message_at(index: u32) -> Op
    requires { index < all_messages }
    ensures { result ≡ message_at index }
{
    if index < MOST_DOMAINS {
        return Op::Send(index as u8, 0);
    }
    Op::Receive((index - MOST_DOMAINS) as u8)
}

// How many messages there are before the writes. In the run's first window one, denied, brings the
// entry line in where there is no box; with a box the first message is to be the last op. In any
// other window all of them bring in the line of every box that the domain may use.
fn opening_ops(plan: Plan, domain: u32) -> u32
    requires { domain < most_domains }
    ensures { result ≡ opening_ops plan domain }
{
    if !starts_run(plan, domain) {
        return ALL_MESSAGES;
    }
    u32::from(!has_box(plan, domain))
}

// The ticks of so many boxes' lines, one after the other: each misses and replaces the one before
// it, dirty, in L1.
fn boxes_ticks(boxes: u32) -> u32
    requires { boxes ≤ all_messages }
    ensures { result ≡ (miss_ticks + dirty_ticks) * boxes - dirty_ticks }
{
    if boxes == 0 {
        return 0;
    }
    (LINE_TICKS + REPLACED_TICKS) * boxes - REPLACED_TICKS
}

// The ticks of the messages before the writes.
fn opening_ticks(plan: Plan, domain: u32) -> u32
    requires { domain < most_domains }
    ensures { result ≡ opening_ticks plan domain }
{
    if starts_run(plan, domain) {
        let opening = opening_ops(plan, domain);
        return DENIED_TICKS * opening;
    }
    let lines = boxes_ticks(box_count(plan, domain));
    FOUND_TICKS * ALL_MESSAGES + lines
}

// What the writes take for replacing a box's line, which the messages left dirty in L1. In the
// run's first window they left none.
fn replacing_ticks(plan: Plan, domain: u32) -> u32
    requires { Fitting plan domain }
    ensures { result ≡ replacing_ticks plan domain }
{
    if starts_run(plan, domain) {
        return 0;
    }
    if !has_box(plan, domain) {
        return 0;
    }
    if meets_kernel(plan, domain) {
        REPLACED_TICKS
    } else {
        0
    }
}

// The ticks from the window's start until the writes are done.
fn written_ticks(plan: Plan, domain: u32) -> u32
    requires { Fitting plan domain }
    ensures { result ≡ written_ticks plan domain }
{
    let opening = opening_ticks(plan, domain);
    let own = own_indices(plan, domain);
    let replacing = replacing_ticks(plan, domain);
    opening + (LINE_TICKS * own + replacing)
}

// The ticks from there to the first window's last tick.
fn waiting_ticks(plan: Plan, domain: u32) -> u32
    requires { Fitting plan domain }
    ensures { result ≡ waiting_ticks plan domain }
{
    let lengths = plan.lengths;
    let first = first_window(plan, domain);
    let written = written_ticks(plan, domain);
    lengths[first as usize] - 1 - written
}

// The last op in the run's first window: a message that fills or empties a box; without a box the
// longest compute.
fn first_message(plan: Plan, domain: u32) -> Op
    requires { domain < most_domains }
    ensures { result ≡ first_message plan domain }
{
    let recipient = lowest_recipient(plan, domain);
    if recipient < MOST_DOMAINS {
        return Op::Send(recipient as u8, 0);
    }
    let sender = lowest_sender(plan, domain);
    if sender < MOST_DOMAINS {
        return Op::Receive(sender as u8);
    }
    Op::Compute(LONGEST)
}

// The op that begins in the last tick. In any other window a message finds the entry line, and is
// cheaper than the longest compute.
fn last_op(plan: Plan, domain: u32) -> Op
    requires { domain < most_domains }
    ensures { result ≡ last_op plan domain }
{
    if !starts_run(plan, domain) {
        return Op::Compute(LONGEST);
    }
    first_message(plan, domain)
}

// The script by its parts.
pub fn late_script_of(plan: Plan, domain: u32) -> LateScript
    requires { Fitting plan domain }
    ensures { result ≡ late_script_of plan domain }
{
    let opening = opening_ops(plan, domain);
    let own = own_indices(plan, domain);
    let lowest = lowest_colour(plan, domain);
    let waiting = waiting_ticks(plan, domain);
    let last = stored(last_op(plan, domain));
    LateScript {
        opening,
        writes: own,
        line: COLOUR_SETS * lowest,
        waits: (waiting - 1) / MOST_TICKS,
        rest: (waiting - 1) % MOST_TICKS + 1,
        last,
    }
}

// The stored number at a position of a script, part by part; 0 behind the last.
fn late_number(script: LateScript, position: u32) -> u32
    requires { PartsBounded script }
    ensures { result ≡ late_number script position }
{
    let written = script.opening + script.writes;
    let waited = written + script.waits;
    if position < script.opening {
        return stored(message_at(position));
    }
    if position < written {
        let line = script.line + (position - script.opening);
        return stored(Op::Write(line as u16));
    }
    if position < waited {
        return stored(Op::Compute(LONGEST));
    }
    if position == waited {
        return stored(Op::Compute(script.rest as u8));
    }
    if position == waited + 1 {
        return script.last;
    }
    0
}

// Writes a script's numbers, and zeros behind them, to the whole of a buffer.
pub fn write_script(script: LateScript, buffer: &mut [u32])
    requires { PartsBounded script × (length buffer.old ≡ most_ops) }
    ensures { buffer.new ≡ late_numbers script most_ops 0 }
{
    for position in 0..MOST_OPS {
        buffer[position] = late_number(script, position as u32);
    }
}
