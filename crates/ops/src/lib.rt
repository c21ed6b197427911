// The five ops: what each costs, shows and changes. An op is handed the rights and the masks of a
// plan, and no more of it: as two, since a read or a write needs the masks alone, and a message the
// rights.
#![tactic(auto)]

pub mod limits;

ghost use Rattle.std.specs.Prelude.{◌≡◌, List, false, true, ℕ, ◌+◌, ◌*◌, ◌≤◌, ◌<◌, length};
ghost use Rattle.plan.specs.declared.Plan.{Plan};
ghost use Rattle.plan.specs.Limits.{most_domains};
ghost use Rattle.script.specs.Limits.{OpWithinLimits};
ghost use Rattle.cache.specs.Access.{access_of};
ghost use Rattle.cache.specs.Lines.{most_line, set_count, table_length};
ghost use Rattle.ops.specs.Ops.{access_observation, box_index, boxes_length, box_observation};
ghost use Rattle.ops.specs.Ops.{effect_of, first_box_line};
ghost use Rattle.ops.specs.Ops.{owns_line, receive_of, send_of, touch_of};
ghost use Rattle.ops.specs.View.{effect_with};

use crate::limits::{BARRED_TICKS, FIRST_BOX_LINE, KERNEL_ENTRY_LINE, MESSAGE_TICKS};
use cache::limits::{MOST_LINE, SET_COUNT, SETS_PER_COLOUR};
use cache::{AccessKind, AccessResult, access};
use plan::limits::DOMAIN_ENTRIES;
use plan::sharing::has_bit;
use records::Observation;
use script::Op;

// What an op answers, beside the cache table and the boxes: its ticks, what its domain sees, and
// what its first and its second access wrote back.
#[derive(Drop)]
pub struct OpResult {
    pub ticks: u64,
    pub seen: Observation,
    pub first: Option<u16>,
    pub second: Option<u16>,
}

// Whether a line is a domain's own, and so a line.
fn owns_line(masks: &[u16; DOMAIN_ENTRIES], domain: usize, line: u16) -> bool
    requires { domain < most_domains }
    ensures { (result ≡ true → line ≤ most_line)
        × ((plan : Plan) → plan.masks ≡ masks.now → result ≡ owns_line plan domain line) }
{
    if MOST_LINE < line {
        return false;
    }
    let colour = line as usize % SET_COUNT / SETS_PER_COLOUR;
    has_bit(u32::from(masks[domain]), colour as u32)
}

// What an access shows.
fn access_observation(found: AccessKind, line: u16) -> Observation
    ensures { result ≡ access_observation found line }
{
    match found {
        AccessKind::Hit1 => Observation::Hit1(line),
        AccessKind::Hit2 => Observation::Hit2(line),
        AccessKind::Miss => Observation::Miss(line),
    }
}

// A read or a write of a line.
fn touch(
    masks: &[u16; DOMAIN_ENTRIES],
    domain: usize,
    writes: bool,
    line: u16,
    cache: &mut [u16],
) -> OpResult
    requires { (domain < most_domains) × (length cache.old ≡ table_length) }
    ensures { (plan : Plan) (boxes : List ℕ)
        → plan.masks ≡ masks.now
        → effect_with result cache.new boxes
        ≡ touch_of plan domain writes line cache.old boxes }
{
    if !owns_line(masks, domain, line) {
        return OpResult {
            ticks: BARRED_TICKS,
            seen: Observation::Barred(line),
            first: None,
            second: None,
        };
    }
    let accessed = access(cache, line, writes);
    let found = accessed.found;
    let first = accessed.back;
    OpResult {
        ticks: accessed.ticks,
        seen: access_observation(found, line),
        first: first,
        second: None,
    }
}

// The index of the box between two domains.
fn box_index(sender: usize, recipient: usize) -> usize
    requires { (sender < most_domains) × (recipient < most_domains) }
    ensures { result ≡ box_index sender recipient }
{
    DOMAIN_ENTRIES * sender + recipient
}

// How a send or a receive reaches a box that it has the right to: the box's line, which is worked
// out here alone, is written.
fn reach_box(index: usize, cache: &mut [u16]) -> AccessResult
    requires { (index < boxes_length) × (length cache.old ≡ table_length) }
    ensures { (result.found ≡ (access_of true (first_box_line + set_count * index) cache.old).found)
        × (result.ticks ≡ (access_of true (first_box_line + set_count * index) cache.old).ticks)
        × (result.back ≡ (access_of true (first_box_line + set_count * index) cache.old).back)
        × (cache.new
        ≡ (access_of true (first_box_line + set_count * index) cache.old).table) }
{
    let line = FIRST_BOX_LINE + SET_COUNT * index;
    access(cache, line as u16, true)
}

// A send of a word to a recipient. It begins as every message does, whatever its rights: the
// kernel's entry line is read.
fn send(
    rights: &[u32; DOMAIN_ENTRIES],
    sender: usize,
    recipient: u8,
    word: u16,
    cache: &mut [u16],
    boxes: &mut [u32],
) -> OpResult
    requires { (sender < most_domains)
        × (recipient < most_domains)
        × (length cache.old ≡ table_length)
        × (length boxes.old ≡ boxes_length) }
    ensures { (plan : Plan)
        → plan.rights ≡ rights.now
        → effect_with result cache.new boxes.new
        ≡ send_of plan sender recipient word cache.old boxes.old }
{
    let entered = access(cache, KERNEL_ENTRY_LINE, false);
    let first = entered.back;
    if !has_bit(rights[sender], recipient as u32) {
        return OpResult {
            ticks: MESSAGE_TICKS + entered.ticks,
            seen: Observation::Denied(recipient),
            first: first,
            second: None,
        };
    }
    let index = box_index(sender, recipient as usize);
    let reached = reach_box(index, cache);
    let second = reached.back;
    boxes[index] = word as u32 + 1;
    OpResult {
        ticks: MESSAGE_TICKS + entered.ticks + reached.ticks,
        seen: Observation::Sent(recipient),
        first: first,
        second: second,
    }
}

// What a receive finds in a box.
fn box_observation(sender: u8, number: u32) -> Observation
    ensures { result ≡ box_observation sender number }
{
    if number == 0 {
        Observation::Empty(sender)
    } else {
        Observation::Got(number - 1)
    }
}

// A receive from a sender. It stands apart from `send`: one function for both would be handed what
// is done with the box and what is seen, both where the right is there and where not.
fn receive(
    rights: &[u32; DOMAIN_ENTRIES],
    receiver: usize,
    sender: u8,
    cache: &mut [u16],
    boxes: &mut [u32],
) -> OpResult
    requires { (receiver < most_domains)
        × (sender < most_domains)
        × (length cache.old ≡ table_length)
        × (length boxes.old ≡ boxes_length) }
    ensures { (plan : Plan)
        → plan.rights ≡ rights.now
        → effect_with result cache.new boxes.new
        ≡ receive_of plan receiver sender cache.old boxes.old }
{
    let from = sender as usize;
    let entered = access(cache, KERNEL_ENTRY_LINE, false);
    let first = entered.back;
    if !has_bit(rights[from], receiver as u32) {
        return OpResult {
            ticks: MESSAGE_TICKS + entered.ticks,
            seen: Observation::Denied(sender),
            first: first,
            second: None,
        };
    }
    let index = box_index(from, receiver);
    let reached = reach_box(index, cache);
    let second = reached.back;
    let number = boxes[index];
    boxes[index] = 0;
    OpResult {
        ticks: MESSAGE_TICKS + entered.ticks + reached.ticks,
        seen: box_observation(sender, number),
        first: first,
        second: second,
    }
}

// One op of a domain.
pub fn operate(
    rights: &[u32; DOMAIN_ENTRIES],
    masks: &[u16; DOMAIN_ENTRIES],
    domain: usize,
    op: Op,
    cache: &mut [u16],
    boxes: &mut [u32],
) -> OpResult
    requires { (domain < most_domains)
        × OpWithinLimits op
        × (length cache.old ≡ table_length)
        × (length boxes.old ≡ boxes_length) }
    ensures { (plan : Plan)
        → plan.rights ≡ rights.now
        → plan.masks ≡ masks.now
        → effect_with result cache.new boxes.new
        ≡ effect_of plan domain op cache.old boxes.old }
{
    match op {
        Op::Read(line) => touch(masks, domain, false, line, cache),
        Op::Write(line) => touch(masks, domain, true, line, cache),
        Op::Send(recipient, word) => send(rights, domain, recipient, word, cache, boxes),
        Op::Receive(sender) => receive(rights, domain, sender, cache, boxes),
        Op::Compute(ticks) => OpResult {
            ticks: ticks as u64,
            seen: Observation::Ran(ticks),
            first: None,
            second: None,
        },
    }
}
