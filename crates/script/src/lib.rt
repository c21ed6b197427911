// The five operations of a script, and the number that a script store holds for each.
#![tactic(auto)]

pub mod limits;

ghost use Rattle.std.specs.Prelude.{◌≡◌, ◌<◌, ◌≤◌, length};
ghost use Rattle.script.specs.Limits.{last_domain, most_ops, scripts_length};
ghost use Rattle.script.specs.Stored.{packed, stored_of};
ghost use Rattle.script.specs.Fetch.{decode_of, fetch_of, op_of};
ghost use Rattle.script.specs.ScriptEnd.{stored_ops};

use limits::{LAST_DOMAIN, LEAST_TICKS, MOST_OPS, MOST_TICKS};

// An operation with its numbers: the line of a read or a write; the recipient and the word of a
// send; the sender of a receive; the ticks of a compute.
#[derive(Clone, Copy)]
pub enum Op {
    Read(u16),
    Write(u16),
    Send(u8, u16),
    Receive(u8),
    Compute(u8),
}

// What a kind and another domain count for in a stored number, and how many numbers there is room
// for in the second part.
const KIND_UNIT: u32 = 1_048_576;

const OTHER_UNIT: u32 = 65_536;

const OTHER_VALUES: u32 = KIND_UNIT / OTHER_UNIT;

// The limits, each as wide as the part of a stored number that it is held to.
const LAST_OTHER: u8 = LAST_DOMAIN as u8;

const LEAST_VALUE: u16 = LEAST_TICKS as u16;

const MOST_VALUE: u16 = MOST_TICKS as u16;

// The number made of a kind, another domain and a value. The kind is a number, for an enum of the
// five beside Op would only be turned into these numbers again.
fn pack(kind: u32, other: u8, value: u16) -> u32
    requires { kind ≤ 5 }
    ensures { result ≡ packed kind other value }
{
    kind * KIND_UNIT + u32::from(other) * OTHER_UNIT + u32::from(value)
}

// The number that a script store holds for an operation, as the definition stored_of names it: a
// From would not say which of a u32's meanings this is.
#[tactic(auto, unfolding(crate::specs::Stored::stored_of))]
pub fn stored(op: Op) -> u32
    ensures { result ≡ stored_of op }
{
    match op {
        Op::Read(line) => pack(1, 0, line),
        Op::Write(line) => pack(2, 0, line),
        Op::Send(recipient, word) => pack(3, recipient, word),
        Op::Receive(sender) => pack(4, sender, 0),
        Op::Compute(ticks) => pack(5, 0, u16::from(ticks)),
    }
}

// The operation that three parts give, or none where they are outside an operation's limits. No
// TryFrom: the definition op_of takes three numbers, and there is nothing to say of those outside.
fn op_of(kind: u32, other: u8, value: u16) -> Option<Op>
    ensures { result ≡ op_of kind other value }
{
    match kind {
        1 => (other == 0).then_some(Op::Read(value)),
        2 => (other == 0).then_some(Op::Write(value)),
        3 => (other <= LAST_OTHER).then_some(Op::Send(other, value)),
        4 => ((other <= LAST_OTHER) & (value == 0)).then_some(Op::Receive(other)),
        5 => {
            if (other == 0) & (LEAST_VALUE <= value) & (value <= MOST_VALUE) {
                Some(Op::Compute(value as u8))
            } else {
                None
            }
        }
        _ => None,
    }
}

// What a stored number stands for: its three parts are taken apart. An Option, as the definition
// decode_of has it, and no TryFrom: a number that is no op ends a script, and is no error.
fn decode(number: u32) -> Option<Op>
    ensures { result ≡ decode_of number }
{
    let other = number / OTHER_UNIT % OTHER_VALUES;
    let value = number % OTHER_UNIT;
    op_of(number / KIND_UNIT, other as u8, value as u16)
}

// What stands at a position of a domain's script that has an entry in the store. The store is flat,
// as the definition fetch_of has it, so the domain is asked for each time.
pub fn fetch(scripts: &[u32], domain: usize, position: u64) -> Option<Op>
    requires { (length scripts.now ≡ scripts_length)
        × (domain ≤ last_domain)
        × (position < most_ops) }
    ensures { result ≡ fetch_of scripts.now domain position }
{
    let index = MOST_OPS * domain + position as usize;
    decode(scripts[index])
}

// How many ops a domain's script has: those before its end.
pub fn stored_ops(scripts: &[u32], domain: usize) -> u64
    requires { (length scripts.now ≡ scripts_length) × (domain ≤ last_domain) }
    ensures { result ≡ stored_ops scripts.now domain }
{
    for position in 0..MOST_OPS as u64 {
        if let None = fetch(scripts, domain, position) {
            return position;
        }
    }
    MOST_OPS as u64
}
