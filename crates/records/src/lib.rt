// What a domain sees: the records of it, and the log that holds them.
#![tactic(auto)]

pub mod limits;

ghost use Rattle.std.specs.Prelude.{◌≡◌, ◌+◌, ◌^◌, ◌≤◌, ◌<◌, length};
ghost use Rattle.std.proofs.lemmas.List.Edits.{sets};
ghost use Rattle.plan.specs.declared.Plan.{Plan};
ghost use Rattle.plan.specs.Limits.{most_domains};
ghost use Rattle.records.specs.declared.Observation.{Observation};
ghost use Rattle.records.specs.Records.{part_records, place_end, places_of, record_bytes};
ghost use Rattle.records.specs.Records.{record_kind, record_size, record_value, stored_at};

use crate::limits::RECORD_SIZE;

// What an op shows the domain that runs it, with the value that its record keeps.
#[derive(Clone, Copy)]
pub enum Observation {
    Hit1(u16),
    Hit2(u16),
    Miss(u16),
    Sent(u8),
    Got(u32),
    Empty(u8),
    Denied(u8),
    Ran(u8),
    Barred(u16),
}

// Whose records are kept: every domain's, each in its part of the log, or one domain's only. Not an
// Option: a None would have to stand for every domain. Nor is it engine's LentLog, which tells
// beside the domain how many records its part has room for.
#[derive(Clone, Copy)]
pub enum Keep {
    Every,
    One(u64),
}

// A record's kind, the number in a byte of the record that the definition record_kind names. No
// From: of an observation two numbers are made, and a u8 does not say which.
pub fn record_kind(seen: Observation) -> u8
    ensures { result ≡ record_kind seen }
{
    match seen {
        Observation::Hit1(_) => 1,
        Observation::Hit2(_) => 2,
        Observation::Miss(_) => 3,
        Observation::Sent(_) => 4,
        Observation::Got(_) => 5,
        Observation::Empty(_) => 6,
        Observation::Denied(_) => 7,
        Observation::Ran(_) => 8,
        Observation::Barred(_) => 9,
    }
}

// A record's value, as the definition record_value names it.
pub fn record_value(seen: Observation) -> u32
    ensures { result ≡ record_value seen }
{
    match seen {
        Observation::Hit1(line) => u32::from(line),
        Observation::Hit2(line) => u32::from(line),
        Observation::Miss(line) => u32::from(line),
        Observation::Sent(recipient) => u32::from(recipient),
        Observation::Got(word) => word,
        Observation::Empty(sender) => u32::from(sender),
        Observation::Denied(other) => u32::from(other),
        Observation::Ran(ticks) => u32::from(ticks),
        Observation::Barred(line) => u32::from(line),
    }
}

// Writes a record's bytes, by its kind and value, from an index of the log on: the log is lent
// whole, as the contract of store_record tells what becomes of all of it. Byte by byte, as the
// definition record_bytes: for to_le_bytes value and clock would first be cut, and then copied.
fn write_record(log: &mut [u8], at: usize, kind: u8, value: u32, clock: u64)
    requires { at + record_size ≤ length log.old }
    ensures { (seen : Observation)
        → kind ≡ record_kind seen
        → value ≡ record_value seen
        → log.new ≡ sets log.old at (record_bytes seen clock) }
{
    log[at] = kind;
    log[at + 1] = 0;
    log[at + 2] = (value % 256) as u8;
    log[at + 3] = (value / 256 % 256) as u8;
    log[at + 4] = (clock % 256) as u8;
    log[at + 5] = (clock / 256 % 256) as u8;
    log[at + 6] = (clock / 65_536 % 256) as u8;
    log[at + 7] = (clock / 16_777_216 % 256) as u8;
}

// Where a domain's records go, by whose are kept: one behind the other, from as many records on as
// the number says, or nowhere.
pub fn place_of(keep: Keep, quota: u64, domain: u64) -> Option<u64>
    requires { place_end (places_of keep quota domain) 0 < 2 ^ 64 }
    ensures { result ≡ places_of keep quota domain }
{
    match keep {
        Keep::Every => Some(quota * domain),
        Keep::One(named) => { if domain == named { Some(0) } else { None } }
    }
}

// Stores a record at its place, by its number there. Kind and value are worked out first, where the
// compiler still knows which op was done, and not only where the record is stored.
pub fn store_record(log: &mut [u8], place: Option<u64>, number: u64, seen: Observation, clock: u64)
    requires { place_end place (number + 1) ≤ length log.old }
    ensures { log.new ≡ stored_at place number seen clock log.old }
{
    let kind = record_kind(seen);
    let value = record_value(seen);
    if let Some(first) = place {
        let at = RECORD_SIZE * (first + number);
        write_record(log, at as usize, kind, value, clock);
    }
}

// The number of records that each domain's part of a log holds.
pub fn part_records(domains: u32, log_length: usize) -> u64
    requires { (0 < domains) × (domains ≤ most_domains) }
    ensures { (plan : Plan)
        → plan.domains ≡ domains
        → result ≡ part_records plan log_length }
{
    let size = RECORD_SIZE * (domains as u64);
    (log_length as u64) / size
}
