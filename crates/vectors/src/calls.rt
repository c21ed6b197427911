// The calls, each of which is lent as much of a table as the example says.
use crate::advancing::{Call, advance};
use crate::example::{Example, LOG_ROOM, SCRIPTS_ROOM};
use crate::fields::{number, rest, small, word, word32};
use crate::printing::{
    RECORD_SIZE, print, print_answer, print_ending, print_number, print_records,
};
use cache::flush::{flush_kernel, flush_l1};
use cache::limits::TABLE_LENGTH;
use pirkvezo::bounding::pirkvezo_step_bound;
use pirkvezo::finishing::pirkvezo_latest;
use pirkvezo::framing::pirkvezo_frame;
use pirkvezo::log_query::pirkvezo_log;
use pirkvezo::offsets::{ANSWER_LENGTH, CLOCK_OFFSET, COMPLETED_OFFSET};
use pirkvezo::reading::pirkvezo_read_plan;
use pirkvezo::starting::pirkvezo_fresh_start;
use pirkvezo::writing::pirkvezo_write_plan;
use plan::limits::DOMAIN_ENTRIES;
use std::io;

const OUT_ROOM: usize = 32_769;

// A byte that no text has: a buffer is full of it before a text is written there.
const FILLER: u8 = b'#';

// The first entries of a list, as many as are asked for or as there are.
fn lent<T: Copy>(list: &[T], count: usize) -> &[T] {
    &list[..count.min(list.len())]
}

// The same, to be written.
fn lent_mut<T: Copy>(list: &mut [T], count: usize) -> &mut [T] {
    let end = count.min(list.len());
    &mut list[..end]
}

// Some bytes from an offset on, or as many as there are.
fn part(bytes: &[u8], offset: usize, count: usize) -> &[u8] {
    lent(&bytes[offset.min(bytes.len())..], count)
}

// read LABEL: read the text. The next example's text begins anew.
pub(crate) fn read(rt: &impl Print, example: &mut Example, fields: &[u8]) -> io::Result<()> {
    let mut answer = [0u64; ANSWER_LENGTH];
    pirkvezo_read_plan(
        lent(&example.text, example.text_length),
        lent_mut(&mut example.scripts, example.scripts_length),
        &mut example.plan,
        &mut answer,
    );
    example.text_length = 0;
    print_answer(rt, word(fields), answer)?;
    print(rt, b"\n")
}

// fresh LABEL: a fresh start.
pub(crate) fn fresh(rt: &impl Print, example: &mut Example, fields: &[u8]) -> io::Result<()> {
    let mut answer = [0u64; ANSWER_LENGTH];
    pirkvezo_fresh_start(
        &example.plan,
        &mut example.state,
        lent_mut(&mut example.cache, example.cache_length),
        lent_mut(&mut example.boxes, example.boxes_length),
        &mut answer,
    );
    print_answer(rt, word(fields), answer)?;
    print(rt, b"\n")
}

// run LABEL N: run with limit N. step LABEL: a single step. kept LABEL D PART N: run with limit N,
// keeping the log of domain D, where a part holds PART records. Prints number, companion, steps,
// ending, windows completed and clock.
pub(crate) fn run(
    rt: &impl Print,
    example: &mut Example,
    call: Call,
    fields: &[u8],
) -> io::Result<()> {
    let mut answer = [0u64; ANSWER_LENGTH];
    advance(
        call,
        &example.plan,
        lent(&example.scripts, example.scripts_length),
        &mut example.state,
        lent_mut(&mut example.cache, example.cache_length),
        lent_mut(&mut example.boxes, example.boxes_length),
        lent_mut(&mut example.log, example.log_length),
        &mut answer,
    );
    print_answer(rt, word(fields), answer)?;
    print_number(rt, answer[2])?;
    print_ending(rt, answer[3])?;
    print_number(rt, example.state[COMPLETED_OFFSET])?;
    print_number(rt, example.state[CLOCK_OFFSET])?;
    print(rt, b"\n")
}

// The call of a line `kept LABEL D PART N`.
pub(crate) fn kept_call(fields: &[u8]) -> Call {
    let numbers = rest(fields);
    let domain = word32(numbers);
    let part = number(rest(numbers));
    let limit = number(rest(rest(numbers)));
    Call::Kept(domain, part, limit)
}

// The two flushes of a switch, and the ticks of each. A table of another length is not flushed.
fn print_flushes(rt: &impl Print, cache: &mut [u16]) -> io::Result<()> {
    if cache.len() != TABLE_LENGTH {
        return Ok(());
    }
    print_number(rt, flush_kernel(cache))?;
    print_number(rt, flush_l1(cache))
}

// flush LABEL: the two flushes of a switch. Prints their ticks, which no run shows: they are within
// every pad.
pub(crate) fn flush(rt: &impl Print, example: &mut Example, fields: &[u8]) -> io::Result<()> {
    print(rt, word(fields))?;
    print_flushes(rt, lent_mut(&mut example.cache, example.cache_length))?;
    print(rt, b"\n")
}

// log LABEL D: the status query for the log of domain D, then the records of the log query.
pub(crate) fn query_log(rt: &impl Print, example: &Example, fields: &[u8]) -> io::Result<()> {
    let mut answer = [0u64; ANSWER_LENGTH];
    pirkvezo_log(
        &example.plan,
        &example.state,
        lent(&example.log, example.log_length),
        word32(rest(fields)),
        &mut answer,
    );
    print_answer(rt, word(fields), answer)?;
    print_records(
        rt,
        part(&example.log, answer[2] as usize, answer[3] as usize),
    )?;
    print(rt, b"\n")
}

// buffer LABEL COUNT: the first records of the log, as a run leaves them that keeps one domain's.
pub(crate) fn show_buffer(rt: &impl Print, example: &Example, fields: &[u8]) -> io::Result<()> {
    let count = small(rest(fields)).min(LOG_ROOM / RECORD_SIZE);
    print(rt, word(fields))?;
    print_records(rt, lent(&example.log, RECORD_SIZE * count))?;
    print(rt, b"\n")
}

// The weights of eight domains; those that are not there are 0.
fn weights(fields: &[u8]) -> [u32; DOMAIN_ENTRIES] {
    let mut weights = [0u32; DOMAIN_ENTRIES];
    let mut left = fields;
    for weight in &mut weights {
        *weight = word32(left);
        left = rest(left);
    }
    weights
}

// frame LABEL N WEIGHT..: a frame of N windows by up to eight weights.
pub(crate) fn make_frame(rt: &impl Print, example: &mut Example, fields: &[u8]) -> io::Result<()> {
    let mut answer = [0u64; ANSWER_LENGTH];
    pirkvezo_frame(
        word32(rest(fields)),
        &weights(rest(rest(fields))),
        lent_mut(&mut example.frame, example.frame_length),
        &mut answer,
    );
    print_answer(rt, word(fields), answer)?;
    print(rt, b"\n")
}

// bound LABEL: how many steps a run from a fresh start can take. Prints the answer's four numbers.
pub(crate) fn ask_bound(rt: &impl Print, example: &Example, fields: &[u8]) -> io::Result<()> {
    let mut answer = [0u64; ANSWER_LENGTH];
    pirkvezo_step_bound(
        &example.plan,
        lent(&example.scripts, example.scripts_length),
        &mut answer,
    );
    print_answer(rt, word(fields), answer)?;
    print_number(rt, answer[2])?;
    print_number(rt, answer[3])?;
    print(rt, b"\n")
}

// latest LABEL D FIRST COUNT: the latest that domain D can finish, with COUNT numbers of the
// scripts, from index FIRST on, as the buffer for its script. Prints the answer's four numbers.
pub(crate) fn ask_latest(rt: &impl Print, example: &mut Example, fields: &[u8]) -> io::Result<()> {
    let mut answer = [0u64; ANSWER_LENGTH];
    let buffer = rest(rest(fields));
    let first = small(buffer).min(SCRIPTS_ROOM);
    pirkvezo_latest(
        &example.plan,
        word32(rest(fields)),
        lent_mut(&mut example.scripts[first..], small(rest(buffer))),
        &mut answer,
    );
    print_answer(rt, word(fields), answer)?;
    print_number(rt, answer[2])?;
    print_number(rt, answer[3])?;
    print(rt, b"\n")
}

// How many bytes are filler, up to the first that is not.
fn untouched(bytes: &[u8]) -> usize {
    let other = bytes.iter().position(|byte| *byte != FILLER);
    other.unwrap_or(bytes.len())
}

// write LABEL ROOM: the canonical text, in a buffer of ROOM bytes. Prints the answer's four numbers
// and how many bytes past the text are untouched; where it is accepted, then the text in [ ].
pub(crate) fn write_plan(rt: &impl Print, example: &Example, fields: &[u8]) -> io::Result<()> {
    let mut room = [FILLER; OUT_ROOM];
    let out = lent_mut(&mut room, number(rest(fields)) as usize);
    let mut answer = [0u64; ANSWER_LENGTH];
    pirkvezo_write_plan(
        &example.plan,
        lent(&example.scripts, example.scripts_length),
        out,
        &mut answer,
    );
    let written = (answer[2] as usize).min(out.len());
    print_answer(rt, word(fields), answer)?;
    print_number(rt, answer[2])?;
    print_number(rt, answer[3])?;
    print_number(rt, untouched(&out[written..]) as u64)?;
    print(rt, b"\n")?;
    if answer[0] == 0 {
        print(rt, b"[")?;
        print(rt, &out[..written])?;
        print(rt, b"]\n")?;
    }
    Ok(())
}
