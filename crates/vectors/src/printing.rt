// What is printed: words, numbers, answers and records.
ghost use Rattle.std.specs.Prelude.{◌≡◌, length};
ghost use Rattle.records.specs.Records.{record_size};

use pirkvezo::offsets::ANSWER_LENGTH;
use report::lines::kind_word;
use std::io;

// The bytes of a record.
pub(crate) const RECORD_SIZE: usize = records::limits::RECORD_SIZE as usize;

pub(crate) fn print(rt: &impl Print, bytes: &[u8]) -> io::Result<()> {
    rt.write_all(bytes)
}

pub(crate) fn print_number(rt: &impl Print, number: u64) -> io::Result<()> {
    print!(rt; " {number}")
}

// The label of an example, and the number and the companion that a call answers.
pub(crate) fn print_answer(
    rt: &impl Print,
    label: &[u8],
    answer: [u64; ANSWER_LENGTH],
) -> io::Result<()> {
    print(rt, label)?;
    print_number(rt, answer[0])?;
    print_number(rt, answer[1])
}

// An ending, by the number that a call answers for it, which is all that C is told of it.
pub(crate) fn print_ending(rt: &impl Print, ending: u64) -> io::Result<()> {
    match ending {
        0 => print(rt, b" stopped"),
        _ => print(rt, b" ended"),
    }
}

// A record's kind, value and clock. The kind is the byte of the log. The space and the word are
// one write, and so pass through a buffer, which has room for the longest word.
#[tactic(auto, using(report::proofs::LineLengths::word_limit))]
fn print_record(rt: &impl Print, seen: &[u8]) -> io::Result<()>
    requires { length seen.now ≡ record_size }
{
    let value = u16::from_le_bytes([seen[2], seen[3]]);
    let clock = u32::from_le_bytes([seen[4], seen[5], seen[6], seen[7]]);
    let word = kind_word(seen[0]);
    let mut spaced = [b' '; 7];
    let end = 1 + word.len();
    spaced[1..end].copy_from_slice(word);
    print(rt, &spaced[..end])?;
    print_number(rt, u64::from(value))?;
    print_number(rt, u64::from(clock))
}

pub(crate) fn print_records(rt: &impl Print, records: &[u8]) -> io::Result<()> {
    for seen in records.chunks_exact(RECORD_SIZE) {
        print_record(rt, seen)?;
    }
    Ok(())
}
