// The lines, each written into a lent buffer from an offset on. Each function answers the offset
// past what it wrote. Buffer and offset are two parameters, of which the definition Wrote speaks,
// and each function asks for room to count by the longest that it writes itself.
ghost use Rattle.std.specs.Prelude.{◌≡◌, ◌+◌, ◌*◌, ◌^◌, ◌<◌, ◌≤◌, length};
ghost use Rattle.lists.specs.Ascii.{bytes_of};
ghost use Rattle.records.specs.Records.{record_size};
ghost use Rattle.report.specs.Limits.{most_decimal, most_end_line, most_kind_word, most_seen_line};
ghost use Rattle.report.specs.Lines.{end_line, kind_and_value, kind_word, pair_line, seen_line};
ghost use Rattle.lists.specs.Writing.{Wrote};

use crate::fields::{u16_at, u32_at};
use crate::limits::{CLOCK_OFFSET, VALUE_OFFSET};
use lexer::decimal::{write_bytes, write_numbered};
use state::State;

// Writes a line of a word and two numbers.
pub fn write_pair(out: &mut [u8], at: usize, word: &[u8], first: u64, second: u64) -> usize
    requires { at + length word.now + 2 * most_decimal + 3 < 2 ^ 64 }
    ensures { Wrote out.old at (pair_line word.now first second)
        out.new result }
{
    let middle = write_numbered(out, at, word, first);
    let end = write_numbered(out, middle, b" ", second);
    write_bytes(out, end, b")\n")
}

// Writes the last line of a run.
pub fn write_end(out: &mut [u8], at: usize, state: State) -> usize
    requires { at + most_end_line < 2 ^ 64 }
    ensures { Wrote out.old at (end_line state) out.new result }
{
    write_pair(out, at, b"(end ", state.windows, state.clock)
}

// The word of a record's kind. No enum: the definition kind_word is of the byte that a log has for
// it, and has a word for bytes that are no kind too.
pub fn kind_word(kind: u8) -> &'static [u8]
    ensures { result.now ≡ bytes_of (kind_word kind) }
{
    match kind {
        1 => b"hit1",
        2 => b"hit2",
        3 => b"miss",
        4 => b"sent",
        5 => b"got",
        6 => b"empty",
        7 => b"denied",
        8 => b"ran",
        9 => b"barred",
        _ => b"none",
    }
}

// Writes the rest of a record's line, from its kind on.
fn write_kind_and_value(out: &mut [u8], at: usize, kind: u8, value: u64) -> usize
    requires { at + 6 + most_kind_word + most_decimal < 2 ^ 64 }
    ensures { Wrote out.old at (kind_and_value kind value) out.new result }
{
    let word = write_bytes(out, at, b" (");
    let space = write_bytes(out, word, kind_word(kind));
    let close = write_numbered(out, space, b" ", value);
    write_bytes(out, close, b"))\n")
}

// Writes the line of the record at an offset of a log, as the definition seen_line names it.
pub fn write_seen(out: &mut [u8], at: usize, domain: u64, log: &[u8], from: usize) -> usize
    requires { (at + most_seen_line < 2 ^ 64) × (from + record_size ≤ length log.now) }
    ensures { Wrote out.old at (seen_line domain log.now from)
        out.new result }
{
    let kind = log[from];
    let clock = u32_at(log, from + CLOCK_OFFSET);
    let value = u16_at(log, from + VALUE_OFFSET);
    let space = write_numbered(out, at, b"(seen ", domain);
    let open = write_numbered(out, space, b" ", clock);
    write_kind_and_value(out, open, kind, value)
}
