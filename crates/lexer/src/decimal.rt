// Words and decimal numbers, written into a lent buffer from an offset on. What lies past the
// buffer's end is left out: so a buffer and an offset are handed on, and no slice of the rest, and
// each function asks that its own end stays below 2 ^ 64.
ghost use Rattle.std.specs.Prelude.{◌++◌, ◌≡◌, ◌+◌, ◌^◌, ◌<◌, length, set};
ghost use Rattle.lexer.specs.Decimal.{decimal_of};
ghost use Rattle.lexer.specs.Limits.{widest_digits};
ghost use Rattle.lists.specs.Writing.{Wrote};

use crate::limits::WIDEST_DIGITS;

// Stores one byte.
fn store(out: &mut [u8], at: usize, byte: u8)
    ensures { out.new ≡ set out.old at byte }
{
    // No `get_mut`: of a slice written through one, a proof knows the length alone.
    if at < out.len() {
        out[at] = byte;
    }
}

// Writes bytes as they are.
#[tactic(auto, using(lists::proofs::Stores::sets_next))]
pub fn write_bytes(out: &mut [u8], at: usize, bytes: &[u8]) -> usize
    requires { at + length bytes.now < 2 ^ 64 }
    ensures { Wrote out.old at bytes.now out.new result }
{
    for (i, byte) in bytes.iter().enumerate() {
        store(out, at + i, *byte);
    }
    at + bytes.len()
}

// Writes a number in decimal, with no leading zero. By hand: `to_string` takes a heap, and `write!`
// a type of its own that writes into the buffer.
pub fn write_decimal(out: &mut [u8], at: usize, number: u64) -> usize
    requires { at + widest_digits < 2 ^ 64 }
    ensures { Wrote out.old at (decimal_of number) out.new result }
{
    let mut digits = [b'0'; WIDEST_DIGITS];
    let mut left = number;
    let mut first: usize = WIDEST_DIGITS;
    // A while: it has as many turns as the number has digits, which no range counts.
    while 9 < left {
        first -= 1;
        digits[first] = b'0' + (left % 10) as u8;
        left /= 10;
    }
    first -= 1;
    digits[first] = b'0' + left as u8;
    write_bytes(out, at, &digits[first..])
}

// Writes a word and a number behind it.
pub fn write_numbered(out: &mut [u8], at: usize, word: &[u8], number: u64) -> usize
    requires { at + length word.now + widest_digits < 2 ^ 64 }
    ensures { Wrote out.old at (word.now ++ decimal_of number)
        out.new result }
{
    let next = write_bytes(out, at, word);
    write_decimal(out, next, number)
}
