// The fields of a line: words with one space between, each of which may be a number.
ghost use Rattle.std.specs.Prelude.{◌<◌, ◌≤◌, length};

use lexer::runs::{number_from, word_from};
use lexer::{Lookahead, Token, lookahead_at};

// The offset of the first space, or the length.
fn find_space(line: &[u8]) -> usize
    ensures { result ≤ length line.now }
{
    let found = line.iter().position(|byte| *byte == b' ');
    found.unwrap_or(line.len())
}

// The first word of a line.
pub(crate) fn word(line: &[u8]) -> &[u8] {
    &line[..find_space(line)]
}

// The fields behind the first word.
pub(crate) fn rest(line: &[u8]) -> &[u8] {
    let next = find_space(line) + 1;
    &line[next.min(line.len())..]
}

// The number that the first field is. A word, as `largest`, is the largest number; nothing is 0.
pub(crate) fn number(fields: &[u8]) -> u64 {
    let Lookahead::Run(first) = lookahead_at(fields, 0) else {
        return 0;
    };
    if let Token::Number { value, .. } = number_from(fields, first) {
        return value;
    }
    if let Token::Word { .. } = word_from(fields, first) {
        return named_number(word(fields));
    }
    0
}

// The largest number, or the eighth of the next, whose records have so many bytes that they wrap.
fn named_number(name: &[u8]) -> u64 {
    match name {
        b"eighth" => 2_305_843_009_213_693_952,
        _ => u64::MAX,
    }
}

// The same, small enough to count on from.
pub(crate) fn small(fields: &[u8]) -> usize
    ensures { result < 65_536 }
{
    (number(fields) % 65_536) as usize
}

// The same, as wide as a number of a plan.
pub(crate) fn word32(fields: &[u8]) -> u32 {
    (number(fields) % 4_294_967_296) as u32
}
