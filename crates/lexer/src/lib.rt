// The lexer: the tokens of a plan text, a byte slice read from an offset; and decimal numbers,
// written into one.
#![tactic(auto)]

mod bytes;
pub mod decimal;
mod limits;
pub mod runs;
mod scan;

ghost use Rattle.std.specs.Prelude.{◌≡◌};
ghost use Rattle.lexer.specs.Lookaheads.{lookahead_at, lookahead_from, lookahead_start};

use scan::{skip_indent, skip_spaces};

// A token of a line. `start` is the offset of its first byte and `end` the offset past its last.
// The definition of a text's tokens has every kind. The code makes words, numbers and `Other`
// alone: a bracket or a line's end is answered as a lookahead.
#[derive(Clone, Copy)]
pub enum Token {
    // no token is left in the line; the offset of its LF, or the text's length
    LineEnd(usize),
    Open(usize),
    Close(usize),
    // a run of letters a to z
    Word {
        start: usize,
        end: usize,
    },
    // a run of 1 to 10 digits
    Number {
        start: usize,
        end: usize,
        value: u64,
    },
    // a run of more than 10 digits
    LongNumber {
        start: usize,
        end: usize,
    },
    // a run that is neither a word nor a number. The code also answers it where one of the two is
    // due and a run of the other kind stands. It does not look for the run's end: `end` is `start`.
    Other {
        start: usize,
        end: usize,
    },
}

// What stands next in a line by its first byte, with that byte's offset. A bracket or a line's end
// is known from it; a run of bytes is looked through only where a word or a number is due.
#[derive(Clone, Copy)]
pub enum Lookahead {
    // no token is left in the line; the offset of its LF, or the text's length
    LineEnd(usize),
    Open(usize),
    Close(usize),
    // a run of other bytes begins
    Run(usize),
}

// What stands at `start`, where no space stands.
#[tactic(auto, unfolding(crate::specs::Lookaheads::lookahead_from))]
fn lookahead_from(text: &[u8], start: usize) -> Lookahead
    ensures { result ≡ lookahead_from text.now start }
{
    if start < text.len() {
        let byte = text[start];
        if byte == b'\n' {
            return Lookahead::LineEnd(start);
        }
        if byte == b'(' {
            return Lookahead::Open(start);
        }
        if byte == b')' {
            return Lookahead::Close(start);
        }
        return Lookahead::Run(start);
    }
    Lookahead::LineEnd(start)
}

// The offset of the first byte of what stands next, or of the line's end.
pub fn lookahead_start(next: Lookahead) -> usize
    ensures { result ≡ lookahead_start next }
{
    match next {
        Lookahead::LineEnd(at) | Lookahead::Open(at) | Lookahead::Close(at) | Lookahead::Run(at) =>
            at,
    }
}

// A reader holds the text and the offset that it has reached.
#[derive(Drop)]
pub struct Reader<'a> {
    pub text: &'a [u8],
    pub at: usize,
}

impl<'a> Reader<'a> {
    // Hands out what stands next, and moves to its first byte: the offset that a refusal names.
    // Spaces are passed over.
    #[tactic(auto, unfolding(crate::specs::Lookaheads::lookahead_at))]
    pub fn next(&mut self) -> Lookahead
        ensures { (result ≡ lookahead_at self.old.text.now self.old.at)
            × (self.new.text ≡ self.old.text)
            × (self.new.at ≡ lookahead_start result) }
    {
        let next = lookahead_from(self.text, skip_spaces(self.text, self.at));
        self.at = lookahead_start(next);
        next
    }
}

// What a reader at `at` hands out next. Here and above a text and an offset are two parameters, not
// a `Reader`: the definitions of tokens (specs/) have them so, and a refusal needs the offset by
// itself.
pub fn lookahead_at(text: &[u8], at: usize) -> Lookahead
    ensures { result ≡ lookahead_at text.now at }
{
    let mut reader = Reader { text, at };
    reader.next()
}

// What stands first in the line that begins at `at`: the spaces before it are passed over first.
#[tactic(auto, using(crate::proofs::Lookaheads::past_indent))]
pub fn first_in_line(text: &[u8], at: usize) -> Lookahead
    ensures { result ≡ lookahead_at text.now at }
{
    lookahead_at(text, skip_indent(text, at))
}
