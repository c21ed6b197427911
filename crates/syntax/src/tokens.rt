// What is due is taken from the next token, or the line is refused.
ghost use Rattle.std.specs.Prelude.{◌≡◌};
ghost use Rattle.syntax.specs.Tokens.{pass_close, pass_line_end, pass_open, pass_word, same_bytes};
ghost use Rattle.syntax.specs.Tokens.{take_number, word_at};

use crate::{Numeral, Span};
use lexer::runs::{number_from, word_from};
use lexer::{Lookahead, Token, lookahead_at, lookahead_start};
use refusal::Refusal;

// Whether two runs of bytes are equal. Not `==` of the slices: with it a text is read 4% slower.
pub fn same_bytes(a: &[u8], b: &[u8]) -> bool
    ensures { result ≡ same_bytes a.now b.now }
{
    if a.len() != b.len() {
        return false;
    }
    for i in 0..a.len() {
        if a[i] != b[i] {
            return false;
        }
    }
    true
}

// An opening bracket was due. This and the next two differ in a pattern, which no parameter can be:
// one function for the three would take a test of the token for it, and be no shorter.
pub fn pass_open(text: &[u8], at: usize) -> Result<usize, Refusal>
    ensures { result ≡ pass_open text.now at }
{
    let next = lookahead_at(text, at);
    let Lookahead::Open(bracket) = next else {
        return Err(Refusal::BrokenShape(lookahead_start(next)));
    };
    Ok(bracket + 1)
}

// A closing bracket was due.
pub fn pass_close(text: &[u8], at: usize) -> Result<usize, Refusal>
    ensures { result ≡ pass_close text.now at }
{
    let next = lookahead_at(text, at);
    let Lookahead::Close(bracket) = next else {
        return Err(Refusal::BrokenShape(lookahead_start(next)));
    };
    Ok(bracket + 1)
}

// The line's end was due.
pub fn pass_line_end(text: &[u8], at: usize) -> Result<usize, Refusal>
    ensures { result ≡ pass_line_end text.now at }
{
    let next = lookahead_at(text, at);
    let Lookahead::LineEnd(end) = next else {
        return Err(Refusal::BrokenShape(lookahead_start(next)));
    };
    Ok(end)
}

// A word was due.
pub fn word_at(text: &[u8], at: usize) -> Result<Span, Refusal>
    ensures { result ≡ word_at text.now at }
{
    let next = lookahead_at(text, at);
    let Lookahead::Run(first) = next else {
        return Err(Refusal::BrokenShape(lookahead_start(next)));
    };
    let Token::Word { start, end } = word_from(text, first) else {
        return Err(Refusal::BrokenShape(first));
    };
    Ok(Span { start, end })
}

// This word was due.
pub fn pass_word(text: &[u8], word: &[u8], at: usize) -> Result<usize, Refusal>
    ensures { result ≡ pass_word text.now word.now at }
{
    let found = word_at(text, at)?;
    if !same_bytes(&text[found.start..found.end], word) {
        return Err(Refusal::BrokenShape(found.start));
    }
    Ok(found.end)
}

// A number was due: one of too many digits is outside its limits, as a shorter one can be.
pub fn take_number(text: &[u8], low: u32, high: u32, at: usize) -> Result<Numeral, Refusal>
    ensures { result ≡ take_number text.now low high at }
{
    let next = lookahead_at(text, at);
    let Lookahead::Run(first) = next else {
        return Err(Refusal::BrokenShape(lookahead_start(next)));
    };
    match number_from(text, first) {
        Token::Number { start, end, value } => {
            if (low as u64 <= value) & (value <= high as u64) {
                Ok(Numeral {
                    value: value as u32,
                    start,
                    end,
                })
            } else {
                Err(Refusal::NumberOutOfLimits(start))
            }
        }
        Token::LongNumber { start, .. } => Err(Refusal::NumberOutOfLimits(start)),
        _ => Err(Refusal::BrokenShape(first)),
    }
}
