// What stands in brackets of its own within a form.
ghost use Rattle.std.specs.Prelude.{◌≡◌};
ghost use Rattle.syntax.specs.Brackets.{bracketed_number, bracketed_op, pass_head};

use crate::Numeral;
use crate::op_tokens::op_at;
use crate::tokens::{pass_close, pass_open, pass_word, take_number};
use refusal::Refusal;
use script::Op;

// An opening bracket and this word.
#[tactic(auto, unfolding(crate::specs::Brackets::pass_head))]
pub fn pass_head(text: &[u8], word: &[u8], at: usize) -> Result<usize, Refusal>
    ensures { result ≡ pass_head text.now word.now at }
{
    let opened = pass_open(text, at)?;
    pass_word(text, word, opened)
}

// A word and a number.
#[tactic(auto, unfolding(crate::specs::Brackets::bracketed_number))]
pub fn bracketed_number(
    text: &[u8],
    word: &[u8],
    low: u32,
    high: u32,
    at: usize,
) -> Result<Numeral, Refusal>
    ensures { result ≡ bracketed_number text.now word.now low high at }
{
    let worded = pass_head(text, word, at)?;
    let number = take_number(text, low, high, worded)?;
    let end = pass_close(text, number.end)?;
    Ok(Numeral {
        value: number.value,
        start: number.start,
        end,
    })
}

// An op.
#[tactic(auto, unfolding(crate::specs::Brackets::bracketed_op))]
pub fn bracketed_op(text: &[u8], at: usize) -> Result<(Op, usize), Refusal>
    ensures { result ≡ bracketed_op text.now at }
{
    let opened = pass_open(text, at)?;
    let (op, end) = op_at(text, opened)?;
    let closed = pass_close(text, end)?;
    Ok((op, closed))
}
