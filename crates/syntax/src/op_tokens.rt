// An op: one of five words and the numbers that it asks for.
ghost use Rattle.std.specs.Prelude.{ℕ, ◌≡◌, ◌≤◌};
ghost use Rattle.syntax.specs.Ops.{number_op, op_at, send_op};

use crate::OpWord;
use crate::keywords::op_keyword_at;
use crate::tokens::take_number;
use refusal::Refusal;
use script::Op;
use script::limits::{LAST_DOMAIN, LEAST_TICKS, MOST_NUMBER, MOST_TICKS, MOST_WORD};

// An op of one number, which `op` makes of a number up to `high`.
fn number_op<F: FnOnce(u32) -> Op>(
    text: &[u8],
    low: u32,
    high: u32,
    at: usize,
    op: F,
) -> Result<(Op, usize), Refusal>
    requires { (number : ℕ) → number ≤ high → F.pre op number }
    ensures { (rule : ℕ → Op)
        → ((number : ℕ) (made : Op) → number ≤ high → F.post op number made → made ≡ rule number)
        → result ≡ number_op text.now low high rule at }
{
    let number = take_number(text, low, high, at)?;
    Ok((op(number.value), number.end))
}

// The recipient and the word of a send.
#[tactic(auto, unfolding(crate::specs::Ops::send_op))]
fn send_op(text: &[u8], at: usize) -> Result<(Op, usize), Refusal>
    ensures { result ≡ send_op text.now at }
{
    let recipient = take_number(text, 0, LAST_DOMAIN, at)?;
    let domain = recipient.value as u8;
    number_op(
        text,
        0,
        MOST_WORD,
        recipient.end,
        |word| Op::Send(domain, word as u16),
    )
}

// An op's word and its numbers.
pub fn op_at(text: &[u8], at: usize) -> Result<(Op, usize), Refusal>
    ensures { result ≡ op_at text.now at }
{
    let (word, end) = op_keyword_at(text, at)?;
    match word {
        OpWord::Read => number_op(text, 0, MOST_NUMBER, end, |number| Op::Read(number as u16)),
        OpWord::Write => number_op(text, 0, MOST_NUMBER, end, |number| Op::Write(number as u16)),
        OpWord::Send => send_op(text, end),
        OpWord::Receive => number_op(
            text,
            0,
            LAST_DOMAIN,
            end,
            |number| Op::Receive(number as u8),
        ),
        OpWord::Compute => number_op(
            text,
            LEAST_TICKS,
            MOST_TICKS,
            end,
            |number| Op::Compute(number as u8),
        ),
    }
}
