// The four numbers of an answer.
ghost use Rattle.std.specs.Prelude.{◌≡◌, Err};
ghost use Rattle.engine.specs.Running.{ending_number};
ghost use Rattle.pirkvezo.specs.Answers.{all_fit, answer_of, plan_fits, verdict_number};
ghost use Rattle.pirkvezo.specs.Answers.{wrong_length};

use crate::offsets::{ANSWER_LENGTH, PLAN_LENGTH, STATE_LENGTH};
use engine::Ending;
use refusal::{Refusal, code_of};

// Writes an answer and returns its first number. An answer of another length stays as it is.
pub fn put_answer(answer: &mut [u64], verdict: Result<(), Refusal>, third: u64, fourth: u64) -> u32
    ensures { (result ≡ verdict_number verdict)
        × (answer.new ≡ answer_of verdict third fourth answer.old) }
{
    let code = code_of(verdict);
    if answer.len() == ANSWER_LENGTH {
        answer[0] = code.number as u64;
        answer[1] = code.companion as u64;
        answer[2] = third;
        answer[3] = fourth;
    }
    code.number
}

// Writes the answer of a refusal: its own two numbers are 0.
pub fn refuse(answer: &mut [u64], refusal: Refusal) -> u32
    ensures { (result ≡ verdict_number (Err refusal))
        × (answer.new ≡ answer_of (Err refusal) 0 0 answer.old) }
{
    put_answer(answer, Err(refusal), 0, 0)
}

// 11: a lent array of another length.
pub fn refuse_length(answer: &mut [u64]) -> u32
    ensures { (result ≡ verdict_number wrong_length)
        × (answer.new ≡ answer_of wrong_length 0 0 answer.old) }
{
    refuse(answer, Refusal::WrongLength)
}

// Whether a lent plan and a lent answer have their lengths.
pub fn plan_fits(plan: &[u32], answer: &[u64]) -> bool
    ensures { result ≡ plan_fits plan.now answer.now }
{
    plan.len() == PLAN_LENGTH && answer.len() == ANSWER_LENGTH
}

// Whether a lent plan, a lent state and a lent answer have theirs.
pub fn all_fit(plan: &[u32], state: &[u64], answer: &[u64]) -> bool
    ensures { result ≡ all_fit plan.now state.now answer.now }
{
    plan.len() == PLAN_LENGTH && state.len() == STATE_LENGTH && answer.len() == ANSWER_LENGTH
}

// 1 for ended, 0 for stopped: C's number for an ending. No `From`: only engine, the crate of its
// type, could have it, and no function there answers numbers for C.
pub fn ending_number(ending: Ending) -> u64
    ensures { result ≡ ending_number ending }
{
    match ending {
        Ending::Stopped => 0,
        Ending::Ended => 1,
    }
}
