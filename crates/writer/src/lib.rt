// The plan writer: a plan and its scripts as a text in the single form, or a refusal. A buffer and
// an offset are handed on, and no slice of the rest: what lies past the buffer's end is left out,
// and the end that is answered may lie past it. What functions ask of it and of a plan are single
// facts, each with other numbers.
#![tactic(auto)]

mod lines;
mod store;
mod text;

ghost use Rattle.std.specs.Prelude.{◌≡◌};
ghost use Rattle.writer.specs.Write.{write_of, write_result};

use plan::Plan;
use plan::limits::MOST_TEXT_BYTES;
use plan::validity::is_valid;
use refusal::Refusal;
use script::limits::SCRIPTS_LENGTH;
use store::ops_alone;
use text::write_text;

// A plan and its scripts are written in the single form, or refused; how many bytes were written.
// The text is made in a buffer of its own, of fixed length as there is no heap, so that the one
// lent is written only once every check has passed.
pub fn write_plan(plan: Plan, scripts: &[u32], out: &mut [u8]) -> Result<usize, Refusal>
    ensures { write_result result out.new ≡ write_of plan scripts.now out.old }
{
    if scripts.len() != SCRIPTS_LENGTH {
        return Err(Refusal::WrongLength);
    }
    if !is_valid(plan) {
        return Err(Refusal::ImpossiblePlan);
    }
    if !ops_alone(plan, scripts) {
        return Err(Refusal::ImpossiblePlan);
    }
    let mut text = [0u8; MOST_TEXT_BYTES];
    let needed = write_text(&mut text, plan, scripts);
    if MOST_TEXT_BYTES < needed {
        return Err(Refusal::ImpossiblePlan);
    }
    if out.len() < needed {
        return Err(Refusal::BufferTooShort(needed));
    }
    out[..needed].copy_from_slice(&text[..needed]);
    Ok(needed)
}
