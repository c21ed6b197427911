// The pad and run forms: one number each. Two functions of two lines, as their definitions are two:
// one for both, as number_op of syntax, would need a contract over any form made.
ghost use Rattle.std.specs.Prelude.{◌≡◌};
ghost use Rattle.forms.specs.Forms.{pad_form, run_form};

use crate::Form;
use plan::limits::{LEAST_PAD, LEAST_RUN, MOST_PAD, MOST_RUN};
use refusal::Refusal;
use syntax::tokens::take_number;

// After the word `pad`: its number.
#[tactic(auto, unfolding(crate::specs::Forms::pad_form))]
pub fn pad_form(text: &[u8], at: usize) -> Result<(Form, usize), Refusal>
    ensures { result ≡ pad_form text.now at }
{
    let ticks = take_number(text, LEAST_PAD, MOST_PAD, at)?;
    Ok((Form::Pad(ticks.value), ticks.end))
}

// After the word `run`: its number.
#[tactic(auto, unfolding(crate::specs::Forms::run_form))]
pub fn run_form(text: &[u8], at: usize) -> Result<(Form, usize), Refusal>
    ensures { result ≡ run_form text.now at }
{
    let times = take_number(text, LEAST_RUN, MOST_RUN, at)?;
    Ok((Form::Run(times.value), times.end))
}
