// The window form: a declared domain and a length.
ghost use Rattle.std.specs.Prelude.{◌≡◌};
ghost use Rattle.forms.specs.Forms.{window_form};

use crate::numbers::declared_domain;
use crate::{Form, WindowLine};
use plan::limits::{LEAST_LENGTH, MOST_LENGTH};
use refusal::Refusal;
use syntax::brackets::bracketed_number;

// After the word `window`: the number of a declared domain, and the length.
#[tactic(auto, unfolding(crate::specs::Forms::window_form, lists::specs::Ascii::bytes_of))]
pub fn window_form(text: &[u8], declared: u32, at: usize) -> Result<(Form, usize), Refusal>
    ensures { result ≡ window_form text.now declared at }
{
    let owner = declared_domain(text, declared, at)?;
    let length = bracketed_number(text, b"length", LEAST_LENGTH, MOST_LENGTH, owner.end)?;
    let line = WindowLine {
        owner: owner.value,
        length: length.value,
    };
    Ok((Form::Window(line), length.end))
}
