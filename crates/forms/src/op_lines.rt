// The op form: a declared domain and an op.
ghost use Rattle.std.specs.Prelude.{◌≡◌};
ghost use Rattle.forms.specs.Forms.{op_form};

use crate::numbers::declared_domain;
use crate::{Form, OpLine};
use refusal::Refusal;
use syntax::brackets::bracketed_op;

// After the word `op`: the number of a declared domain, and the op.
#[tactic(auto, unfolding(crate::specs::Forms::op_form))]
pub fn op_form(text: &[u8], declared: u32, at: usize) -> Result<(Form, usize), Refusal>
    ensures { result ≡ op_form text.now declared at }
{
    let domain = declared_domain(text, declared, at)?;
    let (op, end) = bracketed_op(text, domain.end)?;
    let line = OpLine {
        domain: domain.value,
        op,
    };
    Ok((Form::Op(line), end))
}
