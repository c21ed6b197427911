// The domain form: the next number, a share, and a list of recipients.
ghost use Rattle.std.specs.Prelude.{◌≡◌};
ghost use Rattle.forms.specs.Forms.{domain_form, listed_domain, may_form, refused_domain};

use crate::numbers::next_domain;
use crate::{DomainLine, DomainParse, Form};
use plan::limits::{LEAST_SHARE, MOST_SHARE};
use refusal::Refusal;
use syntax::RecipientList;
use syntax::brackets::{bracketed_number, pass_head};
use syntax::may::recipients_at;

// A refused domain, with what is noted up to there.
fn refused_domain(named: [usize; 8], refusal: Refusal) -> DomainParse
    ensures { result ≡ refused_domain named refusal }
{
    DomainParse {
        parse: Err(refusal),
        named,
    }
}

// The whole form, once its list of recipients was read.
#[tactic(auto, unfolding(crate::specs::Forms::listed_domain))]
fn listed_domain(share: u32, list: RecipientList) -> DomainParse
    ensures { result ≡ listed_domain share list }
{
    let named = list.named;
    match list.passed {
        Err(refusal) => refused_domain(named, refusal),
        Ok(end) => {
            let line = DomainLine {
                share,
                rights: list.rights,
            };
            DomainParse {
                parse: Ok((Form::Domain(line), end)),
                named,
            }
        }
    }
}

// The part with the recipients.
#[tactic(auto, unfolding(crate::specs::Forms::may_form, lists::specs::Ascii::bytes_of))]
fn may_form(text: &[u8], own: u32, named: [usize; 8], share: u32, at: usize) -> DomainParse
    ensures { result ≡ may_form text.now own named share at }
{
    match pass_head(text, b"may", at) {
        Err(refusal) => refused_domain(named, refusal),
        Ok(worded) => listed_domain(share, recipients_at(text, own, named, worded)),
    }
}

// After the word `domain`: the number due next, and the two parts.
#[tactic(auto, unfolding(crate::specs::Forms::domain_form, lists::specs::Ascii::bytes_of))]
pub fn domain_form(text: &[u8], declared: u32, named: [usize; 8], at: usize) -> DomainParse
    ensures { result ≡ domain_form text.now declared named at }
{
    let own = match next_domain(text, declared, at) {
        Ok(number) => number,
        Err(refusal) => return refused_domain(named, refusal),
    };
    match bracketed_number(text, b"share", LEAST_SHARE, MOST_SHARE, own.end) {
        Err(refusal) => refused_domain(named, refusal),
        Ok(share) => may_form(text, own.value, named, share.value, share.end),
    }
}
