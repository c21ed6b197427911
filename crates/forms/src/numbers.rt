// The number of a domain: one that is declared, or the one that is due next. Two functions that
// differ in a test: one with the test as a closure, with its contract, would save no line.
ghost use Rattle.std.specs.Prelude.{◌≡◌};
ghost use Rattle.forms.specs.Forms.{declared_domain, next_domain};

use refusal::Refusal;
use script::limits::LAST_DOMAIN;
use syntax::Numeral;
use syntax::tokens::take_number;

// The number of a domain that is declared above.
#[tactic(auto, unfolding(crate::specs::Forms::declared_domain))]
pub fn declared_domain(text: &[u8], declared: u32, at: usize) -> Result<Numeral, Refusal>
    ensures { result ≡ declared_domain text.now declared at }
{
    let domain = take_number(text, 0, LAST_DOMAIN, at)?;
    if domain.value < declared {
        Ok(domain)
    } else {
        Err(Refusal::WrongDomain(domain.start))
    }
}

// The number that the next domain has.
#[tactic(auto, unfolding(crate::specs::Forms::next_domain))]
pub fn next_domain(text: &[u8], declared: u32, at: usize) -> Result<Numeral, Refusal>
    ensures { result ≡ next_domain text.now declared at }
{
    let domain = take_number(text, 0, LAST_DOMAIN, at)?;
    if domain.value != declared {
        return Err(Refusal::WrongDomain(domain.start));
    }
    Ok(domain)
}
