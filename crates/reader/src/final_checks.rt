// The checks of a whole text, once no line of it was refused; and the masks of a plan that passes
// them.
ghost use Rattle.std.specs.Prelude.{◌≡◌};
ghost use Rattle.plan.specs.Bounds.{ColoursBounded, SharesBounded, TicksBounded};
ghost use Rattle.reader.specs.Final.{earlier_kept, final_verdict, first_colourless};
ghost use Rattle.reader.specs.Final.{lacking, may_verdict, plan_with_masks};
ghost use Rattle.reader.specs.Final.{shares_verdict, undeclared_mentions};

use crate::Draft;
use plan::Plan;
use plan::limits::{DOMAIN_COLOURS, DOMAIN_ENTRIES, MOST_RUN_TICKS, MOST_SHARES};
use plan::sharing::{colours_of, colours_total, masks_of, shares_total};
use plan::timing::ticks_total;
use refusal::Refusal;

// No pad, domain, window or run.
fn is_lacking(plan: Plan) -> bool
    ensures { result ≡ lacking plan }
{
    (plan.pad == 0) | (plan.domains == 0) | (plan.windows == 0) | (plan.run == 0)
}

// The earlier of two offsets, each plus one, or 0 for none: the definition of the name has numbers,
// no `Option`.
fn earlier_kept(a: usize, b: usize) -> usize
    ensures { result ≡ earlier_kept a b }
{
    if a == 0 {
        return b;
    }
    if b == 0 {
        return a;
    }
    a.min(b)
}

// Whether some list names a domain that is not declared: where the text does so first.
fn may_verdict(named: [usize; DOMAIN_ENTRIES], declared: u32) -> Result<(), Refusal>
    ensures { result ≡ may_verdict (undeclared_mentions named declared) }
{
    let mut found: usize = 0;
    // A range, and no slice of `named`: nothing says here that `declared` is at most its length.
    for domain in declared as usize..DOMAIN_ENTRIES {
        found = earlier_kept(found, named[domain]);
    }
    if found == 0 {
        return Ok(());
    }
    Err(Refusal::WrongDomain(found - 1))
}

// The lowest domain whose share gives no colour; the number of domains where each gives one, and no
// Option: so the definition first_colourless answers.
fn first_colourless(plan: Plan) -> usize
    requires { SharesBounded plan }
    ensures { result ≡ first_colourless plan plan.domains 0 }
{
    let shares = plan.shares;
    let domains = plan.domains as usize;
    (0..domains)
        .position(|domain| colours_of(shares[domain]) == 0)
        .unwrap_or(domains)
}

// Whether the shares fit: all together, by the colours that they give, and each by itself.
fn shares_verdict(plan: Plan) -> Result<(), Refusal>
    requires { SharesBounded plan }
    ensures { result ≡ shares_verdict plan }
{
    let shares = shares_total(plan) as usize;
    if (MOST_SHARES as usize) < shares {
        return Err(Refusal::SharesOverThousand(shares));
    }
    let colours = colours_total(plan) as usize;
    if (DOMAIN_COLOURS as usize) < colours {
        return Err(Refusal::ColoursOverFifteen(colours));
    }
    let colourless = first_colourless(plan);
    if colourless < plan.domains as usize {
        return Err(Refusal::NoColour(colourless));
    }
    Ok(())
}

// The checks in their order.
pub fn final_verdict(length: usize, draft: Draft) -> Result<(), Refusal>
    requires { SharesBounded draft.plan × TicksBounded draft.plan }
    ensures { result ≡ final_verdict length draft }
{
    let plan = draft.plan;
    if is_lacking(plan) {
        return Err(Refusal::RepeatedOrMissing(length));
    }
    may_verdict(draft.named, plan.domains)?;
    shares_verdict(plan)?;
    if MOST_RUN_TICKS < ticks_total(plan) {
        return Err(Refusal::RunTooLong);
    }
    Ok(())
}

// An accepted plan keeps its colour masks.
pub fn plan_with_masks(plan: Plan) -> Plan
    requires { ColoursBounded plan }
    ensures { result ≡ plan_with_masks plan }
{
    let masks = masks_of(plan);
    let mut kept = plan;
    kept.masks = masks;
    kept
}
