// What a good line adds to the plan and the scripts; at a line's end 5 and 10.
ghost use Rattle.std.specs.Prelude.{List, ◌≡◌, ℕ, ◌<◌};
ghost use Rattle.forms.specs.declared.Form.TheVariants.{Domain, Window};
ghost use Rattle.plan.specs.Limits.{most_domains, most_windows};
ghost use Rattle.reader.specs.Draft.{no_draft, take_op};
ghost use Rattle.reader.specs.DraftParts.{draft_with, form_verdict, outcome_with, plan_with_form};

use crate::Draft;
use forms::{DomainLine, Form, OpLine, WindowLine};
use plan::limits::{DOMAIN_ENTRIES, MOST_WINDOWS};
use plan::{Plan, no_plan};
use refusal::Refusal;
use script::limits::{MOST_OPS, SCRIPTS_LENGTH};
use script::stored;

// Before the first line nothing is declared, named or stored.
pub fn no_draft() -> Draft
    ensures { result ≡ no_draft }
{
    let plan = no_plan();
    Draft {
        plan,
        counts: [0; DOMAIN_ENTRIES],
        named: [0; DOMAIN_ENTRIES],
    }
}

// What is held against a form other than an op: a second pad or run, or a 33rd window. A domain
// line always fits: its number was the next one.
pub fn form_verdict(
    form: Form,
    bracket: usize,
    pad: u32,
    run: u32,
    windows: u32,
) -> Result<(), Refusal>
    ensures { result ≡ form_verdict form bracket pad run windows }
{
    match form {
        Form::Blank => Ok(()),
        Form::Pad(_) => {
            if pad != 0 {
                return Err(Refusal::RepeatedOrMissing(bracket));
            }
            Ok(())
        }
        Form::Run(_) => {
            if run != 0 {
                return Err(Refusal::RepeatedOrMissing(bracket));
            }
            Ok(())
        }
        Form::Domain(_) => Ok(()),
        Form::Window(_) => {
            if MOST_WINDOWS <= windows {
                return Err(Refusal::TooMany(bracket));
            }
            Ok(())
        }
        Form::Op(_) => Ok(()),
    }
}

// A plan with what a form adds to it: a pad, a run, or a domain or a window at the next index.
pub fn plan_with_form(mut plan: Plan, form: Form) -> Plan
    requires { ((line : DomainLine) → form ≡ Domain line → plan.domains < most_domains)
        × ((line : WindowLine) → form ≡ Window line → plan.windows < most_windows) }
    ensures { result ≡ plan_with_form plan form }
{
    match form {
        Form::Blank => {}
        Form::Pad(ticks) => {
            plan.pad = ticks;
        }
        Form::Run(times) => {
            plan.run = times;
        }
        Form::Domain(line) => {
            let next = plan.domains as usize;
            plan.shares[next] = line.share;
            plan.rights[next] = line.rights;
            plan.domains += 1;
        }
        Form::Window(line) => {
            let next = plan.windows as usize;
            plan.owners[next] = line.owner;
            plan.lengths[next] = line.length;
            plan.windows += 1;
        }
        Form::Op(_) => {}
    }
    plan
}

// A domain's 257th op is refused. What a draft holds beside the counts stays as it is, whatever it
// is, so a caller need not hand a whole draft on for an op.
pub fn take_op(
    line: OpLine,
    bracket: usize,
    counts: &mut [usize; DOMAIN_ENTRIES],
    store: &mut [u32; SCRIPTS_LENGTH],
) -> Result<(), Refusal>
    requires { line.domain < most_domains }
    ensures { (plan : Plan) (named : List ℕ)
        → outcome_with result (draft_with plan counts.new named) store.new
        ≡ take_op line bracket (draft_with plan counts.old named) store.old }
{
    let domain = line.domain as usize;
    let op = line.op;
    let index = counts[domain];
    if MOST_OPS <= index {
        return Err(Refusal::TooMany(bracket));
    }
    store[MOST_OPS * domain + index] = stored(op);
    counts[domain] = index + 1;
    Ok(())
}
