// The lines of a text, each taken up as it is read. Nearly all lines of a long text are op lines,
// so the parts of the draft are kept apart, and an op line touches only the counts and the store.
ghost use Rattle.std.specs.Prelude.{List, ◌≡◌, ℕ, ◌≤◌, length};
ghost use Rattle.line.specs.Heads.{op_line_of};
ghost use Rattle.plan.specs.Limits.{most_domains};
ghost use Rattle.reader.specs.Draft.{no_draft, outcome_of};
ghost use Rattle.reader.specs.DraftParts.{TakenOp, draft_with, outcome_with};
ghost use Rattle.reader.specs.Read.{walk_from};

use crate::drafting::{form_verdict, no_draft, plan_with_form, take_op};
use crate::{Draft, DraftResult};
use line::{Head, head_at, line_of, op_line};
use plan::Plan;
use plan::limits::DOMAIN_ENTRIES;
use refusal::Refusal;
use script::limits::SCRIPTS_LENGTH;

// An op line is taken up, from past its word: the offset of its end, or the refusal, with counts
// and store as they were.
fn take_op_line(
    text: &[u8],
    declared: u32,
    bracket: usize,
    inside: usize,
    counts: &mut [usize; DOMAIN_ENTRIES],
    store: &mut [u32; SCRIPTS_LENGTH],
) -> Result<usize, Refusal>
    requires { declared ≤ most_domains }
    ensures { (plan : Plan) (named : List ℕ) → TakenOp result
        (op_line_of text.now declared named bracket inside)
        (draft_with plan counts.old named) store.old
        (draft_with plan counts.new named) store.new }
{
    let (line, end) = op_line(text, declared, inside)?;
    take_op(line, bracket, counts, store)?;
    Ok(end)
}

// What lines come to, by the parts of the draft.
fn draft_result(
    verdict: Result<(), Refusal>,
    plan: Plan,
    counts: [usize; DOMAIN_ENTRIES],
    named: [usize; DOMAIN_ENTRIES],
) -> DraftResult
    ensures { (store : List ℕ)
        → outcome_of result store ≡ outcome_with verdict (draft_with plan counts named) store }
{
    let draft = Draft {
        plan,
        counts,
        named,
    };
    DraftResult { verdict, draft }
}

// Every line is taken up in turn, or the first refusal is handed on, with draft and store as they
// were before the refused line.
pub fn walk(text: &[u8], store: &mut [u32; SCRIPTS_LENGTH]) -> DraftResult
    ensures { outcome_of result store.new
        ≡ walk_from (length text.now) text.now 0 no_draft store.old }
{
    let first = no_draft();
    let mut plan = first.plan;
    let mut counts = first.counts;
    let mut named = first.named;
    let mut at: usize = 0;
    // No `for`: a turn goes on behind the end of its line.
    while at < text.len() {
        let declared = plan.domains;
        let head = head_at(text, at);
        let plain = match head {
            Head::Plain(other) => other,
            Head::Op { bracket, inside } => {
                let taken = take_op_line(text, declared, bracket, inside, &mut counts, store);
                let end = match taken {
                    Ok(offset) => offset,
                    Err(refusal) => return draft_result(Err(refusal), plan, counts, named),
                };
                at = end + 1;
                continue;
            }
        };
        let line = line_of(text, declared, named, plain);
        let form = match line.form {
            Ok(form) => form,
            Err(refusal) => return draft_result(Err(refusal), plan, counts, named),
        };
        let verdict = form_verdict(form, line.bracket, plan.pad, plan.run, plan.windows);
        if let Err(refusal) = verdict {
            return draft_result(Err(refusal), plan, counts, named);
        }
        plan = plan_with_form(plan, form);
        named = line.named;
        at = line.end + 1;
    }
    draft_result(Ok(()), plan, counts, named)
}
