// The plan reader: from a text to a plan and the scripts, or a refusal with its offset. What
// functions here ask of a plan or a length is a definition of the lower crates (`SharesBounded`),
// or one line.
#![tactic(auto)]

mod drafting;
mod final_checks;
mod walk;

ghost use Rattle.std.specs.Prelude.{◌≡◌};
ghost use Rattle.reader.specs.Read.{read_of, read_result};

use final_checks::{final_verdict, plan_with_masks};
use plan::Plan;
use plan::limits::{DOMAIN_ENTRIES, MOST_TEXT_BYTES};
use refusal::Refusal;
use script::limits::SCRIPTS_LENGTH;
use walk::walk;

// What the lines read so far have given, beside the script store. Its numbers, with 0 for none, and
// arrays beside the store are those of the definition `no_draft` (specs/Draft): no heap, fixed
// memory.
#[derive(Clone, Copy)]
pub struct Draft {
    // masks stay 0 until the whole text is read; a pad or a run of 0 stands for none yet
    pub plan: Plan,
    // how many ops of each domain are stored
    pub counts: [usize; DOMAIN_ENTRIES],
    // where the text first names each domain as a recipient, plus one; 0 where it has not
    pub named: [usize; DOMAIN_ENTRIES],
}

// What lines come to: that they were taken up, and the draft with them; or the refusal, and beside
// it the draft as it was before the refused line. No Result of a draft: the definition walk_from
// tells the draft beside a refusal too.
#[derive(Clone, Copy)]
pub struct DraftResult {
    pub verdict: Result<(), Refusal>,
    pub draft: Draft,
}

// A plan text is read: the plan, with its scripts in the store lent, or a refusal. The store is
// written only once every check has passed.
pub fn read_plan(text: &[u8], scripts: &mut [u32]) -> Result<Plan, Refusal>
    ensures { read_result result scripts.new ≡ read_of text.now scripts.old }
{
    if scripts.len() != SCRIPTS_LENGTH {
        return Err(Refusal::WrongLength);
    }
    if MOST_TEXT_BYTES < text.len() {
        return Err(Refusal::TextTooLong);
    }
    let mut store = [0u32; SCRIPTS_LENGTH];
    let walked = walk(text, &mut store);
    walked.verdict?;
    let draft = walked.draft;
    final_verdict(text.len(), draft)?;
    scripts.copy_from_slice(&store);
    Ok(plan_with_masks(draft.plan))
}
