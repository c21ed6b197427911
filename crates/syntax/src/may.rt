// A list of recipients, none or more: 8 for the domain's own number or a repeat.
ghost use Rattle.std.specs.Prelude.{◌≡◌, ◌+◌, ◌<◌, ◌^◌};
ghost use Rattle.plan.specs.Limits.{most_domains};
ghost use Rattle.syntax.specs.Recipients.{mention, next_recipient, recipient_at, recipients_at};

use crate::tokens::{pass_close, take_number};
use crate::{RecipientItem, RecipientList};
use plan::sharing::has_bit;
use refusal::Refusal;
use script::limits::LAST_DOMAIN;

// One recipient more was due, other than `own` and those of `rights`.
#[tactic(auto, unfolding(crate::specs::Recipients::next_recipient))]
fn next_recipient(text: &[u8], own: u32, rights: u32, at: usize) -> Result<RecipientItem, Refusal>
    ensures { result ≡ next_recipient text.now own rights at }
{
    let number = take_number(text, 0, LAST_DOMAIN, at)?;
    if (number.value == own) | has_bit(rights, number.value) {
        return Err(Refusal::BadRecipient(number.start));
    }
    Ok(RecipientItem::Next {
        recipient: number.value,
        start: number.start,
        end: number.end,
    })
}

// What stands next in the list: its closing bracket, or one recipient more.
#[tactic(auto, unfolding(crate::specs::Recipients::recipient_at))]
fn recipient_at(text: &[u8], own: u32, rights: u32, at: usize) -> Result<RecipientItem, Refusal>
    ensures { result ≡ recipient_at text.now own rights at }
{
    match pass_close(text, at) {
        Ok(end) => Ok(RecipientItem::Done(end)),
        Err(_) => next_recipient(text, own, rights, at),
    }
}

// The text names a domain as a recipient: the first time counts, kept as its offset + 1.
fn note_mention(named: &mut [usize; 8], recipient: u32, start: usize)
    requires { (recipient < most_domains) × (start + 1 < 2 ^ 64) }
    ensures { named.new ≡ mention named.old recipient start }
{
    let index = recipient as usize;
    if named[index] == 0 {
        named[index] = start + 1;
    }
}

// The list of domain `own` from `at` on, up to its closing bracket or a refusal.
pub fn recipients_at(text: &[u8], own: u32, named: [usize; 8], at: usize) -> RecipientList
    ensures { result ≡ recipients_at text.now own named at }
{
    let mut rights: u32 = 0;
    let mut marked = named;
    let mut here = at;
    // No `for`: a turn goes on behind its recipient, and the list ends where its bracket stands.
    loop {
        let item = match recipient_at(text, own, rights, here) {
            Ok(item) => item,
            Err(refusal) => {
                return RecipientList {
                    passed: Err(refusal),
                    rights,
                    named: marked,
                };
            }
        };
        match item {
            RecipientItem::Next {
                recipient,
                start,
                end,
            } => {
                rights += 1 << recipient;
                note_mention(&mut marked, recipient, start);
                here = end;
            }
            RecipientItem::Done(end) => {
                return RecipientList {
                    passed: Ok(end),
                    rights,
                    named: marked,
                };
            }
        }
    }
}
