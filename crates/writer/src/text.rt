// The text, line by line, written into a buffer. A loop for each kind of line: one that takes the
// writer of a line as a closure would lend it the buffer, and each call be as long.
ghost use Rattle.std.specs.Prelude.{true, ◌≡◌, ◌+◌, ◌^◌, ◌≤◌, ◌<◌, length};
ghost use Rattle.plan.specs.Limits.{most_domains, most_windows};
ghost use Rattle.plan.specs.Validity.{plan_valid};
ghost use Rattle.script.specs.Limits.{last_domain, scripts_length};
ghost use Rattle.lexer.specs.Limits.{widest_digits};
ghost use Rattle.lists.specs.Writing.{Wrote};
ghost use Rattle.writer.specs.Canonical.{canonical_text, followed, lines_from, op_lines_from};
ghost use Rattle.writer.specs.Canonical.{script_lines};
ghost use Rattle.writer.specs.Lines.{domain_line, window_line};

use crate::lines::{write_domain, write_op, write_pad, write_run, write_window};
use plan::Plan;
use script::fetch;
use script::limits::MOST_OPS;

// Writes the lines of all domains.
fn write_domains(out: &mut [u8], at: usize, plan: Plan) -> usize
    requires { (plan.domains ≤ most_domains)
        × (at + length (followed (lines_from (domain_line plan) plan.domains 0)) + widest_digits < 2 ^ 64) }
    ensures { Wrote out.old at (followed (lines_from (domain_line plan) plan.domains 0))
        out.new result }
{
    let shares = plan.shares;
    let rights = plan.rights;
    let domains = plan.domains as usize;
    let mut next = at;
    // A range, no zip: the line has the number too, and both arrays would have to be cut at the
    // count.
    for domain in 0..domains {
        next = write_domain(out, next, domain as u32, shares[domain], rights[domain]);
    }
    next
}

// Writes the lines of all windows.
fn write_windows(out: &mut [u8], at: usize, plan: Plan) -> usize
    requires { (plan.windows ≤ most_windows)
        × (at + length (followed (lines_from (window_line plan) plan.windows 0)) + widest_digits < 2 ^ 64) }
    ensures { Wrote out.old at (followed (lines_from (window_line plan) plan.windows 0))
        out.new result }
{
    let owners = plan.owners;
    let lengths = plan.lengths;
    let windows = plan.windows as usize;
    let mut next = at;
    // A range, no zip: both arrays would have to be cut at the count.
    for slot in 0..windows {
        next = write_window(out, next, owners[slot], lengths[slot]);
    }
    next
}

// Writes the lines of a domain's script.
fn write_script(out: &mut [u8], at: usize, scripts: &[u32], domain: usize) -> usize
    requires { (length scripts.now ≡ scripts_length)
        × (domain ≤ last_domain)
        × (at + length (followed (script_lines scripts.now domain)) + widest_digits < 2 ^ 64) }
    ensures { Wrote out.old at (followed (script_lines scripts.now domain))
        out.new result }
{
    let mut next = at;
    for position in 0..MOST_OPS as u64 {
        match fetch(scripts, domain, position) {
            Some(op) => next = write_op(out, next, domain as u32, op),
            None => return next,
        }
    }
    next
}

// Writes the lines of the scripts of all declared domains.
fn write_scripts(out: &mut [u8], at: usize, scripts: &[u32], domains: usize) -> usize
    requires { (length scripts.now ≡ scripts_length)
        × (domains ≤ most_domains)
        × (at + length (followed (op_lines_from scripts.now domains 0)) + widest_digits < 2 ^ 64) }
    ensures { Wrote out.old at (followed (op_lines_from scripts.now domains 0))
        out.new result }
{
    let mut next = at;
    for domain in 0..domains {
        next = write_script(out, next, scripts, domain);
    }
    next
}

// Writes the text of a plan and its scripts.
pub fn write_text(out: &mut [u8], plan: Plan, scripts: &[u32]) -> usize
    requires { (plan_valid plan ≡ true) × (length scripts.now ≡ scripts_length) }
    ensures { Wrote out.old 0 (canonical_text plan scripts.now)
        out.new result }
{
    let padded = write_pad(out, plan.pad);
    let shared = write_domains(out, padded, plan);
    let windowed = write_windows(out, shared, plan);
    let repeated = write_run(out, windowed, plan.run);
    write_scripts(out, repeated, scripts, plan.domains as usize)
}
