// The lines, each written into a buffer from an offset on. Each function answers the offset past
// what it wrote. A line other than the first is written with the LF before it.
ghost use Rattle.std.specs.Prelude.{cond, [], ◌++◌, ◌+◌, ◌^◌, ◌<◌, length};
ghost use Rattle.lists.specs.Ascii.{bytes_of};
ghost use Rattle.plan.specs.Colours.{has_bit};
ghost use Rattle.plan.specs.Limits.{most_domains};
ghost use Rattle.lexer.specs.Decimal.{decimal_of};
ghost use Rattle.lexer.specs.Limits.{widest_digits};
ghost use Rattle.lists.specs.Writing.{Wrote};
ghost use Rattle.writer.specs.Lines.{domain_text, op_line, op_text, pad_text, recipients_of, run_text};
ghost use Rattle.writer.specs.Lines.{spaced, window_text};

use lexer::decimal::{write_bytes, write_numbered};
use plan::limits::MOST_DOMAINS;
use plan::sharing::has_bit;
use script::Op;

// Writes the line of the pad, the first one.
pub fn write_pad(out: &mut [u8], ticks: u32) -> usize
    ensures { Wrote out.old 0 (pad_text ticks) out.new result }
{
    let end = write_numbered(out, 0, b"(pad ", ticks as u64);
    write_bytes(out, end, b")")
}

// Writes a domain after a space where it is among the recipients.
fn write_recipient(out: &mut [u8], at: usize, rights: u32, domain: u32) -> usize
    requires { (domain < most_domains) × (at + 1 + widest_digits < 2 ^ 64) }
    ensures { Wrote out.old at (cond (has_bit rights domain) (bytes_of " " ++ decimal_of domain) [])
        out.new result }
{
    if !has_bit(rights, domain) {
        return at;
    }
    write_numbered(out, at, b" ", domain as u64)
}

// Writes the recipients of a domain, by a loop of its own, as each kind of line has in `text`.
fn write_recipients(out: &mut [u8], at: usize, rights: u32) -> usize
    requires { at + length (spaced (recipients_of rights)) + 1 + widest_digits < 2 ^ 64 }
    ensures { Wrote out.old at (spaced (recipients_of rights)) out.new result }
{
    let mut next = at;
    for domain in 0..MOST_DOMAINS {
        next = write_recipient(out, next, rights, domain);
    }
    next
}

// Writes the line of a domain.
pub fn write_domain(out: &mut [u8], at: usize, domain: u32, share: u32, rights: u32) -> usize
    requires { at + length (bytes_of "\n" ++ domain_text domain share rights) + widest_digits < 2 ^ 64 }
    ensures { Wrote out.old at (bytes_of "\n" ++ domain_text domain share rights)
        out.new result }
{
    let numbered = write_numbered(out, at, b"\n(domain ", domain as u64);
    let shared = write_numbered(out, numbered, b"(share ", share as u64);
    let worded = write_bytes(out, shared, b")(may");
    let listed = write_recipients(out, worded, rights);
    write_bytes(out, listed, b"))")
}

// Writes the line of a window.
pub fn write_window(out: &mut [u8], at: usize, owner: u32, ticks: u32) -> usize
    requires { at + length (bytes_of "\n" ++ window_text owner ticks) + widest_digits < 2 ^ 64 }
    ensures { Wrote out.old at (bytes_of "\n" ++ window_text owner ticks)
        out.new result }
{
    let owned = write_numbered(out, at, b"\n(window ", owner as u64);
    let long = write_numbered(out, owned, b"(length ", ticks as u64);
    write_bytes(out, long, b"))")
}

// Writes the line of the run. Not one function with write_pad: it would be handed the word and the
// number, and write no less.
pub fn write_run(out: &mut [u8], at: usize, times: u32) -> usize
    requires { at + length (bytes_of "\n" ++ run_text times) + widest_digits < 2 ^ 64 }
    ensures { Wrote out.old at (bytes_of "\n" ++ run_text times)
        out.new result }
{
    let end = write_numbered(out, at, b"\n(run ", times as u64);
    write_bytes(out, end, b")")
}

// Writes an op's word and its numbers.
fn write_op_words(out: &mut [u8], at: usize, op: Op) -> usize
    requires { at + length (op_text op) + widest_digits < 2 ^ 64 }
    ensures { Wrote out.old at (op_text op) out.new result }
{
    match op {
        Op::Read(line) => write_numbered(out, at, b"(read ", line as u64),
        Op::Write(line) => write_numbered(out, at, b"(write ", line as u64),
        Op::Send(recipient, word) => {
            let sent = write_numbered(out, at, b"(send ", recipient as u64);
            write_numbered(out, sent, b" ", word as u64)
        }
        Op::Receive(sender) => write_numbered(out, at, b"(receive ", sender as u64),
        Op::Compute(ticks) => write_numbered(out, at, b"(compute ", ticks as u64),
    }
}

// Writes the line of an op.
pub fn write_op(out: &mut [u8], at: usize, domain: u32, op: Op) -> usize
    requires { at + length (bytes_of "\n" ++ op_line domain op) + widest_digits < 2 ^ 64 }
    ensures { Wrote out.old at (bytes_of "\n" ++ op_line domain op)
        out.new result }
{
    let numbered = write_numbered(out, at, b"\n(op ", domain as u64);
    let worded = write_op_words(out, numbered, op);
    write_bytes(out, worded, b"))")
}
