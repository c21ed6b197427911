// Walks over the bytes of a text from an offset.
ghost use Rattle.std.specs.Prelude.{ℕ, Bool, ◌≡◌, ◌<◌, eqb};
ghost use Rattle.lexer.specs.Bytes.{ends_run, is_no_digit, is_no_letter, is_no_space};
ghost use Rattle.lexer.specs.Scan.{scan_of};

use crate::bytes::ends_run;

// The offset of the first byte from `at` on that ends the walk, or the one past the last byte. Each
// walk below is this one with another test.
fn scan<F: Fn(u8) -> bool>(text: &[u8], at: usize, ends: F) -> usize
    requires { F.IsAlwaysCallable ends }
    ensures { (stops : ℕ → Bool)
        → ((byte : ℕ) (ended : Bool) → byte < 256 → F.post ends byte ended → ended ≡ stops byte)
        → result ≡ scan_of stops text.now at }
{
    let mut here = at;
    // A while: with a `for` over the offsets a text is read 5% slower.
    while here < text.len() {
        if ends(text[here]) {
            return here;
        }
        here += 1;
    }
    here
}

// The offset of the first byte from `at` on that is no space.
pub fn skip_spaces(text: &[u8], at: usize) -> usize
    ensures { result ≡ scan_of is_no_space text.now at }
{
    scan(text, at, |byte| byte != b' ')
}

// The same at a line's beginning, where many spaces may stand: two are looked at in a turn. A loop
// of one is so short that its time would hang on the address at which it happens to be linked.
#[tactic(auto, using(crate::proofs::Scanning::one_turn))]
pub fn skip_indent(text: &[u8], at: usize) -> usize
    ensures { result ≡ scan_of is_no_space text.now at }
{
    let mut here = at;
    // A while: the step is not one.
    while here < text.len() {
        if text[here] != b' ' {
            return here;
        }
        here += 1;
        if here < text.len() {
            if text[here] != b' ' {
                return here;
            }
            here += 1;
        }
    }
    here
}

// Whether a run that has come to `at` ends there.
#[tactic(auto, using(crate::proofs::Scanning::one_look))]
pub fn run_ends(text: &[u8], at: usize) -> bool
    ensures { result ≡ eqb at (scan_of ends_run text.now at) }
{
    if at < text.len() {
        return ends_run(text[at]);
    }
    true
}

// The offset of the first byte from `start` on that is no letter.
pub fn letters_end(text: &[u8], start: usize) -> usize
    ensures { result ≡ scan_of is_no_letter text.now start }
{
    scan(text, start, |byte| !byte.is_ascii_lowercase())
}

// The offset of the first byte from `start` on that is no digit.
pub fn digits_end(text: &[u8], start: usize) -> usize
    ensures { result ≡ scan_of is_no_digit text.now start }
{
    scan(text, start, |byte| !byte.is_ascii_digit())
}
