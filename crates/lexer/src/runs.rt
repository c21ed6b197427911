// A longest run of bytes as a token: a word, a number or neither.
ghost use Rattle.std.specs.Prelude.{true, ◌≡◌, ◌≤◌, length};
ghost use Rattle.lexer.specs.Bytes.{is_digit};
ghost use Rattle.lexer.specs.Limits.{most_digits};
ghost use Rattle.lexer.specs.Lookaheads.{as_number, as_word};
ghost use Rattle.lexer.specs.Scan.{all_bytes};
ghost use Rattle.lexer.specs.Tokens.{decimal_value, digits_token, longest_run};

use crate::Token;
use crate::limits::MOST_DIGITS;
use crate::scan::{digits_end, letters_end, run_ends};

// The number that a run of digits writes. By hand: `parse` takes a `str`, and what it would refuse
// cannot be here.
fn decimal_value(digits: &[u8]) -> u64
    requires { (length digits.now ≤ most_digits) × (all_bytes is_digit digits.now ≡ true) }
    ensures { result ≡ decimal_value digits.now }
{
    let mut value: u64 = 0;
    for digit in digits {
        value = value * 10 + u64::from(*digit - b'0');
    }
    value
}

// A run of digits: a number, or one of too many digits.
#[tactic(auto, unfolding(crate::specs::Tokens::digits_token))]
fn digits_token(run: &[u8], start: usize, end: usize) -> Token
    requires { all_bytes is_digit run.now ≡ true }
    ensures { result ≡ digits_token run.now start end }
{
    if run.len() <= MOST_DIGITS {
        Token::Number {
            start,
            end,
            value: decimal_value(run),
        }
    } else {
        Token::LongNumber { start, end }
    }
}

// The run from `start` on where a word is due: that word, or a run that is none.
#[tactic(auto, using(crate::proofs::LettersAndDigits::word))]
pub fn word_from(text: &[u8], start: usize) -> Token
    ensures { result ≡ as_word (longest_run text.now start) }
{
    let end = letters_end(text, start);
    if run_ends(text, end) {
        Token::Word { start, end }
    } else {
        Token::Other { start, end: start }
    }
}

// The run from `start` on where a number is due: that number, or a run that is none.
#[tactic(auto, using(crate::proofs::LettersAndDigits::number), unfolding(lists::specs::Part::part))]
pub fn number_from(text: &[u8], start: usize) -> Token
    ensures { result ≡ as_number (longest_run text.now start) }
{
    let end = digits_end(text, start);
    if run_ends(text, end) & (start < end) {
        digits_token(&text[start..end], start, end)
    } else {
        Token::Other { start, end: start }
    }
}
