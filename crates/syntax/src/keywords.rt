// A word that is one of five. How many letters it has is looked at first: at most two of the five
// are as long. Not a match on byte strings: of its last arm a proof is told nothing that it can
// use. Two functions for each step, and no generic one over a list of five words: that one would
// look at each word in turn, and not at the lengths first.
ghost use Rattle.std.specs.Prelude.{◌≡◌, ◌≤◌, length, Err};
ghost use Rattle.syntax.specs.Keywords.{follows, form_words, keyword_at, op_words};

use crate::tokens::{same_bytes, word_at};
use crate::{FormWord, OpWord, Span};
use refusal::Refusal;

// Which op's word stands there.
#[tactic(auto, using(crate::proofs::Words::other_length), unfolding(crate::specs::Keywords::follows, crate::specs::Tokens::is_word, lists::specs::Ascii::bytes_of, lists::specs::Part::part))]
fn op_word(text: &[u8], word: Span) -> Result<(OpWord, usize), Refusal>
    requires { (word.start ≤ word.end) × (word.end ≤ length text.now) }
    ensures { result ≡ follows op_words text.now word.start word.end Err }
{
    let letters = &text[word.start..word.end];
    if letters.len() == b"read".len() {
        if same_bytes(letters, b"read") {
            return Ok((OpWord::Read, word.end));
        }
        if same_bytes(letters, b"send") {
            return Ok((OpWord::Send, word.end));
        }
    }
    if letters.len() == b"write".len() {
        if same_bytes(letters, b"write") {
            return Ok((OpWord::Write, word.end));
        }
    }
    if letters.len() == b"receive".len() {
        if same_bytes(letters, b"receive") {
            return Ok((OpWord::Receive, word.end));
        }
        if same_bytes(letters, b"compute") {
            return Ok((OpWord::Compute, word.end));
        }
    }
    Err(Refusal::BrokenShape(word.start))
}

// Which form's word stands there.
#[tactic(auto, using(crate::proofs::Words::other_length), unfolding(crate::specs::Keywords::follows, crate::specs::Tokens::is_word, lists::specs::Ascii::bytes_of, lists::specs::Part::part))]
fn form_word(text: &[u8], word: Span) -> Result<(FormWord, usize), Refusal>
    requires { (word.start ≤ word.end) × (word.end ≤ length text.now) }
    ensures { result ≡ follows form_words text.now word.start word.end Err }
{
    let letters = &text[word.start..word.end];
    if letters.len() == b"op".len() {
        if same_bytes(letters, b"op") {
            return Ok((FormWord::Op, word.end));
        }
    }
    if letters.len() == b"pad".len() {
        if same_bytes(letters, b"pad") {
            return Ok((FormWord::Pad, word.end));
        }
        if same_bytes(letters, b"run") {
            return Ok((FormWord::Run, word.end));
        }
    }
    if letters.len() == b"domain".len() {
        if same_bytes(letters, b"domain") {
            return Ok((FormWord::Domain, word.end));
        }
        if same_bytes(letters, b"window") {
            return Ok((FormWord::Window, word.end));
        }
    }
    Err(Refusal::BrokenShape(word.start))
}

// The word of an op was due.
pub fn op_keyword_at(text: &[u8], at: usize) -> Result<(OpWord, usize), Refusal>
    ensures { result ≡ keyword_at op_words text.now at }
{
    let word = word_at(text, at)?;
    op_word(text, word)
}

// The word of a form was due.
pub fn form_keyword_at(text: &[u8], at: usize) -> Result<(FormWord, usize), Refusal>
    ensures { result ≡ keyword_at form_words text.now at }
{
    let word = word_at(text, at)?;
    form_word(text, word)
}
