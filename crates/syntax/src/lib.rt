// The parser's parts: what a form asks for, taken token by token (brackets, words and numbers, an
// op, a list of recipients), or the refusal with its offset. Beside what was taken stands the
// offset to go on from. The parameters of a function, as a text and an offset, are those of the
// definition in specs/ that its contract names, and so are two where a struct could hold them.
#![tactic(auto)]

pub mod brackets;
pub mod keywords;
pub mod may;
mod op_tokens;
pub mod tokens;

use refusal::Refusal;

// A number within its limits, with the offset of its first byte and the offset past it (past its
// closing bracket where it has brackets of its own).
#[derive(Clone, Copy)]
pub struct Numeral {
    pub value: u32,
    pub start: usize,
    pub end: usize,
}

// A word, by the offset of its first byte and the offset past its last.
#[derive(Clone, Copy)]
pub struct Span {
    pub start: usize,
    pub end: usize,
}

// The word that opens a form.
#[derive(Clone, Copy)]
pub enum FormWord {
    Pad,
    Run,
    Domain,
    Window,
    Op,
}

// The word that opens an op. No `Op`: its numbers stand behind the word, and are read later.
#[derive(Clone, Copy)]
pub enum OpWord {
    Read,
    Write,
    Send,
    Receive,
    Compute,
}

// What stands next in a list of recipients.
#[derive(Clone, Copy)]
pub enum RecipientItem {
    // one more, with the offset of its first byte and the offset past its last
    Next {
        recipient: u32,
        start: usize,
        end: usize,
    },
    // the list's closing bracket, and the offset past it
    Done(usize),
}

// A list of recipients: the offset past its closing bracket or the refusal, with what was listed up
// to there, which is told beside a refusal too.
#[derive(Clone, Copy)]
pub struct RecipientList {
    pub passed: Result<usize, Refusal>,
    pub rights: u32,
    // where the text up to there first names each domain as a recipient, plus one; else 0. No
    // `Option`: the definition `mention` has them as numbers.
    pub named: [usize; 8],
}
