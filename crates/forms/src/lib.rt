// The five forms of a line, past the word that opens each: what the form says, or the refusal with
// its offset. The parameters of a function are those of the definition in specs/Forms that its
// contract names, and so are two where a struct could hold them.
#![tactic(auto)]

pub mod domains;
mod numbers;
pub mod op_lines;
pub mod pad_and_run;
pub mod windows;

use refusal::Refusal;
use script::Op;

// A domain's share and its recipients, bit b for domain b. Its number is the next one.
#[derive(Clone, Copy)]
pub struct DomainLine {
    pub share: u32,
    pub rights: u32,
}

// A window's domain and its ticks.
#[derive(Clone, Copy)]
pub struct WindowLine {
    pub owner: u32,
    pub length: u32,
}

// An op and the domain whose script it goes to.
#[derive(Clone, Copy)]
pub struct OpLine {
    pub domain: u32,
    pub op: Op,
}

// What a line says.
#[derive(Clone, Copy)]
pub enum Form {
    Blank,
    Pad(u32),
    Run(u32),
    Domain(DomainLine),
    Window(WindowLine),
    Op(OpLine),
}

// A domain form and the offset past what stands within its brackets, or the refusal; beside
// either the recipients that it names.
#[derive(Clone, Copy)]
pub struct DomainParse {
    pub parse: Result<(Form, usize), Refusal>,
    // where the text up to there first names each domain as a recipient, plus one; else 0. No
    // `Option`: the definition `mention` (syntax) has them as numbers.
    pub named: [usize; 8],
}
