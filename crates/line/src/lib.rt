// One line of a plan text: its opening bracket, the form that its word opens, its closing bracket
// and its end; or the refusal with its offset. The beginning of a line is read first, so that an op
// line, of which a long text has the most, is read without what the other lines carry. The
// parameters of a function are those of the definition in specs/ that its contract names.
#![tactic(auto)]

ghost use Rattle.std.specs.Prelude.{List, ◌≡◌, ℕ, ◌+◌, ◌^◌, ◌<◌};
ghost use Rattle.line.specs.Heads.{closed_end, form_head, head_at, line_of, op_line_of, op_line_with};
ghost use Rattle.line.specs.Lines.{closed_line, noted_line, refused_line};

use forms::domains::domain_form;
use forms::op_lines::op_form;
use forms::pad_and_run::{pad_form, run_form};
use forms::windows::window_form;
use forms::{DomainParse, Form, OpLine};
use lexer::{Lookahead, first_in_line, lookahead_start};
use refusal::Refusal;
use syntax::FormWord;
use syntax::keywords::form_keyword_at;
use syntax::tokens::{pass_close, pass_line_end};

// A line's form or its refusal, the offset of its first bracket, and the offset of its end.
#[derive(Drop)]
pub struct Line {
    pub form: Result<Form, Refusal>,
    pub bracket: usize,
    pub end: usize,
    // where the text up to there first names each domain as a recipient, plus one; else 0. No
    // `Option`: the definition `mention` (syntax) has them as numbers.
    pub named: [usize; 8],
}

// The beginning of a line, up to the word that opens its form: an op's apart from the others.
#[derive(Drop)]
pub enum Head {
    // the offset of the opening bracket, and that past the word
    Op { bracket: usize, inside: usize },
    Plain(PlainHead),
}

// The beginning of a line that opens no op. A refused one is among them, and no Err: `line_of`
// tells its bracket, and what is named, as of any other line.
#[derive(Drop)]
pub enum PlainHead {
    // a line without a token, and the offset of its end
    Blank(usize),
    // no form is opened: the offset of the line's first token, and the refusal
    Refused { bracket: usize, refusal: Refusal },
    // the offset of the opening bracket, and that past the word. Not one case with a `FormWord`:
    // that can be `Op` too, which opens no plain line.
    Pad { bracket: usize, inside: usize },
    Run { bracket: usize, inside: usize },
    Domain { bracket: usize, inside: usize },
    Window { bracket: usize, inside: usize },
}

// The beginning of a line past its opening bracket, by the word that stands there.
#[tactic(auto, unfolding(crate::specs::Heads::form_head))]
fn form_head(text: &[u8], bracket: usize) -> Head
    requires { bracket + 1 < 2 ^ 64 }
    ensures { result ≡ form_head text.now bracket }
{
    let (word, inside) = match form_keyword_at(text, bracket + 1) {
        Ok(found) => found,
        Err(refusal) => return Head::Plain(PlainHead::Refused { bracket, refusal }),
    };
    match word {
        FormWord::Pad => Head::Plain(PlainHead::Pad { bracket, inside }),
        FormWord::Run => Head::Plain(PlainHead::Run { bracket, inside }),
        FormWord::Domain => Head::Plain(PlainHead::Domain { bracket, inside }),
        FormWord::Window => Head::Plain(PlainHead::Window { bracket, inside }),
        FormWord::Op => Head::Op { bracket, inside },
    }
}

// The beginning of the line that begins at `at`.
pub fn head_at(text: &[u8], at: usize) -> Head
    ensures { result ≡ head_at text.now at }
{
    let next = first_in_line(text, at);
    if let Lookahead::LineEnd(end) = next {
        return Head::Plain(PlainHead::Blank(end));
    }
    let Lookahead::Open(bracket) = next else {
        let start = lookahead_start(next);
        return Head::Plain(PlainHead::Refused {
            bracket: start,
            refusal: Refusal::BrokenShape(start),
        });
    };
    form_head(text, bracket)
}

// A form's closing bracket and the line's end.
#[tactic(auto, unfolding(crate::specs::Heads::closed_end))]
fn closed_end(text: &[u8], at: usize) -> Result<usize, Refusal>
    ensures { result ≡ closed_end text.now at }
{
    let closed = pass_close(text, at)?;
    pass_line_end(text, closed)
}

// An op line past its word, with `declared` domains above it: what it says and the offset of its
// end. It is the line of any bracket, and it leaves what is named as it was.
pub fn op_line(text: &[u8], declared: u32, inside: usize) -> Result<(OpLine, usize), Refusal>
    ensures { (bracket : ℕ) (named : List ℕ)
        → op_line_with bracket named result
        ≡ op_line_of text.now declared named bracket inside }
{
    let (form, end) = op_form(text, declared, inside)?;
    let ended = closed_end(text, end)?;
    let Form::Op(line) = form else {
        // an op form gives an op, so any answer would do
        return Err(Refusal::BrokenShape(inside));
    };
    Ok((line, ended))
}

// A refused line; on refusal its end is unspecified.
fn refused_line(bracket: usize, named: [usize; 8], refusal: Refusal) -> Line
    ensures { result ≡ refused_line bracket named refusal }
{
    Line {
        form: Err(refusal),
        bracket,
        end: 0,
        named,
    }
}

// A form, its closing bracket and the line's end.
fn closed_line(
    text: &[u8],
    bracket: usize,
    named: [usize; 8],
    parse: Result<(Form, usize), Refusal>,
) -> Line
    ensures { result ≡ closed_line text.now bracket named parse }
{
    let (form, end) = match parse {
        Ok(taken) => taken,
        Err(refusal) => return refused_line(bracket, named, refusal),
    };
    match closed_end(text, end) {
        Err(refusal) => refused_line(bracket, named, refusal),
        Ok(ended) => Line {
            form: Ok(form),
            bracket,
            end: ended,
            named,
        },
    }
}

// The same of a domain form.
#[tactic(auto, unfolding(crate::specs::Lines::noted_line))]
fn noted_line(text: &[u8], bracket: usize, domain: DomainParse) -> Line
    ensures { result ≡ noted_line text.now bracket domain }
{
    let parse = domain.parse;
    let named = domain.named;
    closed_line(text, bracket, named, parse)
}

// The line of a beginning that opens no op, with `declared` domains above it.
pub fn line_of(text: &[u8], declared: u32, named: [usize; 8], head: PlainHead) -> Line
    ensures { result ≡ line_of text.now declared named head }
{
    match head {
        PlainHead::Blank(end) => Line {
            form: Ok(Form::Blank),
            bracket: end,
            end,
            named,
        },
        PlainHead::Pad { bracket, inside } => {
            closed_line(text, bracket, named, pad_form(text, inside))
        }
        PlainHead::Run { bracket, inside } => {
            closed_line(text, bracket, named, run_form(text, inside))
        }
        PlainHead::Domain { bracket, inside } => {
            noted_line(text, bracket, domain_form(text, declared, named, inside))
        }
        PlainHead::Window { bracket, inside } => {
            closed_line(text, bracket, named, window_form(text, declared, inside))
        }
        PlainHead::Refused { bracket, refusal } => refused_line(bracket, named, refusal),
    }
}
