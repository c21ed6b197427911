// Why a call is refused, and the number and companion by which a caller is told.
#![tactic(auto)]

ghost use Rattle.std.specs.Prelude.{◌≡◌};
ghost use Rattle.refusal.specs.Code.{code_of, code_with, refusal_code};

// The rows of document 01's table of refusals, and those that document 02 adds (15 by E1, 16 by E2,
// 17 by E4, 18 by E6), one case each. What a case holds is its companion.
#[derive(Clone, Copy, Debug, PartialEq, Eq)]
pub enum Refusal {
    TextTooLong,
    BrokenShape(usize),
    NumberOutOfLimits(usize),
    WrongDomain(usize),
    RepeatedOrMissing(usize),
    NoColour(usize),
    SharesOverThousand(usize),
    BadRecipient(usize),
    RunTooLong,
    TooMany(usize),
    WrongLength,
    ImpossiblePlan,
    DamagedTable,
    ImpossibleState,
    FrameOutOfLimits,
    ColoursOverFifteen(usize),
    BufferTooShort(usize),
    LatestOutOfLimits(usize),
}

// A refusal as its number and its companion, as the functions for C answer it; 0 and 0 for
// acceptance.
#[derive(Clone, Copy, Debug, PartialEq, Eq)]
pub struct Code {
    pub number: u32,
    pub companion: usize,
}

// A number with its companion.
fn code_with(number: u32, companion: usize) -> Code
    ensures { result ≡ code_with number companion }
{
    Code { number, companion }
}

// The number and the companion of a refusal.
impl From<Refusal> for Code {
    ghost from_gives = { λ refusal code. code ≡ refusal_code refusal };

    fn from(refusal: Refusal) -> Code {
        match refusal {
            Refusal::TextTooLong => code_with(1, 0),
            Refusal::BrokenShape(offset) => code_with(2, offset),
            Refusal::NumberOutOfLimits(offset) => code_with(3, offset),
            Refusal::WrongDomain(offset) => code_with(4, offset),
            Refusal::RepeatedOrMissing(offset) => code_with(5, offset),
            Refusal::NoColour(domain) => code_with(6, domain),
            Refusal::SharesOverThousand(sum) => code_with(7, sum),
            Refusal::BadRecipient(offset) => code_with(8, offset),
            Refusal::RunTooLong => code_with(9, 0),
            Refusal::TooMany(offset) => code_with(10, offset),
            Refusal::WrongLength => code_with(11, 0),
            Refusal::ImpossiblePlan => code_with(12, 0),
            Refusal::DamagedTable => code_with(13, 0),
            Refusal::ImpossibleState => code_with(14, 0),
            Refusal::FrameOutOfLimits => code_with(15, 0),
            Refusal::ColoursOverFifteen(total) => code_with(16, total),
            Refusal::BufferTooShort(needed) => code_with(17, needed),
            Refusal::LatestOutOfLimits(domain) => code_with(18, domain),
        }
    }
}

// The number and the companion of a call's own answer, that it did its work or its refusal. No
// From: who converts a Result writes no less, and the definition code_of has this name.
pub fn code_of(verdict: Result<(), Refusal>) -> Code
    ensures { result ≡ code_of verdict }
{
    match verdict {
        Ok(()) => code_with(0, 0),
        Err(refusal) => Code::from(refusal),
    }
}
