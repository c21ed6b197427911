// The library for programs in other languages: every entry point over numbers and slices. Each
// takes any input, and returns the refusal's number. C lends each table by itself: so each is a
// parameter of its own.
#![tactic(auto)]

pub mod answers;
pub mod bounding;
pub mod finishing;
pub mod framing;
pub mod keeping;
pub mod log_query;
pub mod offsets;
pub mod plans;
pub mod reading;
pub mod running;
pub mod starting;
pub mod states;
pub mod writing;

// Where a domain's log lies: the offset of its first byte within the lent log, and how many bytes
// it has.
#[derive(Clone, Copy)]
pub struct LogPart {
    pub offset: u64,
    pub length: u64,
}
