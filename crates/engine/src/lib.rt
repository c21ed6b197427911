// The entry points of a run: each looks at what it was lent, refuses or does its work, and answers
// every input.
#![tactic(auto)]

pub mod checks;
pub mod keeping;
pub mod lending;
pub mod log_query;
pub mod running;
pub mod starting;

// How a run came to its end: the limit was reached first, or the run is over.
#[derive(Drop)]
pub enum Ending {
    Stopped,
    Ended,
}

// The log that a run is lent: a whole one, which is divided among the declared domains, or one
// domain's part, with the domain and how many records a part holds. Not an Option: a None would
// have to stand for the whole log. Nor one type with `Keep`: `run_keeping` takes the quota beside a
// Keep, which holds for every domain.
#[derive(Clone, Copy)]
pub enum LentLog {
    Whole,
    Part(u32, u64),
}

// What a run that was not refused answers, beside the state, the cache table, the boxes and the
// log.
#[derive(Drop)]
pub struct Answer {
    // the number of steps done
    pub steps: u64,
    pub ending: Ending,
}
