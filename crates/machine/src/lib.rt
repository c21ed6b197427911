// The machine of an accepted plan: the switch, one step and n steps.
#![tactic(auto)]

pub mod stepping;

use state::State;

// Where the running domain stands in its window: all that decides its next step, beside its script.
#[derive(Clone, Copy)]
pub struct Turn {
    // windows completed
    pub windows: u64,
    // the running domain
    pub owner: usize,
    // the window's end
    pub end: u64,
    // how many records each domain's part of the log holds
    pub quota: u64,
    pub clock: u64,
    // the domain's position in its script, and its number of records
    pub position: u64,
    pub records: u64,
}

// What the ops of one window answer, or these and its switch, beside the cache table, the boxes and
// the log.
#[derive(Clone, Copy)]
pub struct WindowProgress {
    // the number of steps done
    pub steps: u64,
    pub turn: Turn,
}

// What n steps answer, beside the cache table, the boxes and the log. A struct of its own: one
// generic over what it holds would call a turn and a state by one name.
#[derive(Clone, Copy)]
pub struct Advance {
    // the number of steps done
    pub steps: u64,
    pub state: State,
}
