// The small state of a run, and the validity of what is lent beside a plan: the cache table and the
// boxes (13), and the state (14).
#![tactic(auto)]

pub mod state_validity;
pub mod table_validity;

ghost use Rattle.std.specs.Prelude.{◌≡◌};
ghost use Rattle.state.specs.World.{fresh_state};

use plan::limits::DOMAIN_ENTRIES;

// Document 01's small state. Every field is wide enough for any number that a caller may lend.
#[derive(Clone, Copy)]
pub struct State {
    // windows completed
    pub windows: u64,
    pub clock: u64,
    // each domain's position in its script; two arrays, as the definitions name each, and pirkvezo
    // copies each whole from and to numbers
    pub positions: [u64; DOMAIN_ENTRIES],
    // each domain's number of records
    pub records: [u64; DOMAIN_ENTRIES],
}

// The state of a fresh start.
pub fn fresh_state() -> State
    ensures { result ≡ fresh_state }
{
    State {
        windows: 0,
        clock: 0,
        positions: [0; DOMAIN_ENTRIES],
        records: [0; DOMAIN_ENTRIES],
    }
}
