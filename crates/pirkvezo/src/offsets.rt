// Where each list of numbers begins in a lent plan, state and answer, as specs/Numbers.antt and
// specs/Answers.antt name them.

// A plan.
pub const PLAN_LENGTH: usize = 92;

pub const PAD_OFFSET: usize = 0;

pub const RUN_OFFSET: usize = 1;

pub const DOMAINS_OFFSET: usize = 2;

pub const WINDOWS_OFFSET: usize = 3;

pub const SHARES_OFFSET: usize = 4;

pub const RIGHTS_OFFSET: usize = 12;

pub const OWNERS_OFFSET: usize = 20;

pub const LENGTHS_OFFSET: usize = 52;

pub const MASKS_OFFSET: usize = 84;

pub const MOST_MASK: u32 = 65_535;

// A state.
pub const STATE_LENGTH: usize = 18;

pub const COMPLETED_OFFSET: usize = 0;

pub const CLOCK_OFFSET: usize = 1;

pub const POSITIONS_OFFSET: usize = 2;

pub const RECORDS_OFFSET: usize = 10;

// An answer.
pub const ANSWER_LENGTH: usize = 4;
