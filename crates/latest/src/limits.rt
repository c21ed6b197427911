// How long a domain's windows must be for its latest finish to be told, as specs/Limits.antt names
// it.
pub const LEAST_LATEST_LENGTH: u32 = 4_000;

pub const MOST_LATEST_LENGTH: u32 = 20_000;
