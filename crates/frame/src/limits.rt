// The limit of a weight, as specs/Limits.antt names it.
pub const MOST_WEIGHT: u32 = 1_000;
