// How many digits a number has, as specs/Limits.antt names it.
pub const MOST_DIGITS: usize = 10;

pub const WIDEST_DIGITS: usize = 20;
