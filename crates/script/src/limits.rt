// The limits of an op's numbers, as specs/Limits.antt names them.
pub const LAST_DOMAIN: u32 = 7;

pub const MOST_NUMBER: u32 = 65_535;

pub const MOST_WORD: u32 = 65_535;

pub const LEAST_TICKS: u32 = 1;

pub const MOST_TICKS: u32 = 200;

pub const MOST_OPS: usize = 256;

pub const SCRIPTS_LENGTH: usize = MOST_OPS * (LAST_DOMAIN as usize + 1);
