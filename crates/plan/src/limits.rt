// The limits of a plan's numbers, as specs/Limits.antt names them.
pub const LEAST_PAD: u32 = 376;

pub const MOST_PAD: u32 = 1_000_000;

pub const LEAST_RUN: u32 = 1;

pub const MOST_RUN: u32 = 1_000;

pub const LEAST_DOMAINS: u32 = 1;

pub const MOST_DOMAINS: u32 = 8;

// the same, as the length of an array with an entry for each domain
pub const DOMAIN_ENTRIES: usize = MOST_DOMAINS as usize;

pub const LEAST_SHARE: u32 = 1;

pub const MOST_SHARE: u32 = 1_000;

pub const MOST_SHARES: u32 = 1_000;

pub const LEAST_WINDOWS: u32 = 1;

pub const MOST_WINDOWS: u32 = 32;

// the same, as the length of an array with an entry for each window
pub const WINDOW_ENTRIES: usize = MOST_WINDOWS as usize;

pub const LEAST_LENGTH: u32 = 1;

pub const MOST_LENGTH: u32 = 1_000_000;

pub const MOST_RUN_TICKS: u64 = 4_294_967_295;

pub const DOMAIN_COLOURS: u32 = 15;

pub const DEAREST_OP: u64 = 213;

pub const MOST_TEXT_BYTES: usize = 32_768;
