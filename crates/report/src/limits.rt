// The sizes of the program planrun, as specs/Limits.antt names them.
pub const PLANRUN_LOG: usize = 16_384;

pub const LARGEST_LIMIT: u64 = 18_446_744_073_709_551_615;

pub const MOST_PRINTED: usize = 161_840;

// Room for one byte more than a plan's text may have: whatever follows it, the text is too long.
pub const TEXT_ROOM: usize = 32_769;

// The bytes of a record, and where it has its value and its clock.
pub const RECORD_SIZE: usize = 8;

pub const VALUE_OFFSET: usize = 2;

pub const CLOCK_OFFSET: usize = 4;
