// The sizes of the cache table and the ticks of an access and of a flush, as specs/Lines.antt,
// specs/Access.antt and specs/Flush.antt name them.
pub const MOST_LINE: u16 = 4_095;

pub const L1_LENGTH: usize = 16;

pub const SET_COUNT: usize = 64;

pub const WAYS_PER_SET: usize = 4;

pub const SETS_PER_COLOUR: usize = 4;

pub const TABLE_LENGTH: usize = 272;

pub const KERNEL_COLOUR: usize = 15;

pub const KERNEL_INDEX: usize = 256;

pub const DIRTY_MARK: u16 = 32_768;

pub const HIT1_TICKS: u64 = 1;

pub const HIT2_TICKS: u64 = 10;

pub const MISS_TICKS: u64 = 100;

pub const DIRTY_TICKS: u64 = 4;

pub const FLUSH_TICKS: u64 = 8;

pub const DIRTY_LINE_TICKS: u64 = 2;
