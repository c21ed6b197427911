// The ticks and lines of an op, as specs/Ops.antt names them.
pub const BARRED_TICKS: u64 = 5;

pub const MESSAGE_TICKS: u64 = 5;

pub const KERNEL_ENTRY_LINE: u16 = 60;

pub const FIRST_BOX_LINE: usize = 61;

pub const BOXES_LENGTH: usize = 64;
