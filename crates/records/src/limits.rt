// The size of a record, as specs/Records.antt names it.
pub const RECORD_SIZE: u64 = 8;
