// The example at hand: its tables, and how much of each a call is lent.
use pirkvezo::offsets::{PLAN_LENGTH, STATE_LENGTH};

// Each table whose length is told beside it has room for a wrong length: one number more than it
// has to have; a log may have any length.
pub(crate) const TEXT_ROOM: usize = 32_769;

pub(crate) const SCRIPTS_ROOM: usize = 2_049;

pub(crate) const CACHE_ROOM: usize = 273;

pub(crate) const BOXES_ROOM: usize = 65;

pub(crate) const LOG_ROOM: usize = 4_096;

pub(crate) const FRAME_ROOM: usize = 33;

#[derive(Drop)]
pub(crate) struct Example {
    pub text: [u8; TEXT_ROOM],
    pub text_length: usize,
    pub plan: [u32; PLAN_LENGTH],
    pub state: [u64; STATE_LENGTH],
    pub scripts: [u32; SCRIPTS_ROOM],
    pub scripts_length: usize,
    pub cache: [u16; CACHE_ROOM],
    pub cache_length: usize,
    pub boxes: [u32; BOXES_ROOM],
    pub boxes_length: usize,
    pub log: [u8; LOG_ROOM],
    pub log_length: usize,
    pub frame: [u32; FRAME_ROOM],
    pub frame_length: usize,
}

// The example before the first command.
pub(crate) fn first_example() -> Example {
    Example {
        text: [0u8; TEXT_ROOM],
        text_length: 0,
        plan: [0u32; PLAN_LENGTH],
        state: [0u64; STATE_LENGTH],
        scripts: [0u32; SCRIPTS_ROOM],
        scripts_length: SCRIPTS_ROOM - 1,
        cache: [0u16; CACHE_ROOM],
        cache_length: CACHE_ROOM - 1,
        boxes: [0u32; BOXES_ROOM],
        boxes_length: BOXES_ROOM - 1,
        log: [0u8; LOG_ROOM],
        log_length: 64,
        frame: [238u32; FRAME_ROOM],
        frame_length: FRAME_ROOM - 1,
    }
}
