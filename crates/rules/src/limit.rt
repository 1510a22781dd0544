// The numbers that `specs/Limits.antt` names; the rules fix each, also those of a missing transition.
pub const MAX_STATES: u8 = 64;

pub const MAX_LETTERS: u8 = 16;

pub const MAX_PAIRS: u8 = 6;

pub const HEADER_SIZE: usize = 4;

pub const NO_STATE: u8 = 255;

pub const NO_ROW: u16 = 65535;

pub const MAX_ROWS: usize = 4096;

pub const MAX_PIECE: usize = 65535;
