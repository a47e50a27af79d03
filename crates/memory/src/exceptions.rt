// Table 1-26: the numbers of the exceptions.
pub const ZERO_DIVIDE: u32 = 0x1;

pub const TRACE: u32 = 0x2;

pub const ILLEGAL_INSTRUCTION: u32 = 0x3;

pub const ALIGNMENT_FAULT: u32 = 0x4;

pub const PRIVILEGE_VIOLATION: u32 = 0x5;

pub const UNIMPLEMENTED_REGISTER: u32 = 0x6;

pub const FETCH_FAULT: u32 = 0x7;

pub const READ_FAULT: u32 = 0x8;

pub const WRITE_FAULT: u32 = 0x9;

pub const BUS_FAULT: u32 = 0xA;

pub const WALK_FAULT: u32 = 0xB;
