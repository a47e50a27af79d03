// Where a bank holds what. Table 1-1: a register at its place there less one.
pub const CONFIG: usize = 0;

pub const FAULT: usize = 1;

pub const ID: usize = 2;

pub const ISP: usize = 3;

pub const MSP: usize = 4;

pub const PC: usize = 5;

pub const PSW: usize = 6;

pub const SHAD: usize = 7;

pub const SP: usize = 8;

pub const STB: usize = 9;

pub const TIMER1: usize = 10;

pub const TIMER2: usize = 11;

pub const VB: usize = 12;

// What is due, 1 or 0 each: the trace, the overflows of both timers; and whether input 0 was taken and no look has found
// another level since.
pub const TRACE_DUE: usize = 13;

pub const TIMER1_DUE: usize = 14;

pub const TIMER2_DUE: usize = 15;

pub const NMI_TAKEN: usize = 16;

// The number of registers, and of all words of a bank; the places that instructions and frames name.
pub const REGISTERS: u32 = 13;

pub const BANK_WORDS: u32 = 17;

pub const ID_PLACE: u32 = ID as u32;

pub const ISP_PLACE: u32 = ISP as u32;

pub const MSP_PLACE: u32 = MSP as u32;

pub const SP_PLACE: u32 = SP as u32;
