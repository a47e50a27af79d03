// Table 1-8: the bits of PSW.
pub const FLAG: u32 = 4;

pub const CARRY: u32 = 5;

pub const OVERFLOW: u32 = 6;

pub const TRACE_INSTRUCTION: u32 = 7;

pub const TRACE_BASIC_BLOCK: u32 = 8;

pub const SP_CURRENT: u32 = 9;

pub const USER_LEVEL: u32 = 10;

pub const ENTER_GUARD: u32 = 11;

pub const USER_LITTLE: u32 = 15;

pub const VIRTUAL: u32 = 16;

// Its interrupt priority level: the lowest bit, and how many.
pub const PRIORITY: u32 = 12;

pub const PRIORITY_BITS: u32 = 3;

// Table 1-2: the bits of CONFIG.
pub const KERNEL_LITTLE: u32 = 16;

pub const PC_EXTENSION: u32 = 17;

pub const STACK_CACHE: u32 = 18;

pub const TIMER1_INSTRUCTIONS: u32 = 22;

pub const TIMER1_KERNEL: u32 = 23;

pub const TIMER1_INTERRUPT: u32 = 24;

pub const TIMER2_KERNEL: u32 = 30;

pub const TIMER2_INTERRUPT: u32 = 31;

// The event that Timer2 counts: the lowest bit, and how many.
pub const TIMER2_EVENT: u32 = 25;

pub const TIMER2_EVENT_BITS: u32 = 5;
