#![tactic(auto)]
// The machine without its memory: registers, stack cache, what is due.
pub mod assign;
pub mod bits;
pub mod cache;
pub mod places;
pub mod record;
pub mod registers;
pub mod status;

// The registers and what is due, by their places; the sixteen quad-words of the stack cache. A run works on these.
pub type Bank = [u32; 17];

pub type Quads = [[u32; 4]; 16];

// Registers by their place in Table 1-1, less one; the stack cache's sixteen quad-words in one flat array.
#[derive(Clone, Copy)]
pub struct Machine {
    pub registers: [u32; 13],
    pub cache: [u32; 64],
    pub trace_due: bool,
    pub timer1_due: bool,
    pub timer2_due: bool,
    pub nmi_taken: bool,
}

// The bytes that the stack cache holds.
pub const STACK_CACHE_BYTES: u32 = 256;
