#![tactic(auto)]
// The accesses of an instruction: data, text and frames, and the address that a fault leaves.
pub mod data;
pub mod faults;
pub mod text;
pub mod transfers;

// The answer at a fault on the interrupt stack or of a vector (1.11.1): no exception has the number 0.
pub const RESETS: u64 = 0x1_0000_0000;
