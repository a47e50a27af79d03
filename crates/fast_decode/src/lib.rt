#![tactic(auto)]
// What a text does, straight from the tables: the decoder's answer without its encoding, for the instructions that are
// performed without journal and copies. A plan is made at one place and performed at one place, which keeps it out of
// memory.
use exec_spec::{Monadic, Task};
use isa::{Mode, MonadicMode, Wide};

pub mod short;
pub mod wide;

// The length in parcels with two operands that are no registers, or with one operand; or another instruction or none.
#[derive(Clone, Copy)]
pub enum Plan {
    Two(u32, Wide, Task, Mode, u32, Mode, u32),
    One(u32, Monadic, MonadicMode, u32),
    Other,
}
