#![tactic(auto)]
// Event frames on the interrupt stack: KCALL, KRET, and the sequences of interrupts, exceptions and unimplemented
// instructions.
pub mod kernel;
pub mod pushes;
pub mod sequences;
