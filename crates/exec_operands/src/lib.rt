#![tactic(auto)]
// Operands of instructions that have two: where they are, how they are read and written, and which may be named.
pub mod accumulator;
pub mod checks;
pub mod places;
pub mod registers;
