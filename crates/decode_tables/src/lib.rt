#![tactic(auto)]
// The tables of sections 1.6 and 1.7 as code: opcodes, subcodes and modes by number, and which operands are legal.
pub mod legal;
pub mod modes;
pub mod parcel;
pub mod wide;
