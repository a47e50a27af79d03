#![tactic(auto)]
// Motorola S-records and frames of kind 02: a line of the one to lines of the other.
pub mod frames;
pub mod records;
mod sums;
