#![tactic(auto)]
// Lent physical memory: bytes in words, most significant byte first.
pub mod answers;
pub mod exceptions;
pub mod loads;
pub mod places;
pub mod stores;
