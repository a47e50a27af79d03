#![tactic(auto)]
// One step: an event sequence, or fetch, instruction and, at a fault, its exception sequence (1.11).
pub mod events;
pub mod stepping;
