#![tactic(auto)]
// Runs of kinds 03 and 04: refusals, steps up to the stop, and the answer.
pub mod kept_machine;
pub mod running;
pub mod turns;
