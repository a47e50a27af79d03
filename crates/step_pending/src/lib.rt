#![tactic(auto)]
// What is pending between steps: interrupts, timers and traces that are due, on a lent bank. Each contract is an equation of
// whole machines with any cache: the cache plays no part.
pub mod events;
pub mod timers;
pub mod tracing;
