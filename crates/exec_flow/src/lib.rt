#![tactic(auto)]
// Jumps, calls and returns, and the words that they read.
pub mod flow;
pub mod words;
