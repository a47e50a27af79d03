#![tactic(auto)]
// DQM: two or four words moved.
pub mod quads;
pub mod words;
