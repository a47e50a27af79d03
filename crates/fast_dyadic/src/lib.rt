#![tactic(auto)]
// Instructions of two operands whose accesses neither fault nor set a bit: they need no journal and no copy, since nothing has
// to be put back. Each function answers whether it went; where it did not, all is as it was.
pub mod accesses;
mod after_source;
mod cache_words;
mod places;
pub mod two;

// Answers from here on are none: the fast way is not taken.
pub const NOT_TAKEN: u64 = 0x1_0000_0000;
