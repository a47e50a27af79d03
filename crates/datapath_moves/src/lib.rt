#![tactic(auto)]
// Quad-words between the stack cache and memory: word by word, translated, stopped by the first fault.
pub mod filling;
pub mod flushing;

// A step moves at most so many quad-words: all that the cache holds.
pub(crate) const QUAD_WORDS: u32 = 16;
