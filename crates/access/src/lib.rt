#![tactic(auto)]
// What memory and journal do with an access: alignment, translation, recording, and the touch, each change noted.
pub mod accesses;
pub mod effect_free;
pub mod journal;
pub mod quads;

// The answer where there is no place: no address has this number.
pub const NOWHERE: u64 = 0x1_0000_0000;
