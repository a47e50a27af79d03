#![tactic(auto)]
// No code: programs of accesses, what a world does with them, and the journal that undoes them.

// The journal of a step: how many entries it has, then each of them, with room for as many as a step can make.
pub const JOURNAL_ROOM: usize = 200;

pub const JOURNAL_WORDS: usize = JOURNAL_ROOM + 1;

pub type Journal = [u64; JOURNAL_WORDS];
