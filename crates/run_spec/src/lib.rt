#![tactic(auto)]
// Runs: steps under a budget, with their stops and refusals. No code: the type is what the code of a run answers.

// Steps done, the stop and its code.
#[derive(Clone, Copy)]
pub struct Stopped {
    pub steps: u32,
    pub stop: u32,
    pub code: u32,
}

// Codes of a confined run's stop at an instruction that it has only fetched: a KCALL, an unimplemented one.
pub const KCALL_CODE: u64 = 0x20;

pub const UNIMPLEMENTED_CODE: u64 = 0x21;
