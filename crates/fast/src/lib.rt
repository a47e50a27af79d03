#![tactic(auto)]
// Steps whose accesses neither fault nor set a bit: they need no journal and no copy, since nothing has to be put back.
// Each function answers whether it went; where it did not, all is as it was and the step is taken elsewhere.
mod flow;
mod instructions;
mod texts;
pub mod turns;
