#![tactic(auto)]
// No code: what every program of the instruction set asks for and leaves.
