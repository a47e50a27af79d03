#![tactic(auto)]
// An attempt at the instruction at PC: fetched, decoded and executed.
pub mod attempt;
pub mod execute;
pub mod monadics;
pub mod niladics;
