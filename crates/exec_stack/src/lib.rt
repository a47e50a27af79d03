#![tactic(auto)]
// ENTER, CATCH and CRET, which flush and fill the stack cache.
pub mod catches;
pub mod enters;
pub mod returns;
pub mod targets;
