#![tactic(auto)]
// No code: the crate is the table of specs/Cases.antt, over the definitions of the crates that it depends on.
