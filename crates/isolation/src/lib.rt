#![tactic(auto)]
// Isolation of confined runs (demand 3): its definitions, its statement and its proof. There is no code here.
