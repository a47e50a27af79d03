#![tactic(auto)]
// Machines of isolation: some that meet its premises, and for each premise two that are told apart without it. No code here.
