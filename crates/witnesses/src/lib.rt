#![tactic(auto)]
// No code: for each wrong answer that a contract shuts out, an input at which the definition gives another one.
