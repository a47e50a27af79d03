#![tactic(auto)]
// Demand 3 of the running code: confined runs and lines of the board, as the code answers them; and the stops and codes of runs.
// There is no code here.
