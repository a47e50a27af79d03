#![tactic(auto)]
// One step: a look at what is due, then an event sequence or an instruction, then the timers.
