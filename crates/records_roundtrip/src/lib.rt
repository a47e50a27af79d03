#![tactic(auto)]
// No code: frames out and in again are the same frames, and records in and out load the same bytes.
