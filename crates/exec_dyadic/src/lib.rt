#![tactic(auto)]
// Instructions of two operands: source, destination, zero divide, write (section 3.3).
pub mod finding;
pub mod moving;
pub mod perform;
pub mod results;
pub mod tags;
