#![tactic(auto)]
// What instructions and events do to the registers alone, on a lent bank. Each contract is an equation of whole machines
// with any cache: the cache plays no part.
pub mod event_frames;
pub mod flow;
pub mod registers;
pub mod status;
