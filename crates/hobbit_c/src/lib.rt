#![tactic(auto)]
// The C interface's symbols: each call of the crate hobbit under its name, by its contract (include/hobbit.h says what each does).
pub mod blocks;
pub mod bytes;
pub mod texts;
