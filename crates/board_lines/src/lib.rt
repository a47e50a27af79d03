#![tactic(auto)]
// Lines of the board program: what one says, the bytes that frame 02 stores, the lines that are printed, and their totals.
pub mod answers;
pub mod digits;
pub mod frames;
pub mod stores;
pub mod totals;

use hex_digits::Writer;

// Runs, steps and refused lines, of all lines printed so far.
#[derive(Clone, Copy, PartialEq, Eq, Debug)]
pub struct Tally {
    pub runs: u32,
    pub steps: u32,
    pub refused: u32,
}

// Where lines are printed, and what they sum to.
#[derive(Drop)]
pub struct Printer<'a> {
    pub output: Writer<'a>,
    pub tally: Tally,
}

// A frame by its kind.
#[derive(Clone, Copy, PartialEq, Eq, Debug)]
pub enum Frame {
    // 01: the register's place in Table 1-1, and its word.
    Set(u32, u32),
    // 02: the address; the bytes stay in the line.
    Store(u32),
    // 03 and 04: budget and interrupt level.
    Run(u32, u32),
    Confined(u32, u32),
}
