#![tactic(auto)]
// The conversation of the board program: lines answered on a machine, its memory and a printout, all of them lent.
pub mod answers;
pub mod blocks;
pub mod exchanges;

// After lines of a block: the number of the last line, where the rest begins, and whether a line ends in it.
#[derive(Clone, Copy, PartialEq, Eq, Debug)]
pub struct BlockResult {
    pub last: u32,
    pub rest: usize,
    pub more: bool,
}

// Between two exchanges of the program's loop: the bytes of the block from `from` to `end` are not answered yet, `more` says
// whether a line ends in them, and `last` is the number of the last line.
#[derive(Clone, Copy, PartialEq, Eq, Debug)]
pub struct LoopState {
    pub from: usize,
    pub end: usize,
    pub more: bool,
    pub last: u32,
}
