#![tactic(auto)]
// What instructions compute, without memory: results and flags, operands.
pub mod modes;
pub mod operations;
pub mod psw;
pub mod results;

// Where the operand of a mode is: at an address, at a stack offset, where the word there points, or in the instruction.
#[derive(Clone, Copy)]
pub enum OperandKind {
    Absolute,
    Offset,
    Indirect,
    Constant,
}
