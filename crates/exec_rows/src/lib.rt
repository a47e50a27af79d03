#![tactic(auto)]
// What each row of the encodings lists does, and each instruction, without its encoding.
pub mod forms;

use exec_spec::{Monadic, Niladic, Task};
use isa::{Mode, MonadicMode, Operand, Wide};

// What a one-parcel row does, with the modes of source and destination, or of its one operand.
#[derive(Clone, Copy)]
pub enum ShortForm {
    Two(Task, Mode, Mode),
    One(Monadic, MonadicMode),
    Zero(Niladic),
}

// What an instruction does: a task with two operands, or with one, or with none.
#[derive(Clone, Copy)]
pub enum Action {
    Two(Wide, Task, Operand, Operand),
    One(Monadic, MonadicMode, u32),
    Zero(Niladic),
}
