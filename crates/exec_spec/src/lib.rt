#![tactic(auto)]
// No code: every instruction of section 3.3 as a program of accesses. The types name its parts.

// What an instruction of two operands computes.
#[derive(Clone, Copy)]
pub enum Operation {
    Add,
    Sub,
    Mul,
    Div,
    Rem,
    Udiv,
    Urem,
    And,
    Or,
    Xor,
    Shl,
    Shr,
    Ushr,
}

// What a comparison tests.
#[derive(Clone, Copy)]
pub enum Relation {
    Equal,
    Greater,
    Higher,
}

// What is done with two operands: a result to the destination, to the accumulator, or interlocked to both; or one of
// the instructions that have a page of their own.
#[derive(Clone, Copy)]
pub enum Task {
    Compute(Operation),
    Accumulate(Operation),
    Interlock(Operation),
    Compare(Relation),
    TaggedAdd,
    TaggedSub,
    Move,
    MoveAddress,
    MoveWords,
}

// What is done with one operand.
#[derive(Clone, Copy)]
pub enum Monadic {
    Kcall,
    Call,
    Return,
    Jmp,
    JmpFalse,
    JmpTrue,
    Catch,
    Enter,
    Ldraa,
    Flush,
    Popn,
}

// What is done with none.
#[derive(Clone, Copy)]
pub enum Niladic {
    Kret,
    Cret,
    Nop,
    Testv,
    Testc,
    Clre,
}
