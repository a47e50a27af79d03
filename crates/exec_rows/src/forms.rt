// What each row does, without its encoding.
ghost use Rattle.std.specs.Prelude.{◌≡◌};
ghost use Rattle.isa.specs.declared.Mode.TheVariants as mode;
ghost use Rattle.exec_spec.specs.Execute.{short_normal, task_of, monadic_operation, normal};
ghost use Rattle.exec_rows.specs.declared.ShortForm.TheVariants as form;
ghost use Rattle.exec_rows.specs.Rows.{formed, action_of};

use crate::{Action, ShortForm};
use exec_spec::{Monadic, Niladic, Operation, Relation, Task};
use isa::{DyadicRow, Instruction, Mode, MonadicMode, MonadicRow, Operand, ShortRow, Wide};

// A task whose destination is a word of the stack.
fn to_stack(task: Task, source: Mode) -> ShortForm
    ensures { result ≡ form.Two task source mode.StackWord }
{
    ShortForm::Two(task, source, Mode::StackWord)
}

// What a one-parcel row does.
pub fn short_form(row: ShortRow) -> ShortForm
    ensures { formed result ≡ short_normal row }
{
    match row {
        ShortRow::Kcall => ShortForm::One(Monadic::Kcall, MonadicMode::WordImmediate),
        ShortRow::Call => ShortForm::One(Monadic::Call, MonadicMode::FlowRelative),
        ShortRow::Jmp => ShortForm::One(Monadic::Jmp, MonadicMode::FlowRelative),
        ShortRow::Jmpfn | ShortRow::Jmpfy => {
            ShortForm::One(Monadic::JmpFalse, MonadicMode::FlowRelative)
        }
        ShortRow::Jmptn | ShortRow::Jmpty => {
            ShortForm::One(Monadic::JmpTrue, MonadicMode::FlowRelative)
        }
        ShortRow::MovWaiStk => to_stack(Task::Move, Mode::Immediate),
        ShortRow::Add3WaiStk => to_stack(Task::Accumulate(Operation::Add), Mode::Immediate),
        ShortRow::And3ImmStk => to_stack(Task::Accumulate(Operation::And), Mode::Immediate),
        ShortRow::AndStkStk => to_stack(Task::Compute(Operation::And), Mode::StackWord),
        ShortRow::CmpeqImmStk => to_stack(Task::Compare(Relation::Equal), Mode::Immediate),
        ShortRow::CmpgtStkStk => to_stack(Task::Compare(Relation::Greater), Mode::StackWord),
        ShortRow::CmpgtImmStk => to_stack(Task::Compare(Relation::Greater), Mode::Immediate),
        ShortRow::CmpeqStkStk => to_stack(Task::Compare(Relation::Equal), Mode::StackWord),
        ShortRow::AddImmStk => to_stack(Task::Compute(Operation::Add), Mode::Immediate),
        ShortRow::Add3ImmStk => to_stack(Task::Accumulate(Operation::Add), Mode::Immediate),
        ShortRow::AddStkStk => to_stack(Task::Compute(Operation::Add), Mode::StackWord),
        ShortRow::Add3StkStk => to_stack(Task::Accumulate(Operation::Add), Mode::StackWord),
        ShortRow::MovStkStk => to_stack(Task::Move, Mode::StackWord),
        ShortRow::MovIstkStk => to_stack(Task::Move, Mode::IndirectWord),
        ShortRow::MovStkIstk => ShortForm::Two(Task::Move, Mode::StackWord, Mode::IndirectWord),
        ShortRow::MovIstkIstk => ShortForm::Two(Task::Move, Mode::IndirectWord, Mode::IndirectWord),
        ShortRow::MovImmStk => to_stack(Task::Move, Mode::Immediate),
        ShortRow::MovaStkStk => to_stack(Task::MoveAddress, Mode::StackWord),
        ShortRow::Shl3UimmStk => to_stack(Task::Accumulate(Operation::Shl), Mode::Immediate),
        ShortRow::Shr3UimmStk => to_stack(Task::Accumulate(Operation::Shr), Mode::Immediate),
        ShortRow::Enter => ShortForm::One(Monadic::Enter, MonadicMode::WordStack),
        ShortRow::Catch => ShortForm::One(Monadic::Catch, MonadicMode::WordStack),
        ShortRow::Return => ShortForm::One(Monadic::Return, MonadicMode::WordStack),
        ShortRow::Popn => ShortForm::One(Monadic::Popn, MonadicMode::WordStack),
        ShortRow::Kret => ShortForm::Zero(Niladic::Kret),
        ShortRow::Nop | ShortRow::Flushi | ShortRow::Flushp => ShortForm::Zero(Niladic::Nop),
        ShortRow::Cret => ShortForm::Zero(Niladic::Cret),
        ShortRow::Testv => ShortForm::Zero(Niladic::Testv),
        ShortRow::Testc => ShortForm::Zero(Niladic::Testc),
        ShortRow::Clre => ShortForm::Zero(Niladic::Clre),
    }
}

// What a row of two operands does.
pub fn task_of(row: DyadicRow) -> Task
    ensures { result ≡ task_of row }
{
    match row {
        DyadicRow::Ori => Task::Interlock(Operation::Or),
        DyadicRow::Andi => Task::Interlock(Operation::And),
        DyadicRow::Addi => Task::Interlock(Operation::Add),
        DyadicRow::Mova => Task::MoveAddress,
        DyadicRow::Urem => Task::Compute(Operation::Urem),
        DyadicRow::Mov => Task::Move,
        DyadicRow::Dqm => Task::MoveWords,
        DyadicRow::Tadd => Task::TaggedAdd,
        DyadicRow::Tsub => Task::TaggedSub,
        DyadicRow::Cmpgt => Task::Compare(Relation::Greater),
        DyadicRow::Cmphi => Task::Compare(Relation::Higher),
        DyadicRow::Cmpeq => Task::Compare(Relation::Equal),
        DyadicRow::Sub => Task::Compute(Operation::Sub),
        DyadicRow::Or => Task::Compute(Operation::Or),
        DyadicRow::And => Task::Compute(Operation::And),
        DyadicRow::Add => Task::Compute(Operation::Add),
        DyadicRow::Xor => Task::Compute(Operation::Xor),
        DyadicRow::Rem => Task::Compute(Operation::Rem),
        DyadicRow::Mul => Task::Compute(Operation::Mul),
        DyadicRow::Div => Task::Compute(Operation::Div),
        DyadicRow::Shr => Task::Compute(Operation::Shr),
        DyadicRow::Ushr => Task::Compute(Operation::Ushr),
        DyadicRow::Shl => Task::Compute(Operation::Shl),
        DyadicRow::Udiv => Task::Compute(Operation::Udiv),
        DyadicRow::Sub3 => Task::Accumulate(Operation::Sub),
        DyadicRow::Or3 => Task::Accumulate(Operation::Or),
        DyadicRow::And3 => Task::Accumulate(Operation::And),
        DyadicRow::Add3 => Task::Accumulate(Operation::Add),
        DyadicRow::Xor3 => Task::Accumulate(Operation::Xor),
        DyadicRow::Rem3 => Task::Accumulate(Operation::Rem),
        DyadicRow::Mul3 => Task::Accumulate(Operation::Mul),
        DyadicRow::Div3 => Task::Accumulate(Operation::Div),
        DyadicRow::Shr3 => Task::Accumulate(Operation::Shr),
        DyadicRow::Ushr3 => Task::Accumulate(Operation::Ushr),
        DyadicRow::Shl3 => Task::Accumulate(Operation::Shl),
    }
}

// What a row of one operand does.
pub fn monadic_operation(row: MonadicRow) -> Monadic
    ensures { result ≡ monadic_operation row }
{
    match row {
        MonadicRow::Kcall => Monadic::Kcall,
        MonadicRow::Call => Monadic::Call,
        MonadicRow::Return => Monadic::Return,
        MonadicRow::Jmp => Monadic::Jmp,
        MonadicRow::Jmpfn | MonadicRow::Jmpfy => Monadic::JmpFalse,
        MonadicRow::Jmptn | MonadicRow::Jmpty => Monadic::JmpTrue,
        MonadicRow::Catch => Monadic::Catch,
        MonadicRow::Enter => Monadic::Enter,
        MonadicRow::Ldraa => Monadic::Ldraa,
        MonadicRow::Flushpte | MonadicRow::Flushpbe => Monadic::Flush,
        MonadicRow::Popn => Monadic::Popn,
    }
}

// A one-parcel row with source s and destination d.
fn short_action(form: ShortForm, s: u32, d: u32) -> Action
    ensures { action_of result ≡ formed form s d }
{
    match form {
        ShortForm::Two(task, a, b) => Action::Two(
            Wide::Five,
            task,
            Operand::General(a, s),
            Operand::General(b, d),
        ),
        ShortForm::One(o, mode) => Action::One(o, mode, s),
        ShortForm::Zero(o) => Action::Zero(o),
    }
}

// What an instruction does.
pub fn action_of(i: Instruction) -> Action
    ensures { action_of result ≡ normal i }
{
    match i {
        Instruction::Short(j) => short_action(short_form(j.row), j.source, j.destination),
        Instruction::Dyadic(j) => Action::Two(j.wide, task_of(j.row), j.source, j.destination),
        Instruction::Monadic(j) => Action::One(monadic_operation(j.row), j.mode, j.value),
    }
}
