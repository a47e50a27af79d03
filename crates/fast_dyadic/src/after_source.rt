// What is left of an instruction of two operands once its source is read, the destination anywhere in memory.
ghost use Rattle.std.specs.Prelude.{◌≡◌, true};
ghost use Rattle.isa.specs.declared.Operand.TheVariants as operand;
ghost use Rattle.access_spec.specs.Clauses.{only_read, unchanged, IfElse};
ghost use Rattle.exec_spec.specs.Operands.{mode_kind};
ghost use Rattle.exec_operands.specs.Code.{general_at};
ghost use Rattle.fast_dyadic.specs.Fast.{is_fast, compute_at, accumulate_at, compare_at, after_source};
ghost use Rattle.fast_dyadic.specs.Clauses.{Gives, FastEnds, StackAsBefore, AllUnchanged};

use crate::NOT_TAKEN;
use crate::accesses::fast_store;
use crate::places::{fast_address, fast_put, fast_value};
use access::NOWHERE;
use exec_alu::operations::{divides, operate, related};
use exec_alu::results::value_of;
use exec_registers::flow::stack_address;
use exec_registers::status::{with_flag, with_flags};
use exec_spec::{Operation, Relation, Task};
use isa::{Mode, Wide};
use machine::{Bank, Quads};
use memory::answers::low32;
use word::Width;

// ADD and its kind, to a destination found at a.
fn compute_at(
    m: &mut [u8],
    q: &mut Quads,
    r: &mut Bank,
    op: Operation,
    mode: Mode,
    d: u32,
    a: u32,
    x: u32,
) -> bool
    ensures { FastEnds result m q r (λ c. compute_at c op (general_at (mode_kind mode) mode d a) x) }
{
    if divides(op) & (x == 0) {
        return false;
    }
    let y = fast_value(m, q, r, mode, d, a);
    if NOT_TAKEN <= y {
        return false;
    }
    let z = operate(op, low32(y), x);
    let instruction_done = fast_put(m, q, r, mode, d, a, value_of(z));
    if !instruction_done {
        return false;
    }
    with_flags(r, z);
    true
}

// ADD3 and its kind: the destination is read, and the result goes to the accumulator.
fn accumulate_at(
    m: &mut [u8],
    q: &mut Quads,
    r: &mut Bank,
    op: Operation,
    mode: Mode,
    d: u32,
    a: u32,
    x: u32,
) -> bool
    ensures { FastEnds result m q r (λ c. accumulate_at c op (general_at (mode_kind mode) mode d a) x) }
{
    if divides(op) & (x == 0) {
        return false;
    }
    let y = fast_value(m, q, r, mode, d, a);
    if NOT_TAKEN <= y {
        return false;
    }
    let z = operate(op, low32(y), x);
    let b = stack_address(r, 4);
    let instruction_done = fast_store(m, q, r, Width::Word, b, value_of(z));
    if !instruction_done {
        return false;
    }
    with_flags(r, z);
    true
}

// CMP.
fn compare_at(
    m: &[u8],
    q: &Quads,
    r: &mut Bank,
    relation: Relation,
    mode: Mode,
    d: u32,
    a: u32,
    x: u32,
) -> bool
    ensures { IfElse result (Gives (only_read m) (only_read q) r (λ c. compare_at c relation (general_at (mode_kind mode) mode d a) x) × StackAsBefore (only_read q) r) (unchanged r) }
{
    let y = fast_value(m, q, r, mode, d, a);
    if NOT_TAKEN <= y {
        return false;
    }
    with_flag(r, related(relation, x, low32(y)));
    true
}

// The same of any task.
pub(crate) fn fast_finish(
    m: &mut [u8],
    q: &mut Quads,
    r: &mut Bank,
    wide: Wide,
    t: Task,
    mode: Mode,
    d: u32,
    x: u32,
) -> bool
    ensures { IfElse result ((is_fast t ≡ true) × Gives m q r (λ c. after_source c wide t (operand.General mode d) x) × StackAsBefore q r)
        (AllUnchanged m q r) }
{
    let k = fast_address(m, q, r, wide, mode, d);
    if NOWHERE <= k {
        return false;
    }
    let a = low32(k);
    match t {
        Task::Compute(op) => compute_at(m, q, r, op, mode, d, a, x),
        Task::Accumulate(op) => accumulate_at(m, q, r, op, mode, d, a, x),
        Task::Interlock(_) => false,
        Task::Compare(relation) => compare_at(m, q, r, relation, mode, d, a, x),
        Task::TaggedAdd => false,
        Task::TaggedSub => false,
        Task::Move => fast_put(m, q, r, mode, d, a, x),
        Task::MoveAddress => false,
        Task::MoveWords => false,
    }
}
