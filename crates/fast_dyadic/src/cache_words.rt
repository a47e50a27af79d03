// Words of the stack that the cache holds: no access to memory at all.
ghost use Rattle.std.specs.Prelude.{◌≡◌, true, [], ◌%◌, ◌^◌, ◌<◌};
ghost use Rattle.isa.specs.declared.Operand.TheVariants as operand;
ghost use Rattle.isa.specs.declared.Wide.{Wide};
ghost use Rattle.access_spec.specs.Clauses.{only_read, unchanged, IfElse};
ghost use Rattle.machine.specs.Status.{cpu, cached as cached_of};
ghost use Rattle.datapath.specs.Parts.{done};
ghost use Rattle.datapath.specs.Clauses.{entry_cpu};
ghost use Rattle.exec_spec.specs.declared.Task.TheVariants as task;
ghost use Rattle.exec_spec.specs.Operands.{stack_address, read_operand};
ghost use Rattle.fast_dyadic.specs.Fast.{is_stack_word, is_fast};
ghost use Rattle.fast_dyadic.specs.Clauses.{StackAsBefore, AfterSourceDone};

use crate::NOT_TAKEN;
use access::NOWHERE;
use exec_alu::operations::{divides, operate, related};
use exec_alu::results::value_of;
use exec_operands::places::is_constant;
use exec_registers::flow::stack_address;
use exec_registers::status::{with_flag, with_flags};
use exec_spec::{Operation, Relation, Task};
use isa::Mode;
use machine::cache::{cache_read, cache_write};
use machine::status::cached;
use machine::{Bank, Quads};
use memory::answers::{good, low32};
use word::Width;

// The address of the word at a stack offset, if the cache holds it; else 2^32.
pub(crate) fn cached_address(r: &Bank, v: u32) -> u64
    ensures { result < 2 ^ 32 → (result ≡ stack_address (cpu r.now []) v) × (cached_of r.now result ≡ true) × (result % 4 ≡ 0) }
{
    let a = stack_address(r, v);
    if cached(r, a) {
        if a % 4 == 0 {
            return a as u64;
        }
    }
    NOWHERE
}

pub(crate) fn is_stack_word(m: Mode) -> bool
    ensures { result ≡ is_stack_word m }
{
    match m {
        Mode::AbsoluteByte => false,
        Mode::AbsoluteUbyte => false,
        Mode::AbsoluteHalf => false,
        Mode::AbsoluteUhalf => false,
        Mode::StackByte => false,
        Mode::StackUbyte => false,
        Mode::StackHalf => false,
        Mode::StackUhalf => false,
        Mode::IndirectByte => false,
        Mode::IndirectUbyte => false,
        Mode::IndirectHalf => false,
        Mode::IndirectUhalf => false,
        Mode::AbsoluteWord => false,
        Mode::StackWord => true,
        Mode::IndirectWord => false,
        Mode::Immediate => false,
    }
}

// A source that is a constant or such a word; else 2^32.
pub(crate) fn cached_source(q: &Quads, r: &Bank, m: Mode, v: u32) -> u64
    ensures { result < 2 ^ 32 → (w : Wide) → read_operand (entry_cpu (only_read q) (only_read r)) w (operand.General m v) ≡ done result }
{
    if is_constant(m) {
        return good(v);
    }
    if is_stack_word(m) {
        let a = cached_address(r, v);
        if a < NOWHERE {
            return good(cache_read(Width::Word, q, low32(a)));
        }
    }
    NOT_TAKEN
}

// ADD and its kind, to the word at a: the result goes there.
fn cached_compute(q: &mut Quads, r: &mut Bank, op: Operation, a: u32, x: u32) -> bool
    requires { (cached_of r.old a ≡ true) × (a % 4 ≡ 0) }
    ensures { IfElse result (AfterSourceDone (task.Compute op) a x q r × StackAsBefore q r) (unchanged r × unchanged q) }
{
    if divides(op) & (x == 0) {
        return false;
    }
    let y = cache_read(Width::Word, q, a);
    let z = operate(op, y, x);
    cache_write(Width::Word, q, a, value_of(z));
    with_flags(r, z);
    true
}

// ADD3 and its kind: the result goes to the accumulator.
fn cached_accumulate(q: &mut Quads, r: &mut Bank, op: Operation, a: u32, x: u32) -> bool
    requires { (cached_of r.old a ≡ true) × (a % 4 ≡ 0) }
    ensures { IfElse result (AfterSourceDone (task.Accumulate op) a x q r × StackAsBefore q r) (unchanged r × unchanged q) }
{
    if divides(op) & (x == 0) {
        return false;
    }
    let b = cached_address(r, 4);
    if NOWHERE <= b {
        return false;
    }
    let y = cache_read(Width::Word, q, a);
    let z = operate(op, y, x);
    cache_write(Width::Word, q, low32(b), value_of(z));
    with_flags(r, z);
    true
}

// CMP.
fn cached_compare(q: &Quads, r: &mut Bank, relation: Relation, a: u32, x: u32)
    requires { (cached_of r.old a ≡ true) × (a % 4 ≡ 0) }
    ensures { AfterSourceDone (task.Compare relation) a x (only_read q) r × StackAsBefore (only_read q) r }
{
    let y = cache_read(Width::Word, q, a);
    with_flag(r, related(relation, x, y));
}

// What is left of a task with the source x, the destination such a word, at a.
pub(crate) fn cached_finish(q: &mut Quads, r: &mut Bank, t: Task, a: u32, x: u32) -> bool
    requires { (cached_of r.old a ≡ true) × (a % 4 ≡ 0) }
    ensures { IfElse result ((is_fast t ≡ true) × AfterSourceDone t a x q r × StackAsBefore q r) (unchanged r × unchanged q) }
{
    match t {
        Task::Compute(op) => cached_compute(q, r, op, a, x),
        Task::Accumulate(op) => cached_accumulate(q, r, op, a, x),
        Task::Interlock(_) => false,
        Task::Compare(relation) => {
            cached_compare(q, r, relation, a, x);
            true
        }
        Task::TaggedAdd => false,
        Task::TaggedSub => false,
        Task::Move => {
            cache_write(Width::Word, q, a, x);
            true
        }
        Task::MoveAddress => false,
        Task::MoveWords => false,
    }
}
