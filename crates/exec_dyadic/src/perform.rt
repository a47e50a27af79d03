// An instruction of two operands by its task; privilege and missing registers come before any access.
ghost use Rattle.datapath.specs.Clauses.{Ends};
ghost use Rattle.exec_spec.specs.Dyadic.{perform as perform_of, dyadic as dyadic_of};

use crate::moving::{move_address, move_operand};
use crate::results::{accumulate, compare, compute, interlock};
use crate::tags::compute_tagged;
use access_spec::Journal;
use exec_dqm::quads::move_words;
use exec_operands::checks::check_registers;
use exec_spec::Task;
use isa::{Operand, Wide};
use machine::{Bank, Quads};
use memory::answers::EXCEPTION;

fn perform(
    m: &mut [u8],
    journal: &mut Journal,
    q: &mut Quads,
    r: &mut Bank,
    wide: Wide,
    task: Task,
    s: Operand,
    d: Operand,
) -> u64
    ensures { Ends result m journal q r (λ c. perform_of c wide task s d) }
{
    match task {
        Task::Compute(op) => compute(m, journal, q, r, wide, op, s, d),
        Task::Accumulate(op) => accumulate(m, journal, q, r, wide, op, s, d),
        Task::Interlock(op) => interlock(m, journal, q, r, wide, op, s, d),
        Task::Compare(relation) => compare(m, journal, q, r, wide, relation, s, d),
        Task::TaggedAdd => compute_tagged(m, journal, q, r, wide, false, s, d),
        Task::TaggedSub => compute_tagged(m, journal, q, r, wide, true, s, d),
        Task::Move => move_operand(m, journal, q, r, wide, s, d),
        Task::MoveAddress => move_address(m, journal, q, r, wide, s, d),
        Task::MoveWords => move_words(m, journal, q, r, wide, s, d),
    }
}

// The whole instruction.
pub fn execute_dyadic(
    m: &mut [u8],
    journal: &mut Journal,
    q: &mut Quads,
    r: &mut Bank,
    wide: Wide,
    task: Task,
    s: Operand,
    d: Operand,
) -> u64
    ensures { Ends result m journal q r (λ c. dyadic_of c wide task s d) }
{
    let e = check_registers(r, s, d);
    if EXCEPTION <= e {
        e
    } else {
        perform(m, journal, q, r, wide, task, s, d)
    }
}
