// An instruction by what it does, with its operands and its length.
ghost use Rattle.datapath.specs.Clauses.{Ends};
ghost use Rattle.exec_rows.specs.Rows.{action_of};
ghost use Rattle.exec_spec.specs.Execute.{two_operands, execute_normal};

use crate::monadics::execute_monadic;
use crate::niladics::execute_niladic;
use access_spec::Journal;
use exec_dyadic::perform::execute_dyadic;
use exec_registers::flow::advance_pc;
use exec_rows::Action;
use exec_spec::Task;
use isa::{Operand, Wide};
use machine::{Bank, Quads};
use memory::answers::EXCEPTION;

// Two operands, and PC n parcels on.
fn execute_two(
    m: &mut [u8],
    journal: &mut Journal,
    q: &mut Quads,
    r: &mut Bank,
    n: u32,
    wide: Wide,
    task: Task,
    s: Operand,
    d: Operand,
) -> u64
    ensures { Ends result m journal q r (λ c. execute_normal c n (two_operands wide task s d)) }
{
    let x = execute_dyadic(m, journal, q, r, wide, task, s, d);
    if EXCEPTION <= x {
        return x;
    }
    advance_pc(r, n);
    x
}

// An instruction of n parcels by what it does.
pub fn execute(
    m: &mut [u8],
    journal: &mut Journal,
    q: &mut Quads,
    r: &mut Bank,
    n: u32,
    a: Action,
) -> u64
    ensures { Ends result m journal q r (λ c. execute_normal c n (action_of a)) }
{
    match a {
        Action::Two(wide, task, s, d) => execute_two(m, journal, q, r, n, wide, task, s, d),
        Action::One(o, mode, v) => execute_monadic(m, journal, q, r, o, mode, v, n),
        Action::Zero(o) => execute_niladic(m, journal, q, r, o, n),
    }
}
