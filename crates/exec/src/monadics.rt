// Instructions of one operand.
ghost use Rattle.datapath.specs.Clauses.{Ends};
ghost use Rattle.exec_spec.specs.Execute.{execute_monadic};

use access_spec::Journal;
use exec_alu::psw::flag;
use exec_registers::flow::{advance_pc, released};
use exec_spec::Monadic;
use isa::MonadicMode;
use machine::places::PSW;
use machine::{Bank, Quads};

// n is the parcels of the instruction.
pub fn execute_monadic(
    m: &mut [u8],
    journal: &mut Journal,
    q: &mut Quads,
    r: &mut Bank,
    o: Monadic,
    mode: MonadicMode,
    v: u32,
    n: u32,
) -> u64
    ensures { Ends result m journal q r (λ c. execute_monadic c o mode v n) }
{
    match o {
        Monadic::Kcall => exec_event_frames::kernel::kcall(m, journal, q, r, mode, v, n),
        Monadic::Call => exec_flow::flow::call(m, journal, q, r, mode, v, n),
        Monadic::Return => exec_flow::flow::return_from(m, journal, q, r, v),
        Monadic::Jmp => exec_flow::flow::jump(m, journal, q, r, mode, v),
        Monadic::JmpFalse => {
            let f = flag(r[PSW]);
            exec_flow::flow::jump_if(m, journal, q, r, !f, mode, v, n)
        }
        Monadic::JmpTrue => {
            let f = flag(r[PSW]);
            exec_flow::flow::jump_if(m, journal, q, r, f, mode, v, n)
        }
        Monadic::Catch => exec_stack::catches::catch(m, journal, q, r, mode, v, n),
        Monadic::Enter => exec_stack::enters::enter(m, journal, q, r, mode, v, n),
        Monadic::Ldraa => exec_flow::flow::load_address(m, journal, q, r, mode, v, n),
        Monadic::Flush => {
            advance_pc(r, n);
            0
        }
        Monadic::Popn => {
            released(r, v);
            advance_pc(r, n);
            0
        }
    }
}
