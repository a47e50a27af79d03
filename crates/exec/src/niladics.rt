// Instructions without operands.
ghost use Rattle.datapath.specs.Clauses.{Ends, EndsAnyCache};
ghost use Rattle.exec_spec.specs.EventFrames.{kret, cret, privileged};
ghost use Rattle.exec_spec.specs.Execute.{execute_niladic};

use access_spec::Journal;
use exec_registers::flow::advance_pc;
use exec_registers::status::{tested, with_guard};
use exec_spec::Niladic;
use machine::status::is_user;
use machine::{Bank, Quads};
use memory::answers::raised;
use memory::exceptions::PRIVILEGE_VIOLATION;

// At user level it is exception 5.
fn kret_privileged(m: &mut [u8], journal: &mut Journal, r: &mut Bank) -> u64
    ensures { EndsAnyCache result m journal r (λ c. privileged c (kret c)) }
{
    if is_user(r) {
        raised(PRIVILEGE_VIOLATION)
    } else {
        exec_event_frames::kernel::kret(m, journal, r)
    }
}

fn cret_privileged(m: &mut [u8], journal: &mut Journal, q: &mut Quads, r: &mut Bank) -> u64
    ensures { Ends result m journal q r (λ c. privileged c (cret c)) }
{
    if is_user(r) {
        raised(PRIVILEGE_VIOLATION)
    } else {
        exec_stack::returns::cret(m, journal, q, r)
    }
}

// n is the parcels of the instruction.
pub fn execute_niladic(
    m: &mut [u8],
    journal: &mut Journal,
    q: &mut Quads,
    r: &mut Bank,
    o: Niladic,
    n: u32,
) -> u64
    ensures { Ends result m journal q r (λ c. execute_niladic c o n) }
{
    match o {
        Niladic::Kret => kret_privileged(m, journal, r),
        Niladic::Cret => cret_privileged(m, journal, q, r),
        Niladic::Nop => {
            advance_pc(r, n);
            0
        }
        Niladic::Testv => {
            tested(r, 6);
            advance_pc(r, n);
            0
        }
        Niladic::Testc => {
            tested(r, 5);
            advance_pc(r, n);
            0
        }
        Niladic::Clre => {
            with_guard(r, false);
            advance_pc(r, n);
            0
        }
    }
}
