// Which registers may be named, before any access.
ghost use Rattle.std.specs.Prelude.{◌≡◌};
ghost use Rattle.memory.specs.Answers.{answer_of};
ghost use Rattle.access_spec.specs.Program.{ret};
ghost use Rattle.machine.specs.Cache.{Cache};
ghost use Rattle.machine.specs.Status.{cpu};
ghost use Rattle.datapath.specs.Code.{cpu_out};
ghost use Rattle.isa.specs.Legal.{is_register};
ghost use Rattle.exec_spec.specs.Operands.{missing, check_registers};

use isa::Operand;
use machine::Bank;
use machine::registers::register_of;
use machine::status::is_user;
use memory::answers::{good, raised};
use memory::exceptions::{PRIVILEGE_VIOLATION, UNIMPLEMENTED_REGISTER};

// Whether an operand is a register.
pub fn is_register(o: Operand) -> bool
    ensures { result ≡ is_register o }
{
    match o {
        Operand::General(_, _) => false,
        Operand::Register(_) => true,
    }
}

// Whether an operand names a register that is not there.
pub fn is_missing(o: Operand) -> bool
    ensures { result ≡ missing o }
{
    match o {
        Operand::General(_, _) => false,
        Operand::Register(n) => register_of(n) == 17,
    }
}

// Exception 5 for a register at user level, 6 for one that is not there.
pub fn check_registers(r: &Bank, s: Operand, d: Operand) -> u64
    ensures { (q : Cache) → ret (cpu_out (answer_of result) r.now q) ≡ check_registers (cpu r.now q) s d }
{
    if is_user(r) & (is_register(s) | is_register(d)) {
        raised(PRIVILEGE_VIOLATION)
    } else {
        if is_missing(s) | is_missing(d) {
            raised(UNIMPLEMENTED_REGISTER)
        } else {
            good(0)
        }
    }
}
