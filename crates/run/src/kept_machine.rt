// One kept machine, advanced in its own storage: the stepping call of the operator's screen.
ghost use Rattle.std.specs.Prelude.{◌≡◌};
ghost use Rattle.machine.specs.Record.{cpu_of};
ghost use Rattle.run_spec.specs.Run.{board};
ghost use Rattle.run.specs.Code.{step_result_of, one_step};

use crate::running::step;
use machine::Machine;

// One step with the interrupt input at a level; 0, or the refusal that left machine and memory as they were.
pub fn step_kept(m: &mut Machine, memory: &mut [u8], level: u32) -> u32
    ensures { step_result_of result m.new memory.new ≡ one_step level (board (cpu_of m.old) memory.old) }
{
    let s = step(*m, memory, level);
    *m = s.machine;
    s.refusal
}
