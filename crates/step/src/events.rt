// The sequence of an exception, and of what a look found due.
ghost use Rattle.std.specs.Prelude.{◌≡◌, false, ◌%◌};
ghost use Rattle.memory.specs.Answers.{answer_of};
ghost use Rattle.access_spec.specs.Clauses.{Interprets};
ghost use Rattle.machine.specs.Cache.{Cache};
ghost use Rattle.machine.specs.Status.{cpu};
ghost use Rattle.datapath.specs.Code.{cpu_out};
ghost use Rattle.step_pending.specs.Dues.{event_from};
ghost use Rattle.step_spec.specs.Step.{stepped, settled, event_step, exception_step};

use access_spec::Journal;
use exec_event_frames::sequences::{exception_sequence, interrupt_sequence};
use exec_registers::event_frames::reset;
use machine::Bank;
use memory::answers::EXCEPTION;
use memory::exceptions::TRACE;
use step_pending::events::{taken, vector_of};

// A sequence that met a fault on its stack or vector resets.
fn settle(r: &mut Bank, x: u64)
    ensures { (q : Cache) → cpu r.new q ≡ settled (cpu_out (answer_of x) r.old q) }
{
    if EXCEPTION <= x {
        reset(r);
    }
}

// Exception e; 0 is the reset that a fault on the interrupt stack asks for.
pub fn exception_step(m: &mut [u8], journal: &mut Journal, r: &mut Bank, e: u32)
    ensures { (q : Cache) → Interprets (stepped (cpu r.new q) false) m journal (exception_step (cpu r.old q) e) }
{
    if e == 0 {
        reset(r);
        return;
    }
    let x = exception_sequence(m, journal, r, e);
    settle(r, x);
}

// The event of a number of document 01; only its low five bits are used.
pub fn event_step(m: &mut [u8], journal: &mut Journal, r: &mut Bank, code: u32)
    ensures { (q : Cache)
        → Interprets (stepped (cpu r.new q) false) m journal (event_step (cpu r.old q) (event_from (code % 32))) }
{
    let k = code % 32;
    taken(r, k);
    if k == TRACE {
        let x = exception_sequence(m, journal, r, 2);
        settle(r, x);
        return;
    }
    let y = interrupt_sequence(m, journal, r, vector_of(code));
    settle(r, y);
}
