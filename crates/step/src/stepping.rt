// The step, by value of what it leaves: whether an instruction completed.
ghost use Rattle.memory.specs.Answers.{answer_of};
ghost use Rattle.access_spec.specs.Clauses.{Interprets};
ghost use Rattle.machine.specs.Cache.{Cache};
ghost use Rattle.machine.specs.Status.{cpu};
ghost use Rattle.datapath.specs.Clauses.{entry_cpu, exit_cpu};
ghost use Rattle.exec.specs.Code.{acted_out};
ghost use Rattle.step_spec.specs.Step.{stepped, finish as finish_of, instruction_step, step as step_of};

use crate::events::{event_step, exception_step};
use access_spec::Journal;
use exec::attempt::attempt;
use machine::bits::TRACE_INSTRUCTION;
use machine::places::PSW;
use machine::{Bank, Quads};
use memory::answers::{EXCEPTION, low32};
use step_pending::events::{due_code, looked, trace_falls};
use step_pending::tracing::traces_at;
use word::fields::bit;

// After an attempt that began with the PSW p: a trace falls due, or the exception is taken.
fn finish(m: &mut [u8], journal: &mut Journal, r: &mut Bank, p: u32, x: u64) -> bool
    ensures { (q : Cache) → Interprets (stepped (cpu r.new q) result) m journal (finish_of p (acted_out (answer_of x) r.old q)) }
{
    if EXCEPTION <= x {
        exception_step(m, journal, r, low32(x));
        return false;
    }
    if x < 3 {
        trace_falls(r, traces_at(p, low32(x)));
        return true;
    }
    trace_falls(r, bit(p, TRACE_INSTRUCTION));
    false
}

// The instruction at PC.
fn instruction_step(m: &mut [u8], journal: &mut Journal, q: &mut Quads, r: &mut Bank) -> bool
    ensures { Interprets (stepped (exit_cpu q r) result) m journal (instruction_step (entry_cpu q r)) }
{
    let p = r[PSW];
    let x = attempt(m, journal, q, r, false);
    finish(m, journal, r, p, x)
}

// One step with the interrupt input at a level.
pub fn step(m: &mut [u8], journal: &mut Journal, q: &mut Quads, r: &mut Bank, level: u32) -> bool
    ensures { Interprets (stepped (exit_cpu q r) result) m journal (step_of level (entry_cpu q r)) }
{
    looked(r, level);
    let due = due_code(r, level);
    if due == 0 {
        instruction_step(m, journal, q, r)
    } else {
        event_step(m, journal, r, due);
        false
    }
}
