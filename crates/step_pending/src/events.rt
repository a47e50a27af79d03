// What a look before a step finds due (1.11.2, 1.11.5).
ghost use Rattle.std.specs.Prelude.{◌≡◌, ◌%◌, ◌≤◌};
ghost use Rattle.word.specs.Fields.{field_of};
ghost use Rattle.datapath.specs.Clauses.{Becomes};
ghost use Rattle.step_spec.specs.Events.{due_of, looked as looked_of, taken_of, vector_of};
ghost use Rattle.step_spec.specs.Step.{trace_falls};
ghost use Rattle.step_pending.specs.Dues.{due_code, nothing_due, event_from};

use machine::Bank;
use machine::bits::{PRIORITY, PRIORITY_BITS};
use machine::places::{NMI_TAKEN, PSW, TIMER1_DUE, TIMER2_DUE, TRACE_DUE};
use memory::exceptions::TRACE;
use word::fields::field;
use word::sums::plus;

// Document 01's numbers of what is due: an interrupt of level 0, and of level 1; the timers. A trace has its exception's.
const INTERRUPT: u32 = 0x10;

const INTERRUPT_1: u32 = INTERRUPT + 1;

const TIMER1: u32 = 0x17;

const TIMER2: u32 = 0x18;

// Table 1-14: places of vectors.
const EXCEPTION_VECTOR: u32 = 4;

const INTERRUPT_VECTOR: u32 = 16;

// A look that finds another level ends the wait of input 0.
pub fn looked(b: &mut Bank, level: u32)
    ensures { Becomes b (looked_of level) }
{
    if level != 0 {
        b[NMI_TAKEN] = 0;
    }
}

// A trace falls due.
pub fn trace_falls(b: &mut Bank, on: bool)
    ensures { Becomes b (trace_falls on) }
{
    if on {
        b[TRACE_DUE] = 1;
    }
}

// The interrupt priority level.
fn priority(x: u32) -> u32
    ensures { result ≡ field_of x 12 3 }
{
    field(x, PRIORITY, PRIORITY_BITS)
}

// Whether no interrupt is asked for and nothing is due: most steps.
fn nothing_due(b: &Bank, level: u32) -> bool
    ensures { result ≡ nothing_due level b.now }
{
    (6 < level) & (b[TIMER1_DUE] != 1) & (b[TIMER2_DUE] != 1) & (b[TRACE_DUE] != 1)
}

// What is due, by document 01's number; 0 for nothing.
fn find_due(b: &Bank, level: u32) -> u32
    ensures { result ≡ due_code (due_of level b.now) }
{
    let p = priority(b[PSW]);
    if (level == 0) & (b[NMI_TAKEN] != 1) {
        return INTERRUPT;
    }
    if (level == 1) & (1 < p) {
        return INTERRUPT_1;
    }
    if (b[TIMER1_DUE] == 1) & (1 < p) {
        return TIMER1;
    }
    if (b[TIMER2_DUE] == 1) & (1 < p) {
        return TIMER2;
    }
    if (2 <= level) & (level <= 6) & (level < p) {
        return plus(INTERRUPT, level);
    }
    if b[TRACE_DUE] == 1 { TRACE } else { 0 }
}

// The same, with the test that most steps end at.
pub fn due_code(b: &Bank, level: u32) -> u32
    ensures { result ≡ due_code (due_of level b.now) }
{
    if nothing_due(b, level) {
        0
    } else {
        find_due(b, level)
    }
}

// The vector's place for an event; only the low five bits of its number are used. Below 16 a number is the trace's, or
// stands for an interrupt of level 0.
pub fn vector_of(code: u32) -> u32
    ensures { result ≡ vector_of (event_from (code % 32)) }
{
    let k = code % 32;
    if k < INTERRUPT {
        if k == TRACE {
            EXCEPTION_VECTOR
        } else {
            INTERRUPT_VECTOR
        }
    } else {
        k * 4 - 48
    }
}

// The trace, or input 0.
fn low_taken(b: &mut Bank, code: u32)
    requires { code ≤ 16 }
    ensures { Becomes b (taken_of (event_from code)) }
{
    if code == TRACE {
        b[TRACE_DUE] = 0;
    } else {
        b[NMI_TAKEN] = 1;
    }
}

// What is taken is no longer due.
pub fn taken(b: &mut Bank, code: u32)
    ensures { Becomes b (taken_of (event_from code)) }
{
    if code == TIMER1 {
        b[TIMER1_DUE] = 0;
        return;
    }
    if code == TIMER2 {
        b[TIMER2_DUE] = 0;
        return;
    }
    if code <= INTERRUPT {
        low_taken(b, code);
    }
}
