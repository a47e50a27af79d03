// Registers in event sequences (1.11).
ghost use Rattle.std.specs.Prelude.{◌*◌, ◌/◌, ◌^◌};
ghost use Rattle.machine.specs.Registers.{isp, psw, shad};
ghost use Rattle.machine.specs.Status.{with, reg};
ghost use Rattle.word.specs.Sums.{minus_of};
ghost use Rattle.datapath.specs.Clauses.{Becomes};
ghost use Rattle.exec_spec.specs.Control.{jumped as jumped_of};
ghost use Rattle.exec_spec.specs.EventFrames.{returned as returned_of, reset as reset_of};

use exec_alu::psw::masked;
use machine::Bank;
use machine::places::{CONFIG, ISP, PC, PSW, SHAD, SP, TIMER1_DUE, TIMER2_DUE, TRACE_DUE};
use machine::registers::unreserved;
use machine::status::sp_current;
use word::fields::clear_low;
use word::sums::{minus, plus};

// A frame of a quad-word on the interrupt stack.
pub fn pushed(b: &mut Bank)
    ensures { Becomes b (λ c. with (with c isp (minus_of (reg c isp) 16)) shad (minus_of (reg c isp) 16)) }
{
    let i = minus(b[ISP], 16);
    b[ISP] = i;
    b[SHAD] = i;
}

// PC from a vector, and the PSW of a handler.
pub fn vectored(b: &mut Bank, a: u32)
    ensures { Becomes b (λ c. with (jumped_of c a) psw (reg c psw / 2 ^ 16 * 2 ^ 16)) }
{
    let p = masked(b[PSW]);
    b[PC] = clear_low(a, 1);
    b[PSW] = p;
}

// KRET and CRET: the words a and p of PC and PSW restored, and the frame left.
pub fn returned(b: &mut Bank, a: u32, p: u32)
    ensures { Becomes b (λ c. returned_of c a p) }
{
    let i = plus(b[ISP], 16);
    b[PC] = clear_low(a, 1);
    b[PSW] = unreserved(6, p);
    b[ISP] = i;
    if sp_current(b) {
        b[SHAD] = b[SP];
    } else {
        b[SHAD] = b[ISP];
    }
}

// The reset by a fault.
pub fn reset(b: &mut Bank)
    ensures { Becomes b reset_of }
{
    b[SHAD] = b[PSW];
    b[PSW] = 0;
    b[CONFIG] = 0;
    b[PC] = 0;
    b[TRACE_DUE] = 0;
    b[TIMER1_DUE] = 0;
    b[TIMER2_DUE] = 0;
}
