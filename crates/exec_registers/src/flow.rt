// PC and the current stack pointer.
ghost use Rattle.std.specs.Prelude.{◌≡◌, []};
ghost use Rattle.machine.specs.Status.{cpu};
ghost use Rattle.datapath.specs.Clauses.{Becomes};
ghost use Rattle.exec_spec.specs.Operands.{stack_address};
ghost use Rattle.exec_spec.specs.Control.{jumped as jumped_of, next_pc, pc_advanced as advanced_of, with_csp, released as released_of};
ghost use Rattle.exec_spec.specs.EventFrames.{restored_csp};

use machine::Bank;
use machine::places::{ISP, MSP, PC, SHAD, SP};
use machine::status::{cache_on, sp_current};
use word::fields::clear_low;
use word::sums::plus;

// PC at an address, a multiple of two.
pub fn jumped(b: &mut Bank, a: u32)
    ensures { Becomes b (λ c. jumped_of c a) }
{
    b[PC] = clear_low(a, 1);
}

// The address of the instruction in line, n parcels on.
pub fn next_pc(b: &Bank, n: u32) -> u32
    ensures { result ≡ next_pc (cpu b.now []) n }
{
    plus(b[PC], plus(n, n))
}

pub fn advance_pc(b: &mut Bank, n: u32)
    ensures { Becomes b (λ c. advanced_of c n) }
{
    b[PC] = next_pc(b, n);
}

// The current stack pointer and its shadow.
pub fn with_csp(b: &mut Bank, v: u32)
    ensures { Becomes b (λ c. with_csp c v) }
{
    if sp_current(b) {
        b[SP] = v;
        b[SHAD] = v;
    } else {
        b[ISP] = v;
        b[SHAD] = v;
    }
}

// The current stack pointer from its shadow, before an event.
pub fn restored_csp(b: &mut Bank)
    ensures { Becomes b restored_csp }
{
    if sp_current(b) {
        b[SP] = b[SHAD];
    } else {
        b[ISP] = b[SHAD];
    }
}

// An address from the current stack pointer.
pub fn stack_address(b: &Bank, v: u32) -> u32
    ensures { result ≡ stack_address (cpu b.now []) v }
{
    if sp_current(b) {
        plus(b[SP], v)
    } else {
        plus(b[ISP], v)
    }
}

// POPN and RETURN: the stack pointer goes up by v, and MSP with it where it must.
pub fn released(b: &mut Bank, v: u32)
    ensures { Becomes b (λ c. released_of c v) }
{
    let a = clear_low(stack_address(b, v), 4);
    if sp_current(b) & (!cache_on(b) | (b[MSP] < a)) {
        with_csp(b, a);
        b[MSP] = a;
    } else {
        with_csp(b, a);
    }
}
