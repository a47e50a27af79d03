// The PSW in the bank.
ghost use Rattle.std.specs.Prelude.{◌%◌};
ghost use Rattle.datapath.specs.Clauses.{Becomes};
ghost use Rattle.exec_spec.specs.Alu.{with_flags, with_flag};
ghost use Rattle.exec_spec.specs.Dyadic.{tagged_flags};
ghost use Rattle.exec_spec.specs.Control.{test_bit, with_guard};
ghost use Rattle.exec_alu.specs.Results.{unpacked};

use exec_alu::operations::tagged_over;
use exec_alu::psw::{test_bit, with_bit_as};
use exec_alu::results::laid_over;
use machine::Bank;
use machine::bits::{ENTER_GUARD, FLAG};
use machine::places::PSW;
use word::Tagged;

// Carry and overflow of a packed result.
pub fn with_flags(b: &mut Bank, w: u64)
    ensures { Becomes b (λ c. with_flags c (unpacked w).carry (unpacked w).overflow) }
{
    b[PSW] = laid_over(w, b[PSW]);
}

// The flag bit.
pub fn with_flag(b: &mut Bank, f: bool)
    ensures { Becomes b (λ c. with_flag c f) }
{
    b[PSW] = with_bit_as(FLAG, f, b[PSW]);
}

// The flags of TADD and TSUB.
pub fn tagged_flags(b: &mut Bank, t: Tagged)
    ensures { Becomes b (λ c. tagged_flags c t) }
{
    b[PSW] = tagged_over(t, b[PSW]);
}

// TESTC and TESTV.
pub fn tested(b: &mut Bank, n: u32)
    ensures { Becomes b (λ c. test_bit c (n % 32)) }
{
    b[PSW] = test_bit(b[PSW], n);
}

// The enter guard.
pub fn with_guard(b: &mut Bank, on: bool)
    ensures { Becomes b (λ c. with_guard c on) }
{
    b[PSW] = with_bit_as(ENTER_GUARD, on, b[PSW]);
}
