// Bits of the PSW (Table 1-8), as numbers.
ghost use Rattle.std.specs.Prelude.{◌≡◌, ◌*◌, ◌/◌, ◌%◌, ◌^◌};
ghost use Rattle.word.specs.Fields.{bit_of};
ghost use Rattle.machine.specs.Bits.{flag_bit};
ghost use Rattle.exec_spec.specs.Alu.{bit_digit as digit_of, with_bit_as};
ghost use Rattle.exec_spec.specs.Control.{tested_of};

use machine::bits::FLAG;
use word::fields::{bit, clear_low, set_bit};

// A flag as a digit.
pub fn digit(b: bool) -> u32
    ensures { result ≡ digit_of b }
{
    if b { 1 } else { 0 }
}

// x with bit n as b, only the low five bits of n are used: the bit is set, and taken off again where it is not wanted.
pub fn with_bit_as(n: u32, b: bool, x: u32) -> u32
    ensures { result ≡ with_bit_as (n % 32) b x }
{
    set_bit(x, n) - (digit(!b) << (n % 32))
}

// The flag bit.
pub fn flag(x: u32) -> bool
    ensures { result ≡ bit_of x flag_bit }
{
    bit(x, FLAG)
}

// TESTC and TESTV: bit n goes to the flag bit, and is cleared.
pub fn test_bit(x: u32, n: u32) -> u32
    ensures { result ≡ tested_of x (n % 32) }
{
    with_bit_as(FLAG, bit(x, n), with_bit_as(n, false, x))
}

// "PSW &= 0xFFFF0000" at the end of a sequence.
pub fn masked(x: u32) -> u32
    ensures { result ≡ x / 2 ^ 16 * 2 ^ 16 }
{
    clear_low(x, 16)
}
