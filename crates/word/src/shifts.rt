// Shifts of words by the low five bits of a count, and the bitwise operations.
ghost use Rattle.std.specs.Prelude.{◌≡◌, bit_and, bit_or, bit_xor};
ghost use Rattle.word.specs.Shifts.{shl_of, shr_of, ushr_of};

use crate::products::is_negative;

// SHL: b shifted left, with zeros from the right.
pub fn shl(b: u32, a: u32) -> u32
    ensures { result ≡ shl_of b a }
{
    b << (a % 32)
}

// USHR: b shifted right, with zeros from the left.
pub fn ushr(b: u32, a: u32) -> u32
    ensures { result ≡ ushr_of b a }
{
    b >> (a % 32)
}

// SHR: b shifted right, with copies of its sign bit from the left.
pub fn shr(b: u32, a: u32) -> u32
    ensures { result ≡ shr_of b a }
{
    if is_negative(b) {
        ushr(b, a) + (0xFFFF_FFFF - ushr(0xFFFF_FFFF, a))
    } else {
        ushr(b, a)
    }
}

// AND.
pub fn bit_and(b: u32, a: u32) -> u32
    ensures { result ≡ bit_and b a }
{
    b & a
}

// OR.
pub fn bit_or(b: u32, a: u32) -> u32
    ensures { result ≡ bit_or b a }
{
    b | a
}

// XOR.
pub fn bit_xor(b: u32, a: u32) -> u32
    ensures { result ≡ bit_xor b a }
{
    b ^ a
}
