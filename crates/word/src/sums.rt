// Sums, differences and comparisons of words.
ghost use Rattle.std.specs.Prelude.{◌≡◌};
ghost use Rattle.word.specs.Sums.{plus_of, minus_of, add_of, sub_of, equal_of, greater_of, higher_of};

use crate::Sum;
use crate::products::differ;

// a + b, modulo 2^32: every address sum.
pub fn plus(a: u32, b: u32) -> u32
    ensures { result ≡ plus_of a b }
{
    std::num::wrapping_add_u32(a, b)
}

// a - b, modulo 2^32: every address difference.
pub fn minus(a: u32, b: u32) -> u32
    ensures { result ≡ minus_of a b }
{
    std::num::wrapping_sub_u32(a, b)
}

// ADD: b + a. A sum below an operand has wrapped; one whose sign is neither operand's has overflowed.
pub fn add(b: u32, a: u32) -> Sum
    ensures { result ≡ add_of b a }
{
    let value = plus(b, a);
    Sum {
        value,
        carry: value < b,
        overflow: differ(b, value) & differ(a, value),
    }
}

// SUB: b - a; the carry is the borrow. Of operands with different signs the difference has the sign of b, or overflowed.
pub fn sub(b: u32, a: u32) -> Sum
    ensures { result ≡ sub_of b a }
{
    let value = minus(b, a);
    Sum {
        value,
        carry: b < a,
        overflow: differ(b, a) & differ(b, value),
    }
}

// CMPEQ: src1 = src2.
pub fn equal(src1: u32, src2: u32) -> bool
    ensures { result ≡ equal_of src1 src2 }
{
    src1 == src2
}

// CMPGT: src1 > src2, signed.
pub fn greater(src1: u32, src2: u32) -> bool
    ensures { result ≡ greater_of src1 src2 }
{
    plus(src2, 0x8000_0000) < plus(src1, 0x8000_0000)
}

// CMPHI: src1 > src2, unsigned.
pub fn higher(src1: u32, src2: u32) -> bool
    ensures { result ≡ higher_of src1 src2 }
{
    src2 < src1
}
