// Products, quotients and remainders of words.
ghost use Rattle.std.specs.Prelude.{◌≡◌, ◌*◌};
ghost use Rattle.word.specs.Signed.{negative_of, magnitude_of, with_sign, differ_of, limit_of};
ghost use Rattle.word.specs.Products.{mul_of, udiv_of, urem_of, div_of};

use crate::sums::minus;
use crate::{Quotient, Sum};

// Whether the signed number of a word is negative.
pub fn is_negative(x: u32) -> bool
    ensures { result ≡ negative_of x }
{
    0x8000_0000 <= x
}

// The magnitude of a word's signed number.
pub fn magnitude(x: u32) -> u32
    ensures { result ≡ magnitude_of x }
{
    if 0x8000_0000 <= x {
        0xFFFF_FFFF - x + 1
    } else {
        x
    }
}

// The word of a sign and a magnitude.
pub fn with_sign(negative: bool, size: u32) -> u32
    ensures { result ≡ with_sign negative size }
{
    if negative { minus(0, size) } else { size }
}

// Whether the signs differ, so that a product or quotient is negative.
pub fn differ(b: u32, a: u32) -> bool
    ensures { result ≡ differ_of b a }
{
    is_negative(b) != is_negative(a)
}

// The largest magnitude of a signed word with this sign.
pub fn limit(negative: bool) -> u32
    ensures { result ≡ limit_of negative }
{
    if negative { 0x8000_0000 } else { 0x7FFF_FFFF }
}

// How many words there are.
const WORDS: u64 = 0x1_0000_0000;

// The whole product of two words.
pub fn product(b: u32, a: u32) -> u64
    ensures { result ≡ b * a }
{
    b as u64 * a as u64
}

// MUL: b * a.
pub fn mul(b: u32, a: u32) -> Sum
    ensures { result ≡ mul_of b a }
{
    let wide = product(b, a);
    Sum {
        value: (wide % WORDS) as u32,
        carry: 0xFFFF_FFFF < wide,
        overflow: (limit(differ(b, a)) as u64) < product(magnitude(b), magnitude(a)),
    }
}

// UDIV: b by a, unsigned; 0 where a is 0.
pub fn udiv(b: u32, a: u32) -> u32
    ensures { result ≡ udiv_of b a }
{
    if a == 0 { 0 } else { b / a }
}

// UREM: the remainder of b by a, unsigned; b where a is 0.
pub fn urem(b: u32, a: u32) -> u32
    ensures { result ≡ urem_of b a }
{
    if a == 0 { b } else { b % a }
}

// DIV and REM: b by a, signed, with the remainder.
pub fn div(b: u32, a: u32) -> Quotient
    ensures { result ≡ div_of b a }
{
    let whole = magnitude(b);
    let by = magnitude(a);
    Quotient {
        value: with_sign(differ(b, a), udiv(whole, by)),
        rest: with_sign(is_negative(b), urem(whole, by)),
        overflow: (b == 0x8000_0000) & (a == 0xFFFF_FFFF),
    }
}
