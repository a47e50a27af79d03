// Tagged sums and differences (1.8.4), with the flags as they were before.
ghost use Rattle.std.specs.Prelude.{◌≡◌};
ghost use Rattle.word.specs.Tags.{bad_tag_of, checked_of, tagged_of, tagged_add_of, tagged_sub_of};

use crate::sums::{add, sub};
use crate::{Sum, Tagged};

// Whether an operand's low two bits are not 0.
pub fn bad_tag(b: u32, a: u32) -> bool
    ensures { result ≡ bad_tag_of b a }
{
    (a % 4 != 0) | (b % 4 != 0)
}

// What is left of a result s whose operands had good tags.
pub fn checked(b: u32, s: Sum) -> Tagged
    ensures { result ≡ checked_of b s }
{
    if s.overflow {
        Tagged {
            value: b,
            stored: false,
            carry: s.carry,
            overflow: true,
            flag: true,
        }
    } else {
        Tagged {
            value: s.value,
            stored: true,
            carry: s.carry,
            overflow: false,
            flag: false,
        }
    }
}

// What is left of a result s of b and a.
pub fn tagged(b: u32, a: u32, carry: bool, overflow: bool, s: Sum) -> Tagged
    ensures { result ≡ tagged_of b a carry overflow s }
{
    if bad_tag(b, a) {
        Tagged {
            value: b,
            stored: false,
            carry,
            overflow,
            flag: true,
        }
    } else {
        checked(b, s)
    }
}

// TADD.
pub fn tagged_add(b: u32, a: u32, carry: bool, overflow: bool) -> Tagged
    ensures { result ≡ tagged_add_of b a carry overflow }
{
    tagged(b, a, carry, overflow, add(b, a))
}

// TSUB.
pub fn tagged_sub(b: u32, a: u32, carry: bool, overflow: bool) -> Tagged
    ensures { result ≡ tagged_sub_of b a carry overflow }
{
    tagged(b, a, carry, overflow, sub(b, a))
}
