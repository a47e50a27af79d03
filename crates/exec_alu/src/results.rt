// Results of operations with their flags, packed in a number: no branch and no division by 0 on the way.
ghost use Rattle.std.specs.Prelude.{◌≡◌, false, ◌%◌, ◌<◌};
ghost use Rattle.exec_spec.specs.declared.Operation.TheVariants.{Add, Sub, Mul, Div, Rem, Udiv, Urem, And, Or, Xor, Shl, Shr, Ushr};
ghost use Rattle.exec_spec.specs.Alu.{stays, gets, flagged, operate as operate_of};
ghost use Rattle.exec_alu.specs.Results.{flag_from, result_of, unpacked, laid_over};

use crate::psw::{digit, with_bit_as};
use word::products::{div, mul, udiv, urem};
use word::shifts::{bit_and, bit_or, bit_xor, shl, shr, ushr};
use word::sums::{add, sub};

// The codes of the flags stand above the value.
const FLAGS: u64 = 0x1_0000_0000;

// A value with the codes of carry and overflow.
fn packed(value: u32, carry: u32, overflow: u32) -> u64
    requires { (carry < 4) × (overflow < 4) }
    ensures { unpacked result ≡ result_of value (flag_from carry) (flag_from overflow) }
{
    value as u64 + (carry + overflow * 4) as u64 * FLAGS
}

// A value that sets both flags.
fn both_flags(value: u32, carry: bool, overflow: bool) -> u64
    ensures { unpacked result ≡ result_of value (gets carry) (gets overflow) }
{
    packed(value, digit(carry), digit(overflow))
}

// A value that sets the overflow.
fn overflow_only(value: u32, overflow: bool) -> u64
    ensures { unpacked result ≡ result_of value stays (gets overflow) }
{
    packed(value, 2, digit(overflow))
}

// A value that clears the carry.
fn carry_cleared(value: u32) -> u64
    ensures { unpacked result ≡ result_of value (gets false) stays }
{
    packed(value, 0, 2)
}

// A value that leaves the flags.
fn no_flags(value: u32) -> u64
    ensures { unpacked result ≡ result_of value stays stays }
{
    packed(value, 2, 2)
}

// The value of a packed result.
pub fn value_of(w: u64) -> u32
    ensures { result ≡ (unpacked w).value }
{
    (w & 0xFFFF_FFFF) as u32
}

// x with bit n as a flag's code says.
fn with_code(n: u32, code: u32, x: u32) -> u32
    ensures { result ≡ flagged (n % 32) (flag_from code) x }
{
    if code == 2 {
        x
    } else {
        with_bit_as(n, code == 1, x)
    }
}

// The flags of a packed result laid over a PSW.
pub fn laid_over(w: u64, psw: u32) -> u32
    ensures { result ≡ laid_over (unpacked w) psw }
{
    let flags = w >> 32;
    with_code(
        6,
        ((flags >> 2) & 3) as u32,
        with_code(5, (flags & 3) as u32, psw),
    )
}

// ADD, SUB, MUL: both flags.
pub fn packed_add(d: u32, s: u32) -> u64
    ensures { unpacked result ≡ operate_of Add d s }
{
    let t = add(d, s);
    both_flags(t.value, t.carry, t.overflow)
}

pub fn packed_sub(d: u32, s: u32) -> u64
    ensures { unpacked result ≡ operate_of Sub d s }
{
    let t = sub(d, s);
    both_flags(t.value, t.carry, t.overflow)
}

pub fn packed_mul(d: u32, s: u32) -> u64
    ensures { unpacked result ≡ operate_of Mul d s }
{
    let t = mul(d, s);
    both_flags(t.value, t.carry, t.overflow)
}

// DIV and REM set the overflow.
pub fn packed_div(d: u32, s: u32) -> u64
    ensures { unpacked result ≡ operate_of Div d s }
{
    let t = div(d, s);
    overflow_only(t.value, t.overflow)
}

pub fn packed_rem(d: u32, s: u32) -> u64
    ensures { unpacked result ≡ operate_of Rem d s }
{
    let t = div(d, s);
    overflow_only(t.rest, false)
}

// UDIV and UREM clear the carry.
pub fn packed_udiv(d: u32, s: u32) -> u64
    ensures { unpacked result ≡ operate_of Udiv d s }
{
    carry_cleared(udiv(d, s))
}

pub fn packed_urem(d: u32, s: u32) -> u64
    ensures { unpacked result ≡ operate_of Urem d s }
{
    carry_cleared(urem(d, s))
}

// The others leave the flags.
pub fn packed_and(d: u32, s: u32) -> u64
    ensures { unpacked result ≡ operate_of And d s }
{
    no_flags(bit_and(d, s))
}

pub fn packed_or(d: u32, s: u32) -> u64
    ensures { unpacked result ≡ operate_of Or d s }
{
    no_flags(bit_or(d, s))
}

pub fn packed_xor(d: u32, s: u32) -> u64
    ensures { unpacked result ≡ operate_of Xor d s }
{
    no_flags(bit_xor(d, s))
}

pub fn packed_shl(d: u32, s: u32) -> u64
    ensures { unpacked result ≡ operate_of Shl d s }
{
    no_flags(shl(d, s))
}

pub fn packed_shr(d: u32, s: u32) -> u64
    ensures { unpacked result ≡ operate_of Shr d s }
{
    no_flags(shr(d, s))
}

pub fn packed_ushr(d: u32, s: u32) -> u64
    ensures { unpacked result ≡ operate_of Ushr d s }
{
    no_flags(ushr(d, s))
}
