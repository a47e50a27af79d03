// What the instructions of two operands compute.
ghost use Rattle.std.specs.Prelude.{◌≡◌};
ghost use Rattle.exec_spec.specs.Alu.{operate as operate_of, divides as divides_of, related as related_of};
ghost use Rattle.exec_alu.specs.Results.{unpacked};
ghost use Rattle.exec_spec.specs.Dyadic.{tagged_with, tagged_over};

use crate::psw::with_bit_as;
use crate::results::{
    packed_add, packed_and, packed_div, packed_mul, packed_or, packed_rem, packed_shl, packed_shr,
    packed_sub, packed_udiv, packed_urem, packed_ushr, packed_xor,
};
use exec_spec::{Operation, Relation};
use machine::bits::{CARRY, OVERFLOW};
use word::Tagged;
use word::fields::bit;
use word::sums::{equal, greater, higher};
use word::tags::{tagged_add, tagged_sub};

// An operation on destination d and source s: the value and the flags it sets, packed.
pub fn operate(op: Operation, d: u32, s: u32) -> u64
    ensures { unpacked result ≡ operate_of op d s }
{
    match op {
        Operation::Add => packed_add(d, s),
        Operation::Sub => packed_sub(d, s),
        Operation::Mul => packed_mul(d, s),
        Operation::Div => packed_div(d, s),
        Operation::Rem => packed_rem(d, s),
        Operation::Udiv => packed_udiv(d, s),
        Operation::Urem => packed_urem(d, s),
        Operation::And => packed_and(d, s),
        Operation::Or => packed_or(d, s),
        Operation::Xor => packed_xor(d, s),
        Operation::Shl => packed_shl(d, s),
        Operation::Shr => packed_shr(d, s),
        Operation::Ushr => packed_ushr(d, s),
    }
}

// Whether a source of 0 is a zero divide.
pub fn divides(op: Operation) -> bool
    ensures { result ≡ divides_of op }
{
    match op {
        Operation::Add => false,
        Operation::Sub => false,
        Operation::Mul => false,
        Operation::Div => true,
        Operation::Rem => true,
        Operation::Udiv => true,
        Operation::Urem => true,
        Operation::And => false,
        Operation::Or => false,
        Operation::Xor => false,
        Operation::Shl => false,
        Operation::Shr => false,
        Operation::Ushr => false,
    }
}

// CMP: src1 rel src2, the source operand first.
pub fn related(r: Relation, s: u32, d: u32) -> bool
    ensures { result ≡ related_of r s d }
{
    match r {
        Relation::Equal => equal(s, d),
        Relation::Greater => greater(s, d),
        Relation::Higher => higher(s, d),
    }
}

// TSUB or TADD of destination d and source s, by the flags of a PSW.
pub fn tagged(minus: bool, psw: u32, d: u32, s: u32) -> Tagged
    ensures { result ≡ tagged_with minus psw d s }
{
    let carry = bit(psw, CARRY);
    let overflow = bit(psw, OVERFLOW);
    if minus {
        tagged_sub(d, s, carry, overflow)
    } else {
        tagged_add(d, s, carry, overflow)
    }
}

// The flags of TADD and TSUB laid over a PSW.
pub fn tagged_over(t: Tagged, psw: u32) -> u32
    ensures { result ≡ tagged_over t psw }
{
    with_bit_as(
        4,
        t.flag,
        with_bit_as(OVERFLOW, t.overflow, with_bit_as(CARRY, t.carry, psw)),
    )
}
