// The registers: the numbers that name them, the bits that they keep, and when a bank of them is good.
ghost use Rattle.std.specs.Prelude.{◌≡◌};
ghost use Rattle.machine.specs.Registers.{register_of, unreserved as kept_of, clean as clean_of, stack_held, clean_below, good_bank};
ghost use Rattle.machine.specs.Masks.{mask_of};

use crate::Bank;
use crate::places::{MSP, SP};

// Table 1-24: the place of the register that a number names after a CPU prefix; 17 where there is none.
pub fn register_of(n: u32) -> u32
    ensures { result ≡ register_of n }
{
    match n {
        0 => 17,
        1 => 4,
        2 => 3,
        3 => 8,
        4 => 0,
        5 => 6,
        6 => 7,
        7 => 12,
        8 => 9,
        9 => 1,
        10 => 2,
        11 => 10,
        12 => 11,
        _ => 17,
    }
}

// Tables 1-2 to 1-14: the bits of the register at a place that are not reserved.
fn mask(k: u32) -> u32
    ensures { result ≡ mask_of k }
{
    match k {
        0 => 0xFFFF_0000,
        1 => 0xFFFF_FFFF,
        2 => 0xFFFF_FFFF,
        3 => 0xFFFF_FFF0,
        4 => 0xFFFF_FFF0,
        5 => 0xFFFF_FFFE,
        6 => 0x0001_FFF0,
        7 => 0xFFFF_FFF0,
        8 => 0xFFFF_FFF0,
        9 => 0xFFFF_F800,
        10 => 0xFFFF_FFFF,
        11 => 0xFFFF_FFFF,
        12 => 0xFFFF_FFF0,
        _ => 0xFFFF_FFFF,
    }
}

// A word with the reserved bits of the register at a place 0.
pub fn unreserved(k: u32, v: u32) -> u32
    ensures { result ≡ kept_of k v }
{
    v & mask(k)
}

// Whether a word has no reserved bit of the register at a place set.
pub fn clean(k: u32, v: u32) -> bool
    ensures { result ≡ clean_of k v }
{
    unreserved(k, v) == v
}

// Whether MSP is from SP to SP + 256, a plain sum.
pub fn stack_held(sp: u32, msp: u32) -> bool
    ensures { result ≡ stack_held sp msp }
{
    (sp <= msp) & (msp as u64 <= sp as u64 + 256)
}

// Whether no register has a reserved bit set.
fn clean_registers(b: &Bank) -> bool
    ensures { result ≡ clean_below 13 b.now }
{
    let mut ok = true;
    for k in 0..13 {
        ok = ok & clean(k as u32, b[k]);
    }
    ok
}

// Whether no register has a reserved bit set, and MSP is where it must be.
pub fn good_bank(b: &Bank) -> bool
    ensures { result ≡ good_bank b.now }
{
    clean_registers(b) & stack_held(b[SP], b[MSP])
}
