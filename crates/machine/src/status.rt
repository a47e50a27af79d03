// What the bits of PSW (Table 1-8) and CONFIG (Table 1-2) say of a bank.
ghost use Rattle.std.specs.Prelude.{◌≡◌};
ghost use Rattle.machine.specs.Status.{is_virtual, is_user, sp_current, csp as csp_of, is_little, cache_on};
ghost use Rattle.machine.specs.Status.{cached as cached_of};

use crate::Bank;
use crate::bits::{KERNEL_LITTLE, SP_CURRENT, STACK_CACHE, USER_LEVEL, USER_LITTLE, VIRTUAL};
use crate::places::{CONFIG, ISP_PLACE, MSP, PSW, SP, SP_PLACE};
use word::fields::bit;

// Whether addresses are translated.
pub fn is_virtual(b: &Bank) -> bool
    ensures { result ≡ is_virtual b.now }
{
    bit(b[PSW], VIRTUAL)
}

// Whether the level is the user's.
pub fn is_user(b: &Bank) -> bool
    ensures { result ≡ is_user b.now }
{
    bit(b[PSW], USER_LEVEL)
}

// Whether SP, and not ISP, is the current stack pointer.
pub fn sp_current(b: &Bank) -> bool
    ensures { result ≡ sp_current b.now }
{
    bit(b[PSW], SP_CURRENT)
}

// The current stack pointer's place in the bank.
pub fn csp(b: &Bank) -> u32
    ensures { result ≡ csp_of b.now }
{
    if sp_current(b) { SP_PLACE } else { ISP_PLACE }
}

// Whether data is little-endian at the level of the moment.
pub fn is_little(b: &Bank) -> bool
    ensures { result ≡ is_little b.now }
{
    if is_user(b) {
        bit(b[PSW], USER_LITTLE)
    } else {
        bit(b[CONFIG], KERNEL_LITTLE)
    }
}

// Whether the stack cache answers at all.
pub fn cache_on(b: &Bank) -> bool
    ensures { result ≡ cache_on b.now }
{
    bit(b[CONFIG], STACK_CACHE) & sp_current(b)
}

// Whether a data access at an address is to the stack cache.
pub fn cached(b: &Bank, a: u32) -> bool
    ensures { result ≡ cached_of b.now a }
{
    cache_on(b) & (b[SP] <= a) & (a < b[MSP])
}
