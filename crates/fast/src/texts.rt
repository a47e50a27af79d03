// The text at PC, by one walk where that does for all its parcels and sets no bit.
ghost use Rattle.std.specs.Prelude.{◌≡◌, length, ◌+◌, ◌%◌, ◌^◌, ◌<◌, ◌≤◌};
ghost use Rattle.mmu.specs.declared.AccessKind.TheVariants as kind;
ghost use Rattle.machine.specs.Status.{regime};
ghost use Rattle.access.specs.EffectFree.{EffectFree};
ghost use Rattle.isa.specs.Decode.{decode_of, cpu_prefix};
ghost use Rattle.fast_decode.specs.Plans.{plan_of};
ghost use Rattle.fast.specs.Performed.{parcel_at, text_at};

use access::NOWHERE;
use access::effect_free::fetch_place;
use fast_decode::Plan;
use fast_decode::short::plan_short;
use fast_decode::wide::plan_wide;
use machine::Bank;
use machine::places::STB;
use machine::status::{is_user, is_virtual};
use memory::loads::number2;

// The place of the ten bytes from the address a, if they lie in one page and in memory; else 2^32.
pub(crate) fn text_place(m: &[u8], r: &Bank, a: u32) -> u64
    ensures { result < 2 ^ 32 → EffectFree (regime r.now) kind.Fetch a m.now result
        × (a % 2 ≡ 0) × (a % 0x1000 + 10 ≤ 0x1000) × (a < 2 ^ 32) × (result + 10 ≤ length m.now) }
{
    if a % 2 != 0 {
        return NOWHERE;
    }
    if 0xFF6 < a % 0x1000 {
        return NOWHERE;
    }
    let x = fetch_place(m, r[STB], is_user(r), is_virtual(r), a);
    if NOWHERE <= x {
        return x;
    }
    if m.len() < x as usize + 10 {
        return NOWHERE;
    }
    x
}

// The parcel at a place in memory.
pub(crate) fn parcel(m: &[u8], i: usize) -> u16
    requires { i + 2 ≤ length m.now }
    ensures { result ≡ parcel_at m.now i }
{
    (number2(m[i], m[i + 1]) & 0xFFFF) as u16
}

// The plan of the text there, whose first parcel is p.
pub(crate) fn plan_at(m: &[u8], i: usize, p: u16) -> Plan
    requires { (i + 10 ≤ length m.now) × (p ≡ parcel_at m.now i) × (p ≡ cpu_prefix → ⊥) }
    ensures { result ≡ plan_of (decode_of (text_at m.now i)) }
{
    if p >> 14 < 2 {
        return plan_short(p);
    }
    plan_wide(
        p,
        parcel(m, i + 2),
        parcel(m, i + 4),
        parcel(m, i + 6),
        parcel(m, i + 8),
    )
}
