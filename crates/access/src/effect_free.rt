// Places of accesses whose walk neither faults nor sets a bit; 2^32 where it does.
ghost use Rattle.std.specs.Prelude.{◌≡◌};
ghost use Rattle.mmu.specs.declared.AccessKind.TheVariants as kind;
ghost use Rattle.access.specs.Followed.{regime_for};
ghost use Rattle.access.specs.EffectFree.{settled_of, effect_free_place};

use crate::NOWHERE;
use mmu::recording::is_fresh;
use mmu::translation::{translate_fetch, translate_read, translate_write};
use mmu::{AccessKind, Walk};

// Where a walk of kind k ends.
fn settled(m: &[u8], k: AccessKind, w: Walk) -> u64
    ensures { result ≡ settled_of k m.now w }
{
    match w {
        Walk::Fault(_) => NOWHERE,
        Walk::Direct(pa) => pa as u64,
        Walk::Paged(p, pa) => {
            if is_fresh(m, k, p) {
                NOWHERE
            } else {
                pa as u64
            }
        }
    }
}

// The physical place of a fetch at a.
pub fn fetch_place(m: &[u8], stb: u32, user: bool, translated: bool, a: u32) -> u64
    ensures { result ≡ effect_free_place (regime_for stb user translated) kind.Fetch a m.now }
{
    if translated {
        let w = translate_fetch(m, user, stb, a);
        settled(m, AccessKind::Fetch, w)
    } else {
        a as u64
    }
}

// The physical place of a read at a.
pub fn read_place(m: &[u8], stb: u32, user: bool, translated: bool, a: u32) -> u64
    ensures { result ≡ effect_free_place (regime_for stb user translated) kind.Read a m.now }
{
    if translated {
        let w = translate_read(m, user, stb, a);
        settled(m, AccessKind::Read, w)
    } else {
        a as u64
    }
}

// The physical place of a write at a.
pub fn write_place(m: &[u8], stb: u32, user: bool, translated: bool, a: u32) -> u64
    ensures { result ≡ effect_free_place (regime_for stb user translated) kind.Write a m.now }
{
    if translated {
        let w = translate_write(m, user, stb, a);
        settled(m, AccessKind::Write, w)
    } else {
        a as u64
    }
}
