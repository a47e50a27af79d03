// The place of a quad-word whose four words one walk finds; 2^32 where each goes by a walk of its own.
ghost use Rattle.std.specs.Prelude.{◌≡◌};
ghost use Rattle.mmu.specs.declared.AccessKind.TheVariants as kind;
ghost use Rattle.access.specs.Quads.{shares_walk, shared_of, quad_place};

use crate::NOWHERE;
use mmu::entries::segment_place;
use mmu::recording::is_fresh;
use mmu::translation::{translate_fill, translate_flush};
use mmu::{AccessKind, Walk};

// Whether one walk does for all words of the quad-word at a, found at pa by the page entry at p.
fn shares_walk(m: &[u8], stb: u32, k: AccessKind, a: u32, p: u32, pa: u32) -> bool
    ensures { result ≡ shares_walk stb k a m.now p pa }
{
    let e = segment_place(stb, a);
    if is_fresh(m, k, p) {
        return false;
    }
    if (a % 16 != 0) | (pa % 16 != 0) {
        return false;
    }
    if m.len() < pa as usize + 16 {
        return false;
    }
    if p >> 4 == pa >> 4 {
        return false;
    }
    e >> 4 != pa >> 4
}

// The place by the walk of its address.
fn shared(m: &[u8], stb: u32, k: AccessKind, a: u32, w: Walk) -> u64
    ensures { result ≡ shared_of stb k a m.now w }
{
    match w {
        Walk::Fault(_) => NOWHERE,
        Walk::Direct(_) => NOWHERE,
        Walk::Paged(p, pa) => {
            if shares_walk(m, stb, k, a, p, pa) {
                pa as u64
            } else {
                NOWHERE
            }
        }
    }
}

// The place of the quad-word at a, to be read into the cache.
pub fn fill_place(m: &[u8], stb: u32, user: bool, a: u32) -> u64
    ensures { result ≡ quad_place user stb kind.Read a m.now }
{
    let w = translate_fill(m, user, stb, a);
    shared(m, stb, AccessKind::Read, a, w)
}

// The place of the quad-word at a, to be written from the cache.
pub fn flush_place(m: &[u8], stb: u32, user: bool, a: u32) -> u64
    ensures { result ≡ quad_place user stb kind.Write a m.now }
{
    let w = translate_flush(m, user, stb, a);
    shared(m, stb, AccessKind::Write, a, w)
}
