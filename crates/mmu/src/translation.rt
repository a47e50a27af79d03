// The walk: from a virtual address to a physical one, in two stages.
ghost use Rattle.std.specs.Prelude.{◌≡◌};
ghost use Rattle.mmu.specs.declared.AccessKind.TheVariants as kind;
ghost use Rattle.mmu.specs.Walk.{segment_of, segment, nonpaged_of, page_of, walk, route as route_of};

use crate::entries::{fault_of, page_place, permits, placed, segment_place};
use crate::{AccessKind, NONPAGED, Segment, VALID, Walk};
use memory::answers::{EXCEPTION, low32};
use memory::loads::load_word;
use word::fields::{bit, field};

// The first stage, by the word of the segment entry.
pub fn segment_of(m: &[u8], va: u32, e: u32) -> Segment
    ensures { result ≡ segment_of m.now va e }
{
    if bit(e, VALID) {
        if bit(e, NONPAGED) {
            Segment::Nonpaged(e)
        } else {
            let p = page_place(e, va);
            if p as usize + 4 <= m.len() {
                Segment::Table(p)
            } else {
                Segment::Outside
            }
        }
    } else {
        Segment::Invalid
    }
}

// The first stage: what the segment number of an address leads to.
pub fn segment_entry(m: &[u8], stb: u32, va: u32) -> Segment
    ensures { result ≡ segment stb va m.now }
{
    let x = load_word(m, segment_place(stb, va));
    if x < EXCEPTION {
        segment_of(m, va, low32(x))
    } else {
        Segment::Outside
    }
}

// The second stage in a nonpaged segment.
pub fn nonpaged(user: bool, k: AccessKind, va: u32, e: u32) -> Walk
    ensures { result ≡ nonpaged_of user k va e }
{
    if (field(va, 12, 10) <= field(e, 12, 10)) & permits(user, k, e) {
        Walk::Direct(placed(field(e, 22, 10), 22, field(va, 0, 22)))
    } else {
        Walk::Fault(fault_of(k))
    }
}

// The second stage in a page, by the word e of the page entry at p.
pub fn page(user: bool, k: AccessKind, va: u32, p: u32, e: u32) -> Walk
    ensures { result ≡ page_of user k va p e }
{
    if bit(e, VALID) & permits(user, k, e) {
        Walk::Paged(p, placed(field(e, 12, 20), 12, field(va, 0, 12)))
    } else {
        Walk::Fault(fault_of(k))
    }
}

// The second stage. A page entry that the first stage gives lies in memory, so its load has a value. (stb stands in
// the contract alone.)
fn second_stage(m: &[u8], user: bool, stb: u32, k: AccessKind, va: u32, s: Segment) -> Walk
    requires { s ≡ segment stb va m.now }
    ensures { result ≡ walk user stb k va m.now }
{
    match s {
        Segment::Outside => Walk::Fault(0xB),
        Segment::Invalid => Walk::Fault(fault_of(k)),
        Segment::Nonpaged(e) => nonpaged(user, k, va, e),
        Segment::Table(p) => page(user, k, va, p, low32(load_word(m, p))),
    }
}

// The walk of a virtual address.
pub fn translate(m: &[u8], user: bool, stb: u32, k: AccessKind, va: u32) -> Walk
    ensures { result ≡ walk user stb k va m.now }
{
    let s = segment_entry(m, stb, va);
    second_stage(m, user, stb, k, va, s)
}

// The same by the kind of access, for places whose walk sets no bit, and for the quad-words that a fill reads and a flush
// writes: each has one caller, so that the compiler lays it there.
pub fn translate_fetch(m: &[u8], user: bool, stb: u32, va: u32) -> Walk
    ensures { result ≡ walk user stb kind.Fetch va m.now }
{
    let s = segment_entry(m, stb, va);
    second_stage(m, user, stb, AccessKind::Fetch, va, s)
}

pub fn translate_read(m: &[u8], user: bool, stb: u32, va: u32) -> Walk
    ensures { result ≡ walk user stb kind.Read va m.now }
{
    let s = segment_entry(m, stb, va);
    second_stage(m, user, stb, AccessKind::Read, va, s)
}

pub fn translate_write(m: &[u8], user: bool, stb: u32, va: u32) -> Walk
    ensures { result ≡ walk user stb kind.Write va m.now }
{
    let s = segment_entry(m, stb, va);
    second_stage(m, user, stb, AccessKind::Write, va, s)
}

pub fn translate_fill(m: &[u8], user: bool, stb: u32, va: u32) -> Walk
    ensures { result ≡ walk user stb kind.Read va m.now }
{
    let s = segment_entry(m, stb, va);
    second_stage(m, user, stb, AccessKind::Read, va, s)
}

pub fn translate_flush(m: &[u8], user: bool, stb: u32, va: u32) -> Walk
    ensures { result ≡ walk user stb kind.Write va m.now }
{
    let s = segment_entry(m, stb, va);
    second_stage(m, user, stb, AccessKind::Write, va, s)
}

// Where an access goes: through the tables where addresses are virtual, else to the address itself.
pub fn route(m: &[u8], stb: u32, user: bool, translated: bool, k: AccessKind, va: u32) -> Walk
    ensures { result ≡ route_of (record { stb = stb; user = user; translated = translated }) k va m.now }
{
    if translated {
        translate(m, user, stb, k, va)
    } else {
        Walk::Direct(va)
    }
}
