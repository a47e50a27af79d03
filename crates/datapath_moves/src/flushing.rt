// Flushing: quad-words of the stack cache to memory, from MSP down.
ghost use Rattle.std.specs.Prelude.{◌≡◌, true, set, ◌+◌, ◌%◌, ◌^◌, ◌<◌};
ghost use Rattle.word.specs.declared.Width.TheVariants as width;
ghost use Rattle.memory.specs.Answers.{answer_of};
ghost use Rattle.mmu.specs.declared.AccessKind.TheVariants as kind;
ghost use Rattle.access_spec.specs.Access.{write as writes};
ghost use Rattle.access_spec.specs.Clauses.{only_read, Answers, Interprets};
ghost use Rattle.machine.specs.Registers.{Bank};
ghost use Rattle.machine.specs.Status.{cpu, regime};
ghost use Rattle.access.specs.Followed.{regime_for};
ghost use Rattle.access.specs.Quads.{Quad};
ghost use Rattle.datapath.specs.Parts.{replied};
ghost use Rattle.datapath.specs.Code.{cpu_out};
ghost use Rattle.datapath.specs.Moves.{flush_word, flush_quad, may_flush, flush as flush_of};
ghost use Rattle.datapath.specs.Clauses.{entry_cpu, Ends};

use crate::QUAD_WORDS;
use access::accesses::store_noted;
use access::quads::flush_place;
use access_spec::Journal;
use datapath::faults::set_fault;
use machine::cache::cache_word;
use machine::places::{MSP, SP, STB};
use machine::status::{is_user, is_virtual};
use machine::{Bank, Quads, STACK_CACHE_BYTES};
use memory::answers::{EXCEPTION, low32};
use word::Width;
use word::sums::{minus, plus};

fn flush_word(m: &mut [u8], journal: &mut Journal, q: &Quads, r: &Bank, a: u32) -> u64
    ensures { Interprets (replied (entry_cpu (only_read q) (only_read r)) a (answer_of result)) m journal (flush_word (entry_cpu (only_read q) (only_read r)) a) }
{
    let v = cache_word(q, a);
    access::accesses::write(
        m,
        journal,
        Width::Word,
        r[STB],
        is_user(r),
        is_virtual(r),
        a,
        v,
    )
}

// The quad-word at a word by word, and MSP down to it; words stored before a fault stay.
fn flush_words(m: &mut [u8], journal: &mut Journal, q: &Quads, r: &mut Bank, a: u32) -> u64
    ensures { Ends result m journal (only_read q) r (λ c. flush_quad c a) }
{
    let x0 = flush_word(m, journal, q, r, a);
    if EXCEPTION <= x0 {
        set_fault(r, x0, a);
        return x0;
    }
    let b = plus(a, 4);
    let x1 = flush_word(m, journal, q, r, b);
    if EXCEPTION <= x1 {
        set_fault(r, x1, b);
        return x1;
    }
    let c = plus(a, 8);
    let x2 = flush_word(m, journal, q, r, c);
    if EXCEPTION <= x2 {
        set_fault(r, x2, c);
        return x2;
    }
    let d = plus(a, 12);
    let x3 = flush_word(m, journal, q, r, d);
    if EXCEPTION <= x3 {
        set_fault(r, x3, d);
        return x3;
    }
    r[MSP] = a;
    x3
}

// The word v stored i bytes on in the quad-word at a that `flush_place` found at pa, which keeps its place.
fn write_beside(
    m: &mut [u8],
    journal: &mut Journal,
    stb: u32,
    user: bool,
    a: u32,
    pa: u32,
    i: u32,
    v: u32,
) -> u64
    requires { Quad user stb kind.Write a m.old pa × (i < 16) × (i % 4 ≡ 0) }
    ensures { Answers result m journal (writes (regime_for stb user true) width.Word (a + i) v)
        × Quad user stb kind.Write a m.new pa × (result < 2 ^ 32) }
{
    store_noted(m, journal, Width::Word, pa + i, v)
}

// The words of the quad-word at a, found at pa.
fn flush_found(
    m: &mut [u8],
    journal: &mut Journal,
    q: &Quads,
    stb: u32,
    user: bool,
    a: u32,
    pa: u32,
) -> u64
    requires { Quad user stb kind.Write a m.old pa }
    ensures { (b : Bank) → regime b ≡ regime_for stb user true
        → Interprets (cpu_out (answer_of result) (set b 4 a) q.now) m journal (flush_quad (cpu b q.now) a) }
{
    let v0 = cache_word(q, a);
    let x0 = write_beside(m, journal, stb, user, a, pa, 0, v0);
    let v1 = cache_word(q, plus(a, 4));
    let x1 = write_beside(m, journal, stb, user, a, pa, 4, v1);
    let v2 = cache_word(q, plus(a, 8));
    let x2 = write_beside(m, journal, stb, user, a, pa, 8, v2);
    let v3 = cache_word(q, plus(a, 12));
    write_beside(m, journal, stb, user, a, pa, 12, v3)
}

// The quad-word at a, by one walk where that does for its four words.
fn flush_quad(m: &mut [u8], journal: &mut Journal, q: &Quads, r: &mut Bank, a: u32) -> u64
    ensures { Ends result m journal (only_read q) r (λ c. flush_quad c a) }
{
    let translated = is_virtual(r);
    let stb = r[STB];
    let user = is_user(r);
    if translated {
        let x = flush_place(m, stb, user, a);
        if x < EXCEPTION {
            let y = flush_found(m, journal, q, stb, user, a, low32(x));
            r[MSP] = a;
            return y;
        }
    }
    flush_words(m, journal, q, r, a)
}

// Whether words are held, and all are to go or too many would be held above the target.
fn may_flush(r: &Bank, all: bool, target: u32) -> bool
    ensures { result ≡ may_flush all target r.now }
{
    (r[MSP] != r[SP]) & (all | (STACK_CACHE_BYTES < minus(r[MSP], target)))
}

// At most the sixteen quad-words of the cache, left at the first fault with the last MSP reached.
pub fn flush(
    m: &mut [u8],
    journal: &mut Journal,
    q: &Quads,
    r: &mut Bank,
    all: bool,
    target: u32,
) -> u64
    ensures { Ends result m journal (only_read q) r (λ c. flush_of all target 16 c) }
{
    let mut x: u64 = 0;
    let mut n: u32 = QUAD_WORDS;
    while 0 < n {
        if may_flush(r, all, target) {
            let a = minus(r[MSP], 16);
            x = flush_quad(m, journal, q, r, a);
            if EXCEPTION <= x {
                break;
            }
            n = n - 1;
        } else {
            break;
        }
    }
    x
}
