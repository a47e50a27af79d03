// Filling: quad-words of memory to the stack cache, from MSP up, in a regime given by its numbers.
ghost use Rattle.std.specs.Prelude.{◌≡◌, true, ◌+◌, ◌%◌, ◌^◌, ◌<◌};
ghost use Rattle.word.specs.declared.Width.TheVariants as width;
ghost use Rattle.memory.specs.Answers.{answer_of};
ghost use Rattle.mmu.specs.declared.AccessKind.TheVariants as kind;
ghost use Rattle.access_spec.specs.Access.{read as reads};
ghost use Rattle.access_spec.specs.Journal.{Journal};
ghost use Rattle.access_spec.specs.Clauses.{Interprets, AnswersReadOnly, InterpretsReadOnly};
ghost use Rattle.machine.specs.Registers.{Bank};
ghost use Rattle.machine.specs.Cache.{Cache};
ghost use Rattle.machine.specs.Status.{cpu};
ghost use Rattle.access.specs.Followed.{regime_for};
ghost use Rattle.access.specs.Quads.{Quad};
ghost use Rattle.datapath.specs.Code.{cpu_out};
ghost use Rattle.datapath.specs.Moves.{fill_quad, may_fill, fill as fill_of};
ghost use Rattle.datapath.specs.Clauses.{entry_cpu, Ends};
ghost use Rattle.datapath_moves.specs.Words.{reading_stopped, quad_out};

use crate::QUAD_WORDS;
use access::accesses::read;
use access::quads::fill_place;
use access_spec::Journal;
use datapath::faults::set_fault;
use machine::places::{MSP, SP};
use machine::{Bank, Quads, STACK_CACHE_BYTES};
use memory::answers::{EXCEPTION, low32};
use memory::loads::load_word;
use word::Width;
use word::fields::field;
use word::sums::{minus, plus};

// The last word of a quad-word and the three before it; or the answer that faulted, and the address of its word.
#[derive(Clone, Copy)]
pub struct QuadWords {
    pub answer: u64,
    pub at: u32,
    pub w0: u32,
    pub w1: u32,
    pub w2: u32,
}

// A reading that was stopped at a word.
fn stopped_at(answer: u64, at: u32) -> QuadWords
    ensures { result ≡ reading_stopped answer at }
{
    QuadWords {
        answer,
        at,
        w0: 0,
        w1: 0,
        w2: 0,
    }
}

// The words of the quad-word at a, each by itself.
fn read_words(
    m: &mut [u8],
    journal: &mut Journal,
    stb: u32,
    user: bool,
    translated: bool,
    a: u32,
) -> QuadWords
    ensures { (b : Bank) (q : Cache)
        → Interprets (quad_out (cpu b q) a result) m journal (fill_quad (cpu b q) (regime_for stb user translated) a) }
{
    let x0 = read(m, journal, Width::Word, stb, user, translated, a);
    if EXCEPTION <= x0 {
        return stopped_at(x0, a);
    }
    let b = plus(a, 4);
    let x1 = read(m, journal, Width::Word, stb, user, translated, b);
    if EXCEPTION <= x1 {
        return stopped_at(x1, b);
    }
    let c = plus(a, 8);
    let x2 = read(m, journal, Width::Word, stb, user, translated, c);
    if EXCEPTION <= x2 {
        return stopped_at(x2, c);
    }
    let d = plus(a, 12);
    let x3 = read(m, journal, Width::Word, stb, user, translated, d);
    QuadWords {
        answer: x3,
        at: d,
        w0: low32(x0),
        w1: low32(x1),
        w2: low32(x2),
    }
}

// The quad-word at a word by word, and MSP up past it; one whose read faults changes no word of the cache.
fn fill_words(
    m: &mut [u8],
    journal: &mut Journal,
    q: &mut Quads,
    r: &mut Bank,
    stb: u32,
    user: bool,
    translated: bool,
    a: u32,
) -> u64
    ensures { Ends result m journal q r (λ c. fill_quad c (regime_for stb user translated) a) }
{
    let x = read_words(m, journal, stb, user, translated, a);
    if EXCEPTION <= x.answer {
        set_fault(r, x.answer, x.at);
        return x.answer;
    }
    let i = field(a, 4, 4) as usize;
    q[i] = [x.w0, x.w1, x.w2, low32(x.answer)];
    r[MSP] = plus(a, 16);
    x.answer
}

// The word i bytes on in the quad-word at a that `fill_place` found at pa. (stb, user and a stand in the contract
// alone.)
fn read_beside(m: &[u8], stb: u32, user: bool, a: u32, pa: u32, i: u32) -> u64
    requires { Quad user stb kind.Read a m.now pa × (i < 16) × (i % 4 ≡ 0) }
    ensures { ((j : Journal) → AnswersReadOnly result m.now j (reads (regime_for stb user true) width.Word (a + i))) × (result < 2 ^ 32) }
{
    load_word(m, pa + i)
}

// The quad-word at a, found at pa.
fn fill_found(m: &[u8], q: &mut Quads, r: &mut Bank, stb: u32, user: bool, a: u32, pa: u32) -> u64
    requires { Quad user stb kind.Read a m.now pa }
    ensures { (j : Journal)
        → InterpretsReadOnly (cpu_out (answer_of result) r.new q.new) m.now j (fill_quad (entry_cpu q r) (regime_for stb user true) a) }
{
    let x0 = read_beside(m, stb, user, a, pa, 0);
    let x1 = read_beside(m, stb, user, a, pa, 4);
    let x2 = read_beside(m, stb, user, a, pa, 8);
    let x3 = read_beside(m, stb, user, a, pa, 12);
    let i = field(a, 4, 4) as usize;
    q[i] = [low32(x0), low32(x1), low32(x2), low32(x3)];
    r[MSP] = plus(a, 16);
    x3
}

// The quad-word at a, by one walk where that does for its four words.
fn fill_quad(
    m: &mut [u8],
    journal: &mut Journal,
    q: &mut Quads,
    r: &mut Bank,
    stb: u32,
    user: bool,
    translated: bool,
    a: u32,
) -> u64
    ensures { Ends result m journal q r (λ c. fill_quad c (regime_for stb user translated) a) }
{
    if translated {
        let x = fill_place(m, stb, user, a);
        if x < EXCEPTION {
            return fill_found(m, q, r, stb, user, a, low32(x));
        }
    }
    fill_words(m, journal, q, r, stb, user, translated, a)
}

// Whether MSP is below the target and the cache is not full.
fn may_fill(r: &Bank, target: u32) -> bool
    ensures { result ≡ may_fill target r.now }
{
    (r[MSP] < target) & (minus(r[MSP], r[SP]) < STACK_CACHE_BYTES)
}

// At most the sixteen quad-words of the cache, left at the first fault with the last MSP reached.
pub fn fill(
    m: &mut [u8],
    journal: &mut Journal,
    q: &mut Quads,
    r: &mut Bank,
    stb: u32,
    user: bool,
    translated: bool,
    target: u32,
) -> u64
    ensures { Ends result m journal q r (λ c. fill_of (regime_for stb user translated) target 16 c) }
{
    let mut x: u64 = 0;
    let mut n: u32 = QUAD_WORDS;
    while 0 < n {
        if may_fill(r, target) {
            let a = r[MSP];
            x = fill_quad(m, journal, q, r, stb, user, translated, a);
            if EXCEPTION <= x {
                break;
            }
            n = n - 1;
        } else {
            break;
        }
    }
    x
}
