// Two or four words in a row, as DQM reads and writes them.
ghost use Rattle.std.specs.Prelude.{◌≡◌, ℕ, List, [], ◌∷◌};
ghost use Rattle.memory.specs.Answers.{answer_of};
ghost use Rattle.access_spec.specs.Program.{Program};
ghost use Rattle.access_spec.specs.Clauses.{only_read, Continues};
ghost use Rattle.machine.specs.Status.{Cpu};
ghost use Rattle.datapath.specs.Parts.{Out};
ghost use Rattle.datapath.specs.Clauses.{entry_cpu, Ends};
ghost use Rattle.exec_spec.specs.Dyadic.{write_words, write_many};
ghost use Rattle.exec_operands.specs.Code.{place_at, Resumes};
ghost use Rattle.exec_dqm.specs.Words.{continued, loading, storing, words_for, count_for, aligned_to, is_scalar, scalar_of, many_then, loading_four};

use access_spec::Journal;
use datapath::transfers::{load, store};
use exec_operands::places::is_constant;
use exec_operands::registers::word_at;
use isa::Operand;
use machine::registers::register_of;
use machine::{Bank, Quads};
use memory::answers::{EXCEPTION, good, low32, raised};
use memory::exceptions::ALIGNMENT_FAULT;
use word::Width;
use word::sums::plus;

// The last of two or four words or an exception, and the words before it.
#[derive(Clone, Copy)]
pub struct MovedWords {
    pub answer: u64,
    pub w0: u32,
    pub w1: u32,
    pub w2: u32,
}

// Whether an operand is not in memory, and its word.
fn is_scalar(o: Operand) -> bool
    ensures { result ≡ is_scalar o }
{
    match o {
        Operand::General(mode, _) => is_constant(mode),
        Operand::Register(_) => true,
    }
}

fn scalar(r: &Bank, o: Operand) -> u32
    ensures { result ≡ scalar_of r.now o }
{
    match o {
        Operand::General(_, v) => v,
        Operand::Register(n) => word_at(r, register_of(n)),
    }
}

// Whether a is divisible by the bytes of two or four words.
fn is_aligned(double: bool, a: u32) -> bool
    ensures { result ≡ aligned_to double a }
{
    if double { a % 8 == 0 } else { a % 16 == 0 }
}

// Two words from a on.
fn load_pair(m: &mut [u8], journal: &mut Journal, q: &Quads, r: &mut Bank, a: u32) -> MovedWords
    ensures { Resumes (ℕ → ℕ → Program (Out Cpu)) result.answer m journal (only_read q) r (λ f y. f result.w0 y) (λ c f. loading c a f) }
{
    let x = load(m, journal, q, r, Width::Word, a);
    if EXCEPTION <= x {
        MovedWords {
            answer: x,
            w0: 0,
            w1: 0,
            w2: 0,
        }
    } else {
        let y = load(m, journal, q, r, Width::Word, plus(a, 4));
        MovedWords {
            answer: y,
            w0: low32(x),
            w1: 0,
            w2: 0,
        }
    }
}

// Four.
fn load_four(m: &mut [u8], journal: &mut Journal, q: &Quads, r: &mut Bank, a: u32) -> MovedWords
    ensures { Resumes (ℕ → ℕ → ℕ → ℕ → Program (Out Cpu)) result.answer m journal (only_read q) r
        (λ f y. f result.w0 result.w1 result.w2 y) (λ c f. loading_four c a f) }
{
    let p = load_pair(m, journal, q, r, a);
    if EXCEPTION <= p.answer {
        MovedWords {
            answer: p.answer,
            w0: 0,
            w1: 0,
            w2: 0,
        }
    } else {
        let l = low32(p.answer);
        let s = load_pair(m, journal, q, r, plus(plus(a, 4), 4));
        MovedWords {
            answer: s.answer,
            w0: p.w0,
            w1: l,
            w2: s.w0,
        }
    }
}

// The words of an operand found at a.
pub fn read_many(
    m: &mut [u8],
    journal: &mut Journal,
    q: &Quads,
    r: &mut Bank,
    double: bool,
    o: Operand,
    a: u32,
) -> MovedWords
    ensures { Resumes (List ℕ → Program (Out Cpu)) result.answer m journal (only_read q) r
        (λ f y. f (words_for double result.w0 result.w1 result.w2 y)) (λ c f. many_then c double (place_at o a) f) }
{
    if is_scalar(o) {
        let v = scalar(r, o);
        return MovedWords {
            answer: good(v),
            w0: v,
            w1: v,
            w2: v,
        };
    }
    if !is_aligned(double, a) {
        return MovedWords {
            answer: raised(ALIGNMENT_FAULT),
            w0: 0,
            w1: 0,
            w2: 0,
        };
    }
    if double {
        return load_pair(m, journal, q, r, a);
    }
    load_four(m, journal, q, r, a)
}

// Two words to a and on.
fn store_pair(
    m: &mut [u8],
    journal: &mut Journal,
    q: &mut Quads,
    r: &mut Bank,
    a: u32,
    x: u32,
    y: u32,
) -> u64
    ensures { (f : Cpu → Program (Out Cpu))
        → Continues (continued f (answer_of result) r.new q.new) m journal (storing (entry_cpu q r) a x y f) }
{
    let e = store(m, journal, q, r, Width::Word, a, x);
    if EXCEPTION <= e {
        e
    } else {
        store(m, journal, q, r, Width::Word, plus(a, 4), y)
    }
}

// Four.
fn store_four(
    m: &mut [u8],
    journal: &mut Journal,
    q: &mut Quads,
    r: &mut Bank,
    a: u32,
    w: MovedWords,
    y: u32,
) -> u64
    ensures { Ends result m journal q r (λ c. write_words c a (w.w0 ∷ w.w1 ∷ w.w2 ∷ y ∷ [])) }
{
    let e = store_pair(m, journal, q, r, a, w.w0, w.w1);
    if EXCEPTION <= e {
        e
    } else {
        store_pair(m, journal, q, r, plus(plus(a, 4), 4), w.w2, y)
    }
}

// To an operand found at a.
pub fn write_many(
    m: &mut [u8],
    journal: &mut Journal,
    q: &mut Quads,
    r: &mut Bank,
    double: bool,
    o: Operand,
    a: u32,
    w: MovedWords,
    y: u32,
) -> u64
    ensures { Ends result m journal q r (λ c. write_many c (count_for double) (place_at o a) (words_for double w.w0 w.w1 w.w2 y)) }
{
    if is_scalar(o) {
        return good(0);
    }
    if !is_aligned(double, a) {
        return raised(ALIGNMENT_FAULT);
    }
    if double {
        return store_pair(m, journal, q, r, a, w.w0, y);
    }
    store_four(m, journal, q, r, a, w, y)
}
