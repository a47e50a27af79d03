// Results and comparisons: the destination is read, then a result is written and its flags laid over PSW.
ghost use Rattle.datapath.specs.Clauses.{Ends};
ghost use Rattle.access_spec.specs.Clauses.{only_read};
ghost use Rattle.exec_spec.specs.Dyadic.{compute as compute_of, accumulate as accumulate_of, interlock as interlock_of, compare as compare_of, put_result, accumulate_result, compute_with, accumulate_with, interlock_with};
ghost use Rattle.exec_alu.specs.Results.{unpacked};
ghost use Rattle.exec_operands.specs.Code.{place_at};

use crate::finding::read_both;
use access_spec::Journal;
use exec_alu::operations::{divides, operate, related};
use exec_alu::results::value_of;
use exec_operands::accumulator::write_accumulator;
use exec_operands::places::write_at;
use exec_registers::status::{with_flag, with_flags};
use exec_spec::{Operation, Relation};
use isa::{Operand, Wide};
use machine::{Bank, Quads};
use memory::answers::{EXCEPTION, good, low32, raised};
use memory::exceptions::ZERO_DIVIDE;

// A packed result to the destination found at a.
fn put_result(
    m: &mut [u8],
    journal: &mut Journal,
    q: &mut Quads,
    r: &mut Bank,
    d: Operand,
    a: u32,
    w: u64,
) -> u64
    ensures { Ends result m journal q r (λ c. put_result c (place_at d a) (unpacked w)) }
{
    let x = write_at(m, journal, q, r, d, a, value_of(w));
    if EXCEPTION <= x {
        x
    } else {
        with_flags(r, w);
        x
    }
}

// A packed result to the accumulator.
fn accumulate_result(
    m: &mut [u8],
    journal: &mut Journal,
    q: &mut Quads,
    r: &mut Bank,
    w: u64,
) -> u64
    ensures { Ends result m journal q r (λ c. accumulate_result c (unpacked w)) }
{
    let x = write_accumulator(m, journal, q, r, value_of(w));
    if EXCEPTION <= x {
        x
    } else {
        with_flags(r, w);
        x
    }
}

// The result of destination y and source x.
fn compute_with(
    m: &mut [u8],
    journal: &mut Journal,
    q: &mut Quads,
    r: &mut Bank,
    op: Operation,
    d: Operand,
    a: u32,
    x: u32,
    y: u32,
) -> u64
    ensures { Ends result m journal q r (λ c. compute_with c op (place_at d a) x y) }
{
    if divides(op) & (x == 0) {
        raised(ZERO_DIVIDE)
    } else {
        put_result(m, journal, q, r, d, a, operate(op, y, x))
    }
}

fn accumulate_with(
    m: &mut [u8],
    journal: &mut Journal,
    q: &mut Quads,
    r: &mut Bank,
    op: Operation,
    x: u32,
    y: u32,
) -> u64
    ensures { Ends result m journal q r (λ c. accumulate_with c op x y) }
{
    if divides(op) & (x == 0) {
        raised(ZERO_DIVIDE)
    } else {
        accumulate_result(m, journal, q, r, operate(op, y, x))
    }
}

// The result to the destination, and what was there to the accumulator.
fn interlock_with(
    m: &mut [u8],
    journal: &mut Journal,
    q: &mut Quads,
    r: &mut Bank,
    op: Operation,
    d: Operand,
    a: u32,
    x: u32,
    y: u32,
) -> u64
    ensures { Ends result m journal q r (λ c. interlock_with c op (place_at d a) x y) }
{
    let w = operate(op, y, x);
    let e = write_at(m, journal, q, r, d, a, value_of(w));
    if EXCEPTION <= e {
        e
    } else {
        write_accumulator(m, journal, q, r, y)
    }
}

// ADD and its like.
pub fn compute(
    m: &mut [u8],
    journal: &mut Journal,
    q: &mut Quads,
    r: &mut Bank,
    wide: Wide,
    op: Operation,
    s: Operand,
    d: Operand,
) -> u64
    ensures { Ends result m journal q r (λ c. compute_of c wide op s d) }
{
    let b = read_both(m, journal, q, r, wide, s, d);
    if EXCEPTION <= b.answer {
        b.answer
    } else {
        compute_with(
            m,
            journal,
            q,
            r,
            op,
            d,
            b.address,
            b.source,
            low32(b.answer),
        )
    }
}

// ADD3 and its like.
pub fn accumulate(
    m: &mut [u8],
    journal: &mut Journal,
    q: &mut Quads,
    r: &mut Bank,
    wide: Wide,
    op: Operation,
    s: Operand,
    d: Operand,
) -> u64
    ensures { Ends result m journal q r (λ c. accumulate_of c wide op s d) }
{
    let b = read_both(m, journal, q, r, wide, s, d);
    if EXCEPTION <= b.answer {
        b.answer
    } else {
        accumulate_with(m, journal, q, r, op, b.source, low32(b.answer))
    }
}

// ADDI, ANDI, ORI.
pub fn interlock(
    m: &mut [u8],
    journal: &mut Journal,
    q: &mut Quads,
    r: &mut Bank,
    wide: Wide,
    op: Operation,
    s: Operand,
    d: Operand,
) -> u64
    ensures { Ends result m journal q r (λ c. interlock_of c wide op s d) }
{
    let b = read_both(m, journal, q, r, wide, s, d);
    if EXCEPTION <= b.answer {
        b.answer
    } else {
        interlock_with(
            m,
            journal,
            q,
            r,
            op,
            d,
            b.address,
            b.source,
            low32(b.answer),
        )
    }
}

// CMP.
pub fn compare(
    m: &mut [u8],
    journal: &mut Journal,
    q: &Quads,
    r: &mut Bank,
    wide: Wide,
    relation: Relation,
    s: Operand,
    d: Operand,
) -> u64
    ensures { Ends result m journal (only_read q) r (λ c. compare_of c wide relation s d) }
{
    let b = read_both(m, journal, q, r, wide, s, d);
    if EXCEPTION <= b.answer {
        b.answer
    } else {
        with_flag(r, related(relation, b.source, low32(b.answer)));
        good(0)
    }
}
