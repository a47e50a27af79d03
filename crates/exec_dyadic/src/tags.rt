// TADD and TSUB: a result goes to memory before its flags, and to a register after them.
ghost use Rattle.datapath.specs.Clauses.{Ends};
ghost use Rattle.exec_spec.specs.Dyadic.{write_tagged, store_tagged, tagged as tagged_of, compute_tagged, put_tagged};
ghost use Rattle.exec_operands.specs.Code.{place_at};

use crate::finding::read_both;
use access_spec::Journal;
use exec_alu::operations::tagged;
use exec_operands::places::write_at;
use exec_registers::registers::write_register;
use exec_registers::status::tagged_flags;
use isa::{Operand, Wide};
use machine::places::PSW;
use machine::registers::register_of;
use machine::{Bank, Quads};
use memory::answers::{EXCEPTION, good, low32};
use word::Tagged;

// To an operand that is no register, found at a.
fn put_tagged(
    m: &mut [u8],
    journal: &mut Journal,
    q: &mut Quads,
    r: &mut Bank,
    t: Tagged,
    d: Operand,
    a: u32,
) -> u64
    ensures { Ends result m journal q r (λ c. put_tagged c t (place_at d a)) }
{
    let x = write_at(m, journal, q, r, d, a, t.value);
    if EXCEPTION <= x {
        x
    } else {
        tagged_flags(r, t);
        x
    }
}

// To an operand found at a.
fn write_tagged(
    m: &mut [u8],
    journal: &mut Journal,
    q: &mut Quads,
    r: &mut Bank,
    t: Tagged,
    d: Operand,
    a: u32,
) -> u64
    ensures { Ends result m journal q r (λ c. write_tagged c t (place_at d a)) }
{
    match d {
        Operand::General(_, _) => put_tagged(m, journal, q, r, t, d, a),
        Operand::Register(n) => {
            tagged_flags(r, t);
            write_register(r, register_of(n), t.value);
            good(0)
        }
    }
}

// Unless F is set.
fn store_tagged(
    m: &mut [u8],
    journal: &mut Journal,
    q: &mut Quads,
    r: &mut Bank,
    t: Tagged,
    d: Operand,
    a: u32,
) -> u64
    ensures { Ends result m journal q r (λ c. store_tagged c t (place_at d a)) }
{
    if t.stored {
        write_tagged(m, journal, q, r, t, d, a)
    } else {
        tagged_flags(r, t);
        good(0)
    }
}

// The result of destination y and source x.
fn tagged_with(
    m: &mut [u8],
    journal: &mut Journal,
    q: &mut Quads,
    r: &mut Bank,
    minus: bool,
    d: Operand,
    a: u32,
    x: u32,
    y: u32,
) -> u64
    ensures { Ends result m journal q r (λ c. store_tagged c (tagged_of minus c y x) (place_at d a)) }
{
    let t = tagged(minus, r[PSW], y, x);
    store_tagged(m, journal, q, r, t, d, a)
}

// TSUB or TADD.
pub fn compute_tagged(
    m: &mut [u8],
    journal: &mut Journal,
    q: &mut Quads,
    r: &mut Bank,
    wide: Wide,
    minus: bool,
    s: Operand,
    d: Operand,
) -> u64
    ensures { Ends result m journal q r (λ c. compute_tagged c wide minus s d) }
{
    let b = read_both(m, journal, q, r, wide, s, d);
    if EXCEPTION <= b.answer {
        b.answer
    } else {
        tagged_with(
            m,
            journal,
            q,
            r,
            minus,
            d,
            b.address,
            b.source,
            low32(b.answer),
        )
    }
}
