// CALL, JMP, JMPT, JMPF, LDRAA and RETURN.
ghost use Rattle.datapath.specs.Clauses.{Ends};
ghost use Rattle.access_spec.specs.Clauses.{only_read};
ghost use Rattle.exec_spec.specs.Control.{jump as jump_of, jump_if, call as call_of, load_address, return as return_of, call_to, load_accumulator};

use crate::words::{read_word32, stack_pointer};
use access_spec::Journal;
use datapath::transfers::{load, store};
use exec_registers::flow::{advance_pc, jumped, next_pc, released, stack_address};
use isa::MonadicMode;
use machine::{Bank, Quads};
use memory::answers::{EXCEPTION, low32};
use word::Width;

pub fn jump(
    m: &mut [u8],
    journal: &mut Journal,
    q: &Quads,
    r: &mut Bank,
    mode: MonadicMode,
    v: u32,
) -> u64
    ensures { Ends result m journal (only_read q) r (λ c. jump_of c mode v) }
{
    let x = read_word32(m, journal, q, r, mode, v);
    if EXCEPTION <= x {
        return x;
    }
    jumped(r, low32(x));
    x
}

// JMPT and JMPF, whose flag was looked at; n is the parcels of the instruction.
pub fn jump_if(
    m: &mut [u8],
    journal: &mut Journal,
    q: &Quads,
    r: &mut Bank,
    taken: bool,
    mode: MonadicMode,
    v: u32,
    n: u32,
) -> u64
    ensures { Ends result m journal (only_read q) r (λ c. jump_if taken c mode v n) }
{
    if taken {
        jump(m, journal, q, r, mode, v)
    } else {
        advance_pc(r, n);
        0
    }
}

// The next PC to the word at the current stack pointer, then PC to a.
fn call_to(m: &mut [u8], journal: &mut Journal, q: &mut Quads, r: &mut Bank, a: u32, n: u32) -> u64
    ensures { Ends result m journal q r (λ c. call_to c a n) }
{
    let s = stack_pointer(r);
    let p = next_pc(r, n);
    let x = store(m, journal, q, r, Width::Word, s, p);
    if EXCEPTION <= x {
        return x;
    }
    jumped(r, a);
    x
}

pub fn call(
    m: &mut [u8],
    journal: &mut Journal,
    q: &mut Quads,
    r: &mut Bank,
    mode: MonadicMode,
    v: u32,
    n: u32,
) -> u64
    ensures { Ends result m journal q r (λ c. call_of c mode v n) }
{
    let x = read_word32(m, journal, q, r, mode, v);
    if EXCEPTION <= x {
        return x;
    }
    call_to(m, journal, q, r, low32(x), n)
}

// a to the accumulator, then the instruction in line.
fn load_accumulator(
    m: &mut [u8],
    journal: &mut Journal,
    q: &mut Quads,
    r: &mut Bank,
    a: u32,
    n: u32,
) -> u64
    ensures { Ends result m journal q r (λ c. load_accumulator c a n) }
{
    let s = stack_address(r, 4);
    let x = store(m, journal, q, r, Width::Word, s, a);
    if EXCEPTION <= x {
        return x;
    }
    advance_pc(r, n);
    x
}

// LDRAA.
pub fn load_address(
    m: &mut [u8],
    journal: &mut Journal,
    q: &mut Quads,
    r: &mut Bank,
    mode: MonadicMode,
    v: u32,
    n: u32,
) -> u64
    ensures { Ends result m journal q r (λ c. load_address c mode v n) }
{
    let x = read_word32(m, journal, q, r, mode, v);
    if EXCEPTION <= x {
        return x;
    }
    load_accumulator(m, journal, q, r, low32(x), n)
}

// RETURN.
pub fn return_from(m: &mut [u8], journal: &mut Journal, q: &Quads, r: &mut Bank, v: u32) -> u64
    ensures { Ends result m journal (only_read q) r (λ c. return_of c v) }
{
    let a = stack_address(r, v);
    let x = load(m, journal, q, r, Width::Word, a);
    if EXCEPTION <= x {
        return x;
    }
    released(r, v);
    jumped(r, low32(x));
    x
}
