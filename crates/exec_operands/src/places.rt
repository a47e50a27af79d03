// Where operands are, and how they are read and written there: an address stands for a place in memory, 0 for others.
ghost use Rattle.std.specs.Prelude.{◌≡◌};
ghost use Rattle.access_spec.specs.Clauses.{only_read};
ghost use Rattle.isa.specs.declared.Operand.TheVariants as operand;
ghost use Rattle.datapath.specs.Clauses.{Ends, YieldsAs, Yields};
ghost use Rattle.exec_spec.specs.Operands.{mode_kind, located, locate, in_memory, read_place, read_operand, write_place};
ghost use Rattle.exec_operands.specs.Code.{is_constant, general_at, place_at};

use crate::registers::word_at;
use access_spec::Journal;
use datapath::transfers::{load, store};
use exec_alu::OperandKind;
use exec_alu::modes::{absolute, expand, mode_kind, width_of};
use exec_registers::flow::stack_address;
use exec_registers::registers::write_register;
use isa::{Mode, Operand, Wide};
use machine::places::{CONFIG, PC};
use machine::registers::register_of;
use machine::{Bank, Quads};
use memory::answers::{EXCEPTION, good, low32};
use word::Width;

// Whether a mode's operand is in the instruction.
pub fn is_constant(mode: Mode) -> bool
    ensures { result ≡ is_constant (mode_kind mode) }
{
    let k = mode_kind(mode);
    match k {
        OperandKind::Absolute => false,
        OperandKind::Offset => false,
        OperandKind::Indirect => false,
        OperandKind::Constant => true,
    }
}

// An operand that is no register: the word at its stack offset comes before an indirect one.
fn locate_general(
    m: &mut [u8],
    journal: &mut Journal,
    q: &Quads,
    r: &mut Bank,
    wide: Wide,
    mode: Mode,
    v: u32,
) -> u64
    ensures { YieldsAs (place_at (operand.General mode v)) result m journal (only_read q) r (λ c. located c wide (mode_kind mode) mode v) }
{
    let k = mode_kind(mode);
    match k {
        OperandKind::Absolute => good(absolute(r[CONFIG], r[PC], wide, v)),
        OperandKind::Offset => good(stack_address(r, v)),
        OperandKind::Indirect => {
            let a = stack_address(r, v);
            load(m, journal, q, r, Width::Word, a)
        }
        OperandKind::Constant => good(0),
    }
}

// The address of an operand.
pub fn locate_at(
    m: &mut [u8],
    journal: &mut Journal,
    q: &Quads,
    r: &mut Bank,
    wide: Wide,
    o: Operand,
) -> u64
    ensures { YieldsAs (place_at o) result m journal (only_read q) r (λ c. locate c wide o) }
{
    match o {
        Operand::General(mode, v) => locate_general(m, journal, q, r, wide, mode, v),
        Operand::Register(_) => good(0),
    }
}

// The operand of a mode in memory, at 32 bits.
fn read_expanded(
    m: &mut [u8],
    journal: &mut Journal,
    q: &Quads,
    r: &mut Bank,
    mode: Mode,
    a: u32,
) -> u64
    ensures { Yields result m journal (only_read q) r (λ c. read_place c (in_memory mode a)) }
{
    let x = load(m, journal, q, r, width_of(mode), a);
    if EXCEPTION <= x {
        x
    } else {
        good(expand(mode, low32(x)))
    }
}

// An operand that is no register, found at a.
fn read_general(
    m: &mut [u8],
    journal: &mut Journal,
    q: &Quads,
    r: &mut Bank,
    mode: Mode,
    v: u32,
    a: u32,
) -> u64
    ensures { Yields result m journal (only_read q) r (λ c. read_place c (general_at (mode_kind mode) mode v a)) }
{
    if is_constant(mode) {
        good(v)
    } else {
        read_expanded(m, journal, q, r, mode, a)
    }
}

// An operand found at a.
pub fn read_at(
    m: &mut [u8],
    journal: &mut Journal,
    q: &Quads,
    r: &mut Bank,
    o: Operand,
    a: u32,
) -> u64
    ensures { Yields result m journal (only_read q) r (λ c. read_place c (place_at o a)) }
{
    match o {
        Operand::General(mode, v) => read_general(m, journal, q, r, mode, v, a),
        Operand::Register(n) => good(word_at(r, register_of(n))),
    }
}

// An operand found and read.
pub fn read_operand(
    m: &mut [u8],
    journal: &mut Journal,
    q: &Quads,
    r: &mut Bank,
    wide: Wide,
    o: Operand,
) -> u64
    ensures { Yields result m journal (only_read q) r (λ c. read_operand c wide o) }
{
    let a = locate_at(m, journal, q, r, wide, o);
    if EXCEPTION <= a {
        a
    } else {
        read_at(m, journal, q, r, o, low32(a))
    }
}

// To an operand that is no register, found at a.
fn write_general(
    m: &mut [u8],
    journal: &mut Journal,
    q: &mut Quads,
    r: &mut Bank,
    mode: Mode,
    held: u32,
    a: u32,
    v: u32,
) -> u64
    ensures { Ends result m journal q r (λ c. write_place c (general_at (mode_kind mode) mode held a) v) }
{
    if is_constant(mode) {
        good(0)
    } else {
        store(m, journal, q, r, width_of(mode), a, v)
    }
}

// To an operand found at a.
pub fn write_at(
    m: &mut [u8],
    journal: &mut Journal,
    q: &mut Quads,
    r: &mut Bank,
    o: Operand,
    a: u32,
    v: u32,
) -> u64
    ensures { Ends result m journal q r (λ c. write_place c (place_at o a) v) }
{
    match o {
        Operand::General(mode, x) => write_general(m, journal, q, r, mode, x, a, v),
        Operand::Register(n) => {
            write_register(r, register_of(n), v);
            good(0)
        }
    }
}
