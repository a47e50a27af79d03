// MOV and MOVA.
ghost use Rattle.std.specs.Prelude.{◌≡◌};
ghost use Rattle.datapath.specs.Clauses.{Ends};
ghost use Rattle.exec_spec.specs.Operands.{mode_kind};
ghost use Rattle.exec_spec.specs.Dyadic.{move as move_of, move_address, place_address, move_to};
ghost use Rattle.exec_operands.specs.Code.{general_at, place_at};

use crate::finding::find;
use access_spec::Journal;
use exec_operands::places::{is_constant, locate_at, write_at};
use isa::{Mode, Operand, Wide};
use machine::{Bank, Quads};
use memory::answers::{EXCEPTION, low32};

// MOV.
pub fn move_operand(
    m: &mut [u8],
    journal: &mut Journal,
    q: &mut Quads,
    r: &mut Bank,
    wide: Wide,
    s: Operand,
    d: Operand,
) -> u64
    ensures { Ends result m journal q r (λ c. move_of c wide s d) }
{
    let f = find(m, journal, q, r, wide, s, d);
    if EXCEPTION <= f.answer {
        f.answer
    } else {
        write_at(m, journal, q, r, d, low32(f.answer), f.source)
    }
}

// The address of an operand that is no register: a constant is its own.
fn general_address(mode: Mode, v: u32, a: u32) -> u32
    ensures { result ≡ place_address (general_at (mode_kind mode) mode v a) }
{
    if is_constant(mode) { v } else { a }
}

// The address of an operand found at a.
fn address_of(o: Operand, a: u32) -> u32
    ensures { result ≡ place_address (place_at o a) }
{
    match o {
        Operand::General(mode, v) => general_address(mode, v, a),
        Operand::Register(_) => 0,
    }
}

// A word to the destination.
fn move_to(
    m: &mut [u8],
    journal: &mut Journal,
    q: &mut Quads,
    r: &mut Bank,
    wide: Wide,
    d: Operand,
    v: u32,
) -> u64
    ensures { Ends result m journal q r (λ c. move_to c wide d v) }
{
    let a = locate_at(m, journal, q, r, wide, d);
    if EXCEPTION <= a {
        a
    } else {
        write_at(m, journal, q, r, d, low32(a), v)
    }
}

// MOVA.
pub fn move_address(
    m: &mut [u8],
    journal: &mut Journal,
    q: &mut Quads,
    r: &mut Bank,
    wide: Wide,
    s: Operand,
    d: Operand,
) -> u64
    ensures { Ends result m journal q r (λ c. move_address c wide s d) }
{
    let a = locate_at(m, journal, q, r, wide, s);
    if EXCEPTION <= a {
        a
    } else {
        move_to(m, journal, q, r, wide, d, address_of(s, low32(a)))
    }
}
